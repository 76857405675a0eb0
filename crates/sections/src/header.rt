// A job's header: its words as counts, and its own bytes.
ghost use Rattle.std.specs.Prelude.{◌≡◌, ◌*◌, ◌≤◌, length};
ghost use Rattle.words.specs.Words.{word_at};
ghost use Rattle.model.specs.Format.{edition_of, second_width, header_of, format, bytes, words, section};
ghost use Rattle.model.specs.declared.Edition.TheVariants.{Third};
ghost use Rattle.model.specs.declared.Part.TheVariants.{Head};
ghost use Rattle.model.specs.declared.Header.{Header};

use model::{Edition, Header};

// The edition that word 0 names, the first where it names none.
fn edition(s: &[u8]) -> Edition
    requires { bytes Head ≤ length s.now }
    ensures { result ≡ edition_of (word_at s.now 0) }
{
    Edition::try_from(words::word(s, 0)).unwrap_or(Edition::First)
}

// The second carriageway's width; 0 where the edition has one carriageway.
fn second_width(s: &[u8], edition: Edition) -> usize
    requires { edition ≡ Third → 52 ≤ length s.now }
    ensures { result ≡ second_width edition s.now }
{
    match edition {
        Edition::First | Edition::Fourth | Edition::Second => 0,
        Edition::Third => words::count(s, 12),
    }
}

// The header's words as counts.
pub fn read(s: &[u8]) -> Header
    requires { 4 * words (header_of s.now) Head ≤ length s.now }
    ensures { result ≡ header_of s.now }
{
    let named = edition(s);
    Header {
        edition: named,
        h: words::count(s, 1),
        pieces: words::count(s, 2),
        spacing: words::count(s, 3),
        width: words::count(s, 4),
        kind: words::count(s, 5),
        value: words::count(s, 6),
        effects: words::count(s, 7),
        rows: words::count(s, 8),
        records: words::count(s, 9),
        second: second_width(s, named),
    }
}

// How many words an edition's header has.
pub fn size(edition: Edition) -> usize
    ensures { ((head : Header) → head.edition ≡ edition → result ≡ length (format head Head).fields) × (result ≤ 13) }
{
    match edition {
        Edition::First => model::HEADER_WORDS,
        Edition::Second => model::SECOND_HEADER_WORDS,
        Edition::Third => model::THIRD_HEADER_WORDS,
        Edition::Fourth => model::RURAL_HEADER_WORDS,
    }
}

// The header's own bytes, whatever its words say.
pub fn section(s: &[u8], head: Header) -> &[u8]
    requires { 4 * words head Head ≤ length s.now }
    ensures { result.now ≡ section s.now head Head }
{
    &s[0..4 * size(head.edition)]
}
