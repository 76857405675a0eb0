// Each part of a job by the table: the words of its items, their number, its start and its own bytes.
#![tactic(auto)]

pub mod header;

ghost use Rattle.std.specs.Prelude.{◌≡◌, ◌≤◌, ◌<◌, eqb, length, if◌then◌else◌};
ghost use Rattle.model.specs.Format.{effect_unit, spaces, format, effect_size, words, start, words_due, section_of};
ghost use Rattle.sections.specs.Sized.{Counted, Sized};

use model::{Edition, Header, Part};

// The words of an effect.
fn effect_words(head: Header) -> usize
    ensures { (result ≡ effect_size (effect_unit head.edition)) × (result ≤ 3) }
{
    match head.edition {
        Edition::First | Edition::Fourth => model::EFFECT_WORDS,
        Edition::Second | Edition::Third => model::NEWTON_EFFECT_WORDS,
    }
}

// The words of an item.
pub fn item_words(head: Header, part: Part) -> usize
    ensures { (result ≡ length (format head part).fields) × (result ≤ 13) }
{
    match part {
        Part::Head => header::size(head.edition),
        Part::Line => model::PIECE_WORDS,
        Part::Transverse => 1,
        Part::SecondTransverse => 1,
        Part::Effects => effect_words(head),
        Part::Rows => model::ROW_WORDS,
        Part::Records => model::RECORD_WORDS,
    }
}

// M: W / g rounded up.
fn spaces(w: usize, g: usize) -> usize
    requires { (w ≤ 2079) × (0 < g) × (g ≤ 50) }
    ensures { (result ≡ spaces w g) × (result ≤ 2079) }
{
    (w + g - 1) / g
}

// The ordinate at a carriageway's far edge: one, or none of no carriageway, whose width is 0.
fn far_edge(w: usize) -> usize
    ensures { (result ≡ (if eqb w 0 then 0 else 1)) × (result ≤ 1) }
{
    if w == 0 { 0 } else { 1 }
}

// The number of items.
pub fn items(head: Header, part: Part) -> usize
    requires { Counted head }
    ensures { (result ≡ (format head part).items) × (result ≤ 2080) }
{
    match part {
        Part::Head => 1,
        Part::Line => head.pieces,
        Part::Transverse => spaces(head.width, head.spacing) + 1,
        Part::SecondTransverse => spaces(head.second, head.spacing) + far_edge(head.second),
        Part::Effects => head.effects,
        Part::Rows => head.rows,
        Part::Records => head.records,
    }
}

// A part's words.
fn words(head: Header, part: Part) -> usize
    requires { Counted head }
    ensures { (result ≡ words head part) × (result ≤ 27040) }
{
    item_words(head, part) * items(head, part)
}

// Each part starts where the one before it ends.
pub fn start(head: Header, part: Part) -> usize
    requires { Counted head }
    ensures { (result ≡ start head part) × (result ≤ 162240) }
{
    let line = words(head, Part::Head);
    let transverse = line + words(head, Part::Line);
    let second = transverse + words(head, Part::Transverse);
    let effects = second + words(head, Part::SecondTransverse);
    let rows = effects + words(head, Part::Effects);
    let records = rows + words(head, Part::Rows);
    match part {
        Part::Head => 0,
        Part::Line => line,
        Part::Transverse => transverse,
        Part::SecondTransverse => second,
        Part::Effects => effects,
        Part::Rows => rows,
        Part::Records => records,
    }
}

// The word count that the header calls for.
pub fn words_due(head: Header) -> usize
    requires { Counted head }
    ensures { (result ≡ words_due head) × (result ≤ 189280) }
{
    start(head, Part::Records) + words(head, Part::Records)
}

// A part as its own bytes of the job.
pub fn section(s: &[u8], head: Header, part: Part) -> &[u8]
    requires { Sized s.now head }
    ensures { result.now ≡ section_of s.now part }
{
    let a = 4 * start(head, part);
    let e = a + 4 * words(head, part);
    &s[a..e]
}
