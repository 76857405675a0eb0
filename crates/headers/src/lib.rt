// The header's field at fault, by the limits of its row of the table.
#![tactic(auto)]

ghost use Rattle.std.specs.Prelude.{◌≡◌, List, ◌+◌, ◌*◌, ◌≤◌, length};
ghost use Rattle.exact.specs.Bounds.{Within};
ghost use Rattle.words.specs.Words.{word_at};
ghost use Rattle.words.specs.Fields.{Field, admits, misfit_from, item_from};
ghost use Rattle.model.specs.Format.{profile_of, piece_length, piece_count, dynamic_kinds, span_fits, dynamic_fits, least_span_fits, carriageway_width, listed_counts, newton_counts, table_counts, format, bytes, words};
ghost use Rattle.model.specs.Refusals.{clear_width, width_test};
ghost use Rattle.model.specs.declared.Edition.TheVariants.{Third, Fourth};
ghost use Rattle.model.specs.declared.Part.TheVariants.{Head};

use model::{Edition, Header};

// h, in dm.
pub fn length_fits(h: i64) -> bool
    ensures { result ≡ admits piece_length h }
{
    matches!(h, 1 | 2 | 5 | 10 | 25 | 50)
}

// N, and N times h at most 1000.
pub fn pieces_fit(h: i64, n: i64) -> bool
    requires { Within 2147483648 h }
    ensures { result ≡ admits (piece_count h) n }
{
    exact::is_between(1, 1000, n) && n * h <= 1000
}

// The dynamic kinds of an edition: from 1 to this.
fn dynamic_kinds(edition: Edition) -> usize
    ensures { result ≡ dynamic_kinds edition }
{
    match edition {
        Edition::First => 3,
        Edition::Second => 4,
        Edition::Third => 4,
        Edition::Fourth => 3,
    }
}

// Word p is a span in dm.
fn span_fits(s: &[u8], p: usize) -> bool
    requires { 4 * p + 4 ≤ length s.now }
    ensures { result ≡ span_fits (word_at s.now p) }
{
    limits::in_range(s, p, 1, 2000)
}

// The dynamic value for its kind.
fn dynamic_fits(s: &[u8]) -> bool
    requires { bytes Head ≤ length s.now }
    ensures { result ≡ dynamic_fits (word_at s.now 5) (word_at s.now 6) }
{
    match words::word(s, 5) {
        1 => limits::in_range(s, 6, 1000, 1300),
        2 => limits::in_range(s, 6, 0, 0),
        3 => limits::in_range(s, 6, 0, 5000),
        _ => span_fits(s, 6),
    }
}

// Word 10: with kind 4 the span for least, else 0.
fn least_span_fits(s: &[u8]) -> bool
    requires { 44 ≤ length s.now }
    ensures { result ≡ least_span_fits (word_at s.now 5) (word_at s.now 10) }
{
    if words::word(s, 5) == 4 {
        span_fits(s, 10)
    } else {
        limits::in_range(s, 10, 0, 0)
    }
}

// The words from 7 on of a job that lists its rows: E, R, C, and later ones.
fn listed_counts(s: &[u8], later: Option<usize>) -> Option<usize>
    requires { bytes Head ≤ length s.now }
    ensures { (more : List Field) → later ≡ misfit_from 10 more (item_from s.now 0 0) → result ≡ misfit_from 7 (listed_counts more) (item_from s.now 0 0) }
{
    let records = limits::field(9, limits::in_range(s, 9, 0, 512), later);
    let rows = limits::field(8, limits::in_range(s, 8, 1, 32), records);
    limits::field(7, limits::in_range(s, 7, 0, 16), rows)
}

// Those of a job with effects in N·U: E, R, C, the span for least, one that is 0, and later ones.
fn newton_counts(s: &[u8], later: Option<usize>) -> Option<usize>
    requires { 48 ≤ length s.now }
    ensures { (more : List Field) → later ≡ misfit_from 12 more (item_from s.now 0 0) → result ≡ misfit_from 7 (newton_counts more) (item_from s.now 0 0) }
{
    let zero = limits::field(11, limits::in_range(s, 11, 0, 0), later);
    listed_counts(s, limits::field(10, least_span_fits(s), zero))
}

// Word p is a carriageway's width in cm.
fn width_fits(s: &[u8], p: usize) -> bool
    requires { 4 * p + 4 ≤ length s.now }
    ensures { result ≡ admits carriageway_width (word_at s.now p) }
{
    limits::in_range(s, p, 300, 2079)
}

// Edition 3's words from 7 on: edition 2's, and the second carriageway's width.
fn third_counts(s: &[u8]) -> Option<usize>
    requires { 52 ≤ length s.now }
    ensures { result ≡ misfit_from 7 (table_counts Third) (item_from s.now 0 0) }
{
    newton_counts(s, limits::field(12, width_fits(s, 12), None))
}

// Edition 4's words from 7 on: its eleven effects, no rows or records of its own, barriers.
fn rural_counts(s: &[u8]) -> Option<usize>
    requires { 44 ≤ length s.now }
    ensures { result ≡ misfit_from 7 (table_counts Fourth) (item_from s.now 0 0) }
{
    let barriers = limits::field(10, limits::in_range(s, 10, 1, 3), None);
    let records = limits::field(9, limits::in_range(s, 9, 0, 0), barriers);
    let rows = limits::field(8, limits::in_range(s, 8, 0, 0), records);
    limits::field(7, limits::in_range(s, 7, 11, 11), rows)
}

// The field at fault among the header's words from 7 on.
fn counts_misfit(s: &[u8], head: Header) -> Option<usize>
    requires { 4 * words head Head ≤ length s.now }
    ensures { result ≡ misfit_from 7 (table_counts head.edition) (item_from s.now 0 0) }
{
    match head.edition {
        Edition::First => listed_counts(s, None),
        Edition::Second => newton_counts(s, None),
        Edition::Third => third_counts(s),
        Edition::Fourth => rural_counts(s),
    }
}

// The header's field at fault; its edition is tested before.
pub fn header_misfit(s: &[u8], head: Header) -> Option<usize>
    requires { 4 * words head Head ≤ length s.now }
    ensures { result ≡ misfit_from 0 (format head Head).fields (item_from s.now 0 0) }
{
    let value = limits::field(6, dynamic_fits(s), counts_misfit(s, head));
    let kind = limits::field(
        5,
        limits::in_range(s, 5, 1, dynamic_kinds(head.edition)),
        value,
    );
    let width = limits::field(4, width_fits(s, 4), kind);
    let spacing = limits::field(3, limits::in_range(s, 3, 10, 50), width);
    let h = words::word(s, 1);
    let pieces = limits::field(2, pieces_fit(h, words::word(s, 2)), spacing);
    limits::field(1, length_fits(h), pieces)
}

// A rural bridge's clear width, for its barriers.
fn clear_width(s: &[u8]) -> bool
    requires { 44 ≤ length s.now }
    ensures { result ≡ clear_width (word_at s.now 10) (item_from s.now 0 0) (word_at s.now 4) }
{
    if words::word(s, 10) == 3 {
        limits::in_range(s, 4, 370, 430)
    } else {
        limits::in_range(s, 4, 300, 370)
    }
}

// The header's width where it is outside its barriers' band.
pub fn width_misfit(s: &[u8], head: Header) -> Option<usize>
    requires { 4 * words head Head ≤ length s.now }
    ensures { result ≡ misfit_from 0 (width_test (profile_of head.edition)) (item_from s.now 0 0) }
{
    match head.edition {
        Edition::First | Edition::Second | Edition::Third => None,
        Edition::Fourth => limits::field(4, clear_width(s), None),
    }
}
