// The lowest place at fault in a part after the header, item by item, by the limits of its row of the table. Places count from the part's first word.
#![tactic(auto)]

ghost use Rattle.std.specs.Prelude.{◌≡◌, ℕ, [], ◌∷◌, ◌+◌, ◌*◌, ◌≤◌, ◌<◌, pos, neg_ℤ, ltb, length, if◌then◌else◌, Some};
ghost use Rattle.exact.specs.Bounds.{Within};
ghost use Rattle.exact.specs.Choice.{between};
ghost use Rattle.words.specs.Words.{word_at, wide};
ghost use Rattle.words.specs.Fields.{within, misfit_from, item_from, misfit};
ghost use Rattle.model.specs.Format.{profile_of, kilonewtons, newtons, effect_unit, is, ordinate_limit, mark, effect_fields, format, size, bytes, effect_size, words};
ghost use Rattle.model.specs.declared.Part.TheVariants.{Line, Transverse, Effects, Rows, Records};
ghost use Rattle.sections.specs.Sized.{Counted};
ghost use Rattle.limits.specs.Faults.{AfterHeader};

use model::{Edition, Header, Part};

// Word p is from lo to hi, both counted in.
pub fn in_range(s: &[u8], p: usize, lo: usize, hi: usize) -> bool
    requires { 4 * p + 4 ≤ length s.now }
    ensures { result ≡ between (pos lo) (pos hi) (word_at s.now p) }
{
    let x = words::word(s, p);
    if x < 0 {
        return false;
    }
    let n = x as usize;
    lo <= n && n <= hi
}

// Word p is from -m to m.
fn within(s: &[u8], p: usize, m: i64) -> bool
    requires { (4 * p + 4 ≤ length s.now) × Within 1000000000 m }
    ensures { result ≡ between (neg_ℤ m) m (word_at s.now p) }
{
    exact::is_between(-m, m, words::word(s, p))
}

// The field of an item at fault: field j unless its word is admitted, else a later one.
pub fn field(j: usize, admitted: bool, later: Option<usize>) -> Option<usize>
    ensures { result ≡ (if admitted then later else Some j) }
{
    if admitted { later } else { Some(j) }
}

// The most of a line's ordinates in an edition.
pub fn ordinate_limit(edition: Edition) -> i64
    ensures { (result ≡ pos (ordinate_limit edition)) × Within 5000 result }
{
    match edition {
        Edition::First | Edition::Fourth | Edition::Second => 5000,
        Edition::Third => 500,
    }
}

// A piece: left and right ordinate.
fn piece_misfit(s: &[u8], head: Header, i: usize) -> Option<usize>
    requires { bytes Line * i + bytes Line ≤ length s.now }
    ensures { result ≡ misfit_from 0 (format head Line).fields (item_from s.now (size Line * i) i) }
{
    let p = model::PIECE_WORDS * i;
    let most = ordinate_limit(head.edition);
    let right = field(1, within(s, p + 1, most), None);
    field(0, within(s, p, most), right)
}

// A transverse ordinate of either carriageway.
fn transverse_misfit(s: &[u8], i: usize) -> Option<usize>
    requires { bytes Transverse * i + bytes Transverse ≤ length s.now }
    ensures { result ≡ misfit_from 0 (within 1000 ∷ []) (item_from s.now (size Transverse * i) i) }
{
    field(0, within(s, i, 1000), None)
}

// The mark of a rural bridge's effect i: 1 for the first three, 2 for the others.
fn rural_mark(i: usize) -> usize
    ensures { result ≡ (if ltb i 3 then 1 else 2) }
{
    if i < 3 { 1 } else { 2 }
}

// The mark of effect i, at word p.
fn mark_fits(s: &[u8], head: Header, i: usize, p: usize) -> bool
    requires { 4 * p + 4 ≤ length s.now }
    ensures { (first : ℕ) → result ≡ mark (profile_of head.edition) (item_from s.now first i) (word_at s.now p) }
{
    match head.edition {
        Edition::First | Edition::Second | Edition::Third => in_range(s, p, 1, 2),
        Edition::Fourth => {
            let m = rural_mark(i);
            in_range(s, p, m, m)
        }
    }
}

// An effect in kN·U: value, mark.
fn kilonewton_effect_misfit(s: &[u8], head: Header, i: usize) -> Option<usize>
    requires { 4 * (effect_size kilonewtons * i + effect_size kilonewtons) ≤ length s.now }
    ensures { result ≡ misfit_from 0 (effect_fields kilonewtons (profile_of head.edition)) (item_from s.now (effect_size kilonewtons * i) i) }
{
    let p = model::EFFECT_WORDS * i;
    let mark = field(1, mark_fits(s, head, i, p + 1), None);
    field(0, within(s, p, 1000000000), mark)
}

// The value in N·U of an effect, in the two words from p on, is within its limits.
fn newton_value_fits(s: &[u8], p: usize) -> bool
    requires { 4 * p + 8 ≤ length s.now }
    ensures { result ≡ between (neg_ℤ (pos 100000000000000)) (pos 100000000000000) (wide (word_at s.now p) (word_at s.now (p + 1))) }
{
    exact::is_between(-100000000000000, 100000000000000, words::wide(s, p))
}

// An effect in N·U: value in two halves, at fault at the low one, and mark.
fn newton_effect_misfit(s: &[u8], head: Header, i: usize) -> Option<usize>
    requires { 4 * (effect_size newtons * i + effect_size newtons) ≤ length s.now }
    ensures { result ≡ misfit_from 0 (effect_fields newtons (profile_of head.edition)) (item_from s.now (effect_size newtons * i) i) }
{
    let p = model::NEWTON_EFFECT_WORDS * i;
    let mark = field(2, mark_fits(s, head, i, p + 2), None);
    field(0, newton_value_fits(s, p), mark)
}

// An effect, as its edition writes it.
fn effect_misfit(s: &[u8], head: Header, i: usize) -> Option<usize>
    requires { 4 * (effect_size (effect_unit head.edition) * i + effect_size (effect_unit head.edition)) ≤ length s.now }
    ensures { result ≡ misfit_from 0 (format head Effects).fields (item_from s.now (effect_size (effect_unit head.edition) * i) i) }
{
    match head.edition {
        Edition::First | Edition::Fourth => kilonewton_effect_misfit(s, head, i),
        Edition::Second | Edition::Third => newton_effect_misfit(s, head, i),
    }
}

// The greatest live factor of the live kind at word p.
fn live_limit(s: &[u8], p: usize) -> usize
    requires { 4 * p + 4 ≤ length s.now }
    ensures { result ≡ (if is 0 (word_at s.now p) then 0 else 3000) }
{
    if words::word(s, p) == 0 { 0 } else { 3000 }
}

// A row: limit state, live kind, live factor, first record.
fn row_misfit(s: &[u8], head: Header, i: usize) -> Option<usize>
    requires { bytes Rows * i + bytes Rows ≤ length s.now }
    ensures { result ≡ misfit_from 0 (format head Rows).fields (item_from s.now (size Rows * i) i) }
{
    let p = model::ROW_WORDS * i;
    let first = field(3, in_range(s, p + 3, 0, head.records), None);
    let factor = field(2, in_range(s, p + 2, 0, live_limit(s, p + 1)), first);
    let live = field(1, in_range(s, p + 1, 0, 2), factor);
    field(0, in_range(s, p, 1, 2), live)
}

// A record: effect, factor, next record.
fn record_misfit(s: &[u8], head: Header, i: usize) -> Option<usize>
    requires { bytes Records * i + bytes Records ≤ length s.now }
    ensures { result ≡ misfit_from 0 (format head Records).fields (item_from s.now (size Records * i) i) }
{
    let p = model::RECORD_WORDS * i;
    let next = field(2, in_range(s, p + 2, 0, head.records), None);
    let factor = field(1, in_range(s, p + 1, 0, 3000), next);
    field(0, in_range(s, p, 1, head.effects), factor)
}

// The field at fault of item i of a part after the header.
#[inline(always)]
fn item_misfit(s: &[u8], head: Header, part: Part, i: usize) -> Option<usize>
    requires { AfterHeader part × (i < (format head part).items) × (4 * words head part ≤ length s.now) }
    ensures { result ≡ misfit_from 0 (format head part).fields (item_from s.now (length (format head part).fields * i) i) }
{
    match part {
        Part::Head => None,
        Part::Line => piece_misfit(s, head, i),
        Part::Transverse => transverse_misfit(s, i),
        Part::SecondTransverse => transverse_misfit(s, i),
        Part::Effects => effect_misfit(s, head, i),
        Part::Rows => row_misfit(s, head, i),
        Part::Records => record_misfit(s, head, i),
    }
}

// The lowest place at fault in a part after the header, given as its own bytes.
#[inline(always)]
pub fn misfit(s: &[u8], head: Header, part: Part) -> Option<usize>
    requires { AfterHeader part × Counted head × (4 * words head part ≤ length s.now) }
    ensures { result ≡ misfit (format head part) s.now }
{
    for i in 0..sections::items(head, part) {
        if let Some(j) = item_misfit(s, head, part, i) {
            return Some(sections::item_words(head, part) * i + j);
        }
    }
    None
}
