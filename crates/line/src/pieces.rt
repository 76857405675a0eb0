// Whole pieces: their ordinate sums, patch bytes and areas.
ghost use Rattle.std.specs.Prelude.{◌≡◌, ◌++◌, ℕ, ◌*◌, ◌≤◌, pos, length, drop, if◌then◌else◌};
ghost use Rattle.exact.specs.Bounds.{Within};
ghost use Rattle.exact.specs.Questions.{beats};
ghost use Rattle.magnitudes.specs.Magnitudes.{pair_most, area_most};
ghost use Rattle.model.specs.Answers.{for_sense};
ghost use Rattle.model.specs.Decode.{piece_at, influence_line};
ghost use Rattle.model.specs.declared.Sense.{Sense};
ghost use Rattle.model.specs.Line.{end_sum, patch_byte, patch_bytes, loaded_byte, sought};
ghost use Rattle.pair.specs.LineFits.{LineFits};
ghost use Rattle.line.specs.PieceFits.{PieceFits};
ghost use Rattle.line.specs.Sought.{loaded_sum, double_area};

use model::{BySense, Sense};

// Piece i's ordinate sum a + b.
fn end_sum(line: &[u8], i: usize) -> i16
    requires { PieceFits line.now i }
    ensures { (result ≡ end_sum (piece_at line.now i)) × Within pair_most result }
{
    words::ordinate(line, model::PIECE_WORDS * i)
        + words::ordinate(line, model::PIECE_WORDS * i + 1)
}

// An element of the sense loads a piece of this ordinate sum.
fn loads(sense: Sense, sum: i16) -> bool
    ensures { result ≡ beats (sought sense) sum (pos 0) }
{
    match sense {
        Sense::Raising => 0 < sum,
        Sense::Lowering => sum < 0,
    }
}

// The patch byte of the pieces that an element loads.
fn loaded_byte(sense: Sense) -> u8
    ensures { result ≡ loaded_byte sense }
{
    match sense {
        Sense::Raising => 1,
        Sense::Lowering => 2,
    }
}

// That byte where the element loads a piece of this ordinate sum, else 0.
fn byte_where_loaded(sense: Sense, sum: i16) -> u8
    ensures { (result ≡ (if beats (sought sense) sum (pos 0) then loaded_byte sense else 0)) × (result ≤ 2) }
{
    if loads(sense, sum) {
        loaded_byte(sense)
    } else {
        0
    }
}

// Piece i's patch byte.
fn patch_byte(line: &[u8], i: usize) -> u8
    requires { PieceFits line.now i }
    ensures { result ≡ patch_byte (piece_at line.now i) }
{
    let sum = end_sum(line, i);
    byte_where_loaded(Sense::Raising, sum) + byte_where_loaded(Sense::Lowering, sum)
}

// Piece i's ordinate sum where an element of the sense loads it, else 0.
fn loaded_sum(line: &[u8], i: usize, sense: Sense) -> i16
    requires { PieceFits line.now i }
    ensures { (result ≡ loaded_sum sense (piece_at line.now i)) × Within pair_most result }
{
    let sum = end_sum(line, i);
    if loads(sense, sum) { sum } else { 0 }
}

// Twice the area of a line of n pieces of h dm, over those that each sense loads, in dm·U.
pub(crate) fn double_areas(line: &[u8], h: usize, n: usize) -> BySense<i64>
    requires line_fits { LineFits line.now n }
    requires h_bound { (h ≤ 50) × (n * h ≤ 1000) }
    ensures { (sense : Sense) → (for_sense sense result ≡ double_area (influence_line line.now h n) sense) × Within area_most (for_sense sense result) }
{
    let mut raised: i32 = 0;
    let mut lowered: i32 = 0;
    for i in 0..n {
        raised += loaded_sum(line, i, Sense::Raising) as i32;
        lowered += loaded_sum(line, i, Sense::Lowering) as i32;
    }
    BySense {
        raising: (h as i64) * (raised as i64),
        lowering: (h as i64) * (lowered as i64),
    }
}

// Writes a byte a piece; later bytes stay.
pub fn mark(line: &[u8], n: usize, patch: &mut [u8])
    requires line_fits { LineFits line.now n }
    requires n_in_bounds { n ≤ length patch.old }
    ensures { (h : ℕ) → patch.new ≡ patch_bytes (influence_line line.now h n) ++ drop n patch.old }
{
    for (i, byte) in patch[..n].iter_mut().enumerate() {
        *byte = patch_byte(line, i);
    }
}
