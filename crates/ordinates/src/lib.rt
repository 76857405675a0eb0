// Refusals 4 and 5 on a line's own bytes: passes that only tell whether there is a fault, and the search for the place.
#![tactic(auto)]

ghost use Rattle.std.specs.Prelude.{◌≡◌, true, false, ◌*◌, ◌≤◌, pos, neg_ℤ, length, if◌then◌else◌};
ghost use Rattle.std.specs.Int.Signed.{lt_z};
ghost use Rattle.exact.specs.Bounds.{Within};
ghost use Rattle.exact.specs.Choice.{between};
ghost use Rattle.words.specs.Fields.{misfit};
ghost use Rattle.model.specs.Format.{format, bytes};
ghost use Rattle.model.specs.declared.Part.TheVariants.{Line};
ghost use Rattle.model.specs.Refusals.{crosses, signs};
ghost use Rattle.sections.specs.Sized.{Counted};
ghost use Rattle.ordinates.specs.Lines.{AllWithin, NoneCrosses};

use model::{Header, Part};

// 0 for a word from -m to m, else 1.
fn outside(x: i32, m: i32) -> u32
    requires { Within 1000000 m }
    ensures { (result ≤ 2) × (result ≡ 0 → between (neg_ℤ m) m x ≡ true) }
{
    if x < -m || m < x { 1 } else { 0 }
}

// How many of a section's words are outside -m to m.
fn strays(s: &[u8], m: i32) -> u32
    requires { (length s.now ≤ 8000) × Within 1000000 m }
    ensures { result ≡ 0 → AllWithin s.now m }
{
    let mut sum: u32 = 0;
    for k in 0..s.len() / 4 {
        sum += outside(words::word32(s, k), m);
    }
    sum
}

// The lowest place of an ordinate outside its limits in a line's own bytes, sought only where there is one.
pub fn misfit(s: &[u8], head: Header) -> Option<usize>
    requires { Counted head × (length s.now ≡ bytes Line * head.pieces) }
    ensures { result ≡ misfit (format head Line) s.now }
{
    if strays(s, limits::ordinate_limit(head.edition) as i32) == 0 {
        None
    } else {
        limits::misfit(s, head, Part::Line)
    }
}

// One is above 0 and the other below.
fn crosses(x: i64, y: i64) -> bool
    ensures { result ≡ crosses x y }
{
    (0 < x && y < 0) || (x < 0 && 0 < y)
}

// The first piece of a line's own bytes with one ordinate above 0 and one below.
fn first_crossing(s: &[u8], pieces: usize) -> Option<usize>
    requires { bytes Line * pieces ≤ length s.now }
    ensures { result ≡ misfit (signs pieces) s.now }
{
    for i in 0..pieces {
        let p = model::PIECE_WORDS * i;
        if crosses(words::word(s, p), words::word(s, p + 1)) {
            return Some(p);
        }
    }
    None
}

// 1 above 0, else 0.
fn above(x: i32) -> u32
    ensures { result ≡ (if lt_z (pos 0) x then 1 else 0) }
{
    if 0 < x { 1 } else { 0 }
}

// 1 below 0, else 0.
fn below(x: i32) -> u32
    ensures { result ≡ (if lt_z x (pos 0) then 1 else 0) }
{
    if x < 0 { 1 } else { 0 }
}

// 0 for a piece that does not cross zero.
fn crossed(left: i32, right: i32) -> u32
    ensures { (result ≤ 2) × (result ≡ 0 → crosses left right ≡ false) }
{
    above(left) * below(right) + below(left) * above(right)
}

// How many of so many pieces cross zero.
fn crossings(s: &[u8], pieces: usize) -> u32
    requires { (bytes Line * pieces ≤ length s.now) × (pieces ≤ 1000) }
    ensures { result ≡ 0 → NoneCrosses s.now pieces }
{
    let mut sum: u32 = 0;
    for i in 0..pieces {
        let p = model::PIECE_WORDS * i;
        sum += crossed(words::word32(s, p), words::word32(s, p + 1));
    }
    sum
}

// Of a line's own bytes: a piece with one ordinate above 0 and one below, sought only where there is one.
pub fn crossing(s: &[u8], pieces: usize) -> Option<usize>
    requires { (bytes Line * pieces ≤ length s.now) × (pieces ≤ 1000) }
    ensures { result ≡ misfit (signs pieces) s.now }
{
    if crossings(s, pieces) == 0 {
        None
    } else {
        first_crossing(s, pieces)
    }
}
