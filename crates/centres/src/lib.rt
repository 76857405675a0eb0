// What lies across the line: the number of lanes, the limits of each, and its centres with the greatest and the least transverse ordinate.
#![tactic(auto)]

ghost use Rattle.std.specs.Prelude.{◌≡◌, ℕ, ◌+◌, ◌/◌, ◌≤◌, ◌<◌, ◌^◌, max, eqb, get_or, if◌then◌else◌};
ghost use Rattle.exact.specs.Bounds.{Within};
ghost use Rattle.model.specs.Job.{Job};
ghost use Rattle.model.specs.Lanes.{lane_count, lanes, deck_of, number_on};
ghost use Rattle.model.specs.Decode.{carriageway};
ghost use Rattle.magnitudes.specs.Magnitudes.{transverse_most};
ghost use Rattle.centres.specs.Transverse.{TransverseFits, OrdinatesTo};
ghost use Rattle.centres.specs.Spans.{SpanRight, no_span, WidthFits, DecksFit, DecksOf};
ghost use Rattle.centres.specs.Spanned.{Spanned};
ghost use Rattle.centres.specs.Candidates.{ordinate_at, centre_at, BestBefore};

mod across;

pub use across::Across;
use exact::{ByQuestion, Question, Valued};

// n for a carriageway so many cm wide.
#[tactic(auto, unfolding(model::specs::Lanes::lane_count))]
fn lane_count(width: usize) -> usize
    requires { (300 ≤ width) × (width ≤ 2079) }
    ensures { (result ≡ lane_count width) × ((1 ≤ result) × (result ≤ 5)) }
{
    match width {
        0..=599 => 1,
        600..=969 => 2,
        970..=1339 => 3,
        1340..=1709 => 4,
        _ => 5,
    }
}

// n for a carriageway so many cm wide, or for none, of 0 cm.
fn lanes_on(width: usize) -> usize
    requires { WidthFits width }
    ensures { (result ≡ (if eqb width 0 then 0 else lane_count width)) × (result ≤ 5) }
{
    if width == 0 { 0 } else { lane_count(width) }
}

// A centre in n-ths of a cm and the transverse ordinate there, in thousandths times n g; narrow, since all lanes' are handed on together.
#[derive(Clone, Copy)]
pub struct Centre {
    pub ordinate: i32,
    pub at: u32,
}

impl Valued for Centre {
    ghost value_of = { λ c. c.ordinate };

    fn value(&self) -> i64 {
        self.ordinate as i64
    }
}

// A lane's greatest and least ordinate.
pub type Span = ByQuestion<Centre>;

// The transverse ordinate at a centre, d being n g.
fn ordinate(across: &[u8], d: usize, centre: usize) -> i32
    requires d_nonzero { 0 < d }
    requires d_bound { d ≤ 250 }
    requires ordinates_to { OrdinatesTo across.now (centre / d + 1) }
    ensures { (result ≡ ordinate_at across.now d centre) × Within transverse_most result }
{
    let m = centre / d;
    let j = centre % d;
    ((d - j) as i32) * (words::ordinate(across, m) as i32)
        + (j as i32) * (words::ordinate(across, m + 1) as i32)
}

// The centre at a place, with its ordinate.
fn centre_at(across: &[u8], d: usize, at: usize) -> Centre
    requires d_nonzero { 0 < d }
    requires d_bound { d ≤ 250 }
    requires ordinates_to { OrdinatesTo across.now (at / d + 1) }
    requires at_bound { at < 2 ^ 32 }
    ensures here { result ≡ centre_at across.now d at }
    ensures near { Within transverse_most result.ordinate }
{
    Centre {
        ordinate: ordinate(across, d, at),
        at: at as u32,
    }
}

// The best centre from lo to hi: at one of them or at a transverse ordinate between.
fn best(q: Question, across: &[u8], d: usize, lo: usize, hi: usize) -> Centre
    requires d_nonzero { 0 < d }
    requires d_bound { d ≤ 250 }
    requires lo_le_hi { lo ≤ hi }
    requires ordinates_to { OrdinatesTo across.now (hi / d + 1) }
    requires hi_bound { hi < 2 ^ 32 }
    ensures { BestBefore q across.now d lo hi (hi / d + 1) result }
{
    let mut best = exact::better(q, centre_at(across, d, lo), centre_at(across, d, hi));
    for m in lo / d + 1..hi / d + 1 {
        best = exact::better(q, best, centre_at(across, d, m * d));
    }
    best
}

// The greatest and least ordinate of lane i of n.
fn lane_span(across: &[u8], width: usize, n: usize, g: usize, i: usize) -> Span
    requires transverse_fits { TransverseFits across.now width g }
    requires n_value { n ≡ lane_count width }
    requires i_lt_n { i < n }
    ensures { SpanRight (carriageway across.now width g) i result }
{
    let lo = i * width + 150 * n;
    let hi = (i + 1) * width - 150 * n;
    Span {
        greatest: best(Question::Greatest, across, n * g, lo, hi),
        least: best(Question::Least, across, n * g, lo, hi),
    }
}

// The carriageways: the first one's width in cm and lanes; those of the second one, both 0 where it is not there; and the spacing g of their transverse ordinates.
#[derive(Clone, Copy)]
struct Decks {
    width: usize,
    lanes: usize,
    second: usize,
    beyond: usize,
    g: usize,
}

// The greatest and least ordinate of lane i, by the transverse sections of both carriageways: the second one's lanes follow the first one's.
#[tactic(auto, using(crate::proofs::LaneLimits::on_first, crate::proofs::LaneLimits::on_second))]
fn span_of(near: &[u8], far: &[u8], d: Decks, i: usize) -> Span
    requires { DecksFit near.now far.now d × (i < d.lanes + d.beyond) }
    ensures { (job : Job) → DecksOf near.now far.now d.width d.second d.g job → SpanRight (deck_of job i) (number_on job i) result }
{
    let n = d.lanes;
    if i < n {
        return lane_span(near, d.width, n, d.g, i);
    }
    lane_span(far, d.second, d.beyond, d.g, i - n)
}

// The greatest and least ordinate of each lane, and zeros to ten.
#[tactic(auto, using(crate::proofs::LaneLimits::decks_few))]
fn spans(near: &[u8], far: &[u8], d: Decks) -> [Span; 10]
    requires { DecksFit near.now far.now d }
    ensures span_right { (job : Job) → DecksOf near.now far.now d.width d.second d.g job → (i : ℕ) → i < lanes job → SpanRight (deck_of job i) (number_on job i) (get_or result i no_span) }
    ensures by_index { (i : ℕ) → d.lanes + d.beyond ≤ i → get_or result i no_span ≡ no_span }
{
    let none = Centre { ordinate: 0, at: 0 };
    let empty = Span {
        greatest: none,
        least: none,
    };
    let mut all = [empty; 10];
    for i in 0..d.lanes + d.beyond {
        all[i] = span_of(near, far, d, i);
    }
    all
}

// What lies across, by the transverse sections of both carriageways, their widths (0 for a second one that is not there) and the spacing g.
pub fn across_of(near: &[u8], far: &[u8], width: usize, second: usize, g: usize) -> Across
    requires { TransverseFits near.now width g × ((0 < second) → TransverseFits far.now second g) }
    ensures { (job : Job) → DecksOf near.now far.now width second g job → Spanned job result }
{
    let n = lane_count(width);
    let m = lanes_on(second);
    let d = Decks {
        width,
        lanes: n,
        second,
        beyond: m,
        g,
    };
    let spans = spans(near, far, d);
    Across {
        spans,
        first: n,
        second: m,
        lanes: n + m,
        denominator: n * m.max(1) * g,
    }
}
