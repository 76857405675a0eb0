// The axle pair: its best position. A station of the pair is its right axle's, in pieces from the line's left end.
// Its places count stations and sides: place p is station p / 2, from the left where p is even. There an axle counts the line's word p - 1.
#![tactic(auto)]

ghost use Rattle.std.specs.Prelude.{◌≡◌, ℕ, ◌+◌, ◌-◌, ◌*◌, ◌/◌, ◌≤◌, ◌<◌, ℤ};
ghost use Rattle.exact.specs.Bounds.{Within};
ghost use Rattle.exact.specs.Questions.{better, for_question};
ghost use Rattle.exact.specs.declared.Question.{Question};
ghost use Rattle.magnitudes.specs.Magnitudes.{pair_most};
ghost use Rattle.model.specs.Decode.{influence_line};
ghost use Rattle.pair.specs.LineFits.{LineFits};
ghost use Rattle.pair.specs.PairPlaces.{side_at, placed, stand_of, turned, rank_of, rank_most, RanksRight, count_of, CountFits};

use exact::{ByQuestion, Question};
use model::Side;

// The pair's axles are 50 dm apart: so many pieces.
pub fn spacing(h: usize) -> usize
    requires { 1 ≤ h }
    ensures { (result ≡ 50 / h) × (result ≤ 50) }
{
    50 / h
}

// The axles are so many places apart, two a station.
fn places_apart(h: usize) -> usize
    requires { 1 ≤ h }
    ensures { (result ≡ 2 * (50 / h)) × (result ≤ 100) }
{
    2 * spacing(h)
}

// The pair's ordinates, with its station and side.
#[derive(Clone, Copy)]
pub struct Stand {
    pub value: i16,
    pub station: usize,
    pub side: Side,
}

// A number turned so that for either question the less is the better, or back.
fn turn(q: Question, x: i32) -> i32
    requires { Within rank_most x }
    ensures { (result ≡ turned q x) × Within rank_most result }
{
    match q {
        Question::Greatest => -x,
        Question::Least => x,
    }
}

// Ordinates and their place in one number: the better ordinates, at a tie the lower place, have the better number.
fn rank(q: Question, v: i16, place: usize) -> i32
    requires { Within pair_most v × (place ≤ 4095) }
    ensures { (result ≡ rank_of q v place) × Within rank_most result }
{
    65536 * (v as i32) + turn(q, place as i32)
}

// A question's best rank with one place more, where the pair counts v.
fn improved(q: Question, best: i32, v: i16, place: usize) -> i32
    requires { Within pair_most v × (place ≤ 4095) }
    ensures { result ≡ better q best (rank_of q v place) }
{
    let next = rank(q, v, place);
    exact::better(q, best, next)
}

// The best ranks with one place more, where the pair counts v.
fn ranked(best: ByQuestion<i32>, v: i16, place: usize) -> ByQuestion<i32>
    requires { Within pair_most v × (place ≤ 4095) }
    ensures { (q : Question) → for_question q result ≡ better q (for_question q best) (rank_of q v place) }
{
    ByQuestion {
        greatest: improved(Question::Greatest, best.greatest, v, place),
        least: improved(Question::Least, best.least, v, place),
    }
}

// Which axles are on the line, and how many words behind the right one the left one is.
#[derive(Clone, Copy)]
enum Axles {
    Ahead,
    Both(usize),
    Behind(usize),
}

// The pair's ordinates with its right axle on word k.
fn counted(line: &[u8], on: Axles, k: usize) -> i16
    requires { CountFits line.now on k }
    ensures { (result ≡ count_of line.now on k) × Within pair_most result }
{
    match on {
        Axles::Ahead => words::ordinate(line, k),
        Axles::Both(apart) => words::ordinate(line, k - apart) + words::ordinate(line, k),
        Axles::Behind(apart) => words::ordinate(line, k - apart),
    }
}

// The best ranks with those of the pair's right axle on the words from .. to.
fn stretch(
    line: &[u8],
    on: Axles,
    from: usize,
    to: usize,
    sofar: ByQuestion<i32>,
) -> ByQuestion<i32>
    requires { (from ≤ to) × (to ≤ 4095) × ((k : ℕ) → from ≤ k → k < to → CountFits line.now on k) }
    ensures { (f : ℕ → ℤ) → ((k : ℕ) → from ≤ k → k < to → f (k + 1) ≡ count_of line.now on k) → RanksRight f from sofar → RanksRight f to result }
{
    let mut best = sofar;
    for k in from..to {
        best = ranked(best, counted(line, on, k), k + 1);
    }
    best
}

// The best ranks over all stations and both sides.
pub fn best_ranks(line: &[u8], h: usize, n: usize) -> ByQuestion<i32>
    requires { LineFits line.now n × (1 ≤ h) }
    ensures { RanksRight (placed (influence_line line.now h n)) (2 * (n + 50 / h) + 1) result }
{
    let apart = places_apart(h);
    let end = model::PIECE_WORDS * n;
    let edge = apart.min(end);
    let none = ByQuestion {
        greatest: rank(Question::Greatest, 0, 0),
        least: rank(Question::Least, 0, 0),
    };
    let ahead = stretch(line, Axles::Ahead, 0, edge, none);
    let both = stretch(line, Axles::Both(apart), edge, end, ahead);
    let from = end - edge + apart;
    stretch(line, Axles::Behind(apart), from, end + apart, both)
}

// The side of a place.
pub fn side_of(place: usize) -> Side
    ensures { result ≡ side_at place }
{
    if place % 2 == 0 {
        Side::Left
    } else {
        Side::Right
    }
}

// The stand that a rank stands for. Turned and raised by 65536 times 10001, a rank is above 0: place and ordinates are its remainder and quotient.
pub fn stand_of(q: Question, rank: i32) -> Stand
    requires { Within rank_most rank }
    ensures { ((v : ℤ) (p : ℕ) → Within pair_most v → p ≤ 4095 → rank ≡ rank_of q v p → result ≡ stand_of v p) × (result.station ≤ 32767) }
{
    let x = (turn(q, rank) + 65536 * 10001) as usize;
    let place = x % 65536;
    Stand {
        value: turn(q, ((x / 65536) as i32) - 10001) as i16,
        station: place / 2,
        side: side_of(place),
    }
}
