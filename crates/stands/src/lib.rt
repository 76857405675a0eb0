// A train's worst stands on a line. A run has the leftmost axle on one piece: run m on piece m less the train's length in pieces, from the line's left end.
// Places count stations and sides: place p is station p / 2 less the train's length, from the left where p is even. A run's left end is place 2 m + 1, its right end 2 m + 2.
#![tactic(auto)]

ghost use Rattle.std.specs.Prelude.{◌≡◌, List, ℕ, ◌+◌, ◌-◌, ◌*◌, ◌/◌, ◌≤◌, ◌<◌, ℤ, pos, ◌+ℤ◌, ◌-ℤ◌, ◌*ℤ◌, length, take, if◌then◌else◌};
ghost use Rattle.exact.specs.Bounds.{Within};
ghost use Rattle.exact.specs.Questions.{for_question, better_by};
ghost use Rattle.exact.specs.declared.Question.{Question};
ghost use Rattle.exact.specs.declared.Question.TheVariants.{Greatest, Least};
ghost use Rattle.magnitudes.specs.Magnitudes.{ordinate_most, axle_most, train_most};
ghost use Rattle.model.specs.Decode.{influence_line};
ghost use Rattle.model.specs.Trains.{axle_at, train_length, distance, counted, RatingRight};
ghost use Rattle.model.specs.declared.Axle.{Axle};
ghost use Rattle.model.specs.declared.Way.{Way};
ghost use Rattle.model.specs.declared.Way.TheVariants.{AsGiven, Turned};
ghost use Rattle.pair.specs.LineFits.{LineFits};
ghost use Rattle.pair.specs.PairPlaces.{side_at};
ghost use Rattle.stands.specs.TrainFits.{TrainFits, Ratable};
ghost use Rattle.stands.specs.Runs.{SpacedRight, SpacedFits, end_ordinate, run_sum, BestOf, at_place};

use exact::{ByQuestion, Question, Valued};
use model::{Axle, MOST_AXLES, Mode, Rating, TrainExtreme, Way};

// A train one way round: each axle's distance from the leftmost and the train's length, in pieces.
#[derive(Clone, Copy)]
pub struct Spaced {
    pub axles: [Axle; MOST_AXLES],
    pub count: usize,
    pub length: usize,
}

// What counts of an axle's effect: all of it, or nothing where it relieves.
fn counted(mode: Mode, q: Question, x: i64) -> i64
    requires { Within axle_most x }
    ensures { (result ≡ counted mode q x) × Within axle_most result }
{
    match mode {
        Mode::AllAxles => x,
        Mode::NoRelief => exact::better(q, x, 0),
    }
}

// What a train counts with one axle more.
fn added(mode: Mode, s: ByQuestion<i64>, load: u32, ordinate: i16) -> ByQuestion<i64>
    requires { (load ≤ 400) × Within ordinate_most ordinate × ((q : Question) → Within train_most (for_question q s)) }
    ensures { (q : Question) → for_question q result ≡ for_question q s +ℤ pos load *ℤ counted mode q ordinate }
{
    let x = (load as i64) * (ordinate as i64);
    ByQuestion {
        greatest: s.greatest + counted(mode, Question::Greatest, x),
        least: s.least + counted(mode, Question::Least, x),
    }
}

// What a train counts at the ends of a run.
#[derive(Clone, Copy)]
pub struct Ends {
    pub left: ByQuestion<i64>,
    pub right: ByQuestion<i64>,
}

// With an axle of this load more, on piece x less so many; as before where that is off the line.
fn with_axle(
    line: &[u8],
    n: usize,
    mode: Mode,
    sofar: Ends,
    load: u32,
    x: usize,
    less: usize,
) -> Ends
    requires { LineFits line.now n × (load ≤ 400) × ((q : Question) → Within train_most (for_question q sofar.left) × Within train_most (for_question q sofar.right)) }
    ensures { (q : Question) → (for_question q result.left ≡ for_question q sofar.left +ℤ pos load *ℤ counted mode q (end_ordinate line.now n less x 0)) × (for_question q result.right ≡ for_question q sofar.right +ℤ pos load *ℤ counted mode q (end_ordinate line.now n less x 1)) }
{
    if x < less || n <= x - less {
        return sofar;
    }
    let p = model::PIECE_WORDS * (x - less);
    Ends {
        left: added(mode, sofar.left, load, words::ordinate(line, p)),
        right: added(mode, sofar.right, load, words::ordinate(line, p + 1)),
    }
}

// What the train counts at the ends of run m.
fn run(line: &[u8], n: usize, mode: Mode, train: &Spaced, m: usize) -> Ends
    requires { LineFits line.now n × SpacedFits train.now × (m < 1500) }
    ensures { (q : Question) → (for_question q result.left ≡ run_sum mode q line.now n train.now m 0 train.now.count) × (for_question q result.right ≡ run_sum mode q line.now n train.now m 1 train.now.count) }
{
    let none = ByQuestion {
        greatest: 0,
        least: 0,
    };
    let mut sum = Ends {
        left: none,
        right: none,
    };
    for axle in &train.axles[..train.count] {
        sum = with_axle(
            line,
            n,
            mode,
            sum,
            axle.load,
            m + axle.at as usize,
            train.length,
        );
    }
    sum
}

// The best so far, and its place.
#[derive(Clone, Copy)]
pub struct Best {
    pub value: i64,
    pub place: usize,
}

impl Valued for Best {
    ghost value_of = { λ b. b.value };

    fn value(&self) -> i64 {
        self.value
    }
}

// The best so far with one place more.
fn improved(q: Question, best: Best, value: i64, place: usize) -> Best
    ensures { result ≡ better_by (λ b. b.value) q best (record { value = value; place = place }) }
{
    exact::better(q, best, Best { value, place })
}

// The bests so far of both questions with one place more.
fn bettered(best: ByQuestion<Best>, s: ByQuestion<i64>, place: usize) -> ByQuestion<Best>
    ensures { (q : Question) → for_question q result ≡ better_by (λ b. b.value) q (for_question q best) (record { value = for_question q s; place = place }) }
{
    ByQuestion {
        greatest: improved(Question::Greatest, best.greatest, s.greatest, place),
        least: improved(Question::Least, best.least, s.least, place),
    }
}

// The best places of one way round.
fn one_way(line: &[u8], n: usize, mode: Mode, train: &Spaced) -> ByQuestion<Best>
    requires { LineFits line.now n × SpacedFits train.now }
    ensures { (h : ℕ) (t : List Axle) (way : Way) → SpacedRight way h t train.now → (q : Question) → BestOf q (at_place mode q (influence_line line.now h n) t way) (2 * (n + train.now.length)) (for_question q result) }
{
    let off = Best { value: 0, place: 0 };
    let mut best = ByQuestion {
        greatest: off,
        least: off,
    };
    for m in 0..n + train.length {
        let ends = run(line, n, mode, train, m);
        best = bettered(best, ends.left, 2 * m + 1);
        best = bettered(best, ends.right, 2 * m + 2);
    }
    best
}

// An axle's distance from the leftmost, in dm.
fn distance(way: Way, length: u32, at: u32) -> u32
    requires { at ≤ length }
    ensures { ((t : List Axle) (i : ℕ) → length ≡ train_length t → at ≡ (axle_at t i).at → result ≡ distance way t i) × (result ≤ length) }
{
    match way {
        Way::AsGiven => at,
        Way::Turned => length - at,
    }
}

// A train one way round.
fn in_pieces(h: u32, way: Way, train: &[Axle]) -> Spaced
    requires { (1 ≤ h) × TrainFits train.now }
    ensures { SpacedRight way h train.now result × SpacedFits result }
{
    let length = train[train.len() - 1].at;
    let mut axles = [Axle { load: 0, at: 0 }; MOST_AXLES];
    for (i, axle) in train.iter().enumerate() {
        axles[i] = Axle {
            load: axle.load,
            at: distance(way, length, axle.at) / h,
        };
    }
    Spaced {
        axles,
        count: train.len(),
        length: (length / h) as usize,
    }
}

// The extreme that a best place stands for.
fn extreme_of(way: Way, best: Best, length: usize) -> TrainExtreme
    requires { (best.place ≤ 4000) × (length ≤ 500) }
    ensures { result ≡ record { value = best.value; way = way; side = side_at best.place; station = pos (best.place / 2) -ℤ pos length } }
{
    TrainExtreme {
        value: best.value,
        way,
        side: pair::side_of(best.place),
        station: ((best.place / 2) as i64) - (length as i64),
    }
}

// The better of both ways round.
fn of_both(q: Question, given: Best, turned: Best, length: usize) -> TrainExtreme
    requires { (given.place ≤ 4000) × (turned.place ≤ 4000) × (length ≤ 500) }
    ensures { result ≡ better_by (λ x. x.value) q (record { value = given.value; way = AsGiven; side = side_at given.place; station = pos (given.place / 2) -ℤ pos length }) (record { value = turned.value; way = Turned; side = side_at turned.place; station = pos (turned.place / 2) -ℤ pos length }) }
{
    let as_given = extreme_of(Way::AsGiven, given, length);
    exact::better(q, as_given, extreme_of(Way::Turned, turned, length))
}

// How far greatest is above least.
fn difference(greatest: i64, least: i64) -> i64
    requires { Within train_most greatest × Within train_most least }
    ensures { result ≡ greatest -ℤ least }
{
    greatest - least
}

// The rating of a train.
pub fn rating(line: &[u8], h: u32, n: usize, mode: Mode, train: &[Axle]) -> Rating
    requires { Ratable line.now h n train.now }
    ensures { RatingRight mode (influence_line line.now h n) train.now result }
{
    let given = in_pieces(h, Way::AsGiven, train);
    let turned = in_pieces(h, Way::Turned, train);
    let as_given = one_way(line, n, mode, &given);
    let the_other = one_way(line, n, mode, &turned);
    let greatest = of_both(
        Question::Greatest,
        as_given.greatest,
        the_other.greatest,
        given.length,
    );
    let least = of_both(
        Question::Least,
        as_given.least,
        the_other.least,
        given.length,
    );
    Rating {
        greatest,
        least,
        difference: difference(greatest.value, least.value),
    }
}
