// The call for a train: its verdict and its rating.
#![tactic(auto)]

ghost use Rattle.std.specs.Prelude.{◌≡◌, ◌&&◌, ℕ, suc, ◌≤◌, ◌<◌, length, pos, true, false, None, Some, MatchOption, MatchResult};
ghost use Rattle.words.specs.Fields.{admits, first_answer};
ghost use Rattle.model.specs.Format.{piece_length, piece_count};
ghost use Rattle.model.specs.Refusals.{unless, refuse, as_result};
ghost use Rattle.model.specs.declared.Edition.TheVariants.{First};
ghost use Rattle.model.specs.Trains.{mode_of, arguments_fit, in_order, axle_fits, train_fault, train_verdict};
ghost use Rattle.sections.specs.Sized.{Counted};
ghost use Rattle.trains.specs.TrainOf.{train_of};
ghost use Rattle.trains.specs.Rated.{Rated};

use axles::Gathered;
use model::{Axle, Edition, Header, MOST_AXLES, Mode, Refusal};

// h and N within their limits.
fn line_fits(h: usize, pieces: usize) -> bool
    ensures { result ≡ (admits piece_length (pos h) && admits (piece_count (pos h)) (pos pieces)) }
{
    h <= 50
        && pieces <= 1000
        && headers::length_fits(h as i64)
        && headers::pieces_fit(h as i64, pieces as i64)
}

// The mode, where the arguments that refusal 2 tests are within their limits.
#[tactic(auto, unfolding(model::specs::Trains::arguments_fit))]
fn mode_of(h: usize, pieces: usize, section: usize, mode: usize, room: usize) -> Option<Mode>
    ensures { MatchOption result (arguments_fit h pieces section mode room ≡ false) (λ m. (arguments_fit h pieces section mode room ≡ true) × (m ≡ mode_of mode)) }
{
    let mode = Mode::try_from(mode).ok()?;
    if line_fits(h, pieces) && section == 4 * model::PIECE_WORDS * pieces && reports::SIZE <= room {
        Some(mode)
    } else {
        None
    }
}

// The header of a line alone, as a job of the first edition has it.
fn header(h: usize, pieces: usize) -> Header
    requires { pieces ≤ 1000 }
    ensures { Counted result × (result.edition ≡ First) × (result.pieces ≡ pieces) }
{
    Header {
        edition: Edition::First,
        h,
        pieces,
        spacing: 1,
        width: 1,
        kind: 0,
        value: 0,
        effects: 0,
        rows: 0,
        records: 0,
        second: 0,
    }
}

// The first axle is at 0, and none before the one before it.
fn in_order(train: &[Axle], i: usize) -> bool
    requires { i < length train.now }
    ensures { result ≡ in_order train.now i }
{
    if i == 0 {
        train[i].at == 0
    } else {
        train[i - 1].at <= train[i].at
    }
}

// Axle i within its limits.
#[tactic(auto, unfolding(model::specs::Trains::axle_fits))]
fn axle_fits(h: u32, train: &[Axle], i: usize) -> bool
    requires { (1 ≤ h) × (i < length train.now) }
    ensures { result ≡ axle_fits h train.now i }
{
    let a = train[i];
    1 <= a.load && a.load <= 400 && a.at <= 500 && in_order(train, i) && a.at % h == 0
}

// The first axle at fault, from 1.
fn first_fault(h: u32, train: &[Axle]) -> Option<usize>
    requires { 1 ≤ h }
    ensures { result ≡ first_answer 0 (length train.now) (λ i. unless (axle_fits h train.now i) (suc i)) }
{
    for i in 0..train.len() {
        if !axle_fits(h, train, i) {
            return Some(i + 1);
        }
    }
    None
}

// Refusal 10's place.
fn train_fault(h: u32, g: Gathered) -> Option<usize>
    requires { 1 ≤ h }
    ensures { result ≡ train_fault h (train_of g) }
{
    match g.count {
        0 => Some(0),
        1..=MOST_AXLES => first_fault(h, &g.axles[..g.count]),
        _ => Some(0),
    }
}

// A number's refusal, where its test finds a place.
fn refuse(number: u32, found: Option<usize>) -> Result<(), Refusal>
    requires { (p : ℕ) → found ≡ Some p → p ≤ 4000 }
    ensures { result ≡ as_result (refuse number found None) }
{
    match found {
        Some(place) => Err(Refusal {
            number,
            place: place as u32,
        }),
        None => Ok(()),
    }
}

// The verdict on a call: its mode, or the refusal of the first test that finds a place.
fn verdict(
    h: usize,
    pieces: usize,
    line: &[u8],
    g: Gathered,
    mode: usize,
    room: usize,
) -> Result<Mode, Refusal>
    ensures { MatchResult result (λ m. (train_verdict (record { h = h; pieces = pieces; section = line.now; train = train_of g; mode = mode }) room ≡ None) × (m ≡ mode_of mode)) (λ r. train_verdict (record { h = h; pieces = pieces; section = line.now; train = train_of g; mode = mode }) room ≡ Some r) }
{
    let Some(mode) = mode_of(h, pieces, line.len(), mode, room) else {
        return Err(Refusal {
            number: 2,
            place: 0,
        });
    };
    let stray = ordinates::misfit(line, header(h, pieces));
    let crossing = ordinates::crossing(line, pieces);
    let axle = train_fault(h as u32, g);
    refuse(4, stray)?;
    refuse(5, crossing)?;
    refuse(10, axle)?;
    Ok(mode)
}

// The whole call, over what is gathered of its train.
pub fn rate(
    h: usize,
    pieces: usize,
    line: &[u8],
    g: Gathered,
    mode: usize,
    report: &mut [u8],
) -> u64
    ensures { Rated (record { h = h; pieces = pieces; section = line.now; train = train_of g; mode = mode }) report.old result report.new }
{
    match verdict(h, pieces, line, g, mode, report.len()) {
        Ok(mode) => {
            let train = &g.axles[..g.count];
            reports::write(report, stands::rating(line, h as u32, pieces, mode, train));
            0
        }
        Err(refusal) => {
            buffer::clear(report, reports::SIZE);
            refusal.packed()
        }
    }
}
