// The numbers that stand for editions and modes in what a host lends, and for sides, ways and entries in what it reads.
ghost use Rattle.std.specs.Prelude.{◌≡◌, ◌<◌};
ghost use Rattle.model.specs.Numbers.{side_number, way_number, entry_number, NamesEdition, NamesMode};

use crate::{Edition, Entry, Mode, Sense, Side, Way};

// A number that stands for nothing of its kind.
#[derive(Clone, Copy)]
pub struct UnknownNumber;

// The editions' numbers, word 0 of a job.
pub const FIRST_EDITION: i64 = 1;

pub const SECOND_EDITION: i64 = 2;

pub const THIRD_EDITION: i64 = 3;

pub const RURAL_EDITION: i64 = 4;

impl TryFrom<i64> for Edition {
    type Error = UnknownNumber;

    ghost try_from_gives = { NamesEdition };

    fn try_from(number: i64) -> Result<Edition, UnknownNumber> {
        match number {
            FIRST_EDITION => Ok(Edition::First),
            SECOND_EDITION => Ok(Edition::Second),
            THIRD_EDITION => Ok(Edition::Third),
            RURAL_EDITION => Ok(Edition::Fourth),
            _ => Err(UnknownNumber),
        }
    }
}

impl TryFrom<usize> for Mode {
    type Error = UnknownNumber;

    ghost try_from_gives = { NamesMode };

    fn try_from(number: usize) -> Result<Mode, UnknownNumber> {
        match number {
            1 => Ok(Mode::AllAxles),
            2 => Ok(Mode::NoRelief),
            _ => Err(UnknownNumber),
        }
    }
}

impl From<Side> for u64 {
    ghost from_gives = { λ s r. (r ≡ side_number s) × (r < 2) };

    fn from(s: Side) -> u64 {
        match s {
            Side::Left => 0,
            Side::Right => 1,
        }
    }
}

impl From<Way> for u64 {
    ghost from_gives = { λ w r. (r ≡ way_number w) × (r < 2) };

    fn from(w: Way) -> u64 {
        match w {
            Way::AsGiven => 0,
            Way::Turned => 1,
        }
    }
}

impl From<Entry> for u64 {
    ghost from_gives = { λ e r. (r ≡ entry_number e) × (r < 5) };

    fn from(e: Entry) -> u64 {
        match e {
            Entry::Unloaded => 0,
            Entry::Hn(Sense::Raising) => 1,
            Entry::Hn(Sense::Lowering) => 2,
            Entry::Ho(Sense::Raising) => 3,
            Entry::Ho(Sense::Lowering) => 4,
        }
    }
}
