// A train, lent as a slice of axles, as one value.
#![tactic(auto)]

ghost use Rattle.std.specs.Prelude.{◌≡◌};
ghost use Rattle.axles.specs.Gathering.{gathered_of};

use model::{Axle, MOST_AXLES};

// The first twelve axles of a train, and how many it has.
#[derive(Clone, Copy)]
pub struct Gathered {
    pub axles: [Axle; MOST_AXLES],
    pub count: usize,
}

// What is gathered of a train; past its end axles are empty.
pub fn gather(train: &[Axle]) -> Gathered
    ensures { result ≡ gathered_of train.now }
{
    let mut axles = [Axle { load: 0, at: 0 }; MOST_AXLES];
    let first = train.len().min(MOST_AXLES);
    axles[..first].copy_from_slice(&train[..first]);
    Gathered {
        axles,
        count: train.len(),
    }
}
