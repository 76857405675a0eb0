// From a job's bytes to its account.
#![tactic(auto)]

ghost use Rattle.std.specs.Prelude.{◌≡◌};
ghost use Rattle.model.specs.Answered.{account_in, Answered};

use job::refusals;
use line::pieces;
use model::{
    Account, Answer, Entry, Extreme, Lane, Part, Placement, Position, Refusal, Side, Traffic,
};
use sections::header;

// A lane that carries nothing.
const EMPTY_LANE: Lane = Lane {
    entry: Entry::Unloaded,
    centre: 0,
    factor: 0,
};

// A value of 0 with every lane unloaded.
const NO_EXTREME: Extreme = Extreme {
    value: 0,
    placement: Placement {
        set: 0,
        lanes: [EMPTY_LANE; 10],
    },
};

// A live kind's two values, both 0.
const ZERO_TRAFFIC: Traffic = Traffic {
    greatest: NO_EXTREME,
    least: NO_EXTREME,
};

// Station 0, and the side that is numbered 0.
const ZERO_POSITION: Position = Position {
    station: 0,
    side: Side::Left,
};

// The account of a refusal.
const ZERO_ACCOUNT: Account = Account {
    normal: ZERO_TRAFFIC,
    overload: ZERO_TRAFFIC,
    raising: ZERO_POSITION,
    lowering: ZERO_POSITION,
    service: None,
    ultimate: None,
    first: 0,
    second: 0,
    walked: 0,
};

// The account that a host is told of an answer: of a refusal it is zero throughout.
pub fn told(answer: Answer) -> Account
    ensures { result ≡ account_in answer }
{
    match answer {
        Ok(a) => a,
        Err(_) => ZERO_ACCOUNT,
    }
}

// The answer to a job, with the patch buffer that the host lends.
pub fn solve(job: &[u8], patch: &mut [u8]) -> Answer
    ensures { Answered job.now patch.old result patch.new }
{
    if let Err(refusal) = refusals::verdict(job) {
        return Err(refusal);
    }
    let head = header::read(job);
    if patch.len() < head.pieces {
        return Err(Refusal {
            number: 9,
            place: head.pieces as u32,
        });
    }
    let account = accepted::account(job, head);
    pieces::mark(sections::section(job, head, Part::Line), head.pieces, patch);
    Ok(account)
}
