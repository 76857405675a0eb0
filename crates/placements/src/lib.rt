// An account's placements as numbers of eight bytes each. Each `put_` function puts numbers where the cursor stands.
#![tactic(auto)]

ghost use Rattle.buffer.specs.Stored.{HasRoom};
ghost use Rattle.numbers.specs.NumberBytes.{Written};
ghost use Rattle.placements.specs.PlacementNumbers.{lane_numbers, placement_numbers, placements_numbers};

use buffer::Cursor;
use model::{Lane, Placement, Traffic};

// A lane's entry, its centre and its factor.
fn put_lane(w: &mut Cursor, l: Lane)
    requires { HasRoom 24 w.old }
    ensures { Written w.old (lane_numbers l) w.new }
{
    numbers::put_count(w, u64::from(l.entry));
    numbers::put_count(w, l.centre as u64);
    numbers::put_count(w, l.factor as u64);
}

// A lane set and the lanes.
fn put_placement(w: &mut Cursor, p: Placement)
    requires { HasRoom 248 w.old }
    ensures { Written w.old (placement_numbers p) w.new }
{
    numbers::put_count(w, p.set as u64);
    for lane in &p.lanes {
        put_lane(w, *lane);
    }
}

// The placements of the two values of a live kind.
pub fn put_placements(w: &mut Cursor, t: Traffic)
    requires { HasRoom 496 w.old }
    ensures { Written w.old (placements_numbers t) w.new }
{
    put_placement(w, t.greatest.placement);
    put_placement(w, t.least.placement);
}
