// The best entry of each lane for a kind and a question.
ghost use Rattle.std.specs.Prelude.{◌≡◌, ℕ, ◌≤◌, ◌<◌};
ghost use Rattle.magnitudes.specs.Magnitudes.{ho_line_most};
ghost use Rattle.centres.specs.Spans.{SpanFits};
ghost use Rattle.sets.specs.Sets.{value_at};
ghost use Rattle.lanes.specs.Entries.{LineEffectsFit, LoadsFit, other_in, effects_in, chosen, chosen_in};

use crate::traffic::Effects;
use centres::{Across, Span};
use exact::{Question, Valued};
use model::Sense;

// A lane's best element: its effect, its sense and its centre.
#[derive(Clone, Copy)]
pub(crate) struct Chosen {
    pub value: i64,
    pub sense: Sense,
    pub centre: u32,
}

impl Valued for Chosen {
    ghost value_of = { λ c. c.value };

    fn value(&self) -> i64 {
        self.value
    }
}

// The best element of a lane with this span, under these line effects: raising at the question's best ordinate, or lowering at the other's.
fn choose(q: Question, span: Span, e: Effects) -> Chosen
    requires { SpanFits span × LineEffectsFit ho_line_most e }
    ensures { result ≡ chosen q span e }
{
    let r = span.of(q);
    let l = span.of(q.other());
    let raising = Chosen {
        value: (r.ordinate as i64) * e.raising,
        sense: Sense::Raising,
        centre: r.at,
    };
    let lowering = Chosen {
        value: (l.ordinate as i64) * e.lowering,
        sense: Sense::Lowering,
        centre: l.at,
    };
    exact::better(q, raising, lowering)
}

// n of the carriageway that lane i is not on, 1 where there is none.
fn other_lanes(first: usize, second: usize, i: usize) -> usize
    requires { (first ≤ 5) × (second ≤ 5) }
    ensures { (result ≡ other_in first second i) × (result ≤ 5) }
{
    if i < first { second.max(1) } else { first }
}

// Line effects as lane i counts them, in units of both carriageways.
fn effects_in(across: &Across, e: Effects, i: usize) -> Effects
    requires { LoadsFit ho_line_most across.now e × (i < across.now.lanes) }
    ensures { result ≡ effects_in across.now e i }
{
    let m = other_lanes(across.first, across.second, i) as i64;
    Effects {
        raising: m * e.raising,
        lowering: m * e.lowering,
    }
}

// The best element of lane i.
pub(crate) fn choose_in(q: Question, across: &Across, e: Effects, i: usize) -> Chosen
    requires { LoadsFit ho_line_most across.now e × (i < across.now.lanes) }
    ensures { result ≡ chosen_in q across.now e i }
{
    choose(q, across.spans[i], effects_in(across, e, i))
}

// The effect of each lane's best element.
pub(crate) fn values(q: Question, across: &Across, e: Effects) -> [i64; 10]
    requires { LoadsFit ho_line_most across.now e }
    ensures { (i : ℕ) → i < across.now.lanes → value_at result i ≡ (chosen_in q across.now e i).value }
{
    let mut values = [0i64; 10];
    for i in 0..across.lanes {
        values[i] = choose_in(q, across, e, i).value;
    }
    values
}
