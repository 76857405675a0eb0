// The account of an accepted job, part by part.
#![tactic(auto)]

ghost use Rattle.std.specs.Prelude.{◌≡◌};
ghost use Rattle.exact.specs.Bounds.{Within};
ghost use Rattle.magnitudes.specs.Magnitudes.{traffic_most};
ghost use Rattle.model.specs.Answers.{for_limit};
ghost use Rattle.model.specs.Decode.{decode};
ghost use Rattle.model.specs.Job.{Limit, normal, overload};
ghost use Rattle.model.specs.Line.{HN, HO};
ghost use Rattle.model.specs.RecordsWalked.{records_walked};
ghost use Rattle.line.specs.Sought.{SoughtNear, SensesRight, kind_of, EffectRight};
ghost use Rattle.centres.specs.Spanned.{Spanned};
ghost use Rattle.lanes.specs.Loadings.{effects_of, TrafficPlaced};
ghost use Rattle.rows.specs.Governed.{traffic_of, LiveFits, StateFound};
ghost use Rattle.accepted.specs.AccountParts.{Ready, TrafficFound, PartsRight};

use centres::Across;
use exact::{ByQuestion, Question};
use lanes::traffic::{Effects, Loads};
use line::kinds::Kind;
use line::sought;
use line::sought::Sought;
use model::{Account, ByLive, BySense, Extreme, Header, Part, Traffic};
use rows::state;
use rows::state::LimitStates;
use rows::tables::Tables;

// What each sense seeks of the line.
fn sought(job: &[u8], head: Header) -> BySense<Sought>
    requires { Ready job.now head }
    ensures { SensesRight (decode job.now).line result }
{
    sought::seek(
        sections::section(job, head, Part::Line),
        head.h,
        head.pieces,
    )
}

// What lies across the line.
fn across(job: &[u8], head: Header) -> Across
    requires { Ready job.now head }
    ensures { Spanned (decode job.now) result }
{
    let near = sections::section(job, head, Part::Transverse);
    let far = sections::section(job, head, Part::SecondTransverse);
    centres::across_of(near, far, head.width, head.second, head.spacing)
}

// A kind's line effects.
fn effects(kind: Kind, senses: BySense<Sought>) -> Effects
    requires { SoughtNear senses.raising × SoughtNear senses.lowering }
    ensures { EffectRight (kind_of kind) senses.raising result.raising × EffectRight (kind_of kind) senses.lowering result.lowering }
{
    Effects {
        raising: kind.effect(senses.raising),
        lowering: kind.effect(senses.lowering),
    }
}

// A question's traffic values, by the kinds' line effects.
fn values(
    job: &[u8],
    head: Header,
    q: Question,
    across: Across,
    hn: Effects,
    ho: Effects,
) -> ByLive<Extreme>
    requires ready { Ready job.now head }
    requires spanned { Spanned (decode job.now) across }
    requires effects { hn ≡ effects_of (decode job.now) HN × ho ≡ effects_of (decode job.now) HO }
    ensures near { Within traffic_most result.normal.value × Within traffic_most result.overload.value }
    ensures placed { TrafficPlaced q (decode job.now) normal result.normal × TrafficPlaced q (decode job.now) overload result.overload }
{
    let dynamic = dynamic::factor(job, head, q);
    let loads = Loads {
        q,
        edition: head.edition,
        across,
        dynamic,
        hn,
        ho,
    };
    loads.both()
}

// The traffic values of both live kinds.
fn traffic(job: &[u8], head: Header, across: Across, senses: BySense<Sought>) -> ByLive<Traffic>
    requires ready { Ready job.now head }
    requires spanned { Spanned (decode job.now) across }
    requires sought_right { SensesRight (decode job.now).line senses }
    ensures normal { TrafficFound (decode job.now) normal result.normal }
    ensures overload { TrafficFound (decode job.now) overload result.overload }
{
    let hn = effects(Kind::Hn, senses);
    let ho = effects(Kind::Ho, senses);
    let most = values(job, head, Question::Greatest, across, hn, ho);
    let lowest = values(job, head, Question::Least, across, hn, ho);
    ByLive {
        normal: ByQuestion {
            greatest: most.normal,
            least: lowest.normal,
        },
        overload: ByQuestion {
            greatest: most.overload,
            least: lowest.overload,
        },
    }
}

// Both limit states by the traffic values, and the records walked.
fn limit_states(job: &[u8], head: Header, live: ByQuestion<ByLive<i64>>) -> LimitStates
    requires { Ready job.now head × LiveFits live }
    ensures state_found { (limit : Limit) → StateFound (decode job.now).effect (decode job.now).row (traffic_of live) limit (decode job.now).rows (for_limit limit result.states) }
    ensures walked_value { result.walked ≡ records_walked (decode job.now) }
{
    let tables = Tables {
        effects: sections::section(job, head, Part::Effects),
        rows: sections::section(job, head, Part::Rows),
        records: sections::section(job, head, Part::Records),
        head,
    };
    state::states(tables, live)
}

// The account of an accepted job; the patch bytes that its placements go with are not in it.
pub fn account(job: &[u8], head: Header) -> Account
    requires { Ready job.now head }
    ensures { PartsRight (decode job.now) result }
{
    let senses = sought(job, head);
    let across = across(job, head);
    let traffic = traffic(job, head, across, senses);
    let live = ByQuestion {
        greatest: ByLive {
            normal: traffic.normal.greatest.value,
            overload: traffic.overload.greatest.value,
        },
        least: ByLive {
            normal: traffic.normal.least.value,
            overload: traffic.overload.least.value,
        },
    };
    let found = limit_states(job, head, live);
    Account {
        normal: traffic.normal,
        overload: traffic.overload,
        raising: senses.raising.position,
        lowering: senses.lowering.position,
        service: found.states.service,
        ultimate: found.states.ultimate,
        first: across.first,
        second: across.second,
        walked: found.walked,
    }
}
