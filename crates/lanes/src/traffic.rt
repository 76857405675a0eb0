// The traffic values with their placements.
ghost use Rattle.std.specs.Prelude.{◌≡◌, ◌≤◌, ◌<◌};
ghost use Rattle.exact.specs.Bounds.{Within};
ghost use Rattle.model.specs.Format.{profile_of};
ghost use Rattle.model.specs.Job.{highway as highwayLoads, rural as ruralLoads, Job, Live, normal, overload};
ghost use Rattle.model.specs.Traffic.{effect_of};
ghost use Rattle.magnitudes.specs.Magnitudes.{sum_most, traffic_most};
ghost use Rattle.lanes.specs.Entries.{chosen_in};
ghost use Rattle.lanes.specs.Loadings.{lane_of, LanesPlaced, LoadingOf, TrafficPlaced, TrafficFits};

use crate::entries;
use centres::Across;
use exact::Question;
use model::{ByLive, BySense, Edition, Entry, Extreme, Lane, Placement};
use sets::{Loading, Ranking};

// Raising and lowering line effects of a kind.
pub type Effects = BySense<i64>;

// A lane that carries nothing.
const UNLOADED: Lane = Lane {
    entry: Entry::Unloaded,
    centre: 0,
    factor: 0,
};

// 3 X / 800000 rounded, of a sum times d before the dynamic factor.
fn value(q: Question, dynamic: usize, sum: i64, d: usize) -> i64
    requires { (1000 ≤ dynamic) × (dynamic ≤ 1300) × (10 ≤ d) × (d ≤ 1250) × Within sum_most sum }
    ensures { (result ≡ effect_of q dynamic sum d) × Within traffic_most result }
{
    let x = 3 * ((dynamic as i64) * sum);
    let unit = 800000 * (d as u32);
    exact::rounded(q, x, unit)
}

// What a question's traffic values go by: the edition, what lies across the line, the dynamic factor in thousandths, and the line effects of HN and HO.
#[derive(Clone, Copy)]
pub struct Loads {
    pub q: Question,
    pub edition: Edition,
    pub across: Across,
    pub dynamic: usize,
    pub hn: Effects,
    pub ho: Effects,
    pub ghost fits: { TrafficFits edition across dynamic hn ho },
}

impl Loads {
    ghost use Rattle.lanes.specs.LoadsOf.{LoadsOf};

    // Lane i of a placement: HO in its lane, HN where the set has it, with its factor.
    fn lane(&self, best: Loading, i: usize) -> Lane
        requires { i < self.now.across.lanes }
        ensures { result ≡ lane_of best i (chosen_in self.now.q self.now.across self.now.hn i) (chosen_in self.now.q self.now.across self.now.ho i) }
    {
        if i == best.lane {
            let c = entries::choose_in(self.q, &self.across, self.ho, i);
            Lane {
                entry: Entry::Ho(c.sense),
                centre: c.centre,
                factor: 0,
            }
        } else if sets::has(best.set, i) {
            let c = entries::choose_in(self.q, &self.across, self.hn, i);
            Lane {
                entry: Entry::Hn(c.sense),
                centre: c.centre,
                factor: best.factors[i],
            }
        } else {
            UNLOADED
        }
    }

    // The lanes of a loading's placement.
    fn placed(&self, best: Loading) -> [Lane; 10]
        ensures { LanesPlaced best self.now.across.lanes (chosen_in self.now.q self.now.across self.now.hn) (chosen_in self.now.q self.now.across self.now.ho) result }
    {
        let mut lanes = [UNLOADED; 10];
        for i in 0..self.across.lanes {
            lanes[i] = self.lane(best, i);
        }
        lanes
    }

    // A live kind's best loading as its value and placement.
    fn found(&self, best: Loading) -> Extreme
        requires { (best.set < 1024) × Within sum_most best.value }
        ensures near { Within traffic_most result.value }
        ensures placed { (job : Job) (live : Live) → LoadingOf self.now.q job live self.now.across self.now.dynamic best (chosen_in self.now.q self.now.across self.now.hn) (chosen_in self.now.q self.now.across self.now.ho) → TrafficPlaced self.now.q job live result }
    {
        let lanes = self.placed(best);
        Extreme {
            value: value(self.q, self.dynamic, best.value, self.across.denominator),
            placement: Placement {
                set: sets::loaded(best.set, best.lane),
                lanes,
            },
        }
    }

    // The loads of a highway. Normal: the best set of lanes under HN. Overload: the best lane under HO, others under HN and their factors.
    fn highway(&self) -> ByLive<Extreme>
        requires { profile_of self.now.edition ≡ highwayLoads }
        ensures near { Within traffic_most result.normal.value × Within traffic_most result.overload.value }
        ensures placed { (job : Job) → LoadsOf job self.now → TrafficPlaced self.now.q job normal result.normal × TrafficPlaced self.now.q job overload result.overload }
    {
        let light = entries::values(self.q, &self.across, self.hn);
        let heavy = entries::values(self.q, &self.across, self.ho);
        let ranking = Ranking::new(self.q, light, self.across.lanes);
        ByLive {
            normal: self.found(ranking.best_normal()),
            overload: self.found(ranking.best_overload(heavy)),
        }
    }

    // A rural bridge. Normal: its one lane under 0.85 HN. Overload: no lane.
    fn rural(&self) -> ByLive<Extreme>
        requires { profile_of self.now.edition ≡ ruralLoads }
        ensures near { Within traffic_most result.normal.value × Within traffic_most result.overload.value }
        ensures placed { (job : Job) → LoadsOf job self.now → TrafficPlaced self.now.q job normal result.normal × TrafficPlaced self.now.q job overload result.overload }
    {
        let light = entries::values(self.q, &self.across, self.hn);
        let one = sets::one_lane(light[0]);
        let none = sets::no_lane();
        ByLive {
            normal: self.found(one),
            overload: self.found(none),
        }
    }

    // The traffic values of both live kinds.
    pub fn both(&self) -> ByLive<Extreme>
        ensures near { Within traffic_most result.normal.value × Within traffic_most result.overload.value }
        ensures placed { (job : Job) → LoadsOf job self.now → TrafficPlaced self.now.q job normal result.normal × TrafficPlaced self.now.q job overload result.overload }
    {
        match self.edition {
            Edition::First | Edition::Second | Edition::Third => self.highway(),
            Edition::Fourth => self.rural(),
        }
    }
}
