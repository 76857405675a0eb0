// Sets of lanes, their r and additional lanes' factors, and the best of them by the lanes' ranks: no set or assignment is searched.
#![tactic(auto)]

ghost use Rattle.std.specs.Prelude.{◌≡◌, ℕ, ◌+◌, ◌-◌, ◌*◌, ◌≤◌, ◌<◌, ◌^◌, ltb, ℤ, pos, ◌+ℤ◌, if◌then◌else◌};
ghost use Rattle.std.specs.Int.Count.{ones};
ghost use Rattle.std.proofs.Props.{props};
ghost use Rattle.exact.specs.Bounds.{Within};
ghost use Rattle.exact.specs.Questions.{NoBetter, no_better_prop};
ghost use Rattle.exact.specs.declared.Question.{Question};
ghost use Rattle.model.specs.Job.{highway, rural, normal, overload};
ghost use Rattle.model.specs.Lanes.{bit, twentieths as twentiethsOf, reduction as reductionOf, additional as additionalOf};
ghost use Rattle.magnitudes.specs.Magnitudes.{hn_lane_most, ho_lane_most, among, factored_most};
ghost use Rattle.sets.specs.Sets.{value_at, number_at, ValuesFit, RankingFits, precedes as precedesOf, rank as rank_of, Ranked, FirstLanes, FirstAt, factor_by_rank, OthersRight, OverloadAt, LoadingRight};

use exact::{Question, Valued};

// Lane i's bit.
pub fn has(set: u32, i: usize) -> bool
    requires { i < 32 }
    ensures { result ≡ bit set i }
{
    (set >> (i as u32)) % 2 == 1
}

// The set with lane i, which it lacks.
fn with(i: usize, set: u32) -> u32
    requires { (i < 10) × (set < 1024) }
    ensures { result ≡ set + 2 ^ i }
{
    set + (1u32 << (i as u32))
}

// The set of HN lanes with the HO lane; lane 10 is none.
pub fn loaded(set: u32, lane: usize) -> u32
    requires { set < 1024 }
    ensures { result ≡ (if ltb lane 10 then set + 2 ^ lane else set) }
{
    if lane < 10 { with(lane, set) } else { set }
}

// ---- ranks

// Whether lane k precedes lane i: it is better for the question, or as good and further left.
fn precedes(q: Question, values: &[i64; 10], k: usize, i: usize) -> bool
    requires { (k < 10) × (i < 10) }
    ensures { result ≡ precedesOf q (value_at values.now) k i }
{
    if k < i {
        !exact::beats(q, values[i], values[k])
    } else {
        exact::beats(q, values[k], values[i])
    }
}

// Lane i's rank among n lanes.
#[tactic(auto, unfolding(crate::specs::Sets::rank))]
fn rank(q: Question, values: &[i64; 10], n: usize, i: usize) -> u32
    requires { (n ≤ 10) × (i < n) }
    ensures { result ≡ rank_of q n (value_at values.now) i }
{
    let mut r: u32 = 0;
    for k in 0..n {
        r += u32::from(precedes(q, values, k, i));
    }
    r
}

// The rank of each of n lanes.
pub fn ranks(q: Question, values: &[i64; 10], n: usize) -> [u32; 10]
    requires { n ≤ 10 }
    ensures { Ranked q n (value_at values.now) result }
{
    let mut all = [0u32; 10];
    for i in 0..n {
        all[i] = rank(q, values, n, i);
    }
    all
}

// ---- factors

// The factors of 3.2.4 in twentieths, by a number of lanes.
#[tactic(auto, unfolding(model::specs::Lanes::twentieths))]
fn twentieths(m: u32) -> u16
    ensures { (result ≡ twentiethsOf m) × (result ≤ 20) }
{
    match m {
        0 | 1 => 20,
        2 => 18,
        3 => 16,
        4 => 14,
        5 => 12,
        _ => 11,
    }
}

// ---- a set and its sum

// A set of lanes and the sum of what they give, in 75 N·U times thousandths times the sums' denominator, and times twentieths where they are at factors.
#[derive(Clone, Copy)]
struct Group {
    set: u32,
    sum: i64,
}

impl Group {
    // With lane i, which gives this, where it is loaded.
    fn joined(self, loaded: bool, i: usize, value: i64) -> Group
        requires { (i < 10) × (self.set < 1024) × Within (9 * factored_most) self.sum × Within factored_most value }
        ensures { result ≡ (if loaded then record { set = self.set + 2 ^ i; sum = self.sum +ℤ value } else self) }
    {
        if loaded {
            Group {
                set: with(i, self.set),
                sum: self.sum + value,
            }
        } else {
            self
        }
    }
}

// A live kind's sum in 75 N·U times thousandths, twentieths and the sums' denominator; its HO lane, 10 where there is none; the set of its HN lanes; each lane's factor in twentieths, 0 where it is not additional.
#[derive(Clone, Copy)]
pub struct Loading {
    pub value: i64,
    pub lane: usize,
    pub set: u32,
    pub factors: [u16; 10],
}

impl Valued for Loading {
    ghost value_of = { λ r. r.value };

    fn value(&self) -> i64 {
        self.value
    }
}

// r of the set in twentieths: its ones choose.
fn reduction(set: u32) -> i64
    ensures { (result ≡ reductionOf (ones set)) × Within 20 result }
{
    twentieths(u32::count_ones(set)) as i64
}

// The factor of additional lane m, counted from 0, in twentieths.
fn additional(m: u32) -> u16
    requires { m ≤ 10 }
    ensures { (result ≡ additionalOf m) × (result ≤ 20) }
{
    twentieths(m + 1)
}

// A lane's rank once the lane of rank `other` is left out.
fn place(rank: u32, other: u32) -> u32
    ensures { (result ≡ (if ltb other rank then rank - 1 else rank)) × (result ≤ rank) }
{
    if other < rank { rank - 1 } else { rank }
}

// The additional lanes beside an HO lane, and each lane's factor.
#[derive(Clone, Copy)]
struct Others {
    group: Group,
    factors: [u16; 10],
}

// ---- the lanes by rank

// A question's HN values of n lanes, and the lanes' ranks.
#[derive(Clone, Copy)]
pub struct Ranking {
    pub q: Question,
    pub n: usize,
    pub hn: [i64; 10],
    pub ranks: [u32; 10],
    pub ghost fits: { RankingFits q n hn ranks } by { Prim.hlevel (props, no_better_prop) },
}

impl Ranking {
    // The lanes of these values, ranked.
    pub fn new(q: Question, hn: [i64; 10], n: usize) -> Ranking
        requires { (n ≤ 10) × ValuesFit q (among n hn_lane_most) n (value_at hn) }
        ensures { (result.q ≡ q) × (result.n ≡ n) × (result.hn ≡ hn) }
    {
        Ranking {
            q,
            n,
            hn,
            ranks: ranks(q, &hn, n),
        }
    }

    // The lanes whose rank is below m.
    fn first_lanes(&self, m: u32) -> Group
        ensures { FirstLanes self.now.n (number_at self.now.ranks) (value_at self.now.hn) m result }
    {
        let mut group = Group { set: 0, sum: 0 };
        for i in 0..self.n {
            group = group.joined(self.ranks[i] < m, i, self.hn[i]);
        }
        group
    }

    // The m first lanes under HN, at their r.
    fn normal_at(&self, m: u32) -> Loading
        ensures { FirstAt self.now.n (number_at self.now.ranks) (value_at self.now.hn) m result }
    {
        let group = self.first_lanes(m);
        Loading {
            value: reduction(group.set) * group.sum,
            lane: 10,
            set: group.set,
            factors: [0u16; 10],
        }
    }

    // The best set of the lanes of a highway.
    pub fn best_normal(&self) -> Loading
        ensures { (ho : ℕ → ℤ) → LoadingRight self.now.q highway normal self.now.n (value_at self.now.hn) ho result }
    {
        let mut best = self.normal_at(0);
        for m in 1..self.n + 1 {
            best = exact::better(self.q, best, self.normal_at(m as u32));
        }
        best
    }

    // Lane i's factor beside HO in lane o, in twentieths: a lane that gives nothing stays unloaded.
    fn factor(&self, o: usize, i: usize) -> u16
        requires { (o < self.now.n) × (i < self.now.n) }
        ensures { (result ≡ factor_by_rank self.now.q (number_at self.now.ranks) (value_at self.now.hn) o i) × (result ≤ 20) }
    {
        if i == o {
            return 0;
        }
        if exact::beats(self.q, self.hn[i], 0) {
            additional(place(self.ranks[i], self.ranks[o]))
        } else {
            0
        }
    }

    // The lanes beside HO in lane o, each at its factor.
    fn beside(&self, o: usize) -> Others
        requires { o < self.now.n }
        ensures { OthersRight self.now.n (factor_by_rank self.now.q (number_at self.now.ranks) (value_at self.now.hn) o) (value_at self.now.hn) result.group result.factors }
    {
        let mut group = Group { set: 0, sum: 0 };
        let mut factors = [0u16; 10];
        for i in 0..self.n {
            let f = self.factor(o, i);
            group = group.joined(f > 0, i, (f as i64) * self.hn[i]);
            factors[i] = f;
        }
        Others { group, factors }
    }

    // HO of this value in lane o, at 20, and the lanes beside it.
    fn overload_at(&self, ho: i64, o: usize) -> Loading
        requires { (o < self.now.n) × Within ho_lane_most ho }
        ensures { OverloadAt self.now.n (factor_by_rank self.now.q (number_at self.now.ranks) (value_at self.now.hn) o) (value_at self.now.hn) ho o result }
    {
        let Others { group, factors } = self.beside(o);
        Loading {
            value: 20 * ho + group.sum,
            lane: o,
            set: group.set,
            factors,
        }
    }

    // The best HO lane of a highway, by each lane's HO value, additional lanes and assignment.
    pub fn best_overload(&self, ho: [i64; 10]) -> Loading
        requires { (0 < self.now.n) × ((i : ℕ) → i < self.now.n → Within (among self.now.n ho_lane_most) (value_at ho i)) }
        ensures { LoadingRight self.now.q highway overload self.now.n (value_at self.now.hn) (value_at ho) result }
    {
        let mut best = self.overload_at(ho[0], 0);
        for o in 1..self.n {
            best = exact::better(self.q, best, self.overload_at(ho[o], o));
        }
        best
    }
}

// ---- a rural bridge

// No lane loaded: the overload of a rural bridge, and the best set of one lane that gives nothing.
pub fn no_lane() -> Loading
    ensures loading_right { (q : Question) (n : ℕ) (hn ho : ℕ → ℤ) → n ≤ 10 → LoadingRight q rural overload n hn ho result }
    ensures loading_right_2 { (q : Question) (hn ho : ℕ → ℤ) → hn 0 ≡ pos 0 → LoadingRight q rural normal 1 hn ho result }
{
    Loading {
        value: 0,
        lane: 10,
        set: 0,
        factors: [0; 10],
    }
}

// 0.85 HN of this value in the one lane of a rural bridge.
pub fn one_lane(value: i64) -> Loading
    requires { Within hn_lane_most value }
    ensures { (q : Question) (hn ho : ℕ → ℤ) → hn 0 ≡ value → NoBetter q (pos 0) value → LoadingRight q rural normal 1 hn ho result }
{
    if value == 0 {
        return no_lane();
    }
    Loading {
        value: 17 * value,
        lane: 10,
        set: 1,
        factors: [0; 10],
    }
}
