// The rows' best values, and the governing row of each limit state for each question.
ghost use Rattle.std.specs.Prelude.{◌≡◌, ◌+◌, ◌*◌, ◌≤◌, ◌<◌, pos, ◌*ℤ◌, length, if◌then◌else◌};
ghost use Rattle.exact.specs.Bounds.{Within};
ghost use Rattle.exact.specs.Questions.{for_question};
ghost use Rattle.exact.specs.declared.Question.{Question};
ghost use Rattle.model.specs.Answers.{for_limit};
ghost use Rattle.model.specs.Format.{kilonewtons, effect_bytes};
ghost use Rattle.magnitudes.specs.Magnitudes.{traffic_most, chain_most, load_most};
ghost use Rattle.model.specs.Decode.{effect_at, live_of};
ghost use Rattle.model.specs.Job.{Limit, service, ultimate, highway};
ghost use Rattle.model.specs.RecordsWalked.{chain_length, walked_to};
ghost use Rattle.model.specs.RuralBridges.{group_rows, group_row};
ghost use Rattle.groups.specs.FactorLines.{line_row, line_alternative};
ghost use Rattle.omissions.specs.ChainTables.{EffectsInReach};
ghost use Rattle.rows.specs.InTables.{profile_in, effect_in, listed_in, row_in, rows_in};
ghost use Rattle.rows.specs.Governed.{live_value, traffic_of, PairFits, LiveFits, laden_row, AlternativeRight, RowRight, better_row, later_rows, with_row, StateFound};

use crate::tables::Tables;
use exact::{ByQuestion, Question};
use model::{ByLimit, ByLive, Edition, Governing, ROW_WORDS, State};
use omissions::{Chained, Walked};
use words::item_word;

// The traffic value of a row's live kind, 0 none, 1 normal, 2 overload.
fn traffic(kind: usize, live: ByLive<i64>) -> i64
    requires { (kind ≤ 2) × PairFits live }
    ensures { (result ≡ live_value live (live_of kind)) × Within traffic_most result }
{
    match kind {
        0 => 0,
        1 => live.normal,
        _ => live.overload,
    }
}

// Row r, which shows k, by its chain and its traffic, which counts or is left out.
fn laden(q: Question, r: usize, k: u16, chain: Chained, load: i64) -> Governing
    requires { Within chain_most chain.value × Within load_most load }
    ensures { result ≡ laden_row q r k chain load }
{
    let unladen = exact::beats(q, 0, load);
    Governing {
        value: if unladen {
            chain.value
        } else {
            chain.value + load
        },
        row: r,
        omitted: chain.omitted,
        unladen,
        k,
    }
}

// Row r, which shows k, by its chain and its traffic for each question.
fn laden_both(
    r: usize,
    k: u16,
    chains: ByQuestion<Chained>,
    loads: ByQuestion<i64>,
) -> ByQuestion<Governing>
    requires { (q : Question) → Within chain_most (for_question q chains).value × Within load_most (for_question q loads) }
    ensures { (q : Question) → for_question q result ≡ laden_row q r k (for_question q chains) (for_question q loads) }
{
    ByQuestion {
        greatest: laden(Question::Greatest, r, k, chains.greatest, loads.greatest),
        least: laden(Question::Least, r, k, chains.least, loads.least),
    }
}

// The better of two rows for each question by itself, the earlier at a tie.
fn better_both(sofar: ByQuestion<Governing>, next: ByQuestion<Governing>) -> ByQuestion<Governing>
    ensures { (q : Question) → for_question q result ≡ better_row q (for_question q sofar) (for_question q next) }
{
    ByQuestion {
        greatest: exact::better(Question::Greatest, sofar.greatest, next.greatest),
        least: exact::better(Question::Least, sofar.least, next.least),
    }
}

// The traffic of a line of the factors of rural bridges: its live factor times the value of the normal kind.
fn line_loaded(line: usize, live: ByLive<i64>) -> i64
    requires { (line < 21) × PairFits live }
    ensures { (result ≡ pos (group_row (line_row line)).factor *ℤ live_value live (group_row (line_row line)).live) × Within load_most result }
{
    (groups::factors(line)[0] as i64) * live.normal
}

// Row r, which shows k, by a line of the factors of rural bridges, for each question.
fn by_line(
    effects: &[u8],
    line: usize,
    r: usize,
    k: u16,
    live: ByQuestion<ByLive<i64>>,
) -> ByQuestion<Governing>
    requires { EffectsInReach kilonewtons effects.now × (effect_bytes kilonewtons * 11 ≤ length effects.now) × (line < 21) × LiveFits live }
    ensures { (q : Question) → ((for_question q result).row ≡ r) × ((for_question q result).k ≡ k) × AlternativeRight q (effect_at kilonewtons effects.now) (group_row (line_row line)) (traffic_of live q) (line_alternative line) (for_question q result) }
{
    let loads = ByQuestion {
        greatest: line_loaded(line, live.greatest),
        least: line_loaded(line, live.least),
    };
    laden_both(r, k, omissions::of_group(effects, line), loads)
}

// Row r of a rural bridge by its better alternative for each question: row 16 has one with k 1.3 and one with k 0.8.
fn built_in(effects: &[u8], live: ByQuestion<ByLive<i64>>, r: usize) -> ByQuestion<Governing>
    requires { EffectsInReach kilonewtons effects.now × (effect_bytes kilonewtons * 11 ≤ length effects.now) × (1 ≤ r) × (r ≤ group_rows) × LiveFits live }
    ensures { (q : Question) → ((for_question q result).row ≡ r) × RowRight q (effect_at kilonewtons effects.now) group_row (traffic_of live q) (for_question q result) }
{
    if r == 16 {
        let first = by_line(effects, 15, r, 1300, live);
        let second = by_line(effects, 20, r, 800, live);
        return better_both(first, second);
    }
    by_line(effects, r - 1, r, 0, live)
}

// A limit state with one row more of it.
fn later(sofar: State, next: ByQuestion<Governing>) -> State
    ensures { result ≡ later_rows sofar next }
{
    match sofar {
        Some(before) => Some(better_both(before, next)),
        None => Some(next),
    }
}

// The limit states with one row more, which is of the service state or of the ultimate.
fn with_row(of_service: bool, sofar: ByLimit<State>, next: ByQuestion<Governing>) -> ByLimit<State>
    ensures { result ≡ with_row of_service sofar next }
{
    if of_service {
        return ByLimit {
            service: later(sofar.service, next),
            ..sofar
        };
    }
    ByLimit {
        ultimate: later(sofar.ultimate, next),
        ..sofar
    }
}

impl<'a> Tables<'a> {
    // How many rows the job has.
    fn row_count(&self) -> usize
        ensures { result ≡ rows_in self.now }
    {
        match self.head.edition {
            Edition::First | Edition::Second | Edition::Third => self.head.rows,
            Edition::Fourth => 20,
        }
    }

    // Row r is of the service state.
    fn is_of_service(&self, r: usize) -> bool
        requires { (1 ≤ r) × (r ≤ rows_in self.now) }
        ensures { (row_in self.now r).limit ≡ (if result then service else ultimate) }
    {
        match self.head.edition {
            Edition::First | Edition::Second | Edition::Third => {
                item_word::<ROW_WORDS>(self.rows, r, 0) == 1
            }
            Edition::Fourth => r <= 10,
        }
    }

    // The traffic of row r of the row section: its live factor times the value of its live kind.
    fn loaded(&self, live: ByLive<i64>, r: usize) -> i64
        requires { (1 ≤ r) × (r ≤ self.now.head.rows) × PairFits live }
        ensures { let row = listed_in self.now r in (result ≡ pos row.factor *ℤ live_value live row.live) × Within load_most result }
    {
        let kind = item_word::<ROW_WORDS>(self.rows, r, 1);
        let factor = item_word::<ROW_WORDS>(self.rows, r, 2);
        (factor as i64) * traffic(kind, live)
    }

    // Row r of the row section, and the length of its chain in records; it shows no k.
    fn listed(&self, live: ByQuestion<ByLive<i64>>, r: usize) -> Walked<Governing>
        requires { (1 ≤ r) × (r ≤ self.now.head.rows) × LiveFits live }
        ensures best_value { (q : Question) → ((for_question q result.best).row ≡ r) × RowRight q (effect_in self.now) (listed_in self.now) (traffic_of live q) (for_question q result.best) }
        ensures length_value { result.length ≡ chain_length highway (listed_in self.now r) }
    {
        let chain = omissions::best(
            self.effects,
            self.head.edition,
            self.records,
            item_word::<ROW_WORDS>(self.rows, r, 3),
            self.head.records,
        );
        let loads = ByQuestion {
            greatest: self.loaded(live.greatest, r),
            least: self.loaded(live.least, r),
        };
        Walked {
            best: laden_both(r, 0, chain.best, loads),
            length: chain.length,
        }
    }

    // Row r of the job, and the length of its chain; a built-in row has no records.
    fn row(&self, live: ByQuestion<ByLive<i64>>, r: usize) -> Walked<Governing>
        requires { (1 ≤ r) × (r ≤ rows_in self.now) × LiveFits live }
        ensures best_value { (q : Question) → ((for_question q result.best).row ≡ r) × RowRight q (effect_in self.now) (row_in self.now) (traffic_of live q) (for_question q result.best) }
        ensures length_value { result.length ≡ chain_length (profile_in self.now) (row_in self.now r) }
    {
        match self.head.edition {
            Edition::First | Edition::Second | Edition::Third => self.listed(live, r),
            Edition::Fourth => Walked {
                best: built_in(self.effects, live, r),
                length: 0,
            },
        }
    }
}

// The two limit states, and the records walked.
#[derive(Clone, Copy)]
pub struct LimitStates {
    pub states: ByLimit<State>,
    pub walked: usize,
}

// The limit states of a job by the governing rows among all of its rows, and the records walked.
pub fn states(tables: Tables, live: ByQuestion<ByLive<i64>>) -> LimitStates
    requires { LiveFits live }
    ensures state_found { (limit : Limit) → StateFound (effect_in tables.entry) (row_in tables.entry) (traffic_of live) limit (rows_in tables.entry) (for_limit limit result.states) }
    ensures walked_value { result.walked ≡ walked_to (profile_in tables.entry) (row_in tables.entry) (rows_in tables.entry) }
{
    let mut states = ByLimit {
        service: None,
        ultimate: None,
    };
    let mut walked = 0;
    for i in 0..tables.row_count() {
        let r = i + 1;
        let next = tables.row(live, r);
        states = with_row(tables.is_of_service(r), states, next.best);
        walked += next.length;
    }
    LimitStates { states, walked }
}
