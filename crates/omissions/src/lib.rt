// A chain's best value for each question, each effect marked 2 counting or left out: of a chain of records, or of a rural bridge's built-in row.
#![tactic(auto)]

ghost use Rattle.std.specs.Prelude.{◌≡◌, ◌+◌, ◌-◌, ◌*◌, ◌^◌, ◌≤◌, ◌<◌, eqb, length};
ghost use Rattle.exact.specs.Bounds.{Within};
ghost use Rattle.exact.specs.Questions.{for_question};
ghost use Rattle.exact.specs.declared.Question.{Question};
ghost use Rattle.words.specs.Words.{count_at};
ghost use Rattle.model.specs.Format.{bytes, kilonewtons, newtons, effect_unit, effect_bytes};
ghost use Rattle.model.specs.declared.Part.TheVariants.{Records};
ghost use Rattle.magnitudes.specs.Magnitudes.{share_most, chain_most};
ghost use Rattle.model.specs.Decode.{effect_at, terms_from};
ghost use Rattle.model.specs.RuralBridges.{group_row};
ghost use Rattle.groups.specs.FactorLines.{line_row, line_alternative};
ghost use Rattle.omissions.specs.ChainTables.{Distinct, EffectsInReach, RecordsInTables};
ghost use Rattle.omissions.specs.Chained.{StatedRight, term_of, ShareRight, leaves_share, extended_by, ChainRight};

use exact::{ByQuestion, Question};
use model::Edition;

// An effect as its job states it: so many units, a unit in N·U, and whether it may be left out.
#[derive(Clone, Copy)]
pub struct Stated {
    pub number: i64,
    pub unit: i64,
    pub optional: bool,
}

// The mark at place p says that its effect may be left out.
fn optional(effects: &[u8], p: usize) -> bool
    requires { 4 * p + 4 ≤ length effects.now }
    ensures { result ≡ eqb (count_at effects.now p) 2 }
{
    words::count(effects, p) == 2
}

// Effect e of an effect section in kN·U.
fn in_kilonewtons(effects: &[u8], e: usize) -> Stated
    requires { (1 ≤ e) × (effect_bytes kilonewtons * e ≤ length effects.now) }
    ensures { StatedRight (effect_at kilonewtons effects.now e) result }
{
    let p = model::EFFECT_WORDS * (e - 1);
    Stated {
        number: words::word(effects, p),
        unit: 1000,
        optional: optional(effects, p + 1),
    }
}

// Effect e of an effect section in N·U.
fn in_newtons(effects: &[u8], e: usize) -> Stated
    requires { (1 ≤ e) × (effect_bytes newtons * e ≤ length effects.now) }
    ensures { StatedRight (effect_at newtons effects.now e) result }
{
    let p = model::NEWTON_EFFECT_WORDS * (e - 1);
    Stated {
        number: words::wide(effects, p),
        unit: 1,
        optional: optional(effects, p + 2),
    }
}

// Effect e of an edition's effect section.
fn effect(effects: &[u8], edition: Edition, e: usize) -> Stated
    requires { (1 ≤ e) × (effect_bytes (effect_unit edition) * e ≤ length effects.now) }
    ensures { StatedRight (effect_at (effect_unit edition) effects.now e) result }
{
    match edition {
        Edition::First | Edition::Fourth => in_kilonewtons(effects, e),
        Edition::Second | Edition::Third => in_newtons(effects, e),
    }
}

// Effect e's bit among those left out, effect 1's the lowest.
fn bit_of(e: usize) -> u32
    requires { (1 ≤ e) × (e ≤ 16) }
    ensures { result ≡ 2 ^ (e - 1) }
{
    1u32 << ((e - 1) as u32)
}

// A term's share of a row's value: its factor times its effect's value; whether it may be left out, and its effect's bit.
#[derive(Clone, Copy)]
pub struct Share {
    pub value: i64,
    pub optional: bool,
    pub bit: u32,
}

impl Share {
    // It is left out: that is allowed and better.
    fn is_left_out(self, q: Question) -> bool
        ensures { result ≡ leaves_share q self }
    {
        self.optional && exact::beats(q, 0, self.value)
    }
}

// Effect e's share by its factor in thousandths.
fn share_of(effects: &[u8], edition: Edition, e: usize, factor: usize) -> Share
    requires { EffectsInReach (effect_unit edition) effects.now × (1 ≤ e) × (e ≤ 16) × (effect_bytes (effect_unit edition) * e ≤ length effects.now) × (factor ≤ 3000) }
    ensures { ShareRight (effect_at (effect_unit edition) effects.now) (term_of e factor) result }
{
    let own = effect(effects, edition, e);
    Share {
        value: (factor as i64) * (own.unit * own.number),
        optional: own.optional,
        bit: bit_of(e),
    }
}

// A chain's best value for a question, and the effects left out, a bit an effect.
#[derive(Clone, Copy)]
pub struct Chained {
    pub value: i64,
    pub omitted: u32,
}

impl Chained {
    // With one share more, which is left out or counts.
    fn extended(self, q: Question, share: Share) -> Chained
        requires { Within share_most share.value × Within chain_most self.value }
        ensures { result ≡ extended_by q share self }
    {
        if share.is_left_out(q) {
            return Chained {
                value: self.value,
                omitted: self.omitted | share.bit,
            };
        }
        Chained {
            value: self.value + share.value,
            omitted: self.omitted,
        }
    }
}

// A chain's best for each question with one share more.
fn extended_both(share: Share, sofar: ByQuestion<Chained>) -> ByQuestion<Chained>
    requires { Within share_most share.value × ((q : Question) → Within chain_most (for_question q sofar).value) }
    ensures { (q : Question) → for_question q result ≡ extended_by q share (for_question q sofar) }
{
    ByQuestion {
        greatest: sofar.greatest.extended(Question::Greatest, share),
        least: sofar.least.extended(Question::Least, share),
    }
}

// The best of a chain of no share.
const NOTHING: ByQuestion<Chained> = ByQuestion {
    greatest: Chained {
        value: 0,
        omitted: 0,
    },
    least: Chained {
        value: 0,
        omitted: 0,
    },
};

// The best for each question of what has a chain of records, and the chain's length.
#[derive(Clone, Copy)]
pub struct Walked<T> {
    pub best: ByQuestion<T>,
    pub length: usize,
}

// The best of the chain from a first record, of at most so many records, and its length.
pub fn best(
    effects: &[u8],
    edition: Edition,
    records: &[u8],
    first: usize,
    count: usize,
) -> Walked<Chained>
    requires { EffectsInReach (effect_unit edition) effects.now × RecordsInTables (effect_unit edition) effects.now records.now × (bytes Records * first ≤ length records.now) × Distinct (terms_from records.now count first) }
    ensures chain_right { (q : Question) → ChainRight q (effect_at (effect_unit edition) effects.now) (terms_from records.now count first) (for_question q result.best) }
    ensures length_value { result.length ≡ length (terms_from records.now count first) }
{
    let mut best = NOTHING;
    let mut c = first;
    for i in 0..count {
        if c == 0 {
            return Walked { best, length: i };
        }
        let e = chains::effect(records, c);
        let own = share_of(effects, edition, e, chains::factor(records, c));
        best = extended_both(own, best);
        c = chains::next(records, c);
    }
    Walked {
        best,
        length: count,
    }
}

// The best of the chain of a line of the table of rural bridges' factors; a share of factor 0 changes nothing.
pub fn of_group(effects: &[u8], line: usize) -> ByQuestion<Chained>
    requires { EffectsInReach kilonewtons effects.now × (effect_bytes kilonewtons * 11 ≤ length effects.now) × (line < 21) }
    ensures { (q : Question) → ChainRight q (effect_at kilonewtons effects.now) ((group_row (line_row line)).chain (line_alternative line)) (for_question q result) }
{
    let mut best = NOTHING;
    let factors = groups::factors(line);
    for e in 1usize..12 {
        let own = share_of(effects, Edition::Fourth, e, factors[e] as usize);
        best = extended_both(own, best);
    }
    best
}
