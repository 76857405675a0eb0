// Chains in the record section: a record's words, whether a chain ends, whether it names an effect twice.
#![tactic(auto)]

ghost use Rattle.std.specs.Prelude.{◌≡◌, ◌+◌, ◌-◌, ◌*◌, ◌≤◌, ◌<◌, length, eqb};
ghost use Rattle.words.specs.Words.{count_at};
ghost use Rattle.model.specs.Format.{size, bytes};
ghost use Rattle.model.specs.declared.Part.TheVariants.{Records};
ghost use Rattle.model.specs.Chains.{record_effect, record_factor, next_record, walk, names_twice};
ghost use Rattle.chains.specs.Linked.{Linked, EffectsTo};

use model::RECORD_WORDS;
use words::item_word;

// Record c's effect.
pub fn effect(records: &[u8], c: usize) -> usize
    requires { (1 ≤ c) × (bytes Records * c ≤ length records.now) }
    ensures { (result ≡ record_effect records.now c) × (result ≤ 2147483648) }
{
    item_word::<RECORD_WORDS>(records, c, 0)
}

// Record c's factor, in thousandths.
pub fn factor(records: &[u8], c: usize) -> usize
    requires { (1 ≤ c) × (bytes Records * c ≤ length records.now) }
    ensures { (result ≡ record_factor records.now c) × (result ≤ 2147483648) }
{
    item_word::<RECORD_WORDS>(records, c, 1)
}

// The record after c on its chain; 0 ends it.
pub fn next(records: &[u8], c: usize) -> usize
    requires { (1 ≤ c) × (bytes Records * c ≤ length records.now) }
    ensures { (result ≡ next_record records.now c) × (result ≤ 2147483648) }
{
    item_word::<RECORD_WORDS>(records, c, 2)
}

// The chain from c ends within so many visits.
pub fn ends(records: &[u8], c: usize, left: usize) -> bool
    requires { Linked records.now × (bytes Records * c ≤ length records.now) }
    ensures { result ≡ eqb (walk records.now c left) 0 }
{
    if c == 0 {
        return true;
    }
    if left == 0 {
        return false;
    }
    ends(records, next(records, c), left - 1)
}

// Some two records of the chain from c, in a section of so many, name the same effect; a chain that goes on after them all has come back to one.
pub fn names_twice(records: &[u8], c: usize, count: usize) -> bool
    requires { Linked records.now × EffectsTo 16 records.now × (bytes Records * c ≤ length records.now) × (length records.now ≡ bytes Records * count) }
    ensures { result ≡ names_twice records.now count c }
{
    let mut seen = [false; 17];
    let mut at = c;
    for _ in 0..count {
        if at == 0 {
            return false;
        }
        let e = effect(records, at);
        if seen[e] {
            return true;
        }
        seen[e] = true;
        at = next(records, at);
    }
    at != 0
}
