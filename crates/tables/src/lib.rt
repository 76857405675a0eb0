// The rows and records of a job's standard form. `n` is E of the job, `left` its C; factors are in thousandths, effect 1's first. Each `put_` function puts its bytes where the cursor stands.
#![tactic(auto)]

ghost use Rattle.std.specs.Prelude.{◌≡◌, List, ◌++◌, suc, ◌*◌, ◌≤◌, length};
ghost use Rattle.exact.specs.Ranges.{list_of};
ghost use Rattle.buffer.specs.Stored.{HasRoom, Puts};
ghost use Rattle.model.specs.Decode.{first_record, terms_from};
ghost use Rattle.model.specs.Format.{bytes};
ghost use Rattle.model.specs.Job.{Term};
ghost use Rattle.model.specs.StandardForm.{factor_of, records_to, word_bytes, start_at, chain_bytes, row_head, row_bytes, record_bytes, joined};
ghost use Rattle.model.specs.declared.Part.TheVariants.{Rows, Records};
ghost use Rattle.tables.specs.ChainsRead.{RecordsRead, ChainReads, ChainsRead, terms_in, chain_terms, table_terms};

use buffer::Cursor;
use model::{Header, ROW_WORDS};
use words::item_word;

// The factor that the chain from a first record gives each effect; 0 if absent.
fn factors(records: &[u8], first: usize, left: usize) -> [usize; 16]
    requires { RecordsRead records.now × ChainReads records.now left first }
    ensures { result ≡ list_of 16 (λ j. factor_of (terms_from records.now left first) (suc j)) }
{
    let mut found = [0; 16];
    let mut c = first;
    for _ in 0..left {
        if c == 0 {
            return found;
        }
        let e = chains::effect(records, c);
        found[e - 1] = chains::factor(records, c);
        c = chains::next(records, c);
    }
    found
}

// How many effects have a factor other than 0.
fn count(factors: &[usize]) -> usize
    ensures { result ≡ length (terms_in factors.now (length factors.now)) }
{
    let mut k = 0;
    for factor in factors {
        k += usize::from(*factor != 0);
    }
    k
}

// How many records the form has of the chain from a first record.
fn chain_count(records: &[u8], first: usize, left: usize, n: usize) -> usize
    requires { RecordsRead records.now × ChainReads records.now left first × (n ≤ 16) }
    ensures { result ≡ length (chain_terms records.now left n first) }
{
    count(&factors(records, first, left)[..n])
}

// Row i + 1's first record.
fn first_record(rows: &[u8], i: usize) -> usize
    requires { bytes Rows * suc i ≤ length rows.now }
    ensures { result ≡ first_record rows.now (suc i) }
{
    item_word::<ROW_WORDS>(rows, i + 1, 3)
}

// C of the form.
pub fn total(rows: &[u8], records: &[u8], head: Header) -> usize
    requires { ChainsRead rows.now records.now head }
    ensures { result ≡ records_to head.rows (table_terms rows.now records.now head) }
{
    let mut sum = 0;
    for i in 0..head.rows {
        sum += chain_count(records, first_record(rows, i), head.records, head.effects);
    }
    sum
}

// Where a chain of k records written from record c on starts; 0 if there are none.
fn start_at(c: usize, k: usize) -> usize
    ensures { (terms : List Term) → length terms ≡ k → result ≡ start_at c terms }
{
    if k == 0 { 0 } else { c }
}

// Row i + 1's state and live words, as they are, and its first record.
fn put_row(w: &mut Cursor, rows: &[u8], i: usize, first: usize)
    requires { HasRoom (bytes Rows) w.old × (bytes Rows * suc i ≤ length rows.now) }
    ensures { Puts w.old (row_head rows.now i ++ word_bytes first) w.new }
{
    let from = 4 * ROW_WORDS * i;
    w.put(&rows[from..from + 12]);
    w.put_word(first);
}

// The form's rows.
pub fn put_rows(w: &mut Cursor, rows: &[u8], records: &[u8], head: Header)
    requires { ChainsRead rows.now records.now head × HasRoom (bytes Rows * head.rows) w.old }
    ensures { Puts w.old (joined head.rows (row_bytes rows.now (table_terms rows.now records.now head))) w.new }
{
    let mut number = 1;
    for i in 0..head.rows {
        let first = first_record(rows, i);
        let k = chain_count(records, first, head.records, head.effects);
        put_row(w, rows, i, start_at(number, k));
        number += k;
    }
}

// A record's words.
fn put_record(w: &mut Cursor, effect: usize, factor: usize, next: usize)
    requires { HasRoom (bytes Records) w.old }
    ensures { Puts w.old (word_bytes effect ++ (word_bytes factor ++ word_bytes next)) w.new }
{
    w.put_word(effect);
    w.put_word(factor);
    w.put_word(next);
}

// The records of effects with these factors, from record c on: each leads to the next, the last to 0. Answers how many they are.
fn put_chain(w: &mut Cursor, c: usize, factors: &[usize]) -> usize
    requires { (length factors.now ≤ 16) × (c ≤ 513) × HasRoom (bytes Records * length (terms_in factors.now (length factors.now))) w.old }
    ensures puts { Puts w.old (chain_bytes c (terms_in factors.now (length factors.now))) w.new }
    ensures count { result ≡ length (terms_in factors.now (length factors.now)) }
{
    let k = count(factors);
    let mut done = 0;
    for (j, factor) in factors.iter().enumerate() {
        let effect = j + 1;
        if *factor != 0 {
            done += 1;
            put_record(w, effect, *factor, start_at(c + done, k - done));
        }
    }
    k
}

// The form's records.
pub fn put_chains(w: &mut Cursor, rows: &[u8], records: &[u8], head: Header)
    requires { ChainsRead rows.now records.now head × HasRoom (bytes Records * records_to head.rows (table_terms rows.now records.now head)) w.old }
    ensures { Puts w.old (joined head.rows (record_bytes (table_terms rows.now records.now head))) w.new }
{
    let mut number = 1;
    for i in 0..head.rows {
        let found = factors(records, first_record(rows, i), head.records);
        number += put_chain(w, number, &found[..head.effects]);
    }
}
