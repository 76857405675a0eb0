// What the programs print of an answer; specs/Text.antt says what the text is. Each `put_` function puts a text where the cursor stands.
#![tactic(auto)]

ghost use Rattle.std.specs.Prelude.{◌≡◌, ◌++◌, ◌+◌, ◌≤◌, length, take, drop};
ghost use Rattle.buffer.specs.Stored.{HasRoom, Puts};
ghost use Rattle.print.specs.Text.{traffic_line, governing_text, state_line, account_text, refusal_line, answer_text};

use buffer::Cursor;
use model::{Account, Answer, Governing, Refusal, State, Traffic};

// Room for every answer's text.
pub const SIZE: usize = 384;

// A live kind's line, in N·U.
fn put_traffic(w: &mut Cursor, name: &[u8], t: Traffic)
    requires { HasRoom (length name.now + 60) w.old }
    ensures puts { Puts w.old (traffic_line name.now t) w.new }
    ensures upper_bound { w.new.at ≤ w.old.at + length name.now + 60 }
{
    w.put(name);
    decimal::put_value(w, b" greatest ", t.greatest.value);
    decimal::put_value(w, b" least ", t.least.value);
    w.put(b"\n");
}

// A value with its row after a label, in thousandths of N·U.
fn put_governing(w: &mut Cursor, label: &[u8], g: Governing)
    requires { HasRoom (length label.now + 46) w.old }
    ensures puts { Puts w.old (label.now ++ governing_text g) w.new }
    ensures upper_bound { w.new.at ≤ w.old.at + length label.now + 46 }
{
    decimal::put_value(w, label, g.value);
    decimal::put_number(w, b" row ", g.row as u64);
}

// A limit state's line: its greatest and least where it is reported.
fn put_state(w: &mut Cursor, name: &[u8], s: State)
    requires { HasRoom (length name.now + 110) w.old }
    ensures puts { Puts w.old (state_line name.now s) w.new }
    ensures upper_bound { w.new.at ≤ w.old.at + length name.now + 110 }
{
    w.put(name);
    match s {
        None => w.put(b" none\n"),
        Some(x) => {
            put_governing(w, b" greatest ", x.greatest);
            put_governing(w, b" least ", x.least);
            w.put(b"\n");
        }
    }
}

// The four lines of an accepted job.
fn put_account(w: &mut Cursor, a: Account)
    requires { HasRoom 384 w.old }
    ensures puts { Puts w.old (account_text a) w.new }
    ensures upper_bound { w.new.at ≤ w.old.at + 384 }
{
    put_traffic(w, b"normal", a.normal);
    put_traffic(w, b"overload", a.overload);
    put_state(w, b"service", a.service);
    put_state(w, b"ultimate", a.ultimate);
}

// The line of a refused job.
fn put_refusal(w: &mut Cursor, r: Refusal)
    requires { HasRoom 384 w.old }
    ensures puts { Puts w.old (refusal_line r) w.new }
    ensures upper_bound { w.new.at ≤ w.old.at + 384 }
{
    decimal::put_number(w, b"refused ", r.number as u64);
    decimal::put_number(w, b" at ", r.place as u64);
    w.put(b"\n");
}

// Puts an answer's text at the start of a buffer, leaves the rest of it as it was, and answers the text's length. The first clause serves a caller that lends `&out[..r]`.
pub fn text(a: Answer, out: &mut [u8; SIZE]) -> usize
    ensures upper_bound { (result ≤ length out.new) × (result ≡ length (take result out.new)) }
    ensures value { result ≡ length (answer_text a) }
    ensures out_after { out.new ≡ answer_text a ++ drop result out.old }
{
    let mut w = Cursor { out, at: 0 };
    match a {
        Ok(account) => {
            put_account(&mut w, account);
            w.at
        }
        Err(refusal) => {
            put_refusal(&mut w, refusal);
            w.at
        }
    }
}
