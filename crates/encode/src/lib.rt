// An account as bytes for a host: numbers of eight bytes each, in two's complement, lowest byte first. specs/Encoding.antt says which stands where. Each `put_` function puts numbers where the cursor stands.
#![tactic(auto)]

ghost use Rattle.std.specs.Prelude.{◌≡◌, ◌++◌, ◌^◌, ◌≤◌, ◌<◌, length, drop};
ghost use Rattle.buffer.specs.Stored.{HasRoom};
ghost use Rattle.numbers.specs.NumberBytes.{ReadBack, Written};
ghost use Rattle.encode.specs.Encoding.{account_size, value_numbers, position_numbers, governing_numbers, limit_numbers, account_numbers, account_bytes, RowsFit, CountsFit};

use buffer::Cursor;
use model::{Account, Governing, Position, State, Traffic};

// The number of this layout.
pub const LAYOUT: u32 = 1;

// The bytes of an account.
pub const SIZE: usize = 1256;

// The two values of a live kind.
fn put_values(w: &mut Cursor, t: Traffic)
    requires { HasRoom 16 w.old }
    ensures { Written w.old (value_numbers t) w.new }
{
    numbers::put_signed(w, t.greatest.value);
    numbers::put_signed(w, t.least.value);
}

// A station and its side.
fn put_position(w: &mut Cursor, p: Position)
    requires { HasRoom 16 w.old }
    ensures { Written w.old (position_numbers p) w.new }
{
    numbers::put_signed(w, p.station);
    numbers::put_count(w, u64::from(p.side));
}

// A limit state's value, its row, the effects left out, whether the traffic is, and k.
fn put_governing(w: &mut Cursor, g: Governing)
    requires room { HasRoom 40 w.old }
    requires row_bound { g.row < 2 ^ 63 }
    ensures { Written w.old (governing_numbers g) w.new }
{
    numbers::put_signed(w, g.value);
    numbers::put_count(w, g.row as u64);
    numbers::put_count(w, g.omitted as u64);
    numbers::put_count(w, u64::from(g.unladen));
    numbers::put_count(w, g.k as u64);
}

// A limit state: 1, its greatest and its least; zeros for none.
fn put_state(w: &mut Cursor, s: State)
    requires room { HasRoom 88 w.old }
    requires rows_fit { RowsFit s }
    ensures { Written w.old (limit_numbers s) w.new }
{
    match s {
        None => numbers::put_zeros(w, 11),
        Some(x) => {
            numbers::put_count(w, 1);
            put_governing(w, x.greatest);
            put_governing(w, x.least);
        }
    }
}

// The bytes of an account at the front of a buffer; the rest keeps its contents.
pub fn write(out: &mut [u8], a: Account)
    requires account_size_in_bounds { account_size ≤ length out.old }
    requires counts_fit { CountsFit a }
    ensures out_after { out.new ≡ account_bytes a ++ drop account_size out.old }
    ensures read_back { ReadBack out.new (account_numbers a) }
{
    let mut w = Cursor { out, at: 0 };
    put_values(&mut w, a.normal);
    put_values(&mut w, a.overload);
    put_position(&mut w, a.raising);
    put_position(&mut w, a.lowering);
    placements::put_placements(&mut w, a.normal);
    placements::put_placements(&mut w, a.overload);
    put_state(&mut w, a.service);
    put_state(&mut w, a.ultimate);
    numbers::put_count(&mut w, a.first as u64);
    numbers::put_count(&mut w, a.second as u64);
    numbers::put_count(&mut w, a.walked as u64);
}
