// Numbers as decimal text; specs/Decimal.antt says what the text is. Each `put_` function puts a text where the cursor stands.
#![tactic(auto)]

ghost use Rattle.std.specs.Prelude.{◌++◌, ◌+◌, ◌≤◌, ◌<◌, length};
ghost use Rattle.buffer.specs.Stored.{HasRoom, Puts};
ghost use Rattle.decimal.specs.Decimal.{digit, digits, decimal, signed};

use buffer::Cursor;

// A digit from 0 to 9.
fn put_digit(w: &mut Cursor, d: u64)
    requires room { HasRoom 1 w.old }
    requires d_bound { d < 10 }
    ensures { Puts w.old (digit d) w.new }
{
    w.put(&[b'0' + d as u8]);
}

// The last `places` digits of a number, or all where it has fewer.
fn put_digits(w: &mut Cursor, n: u64, places: usize)
    requires { HasRoom places w.old }
    ensures puts { Puts w.old (digits places n) w.new }
    ensures upper_bound { w.new.at ≤ w.old.at + places }
{
    if places == 0 {
        return;
    }
    if n < 10 {
        put_digit(w, n);
        return;
    }
    put_digits(w, n / 10, places - 1);
    put_digit(w, n % 10);
}

// A number in decimal.
fn put_decimal(w: &mut Cursor, n: u64)
    requires { HasRoom 20 w.old }
    ensures puts { Puts w.old (decimal n) w.new }
    ensures upper_bound { w.new.at ≤ w.old.at + 20 }
{
    put_digits(w, n, 20);
}

// A number in decimal, with its sign.
fn put_signed(w: &mut Cursor, v: i64)
    requires { HasRoom 21 w.old }
    ensures puts { Puts w.old (signed v) w.new }
    ensures upper_bound { w.new.at ≤ w.old.at + 21 }
{
    if v < 0 {
        w.put(b"-");
    }
    put_decimal(w, v.unsigned_abs());
}

// A signed number after its label.
pub fn put_value(w: &mut Cursor, label: &[u8], v: i64)
    requires { HasRoom (length label.now + 21) w.old }
    ensures puts { Puts w.old (label.now ++ signed v) w.new }
    ensures upper_bound { w.new.at ≤ w.old.at + length label.now + 21 }
{
    w.put(label);
    put_signed(w, v);
}

// A natural number after its label.
pub fn put_number(w: &mut Cursor, label: &[u8], n: u64)
    requires { HasRoom (length label.now + 20) w.old }
    ensures puts { Puts w.old (label.now ++ decimal n) w.new }
    ensures upper_bound { w.new.at ≤ w.old.at + length label.now + 20 }
{
    w.put(label);
    put_decimal(w, n);
}
