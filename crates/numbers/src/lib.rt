// Numbers as bytes, eight each, in two's complement, lowest byte first. Each `put_` function puts numbers where the cursor stands.
#![tactic(auto)]

ghost use Rattle.std.specs.Prelude.{[], ◌∷◌, ◌*◌, ◌^◌, ◌<◌, pos, replicate};
ghost use Rattle.buffer.specs.Stored.{HasRoom};
ghost use Rattle.numbers.specs.NumberBytes.{Written};

use buffer::Cursor;

// A signed number.
pub fn put_signed(w: &mut Cursor, v: i64)
    requires { HasRoom 8 w.old }
    ensures { Written w.old (v ∷ []) w.new }
{
    w.put_number(v.cast_unsigned());
}

// A number below 2^63, which reads back the same with a sign.
pub fn put_count(w: &mut Cursor, x: u64)
    requires room { HasRoom 8 w.old }
    requires x_bound { x < 2 ^ 63 }
    ensures { Written w.old (pos x ∷ []) w.new }
{
    w.put_number(x);
}

// So many zeros.
pub fn put_zeros(w: &mut Cursor, n: usize)
    requires { HasRoom (8 * n) w.old }
    ensures { Written w.old (replicate n (pos 0)) w.new }
{
    w.put_zeros(8 * n);
}
