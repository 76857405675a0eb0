// Bytes put into a buffer one after the other.
#![tactic(auto)]

ghost use Rattle.std.specs.Prelude.{◌≡◌, length, replicate};
ghost use Rattle.buffer.specs.Stored.{little_endian, HasRoom, Puts, cleared};

// A buffer, and the place where the next byte goes.
#[derive(Drop)]
pub struct Cursor<'a> {
    pub out: &'a mut [u8],
    pub at: usize,
}

impl<'a> Cursor<'a> {
    // The bytes of another slice.
    pub fn put(&mut self, bytes: &[u8])
        requires { HasRoom (length bytes.now) self.old }
        ensures { Puts self.old bytes.now self.new }
    {
        copy(&mut self.out[self.at..self.at + bytes.len()], bytes);
        self.at += bytes.len();
    }

    // So many bytes of 0.
    pub fn put_zeros(&mut self, n: usize)
        requires { HasRoom n self.old }
        ensures { Puts self.old (replicate n 0) self.new }
    {
        self.out[self.at..self.at + n].fill(0);
        self.at += n;
    }

    // The eight bytes of a number, lowest first.
    pub fn put_number(&mut self, x: u64)
        requires { HasRoom 8 self.old }
        ensures { Puts self.old (little_endian 8 x) self.new }
    {
        self.put(&x.to_le_bytes());
    }

    // The four lowest bytes of a count, lowest first.
    pub fn put_word(&mut self, x: usize)
        requires { HasRoom 4 self.old }
        ensures { Puts self.old (little_endian 4 x) self.new }
    {
        self.put(&(x as u64).to_le_bytes()[..4]);
    }
}

// Copies bytes over as many others, by a loop: `copy_from_slice` has the archive ask a host for `memmove`.
fn copy(to: &mut [u8], from: &[u8])
    requires { length to.old ≡ length from.now }
    ensures { to.new ≡ from.now }
{
    for (i, byte) in from.iter().enumerate() {
        to[i] = *byte;
    }
}

// Zeros for the first `size` bytes, as far as the buffer has them.
pub fn clear(out: &mut [u8], size: usize)
    ensures { out.new ≡ cleared size out.old }
{
    let n = size.min(out.len());
    out[..n].fill(0);
}
