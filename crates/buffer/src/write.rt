// Writes into a caller's buffer at an offset, which moves behind what was written. What lies past the
// end of the buffer is not written, but counted: so the same methods measure, on an empty buffer.
ghost use Rattle.std.specs.Prelude.{◌≡◌, ◌≤◌, ◌+◌, [], ◌∷◌, length};
ghost use Rattle.std.proofs.lemmas.List.Edits.{sets};
ghost use Rattle.buffer.specs.Placed.{behind};
ghost use Rattle.buffer.specs.Wrote.{Wrote};
ghost use Rattle.buffer.specs.Text.{decimal, digits};
ghost use Rattle.buffer.specs.BigEndian.{u16_octets, u32_octets};

// The digits of the longest number.
const PLACES: usize = 20;

const ZERO: u8 = b'0';

// The offset behind n bytes; no offset is greater than the greatest that there is.
pub fn after(at: usize, n: usize) -> usize
    ensures { result ≡ behind at n }
{
    at.saturating_add(n)
}

// The bytes x, which the buffer has place for. (`copy_from_slice` would call memmove, which the library
// for C doesn't need from outside.)
fn store(out: &mut [u8], at: usize, x: &[u8])
    requires { at + length x.now ≤ length out.old }
    ensures { out.new ≡ sets out.old at x.now }
{
    for i in 0..x.len() {
        out[at + i] = x[i];
    }
}

// A caller's buffer, and the offset of the next byte.
#[derive(Drop)]
pub struct Out<'a> {
    pub buffer: &'a mut [u8],
    pub at: usize,
}

impl<'a> Out<'a> {
    // One byte.
    pub fn byte(&mut self, b: u8)
        ensures { Wrote self.old (b ∷ []) self.new }
    {
        if self.at < self.buffer.len() {
            self.buffer[self.at] = b;
        }
        self.at = after(self.at, 1);
    }

    // The bytes x.
    pub fn bytes(&mut self, x: &[u8])
        ensures { Wrote self.old x.now self.new }
    {
        if self.at < self.buffer.len() {
            let count = x.len().min(self.buffer.len() - self.at);
            store(self.buffer, self.at, &x[..count]);
        }
        self.at = after(self.at, x.len());
    }

    // A number of two bytes, high first.
    pub fn u16_be(&mut self, n: u16)
        ensures { Wrote self.old (u16_octets n) self.new }
    {
        let two = n.to_be_bytes();
        self.bytes(&two);
    }

    // A number of four bytes, high first.
    pub fn u32_be(&mut self, n: u32)
        ensures { Wrote self.old (u32_octets n) self.new }
    {
        let four = n.to_be_bytes();
        self.bytes(&four);
    }

    // The last digits of a number in decimal, so many at most.
    fn digits(&mut self, places: usize, n: usize)
        ensures { Wrote self.old (digits places n) self.new }
    {
        if places == 0 {
            return;
        }
        if 10 <= n {
            self.digits(places - 1, n / 10);
        }
        self.byte(ZERO + (n % 10) as u8);
    }

    // A number in decimal.
    pub fn decimal(&mut self, n: usize)
        ensures { Wrote self.old (decimal n) self.new }
    {
        self.digits(PLACES, n);
    }
}
