// Writes into a caller's buffer at an offset, which moves behind what was written, as the methods of
// `buffer::write::Out` do.
ghost use Rattle.der.specs.Octets.{digits, integer_octets, tlv, integer};
ghost use Rattle.buffer.specs.Wrote.{Wrote};
ghost use Rattle.range.specs.Range.{bytes_in};
ghost use Rattle.encode.specs.Header.{header};

use buffer::write::Out;
use range::Range;

// A number to the base 256, high first.
fn digits(out: &mut Out, n: usize)
    ensures { Wrote out.old (digits n) out.new }
{
    if 256 <= n {
        digits(out, n / 256);
    }
    out.byte((n % 256) as u8);
}

// The header of an element whose body has n bytes.
pub fn header(out: &mut Out, tag: u8, n: usize)
    ensures { Wrote out.old (header tag n) out.new }
{
    out.byte(tag);
    if n < 0x80 {
        out.byte(n as u8);
        return;
    }
    let form = 0x80 + crate::count(n);
    out.byte(form as u8);
    digits(out, n);
}

// The element with the body x.
pub fn element(out: &mut Out, tag: u8, x: &[u8])
    ensures { Wrote out.old (tlv tag x.now) out.new }
{
    header(out, tag, x.len());
    out.bytes(x);
}

// The element with the body that a range names.
pub fn named(out: &mut Out, tag: u8, bytes: &[u8], range: Range)
    ensures { Wrote out.old (tlv tag (bytes_in bytes.now range)) out.new }
{
    element(out, tag, range.part(bytes));
}

// The body of the INTEGER n.
fn octets(out: &mut Out, n: usize)
    ensures { Wrote out.old (integer_octets n) out.new }
{
    if 0x80 <= crate::first(n) {
        out.byte(0x00);
    }
    digits(out, n);
}

// The INTEGER n.
pub fn integer(out: &mut Out, n: u32)
    ensures { Wrote out.old (integer n) out.new }
{
    header(out, der::INTEGER, crate::size::integer(n));
    octets(out, n as usize);
}
