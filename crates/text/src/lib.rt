// Text in lines, into a caller's buffer at an offset, which moves behind what was written. What lies
// past the end of the buffer is not written, but counted: so the same functions measure, on an empty
// buffer.
#![tactic(auto)]

ghost use Rattle.buffer.specs.Wrote.{Wrote};
ghost use Rattle.text.specs.Text.{number_text, refused_line};

use buffer::write::Out;
use der::Fault;

// A name and a number.
pub fn number(out: &mut Out, name: &[u8], n: usize)
    ensures { Wrote out.old (number_text name.now n) out.new }
{
    out.bytes(name);
    out.decimal(n);
}

// The line of a refusal.
pub fn refused(out: &mut Out, f: Fault)
    ensures { Wrote out.old (refused_line f) out.new }
{
    number(out, b"refused ", f.number as usize);
    number(out, b" at ", f.offset);
    out.bytes(b"\n");
}
