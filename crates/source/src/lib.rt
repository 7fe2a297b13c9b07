// The file that a program reads: bytes, or a text that wraps them. The program reads its input
// first, READ_BYTES at most.
#![tactic(auto)]

ghost use Rattle.std.specs.Prelude.{◌≡◌, length, IfOk};
ghost use Rattle.buffer.specs.Wrote.{Wrote};
ghost use Rattle.buffer.specs.Report.{written_report};
ghost use Rattle.source.specs.Source.{file_in, unwrapped_line, so_far, imported_so_far};

use buffer::write::Out;
use der::Fault;
use std::io;
use std::io::Stderr;

// The most bytes that a program reads: one more than the longest text has that is imported.
pub const READ_BYTES: usize = pem::TEXT_BYTES + 1;

// The line that says how many bytes were unwrapped.
fn unwrapped_line(out: &mut Out, n: usize)
    ensures { Wrote out.old (unwrapped_line n) out.new }
{
    text::number(out, b"unwrapped ", n);
    out.bytes(b" bytes of text: ranges are of these bytes\n");
}

// Writes the line to standard error. Returns the number of bytes handed on.
fn say_unwrapped(errors: &mut Stderr, n: usize) -> io::Result<usize>
    ensures { IfOk result (λ k. k ≡ length (unwrapped_line n)) }
{
    let mut line = [0u8; 128];
    let mut out = Out {
        buffer: &mut line,
        at: 0,
    };
    unwrapped_line(&mut out, n);
    let end = out.at;
    stdio::write_error(errors, range::part(&line, 0, end))
}

// The bytes of the file: those that a text wraps, at the front of the buffer, and standard error
// says so; or all that were read, if these aren't a text that is imported. If standard error takes
// no line, the file is the same.
pub fn file<'a>(errors: &mut Stderr, read: &'a [u8], out: &'a mut [u8]) -> &'a [u8]
    ensures { result.now ≡ file_in read.now out.old }
{
    match pem::import(read, out) {
        Ok(n) => {
            let _ = say_unwrapped(errors, n);
            range::part(out, 0, n)
        }
        Err(_) => read,
    }
}

// The fault of a text of which no more was read. If it could still go on behind the most bytes
// that are read, it is too long, however it ends.
fn so_far(fault: Fault) -> Fault
    ensures { result ≡ so_far fault }
{
    if fault.number != pem::NOT_TEXT || fault.offset < READ_BYTES {
        return fault;
    }
    Fault {
        number: buffer::TOO_LONG,
        offset: 0,
    }
}

// Imports a text of which no more was read.
pub fn import(read: &[u8], out: &mut [u8]) -> Result<usize, Fault>
    ensures value { result ≡ (imported_so_far read.now out.old).answer }
    ensures report { written_report result ≡ written_report (imported_so_far read.now out.old).answer }
    ensures out_after { out.new ≡ (imported_so_far read.now out.old).buffer }
{
    pem::import(read, out).map_err(so_far)
}
