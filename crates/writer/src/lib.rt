// Writes the file of a table into a caller's buffer.
#![tactic(auto)]

ghost use Rattle.std.specs.Prelude.{◌≡◌, Err};
ghost use Rattle.der.specs.Element.{fault};
ghost use Rattle.der.specs.Span.{Bytes};
ghost use Rattle.buffer.specs.Report.{written_report};
ghost use Rattle.pkcs12.specs.Written.{write_file};

mod parts;
mod rows;

use buffer::write::Out;
use der::Fault;
use pkcs12::Table;

// A refusal's offset is 0.
fn refused(number: u8) -> Result<usize, Fault>
    ensures { result ≡ Err (fault number 0) }
{
    Err(Fault { number, offset: 0 })
}

// Writes the file that the table makes of the bytes its ranges point into. Nothing is written
// before it is known that the table is sound, that the file isn't too long and that the buffer is
// long enough for it.
pub fn write(table: Table, bytes: &[u8], out: &mut [u8]) -> Result<usize, Fault>
    ensures value { result ≡ (write_file table bytes.now out.old).answer }
    ensures report { written_report result ≡ written_report (write_file table bytes.now out.old).answer }
    ensures out_after { out.new ≡ (write_file table bytes.now out.old).buffer }
    ensures bytes { Bytes bytes.now }
{
    let Some(size) = sound::measure(table, bytes) else {
        return refused(buffer::NOT_SOUND);
    };
    if buffer::FILE_BYTES < size {
        return refused(buffer::TOO_LONG);
    }
    if out.len() < size {
        return refused(buffer::SHORT_BUFFER);
    }
    let mut to = Out { buffer: out, at: 0 };
    rows::file(&mut to, table, bytes);
    Ok(size)
}
