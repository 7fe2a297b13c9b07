// Writes the listing of a file into a caller's buffer: three lines and one for each row, or the
// line of a refusal. docs/USING.md has the forms.
#![tactic(auto)]

ghost use Rattle.std.specs.Prelude.{◌≡◌, length};
ghost use Rattle.buffer.specs.Report.{written_report};
ghost use Rattle.listing.specs.Lines.{head_lines, accepted_lines, answered, listing};
ghost use Rattle.listing.specs.Listed.{listed};
ghost use Rattle.buffer.specs.Wrote.{Wrote};

mod lines;
mod out;
mod rows;

use buffer::write::Out;
use der::Fault;
use pkcs12::{ATTRIBUTE_ROWS, BAG_ROWS, Reading, SAFE_ROWS, Table};

// The three lines that every accepted file has.
fn head(out: &mut Out, size: usize, table: Table)
    ensures { Wrote out.old (head_lines size table) out.new }
{
    let safes = table.safe_count.min(SAFE_ROWS);
    let bags = table.bag_count.min(BAG_ROWS);
    let attributes = table.attribute_count.min(ATTRIBUTE_ROWS);
    lines::file_line(out, size, table.elements);
    lines::counts_line(out, safes, bags, attributes);
    lines::mac_line(out, table.mac_input, table.mac);
}

fn accepted(out: &mut Out, size: usize, table: Table)
    ensures { Wrote out.old (accepted_lines size table) out.new }
{
    head(out, size, table);
    rows::safe_lines(out, table);
    rows::bag_lines(out, table);
    rows::attribute_lines(out, table);
}

fn answered(out: &mut Out, answer: Result<(), Fault>, size: usize, table: Table)
    ensures { Wrote out.old (answered answer size table) out.new }
{
    match answer {
        Ok(()) => accepted(out, size, table),
        Err(f) => text::refused(out, f),
    }
}

// The length of a listing: of an empty buffer every byte is counted, and none is written.
fn measured(size: usize, reading: Reading) -> usize
    ensures { result ≡ length (listing size reading) }
{
    let mut out = Out {
        buffer: &mut [],
        at: 0,
    };
    answered(&mut out, reading.answer, size, reading.table);
    out.at
}

// Writes the listing of a file of this size. Nothing is written before it is known that the buffer
// is long enough.
pub fn list(size: usize, reading: Reading, out: &mut [u8]) -> Result<usize, Fault>
    ensures value { result ≡ (listed size reading out.old).answer }
    ensures report { written_report result ≡ written_report (listed size reading out.old).answer }
    ensures out_after { out.new ≡ (listed size reading out.old).buffer }
{
    let n = measured(size, reading);
    if out.len() < n {
        return Err(Fault {
            number: buffer::SHORT_BUFFER,
            offset: 0,
        });
    }
    let mut to = Out { buffer: out, at: 0 };
    answered(&mut to, reading.answer, size, reading.table);
    Ok(n)
}
