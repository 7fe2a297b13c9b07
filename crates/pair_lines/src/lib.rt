// Writes the pairs of a file into a caller's buffer: a line for each key bag with the row of its
// certificate, or with the refusal; of a refused file the line of its refusal. docs/USING.md has
// the forms.
#![tactic(auto)]

ghost use Rattle.std.specs.Prelude.{◌≡◌};
ghost use Rattle.der.specs.Span.{Bytes};
ghost use Rattle.buffer.specs.Report.{written_report};
ghost use Rattle.buffer.specs.Wrote.{Wrote};
ghost use Rattle.identities.specs.Identities.{certificate_for};
ghost use Rattle.pair_lines.specs.Lines.{answer_text, pair_line, bag_line, pair_lines, answered};
ghost use Rattle.pair_lines.specs.Listed.{pairs_listed};

use buffer::write::Out;
use der::Fault;
use pkcs12::{BAG_ROWS, BagKind, Reading, Table};

// No text is longer: 67 bytes a line, and a line for each bag row.
pub const PAIRS_BYTES: usize = 4288;

// The row of a certificate, or the number of a refusal.
fn answer_text(out: &mut Out, paired: Result<usize, Fault>)
    ensures { Wrote out.old (answer_text paired) out.new }
{
    match paired {
        Ok(row) => text::number(out, b": certificate bag ", row),
        Err(f) => text::number(out, b": refused ", f.number as usize),
    }
}

fn pair_line(out: &mut Out, key: usize, paired: Result<usize, Fault>)
    ensures { Wrote out.old (pair_line key paired) out.new }
{
    text::number(out, b"key bag ", key);
    answer_text(out, paired);
    out.bytes(b"\n");
}

// The line of a bag, if it is a key's.
fn bag_line(out: &mut Out, table: Table, file: &[u8], bag: usize, kind: BagKind)
    ensures { Wrote out.old (bag_line kind bag (certificate_for table file.now bag)) out.new }
{
    if !pairing::is_key(kind) {
        return;
    }
    let paired = identities::certificate_for(table, file, bag);
    pair_line(out, bag, paired);
}

// A line for each key bag, in the order of the rows.
fn bag_lines(out: &mut Out, table: Table, file: &[u8])
    ensures { Wrote out.old (pair_lines table file.now) out.new }
{
    let n = table.bag_count.min(BAG_ROWS);
    for (i, row) in table.bags[..n].iter().enumerate() {
        bag_line(out, table, file, i, row.kind);
    }
}

fn answered(out: &mut Out, answer: Result<(), Fault>, table: Table, file: &[u8])
    ensures { Wrote out.old (answered answer table file.now) out.new }
{
    match answer {
        Ok(()) => bag_lines(out, table, file),
        Err(f) => text::refused(out, f),
    }
}

// Writes the pairs of a file that was read. The text is made in a buffer that holds any, so that
// each key is paired once, and nothing of `out` is written before it is known that the text fits.
pub fn list(file: &[u8], reading: Reading, out: &mut [u8]) -> Result<usize, Fault>
    ensures value { result ≡ (pairs_listed file.now reading out.old).answer }
    ensures report { written_report result ≡ written_report (pairs_listed file.now reading out.old).answer }
    ensures out_after { out.new ≡ (pairs_listed file.now reading out.old).buffer }
    ensures bytes { Bytes file.now }
{
    let mut text = [0u8; PAIRS_BYTES];
    let mut made = Out {
        buffer: &mut text,
        at: 0,
    };
    answered(&mut made, reading.answer, reading.table, file);
    let n = made.at;
    if out.len() < n {
        return Err(Fault {
            number: buffer::SHORT_BUFFER,
            offset: 0,
        });
    }
    let mut to = Out { buffer: out, at: 0 };
    to.bytes(&text[..n]);
    Ok(n)
}
