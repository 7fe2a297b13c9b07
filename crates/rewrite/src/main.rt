// Reads the file on standard input and writes it back from its table: the bytes that the writer
// makes, and nothing else. A refusal is one line.
#![tactic(auto)]

use der::Fault;
use std::io;
use std::io::Write;

// Writes the file of the table that reading makes into a buffer. The writer refuses no table of an
// accepted file.
fn written_back(file: &[u8], out: &mut [u8]) -> Result<usize, Fault> {
    let reading = reader::read(file);
    reading.answer?;
    writer::write(reading.table, file, out)
}

fn rewrite(output: &mut impl Write, file: &[u8]) -> io::Result<()> {
    let mut out = [0u8; stdio::LARGE];
    let written = written_back(file, &mut out);
    stdio::write_result(output, &out, written)?;
    Ok(())
}

// Of a file that is too long one byte more than the longest has is read, so that it is refused as
// such.
fn main(rt: HostRuntime) -> io::Result<()> {
    let mut buffer = [0u8; stdio::LARGE];
    let n = stdio::read_all(&mut rt.stdin(), &mut buffer)?;
    rewrite(&mut rt.stdout(), &buffer[..n])
}
