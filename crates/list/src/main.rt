// Lists the file on standard input: bytes, or a text that wraps them. Of an input that is too long
// one byte more than the longest text has is read, so that it is refused as such.
#![tactic(auto)]

use std::io;
use std::io::Write;

fn list(output: &mut impl Write, file: &[u8]) -> io::Result<()> {
    let mut text = [0u8; stdio::LARGE];
    let written = listing::list(file.len(), reader::read(file), &mut text);
    stdio::write_result(output, &text, written)?;
    Ok(())
}

fn main(rt: HostRuntime) -> io::Result<()> {
    let mut buffer = [0u8; source::READ_BYTES];
    let mut unwrapped = [0u8; stdio::LARGE];
    let n = stdio::read_all(&mut rt.stdin(), &mut buffer)?;
    let file = source::file(&mut rt.stderr(), &buffer[..n], &mut unwrapped);
    list(&mut rt.stdout(), file)
}
