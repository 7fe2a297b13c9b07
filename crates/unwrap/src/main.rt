// Writes the bytes that the text on standard input wraps, and nothing else. A refusal is one line.
// Of a text that is too long one byte more than the longest has is read, so that it is refused as
// such.
#![tactic(auto)]

use std::io;

fn main(rt: HostRuntime) -> io::Result<()> {
    let mut buffer = [0u8; source::READ_BYTES];
    let mut out = [0u8; stdio::LARGE];
    let n = stdio::read_all(&mut rt.stdin(), &mut buffer)?;
    let written = source::import(&buffer[..n], &mut out);
    stdio::write_result(&mut rt.stdout(), &out, written)?;
    Ok(())
}
