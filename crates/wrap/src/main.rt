// Writes the text of the bytes on standard input, and nothing else. A refusal is one line. Of bytes
// that are too long for a file one more than the longest has is read, so that they are refused as
// such.
#![tactic(auto)]

use std::io;

fn main(rt: HostRuntime) -> io::Result<()> {
    let mut buffer = [0u8; stdio::LARGE];
    let mut out = [0u8; pem::TEXT_BYTES];
    let n = stdio::read_all(&mut rt.stdin(), &mut buffer)?;
    let written = pem::export(&buffer[..n], &mut out);
    stdio::write_result(&mut rt.stdout(), &out, written)?;
    Ok(())
}
