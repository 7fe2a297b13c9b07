// Says for each key bag of the file on standard input, bytes or a text that wraps them, which bag
// holds its certificate. A file that is refused is answered by the line of its refusal.
#![tactic(auto)]

use std::io;
use std::io::Write;

fn pairs(output: &mut impl Write, file: &[u8]) -> io::Result<()> {
    let mut text = [0u8; pair_lines::PAIRS_BYTES];
    let written = pair_lines::list(file, reader::read(file), &mut text);
    stdio::write_result(output, &text, written)?;
    Ok(())
}

fn main(rt: HostRuntime) -> io::Result<()> {
    let mut buffer = [0u8; source::READ_BYTES];
    let mut unwrapped = [0u8; stdio::LARGE];
    let n = stdio::read_all(&mut rt.stdin(), &mut buffer)?;
    let file = source::file(&mut rt.stderr(), &buffer[..n], &mut unwrapped);
    pairs(&mut rt.stdout(), file)
}
