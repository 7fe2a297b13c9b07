// Lists the files of standard input, one after another, and of each that is accepted pairs its keys
// with certificates, calls the attribute reader and the identity rows (`runs`) and says whether the
// writer makes the same bytes of its table. Each file is a frame. A frame that is cut, or longer
// than the buffer, is answered by the line `cut`, and nothing after it is read.
#![tactic(auto)]

mod runs;

use pkcs12::{Reading, Table};
use std::io;
use std::io::{Read, Write};
use stdio::Frame;

// Whether the first n bytes of what was written are the file.
fn same_front(out: &[u8], n: usize, file: &[u8]) -> bool {
    n <= out.len() && &out[..n] == file
}

// Writes the file of a table, and says whether it is this one.
fn write_back(
    output: &mut impl Write,
    table: Table,
    file: &[u8],
    out: &mut [u8],
) -> io::Result<()> {
    let written = writer::write(table, file, out);
    if matches!(written, Ok(n) if same_front(out, n, file)) {
        stdio::write_text(output, b"written back, the same\n")?;
    } else {
        stdio::write_text(output, b"written back, another\n")?;
    }
    Ok(())
}

// Writes the listing of a file: all of it, since the buffer holds any.
fn show_listing(output: &mut impl Write, size: usize, reading: Reading) -> io::Result<()> {
    let mut text = [0u8; stdio::LARGE];
    let written = listing::list(size, reading, &mut text);
    stdio::write_result(output, &text, written)?;
    Ok(())
}

// Writes the pairs of a file: all of them, since the buffer holds any.
fn show_pairs(output: &mut impl Write, file: &[u8], reading: Reading) -> io::Result<()> {
    let mut text = [0u8; pair_lines::PAIRS_BYTES];
    let written = pair_lines::list(file, reading, &mut text);
    stdio::write_result(output, &text, written)?;
    Ok(())
}

// Lists a file and, if it is accepted, pairs its keys and writes it back.
fn list(output: &mut impl Write, file: &[u8], out: &mut [u8]) -> io::Result<()> {
    let reading = reader::read(file);
    show_listing(output, file.len(), reading)?;
    if reading.answer.is_ok() {
        show_pairs(output, file, reading)?;
        runs::show(output, reading.table, file)?;
        write_back(output, reading.table, file, out)?;
    }
    Ok(())
}

// One frame, and whether to go on.
fn frame(
    output: &mut impl Write,
    input: &mut impl Read,
    buffer: &mut [u8],
    out: &mut [u8],
) -> io::Result<bool> {
    let frame = stdio::read_frame(input, buffer)?;
    match frame {
        Frame::End => Ok(false),
        Frame::Cut => {
            stdio::write_cut(output)?;
            Ok(false)
        }
        Frame::Bytes(n) => {
            list(output, &buffer[..n], out)?;
            Ok(true)
        }
    }
}

// Nothing says that the input ends, so the frames are counted, up to a number that no input has.
fn frames(
    output: &mut impl Write,
    input: &mut impl Read,
    buffer: &mut [u8],
    out: &mut [u8],
) -> io::Result<()> {
    for _ in 0..u64::MAX {
        if !frame(output, input, buffer, out)? {
            break;
        }
    }
    Ok(())
}

fn main(rt: HostRuntime) -> io::Result<()> {
    let mut buffer = [0u8; stdio::LARGE];
    let mut out = [0u8; stdio::LARGE];
    frames(&mut rt.stdout(), &mut rt.stdin(), &mut buffer, &mut out)
}
