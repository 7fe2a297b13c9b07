// Hands on the uploads of standard input, one line of standard output for each. Each upload is a
// frame: the announced length in four bytes, high first, then portions, each its length in two
// bytes, high first, and its bytes. The line has the status after the announcement and after each
// portion, then the answer at the end. A frame that doesn't hold whole portions is answered by the
// line `cut`, and nothing after it is read.
#![tactic(auto)]

ghost use Rattle.std.specs.Prelude.{◌<◌, length};

use buffer::read;
use std::io;
use std::io::{Read, Write};
use stdio::{Frame, write_decimal, write_text};
use stream::{Counts, Refusal, Upload};

// Where the first portion begins, and the bytes of a portion's length.
const PORTIONS: usize = 4;

const LENGTH: usize = 2;

fn show_refused(output: &mut impl Write, refusal: Refusal) -> io::Result<()> {
    write_text(output, b"refused ")?;
    write_decimal(output, refusal.fault.number as usize)?;
    write_text(output, b" at ")?;
    write_decimal(output, refusal.fault.offset)?;
    write_text(output, b" after ")?;
    write_decimal(output, refusal.after)?;
    Ok(())
}

fn show_passed(output: &mut impl Write, counts: Counts) -> io::Result<()> {
    write_text(output, b"passed ")?;
    write_decimal(output, counts.elements)?;
    write_text(output, b" elements, level ")?;
    write_decimal(output, counts.level)?;
    Ok(())
}

fn show_status(output: &mut impl Write, status: Result<(), Refusal>) -> io::Result<()> {
    match status {
        Ok(()) => {
            write_text(output, b"none")?;
            Ok(())
        }
        Err(refusal) => show_refused(output, refusal),
    }
}

fn show_end(output: &mut impl Write, end: Result<Counts, Refusal>) -> io::Result<()> {
    match end {
        Ok(counts) => show_passed(output, counts),
        Err(refusal) => show_refused(output, refusal),
    }
}

// The offset behind the portion whose length is at `at`; past the end if the frame ends in it.
fn behind(s: &[u8], at: usize) -> usize
    requires { at < length s.now }
    ensures { at < result }
{
    let size = read::u16_be(s, at) as usize;
    at + LENGTH + size
}

// Whether a frame ends with a portion, or right behind the announced length.
fn is_whole(s: &[u8]) -> bool {
    let mut at = PORTIONS;
    while at < s.len() {
        at = behind(s, at);
    }
    at == s.len()
}

// The upload after the portions of a frame. Writes the status after each.
fn portions(output: &mut impl Write, mut upload: Upload, s: &[u8]) -> io::Result<Upload> {
    let mut at = PORTIONS;
    while at < s.len() {
        let start = at + LENGTH;
        at = behind(s, at);
        upload = upload.take(range::part(s, start, at));
        write_text(output, b", ")?;
        show_status(output, upload.status())?;
    }
    Ok(upload)
}

// The line of a frame.
fn run(output: &mut impl Write, s: &[u8]) -> io::Result<()> {
    let announced = read::u32_be(s, 0) as usize;
    let begun = Upload::begin(announced);
    show_status(output, begun.status())?;
    let upload = portions(output, begun, s)?;
    write_text(output, b", end: ")?;
    show_end(output, upload.end())?;
    write_text(output, b"\n")?;
    Ok(())
}

// Writes the line `cut`. Answers that nothing more is read.
fn cut(output: &mut impl Write) -> io::Result<bool> {
    stdio::write_cut(output)?;
    Ok(false)
}

// The upload of a frame. Answers whether the frame holds one.
fn upload_frame(output: &mut impl Write, s: &[u8]) -> io::Result<bool> {
    if !is_whole(s) {
        return cut(output);
    }
    run(output, s)?;
    Ok(true)
}

// One frame, and whether to go on.
fn frame(output: &mut impl Write, input: &mut impl Read, buffer: &mut [u8]) -> io::Result<bool> {
    let frame = stdio::read_frame(input, buffer)?;
    match frame {
        Frame::End => Ok(false),
        Frame::Cut => cut(output),
        Frame::Bytes(n) => upload_frame(output, &buffer[..n]),
    }
}

// Nothing says that the input ends, so the frames are counted, up to a number that no input has.
fn frames(output: &mut impl Write, input: &mut impl Read, buffer: &mut [u8]) -> io::Result<()> {
    for _ in 0..u64::MAX {
        if !frame(output, input, buffer)? {
            break;
        }
    }
    Ok(())
}

fn main(rt: HostRuntime) -> io::Result<()> {
    let mut buffer = [0u8; stdio::LARGE];
    frames(&mut rt.stdout(), &mut rt.stdin(), &mut buffer)
}
