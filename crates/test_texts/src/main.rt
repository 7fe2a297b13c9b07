// Imports the texts and exports the bytes of standard input, one line of standard output for each.
// Each call is a frame: 0 for import or 1 for export in one byte, the length of the buffer in four
// bytes, high first, then the text or the bytes. The buffer is full of A5 before the call. The line
// has the bytes that are given, in hex, or the refusal, and whether all others of the buffer are
// still A5. A frame that doesn't hold a call is answered by the line `cut`, and nothing after it is
// read.
#![tactic(auto)]

use buffer::read;
use der::Fault;
use std::io;
use std::io::{Read, Write};
use stdio::{Frame, write_decimal, write_text};

// The bytes in front of the text or the bytes: the call and the length of the buffer.
const HEAD: usize = 5;

const IMPORT: u8 = 0;

const EXPORT: u8 = 1;

// The most bytes that a buffer has.
const MEMORY: usize = 4096;

// What the buffer is full of.
const UNTOUCHED: u8 = 0xA5;

// Whether every byte from an offset on is as before the call.
fn is_kept(buffer: &[u8], from: usize) -> bool {
    buffer.iter().skip(from).all(|b| *b == UNTOUCHED)
}

// The end of a line: whether every byte from an offset on is as before the call.
fn show_kept(output: &mut impl Write, buffer: &[u8], from: usize) -> io::Result<()> {
    if is_kept(buffer, from) {
        write_text(output, b"kept\n")?;
    } else {
        write_text(output, b"changed\n")?;
    }
    Ok(())
}

fn show_hex(output: &mut impl Write, bytes: &[u8]) -> io::Result<()> {
    for b in bytes {
        stdio::write_hex(output, *b)?;
    }
    Ok(())
}

// The first n bytes of a buffer are given.
fn show_given(output: &mut impl Write, buffer: &[u8], n: usize) -> io::Result<()> {
    write_decimal(output, n)?;
    write_text(output, b": ")?;
    show_hex(output, range::part(buffer, 0, n))?;
    write_text(output, b", rest ")?;
    show_kept(output, buffer, n)
}

fn show_refused(output: &mut impl Write, buffer: &[u8], fault: Fault) -> io::Result<()> {
    write_text(output, b"refused ")?;
    write_decimal(output, fault.number as usize)?;
    write_text(output, b" at ")?;
    write_decimal(output, fault.offset)?;
    write_text(output, b", ")?;
    show_kept(output, buffer, 0)
}

fn call(kind: u8, bytes: &[u8], buffer: &mut [u8]) -> Result<usize, Fault> {
    if kind == IMPORT {
        pem::import(bytes, buffer)
    } else {
        pem::export(bytes, buffer)
    }
}

// One call, and its line.
fn run(output: &mut impl Write, kind: u8, bytes: &[u8], buffer: &mut [u8]) -> io::Result<()> {
    buffer.fill(UNTOUCHED);
    match call(kind, bytes, buffer) {
        Ok(n) => show_given(output, buffer, n),
        Err(fault) => show_refused(output, buffer, fault),
    }
}

// Writes the line `cut`. Answers that nothing more is read.
fn cut(output: &mut impl Write) -> io::Result<bool> {
    stdio::write_cut(output)?;
    Ok(false)
}

// The call of a frame, with a buffer in the memory. Answers whether the frame holds one.
fn call_frame(output: &mut impl Write, s: &[u8], memory: &mut [u8]) -> io::Result<bool> {
    if s.len() < HEAD {
        return cut(output);
    }
    let kind = s[0];
    if EXPORT < kind {
        return cut(output);
    }
    let n = read::u32_be(s, 1) as usize;
    if memory.len() < n {
        return cut(output);
    }
    run(output, kind, &s[HEAD..], &mut memory[..n])?;
    Ok(true)
}

// One frame, and whether to go on.
fn frame(
    output: &mut impl Write,
    input: &mut impl Read,
    buffer: &mut [u8],
    memory: &mut [u8],
) -> io::Result<bool> {
    match stdio::read_frame(input, buffer)? {
        Frame::End => Ok(false),
        Frame::Cut => cut(output),
        Frame::Bytes(n) => call_frame(output, &buffer[..n], memory),
    }
}

// Nothing says that the input ends, so the frames are counted, up to a number that no input has.
fn frames(
    output: &mut impl Write,
    input: &mut impl Read,
    buffer: &mut [u8],
    memory: &mut [u8],
) -> io::Result<()> {
    for _ in 0..u64::MAX {
        if !frame(output, input, buffer, memory)? {
            break;
        }
    }
    Ok(())
}

fn main(rt: HostRuntime) -> io::Result<()> {
    let mut buffer = [0u8; stdio::LARGE];
    let mut memory = [0u8; MEMORY];
    frames(&mut rt.stdout(), &mut rt.stdin(), &mut buffer, &mut memory)
}
