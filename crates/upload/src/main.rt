// Checks the upload on standard input while it arrives: the announced length in four bytes, high
// first, then the bytes, which are handed on one by one. Writes one line: what the check comes to.
#![tactic(auto)]

ghost use Rattle.std.specs.Prelude.{◌≡◌};
ghost use Rattle.stream.specs.Upload.{taken};

use buffer::read;
use der::Fault;
use std::io;
use std::io::{Read, Write};
use stdio::{write_decimal, write_text};
use stream::{Counts, Refusal, Upload};

// The bytes of the announced length.
const LENGTH: usize = 4;

// The most bytes that are read at a time.
const PIECE: usize = 4096;

fn show_passed(output: &mut impl Write, counts: Counts) -> io::Result<()> {
    write_text(output, b"passed ")?;
    write_decimal(output, counts.elements)?;
    write_text(output, b" elements, level ")?;
    write_decimal(output, counts.level)?;
    write_text(output, b"\n")?;
    Ok(())
}

fn show_refused(output: &mut impl Write, refusal: Refusal) -> io::Result<()> {
    write_text(output, b"refused ")?;
    write_decimal(output, refusal.fault.number as usize)?;
    write_text(output, b" at ")?;
    write_decimal(output, refusal.fault.offset)?;
    write_text(output, b" after ")?;
    write_decimal(output, refusal.after)?;
    write_text(output, b" bytes\n")?;
    Ok(())
}

fn show(output: &mut impl Write, end: Result<Counts, Refusal>) -> io::Result<()> {
    match end {
        Ok(counts) => show_passed(output, counts),
        Err(refusal) => show_refused(output, refusal),
    }
}

// The upload after these bytes, each a portion of its own.
fn one_by_one(first: Upload, bytes: &[u8]) -> Upload
    ensures { result ≡ taken first bytes.now }
{
    let mut upload = first;
    for b in bytes {
        upload = upload.take(&[*b]);
    }
    upload
}

// The upload after the rest of an input, which is read piece by piece until it ends. Nothing says
// that it does, so the pieces are counted, up to a number that no input has.
fn rest(input: &mut impl Read, mut upload: Upload, piece: &mut [u8]) -> io::Result<Upload> {
    for _ in 0..u64::MAX {
        let n = stdio::read_all(input, piece)?;
        upload = one_by_one(upload, &piece[..n]);
        if n < piece.len() {
            break;
        }
    }
    Ok(upload)
}

// The answer for an announced length and what follows it.
fn answer(input: &mut impl Read, length: usize) -> io::Result<Result<Counts, Refusal>> {
    let mut piece = [0u8; PIECE];
    let upload = rest(input, Upload::begin(length), &mut piece)?;
    Ok(upload.end())
}

// An input that ends before the announced length is complete is an upload that ends early.
fn main(rt: HostRuntime) -> io::Result<()> {
    let mut input = rt.stdin();
    let mut length = [0u8; LENGTH];
    if stdio::read_all(&mut input, &mut length)? < LENGTH {
        let fault = Fault {
            number: header::EARLY,
            offset: 0,
        };
        show_refused(&mut rt.stdout(), Refusal { fault, after: 0 })
    } else {
        let end = answer(&mut input, read::u32_be(&length, 0) as usize)?;
        show(&mut rt.stdout(), end)
    }
}
