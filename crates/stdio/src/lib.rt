// What programs do with standard input, output and error. A function that reads promises to stay
// within the buffer, and one that writes how many bytes it handed on, if it returns `Ok`. An error
// is one of the input or the output, returned as it came, or `WriteZero`, where the output takes no
// byte. Of what was to be written some bytes may have been handed on before it: the first ones, and
// no others.
#![tactic(auto)]

ghost use Rattle.std.specs.Prelude.{◌≡◌, ℕ, ◌<◌, length, take, codes, IfOk, IsOk, OnOk, OnErr};
ghost use Rattle.std.specs.Io.{ReadsAtMost};
ghost use Rattle.std.specs.Io.KnownBytes.{Appends, Consumes, IsAtEnd};
ghost use Rattle.io.specs.Digits.{IsDigitCount, last_digits};
ghost use Rattle.stdio.specs.Frame.{InBuffer};
ghost use Rattle.stdio.specs.Handed.{Begun, front, handed, handed_bytes};
ghost use Rattle.stdio.specs.Taken.{AtFront, TakenFrame};
ghost use Rattle.text.specs.Text.{refused_line};

use buffer::write::Out;
use der::Fault;
use std::io::{Error, ErrorKind, Read, Result, Stderr, Write};

// The size of a large buffer: one byte more than the longest file has, and as many as the longest
// listing may have.
pub const LARGE: usize = 65536;

// The bytes of a frame's length.
const LENGTH: usize = 4;

// What reading a frame comes to. A frame is its length in four bytes, high first, then its bytes.
#[derive(Clone, Copy, Debug, PartialEq, Eq)]
pub enum Frame {
    // The input ends in front of the frame.
    End,
    // The frame is cut, or longer than the buffer.
    Cut,
    // So many bytes are at the front of the buffer.
    Bytes(usize),
}

// Reads an input until it ends or the buffer is full. Returns the number of bytes read. After an
// error the bytes that were read before it are at the front of the buffer.
pub fn read_all<R: Read>(input: &mut R, buffer: &mut [u8]) -> Result<usize>
    ensures bound { ReadsAtMost result buffer.new }
    ensures bytes { IfOk result (λ n. Consumes (R.remaining input.old) (R.remaining input.new) (take n buffer.new)) }
    ensures end { IfOk result (λ n. n < length buffer.new → IsAtEnd (R.remaining input.new)) }
    ensures err { OnErr result (AtFront (R.remaining input.old) (R.remaining input.new) buffer.new) }
{
    let mut done = 0;
    while done < buffer.len() {
        let n = input.read(&mut buffer[done..])?;
        if n == 0 {
            break;
        }
        done += n;
    }
    Ok(done)
}

// Reads the bytes of a frame of this size to the front of a buffer. After an error those that were
// read before it are there.
fn read_body<R: Read>(input: &mut R, buffer: &mut [u8], size: usize) -> Result<Frame>
    ensures frame { IfOk result (λ frame. InBuffer buffer.new frame) }
    ensures err { OnErr result (AtFront (R.remaining input.old) (R.remaining input.new) buffer.new) }
{
    if buffer.len() < size {
        return Ok(Frame::Cut);
    }
    let got = read_all(input, &mut buffer[..size])?;
    if got < size {
        return Ok(Frame::Cut);
    }
    Ok(Frame::Bytes(size))
}

// Reads the next frame of an input: its bytes to the front of a buffer. After an error the bytes of
// its length are lost, and those that were read behind them are at the front of the buffer.
pub fn read_frame<R: Read>(input: &mut R, buffer: &mut [u8]) -> Result<Frame>
    ensures frame { IfOk result (λ frame. InBuffer buffer.new frame) }
    ensures err { OnErr result (TakenFrame (R.remaining input.old) (R.remaining input.new) buffer.new) }
{
    let mut header = [0u8; LENGTH];
    let got = read_all(input, &mut header)?;
    if got == 0 {
        return Ok(Frame::End);
    }
    if got < LENGTH {
        return Ok(Frame::Cut);
    }
    read_body(input, buffer, u32::from_be_bytes(header) as usize)
}

// Writes the first n bytes of a buffer, none if it has fewer. Returns the number of bytes handed
// on.
pub fn write_front<W: Write>(output: &mut W, buffer: &[u8], n: usize) -> Result<usize>
    ensures count { IfOk result (λ k. k ≡ front buffer.now n) }
    ensures bytes { OnOk result
        (Appends (W.contents output.old) (W.contents output.new) (take (front buffer.now n) buffer.now)) }
    ensures err { OnErr result
        (Begun (W.contents output.old) (W.contents output.new) (take (front buffer.now n) buffer.now)) }
    ensures short { length buffer.now < n → IsOk result }
{
    if buffer.len() < n {
        return Ok(0);
    }
    write_text(output, &buffer[..n])
}

// Writes the line of a refusal. Returns the number of bytes handed on.
pub fn write_refused<W: Write>(output: &mut W, fault: Fault) -> Result<usize>
    ensures count { IfOk result (λ k. k ≡ length (refused_line fault)) }
    ensures bytes { OnOk result (Appends (W.contents output.old) (W.contents output.new) (refused_line fault)) }
    ensures err { OnErr result (Begun (W.contents output.old) (W.contents output.new) (refused_line fault)) }
{
    let mut line = [0u8; 64];
    let mut out = Out {
        buffer: &mut line,
        at: 0,
    };
    text::refused(&mut out, fault);
    let n = out.at;
    write_front(output, &line, n)
}

// Writes what a call left at the front of a buffer, or the line of its refusal. Returns the number
// of bytes handed on.
pub fn write_result<W: Write>(
    output: &mut W,
    buffer: &[u8],
    res: std::result::Result<usize, Fault>,
) -> Result<usize>
    ensures count { IfOk result (λ k. k ≡ handed buffer.now res) }
    ensures bytes { OnOk result
        (Appends (W.contents output.old) (W.contents output.new) (handed_bytes buffer.now res)) }
    ensures err { OnErr result (Begun (W.contents output.old) (W.contents output.new) (handed_bytes buffer.now res)) }
{
    match res {
        Ok(n) => write_front(output, buffer, n),
        Err(fault) => write_refused(output, fault),
    }
}

// Writes a text to one of the outputs, by as many writes as it takes. Returns the number of bytes
// handed on. A write that takes no byte is an error.
pub fn write_text<W: Write>(output: &mut W, text: &[u8]) -> Result<usize>
    ensures count { IfOk result (λ k. k ≡ length text.now) }
    ensures bytes { OnOk result (Appends (W.contents output.old) (W.contents output.new) text.now) }
    ensures err { OnErr result (Begun (W.contents output.old) (W.contents output.new) text.now) }
{
    let mut sent = 0;
    while sent < text.len() {
        let n = output.write(&text[sent..])?;
        if n == 0 {
            return Err(Error::from(ErrorKind::WriteZero));
        }
        sent += n;
    }
    Ok(text.len())
}

// Writes a text to standard error. Returns the number of bytes handed on.
pub fn write_error(errors: &mut Stderr, text: &[u8]) -> Result<usize>
    ensures { IfOk result (λ k. k ≡ length text.now) }
{
    write_text(errors, text)
}

// Writes a number in decimal, without leading zeros. Returns the number of digits handed on.
pub fn write_decimal<W: Write>(output: &mut W, n: usize) -> Result<usize>
    ensures count { IfOk result (λ k. IsDigitCount 10 1 n k) }
    ensures bytes { IfOk result (λ k. Appends (W.contents output.old) (W.contents output.new) (last_digits 10 k n)) }
    ensures err { OnErr result ((k : ℕ) × IsDigitCount 10 1 n k
        × Begun (W.contents output.old) (W.contents output.new) (last_digits 10 k n)) }
{
    let mut digits = [0u8; 20];
    let count = io::decimal(n as u64, &mut digits);
    write_text(output, &digits[..count])
}

// Writes a byte as two hexadecimal digits, in lower case. Returns the number of digits handed on.
pub fn write_hex<W: Write>(output: &mut W, b: u8) -> Result<usize>
    ensures count { IfOk result (λ k. k ≡ 2) }
    ensures bytes { OnOk result (Appends (W.contents output.old) (W.contents output.new) (last_digits 16 2 b)) }
    ensures err { OnErr result (Begun (W.contents output.old) (W.contents output.new) (last_digits 16 2 b)) }
{
    let mut digits = [0u8; 16];
    let two = io::hex(b as u64, 2, &mut digits);
    write_text(output, &digits[..two])
}

// Writes the line `cut`. Returns the number of bytes handed on.
pub fn write_cut<W: Write>(output: &mut W) -> Result<usize>
    ensures count { IfOk result (λ k. k ≡ 4) }
    ensures bytes { OnOk result (Appends (W.contents output.old) (W.contents output.new) (codes "cut\n")) }
    ensures err { OnErr result (Begun (W.contents output.old) (W.contents output.new) (codes "cut\n")) }
{
    write_text(output, b"cut\n")
}
