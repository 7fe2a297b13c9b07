// Runs the writer over the tables of standard input, sound ones and others. Each table is a frame:
// the size of the buffer, the counts, the rows, the MAC fields and the bytes.
// docs/TESTS.md has the frame's parts and the lines. A frame that doesn't hold these is answered by
// the line `cut`, and nothing after it is read.
#![tactic(auto)]

ghost use Rattle.std.specs.Prelude.{◌<◌};

use buffer::read::{byte, u16_be, u32_be};
use der::Fault;
use pkcs12::{
    ATTRIBUTE_ROWS, AttributeRow, BAG_ROWS, BagKind, BagRow, Mac, Parts, SAFE_ROWS, SafeKind,
    SafeRow, Table,
};
use range::Range;
use std::io;
use std::io::{Read, Write};
use stdio::{Frame, write_decimal, write_hex, write_text};

// Bytes of a frame's parts: what is in front of the rows, a row of each kind, the MAC fields.
const HEAD: usize = 13;

const SAFE: usize = 13;

const BAG: usize = 19;

const ATTRIBUTE: usize = 10;

const MAC: usize = 20;

// A start and an end.
fn range(s: &[u8], at: usize) -> Range
    requires { at < 60000 }
{
    Range {
        start: u16_be(s, at),
        end: u16_be(s, at + 2),
    }
}

fn parts(s: &[u8], at: usize) -> Parts
    requires { at < 50000 }
{
    Parts {
        identifier: range(s, at),
        parameters: range(s, at + 4),
        value: range(s, at + 8),
    }
}

fn safe_kind(b: u8) -> SafeKind {
    match b {
        1 => SafeKind::Plain,
        2 => SafeKind::Encrypted,
        _ => SafeKind::None,
    }
}

fn bag_kind(b: u8) -> BagKind {
    match b {
        1 => BagKind::Key,
        2 => BagKind::ShroudedKey,
        3 => BagKind::Certificate,
        4 => BagKind::Crl,
        5 => BagKind::Secret,
        6 => BagKind::Nested,
        _ => BagKind::None,
    }
}

// A byte that is 0 where no bag encloses this one, and the bag's number.
fn enclosing(s: &[u8], at: usize) -> Option<u16>
    requires { at < 60000 }
{
    if byte(s, at) == 0 {
        None
    } else {
        Some(u16_be(s, at + 1))
    }
}

fn safe_row(s: &[u8], at: usize) -> SafeRow
    requires { at < 20000 }
{
    SafeRow {
        kind: safe_kind(byte(s, at)),
        parts: parts(s, at + 1),
    }
}

fn bag_row(s: &[u8], at: usize) -> BagRow
    requires { at < 20000 }
{
    BagRow {
        kind: bag_kind(byte(s, at)),
        safe: u16_be(s, at + 1),
        enclosing: enclosing(s, at + 3),
        parts: parts(s, at + 6),
        has_set: byte(s, at + 18) != 0,
    }
}

fn attribute_row(s: &[u8], at: usize) -> AttributeRow
    requires { at < 20000 }
{
    AttributeRow {
        bag: u16_be(s, at),
        identifier: range(s, at + 2),
        values: range(s, at + 6),
    }
}

fn mac(s: &[u8], at: usize) -> Mac
    requires { at < 20000 }
{
    Mac {
        parts: parts(s, at),
        salt: range(s, at + 12),
        iterations: u32_be(s, at + 16),
    }
}

// How many rows of each kind are in the frame.
#[derive(Clone, Copy)]
struct Rows {
    safes: u8,
    bags: u8,
    attributes: u8,
}

impl Rows {
    fn of(s: &[u8]) -> Rows {
        Rows {
            safes: byte(s, 10),
            bags: byte(s, 11),
            attributes: byte(s, 12),
        }
    }

    // Whether a table has so many.
    fn fit(self) -> bool {
        self.safes as usize <= SAFE_ROWS
            && self.bags as usize <= BAG_ROWS
            && self.attributes as usize <= ATTRIBUTE_ROWS
    }

    // Where the bag rows begin, and so on.
    fn bags_at(self) -> usize
        ensures { result < 4000 }
    {
        HEAD + self.safes as usize * SAFE
    }

    fn attributes_at(self) -> usize
        ensures { result < 9000 }
    {
        self.bags_at() + self.bags as usize * BAG
    }

    fn mac_at(self) -> usize
        ensures { result < 12000 }
    {
        self.attributes_at() + self.attributes as usize * ATTRIBUTE
    }

    fn bytes_at(self) -> usize {
        self.mac_at() + MAC
    }
}

// The table with n rows from an offset of the frame on, as far as it has rows.
fn with_safes(mut table: Table, s: &[u8], start: usize, n: usize) -> Table
    requires { (start < 10000) × (n < 256) }
{
    for i in 0..n.min(SAFE_ROWS) {
        table.safes[i] = safe_row(s, start + i * SAFE);
    }
    table
}

fn with_bags(mut table: Table, s: &[u8], start: usize, n: usize) -> Table
    requires { (start < 10000) × (n < 256) }
{
    for i in 0..n.min(BAG_ROWS) {
        table.bags[i] = bag_row(s, start + i * BAG);
    }
    table
}

fn with_attributes(mut table: Table, s: &[u8], start: usize, n: usize) -> Table
    requires { (start < 10000) × (n < 256) }
{
    for i in 0..n.min(ATTRIBUTE_ROWS) {
        table.attributes[i] = attribute_row(s, start + i * ATTRIBUTE);
    }
    table
}

// The frame's table. Its counts are the frame's, whatever they are.
fn table_of(s: &[u8], rows: Rows) -> Table {
    let safes = with_safes(Table::empty(), s, HEAD, rows.safes as usize);
    let bags = with_bags(safes, s, rows.bags_at(), rows.bags as usize);
    let mut table = with_attributes(bags, s, rows.attributes_at(), rows.attributes as usize);
    table.safe_count = u16_be(s, 4) as usize;
    table.bag_count = u16_be(s, 6) as usize;
    table.attribute_count = u16_be(s, 8) as usize;
    table.mac = mac(s, rows.mac_at());
    table
}

// The byte at an offset of the buffer before the writer is called.
fn pattern(i: usize) -> u8 {
    ((i % 256 * 7 + 3) % 256) as u8
}

fn fill(out: &mut [u8]) {
    for (i, b) in out.iter_mut().enumerate() {
        *b = pattern(i);
    }
}

// Whether the buffer is as it was filled, from an offset on.
fn unchanged(out: &[u8], from: usize) -> bool {
    out.iter()
        .enumerate()
        .skip(from)
        .all(|(i, b)| *b == pattern(i))
}

// Says whether the buffer is as it was filled, and ends the line.
fn show_rest(output: &mut impl Write, out: &[u8], from: usize) -> io::Result<()> {
    if unchanged(out, from) {
        write_text(output, b" as before\n")?;
    } else {
        write_text(output, b" changed\n")?;
    }
    Ok(())
}

// The bytes in hex, on one line.
fn show_bytes(output: &mut impl Write, s: &[u8]) -> io::Result<()> {
    for b in s {
        write_hex(output, *b)?;
    }
    write_text(output, b"\n")?;
    Ok(())
}

fn show_file(output: &mut impl Write, out: &[u8], n: usize) -> io::Result<()> {
    write_text(output, b"length ")?;
    write_decimal(output, n)?;
    write_text(output, b", rest")?;
    show_rest(output, out, n)?;
    if n <= out.len() {
        show_bytes(output, &out[..n])?;
    }
    Ok(())
}

fn show_refusal(output: &mut impl Write, out: &[u8], fault: Fault) -> io::Result<()> {
    write_text(output, b"refused ")?;
    write_decimal(output, fault.number as usize)?;
    write_text(output, b" at ")?;
    write_decimal(output, fault.offset)?;
    write_text(output, b", buffer")?;
    show_rest(output, out, 0)
}

// One call of the writer, and what came of it.
fn run(output: &mut impl Write, table: Table, bytes: &[u8], out: &mut [u8]) -> io::Result<()> {
    fill(out);
    let written = writer::write(table, bytes, out);
    match written {
        Ok(n) => show_file(output, out, n),
        Err(fault) => show_refusal(output, out, fault),
    }
}

// Writes the line `cut`. Answers that nothing more is read.
fn cut(output: &mut impl Write) -> io::Result<bool> {
    stdio::write_cut(output)?;
    Ok(false)
}

// Runs the writer over a frame's table. Answers whether the frame holds one.
fn table_frame(output: &mut impl Write, s: &[u8], out: &mut [u8]) -> io::Result<bool> {
    let rows = Rows::of(s);
    let start = rows.bytes_at();
    let size = u32_be(s, 0) as usize;
    if s.len() < start || out.len() < size || !rows.fit() {
        return cut(output);
    }
    run(output, table_of(s, rows), &s[start..], &mut out[..size])?;
    Ok(true)
}

// One frame, and whether to go on.
fn frame(
    output: &mut impl Write,
    input: &mut impl Read,
    buffer: &mut [u8],
    out: &mut [u8],
) -> io::Result<bool> {
    let frame = stdio::read_frame(input, buffer)?;
    match frame {
        Frame::End => Ok(false),
        Frame::Cut => cut(output),
        Frame::Bytes(n) => table_frame(output, &buffer[..n], out),
    }
}

// Nothing says that the input ends, so the frames are counted, up to a number that no input has.
fn frames(
    output: &mut impl Write,
    input: &mut impl Read,
    buffer: &mut [u8],
    out: &mut [u8],
) -> io::Result<()> {
    for _ in 0..u64::MAX {
        if !frame(output, input, buffer, out)? {
            break;
        }
    }
    Ok(())
}

fn main(rt: HostRuntime) -> io::Result<()> {
    let mut buffer = [0u8; stdio::LARGE];
    let mut out = [0u8; stdio::LARGE];
    frames(&mut rt.stdout(), &mut rt.stdin(), &mut buffer, &mut out)
}
