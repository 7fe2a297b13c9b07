// Runs calls of `der` over the frames of standard input, one line of standard output for each
// answer. The whole input is read at once, and a frame has a header of its own: call, argument (a
// byte each), cursor's position, its end, number of bytes (two bytes each, high first); then the
// bytes. docs/TESTS.md lists the calls and the lines.
#![tactic(auto)]

ghost use Rattle.std.specs.Prelude.{◌<◌, IfOk, length};

use der::{Checked, Cursor, Element, Fault, Integer};
use std::io;
use std::io::Write;
use stdio::{write_decimal, write_hex, write_text};

const HEADER: usize = 8;

fn range(output: &mut impl Write, c: Cursor) -> io::Result<()> {
    write_decimal(output, c.at)?;
    write_text(output, b"..")?;
    write_decimal(output, c.end)?;
    Ok(())
}

fn refused(output: &mut impl Write, f: Fault) -> io::Result<()> {
    stdio::write_refused(output, f)?;
    Ok(())
}

fn next(output: &mut impl Write, c: Cursor) -> io::Result<()> {
    write_text(output, b", next ")?;
    range(output, c)?;
    write_text(output, b"\n")?;
    Ok(())
}

fn show_element(output: &mut impl Write, answer: Result<Element, Fault>) -> io::Result<()> {
    match answer {
        Err(f) => refused(output, f),
        Ok(found) => {
            write_text(output, b"found ")?;
            write_hex(output, found.tag)?;
            write_text(output, b", body ")?;
            range(output, found.body)?;
            next(output, found.next)
        }
    }
}

fn show_integer(output: &mut impl Write, answer: Result<Integer, Fault>) -> io::Result<()> {
    match answer {
        Err(f) => refused(output, f),
        Ok(integer) => {
            write_text(output, b"value ")?;
            write_decimal(output, integer.value as usize)?;
            next(output, integer.next)
        }
    }
}

fn show_checked(output: &mut impl Write, answer: Result<Checked, Fault>) -> io::Result<()> {
    match answer {
        Err(f) => refused(output, f),
        Ok(checked) => {
            write_text(output, b"passed ")?;
            write_decimal(output, checked.count)?;
            next(output, checked.next)
        }
    }
}

fn show_tag(output: &mut impl Write, t: u8) -> io::Result<()> {
    write_text(output, b"tag ")?;
    write_hex(output, t)?;
    write_text(output, b"\n")?;
    Ok(())
}

fn show_cursor(output: &mut impl Write, c: Cursor) -> io::Result<()> {
    write_text(output, b"cursor ")?;
    range(output, c)?;
    write_text(output, b"\n")?;
    Ok(())
}

// One call, by its letter.
fn call(output: &mut impl Write, letter: u8, argument: u8, c: Cursor, s: &[u8]) -> io::Result<()> {
    match letter {
        b't' => show_tag(output, c.tag(s)),
        b'e' => show_element(output, c.element(s)),
        b'd' => show_element(output, c.expect(s, argument)),
        b's' => show_element(output, c.octet_string(s)),
        b'i' => show_element(output, c.identifier(s)),
        b'n' => show_integer(output, c.integer(s)),
        b'o' => show_checked(output, c.opaque(s, argument)),
        b'r' => show_checked(output, c.elements(s, argument)),
        b'f' => show_checked(output, c.finish()),
        b'w' => show_cursor(output, Cursor::over(s)),
        _ => {
            write_text(output, b"no such call\n")?;
            Ok(())
        }
    }
}

// The frame at `at`, and the offset behind it.
fn frame(output: &mut impl Write, s: &[u8], at: usize) -> io::Result<usize>
    requires { at < length s.now }
    ensures { IfOk result (λ next. at < next) }
{
    let left = s.len() - at;
    if left < HEADER {
        stdio::write_cut(output)?;
        return Ok(s.len());
    }
    let start = at + HEADER;
    let size = buffer::read::u16_be(s, at + 6) as usize;
    let stop = start + size;
    if s.len() < stop {
        stdio::write_cut(output)?;
        return Ok(s.len());
    }
    let c = Cursor {
        at: buffer::read::u16_be(s, at + 2) as usize,
        end: buffer::read::u16_be(s, at + 4) as usize,
    };
    call(output, s[at], s[at + 1], c, &s[start..stop])?;
    Ok(stop)
}

fn frames(output: &mut impl Write, s: &[u8]) -> io::Result<()> {
    let mut at = 0;
    while at < s.len() {
        at = frame(output, s, at)?;
    }
    Ok(())
}

fn main(rt: HostRuntime) -> io::Result<()> {
    let mut buffer = [0u8; stdio::LARGE];
    let n = stdio::read_all(&mut rt.stdin(), &mut buffer)?;
    frames(&mut rt.stdout(), &buffer[..n])
}
