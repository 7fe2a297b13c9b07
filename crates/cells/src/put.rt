// An upload as the cells of a caller's memory.
ghost use Rattle.std.specs.Prelude.{◌≡◌};
ghost use Rattle.cells.specs.Cells.{plain, plain_of, cells_of};

use crate::Plain;
use header::Due;
use stream::Upload;

// What is due as plain numbers.
fn plain_of(due: Due) -> Plain
    ensures { result ≡ plain_of due }
{
    match due {
        Due::Tag { at } => plain(crate::TAG, at, 0, 0, 0),
        Due::Length { at, tag } => plain(crate::LENGTH, at, tag as u16, 0, 0),
        Due::One { at, tag } => plain(crate::ONE, at, tag as u16, 0, 0),
        Due::First { at, tag } => plain(crate::FIRST, at, tag as u16, 0, 0),
        Due::Second { at, tag, first } => plain(crate::SECOND, at, tag as u16, first as u16, 0),
        Due::Body { at, end } => plain(crate::BODY, at, 0, end, 0),
        Due::Nothing => plain(crate::NOTHING, 0, 0, 0, 0),
        Due::Refused {
            number,
            offset,
            after,
        } => {
            let low = (after % 65536) as u16;
            let high = (after / 65536) as u16;
            plain(crate::REFUSED, offset, number as u16, low, high)
        }
    }
}

// The numbers together.
fn plain(kind: u16, at: u16, tag: u16, low: u16, high: u16) -> Plain
    ensures { result ≡ plain kind at tag low high }
{
    Plain {
        kind,
        at,
        tag,
        low,
        high,
    }
}

// A whole upload as cells.
pub(crate) fn cells(u: Upload) -> [u16; crate::UPLOAD_LENGTH]
    ensures { result ≡ cells_of u }
{
    let p = plain_of(u.due);
    let depth = u.depth as u16;
    let level = u.level as u16;
    let front = [
        p.kind, u.total, p.at, p.tag, p.low, p.high, depth, u.elements, level,
    ];
    let mut cells = [0u16; crate::UPLOAD_LENGTH];
    cells[..crate::ENDS_AT].copy_from_slice(&front);
    cells[crate::ENDS_AT..].copy_from_slice(&u.ends);
    cells
}
