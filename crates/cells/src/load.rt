// Reads an upload from the cells of a caller's memory.
ghost use Rattle.std.specs.Prelude.{◌≡◌, ◌≤◌, ◌<◌, length, IfOk, IfErr};
ghost use Rattle.der.specs.Element.{fault};
ghost use Rattle.buffer.specs.Numbers.{not_sound};
ghost use Rattle.stream.specs.Upload.{refusal};
ghost use Rattle.cells.specs.Cells.{upload_length, due_of, plain_in, ends_in, upload_in};

use crate::Plain;
use header::Due;
use stream::{Refusal, Upload};

// What is due by plain numbers; cells of no kind hold an upload, and are refused by 11.
fn due_of(p: Plain) -> Due
    ensures { result ≡ due_of p }
{
    let at = p.at;
    let tag = (p.tag % 256) as u8;
    let first = (p.low % 256) as u8;
    match p.kind {
        crate::TAG => Due::Tag { at },
        crate::LENGTH => Due::Length { at, tag },
        crate::ONE => Due::One { at, tag },
        crate::FIRST => Due::First { at, tag },
        crate::SECOND => Due::Second { at, tag, first },
        crate::BODY => Due::Body { at, end: p.low },
        crate::NOTHING => Due::Nothing,
        crate::REFUSED => {
            let low = p.low as u32;
            let high = p.high as u32;
            let after = low + 65536 * high;
            Due::Refused {
                number: tag,
                offset: at,
                after,
            }
        }
        _ => Due::Refused {
            number: buffer::NOT_SOUND,
            offset: 0,
            after: 0,
        },
    }
}

// The plain numbers of what is due.
fn plain(cells: &[u16]) -> Plain
    requires { upload_length ≤ length cells.now }
    ensures { result ≡ plain_in cells.now }
{
    Plain {
        kind: cells[0],
        at: cells[2],
        tag: cells[3],
        low: cells[4],
        high: cells[5],
    }
}

// Where the open elements end.
fn ends(cells: &[u16]) -> [u16; crate::ENDS]
    requires { upload_length ≤ length cells.now }
    ensures { result ≡ ends_in cells.now }
{
    let mut ends = [0; crate::ENDS];
    ends.copy_from_slice(&cells[crate::ENDS_AT..crate::UPLOAD_LENGTH]);
    ends
}

// The upload that cells hold; 11 if there are fewer cells than an upload takes.
pub(crate) fn upload(cells: &[u16]) -> Result<Upload, Refusal>
    ensures held { IfOk result (λ u. (upload_length ≤ length cells.now) × (u ≡ upload_in cells.now)) }
    ensures few { IfErr result (λ x. (length cells.now < upload_length) × (x ≡ refusal (fault not_sound 0) 0)) }
{
    if cells.len() < crate::UPLOAD_LENGTH {
        return Err(crate::refused(buffer::NOT_SOUND));
    }
    let due = due_of(plain(cells));
    let level = (cells[8] % 256) as u8;
    Ok(Upload {
        total: cells[1],
        due,
        ends: ends(cells),
        depth: (cells[6] % 256) as u8,
        elements: cells[7],
        level,
    })
}
