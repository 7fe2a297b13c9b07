// An upload as plain cells of 16 bits in a caller's memory: the check of an upload for callers that
// hold no value of it. Every call answers any cells. They are the `state` of `p12_upload_begin` in
// include/p12.h.
#![tactic(auto)]

ghost use Rattle.std.specs.Prelude.{◌≡◌};
ghost use Rattle.der.specs.Element.{fault};
ghost use Rattle.der.specs.Span.{Bytes};
ghost use Rattle.stream.specs.Upload.{refusal};
ghost use Rattle.stream.specs.Report.{status_report, end_report};
ghost use Rattle.cells.specs.Cells.{begun_in, taken_in, status_in, end_in};

mod load;
mod put;

use der::Fault;
use stream::{Counts, Refusal, Upload};

// How many cells an upload takes: the kind of what is due, the length, four numbers of what is due,
// the open elements, the number of elements, the greatest level, and the ends.
pub const UPLOAD_LENGTH: usize = 29;

pub const ENDS: usize = 20;

pub const ENDS_AT: usize = 9;

// The kinds of what is due. Any other number is no upload.
pub const TAG: u16 = 1;

pub const LENGTH: u16 = 2;

pub const ONE: u16 = 3;

pub const FIRST: u16 = 4;

pub const SECOND: u16 = 5;

pub const BODY: u16 = 6;

pub const NOTHING: u16 = 7;

pub const REFUSED: u16 = 8;

// What is due as plain numbers: its kind, the offset, the tag or the number of a refusal, and two
// more, 0 where the kind has no use for them.
#[derive(Clone, Copy, Debug, PartialEq, Eq)]
struct Plain {
    kind: u16,
    at: u16,
    tag: u16,
    low: u16,
    high: u16,
}

// A call that is refused at once.
fn refused(number: u8) -> Refusal
    ensures { result ≡ refusal (fault number 0) 0 }
{
    let fault = Fault { number, offset: 0 };
    Refusal { fault, after: 0 }
}

// The length is announced. 10 if there are fewer cells than an upload takes.
pub fn begin(length: usize, cells: &mut [u16]) -> Result<(), Refusal>
    ensures value { result ≡ (begun_in length cells.old).answer }
    ensures report { status_report result ≡ status_report (begun_in length cells.old).answer }
    ensures cells_after { cells.new ≡ (begun_in length cells.old).cells }
{
    let count = cells.len();
    if count < UPLOAD_LENGTH {
        return Err(refused(buffer::SHORT_BUFFER));
    }
    let u = Upload::begin(length);
    cells[..UPLOAD_LENGTH].copy_from_slice(&put::cells(u));
    u.status()
}

// A portion arrives; it may be empty. 11 if there are fewer cells than an upload takes.
pub fn take(cells: &mut [u16], portion: &[u8]) -> Result<(), Refusal>
    ensures value { result ≡ (taken_in cells.old portion.now).answer }
    ensures report { status_report result ≡ status_report (taken_in cells.old portion.now).answer }
    ensures cells_after { cells.new ≡ (taken_in cells.old portion.now).cells }
    ensures bytes { Bytes portion.now }
{
    let before = load::upload(cells)?;
    let after = before.take(portion);
    cells[..UPLOAD_LENGTH].copy_from_slice(&put::cells(after));
    after.status()
}

// What is certain so far; 11 if there are fewer cells than an upload takes.
pub fn status(cells: &[u16]) -> Result<(), Refusal>
    ensures value { result ≡ status_in cells.now }
    ensures report { status_report result ≡ status_report (status_in cells.now) }
{
    let u = load::upload(cells)?;
    u.status()
}

// The answer if the upload ends here; 11 if there are fewer cells than an upload takes.
pub fn end(cells: &[u16]) -> Result<Counts, Refusal>
    ensures value { result ≡ end_in cells.now }
    ensures report { end_report result ≡ end_report (end_in cells.now) }
{
    let held = load::upload(cells)?;
    held.end()
}
