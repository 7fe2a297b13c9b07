// The check of an upload while it arrives: one opaque element of DER, of 20 levels at most, and no
// byte after it. An upload is a value; each call takes one and returns the next. Every call answers
// any value, also one that these calls didn't return.
#![tactic(auto)]

ghost use Rattle.std.specs.Prelude.{◌≡◌, ◌^◌, ◌<◌};
ghost use Rattle.der.specs.Span.{Bytes};
ghost use Rattle.header.specs.declared.Due.TheVariants.{Refused};
ghost use Rattle.stream.specs.Upload.{first, begun, stepped, taken, is_whole};
ghost use Rattle.stream.specs.Bulk.{bulk_of, skipped};
ghost use Rattle.stream.specs.Upload.{status_of, ended};
ghost use Rattle.stream.specs.Report.{status_report, end_report};

mod nest;

use der::Fault;
use header::Due;

// An upload: the announced length, what the next byte is, where the open elements end (the
// outermost first) and how many are open, the number of elements and the greatest level so far.
#[derive(Clone, Copy, Debug, PartialEq, Eq)]
pub struct Upload {
    pub total: u16,
    pub due: Due,
    pub ends: [u16; 20],
    pub depth: u8,
    pub elements: u16,
    pub level: u8,
}

// A fault that is certain, and the number of bytes after which it was.
#[derive(Clone, Copy)]
pub struct Refusal {
    pub fault: Fault,
    pub after: usize,
}

// An upload that passes: the number of elements and the greatest level.
#[derive(Clone, Copy, Debug, PartialEq, Eq)]
pub struct Counts {
    pub elements: usize,
    pub level: usize,
}

// How many of the next `left` bytes don't matter: those of a body that isn't examined, and all
// after a fault.
fn bulk(due: Due, left: usize) -> usize
    ensures { result ≡ bulk_of due left }
{
    match due {
        Due::Body { at, end } => left.min(end.saturating_sub(at) as usize),
        Due::Refused { .. } => left,
        _ => 0,
    }
}

// So many of them are passed at once.
fn skip(u: Upload, k: usize) -> Upload
    requires { k < 2 ^ 63 }
    ensures { result ≡ skipped u u.due k }
{
    match u.due {
        Due::Body { at, end } => nest::passed(u, at, end, k),
        _ => u,
    }
}

// Whether every byte that was announced is here.
fn is_whole(due: Due) -> bool
    ensures { result ≡ is_whole due }
{
    matches!(due, Due::Nothing)
}

// One byte.
fn step(u: Upload, b: u8) -> Upload
    ensures { result ≡ stepped u b }
{
    let end = nest::parent_end(u.total, u.ends, u.depth);
    let deep = header::UPLOAD_LEVELS <= u.depth;
    nest::applied(u, header::moved(u.due, b, end, deep))
}

// An upload of no element.
fn first(total: u16, due: Due) -> Upload
    ensures { result ≡ first total due }
{
    Upload {
        total,
        due,
        ends: [0; 20],
        depth: 0,
        elements: 0,
        level: 0,
    }
}

// An upload that is refused as it is announced.
fn refused(number: u8) -> Upload
    ensures { result ≡ first 0 (Refused number 0 0) }
{
    let due = Due::Refused {
        number,
        offset: 0,
        after: 0,
    };
    first(0, due)
}

impl Upload {
    // The length is announced.
    pub fn begin(length: usize) -> Upload
        ensures { result ≡ begun length }
    {
        if buffer::FILE_BYTES < length {
            return refused(buffer::TOO_LONG);
        }
        if length == 0 {
            return refused(der::MISSING);
        }
        first(length as u16, Due::Tag { at: 0 })
    }

    // A portion arrives; it may be empty.
    pub fn take(self, portion: &[u8]) -> Upload
        ensures value { result ≡ taken self portion.now }
        ensures bytes { Bytes portion.now }
    {
        let mut u = self;
        let mut i = 0;
        while i < portion.len() {
            let k = bulk(u.due, portion.len() - i);
            if k == 0 {
                u = step(u, portion[i]);
                i += 1;
            } else {
                u = skip(u, k);
                i += k;
            }
        }
        u
    }

    // What is certain so far: no fault, or one.
    pub fn status(self) -> Result<(), Refusal>
        ensures value { result ≡ status_of self }
        ensures report { status_report result ≡ status_report (status_of self) }
    {
        match self.due {
            Due::Refused {
                number,
                offset,
                after,
            } => {
                let fault = Fault {
                    number,
                    offset: offset as usize,
                };
                Err(Refusal {
                    fault,
                    after: after as usize,
                })
            }
            _ => Ok(()),
        }
    }

    // The answer if the upload ends here. It changes nothing: the same upload can take more.
    pub fn end(self) -> Result<Counts, Refusal>
        ensures value { result ≡ ended self }
        ensures report { end_report result ≡ end_report (ended self) }
    {
        self.status()?;
        if is_whole(self.due) {
            return Ok(Counts {
                elements: self.elements as usize,
                level: self.level as usize,
            });
        }
        let fault = Fault {
            number: header::EARLY,
            offset: 0,
        };
        Err(Refusal {
            fault,
            after: header::arrived(self.due, self.total) as usize,
        })
    }
}
