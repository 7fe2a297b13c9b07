// The elements of an upload that are open: where they end, and what a move makes of them.
ghost use Rattle.std.specs.Prelude.{◌≡◌, ◌^◌, ◌<◌};
ghost use Rattle.stream.specs.Upload.{end_at, parent_end, still_open, with_due, closed_at, is_refused};
ghost use Rattle.stream.specs.Upload.{body_from, counted, entered, passed, applied};

use crate::Upload;
use header::{Due, Move};

// Where open element i ends, the outermost being 0.
fn end_at(ends: [u16; 20], i: usize) -> u16
    ensures { result ≡ end_at ends i }
{
    ends.get(i).copied().unwrap_or(0)
}

// Where the innermost open element ends, or the upload if none is open.
pub(crate) fn parent_end(total: u16, ends: [u16; 20], depth: u8) -> u16
    ensures { result ≡ parent_end total ends depth }
{
    if depth == 0 {
        return total;
    }
    end_at(ends, depth as usize - 1)
}

// How many elements are still open at p, of the first `depth`: those inside the innermost one that
// ends after p end at p.
fn still_open(ends: [u16; 20], depth: u8, p: u16) -> u8
    ensures { result ≡ still_open ends depth p }
{
    for i in (0..depth).rev() {
        if p < end_at(ends, i as usize) {
            return i + 1;
        }
    }
    0
}

// The same upload with something else due, and so many elements open.
fn with(u: Upload, due: Due, depth: u8) -> Upload
    ensures { result ≡ with_due u due depth }
{
    Upload { due, depth, ..u }
}

// At p, where an element ends or a body begins, every element that ends there is closed. Where none
// is left open, the upload ends too, or bytes are left over.
fn closed(u: Upload, p: u16, after: u32) -> Upload
    ensures { result ≡ closed_at u p after }
{
    let depth = still_open(u.ends, u.depth, p);
    if 0 < depth {
        return with(u, Due::Tag { at: p }, depth);
    }
    if p < u.total {
        let due = Due::Refused {
            number: der::LEFT_OVER,
            offset: p,
            after,
        };
        return with(u, due, depth);
    }
    with(u, Due::Nothing, depth)
}

// Whether a fault is certain.
fn is_refused(due: Due) -> bool
    ensures { result ≡ is_refused due }
{
    matches!(due, Due::Refused { .. })
}

// A body that isn't examined. What follows it is known with its header: if that is a fault, it is
// certain now.
fn body_from(u: Upload, start: u16, stop: u16) -> Upload
    ensures { result ≡ body_from u start stop }
{
    let next = closed(u, stop, start as u32);
    let due = next.due;
    if is_refused(due) {
        return next;
    }
    if start < stop {
        let body = Due::Body {
            at: start,
            end: stop,
        };
        return with(u, body, u.depth);
    }
    next
}

// One element more, on this level.
fn counted(u: Upload, level: u8) -> Upload
    ensures { result ≡ counted u level }
{
    Upload {
        elements: u.elements.saturating_add(1),
        level: u.level.max(level),
        ..u
    }
}

// The header of the element at `at` is complete, and its body is within the parent.
fn entered(u: Upload, at: u16, tag: u8, start: u16, stop: u16) -> Upload
    ensures { result ≡ entered u at tag start stop }
{
    let depth = u.depth;
    let after = start as u32;
    if header::UPLOAD_LEVELS <= depth {
        let due = Due::Refused {
            number: der::TOO_MANY,
            offset: at,
            after,
        };
        return with(u, due, depth);
    }
    let level = depth + 1;
    let v = counted(u, level);
    if tag / 0x20 % 2 == 0 {
        return body_from(v, start, stop);
    }
    let mut ends = v.ends;
    ends[depth as usize] = stop;
    let w = Upload {
        ends,
        depth: level,
        ..v
    };
    closed(w, start, after)
}

// k bytes of a body that isn't examined.
pub(crate) fn passed(u: Upload, at: u16, end: u16, k: usize) -> Upload
    requires { k < 2 ^ 63 }
    ensures { result ≡ passed u at end k }
{
    let offset = at as usize;
    let next = offset + k;
    if next < end as usize {
        let due = Due::Body {
            at: next as u16,
            end,
        };
        return with(u, due, u.depth);
    }
    closed(u, end, end as u32)
}

// What a move makes of an upload.
pub(crate) fn applied(u: Upload, m: Move) -> Upload
    ensures { result ≡ applied u m }
{
    match m {
        Move::Refuse { number, at, after } => {
            let due = Due::Refused {
                number,
                offset: at,
                after,
            };
            with(u, due, u.depth)
        }
        Move::Await(due) => with(u, due, u.depth),
        Move::Enter {
            at,
            tag,
            start,
            stop,
        } => entered(u, at, tag, start, stop),
        Move::Pass { at, end } => passed(u, at, end, 1),
        Move::Surplus => {
            let due = Due::Refused {
                number: header::SURPLUS,
                offset: 0,
                after: u.total as u32 + 1,
            };
            with(u, due, u.depth)
        }
        Move::Stay => u,
    }
}
