// The elements of a range of bytes, one behind another: how many there are, and one of them.
#![tactic(auto)]

ghost use Rattle.std.specs.Prelude.{◌≡◌};
ghost use Rattle.der.specs.Span.{Bytes};
ghost use Rattle.elements.specs.Elements.{element_ranges, counted_of, chosen_of};

use der::{Cursor, Element};
use range::Range;

// The number of elements in a range, and one of them.
#[derive(Clone, Copy, Debug, PartialEq, Eq)]
pub struct Counted {
    pub count: usize,
    pub element: Range,
}

// The range that is looked for, once it is met.
fn chosen(n: usize, i: usize, found: Range, here: Range) -> Range
    ensures { result ≡ chosen_of n i found here }
{
    if n == i { here } else { found }
}

// The number of elements in a range, as in an attribute's values, and element i, whole; 0..0 where
// there is none.
pub fn element(bytes: &[u8], values: Range, i: usize) -> Counted
    ensures value { result ≡ counted_of (element_ranges bytes.now values) i }
    ensures bytes { Bytes bytes.now }
{
    let end = values.end as usize;
    let mut at = values.start as usize;
    let mut count = 0;
    let mut found = Range::EMPTY;
    while at < end {
        let here = Cursor { at, end };
        let Ok(Element { next, .. }) = here.element(bytes) else {
            break;
        };
        let met = Range {
            start: at as u16,
            end: next.at as u16,
        };
        found = chosen(count, i, found, met);
        count += 1;
        at = next.at;
    }
    Counted {
        count,
        element: found,
    }
}
