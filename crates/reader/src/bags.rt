// Bags and their attributes up to the rows that they make: each function returns what is at the
// cursor, or the first fault.
ghost use Rattle.std.specs.Prelude.{true, false, ◌≡◌, ◌≤◌, length};
ghost use Rattle.der.specs.Content.{bytes_of};
ghost use Rattle.buffer.specs.Numbers.{file_bytes};
ghost use Rattle.pkcs12.specs.Identifiers.{kind_of};
ghost use Rattle.pkcs12.specs.Walk.{range_of, on_kind};
ghost use Rattle.reader.specs.Steps.{SmallParts, attribute_values_at, attribute_parts_at, set_head_at, leaf_of};
ghost use Rattle.reader.specs.Steps.{bag_value_at, bag_of_at, bag_head_at, is_nested};

use der::{Cursor, Fault};
use parts::File;
use pkcs12::{BagKind, Parsed, Parts};
use range::Range;

// The elements of a bag before what is in [0]: SEQUENCE, bagId, [0].
const HEAD_COUNT: usize = 3;

// What is in a bag before its attributes: `value` is what is left in [0], or the safe contents in it.
#[derive(Clone, Copy)]
pub(crate) struct Bag {
    pub(crate) kind: BagKind,
    pub(crate) parts: Parts,
    pub(crate) count: usize,
    pub(crate) value: Cursor,
    pub(crate) set: Cursor,
    pub(crate) next: Cursor,
}

// Where the attributes of a bag are: in the body of a set.
#[derive(Clone, Copy)]
pub(crate) struct Set {
    pub(crate) body: Cursor,
    pub(crate) next: Cursor,
}

// The range of a body in a file: its offsets fit.
fn range_of(body: Cursor) -> Range
    requires { (body.at ≤ file_bytes) × (body.end ≤ file_bytes) }
    ensures { result ≡ range_of body }
{
    let start = body.at as u16;
    let end = body.end as u16;
    Range { start, end }
}

// The values of an attribute whose identifier has body i; n is past the attribute.
fn attribute_values(s: File, i: Cursor, m: Cursor, n: Cursor) -> Result<Parsed<Parts>, Fault>
    requires { (i.at ≤ i.end) × (i.end ≤ length s.bytes.now) }
    ensures { result ≡ attribute_values_at s.entry.bytes.now i m n }
{
    let set = m.expect(s.bytes, der::SET)?;
    let values = set.body.elements(s.bytes, der::OPAQUE_LEVELS)?;
    set.next.finish()?;
    let parts = Parts {
        identifier: range_of(i),
        parameters: Range::EMPTY,
        value: range_of(set.body),
    };
    Ok(Parsed {
        value: parts,
        count: values.count + 3,
        next: n,
    })
}

// An attribute; it is refused if the table is full.
pub(crate) fn attribute(s: File, full: bool, c: Cursor) -> Result<Parsed<Parts>, Fault>
    ensures { result ≡ attribute_parts_at s.entry.bytes.now full c }
{
    let whole = c.expect(s.bytes, der::SEQUENCE)?;
    if full {
        return Err(Fault {
            number: der::TOO_MANY,
            offset: c.at,
        });
    }
    let id = whole.body.identifier(s.bytes)?;
    attribute_values(s, id.body, id.next, whole.next)
}

// The set at c, or none, behind [0] of the bag, in whose body e is left.
pub(crate) fn set_at(s: &[u8], e: Cursor, c: Cursor) -> Result<Option<Set>, Fault>
    ensures { result ≡ set_head_at s.now e c }
{
    e.finish()?;
    if c.tag(s) == der::SET {
        let found = c.expect(s, der::SET)?;
        return Ok(Some(Set {
            body: found.body,
            next: found.next,
        }));
    }
    c.finish()?;
    Ok(None)
}

// A bag that holds no bags, from the parts of its value.
fn leaf(
    kind: BagKind,
    value: Result<Parsed<Parts>, Fault>,
    set: Cursor,
    next: Cursor,
) -> Result<Bag, Fault>
    requires { SmallParts value }
    ensures { result ≡ leaf_of kind value set next }
{
    let found = value?;
    Ok(Bag {
        kind,
        parts: found.value,
        count: found.count + HEAD_COUNT,
        value: found.next,
        set,
        next,
    })
}

// What is in [0], with body v, of a bag of this kind.
fn bag_value(s: File, kind: BagKind, v: Cursor, set: Cursor, next: Cursor) -> Result<Bag, Fault>
    ensures { result ≡ bag_value_at s.entry.bytes.now kind v set next }
{
    match kind {
        // not met: the bagId was refused
        BagKind::None => Err(Fault {
            number: pkcs12::NOT_SERVED,
            offset: v.at,
        }),
        BagKind::Key => leaf(kind, parts::key(s.bytes, v), set, next),
        BagKind::ShroudedKey => leaf(kind, parts::sealed(s.bytes, v), set, next),
        BagKind::Certificate => leaf(kind, parts::typed(true, s.bytes, v), set, next),
        BagKind::Crl => leaf(kind, parts::typed(false, s.bytes, v), set, next),
        BagKind::Secret => leaf(kind, parts::typed(false, s.bytes, v), set, next),
        BagKind::Nested => Ok(Bag {
            kind,
            parts: Parts::EMPTY,
            count: HEAD_COUNT,
            value: v,
            set,
            next,
        }),
    }
}

// The kind that a bagId names, with body i.
fn kind_of(s: &[u8], i: Cursor) -> BagKind
    requires { (i.at ≤ i.end) × (i.end ≤ length s.now) }
    ensures { result ≡ kind_of (bytes_of s.now i) }
{
    BagKind::of(&s[i.at..i.end])
}

// Whether a bagId names no kind.
fn is_none(kind: BagKind) -> bool
    ensures { result ≡ on_kind kind true false }
{
    matches!(kind, BagKind::None)
}

// Whether a bag of this kind holds bags.
pub(crate) fn is_nested(kind: BagKind) -> bool
    ensures { result ≡ is_nested kind }
{
    matches!(kind, BagKind::Nested)
}

// The bag whose bagId is at `at`, with body i; n is past the bag.
fn bag_of(s: File, at: usize, i: Cursor, m: Cursor, n: Cursor) -> Result<Bag, Fault>
    requires { (i.at ≤ i.end) × (i.end ≤ length s.bytes.now) }
    ensures { result ≡ bag_of_at s.entry.bytes.now at i m n }
{
    let kind = kind_of(s.bytes, i);
    if is_none(kind) {
        return Err(Fault {
            number: pkcs12::NOT_SERVED,
            offset: at,
        });
    }
    let found = m.expect(s.bytes, der::CONTEXT_0)?;
    bag_value(s, kind, found.body, found.next, n)
}

// A bag up to its attributes; it is refused if the table is full.
pub(crate) fn bag_at(s: File, full: bool, c: Cursor) -> Result<Bag, Fault>
    ensures { result ≡ bag_head_at s.entry.bytes.now full c }
{
    let whole = c.expect(s.bytes, der::SEQUENCE)?;
    if full {
        return Err(Fault {
            number: der::TOO_MANY,
            offset: c.at,
        });
    }
    let id = whole.body.identifier(s.bytes)?;
    bag_of(s, whole.body.at, id.body, id.next, whole.next)
}
