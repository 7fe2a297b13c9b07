// Rows: safes, safe contents, bags and their attributes. Rows are stored as words in the caller's
// memory; by value are passed their counts and a cursor. A function that reads a part returns the
// counts with the rows of that part, and the cursor past it, or the first fault.
ghost use Rattle.std.specs.Prelude.{◌≡◌, ◌≤◌, ltb, length};
ghost use Rattle.buffer.specs.Numbers.{file_bytes};
ghost use Rattle.pkcs12.specs.Table.{safe_row, bag_row, attribute_row};
ghost use Rattle.pkcs12.specs.Walk.{run, owner, bag_at, safe_contents_at, safe_at, start_rows};
ghost use Rattle.words.specs.Layout.{table_words};
ghost use Rattle.load.specs.Wordable.{EnclosingFits};
ghost use Rattle.load.specs.Holds.{rows_at};
ghost use Rattle.reader.specs.Steps.{bag_end_at, inside_at, set_body_at, plain_safe_at};
ghost use Rattle.reader.specs.Memory.{Ready, Inside, ReadyForSafe, Shown};

use crate::safes::Contents;
use crate::{bags, safes};
use der::{Cursor, Fault};
use parts::File;
use pkcs12::{AttributeRow, BagKind, BagRow, Parts, SafeKind, SafeRow};
use range::Range;
use words::{Counts, put};

// The number of elements before the first safe: PFX, version, ContentInfo, its type, [0],
// OCTET STRING, and the SEQUENCE of the safes.
const START_COUNT: usize = 7;

// The elements that are counted with a plain safe's row: ContentInfo, its type, [0], OCTET STRING.
const SAFE_COUNT: usize = 4;

// What was read so far: the counts of the rows in the memory, and the cursor past the part.
#[derive(Clone, Copy)]
pub(crate) struct Progress {
    pub(crate) counts: Counts,
    pub(crate) next: Cursor,
}

// The row of an attribute with these parts, of the bag with this number.
fn attribute_row(number: u16, parts: Parts) -> AttributeRow
    ensures { result ≡ attribute_row number parts.identifier parts.value }
{
    AttributeRow {
        bag: number,
        identifier: parts.identifier,
        values: parts.value,
    }
}

// The attributes in the body of a set, of the bag with this number; `past` is past the set, and n
// past the bag.
fn set_body(
    s: File,
    m: &mut [u16],
    number: u16,
    counts: Counts,
    body: Cursor,
    past: Cursor,
    n: Cursor,
) -> Result<Progress, Fault>
    requires { Ready m.old counts body.at }
    ensures { Shown m.new result
        (set_body_at s.entry.bytes.now number (rows_at m.old counts) body past n) }
{
    let mut all = counts;
    let end = body.end;
    let mut at = body.at;
    while at < end {
        let full = pkcs12::ATTRIBUTE_ROWS <= all.attributes;
        let one = bags::attribute(s, full, Cursor { at, end })?;
        put::attribute(m, all.attributes, attribute_row(number, one.value));
        all.attributes += 1;
        all.elements += one.count;
        at = one.next.at;
    }
    past.finish()?;
    Ok(Progress {
        counts: all,
        next: n,
    })
}

// The attributes of the bag with this number, behind [0], in whose body e is left; n is past the
// bag.
fn attributes(
    s: File,
    m: &mut [u16],
    number: u16,
    counts: Counts,
    e: Cursor,
    c: Cursor,
    n: Cursor,
) -> Result<Progress, Fault>
    requires { Ready m.old counts c.at }
    ensures { Shown m.new result
        (bag_end_at s.entry.bytes.now number (rows_at m.old counts) e c n) }
{
    let Some(set) = bags::set_at(s.bytes, e, c)? else {
        return Ok(Progress { counts, next: n });
    };
    let mut more = counts;
    more.elements += 1;
    set_body(s, m, number, more, set.body, set.next, n)
}

// The row of a bag, behind whose [0] the set is left.
fn bag_row(kind: BagKind, safe: u16, enclosing: Option<u16>, parts: Parts, set: Cursor) -> BagRow
    ensures { result ≡ bag_row kind safe enclosing parts (ltb set.at set.end) }
{
    BagRow {
        kind,
        safe,
        enclosing,
        parts,
        has_set: set.at < set.end,
    }
}

// What is in [0] of a bag of this kind and number, whose row is stored: only a nested one holds bags.
#[cycle(bag_content_safe_contents)]
fn content(
    s: File,
    m: &mut [u16],
    below: u8,
    kind: BagKind,
    safe: u16,
    number: u16,
    counts: Counts,
    c: Cursor,
) -> Result<Progress, Fault>
    requires { Inside m.old kind number counts c.at }
    ensures { Shown m.new result
        (inside_at (safe_contents_at below s.entry.bytes.now) kind safe number (rows_at m.old counts) c) }
{
    if bags::is_nested(kind) {
        return safe_contents(s, m, below, safe, Some(number), counts, c);
    }
    Ok(Progress { counts, next: c })
}

// A bag of this safe and enclosing bag, with its attributes; safe contents in it have `below`
// levels left.
#[cycle(bag_content_safe_contents)]
fn bag(
    s: File,
    m: &mut [u16],
    below: u8,
    safe: u16,
    enclosing: Option<u16>,
    counts: Counts,
    c: Cursor,
) -> Result<Progress, Fault>
    requires { EnclosingFits enclosing × Ready m.old counts c.at }
    ensures { Shown m.new result
        (bag_at (safe_contents_at below s.entry.bytes.now) s.entry.bytes.now (owner safe enclosing)
        (rows_at m.old counts) c) }
{
    let row = counts.bags;
    let found = bags::bag_at(s, pkcs12::BAG_ROWS <= row, c)?;
    let stored = bag_row(found.kind, safe, enclosing, found.parts, found.set);
    put::bag(m, row, stored);
    let number = row as u16;
    let mut more = counts;
    more.bags += 1;
    more.elements += found.count;
    let inner = content(s, m, below, found.kind, safe, number, more, found.value)?;
    attributes(
        s,
        m,
        number,
        inner.counts,
        inner.next,
        found.set,
        found.next,
    )
}

// The bags of safe contents, with this many levels left.
#[cycle(bag_content_safe_contents)]
fn safe_contents(
    s: File,
    m: &mut [u16],
    level: u8,
    safe: u16,
    enclosing: Option<u16>,
    counts: Counts,
    c: Cursor,
) -> Result<Progress, Fault>
    requires { EnclosingFits enclosing × Ready m.old counts c.at }
    ensures { Shown m.new result
        (safe_contents_at level s.entry.bytes.now (owner safe enclosing) (rows_at m.old counts) c) }
{
    let found = c.expect(s.bytes, der::SEQUENCE)?;
    if level == 0 {
        return Err(Fault {
            number: der::TOO_MANY,
            offset: c.at,
        });
    }
    let mut so_far = counts;
    so_far.elements += 1;
    let end = found.body.end;
    let mut at = found.body.at;
    while at < end {
        let one = bag(s, m, level - 1, safe, enclosing, so_far, Cursor { at, end })?;
        so_far = one.counts;
        at = one.next.at;
    }
    Ok(Progress {
        counts: so_far,
        next: found.next,
    })
}

// The row of a safe.
fn safe_row(kind: SafeKind, parts: Parts) -> SafeRow
    ensures { result ≡ safe_row kind parts }
{
    SafeRow { kind, parts }
}

// A plain safe, whose contents are at `body`: its row, its bags, and that it ends its OCTET STRING,
// [0] and ContentInfo; `next` is past the safe.
fn plain_safe(
    s: File,
    m: &mut [u16],
    counts: Counts,
    body: Cursor,
    string: Cursor,
    content: Cursor,
    next: Cursor,
) -> Result<Progress, Fault>
    requires { ReadyForSafe s.bytes.now m.old counts body.at }
    ensures { Shown m.new result
        (plain_safe_at s.entry.bytes.now (rows_at m.old counts) body string content next) }
{
    let row = counts.safes;
    put::safe(m, row, safe_row(SafeKind::Plain, Parts::EMPTY));
    let number = row as u16;
    let mut more = counts;
    more.safes += 1;
    more.elements += SAFE_COUNT;
    let inner = safe_contents(s, m, pkcs12::LEVELS, number, None, more, body)?;
    safes::closed(inner.next, string, content)?;
    Ok(Progress {
        counts: inner.counts,
        next,
    })
}

// A safe, with its bags.
fn safe(s: File, m: &mut [u16], counts: Counts, c: Cursor) -> Result<Progress, Fault>
    requires { Ready m.old counts c.at }
    ensures { Shown m.new result (safe_at s.entry.bytes.now (rows_at m.old counts) c) }
{
    let row = counts.safes;
    match safes::safe(s, pkcs12::SAFE_ROWS <= row, c)? {
        Contents::Encrypted { parts, count, next } => {
            put::safe(m, row, safe_row(SafeKind::Encrypted, parts));
            let mut more = counts;
            more.safes += 1;
            more.elements += count;
            Ok(Progress { counts: more, next })
        }
        Contents::Plain {
            body,
            string,
            content,
            next,
        } => plain_safe(s, m, counts, body, string, content, next),
    }
}

// The safes of an AuthenticatedSafe with body b, behind the rows that are counted.
fn more_safes(s: File, m: &mut [u16], first: Counts, b: Cursor) -> Result<Progress, Fault>
    requires { Ready m.old first b.at }
    ensures { Shown m.new result (run (safe_at s.entry.bytes.now) (rows_at m.old first) b) }
{
    let mut counts = first;
    let end = b.end;
    let mut at = b.at;
    while at < end {
        let one = safe(s, m, counts, Cursor { at, end })?;
        counts = one.counts;
        at = one.next.at;
    }
    Ok(Progress {
        counts,
        next: Cursor { at, end },
    })
}

// The safes of an AuthenticatedSafe with body b, in the MAC input i.
pub(crate) fn safes(s: File, m: &mut [u16], i: Cursor, b: Cursor) -> Result<Progress, Fault>
    requires { (table_words ≤ length m.old) × (i.at ≤ file_bytes) × (i.end ≤ file_bytes) }
    ensures { Shown m.new result (run (safe_at s.entry.bytes.now) (start_rows i) b) }
{
    put::input(m, Range::of(i));
    let first = Counts {
        safes: 0,
        bags: 0,
        attributes: 0,
        elements: START_COUNT,
    };
    more_safes(s, m, first, b)
}
