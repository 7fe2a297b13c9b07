// Returns the attributes of one bag in turn. `Attributes` keeps the file and a position; the work
// is done on the position, which is plain.
#![tactic(auto)]

ghost use Rattle.std.specs.Prelude.{◌≡◌};
ghost use Rattle.der.specs.Span.{Bytes};
ghost use Rattle.range.specs.Range.{bytes_in};
ghost use Rattle.attributes.specs.Report.{item_report};
ghost use Rattle.attributes.specs.Reader.{refused_by, opening_of, next_row, moved_to, next_of};
ghost use Rattle.attributes.specs.Reader.{item_after, reader_of, is_last};

use der::Fault;
use pkcs12::{AttributeRow, Table};
use range::Range;

// What a call returned: nothing yet, an attribute, or that there are no more (`Done`). A reader
// whose opening was refused returns that refusal instead.
#[derive(Clone, Copy)]
pub enum Item {
    Ready,
    Attribute(AttributeRow),
    Done,
}

// The position of a reader: the attribute rows and their number, the bag's row, the next row to
// look at, and what the last call returned.
#[derive(Clone, Copy)]
pub struct Position {
    pub rows: [AttributeRow; pkcs12::ATTRIBUTE_ROWS],
    pub count: usize,
    pub bag: usize,
    pub at: usize,
    pub item: Result<Item, Fault>,
}

// A reader of one bag's attributes. It keeps the file, the caller's bytes that its ranges point
// into.
#[derive(Clone, Copy)]
pub struct Attributes<'a> {
    pub file: &'a [u8],
    pub position: Position,
}

// A refused opening has no row.
fn refused(number: u8) -> Position
    ensures { result ≡ refused_by number }
{
    Position {
        rows: [AttributeRow::EMPTY; pkcs12::ATTRIBUTE_ROWS],
        count: 0,
        bag: 0,
        at: 0,
        item: Err(Fault { number, offset: 0 }),
    }
}

// The position before the first attribute of a bag.
pub fn opening(table: Table, file: &[u8], bag: usize) -> Position
    ensures value { result ≡ opening_of table file.now bag }
    ensures item_value { item_report result.item ≡ item_report (opening_of table file.now bag).item }
    ensures bytes { Bytes file.now }
{
    if sound::measure(table, file).is_none() {
        return refused(buffer::NOT_SOUND);
    }
    if bag < table.bag_count {
        let rows = table.attributes;
        return Position {
            rows,
            count: table.attribute_count,
            bag,
            at: 0,
            item: Ok(Item::Ready),
        };
    }
    refused(pkcs12::NO_ROW)
}

// The next row that names the position's bag; the end of the rows where there is none.
fn next_row(p: Position) -> usize
    ensures { result ≡ next_row p }
{
    let end = range::fewer(p.count, pkcs12::ATTRIBUTE_ROWS);
    for i in p.at..end {
        if p.rows[i].bag as usize == p.bag {
            return i;
        }
    }
    end.max(p.at)
}

// The position with the row that comes next, or with `Done` where there are no more.
fn moved(p: Position) -> Position
    ensures { result ≡ moved_to p (next_row p) }
{
    let i = next_row(p);
    if i < range::fewer(p.count, pkcs12::ATTRIBUTE_ROWS) {
        return Position {
            at: i + 1,
            item: Ok(Item::Attribute(p.rows[i])),
            ..p
        };
    }
    Position {
        at: i,
        item: Ok(Item::Done),
        ..p
    }
}

impl Position {
    // One call: the next attribute, or `Done` where there are no more. A refused opening stays so.
    pub fn next(self) -> Position
        ensures value { result ≡ next_of self }
        ensures item_value { item_report result.item ≡ item_report (next_of self).item }
    {
        if self.item.is_err() {
            return self;
        }
        moved(self)
    }
}

// A reader of the attributes of one bag.
pub fn open<'a>(table: Table, file: &'a [u8], bag: usize) -> Attributes<'a>
    ensures value { result ≡ reader_of file.entry (opening_of table file.now bag) }
    ensures item_value { item_report result.position.item ≡ item_report (opening_of table file.now bag).item }
    ensures bytes { Bytes file.now }
{
    let position = opening(table, file, bag);
    Attributes { file, position }
}

// One call: the same reader, with what the call returned.
pub fn next<'a>(r: Attributes<'a>) -> Attributes<'a>
    ensures value { result ≡ reader_of r.entry.file (next_of r.entry.position) }
    ensures item_value { item_report result.position.item ≡ item_report (next_of r.entry.position).item }
{
    let position = r.position.next();
    Attributes {
        file: r.file,
        position,
    }
}

// What the last call returned.
pub fn given<'a>(r: Attributes<'a>) -> Result<Item, Fault>
    ensures value { result ≡ r.entry.position.item }
    ensures report { item_report result ≡ item_report r.entry.position.item }
{
    r.position.item
}

// The bytes of the kept file that a range names, as that part of the file.
pub fn part<'a>(r: Attributes<'a>, range: Range) -> &'a [u8]
    ensures { result.now ≡ bytes_in r.entry.file.now range }
{
    range.part(r.file)
}

// Whether every further call returns the same.
fn is_last(item: Result<Item, Fault>) -> bool
    ensures { result ≡ is_last item }
{
    let Ok(found) = item else {
        return true;
    };
    matches!(found, Item::Done)
}

// What call i returns, counted from 0, of a reader that is opened for it.
pub fn attribute(table: Table, file: &[u8], bag: usize, i: usize) -> Result<Item, Fault>
    ensures value { result ≡ item_after i (opening_of table file.now bag) }
    ensures report { item_report result ≡ item_report (item_after i (opening_of table file.now bag)) }
    ensures bytes { Bytes file.now }
{
    let mut position = opening(table, file, bag).next();
    for _ in 0..i {
        if is_last(position.item) {
            return position.item;
        }
        position = position.next();
    }
    position.item
}
