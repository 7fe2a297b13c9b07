// Runs calls on the table of an accepted file: an attribute reader of each bag, and identity rows,
// each by itself and all stored in an array. docs/TESTS.md has the form of the lines.
use attributes::Item;
use der::Fault;
use pairing::IdentityRow;
use pkcs12::{AttributeRow, BagKind, Table};
use range::Range;
use std::io;
use std::io::Write;
use stdio::{write_decimal, write_text};

// A prime, the largest of 16 bits.
const DIVISOR: usize = 65521;

// What an array holds before rows are stored in it.
const UNUSED: IdentityRow = IdentityRow {
    kind: BagKind::Secret,
    has_id: true,
    id: Range { start: 1, end: 2 },
};

// What three calls of an attribute reader returned.
#[derive(Clone, Copy)]
struct Three {
    first: Result<Item, Fault>,
    second: Result<Item, Fault>,
    third: Result<Item, Fault>,
}

// The number of some bytes, and the remainder of the number that they spell, first byte highest.
#[derive(Clone, Copy)]
struct Summary {
    bytes: usize,
    remainder: usize,
}

// The answer of storing identity rows in an array, and the array afterwards.
#[derive(Clone, Copy)]
struct Filled {
    answer: Result<usize, Fault>,
    rows: [IdentityRow; pkcs12::BAG_ROWS],
}

// Three calls of a reader of one bag's attributes.
fn three_calls(table: Table, file: &[u8], bag: usize) -> Three {
    let one = attributes::next(attributes::open(table, file, bag));
    let first = attributes::given(one);
    let two = attributes::next(one);
    let second = attributes::given(two);
    let three = attributes::next(two);
    let third = attributes::given(three);
    Three {
        first,
        second,
        third,
    }
}

// The summary of the part of the file that a reader of one bag's attributes returns for a range.
fn part_of(table: Table, file: &[u8], bag: usize, named: Range) -> Summary {
    summed(attributes::part(attributes::open(table, file, bag), named))
}

// Stores the identity rows of a table in an array.
fn fill_rows(table: Table, bytes: &[u8], before: [IdentityRow; pkcs12::BAG_ROWS]) -> Filled {
    let mut rows = before;
    let answer = identities::fill(table, bytes, &mut rows);
    Filled { answer, rows }
}

fn summed(part: &[u8]) -> Summary {
    let mut remainder = 0;
    for b in part {
        remainder = (remainder * 256 + *b as usize) % DIVISOR;
    }
    Summary {
        bytes: part.len(),
        remainder,
    }
}

// A kind by the last byte of its identifier.
fn kind_number(kind: BagKind) -> usize {
    match kind {
        BagKind::None => 0,
        BagKind::Key => 1,
        BagKind::ShroudedKey => 2,
        BagKind::Certificate => 3,
        BagKind::Crl => 4,
        BagKind::Secret => 5,
        BagKind::Nested => 6,
    }
}

fn same_row(a: IdentityRow, b: IdentityRow) -> bool {
    kind_number(a.kind) == kind_number(b.kind)
        && a.has_id == b.has_id
        && a.id.start == b.id.start
        && a.id.end == b.id.end
}

fn row_at(filled: Filled, i: usize) -> IdentityRow {
    filled.rows.get(i).copied().unwrap_or(IdentityRow::EMPTY)
}

// Whether the rows from `start` on are as before.
fn rest_unused(filled: Filled, start: usize) -> bool {
    filled
        .rows
        .iter()
        .skip(start)
        .all(|row| same_row(*row, UNUSED))
}

fn span(output: &mut impl Write, r: Range) -> io::Result<()> {
    write_decimal(output, r.start as usize)?;
    write_text(output, b"..")?;
    write_decimal(output, r.end as usize)?;
    Ok(())
}

fn refusal(output: &mut impl Write, fault: Fault) -> io::Result<()> {
    write_text(output, b"refused ")?;
    write_decimal(output, fault.number as usize)?;
    Ok(())
}

fn attribute(output: &mut impl Write, row: AttributeRow) -> io::Result<()> {
    write_text(output, b"attribute ")?;
    span(output, row.identifier)?;
    write_text(output, b" values ")?;
    span(output, row.values)
}

fn outcome(output: &mut impl Write, item: Result<Item, Fault>) -> io::Result<()> {
    match item {
        Ok(Item::Ready) => {
            write_text(output, b"nothing")?;
            Ok(())
        }
        Ok(Item::Attribute(row)) => attribute(output, row),
        Ok(Item::Done) => {
            write_text(output, b"done")?;
            Ok(())
        }
        Err(fault) => refusal(output, fault),
    }
}

fn calls_line(output: &mut impl Write, given: Three) -> io::Result<()> {
    write_text(output, b"calls: ")?;
    outcome(output, given.first)?;
    write_text(output, b", ")?;
    outcome(output, given.second)?;
    write_text(output, b", ")?;
    outcome(output, given.third)?;
    write_text(output, b"\n")?;
    Ok(())
}

fn type_line(output: &mut impl Write, found: Summary) -> io::Result<()> {
    write_text(output, b"type: ")?;
    write_decimal(output, found.bytes)?;
    write_text(output, b" bytes, remainder ")?;
    write_decimal(output, found.remainder)?;
    write_text(output, b"\n")?;
    Ok(())
}

// An identity row, and whether that is the one that was stored.
fn identity(output: &mut impl Write, row: IdentityRow, stored: IdentityRow) -> io::Result<()> {
    if row.has_id {
        span(output, row.id)?;
    } else {
        write_text(output, b"none")?;
    }
    write_text(output, b", kind ")?;
    write_decimal(output, kind_number(row.kind))?;
    if same_row(row, stored) {
        write_text(output, b", filled")?;
    } else {
        write_text(output, b", filled otherwise")?;
    }
    Ok(())
}

fn id_line(
    output: &mut impl Write,
    answer: Result<IdentityRow, Fault>,
    stored: IdentityRow,
) -> io::Result<()> {
    write_text(output, b"id: ")?;
    match answer {
        Ok(row) => identity(output, row, stored)?,
        Err(fault) => refusal(output, fault)?,
    }
    write_text(output, b"\n")?;
    Ok(())
}

// The answer of filling, and how many rows are stored.
fn stored_rows(output: &mut impl Write, answer: Result<usize, Fault>) -> io::Result<usize> {
    match answer {
        Ok(n) => {
            write_text(output, b"rows ")?;
            write_decimal(output, n)?;
            Ok(n)
        }
        Err(fault) => {
            refusal(output, fault)?;
            Ok(0)
        }
    }
}

fn fill_line(output: &mut impl Write, filled: Filled) -> io::Result<()> {
    write_text(output, b"fill: ")?;
    let n = stored_rows(output, filled.answer)?;
    if rest_unused(filled, n) {
        write_text(output, b", rest as before\n")?;
    } else {
        write_text(output, b", rest changed\n")?;
    }
    Ok(())
}

fn bag_name(output: &mut impl Write, bag: usize) -> io::Result<()> {
    write_text(output, b"bag ")?;
    write_decimal(output, bag)?;
    write_text(output, b" ")?;
    Ok(())
}

// The part that the type of a bag's first attribute names.
fn first_type(
    output: &mut impl Write,
    table: Table,
    file: &[u8],
    bag: usize,
    first: Result<Item, Fault>,
) -> io::Result<()> {
    if let Ok(Item::Attribute(row)) = first {
        bag_name(output, bag)?;
        type_line(output, part_of(table, file, bag, row.identifier))?;
    }
    Ok(())
}

fn bag_lines(
    output: &mut impl Write,
    table: Table,
    file: &[u8],
    bag: usize,
    stored: IdentityRow,
) -> io::Result<()> {
    let given = three_calls(table, file, bag);
    bag_name(output, bag)?;
    calls_line(output, given)?;
    first_type(output, table, file, bag, given.first)?;
    bag_name(output, bag)?;
    id_line(output, identities::identity_of(table, file, bag), stored)
}

// A bag after another, and the first row that isn't there.
fn all_bags(output: &mut impl Write, table: Table, file: &[u8], filled: Filled) -> io::Result<()> {
    let end = table.bag_count.min(pkcs12::BAG_ROWS);
    for i in 0..=end {
        bag_lines(output, table, file, i, row_at(filled, i))?;
    }
    Ok(())
}

fn lent_name(output: &mut impl Write, lent: &[u8]) -> io::Result<()> {
    write_text(output, b"over ")?;
    write_decimal(output, lent.len())?;
    write_text(output, b" bytes ")?;
    Ok(())
}

// The same calls for bag 0 over other bytes than the file's.
fn over_lines(output: &mut impl Write, table: Table, lent: &[u8]) -> io::Result<()> {
    let filled = fill_rows(table, lent, [UNUSED; pkcs12::BAG_ROWS]);
    lent_name(output, lent)?;
    calls_line(output, three_calls(table, lent, 0))?;
    lent_name(output, lent)?;
    id_line(
        output,
        identities::identity_of(table, lent, 0),
        row_at(filled, 0),
    )?;
    lent_name(output, lent)?;
    fill_line(output, filled)
}

// All lines of a file.
pub(crate) fn show(output: &mut impl Write, table: Table, file: &[u8]) -> io::Result<()> {
    let filled = fill_rows(table, file, [UNUSED; pkcs12::BAG_ROWS]);
    all_bags(output, table, file, filled)?;
    fill_line(output, filled)?;
    over_lines(output, table, &[])?;
    over_lines(output, table, &file[..file.len().saturating_sub(1)])
}
