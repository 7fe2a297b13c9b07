// The lines of a table's rows. A count past its array counts as the array's rows.
ghost use Rattle.std.specs.Prelude.{◌≡◌};
ghost use Rattle.buffer.specs.Placed.{each};
ghost use Rattle.pkcs12.specs.Table.{safes_counted, bags_counted, attributes_counted};
ghost use Rattle.listing.specs.Lines.{own, safe_row_line, bag_row_line, attribute_row_line};
ghost use Rattle.buffer.specs.Wrote.{Wrote};

use crate::lines;
use buffer::write::Out;
use pkcs12::{ATTRIBUTE_ROWS, BAG_ROWS, SAFE_ROWS, Table};

// The number of attribute rows that name this bag.
fn own_attributes(table: Table, bag: usize) -> usize
    ensures { result ≡ own table bag }
{
    let n = table.attribute_count.min(ATTRIBUTE_ROWS);
    table.attributes[..n]
        .iter()
        .filter(|row| row.bag as usize == bag)
        .count()
}

pub(crate) fn safe_lines(out: &mut Out, table: Table)
    ensures { Wrote out.old (each (safe_row_line table) (safes_counted table)) out.new }
{
    let n = table.safe_count.min(SAFE_ROWS);
    for (i, row) in table.safes[..n].iter().enumerate() {
        lines::safe_line(out, i, *row);
    }
}

pub(crate) fn bag_lines(out: &mut Out, table: Table)
    ensures { Wrote out.old (each (bag_row_line table) (bags_counted table)) out.new }
{
    let n = table.bag_count.min(BAG_ROWS);
    for (i, row) in table.bags[..n].iter().enumerate() {
        let own = own_attributes(table, i);
        lines::bag_line(out, i, *row, own);
    }
}

pub(crate) fn attribute_lines(out: &mut Out, table: Table)
    ensures { Wrote out.old (each (attribute_row_line table) (attributes_counted table)) out.new }
{
    let n = table.attribute_count.min(ATTRIBUTE_ROWS);
    for (i, row) in table.attributes[..n].iter().enumerate() {
        lines::attribute_line(out, i, *row);
    }
}
