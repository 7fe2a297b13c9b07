// The table of a file.
ghost use Rattle.std.specs.Prelude.{◌≡◌};
ghost use Rattle.pkcs12.specs.Table.{empty_table};

use crate::row::{AttributeRow, BagRow, Mac, SafeRow};
use crate::{ATTRIBUTE_ROWS, BAG_ROWS, SAFE_ROWS};
use range::Range;

// In a table that reading returns the rows past the counts are empty (Rules 5.40, 6.7). `elements` is
// the number of elements in the file.
#[derive(Clone, Copy)]
pub struct Table {
    pub safes: [SafeRow; SAFE_ROWS],
    pub safe_count: usize,
    pub bags: [BagRow; BAG_ROWS],
    pub bag_count: usize,
    pub attributes: [AttributeRow; ATTRIBUTE_ROWS],
    pub attribute_count: usize,
    pub mac: Mac,
    pub mac_input: Range,
    pub elements: usize,
}

impl Table {
    // The table with no row.
    pub fn empty() -> Table
        ensures { result ≡ empty_table }
    {
        Table {
            safes: [SafeRow::EMPTY; SAFE_ROWS],
            safe_count: 0,
            bags: [BagRow::EMPTY; BAG_ROWS],
            bag_count: 0,
            attributes: [AttributeRow::EMPTY; ATTRIBUTE_ROWS],
            attribute_count: 0,
            mac: Mac::EMPTY,
            mac_input: Range::EMPTY,
            elements: 0,
        }
    }
}
