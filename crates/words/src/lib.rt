// A table as plain words in a caller's memory. The words are those of `struct p12_table`
// in include/p12.h.
#![tactic(auto)]

ghost use Rattle.std.specs.Prelude.{◌≡◌, ◌≤◌, length};
ghost use Rattle.der.specs.Element.{fault};
ghost use Rattle.buffer.specs.Numbers.{short_buffer};
ghost use Rattle.buffer.specs.Report.{written_report};
ghost use Rattle.words.specs.Layout.{table_words};
ghost use Rattle.words.specs.Stored.{words_of, stored, stored_row};
ghost use Rattle.words.specs.Steps.{StoredAt};

mod field;
mod fill;
mod number;
pub mod put;
mod row;
mod stored;

use der::Fault;
use pkcs12::{AttributeRow, Table};
pub use row::Row;
use stored::Stored;

// How many words each part of a table takes.
pub const RANGE_WIDTH: usize = 2;

pub const PARTS_WIDTH: usize = 3 * RANGE_WIDTH;

pub const SAFE_WIDTH: usize = 1 + PARTS_WIDTH;

pub const BAG_WIDTH: usize = 4 + PARTS_WIDTH;

pub const ATTRIBUTE_WIDTH: usize = 1 + 2 * RANGE_WIDTH;

pub const MAC_WIDTH: usize = PARTS_WIDTH + RANGE_WIDTH + 2;

// The offset of each part, in words.
pub const ELEMENTS_AT: usize = 0;

pub const SAFE_COUNT_AT: usize = 1;

pub const BAG_COUNT_AT: usize = 2;

pub const ATTRIBUTE_COUNT_AT: usize = 3;

pub const MAC_INPUT_AT: usize = 4;

pub const MAC_FIELDS_AT: usize = MAC_INPUT_AT + RANGE_WIDTH;

pub const SAFES_AT: usize = MAC_FIELDS_AT + MAC_WIDTH;

pub const BAGS_AT: usize = SAFES_AT + pkcs12::SAFE_ROWS * SAFE_WIDTH;

pub const ATTRIBUTES_AT: usize = BAGS_AT + pkcs12::BAG_ROWS * BAG_WIDTH;

// All of them.
pub const TABLE_WORDS: usize = ATTRIBUTES_AT + pkcs12::ATTRIBUTE_ROWS * ATTRIBUTE_WIDTH;

// The greatest word.
pub const GREATEST_WORD: usize = 65535;

// How many words there are. A number of 32 bits is two words: its remainder by this, its quotient.
pub const HALF_SIZE: u32 = 65536;

// How many rows of each kind there are, and how many elements.
#[derive(Clone, Copy, Debug, PartialEq, Eq)]
pub struct Counts {
    pub safes: usize,
    pub bags: usize,
    pub attributes: usize,
    pub elements: usize,
}

fn too_few() -> Result<usize, Fault>
    ensures { result ≡ Err (fault short_buffer 0) }
{
    Err(Fault {
        number: buffer::SHORT_BUFFER,
        offset: 0,
    })
}

// The whole table, at the front.
fn all(memory: &mut [u16], table: Table)
    requires { table_words ≤ length memory.old }
    ensures { StoredAt memory.old 0 (words_of table) memory.new }
{
    let counts = Counts {
        safes: table.safe_count,
        bags: table.bag_count,
        attributes: table.attribute_count,
        elements: table.elements,
    };
    put::input(memory, table.mac_input);
    fill::rows(memory, table.safes, table.safe_count);
    fill::rows(memory, table.bags, table.bag_count);
    fill::rows(memory, table.attributes, table.attribute_count);
    put::finish(memory, counts, table.mac);
}

// Stores a table as words at the front of the memory, and returns their number; 10 if the memory
// has fewer.
pub fn store(table: Table, out: &mut [u16]) -> Result<usize, Fault>
    ensures value { result ≡ (stored table out.old).answer }
    ensures report { written_report result ≡ written_report (stored table out.old).answer }
    ensures out_after { out.new ≡ (stored table out.old).buffer }
{
    if out.len() < TABLE_WORDS {
        return too_few();
    }
    all(out, table);
    Ok(TABLE_WORDS)
}

// Stores one attribute row as words, as it is in a table; 10 if the memory has fewer.
pub fn store_row(row: AttributeRow, out: &mut [u16]) -> Result<usize, Fault>
    ensures value { result ≡ (stored_row row out.old).answer }
    ensures report { written_report result ≡ written_report (stored_row row out.old).answer }
    ensures out_after { out.new ≡ (stored_row row out.old).buffer }
{
    if out.len() < ATTRIBUTE_WIDTH {
        return too_few();
    }
    row.put(out, 0);
    Ok(ATTRIBUTE_WIDTH)
}
