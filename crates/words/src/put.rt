// Stores parts of a table one by one in a caller's memory, each where it is in the words of a
// table. Memory that is shorter than a table stays as it is, and so does memory where there is no
// such row.
ghost use Rattle.std.specs.Prelude.{◌≡◌, ◌≤◌, length};
ghost use Rattle.words.specs.Layout.{elements_at, mac_fields_at, table_words};
ghost use Rattle.words.specs.Stored.{count_words, mac_words};
ghost use Rattle.words.specs.InPlace.{row_stored, safe_stored, bag_stored, attribute_stored, input_stored};
ghost use Rattle.words.specs.InPlace.{finished, cleared};
ghost use Rattle.words.specs.Steps.{StoredAt};

use crate::stored::Stored;
use crate::{Counts, field, number};
use pkcs12::{AttributeRow, BagRow, Mac, SafeRow};
use range::Range;

// Row n of a kind.
pub(crate) fn row<R: Stored>(memory: &mut [u16], n: usize, row: R)
    ensures { memory.new ≡ row_stored R.ROWS R.AT R.WIDTH memory.old n (R.words row) }
{
    if memory.len() < crate::TABLE_WORDS {
        return;
    }
    if R::ROWS <= n {
        return;
    }
    row.put(memory, R::AT + n * R::WIDTH);
}

// Row n of each kind.
pub fn safe(memory: &mut [u16], n: usize, row: SafeRow)
    ensures { memory.new ≡ safe_stored memory.old n row }
{
    self::row(memory, n, row);
}

pub fn bag(memory: &mut [u16], n: usize, row: BagRow)
    ensures { memory.new ≡ bag_stored memory.old n row }
{
    self::row(memory, n, row);
}

pub fn attribute(memory: &mut [u16], n: usize, row: AttributeRow)
    ensures { memory.new ≡ attribute_stored memory.old n row }
{
    self::row(memory, n, row);
}

// The range of the MAC input.
pub fn input(memory: &mut [u16], range: Range)
    ensures { memory.new ≡ input_stored memory.old range }
{
    if memory.len() < crate::TABLE_WORDS {
        return;
    }
    field::range(memory, crate::MAC_INPUT_AT, range);
}

fn count_words(memory: &mut [u16], counts: Counts)
    requires { table_words ≤ length memory.old }
    ensures { StoredAt memory.old elements_at
        (count_words counts.elements counts.safes counts.bags counts.attributes) memory.new }
{
    field::word(memory, crate::ELEMENTS_AT, number::count(counts.elements));
    field::word(memory, crate::SAFE_COUNT_AT, number::count(counts.safes));
    field::word(memory, crate::BAG_COUNT_AT, number::count(counts.bags));
    field::word(
        memory,
        crate::ATTRIBUTE_COUNT_AT,
        number::count(counts.attributes),
    );
}

fn mac(memory: &mut [u16], mac: Mac)
    requires { table_words ≤ length memory.old }
    ensures { StoredAt memory.old mac_fields_at (mac_words mac) memory.new }
{
    let salt = crate::MAC_FIELDS_AT + crate::PARTS_WIDTH;
    let low = salt + crate::RANGE_WIDTH;
    field::parts(memory, crate::MAC_FIELDS_AT, mac.parts);
    field::range(memory, salt, mac.salt);
    field::word(memory, low, (mac.iterations % crate::HALF_SIZE) as u16);
    field::word(memory, low + 1, (mac.iterations / crate::HALF_SIZE) as u16);
}

// The rows are stored: stores the counts and the MAC, and 0 in place of the rows that aren't
// counted.
pub fn finish(memory: &mut [u16], counts: Counts, mac: Mac)
    ensures { memory.new ≡ finished memory.old counts mac }
{
    if memory.len() < crate::TABLE_WORDS {
        return;
    }
    let safes = counts.safes.min(pkcs12::SAFE_ROWS);
    let bags = counts.bags.min(pkcs12::BAG_ROWS);
    let attributes = counts.attributes.min(pkcs12::ATTRIBUTE_ROWS);
    count_words(memory, counts);
    self::mac(memory, mac);
    field::zeros(
        memory,
        crate::SAFES_AT + safes * crate::SAFE_WIDTH,
        crate::BAGS_AT,
    );
    field::zeros(
        memory,
        crate::BAGS_AT + bags * crate::BAG_WIDTH,
        crate::ATTRIBUTES_AT,
    );
    let left = crate::ATTRIBUTES_AT + attributes * crate::ATTRIBUTE_WIDTH;
    field::zeros(memory, left, crate::TABLE_WORDS);
}

// The words of the empty table.
pub fn clear(memory: &mut [u16])
    ensures { memory.new ≡ cleared memory.old }
{
    if memory.len() < crate::TABLE_WORDS {
        return;
    }
    field::zeros(memory, 0, crate::TABLE_WORDS);
}
