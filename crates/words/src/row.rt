// The three kinds of rows: where a table has those of a kind.
ghost use Rattle.std.specs.Prelude.{ℕ, ◌+◌, ◌*◌, ◌≤◌};
ghost use Rattle.pkcs12.specs.Numbers.{safe_rows, bag_rows, attribute_rows};
ghost use Rattle.pkcs12.specs.Table.{no_safe, no_bag, no_attribute};
ghost use Rattle.words.specs.Layout.{safe_width, bag_width, attribute_width, safes_at, bags_at, attributes_at};
ghost use Rattle.words.specs.Layout.{table_words, safes_within, bags_within, attributes_within};

use pkcs12::{AttributeRow, BagRow, SafeRow};

// A kind of rows.
pub trait Row: Copy {
    // How many rows of the kind a table has, the offset of the first, and how many words one takes.
    const ROWS: usize;

    const AT: usize;

    const WIDTH: usize;

    // The row in place of one that isn't counted.
    const EMPTY: Self;

    ghost ROWS: { ℕ };

    ghost AT: { ℕ };

    ghost WIDTH: { ℕ };

    ghost EMPTY: { Self };

    // The rows of the kind are within a table.
    ghost within: { AT + ROWS * WIDTH ≤ table_words };
}

impl Row for SafeRow {
    const ROWS: usize = pkcs12::SAFE_ROWS;

    const AT: usize = crate::SAFES_AT;

    const WIDTH: usize = crate::SAFE_WIDTH;

    const EMPTY: SafeRow = SafeRow::EMPTY;

    ghost ROWS = { safe_rows };

    ghost AT = { safes_at };

    ghost WIDTH = { safe_width };

    ghost EMPTY = { no_safe };

    ghost within = { safes_within };
}

impl Row for BagRow {
    const ROWS: usize = pkcs12::BAG_ROWS;

    const AT: usize = crate::BAGS_AT;

    const WIDTH: usize = crate::BAG_WIDTH;

    const EMPTY: BagRow = BagRow::EMPTY;

    ghost ROWS = { bag_rows };

    ghost AT = { bags_at };

    ghost WIDTH = { bag_width };

    ghost EMPTY = { no_bag };

    ghost within = { bags_within };
}

impl Row for AttributeRow {
    const ROWS: usize = pkcs12::ATTRIBUTE_ROWS;

    const AT: usize = crate::ATTRIBUTES_AT;

    const WIDTH: usize = crate::ATTRIBUTE_WIDTH;

    const EMPTY: AttributeRow = AttributeRow::EMPTY;

    ghost ROWS = { attribute_rows };

    ghost AT = { attributes_at };

    ghost WIDTH = { attribute_width };

    ghost EMPTY = { no_attribute };

    ghost within = { attributes_within };
}
