// The rows of each kind: one that is at an offset, one by its number, and those that are counted.
ghost use Rattle.std.specs.Prelude.{◌≡◌, List, ℕ, ◌+◌, ◌≤◌};
ghost use Rattle.words.specs.Layout.{table_words};
ghost use Rattle.load.specs.Loaded.{safe_loaded, bag_loaded, attribute_loaded, row_from, row_fetched, rows_from};

use crate::get;
use pkcs12::{AttributeRow, BagRow, SafeRow};
use words::Row;

// A row that is loaded from words.
pub(crate) trait Loaded: Row {
    ghost loaded: { List ℕ → ℕ → Self };

    // The row whose words are at an offset.
    fn at(words: &[u16], at: usize) -> Self
        requires { at + Self.WIDTH ≤ table_words }
        ensures { result ≡ loaded words.now at };
}

impl Loaded for SafeRow {
    ghost loaded = { safe_loaded };

    fn at(words: &[u16], at: usize) -> SafeRow {
        SafeRow {
            kind: get::safe_kind_of(get::word(words, at)),
            parts: get::parts(words, at + 1),
        }
    }
}

impl Loaded for BagRow {
    ghost loaded = { bag_loaded };

    fn at(words: &[u16], at: usize) -> BagRow {
        BagRow {
            kind: get::bag_kind_of(get::word(words, at)),
            safe: get::word(words, at + 1),
            enclosing: get::enclosing_of(get::word(words, at + 2)),
            parts: get::parts(words, at + 3),
            has_set: get::set_of(get::word(words, at + (3 + words::PARTS_WIDTH))),
        }
    }
}

impl Loaded for AttributeRow {
    ghost loaded = { attribute_loaded };

    fn at(words: &[u16], at: usize) -> AttributeRow {
        AttributeRow {
            bag: get::word(words, at),
            identifier: get::range(words, at + 1),
            values: get::range(words, at + (1 + words::RANGE_WIDTH)),
        }
    }
}

// Row n of a kind; the empty row where a table has none of that number.
pub(crate) fn fetch<R: Loaded>(words: &[u16], n: usize) -> R
    ensures { result ≡ row_fetched R.loaded R.EMPTY R.ROWS R.AT R.WIDTH words.now n }
{
    if R::ROWS <= n {
        return R::EMPTY;
    }
    R::at(words, R::AT + n * R::WIDTH)
}

// The rows of a kind, by the number that is counted.
pub(crate) fn rows<R: Loaded, const N: usize>(words: &[u16], count: usize) -> [R; N]
    requires { N ≤ R.ROWS }
    ensures { result ≡ rows_from (row_from R.loaded R.AT R.WIDTH words.now) R.EMPTY N count }
{
    let mut rows = [R::EMPTY; N];
    for i in 0..count.min(N) {
        rows[i] = R::at(words, R::AT + i * R::WIDTH);
    }
    rows
}
