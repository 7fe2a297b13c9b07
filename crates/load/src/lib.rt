// Loads a table, or one row of it, from plain words; the words are those that `words` stores. Words
// that aren't there count as 0.
#![tactic(auto)]

ghost use Rattle.std.specs.Prelude.{◌≡◌};
ghost use Rattle.load.specs.Loaded.{safe_fetched, bag_fetched, attribute_fetched, table_in};

mod get;
mod row;

use pkcs12::{AttributeRow, BagRow, SafeRow, Table};

// Row n of each kind; the empty row where a table has none of that number.
pub fn safe(words: &[u16], n: usize) -> SafeRow
    ensures { result ≡ safe_fetched words.now n }
{
    row::fetch::<SafeRow>(words, n)
}

pub fn bag(words: &[u16], n: usize) -> BagRow
    ensures { result ≡ bag_fetched words.now n }
{
    row::fetch::<BagRow>(words, n)
}

pub fn attribute(words: &[u16], n: usize) -> AttributeRow
    ensures { result ≡ attribute_fetched words.now n }
{
    row::fetch::<AttributeRow>(words, n)
}

// The table that is loaded from words.
pub fn table(words: &[u16]) -> Table
    ensures { result ≡ table_in words.now }
{
    let safe_count = get::word(words, words::SAFE_COUNT_AT) as usize;
    let bag_count = get::word(words, words::BAG_COUNT_AT) as usize;
    let attribute_count = get::word(words, words::ATTRIBUTE_COUNT_AT) as usize;
    Table {
        safes: row::rows(words, safe_count),
        safe_count,
        bags: row::rows(words, bag_count),
        bag_count,
        attributes: row::rows(words, attribute_count),
        attribute_count,
        mac: get::mac(words, words::MAC_FIELDS_AT),
        mac_input: get::range(words, words::MAC_INPUT_AT),
        elements: get::word(words, words::ELEMENTS_AT) as usize,
    }
}
