// The words for counts, kinds, enclosing bags and sets.
ghost use Rattle.std.specs.Prelude.{◌≡◌};
ghost use Rattle.words.specs.Stored.{count_word, safe_number, bag_number, enclosing_number, set_number};

use pkcs12::{BagKind, SafeKind};

// A count as a word.
pub(crate) fn count(n: usize) -> u16
    ensures { result ≡ count_word n }
{
    n.min(crate::GREATEST_WORD) as u16
}

// The number of a kind is its place among the kinds, from 0 on.
pub(crate) fn safe(kind: SafeKind) -> u16
    ensures { result ≡ safe_number kind }
{
    kind as u16
}

pub(crate) fn bag(kind: BagKind) -> u16
    ensures { result ≡ bag_number kind }
{
    kind as u16
}

pub(crate) fn enclosing(enclosing: Option<u16>) -> u16
    ensures { result ≡ enclosing_number enclosing }
{
    match enclosing {
        None => 0,
        Some(n) => n.saturating_add(1),
    }
}

pub(crate) fn set(has_set: bool) -> u16
    ensures { result ≡ set_number has_set }
{
    has_set as u16
}
