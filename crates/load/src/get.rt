// What is loaded from the words of a table, at an offset. Words that aren't there count as 0.
ghost use Rattle.std.specs.Prelude.{◌≡◌, ◌+◌, ◌≤◌};
ghost use Rattle.words.specs.Layout.{range_width, parts_width, mac_width, table_words};
ghost use Rattle.load.specs.Loaded.{word_at, enclosing_of, safe_kind_of, bag_kind_of, set_of, range_loaded};
ghost use Rattle.load.specs.Loaded.{parts_loaded, mac_loaded};

use pkcs12::{BagKind, Mac, Parts, SafeKind};
use range::Range;

pub(crate) fn word(words: &[u16], i: usize) -> u16
    ensures { result ≡ word_at words.now i }
{
    words.get(i).copied().unwrap_or(0)
}

pub(crate) fn enclosing_of(w: u16) -> Option<u16>
    ensures { result ≡ enclosing_of w }
{
    w.checked_sub(1)
}

pub(crate) fn safe_kind_of(w: u16) -> SafeKind
    ensures { result ≡ safe_kind_of w }
{
    match w {
        1 => SafeKind::Plain,
        2 => SafeKind::Encrypted,
        _ => SafeKind::None,
    }
}

pub(crate) fn bag_kind_of(w: u16) -> BagKind
    ensures { result ≡ bag_kind_of w }
{
    match w {
        1 => BagKind::Key,
        2 => BagKind::ShroudedKey,
        3 => BagKind::Certificate,
        4 => BagKind::Crl,
        5 => BagKind::Secret,
        6 => BagKind::Nested,
        _ => BagKind::None,
    }
}

pub(crate) fn set_of(w: u16) -> bool
    ensures { result ≡ set_of w }
{
    w != 0
}

pub(crate) fn range(words: &[u16], at: usize) -> Range
    requires { at + range_width ≤ table_words }
    ensures { result ≡ range_loaded words.now at }
{
    Range {
        start: word(words, at),
        end: word(words, at + 1),
    }
}

pub(crate) fn parts(words: &[u16], at: usize) -> Parts
    requires { at + parts_width ≤ table_words }
    ensures { result ≡ parts_loaded words.now at }
{
    Parts {
        identifier: range(words, at),
        parameters: range(words, at + words::RANGE_WIDTH),
        value: range(words, at + 2 * words::RANGE_WIDTH),
    }
}

pub(crate) fn mac(words: &[u16], at: usize) -> Mac
    requires { at + mac_width ≤ table_words }
    ensures { result ≡ mac_loaded words.now at }
{
    let low = word(words, at + (words::PARTS_WIDTH + words::RANGE_WIDTH)) as u32;
    let high = word(words, at + (words::PARTS_WIDTH + words::RANGE_WIDTH + 1)) as u32;
    Mac {
        parts: parts(words, at),
        salt: range(words, at + words::PARTS_WIDTH),
        iterations: low + words::HALF_SIZE * high,
    }
}
