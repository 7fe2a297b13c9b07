// Ranges of bytes, and the parts of a caller's bytes that they name.
#![tactic(auto)]

ghost use Rattle.std.specs.Prelude.{◌≡◌, min};
ghost use Rattle.std.proofs.Math.Seq.{slice};
ghost use Rattle.der.specs.Content.{bytes_of};
ghost use Rattle.range.specs.Bytes.{same_bytes};
ghost use Rattle.range.specs.Range.{bytes_in, lies, body_range, word_range};

use der::Cursor;

// A range start..end has the bytes start up to end-1.
#[derive(Clone, Copy, Debug, PartialEq, Eq)]
pub struct Range {
    pub start: u16,
    pub end: u16,
}

// A range that lies in no bytes.
const NOWHERE: Range = Range { start: 1, end: 0 };

// The fewer of the two: rows that are counted, rows that there are.
pub fn fewer(count: usize, rows: usize) -> usize
    ensures { result ≡ min count rows }
{
    count.min(rows)
}

// Whether two strings of bytes are the same.
pub fn same(a: &[u8], b: &[u8]) -> bool
    ensures { result ≡ same_bytes a.now b.now }
{
    a == b
}

// The bytes from one offset up to another, that part of the caller's own; of offsets that go past
// them those that are there.
pub fn part(bytes: &[u8], start: usize, end: usize) -> &[u8]
    ensures { result.now ≡ slice start end bytes.now }
{
    let there = bytes.get(..end).unwrap_or(bytes);
    &there[start.min(there.len())..]
}

// Whether a body is the given bytes.
pub fn named(s: &[u8], body: Cursor, name: &[u8]) -> bool
    ensures { result ≡ same_bytes (bytes_of s.now body) name.now }
{
    same(part(s, body.at, body.end), name)
}

impl Range {
    pub const EMPTY: Range = Range { start: 0, end: 0 };

    // The range of a body; an offset past the greatest that a range holds counts as that.
    pub fn of(c: Cursor) -> Range
        ensures { result ≡ body_range c }
    {
        Range {
            start: u16::try_from(c.at).unwrap_or(u16::MAX),
            end: u16::try_from(c.end).unwrap_or(u16::MAX),
        }
    }

    // The range with these offsets; one that lies in no bytes if an offset is greater than a range
    // holds.
    pub fn of_words(start: u32, end: u32) -> Range
        ensures { result ≡ word_range start end }
    {
        let Ok(start) = u16::try_from(start) else {
            return NOWHERE;
        };
        let Ok(end) = u16::try_from(end) else {
            return NOWHERE;
        };
        Range { start, end }
    }

    // Whether the range lies in the bytes.
    pub fn lies(self, bytes: &[u8]) -> bool
        ensures { result ≡ lies bytes.now self }
    {
        self.start <= self.end && self.end as usize <= bytes.len()
    }

    // The bytes that the range names, that part of the caller's own; of a range that goes past them
    // those that are there.
    pub fn part(self, bytes: &[u8]) -> &[u8]
        ensures { result.now ≡ bytes_in bytes.now self }
    {
        part(bytes, self.start as usize, self.end as usize)
    }
}
