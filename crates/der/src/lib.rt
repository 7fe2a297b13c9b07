// One element of DER (ITU-T X.690) and what PKCS #12 files are made of: tags, lengths, identifiers,
// integers, and opaque elements, which are checked for their form to the bottom. Every public
// function answers any cursor over any bytes.
#![tactic(auto)]

ghost use Rattle.std.specs.Prelude.{◌≡◌, ◌+◌, ◌^◌, ◌%◌, ◌<◌, ◌≤◌, length, get_or};
ghost use Rattle.std.proofs.Math.Seq.{slice};
ghost use Rattle.der.specs.Numbers.{octet_string_tag};
ghost use Rattle.der.specs.Element.{whole_of, no_byte_left, tag_at, finish_at, within, one_octet};
ghost use Rattle.der.specs.Element.{two_octets, extent_at, element_at, expect_at, cursor};
ghost use Rattle.der.specs.Content.{breaks, identifier_body, identifier_at, integer_body};
ghost use Rattle.der.specs.Content.{and_digit, integer_value, integer_at, IntegerAt};
ghost use Rattle.der.specs.Opaque.{opaque_at, elements_at, number_at, childless};
ghost use Rattle.der.specs.Content.{begins_at};
ghost use Rattle.der.specs.Report.{element_report, checked_report, integer_report};
ghost use Rattle.der.specs.Span.{Bytes};

// The numbers of the refusals (Rules 5.1 to 5.6, 5.8 and 5.15).
pub const MISSING: u8 = 1;

pub const TAG_FORM: u8 = 2;

pub const LENGTH_FORM: u8 = 3;

pub const OTHER_TAG: u8 = 4;

pub const CONTENT: u8 = 5;

pub const LEFT_OVER: u8 = 6;

pub const TOO_MANY: u8 = 8;

pub const OVERRUN: u8 = 15;

// In place of a tag where there is none: 00 is no tag (Rule 2.2).
pub const NO_TAG: u8 = 0x00;

// The tags of the elements whose bodies are read here (Rules 2.8 to 2.10).
pub const INTEGER: u8 = 0x02;

pub const OCTET_STRING: u8 = 0x04;

pub const OBJECT_IDENTIFIER: u8 = 0x06;

// The tags of elements that hold others.
pub const SEQUENCE: u8 = 0x30;

pub const SET: u8 = 0x31;

pub const CONTEXT_0: u8 = 0xA0;

// The levels of an opaque element (Rule 2.7).
pub const OPAQUE_LEVELS: u8 = 16;

// The first fault: its number, and its offset in the file.
#[derive(Clone, Copy, Debug, PartialEq, Eq)]
pub struct Fault {
    pub number: u8,
    pub offset: usize,
}

// A position in a parent's body: the offset of the next byte, and that of the body's end. A cursor
// that ends past the bytes, or at or before its own position, has no byte left.
#[derive(Clone, Copy, Debug, PartialEq, Eq)]
pub struct Cursor {
    pub at: usize,
    pub end: usize,
}

// An element: its tag, its body, and the cursor past the whole element.
#[derive(Clone, Copy, Debug, PartialEq, Eq)]
pub struct Element {
    pub tag: u8,
    pub body: Cursor,
    pub next: Cursor,
}

// What a check went through: the number of elements, and the cursor past them.
#[derive(Clone, Copy, Debug, PartialEq, Eq)]
pub struct Checked {
    pub count: usize,
    pub next: Cursor,
}

// The number in an INTEGER, and the cursor past it.
#[derive(Clone, Copy, Debug, PartialEq, Eq)]
pub struct Integer {
    pub value: u32,
    pub next: Cursor,
}

// The body that begins at `start`, of the element at `at`; it ends in its parent.
fn within(at: usize, start: usize, size: usize, end: usize) -> Result<Cursor, Fault>
    requires { start + size < 2 ^ 64 }
    ensures { result ≡ within at start size end }
{
    let stop = start + size;
    if end < stop {
        return Err(Fault {
            number: OVERRUN,
            offset: at,
        });
    }
    Ok(Cursor {
        at: start,
        end: stop,
    })
}

// The body of the element at `at`, whose length is 81 and one byte.
fn one_octet(s: &[u8], at: usize, end: usize) -> Result<Cursor, Fault>
    requires { (at < end) × (end ≤ length s.now) }
    ensures { result ≡ one_octet s.now at end }
{
    if end <= at + 2 {
        return Err(Fault {
            number: OVERRUN,
            offset: at,
        });
    }
    let size = s[at + 2];
    if size < 0x80 {
        return Err(Fault {
            number: LENGTH_FORM,
            offset: at,
        });
    }
    within(at, at + 3, size as usize, end)
}

// The body of the element at `at`, whose length is 82 and two bytes.
fn two_octets(s: &[u8], at: usize, end: usize) -> Result<Cursor, Fault>
    requires { (at < end) × (end ≤ length s.now) }
    ensures { result ≡ two_octets s.now at end }
{
    if end <= at + 3 {
        return Err(Fault {
            number: OVERRUN,
            offset: at,
        });
    }
    let high = s[at + 2] as usize;
    if high == 0 {
        return Err(Fault {
            number: LENGTH_FORM,
            offset: at,
        });
    }
    let low = s[at + 3] as usize;
    within(at, at + 4, high * 256 + low, end)
}

// The body of the element at `at`, by its length.
fn extent(s: &[u8], at: usize, end: usize) -> Result<Cursor, Fault>
    requires { (at < end) × (end ≤ length s.now) }
    ensures { result ≡ extent_at s.now at end }
{
    if end <= at + 1 {
        return Err(Fault {
            number: OVERRUN,
            offset: at,
        });
    }
    let first = s[at + 1];
    if first < 0x80 {
        return within(at, at + 2, first as usize, end);
    }
    if first == 0x81 {
        return one_octet(s, at, end);
    }
    if first == 0x82 {
        return two_octets(s, at, end);
    }
    Err(Fault {
        number: LENGTH_FORM,
        offset: at,
    })
}

// Whether the parent has no byte left.
fn no_byte_left(s: &[u8], c: Cursor) -> bool
    ensures { result ≡ no_byte_left s.now c }
{
    let at = c.at;
    let end = c.end;
    if s.len() < end {
        return true;
    }
    end <= at
}

// The element at `at`, where a byte is left.
#[inline(always)]
fn present(s: &[u8], at: usize, end: usize) -> Result<Element, Fault>
    requires { (at < end) × (end ≤ length s.now) }
    ensures { result ≡ element_at s.now (cursor at end) }
{
    let tag = s[at];
    if tag == 0 || tag % 0x20 == 0x1F {
        return Err(Fault {
            number: TAG_FORM,
            offset: at,
        });
    }
    let body = extent(s, at, end)?;
    Ok(Element {
        tag,
        body,
        next: Cursor { at: body.end, end },
    })
}

// Whether nothing below the element is to be checked: its body is not examined, or it has none.
fn childless(found: Element) -> bool
    ensures { result ≡ childless found }
{
    found.tag / 0x20 % 2 == 0 || found.body.end <= found.body.at
}

// The number of elements from `from` up to `end`, each checked to the bottom with `level` levels
// left.
fn run(s: &[u8], level: u8, from: usize, end: usize) -> Result<usize, Fault>
    requires { end ≤ length s.now }
    ensures { result ≡ number_at level s.now (cursor from end) }
{
    let mut at = from;
    let mut count: usize = 0;
    while at < end {
        let found = present(s, at, end)?;
        if level == 0 {
            return Err(Fault {
                number: TOO_MANY,
                offset: at,
            });
        }
        if childless(found) {
            count += 1;
        } else {
            let below = run(s, level - 1, found.body.at, found.body.end)?;
            count += below + 1;
        }
        at = found.next.at;
    }
    Ok(count)
}

// Whether a part of the identifier from `from` on begins at `i`.
fn begins_at(s: &[u8], from: usize, i: usize) -> bool
    requires { i ≤ length s.now }
    ensures { result ≡ begins_at s.now from i }
{
    if i <= from {
        return true;
    }
    let before = i - 1;
    s[before] < 0x80
}

// Whether the byte at `i` breaks the identifier: a part may not begin with 80 hex.
fn breaks_at(s: &[u8], from: usize, i: usize) -> bool
    requires { i < length s.now }
    ensures { result ≡ breaks (begins_at s.now from i) (get_or s.now i 0) }
{
    if s[i] == 0x80 {
        return begins_at(s, from, i);
    }
    false
}

// Whether the bytes from `from` up to `to` are an identifier's body.
fn is_identifier(s: &[u8], from: usize, to: usize) -> bool
    requires { to ≤ length s.now }
    ensures { result ≡ identifier_body (slice from to s.now) }
{
    if to <= from {
        return false;
    }
    let last = to - 1;
    if 0x80 <= s[last] {
        return false;
    }
    for i in from..last {
        if breaks_at(s, from, i) {
            return false;
        }
    }
    true
}

// Whether the bytes are an identifier's body.
pub fn names_type(body: &[u8]) -> bool
    ensures { result ≡ identifier_body body.now }
{
    is_identifier(body, 0, body.len())
}

// Whether a body is an INTEGER's: 1 to 4 bytes, minimal, not negative.
fn is_integer(s: &[u8], body: Cursor) -> bool
    requires { body.end ≤ length s.now }
    ensures { result ≡ integer_body s.now body }
{
    let at = body.at;
    let end = body.end;
    if end <= at {
        return false;
    }
    let most = at + 4;
    if most < end {
        return false;
    }
    let first = s[at];
    if 0x80 <= first {
        return false;
    }
    let second = at + 1;
    if end <= second {
        return true;
    }
    if first == 0 {
        return 0x80 <= s[second];
    }
    true
}

// The number with the byte at `i` behind it, where the body goes so far.
fn and_digit(s: &[u8], end: usize, i: usize, v: u32) -> u32
    requires { (end ≤ length s.now) × (v < 8388608) }
    ensures { result ≡ and_digit s.now end i v }
{
    if i < end {
        let digit = s[i] as u32;
        return v * 256 + digit;
    }
    v
}

// The number that an INTEGER's body holds.
fn integer_value(s: &[u8], body: Cursor) -> u32
    requires { IntegerAt s.now body }
    ensures { result ≡ integer_value s.now body }
{
    let at = body.at;
    let end = body.end;
    let second = at + 1;
    let third = at + 2;
    let fourth = at + 3;
    let v1 = s[at] as u32;
    let v2 = and_digit(s, end, second, v1);
    let v3 = and_digit(s, end, third, v2);
    and_digit(s, end, fourth, v3)
}

impl Cursor {
    // The whole of the bytes.
    pub fn over(s: &[u8]) -> Cursor
        ensures { result ≡ whole_of s.now }
    {
        Cursor {
            at: 0,
            end: s.len(),
        }
    }

    // The next byte, or `NO_TAG` where none is left.
    pub fn tag(self, s: &[u8]) -> u8
        ensures { result ≡ tag_at s.now self }
    {
        if no_byte_left(s, self) {
            return NO_TAG;
        }
        let here = self.at;
        s[here]
    }

    // A parent's body is at its end; what is left over is refused.
    pub fn finish(self) -> Result<Checked, Fault>
        ensures value { result ≡ finish_at self }
        ensures report { checked_report result ≡ checked_report (finish_at self) }
    {
        let left = self.at;
        let end = self.end;
        if left < end {
            return Err(Fault {
                number: LEFT_OVER,
                offset: left,
            });
        }
        Ok(Checked {
            count: 0,
            next: self,
        })
    }

    // The next element, of any tag.
    #[inline(always)]
    pub fn element(self, s: &[u8]) -> Result<Element, Fault>
        ensures value { result ≡ element_at s.now self }
        ensures report { element_report result ≡ element_report (element_at s.now self) }
        ensures bytes { Bytes s.now }
    {
        let end = self.end;
        if no_byte_left(s, self) {
            return Err(Fault {
                number: MISSING,
                offset: end,
            });
        }
        present(s, self.at, end)
    }

    // The next element, with the tag that is due.
    pub fn expect(self, s: &[u8], due: u8) -> Result<Element, Fault>
        ensures value { result ≡ expect_at due s.now self }
        ensures report { element_report result ≡ element_report (expect_at due s.now self) }
        ensures bytes { Bytes s.now }
    {
        let found = self.element(s)?;
        if found.tag == due {
            return Ok(found);
        }
        Err(Fault {
            number: OTHER_TAG,
            offset: self.at,
        })
    }

    // The next element, an OCTET STRING.
    pub fn octet_string(self, s: &[u8]) -> Result<Element, Fault>
        ensures value { result ≡ expect_at octet_string_tag s.now self }
        ensures report { element_report result ≡ element_report (expect_at octet_string_tag s.now self) }
        ensures bytes { Bytes s.now }
    {
        self.expect(s, OCTET_STRING)
    }

    // The next element, an OBJECT IDENTIFIER.
    pub fn identifier(self, s: &[u8]) -> Result<Element, Fault>
        ensures value { result ≡ identifier_at s.now self }
        ensures report { element_report result ≡ element_report (identifier_at s.now self) }
        ensures bytes { Bytes s.now }
    {
        let found = self.expect(s, OBJECT_IDENTIFIER)?;
        if is_identifier(s, found.body.at, found.body.end) {
            return Ok(found);
        }
        Err(Fault {
            number: CONTENT,
            offset: self.at,
        })
    }

    // The next element, an INTEGER, with its number.
    pub fn integer(self, s: &[u8]) -> Result<Integer, Fault>
        ensures value { result ≡ integer_at s.now self }
        ensures report { integer_report result ≡ integer_report (integer_at s.now self) }
        ensures bytes { Bytes s.now }
    {
        let found = self.expect(s, INTEGER)?;
        if is_integer(s, found.body) {
            return Ok(Integer {
                value: integer_value(s, found.body),
                next: found.next,
            });
        }
        Err(Fault {
            number: CONTENT,
            offset: self.at,
        })
    }

    // The next element, checked to the bottom, with `level` levels left.
    pub fn opaque(self, s: &[u8], level: u8) -> Result<Checked, Fault>
        ensures value { result ≡ opaque_at level s.now self }
        ensures report { checked_report result ≡ checked_report (opaque_at level s.now self) }
        ensures bytes { Bytes s.now }
    {
        let found = self.element(s)?;
        if level == 0 {
            return Err(Fault {
                number: TOO_MANY,
                offset: self.at,
            });
        }
        if found.tag / 0x20 % 2 == 0 {
            return Ok(Checked {
                count: 1,
                next: found.next,
            });
        }
        let inside = run(s, level - 1, found.body.at, found.body.end)?;
        Ok(Checked {
            count: inside + 1,
            next: found.next,
        })
    }

    // Zero or more elements up to the cursor's end, each checked to the bottom.
    pub fn elements(self, s: &[u8], level: u8) -> Result<Checked, Fault>
        ensures value { result ≡ elements_at level s.now self }
        ensures report { checked_report result ≡ checked_report (elements_at level s.now self) }
        ensures bytes { Bytes s.now }
    {
        let end = self.end;
        if end <= self.at {
            return Ok(Checked {
                count: 0,
                next: self,
            });
        }
        if s.len() < end {
            return Err(Fault {
                number: MISSING,
                offset: end,
            });
        }
        let count = run(s, level, self.at, end)?;
        Ok(Checked {
            count,
            next: Cursor { at: end, end },
        })
    }
}
