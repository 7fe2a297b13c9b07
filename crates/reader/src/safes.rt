// Safes up to the rows that they make: the ContentInfo of each, and what is in it.
ghost use Rattle.std.specs.Prelude.{◌≡◌, ◌≤◌, length};
ghost use Rattle.der.specs.Content.{bytes_of};
ghost use Rattle.reader.specs.Steps.{data_head_at, both_at, plain_head_at, encrypted_head_at, safe_of_at, safe_head_at};
ghost use Rattle.reader.specs.Steps.{closed_at};

use der::{Checked, Cursor, Fault};
use parts::File;
use pkcs12::Parts;

// The body of a data OCTET STRING in [0], with what is left behind the string and behind [0].
#[derive(Clone, Copy)]
pub(crate) struct Octets {
    pub(crate) body: Cursor,
    pub(crate) string: Cursor,
    pub(crate) content: Cursor,
}

// A safe up to its bags.
#[derive(Clone, Copy)]
pub(crate) enum Contents {
    Plain {
        body: Cursor,
        string: Cursor,
        content: Cursor,
        next: Cursor,
    },
    Encrypted {
        parts: Parts,
        count: usize,
        next: Cursor,
    },
}

pub(crate) fn data(s: &[u8], c: Cursor) -> Result<Octets, Fault>
    ensures { result ≡ data_head_at s.now c }
{
    let outer = c.expect(s, der::CONTEXT_0)?;
    let inner = outer.body.octet_string(s)?;
    Ok(Octets {
        body: inner.body,
        string: inner.next,
        content: outer.next,
    })
}

// Whether both parents are at their end.
pub(crate) fn both(a: Cursor, b: Cursor) -> Result<Checked, Fault>
    ensures { result ≡ both_at a b }
{
    a.finish()?;
    b.finish()
}

fn plain(s: &[u8], c: Cursor, n: Cursor) -> Result<Contents, Fault>
    ensures { result ≡ plain_head_at s.now c n }
{
    let found = data(s, c)?;
    Ok(Contents::Plain {
        body: found.body,
        string: found.string,
        content: found.content,
        next: n,
    })
}

fn encrypted(s: File, c: Cursor, n: Cursor) -> Result<Contents, Fault>
    ensures { result ≡ encrypted_head_at s.entry.bytes.now c n }
{
    let outer = c.expect(s.bytes, der::CONTEXT_0)?;
    let found = parts::encrypted(s.bytes, outer.body)?;
    both(found.next, outer.next)?;
    Ok(Contents::Encrypted {
        parts: found.value,
        count: found.count + 3,
        next: n,
    })
}

// What follows the type of a safe; the type is at `at`, with body i, and n is past the safe.
fn safe_value(s: File, i: Cursor, at: usize, c: Cursor, n: Cursor) -> Result<Contents, Fault>
    requires { (i.at ≤ i.end) × (i.end ≤ length s.bytes.now) }
    ensures { result ≡ safe_of_at s.entry.bytes.now (bytes_of s.entry.bytes.now i) at c n }
{
    if range::named(s.bytes, i, &pkcs12::DATA) {
        return plain(s.bytes, c, n);
    }
    if range::named(s.bytes, i, &pkcs12::ENCRYPTED_DATA) {
        return encrypted(s, c, n);
    }
    if range::named(s.bytes, i, &pkcs12::ENVELOPED_DATA) {
        return Err(Fault {
            number: pkcs12::NOT_SERVED,
            offset: at,
        });
    }
    Err(Fault {
        number: der::CONTENT,
        offset: at,
    })
}

// A safe up to its bags; it is refused if the table is full.
pub(crate) fn safe(s: File, full: bool, c: Cursor) -> Result<Contents, Fault>
    ensures { result ≡ safe_head_at s.entry.bytes.now full c }
{
    let whole = c.expect(s.bytes, der::SEQUENCE)?;
    if full {
        return Err(Fault {
            number: der::TOO_MANY,
            offset: c.at,
        });
    }
    let id = whole.body.identifier(s.bytes)?;
    safe_value(s, id.body, whole.body.at, id.next, whole.next)
}

// Whether safe contents end their OCTET STRING, and that its [0], and that its ContentInfo.
pub(crate) fn closed(body: Cursor, string: Cursor, content: Cursor) -> Result<Checked, Fault>
    ensures { result ≡ closed_at body string content }
{
    body.finish()?;
    both(string, content)
}
