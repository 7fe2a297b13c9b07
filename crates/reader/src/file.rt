// The file from outside: the PFX with its version and its ContentInfo, down to the
// AuthenticatedSafe; and the MAC behind it.
ghost use Rattle.std.specs.Prelude.{◌≡◌, ◌≤◌, ◌+◌, length};
ghost use Rattle.der.specs.Content.{bytes_of};
ghost use Rattle.buffer.specs.Numbers.{file_bytes};
ghost use Rattle.pkcs12.specs.Walk.{iterations_at, mac_at};
ghost use Rattle.reader.specs.Steps.{pfx_head_at, opened_safes_at, opened_value_at, opened_info_at, open_at, stated_at};
ghost use Rattle.reader.specs.Steps.{salted_at, last_at, close_at};

use crate::safes;
use der::{Cursor, Fault};
use parts::File;
use pkcs12::{Mac, Parsed, Parts};
use range::Range;

// The cursors at the outer ContentInfo and past the PFX.
#[derive(Clone, Copy)]
struct Outer {
    body: Cursor,
    next: Cursor,
}

// The AuthenticatedSafe's body, in the MAC input; what is left behind it, behind the OCTET STRING
// and behind [0]; the MAC; and what is left of the file behind the PFX.
#[derive(Clone, Copy)]
pub(crate) struct Opened {
    pub(crate) input: Cursor,
    pub(crate) body: Cursor,
    pub(crate) safes: Cursor,
    pub(crate) string: Cursor,
    pub(crate) content: Cursor,
    pub(crate) mac: Cursor,
    pub(crate) file: Cursor,
}

fn pfx(s: &[u8], c: Cursor) -> Result<Outer, Fault>
    ensures { result ≡ pfx_head_at s.now c }
{
    let whole = c.expect(s, der::SEQUENCE)?;
    let version = whole.body.integer(s)?;
    if version.value == pkcs12::PFX_VERSION {
        return Ok(Outer {
            body: version.next,
            next: whole.next,
        });
    }
    Err(Fault {
        number: der::CONTENT,
        offset: whole.body.at,
    })
}

fn opened_safes(s: &[u8], c: Cursor, mac: Cursor, file: Cursor) -> Result<Opened, Fault>
    ensures { result ≡ opened_safes_at s.now c mac file }
{
    let octets = safes::data(s, c)?;
    let found = octets.body.expect(s, der::SEQUENCE)?;
    Ok(Opened {
        input: octets.body,
        body: found.body,
        safes: found.next,
        string: octets.string,
        content: octets.content,
        mac,
        file,
    })
}

fn opened_value(
    s: &[u8],
    i: Cursor,
    at: usize,
    c: Cursor,
    mac: Cursor,
    file: Cursor,
) -> Result<Opened, Fault>
    requires { (i.at ≤ i.end) × (i.end ≤ length s.now) }
    ensures { result ≡ opened_value_at s.now (bytes_of s.now i) at c mac file }
{
    if range::named(s, i, &pkcs12::DATA) {
        return opened_safes(s, c, mac, file);
    }
    if range::named(s, i, &pkcs12::SIGNED_DATA) {
        return Err(Fault {
            number: pkcs12::NOT_SERVED,
            offset: at,
        });
    }
    Err(Fault {
        number: der::CONTENT,
        offset: at,
    })
}

fn opened_info(s: &[u8], c: Cursor, file: Cursor) -> Result<Opened, Fault>
    ensures { result ≡ opened_info_at s.now c file }
{
    let whole = c.expect(s, der::SEQUENCE)?;
    let id = whole.body.identifier(s)?;
    opened_value(s, id.body, whole.body.at, id.next, whole.next, file)
}

pub(crate) fn open(s: &[u8], c: Cursor) -> Result<Opened, Fault>
    ensures { result ≡ open_at s.now c }
{
    let outer = pfx(s, c)?;
    opened_info(s, outer.body, outer.next)
}

// The iterations that are written at c.
fn stated(
    s: &[u8],
    parts: Parts,
    salt: Range,
    count: usize,
    c: Cursor,
) -> Result<Parsed<Mac>, Fault>
    requires { count ≤ file_bytes + 2 }
    ensures { result ≡ stated_at s.now parts salt count c }
{
    let found = c.integer(s)?;
    if found.value <= pkcs12::DEFAULT_ITERATIONS {
        return Err(Fault {
            number: der::CONTENT,
            offset: c.at,
        });
    }
    found.next.finish()?;
    let mac = Mac {
        parts,
        salt,
        iterations: found.value,
    };
    Ok(Parsed {
        value: mac,
        count: count + 1,
        next: found.next,
    })
}

fn iterations(
    s: &[u8],
    parts: Parts,
    salt: Range,
    count: usize,
    c: Cursor,
) -> Result<Parsed<Mac>, Fault>
    requires { count ≤ file_bytes + 2 }
    ensures { result ≡ iterations_at s.now parts salt count c }
{
    if c.tag(s) == der::INTEGER {
        return stated(s, parts, salt, count, c);
    }
    c.finish()?;
    let mac = Mac {
        parts,
        salt,
        iterations: pkcs12::DEFAULT_ITERATIONS,
    };
    Ok(Parsed {
        value: mac,
        count,
        next: c,
    })
}

fn salted(s: File, parts: Parts, count: usize, m: Cursor, n: Cursor) -> Result<Parsed<Mac>, Fault>
    requires { count ≤ file_bytes }
    ensures { result ≡ salted_at s.entry.bytes.now parts count m n }
{
    let octets = m.octet_string(s.bytes)?;
    let salt = Range::of(octets.body);
    let found = iterations(s.bytes, parts, salt, count + 2, octets.next)?;
    Ok(Parsed {
        value: found.value,
        count: found.count,
        next: n,
    })
}

fn mac(s: File, c: Cursor) -> Result<Parsed<Mac>, Fault>
    ensures { result ≡ mac_at s.entry.bytes.now c }
{
    let whole = c.expect(s.bytes, der::SEQUENCE)?;
    let digest = parts::sealed(s.bytes, whole.body)?;
    salted(s, digest.value, digest.count, digest.next, whole.next)
}

fn last(s: File, c: Cursor, file: Cursor) -> Result<Parsed<Mac>, Fault>
    ensures { result ≡ last_at s.entry.bytes.now c file }
{
    if c.end <= c.at {
        return Err(Fault {
            number: pkcs12::NOT_SERVED,
            offset: c.end,
        });
    }
    let found = mac(s, c)?;
    safes::both(found.next, file)?;
    Ok(found)
}

// What follows the safes of an opened file: they end what they are in, and the MAC is behind them.
pub(crate) fn close(s: File, o: Opened) -> Result<Parsed<Mac>, Fault>
    ensures { result ≡ close_at s.entry.bytes.now o.safes o.string o.content o.mac o.file }
{
    safes::closed(o.safes, o.string, o.content)?;
    last(s, o.mac, o.file)
}
