// Parts of a file that make no row: algorithms, ciphertexts, and the values of bags. Each function
// returns the ranges of what is at the cursor with the number of its elements, or the first fault.
ghost use Rattle.std.specs.Prelude.{false, ◌≡◌, ◌≤◌};
ghost use Rattle.std.specs.Prelude.{if◌then◌else◌};
ghost use Rattle.der.specs.Content.{bytes_of};
ghost use Rattle.buffer.specs.Numbers.{file_bytes};
ghost use Rattle.range.specs.Bytes.{same_bytes};
ghost use Rattle.pkcs12.specs.Identifiers.{x509_certificate};
ghost use Rattle.range.specs.Range.{range};
ghost use Rattle.pkcs12.specs.Walk.{range_of, algorithm_at, sealed_at, key_at, value_at, typed_at, encrypted_info_at};
ghost use Rattle.pkcs12.specs.Walk.{encrypted_at};
ghost use Rattle.parts.specs.Steps.{some_parameters_at, parameters_at, sealed_value_at, typed_value_at};
ghost use Rattle.parts.specs.Steps.{encrypted_parts_at, encrypted_content_at};

use crate::File;
use der::{Checked, Cursor, Fault};
use pkcs12::{DATA, Parsed, Parts, X509_CERTIFICATE};
use range::Range;

// The range a..b.
pub(crate) fn range(a: usize, b: usize) -> Range
    requires { (a ≤ file_bytes) × (b ≤ file_bytes) }
    ensures { result ≡ range a b }
{
    Range {
        start: a as u16,
        end: b as u16,
    }
}

// The range of a body.
pub(crate) fn range_of(c: Cursor) -> Range
    requires { (c.at ≤ file_bytes) × (c.end ≤ file_bytes) }
    ensures { result ≡ range_of c }
{
    range(c.at, c.end)
}

// The parameters that are at m, of an algorithm whose identifier is i; they end its SEQUENCE, and
// n is past it.
fn some_parameters(s: File, i: Cursor, m: Cursor, n: Cursor) -> Result<Parsed<Parts>, Fault>
    requires { (i.at ≤ file_bytes) × (i.end ≤ file_bytes) }
    ensures { result ≡ some_parameters_at s.entry.bytes.now i m n }
{
    let found = m.opaque(s.bytes, der::OPAQUE_LEVELS)?;
    found.next.finish()?;
    let value = Parts {
        identifier: range_of(i),
        parameters: range(m.at, found.next.at),
        value: Range::EMPTY,
    };
    Ok(Parsed {
        value,
        count: found.count + 2,
        next: n,
    })
}

// The parameters of an algorithm whose identifier is i, from m on; its SEQUENCE ends at `stop`.
fn parameters(s: File, i: Cursor, m: Cursor, stop: usize, n: Cursor) -> Result<Parsed<Parts>, Fault>
    requires { (i.at ≤ file_bytes) × (i.end ≤ file_bytes) × (stop ≤ file_bytes) }
    ensures { result ≡ parameters_at s.entry.bytes.now i m stop n }
{
    if m.at < m.end {
        return some_parameters(s, i, m, n);
    }
    let value = Parts {
        identifier: range_of(i),
        parameters: range(stop, stop),
        value: Range::EMPTY,
    };
    Ok(Parsed {
        value,
        count: 2,
        next: n,
    })
}

pub(crate) fn algorithm(s: File, c: Cursor) -> Result<Parsed<Parts>, Fault>
    ensures { result ≡ algorithm_at s.entry.bytes.now c }
{
    let outer = c.expect(s.bytes, der::SEQUENCE)?;
    let name = outer.body.identifier(s.bytes)?;
    parameters(s, name.body, name.next, outer.body.end, outer.next)
}

// The value with this tag behind an algorithm, which ends their SEQUENCE; `count` is of all of
// them, and n is past it.
fn sealed_value(
    s: File,
    tag: u8,
    algorithm: Parts,
    count: usize,
    m: Cursor,
    n: Cursor,
) -> Result<Parsed<Parts>, Fault>
    ensures { result ≡ sealed_value_at tag s.entry.bytes.now algorithm count m n }
{
    let found = m.expect(s.bytes, tag)?;
    found.next.finish()?;
    let value = Parts {
        value: range_of(found.body),
        ..algorithm
    };
    Ok(Parsed {
        value,
        count,
        next: n,
    })
}

// An algorithm with the octets that it made: a shrouded key, a digest.
pub(crate) fn sealed(s: File, c: Cursor) -> Result<Parsed<Parts>, Fault>
    ensures { result ≡ sealed_at s.entry.bytes.now c }
{
    let outer = c.expect(s.bytes, der::SEQUENCE)?;
    let made = algorithm(s, outer.body)?;
    let count = made.count + 2;
    sealed_value(
        s,
        der::OCTET_STRING,
        made.value,
        count,
        made.next,
        outer.next,
    )
}

// The value of a key bag.
pub(crate) fn key(s: File, c: Cursor) -> Result<Parsed<Parts>, Fault>
    ensures { result ≡ key_at s.entry.bytes.now c }
{
    c.expect(s.bytes, der::SEQUENCE)?;
    let found = c.opaque(s.bytes, der::OPAQUE_LEVELS)?;
    let value = Parts {
        identifier: Range::EMPTY,
        parameters: Range::EMPTY,
        value: range(c.at, found.next.at),
    };
    Ok(Parsed {
        value,
        count: found.count,
        next: found.next,
    })
}

// One opaque element, which may have to be an OCTET STRING.
fn value(octets: bool, s: &[u8], c: Cursor) -> Result<Checked, Fault>
    ensures { result ≡ value_at octets s.now c }
{
    if octets {
        c.octet_string(s)?;
    }
    c.opaque(s, der::OPAQUE_LEVELS)
}

// Whether the value of a certificate, CRL or secret of the type with body i has to be an
// OCTET STRING.
fn is_x509(certificate: bool, s: &[u8], i: Cursor) -> bool
    ensures { result ≡ (if certificate then same_bytes (bytes_of s.now i) x509_certificate else false) }
{
    certificate && range::named(s, i, &X509_CERTIFICATE)
}

// The value in [0], with body v, behind the type with body i; e is past [0] and n past the
// SEQUENCE.
fn typed_value(
    octets: bool,
    s: File,
    i: Cursor,
    v: Cursor,
    e: Cursor,
    n: Cursor,
) -> Result<Parsed<Parts>, Fault>
    requires { (i.at ≤ file_bytes) × (i.end ≤ file_bytes) }
    ensures { result ≡ typed_value_at octets s.entry.bytes.now i v e n }
{
    let found = value(octets, s.bytes, v)?;
    found.next.finish()?;
    e.finish()?;
    let value = Parts {
        identifier: range_of(i),
        parameters: Range::EMPTY,
        value: range(v.at, found.next.at),
    };
    Ok(Parsed {
        value,
        count: found.count + 3,
        next: n,
    })
}

// The value of a certificate, CRL or secret bag.
pub(crate) fn typed(certificate: bool, s: File, c: Cursor) -> Result<Parsed<Parts>, Fault>
    ensures { result ≡ typed_at certificate s.entry.bytes.now c }
{
    let outer = c.expect(s.bytes, der::SEQUENCE)?;
    let name = outer.body.identifier(s.bytes)?;
    let wrapped = name.next.expect(s.bytes, der::CONTEXT_0)?;
    let octets = is_x509(certificate, s.bytes, name.body);
    typed_value(octets, s, name.body, wrapped.body, wrapped.next, outer.next)
}

// The algorithm at m and its ciphertext.
fn encrypted_parts(s: File, m: Cursor, n: Cursor) -> Result<Parsed<Parts>, Fault>
    ensures { result ≡ encrypted_parts_at s.entry.bytes.now m n }
{
    let made = algorithm(s, m)?;
    let end = made.next.end;
    if end <= made.next.at {
        return Err(Fault {
            number: pkcs12::NOT_SERVED,
            offset: end,
        });
    }
    let count = made.count + 3;
    sealed_value(s, pkcs12::CIPHERTEXT, made.value, count, made.next, n)
}

// The EncryptedContentInfo of an encrypted safe.
fn encrypted_info(s: File, c: Cursor) -> Result<Parsed<Parts>, Fault>
    ensures { result ≡ encrypted_info_at s.entry.bytes.now c }
{
    let outer = c.expect(s.bytes, der::SEQUENCE)?;
    let name = outer.body.identifier(s.bytes)?;
    if range::named(s.bytes, name.body, &DATA) {
        return encrypted_parts(s, name.next, outer.next);
    }
    Err(Fault {
        number: der::CONTENT,
        offset: outer.body.at,
    })
}

// The EncryptedContentInfo at m, which ends the EncryptedData; n is past it.
fn encrypted_content(s: File, m: Cursor, n: Cursor) -> Result<Parsed<Parts>, Fault>
    ensures { result ≡ encrypted_content_at s.entry.bytes.now m n }
{
    let found = encrypted_info(s, m)?;
    found.next.finish()?;
    Ok(Parsed {
        value: found.value,
        count: found.count + 2,
        next: n,
    })
}

// The EncryptedData of an encrypted safe.
pub(crate) fn encrypted(s: File, c: Cursor) -> Result<Parsed<Parts>, Fault>
    ensures { result ≡ encrypted_at s.entry.bytes.now c }
{
    let outer = c.expect(s.bytes, der::SEQUENCE)?;
    let version = outer.body.integer(s.bytes)?;
    let offset = outer.body.at;
    if version.value == pkcs12::ATTRIBUTED_VERSION {
        return Err(Fault {
            number: pkcs12::NOT_SERVED,
            offset,
        });
    }
    if version.value == pkcs12::ENCRYPTED_VERSION {
        return encrypted_content(s, version.next, outer.next);
    }
    Err(Fault {
        number: der::CONTENT,
        offset,
    })
}
