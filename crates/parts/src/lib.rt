// What is read at a cursor and makes no row: algorithms, ciphertexts, and the values of bags. Each
// function returns the ranges of what is at the cursor with the number of its elements, or the
// first fault. Bytes that are longer than a file are refused (9).
#![tactic(auto)]

ghost use Rattle.std.specs.Prelude.{◌≡◌};
ghost use Rattle.der.specs.Element.{fault};
ghost use Rattle.der.specs.Span.{Bytes};
ghost use Rattle.buffer.specs.Numbers.{too_long};
ghost use Rattle.pkcs12.specs.Report.{parts_report};
ghost use Rattle.pkcs12.specs.Walk.{algorithm_at, sealed_at, key_at, typed_at, encrypted_at};
ghost use Rattle.parts.specs.InFile.{in_file};

mod file;
mod read;

use der::{Cursor, Fault};
pub use file::File;
use pkcs12::{Parsed, Parts};

fn too_long() -> Result<Parsed<Parts>, Fault>
    ensures { result ≡ Err (fault too_long 0) }
{
    Err(Fault {
        number: buffer::TOO_LONG,
        offset: 0,
    })
}

// An AlgorithmIdentifier.
pub fn algorithm(s: &[u8], c: Cursor) -> Result<Parsed<Parts>, Fault>
    ensures value { result ≡ in_file s.now (algorithm_at s.now c) }
    ensures report { parts_report result ≡ parts_report (in_file s.now (algorithm_at s.now c)) }
    ensures bytes { Bytes s.now }
{
    let Some(file) = File::new(s) else {
        return too_long();
    };
    read::algorithm(file, c)
}

// An algorithm with the octets that it made: a shrouded key, a digest.
pub fn sealed(s: &[u8], c: Cursor) -> Result<Parsed<Parts>, Fault>
    ensures value { result ≡ in_file s.now (sealed_at s.now c) }
    ensures report { parts_report result ≡ parts_report (in_file s.now (sealed_at s.now c)) }
    ensures bytes { Bytes s.now }
{
    let Some(file) = File::new(s) else {
        return too_long();
    };
    read::sealed(file, c)
}

// An opaque SEQUENCE: the value of a key bag.
pub fn key(s: &[u8], c: Cursor) -> Result<Parsed<Parts>, Fault>
    ensures value { result ≡ in_file s.now (key_at s.now c) }
    ensures report { parts_report result ≡ parts_report (in_file s.now (key_at s.now c)) }
    ensures bytes { Bytes s.now }
{
    let Some(file) = File::new(s) else {
        return too_long();
    };
    read::key(file, c)
}

// A type and its value: the value of a certificate, CRL or secret bag.
pub fn typed(certificate: bool, s: &[u8], c: Cursor) -> Result<Parsed<Parts>, Fault>
    ensures value { result ≡ in_file s.now (typed_at certificate s.now c) }
    ensures report { parts_report result ≡ parts_report (in_file s.now (typed_at certificate s.now c)) }
    ensures bytes { Bytes s.now }
{
    let Some(file) = File::new(s) else {
        return too_long();
    };
    read::typed(certificate, file, c)
}

// The EncryptedData of an encrypted safe.
pub fn encrypted(s: &[u8], c: Cursor) -> Result<Parsed<Parts>, Fault>
    ensures value { result ≡ in_file s.now (encrypted_at s.now c) }
    ensures report { parts_report result ≡ parts_report (in_file s.now (encrypted_at s.now c)) }
    ensures bytes { Bytes s.now }
{
    let Some(file) = File::new(s) else {
        return too_long();
    };
    read::encrypted(file, c)
}
