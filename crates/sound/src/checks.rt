// The rules that a sound table keeps, but for the order of its rows: counts, ranges, and what the
// ranges hold.
ghost use Rattle.std.specs.Prelude.{◌≡◌, ◌≤◌};
ghost use Rattle.pkcs12.specs.Numbers.{safe_rows, bag_rows, attribute_rows};
ghost use Rattle.pkcs12.specs.Checks.{all, counts_fit, names_type, one_opaque, all_opaque, holds_opaque, holds_all};
ghost use Rattle.pkcs12.specs.Checks.{holds_at_most_one, has_tag, holds_tagged, is_sealed, is_typed, is_certificate};
ghost use Rattle.pkcs12.specs.Checks.{safe_test, bag_test, attribute_test, mac_test, keeps_rules};
ghost use Rattle.range.specs.Range.{lies};
ghost use Rattle.pkcs12.specs.Table.{rows_in};

use der::Cursor;
use pkcs12::{AttributeRow, BagKind, BagRow, Mac, Parts, SafeKind, SafeRow, Table};
use range::Range;

// One above the greatest number of iterations.
const ITERATIONS_END: u32 = 2147483648;

fn counts_fit(table: Table) -> bool
    ensures { result ≡ counts_fit table }
{
    table.safe_count <= pkcs12::SAFE_ROWS
        && table.bag_count <= pkcs12::BAG_ROWS
        && table.attribute_count <= pkcs12::ATTRIBUTE_ROWS
}

// Whether it holds an identifier's body.
fn names_type(bytes: &[u8], range: Range) -> bool
    ensures { result ≡ names_type bytes.now range }
{
    range.lies(bytes) && der::names_type(range.part(bytes))
}

// Whether bytes are one opaque element and nothing more.
fn one_opaque(x: &[u8]) -> bool
    ensures { result ≡ one_opaque x.now }
{
    match Cursor::over(x).opaque(x, der::OPAQUE_LEVELS) {
        Ok(found) => found.next.end <= found.next.at,
        Err(_) => false,
    }
}

// Whether bytes are zero or more opaque elements.
fn all_opaque(x: &[u8]) -> bool
    ensures { result ≡ all_opaque x.now }
{
    Cursor::over(x).elements(x, der::OPAQUE_LEVELS).is_ok()
}

fn holds_opaque(bytes: &[u8], range: Range) -> bool
    ensures { result ≡ holds_opaque bytes.now range }
{
    range.lies(bytes) && one_opaque(range.part(bytes))
}

fn holds_all(bytes: &[u8], range: Range) -> bool
    ensures { result ≡ holds_all bytes.now range }
{
    range.lies(bytes) && all_opaque(range.part(bytes))
}

fn holds_at_most_one(bytes: &[u8], range: Range) -> bool
    ensures { result ≡ holds_at_most_one bytes.now range }
{
    if !range.lies(bytes) {
        return false;
    }
    let x = range.part(bytes);
    x.is_empty() || one_opaque(x)
}

// Whether the first byte that it holds is this tag; a range that holds none has the tag 0.
fn has_tag(bytes: &[u8], range: Range, tag: u8) -> bool
    ensures { result ≡ has_tag bytes.now range tag }
{
    range.part(bytes).first().copied().unwrap_or(0) == tag
}

fn holds_tagged(bytes: &[u8], range: Range, tag: u8) -> bool
    ensures { result ≡ holds_tagged bytes.now range tag }
{
    holds_opaque(bytes, range) && has_tag(bytes, range, tag)
}

// An algorithm and the bytes that it made.
fn is_sealed(bytes: &[u8], parts: Parts) -> bool
    ensures { result ≡ is_sealed bytes.now parts }
{
    names_type(bytes, parts.identifier)
        && holds_at_most_one(bytes, parts.parameters)
        && parts.value.lies(bytes)
}

// A type and the element that it names.
fn is_typed(bytes: &[u8], parts: Parts) -> bool
    ensures { result ≡ is_typed bytes.now parts }
{
    names_type(bytes, parts.identifier) && holds_opaque(bytes, parts.value)
}

// An X.509 certificate is in an OCTET STRING (Rule 3.19).
fn is_certificate(bytes: &[u8], parts: Parts) -> bool
    ensures { result ≡ is_certificate bytes.now parts }
{
    if !is_typed(bytes, parts) {
        return false;
    }
    if range::same(parts.identifier.part(bytes), &pkcs12::X509_CERTIFICATE) {
        return has_tag(bytes, parts.value, der::OCTET_STRING);
    }
    true
}

fn safe_test(bytes: &[u8], row: SafeRow) -> bool
    ensures { result ≡ safe_test bytes.now row }
{
    match row.kind {
        SafeKind::None => false,
        SafeKind::Plain => true,
        SafeKind::Encrypted => is_sealed(bytes, row.parts),
    }
}

fn bag_test(bytes: &[u8], row: BagRow) -> bool
    ensures { result ≡ bag_test bytes.now row }
{
    let parts = row.parts;
    match row.kind {
        BagKind::None => false,
        BagKind::Key => holds_tagged(bytes, parts.value, der::SEQUENCE),
        BagKind::ShroudedKey => is_sealed(bytes, parts),
        BagKind::Certificate => is_certificate(bytes, parts),
        BagKind::Crl | BagKind::Secret => is_typed(bytes, parts),
        BagKind::Nested => true,
    }
}

fn attribute_test(bytes: &[u8], row: AttributeRow) -> bool
    ensures { result ≡ attribute_test bytes.now row }
{
    names_type(bytes, row.identifier) && holds_all(bytes, row.values)
}

fn mac_test(bytes: &[u8], mac: Mac) -> bool
    ensures { result ≡ mac_test bytes.now mac }
{
    is_sealed(bytes, mac.parts)
        && mac.salt.lies(bytes)
        && (1..ITERATIONS_END).contains(&mac.iterations)
}

fn safes_test(bytes: &[u8], table: Table) -> bool
    requires { table.safe_count ≤ safe_rows }
    ensures { result ≡ all (safe_test bytes.now) (rows_in table).safes }
{
    table.safes[..table.safe_count]
        .iter()
        .all(|row| safe_test(bytes, *row))
}

fn bags_test(bytes: &[u8], table: Table) -> bool
    requires { table.bag_count ≤ bag_rows }
    ensures { result ≡ all (bag_test bytes.now) (rows_in table).bags }
{
    table.bags[..table.bag_count]
        .iter()
        .all(|row| bag_test(bytes, *row))
}

fn attributes_test(bytes: &[u8], table: Table) -> bool
    requires { table.attribute_count ≤ attribute_rows }
    ensures { result ≡ all (attribute_test bytes.now) (rows_in table).attributes }
{
    table.attributes[..table.attribute_count]
        .iter()
        .all(|row| attribute_test(bytes, *row))
}

// All the rules but for the order of the rows.
pub(crate) fn rules(table: Table, bytes: &[u8]) -> bool
    ensures { result ≡ keeps_rules table bytes.now }
{
    if !counts_fit(table) {
        return false;
    }
    safes_test(bytes, table)
        && bags_test(bytes, table)
        && attributes_test(bytes, table)
        && mac_test(bytes, table.mac)
}
