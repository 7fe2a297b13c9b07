// The identity rows of a table's bags, and the certificate for a key's bag.
#![tactic(auto)]

ghost use Rattle.std.specs.Prelude.{◌≡◌, get_or};
ghost use Rattle.std.specs.List.{find};
ghost use Rattle.der.specs.Element.{fault};
ghost use Rattle.der.specs.Span.{Bytes};
ghost use Rattle.buffer.specs.Report.{written_report};
ghost use Rattle.pkcs12.specs.Table.{no_bag};
ghost use Rattle.attributes.specs.Own.{attributes_of};
ghost use Rattle.pairing.specs.Report.{paired_report};
ghost use Rattle.identities.specs.Identities.{is_local_key, id_in, id_of, identity_of, identity_at};
ghost use Rattle.identities.specs.Identities.{identity_rows, certificate_for};
ghost use Rattle.identities.specs.Report.{identity_report};
ghost use Rattle.identities.specs.Filling.{fill_of};

use der::{Cursor, Fault};
use pairing::IdentityRow;
use pkcs12::{AttributeRow, BagKind, BagRow, Table};
use range::Range;

// The identifier of the attribute that ids are taken from, by its body.
pub const LOCAL_KEY_ID: [u8; 9] = *b"\x2A\x86\x48\x86\xF7\x0D\x01\x09\x15";

// Whether a row is a localKeyID attribute of the bag.
fn is_local_key(bytes: &[u8], bag: usize, row: AttributeRow) -> bool
    ensures { result ≡ is_local_key bytes.now bag row }
{
    row.bag as usize == bag && range::same(row.identifier.part(bytes), &LOCAL_KEY_ID)
}

// The first localKeyID attribute of the bag.
fn key_row(table: Table, bytes: &[u8], bag: usize) -> Option<AttributeRow>
    ensures { result ≡ find (is_local_key bytes.now bag) (attributes_of table) }
{
    table
        .attributes
        .iter()
        .copied()
        .take(table.attribute_count)
        .find(|row| is_local_key(bytes, bag, *row))
}

// The id in an attribute's values: the body of the one element there, an OCTET STRING.
fn id_in(bytes: &[u8], values: Range) -> Option<Range>
    ensures { result ≡ id_in bytes.now values }
{
    let whole = Cursor {
        at: values.start as usize,
        end: values.end as usize,
    };
    let found = whole.octet_string(bytes).ok()?;
    if found.next.at < found.next.end {
        return None;
    }
    Some(Range::of(found.body))
}

// The id of a bag.
fn id_of(table: Table, bytes: &[u8], bag: usize) -> Option<Range>
    ensures { result ≡ id_of table bytes.now bag }
{
    let row = key_row(table, bytes, bag)?;
    id_in(bytes, row.values)
}

// The kind of a bag, `None` where there is no such row.
fn kind_of(table: Table, bag: usize) -> BagKind
    ensures { result ≡ (get_or table.bags bag no_bag).kind }
{
    let row = table.bags.get(bag).copied().unwrap_or(BagRow::EMPTY);
    row.kind
}

// The identity row of a bag.
fn row_of(table: Table, bytes: &[u8], bag: usize) -> IdentityRow
    ensures { result ≡ identity_of table bytes.now bag }
{
    let id = id_of(table, bytes, bag);
    IdentityRow {
        kind: kind_of(table, bag),
        has_id: id.is_some(),
        id: id.unwrap_or(Range::EMPTY),
    }
}

// The identity row of a bag of a table over bytes; refused as opening its attributes is.
pub fn identity_of(table: Table, bytes: &[u8], bag: usize) -> Result<IdentityRow, Fault>
    ensures value { result ≡ identity_at table bytes.now bag }
    ensures report { identity_report result ≡ identity_report (identity_at table bytes.now bag) }
    ensures bytes { Bytes bytes.now }
{
    let position = attributes::opening(table, bytes, bag);
    position.item?;
    Ok(row_of(table, bytes, bag))
}

// The identity rows of all bags; rows past the count are empty.
fn rows_of(table: Table, bytes: &[u8]) -> [IdentityRow; pkcs12::BAG_ROWS]
    ensures { result ≡ identity_rows table bytes.now }
{
    let end = range::fewer(table.bag_count, pkcs12::BAG_ROWS);
    let mut rows = [IdentityRow::EMPTY; pkcs12::BAG_ROWS];
    for i in 0..end {
        rows[i] = row_of(table, bytes, i);
    }
    rows
}

// A refusal, at offset 0.
fn refused(number: u8) -> Fault
    ensures { result ≡ fault number 0 }
{
    Fault { number, offset: 0 }
}

// The certificate for the key in bag row `key` of a table over bytes, by its bag row.
pub fn certificate_for(table: Table, bytes: &[u8], key: usize) -> Result<usize, Fault>
    ensures value { result ≡ certificate_for table bytes.now key }
    ensures report { paired_report result ≡ paired_report (certificate_for table bytes.now key) }
    ensures bytes { Bytes bytes.now }
{
    sound::measure(table, bytes).ok_or(refused(buffer::NOT_SOUND))?;
    pairing::pair_all(rows_of(table, bytes), bytes, key)
}

// Stores the identity rows of all bags at the front of the caller's rows; a refusal stores none.
pub fn fill(table: Table, bytes: &[u8], out: &mut [IdentityRow]) -> Result<usize, Fault>
    ensures value { result ≡ (fill_of table bytes.now out.old).answer }
    ensures report { written_report result ≡ written_report (fill_of table bytes.now out.old).answer }
    ensures out_after { out.new ≡ (fill_of table bytes.now out.old).rows }
    ensures bytes { Bytes bytes.now }
{
    if sound::measure(table, bytes).is_none() {
        return Err(refused(buffer::NOT_SOUND));
    }
    let count = table.bag_count;
    if out.len() < count {
        return Err(refused(buffer::SHORT_BUFFER));
    }
    let rows = rows_of(table, bytes);
    out[..count].copy_from_slice(&rows[..count]);
    Ok(count)
}
