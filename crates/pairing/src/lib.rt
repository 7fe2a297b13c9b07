// Pairs keys with certificates by their ids. `pair` works over the caller's own list of identity
// rows; each row is judged by value.
#![tactic(auto)]

ghost use Rattle.std.specs.Prelude.{◌≡◌};
ghost use Rattle.der.specs.Element.{fault};
ghost use Rattle.der.specs.Span.{Bytes};
ghost use Rattle.std.specs.List.{list_all};
ghost use Rattle.pairing.specs.Pairs.{is_key, is_certificate, id_lies, same_id, pairs_with, matching};
ghost use Rattle.pairing.specs.Pairs.{only_one, paired};
ghost use Rattle.pairing.specs.Report.{paired_report};

use der::Fault;
use pkcs12::BagKind;
use range::Range;

// The numbers of the refusals that only pairing reports.
pub const NO_CERTIFICATE: u8 = 13;

pub const MORE_CERTIFICATES: u8 = 14;

// What pairing goes by: a bag's kind, whether it has an id, and the id's range in the caller's
// bytes.
#[derive(Clone, Copy)]
pub struct IdentityRow {
    pub kind: BagKind,
    pub has_id: bool,
    pub id: Range,
}

impl IdentityRow {
    pub const EMPTY: IdentityRow = IdentityRow {
        kind: BagKind::None,
        has_id: false,
        id: Range::EMPTY,
    };
}

// Whether a kind is a key's: 01 and 02.
pub fn is_key(kind: BagKind) -> bool
    ensures { result ≡ is_key kind }
{
    matches!(kind, BagKind::Key | BagKind::ShroudedKey)
}

fn is_certificate(kind: BagKind) -> bool
    ensures { result ≡ is_certificate kind }
{
    matches!(kind, BagKind::Certificate)
}

// Whether an id that is there lies in the bytes.
fn id_lies(bytes: &[u8], row: IdentityRow) -> bool
    ensures { result ≡ id_lies bytes.now row }
{
    !row.has_id || row.id.lies(bytes)
}

// Whether every id lies in the bytes.
fn ids_lie(rows: &[IdentityRow], bytes: &[u8]) -> bool
    ensures { result ≡ list_all (id_lies bytes.now) rows.now }
{
    rows.iter().all(|row| id_lies(bytes, *row))
}

// Whether both have an id, and the same one.
fn same_id(bytes: &[u8], key: IdentityRow, row: IdentityRow) -> bool
    ensures { result ≡ same_id bytes.now key row }
{
    key.has_id && row.has_id && range::same(key.id.part(bytes), row.id.part(bytes))
}

// Whether a row is a certificate's with the key's id.
fn pairs_with(bytes: &[u8], key: IdentityRow, row: IdentityRow) -> bool
    ensures { result ≡ pairs_with bytes.now key row }
{
    is_certificate(row.kind) && same_id(bytes, key, row)
}

// A refusal, at offset 0.
fn refused(number: u8) -> Fault
    ensures { result ≡ fault number 0 }
{
    Fault { number, offset: 0 }
}

// The only certificate row with the key's id.
fn only_match(rows: &[IdentityRow], bytes: &[u8], key: IdentityRow) -> Result<usize, Fault>
    ensures { result ≡ only_one (matching bytes.now key 0 rows.now) }
{
    let mut found = None;
    for (i, row) in rows.iter().enumerate() {
        if pairs_with(bytes, key, *row) {
            if found.is_some() {
                return Err(refused(MORE_CERTIFICATES));
            }
            found = Some(i);
        }
    }
    found.ok_or(refused(NO_CERTIFICATE))
}

// The only certificate row with the id of the key in row `key`.
pub fn pair(rows: &[IdentityRow], bytes: &[u8], key: usize) -> Result<usize, Fault>
    ensures value { result ≡ paired bytes.now rows.now key }
    ensures report { paired_report result ≡ paired_report (paired bytes.now rows.now key) }
    ensures bytes { Bytes bytes.now }
{
    let row = rows.get(key).copied().unwrap_or(IdentityRow::EMPTY);
    if !ids_lie(rows, bytes) {
        return Err(refused(buffer::NOT_SOUND));
    }
    if !is_key(row.kind) {
        return Err(refused(pkcs12::NO_ROW));
    }
    only_match(rows, bytes, row)
}

// The same of as many rows as a table has bags, by value.
pub fn pair_all(
    rows: [IdentityRow; pkcs12::BAG_ROWS],
    bytes: &[u8],
    key: usize,
) -> Result<usize, Fault>
    ensures value { result ≡ paired bytes.now rows key }
    ensures report { paired_report result ≡ paired_report (paired bytes.now rows key) }
    ensures bytes { Bytes bytes.now }
{
    pair(&rows, bytes, key)
}
