// Safes, safe contents, bags and their attributes, front to back, by the rows of the table. The
// sizes of a level are computed before it is written.
ghost use Rattle.std.specs.Prelude.{◌≡◌, ◌<◌, length, get_or, Some};
ghost use Rattle.pkcs12.specs.Numbers.{bag_rows};
ghost use Rattle.pkcs12.specs.Encode.{safes_bytes, encode};
ghost use Rattle.pkcs12.specs.Table.{no_safe, no_bag};
ghost use Rattle.sizes.specs.Picked.{form_of, set_picked, bag_picked, bags_picked, safe_picked, safes_picked};
ghost use Rattle.sizes.specs.Sizes.{set_body};
ghost use Rattle.encode.specs.Sizes.{capped};
ghost use Rattle.sizes.specs.declared.rows.Form.{Form};
ghost use Rattle.writer.specs.Rows.{SetPut, RowsPut, leaf_part, one_part, bags_part, safe_part, reading_at};
ghost use Rattle.writer.specs.Rows.{is_empty_safe};
ghost use Rattle.writer.specs.Wrote.{WroteShort};

use crate::parts;
use buffer::write::Out;
use encode::{size, write};
use pkcs12::{BagRow, SafeKind, SafeRow, Table};
use sizes::rows::Form;

// The next bag and attribute rows.
#[derive(Clone, Copy, Debug, PartialEq, Eq)]
pub(crate) struct RowsEnd {
    pub(crate) bag: usize,
    pub(crate) attribute: usize,
}

// The set of a bag, if it has one, by the size of its attributes; the next attribute row is
// returned.
fn set(
    out: &mut Out,
    table: Table,
    bytes: &[u8],
    has_set: bool,
    bag: usize,
    from: usize,
    body: usize,
) -> usize
    requires { body ≡ capped (length (set_body (set_picked table bytes.now has_set bag from).set)) }
    ensures { SetPut out.old (set_picked table bytes.now has_set bag from) out.new result }
{
    if !has_set {
        return from;
    }
    let end = table.attribute_count.min(pkcs12::ATTRIBUTE_ROWS);
    write::header(out, der::SET, body);
    for next in from..end {
        let row = table.attributes[next];
        if usize::from(row.bag) != bag {
            return next;
        }
        parts::attribute(out, bytes, row);
    }
    from.max(end)
}

// Bag n, which holds no bags.
fn leaf(out: &mut Out, table: Table, bytes: &[u8], row: BagRow, n: usize, from: usize) -> RowsEnd
    requires { (n < bag_rows) × (form_of row.kind ≡ Some Form.Leaf) }
    ensures { RowsPut out.old (leaf_part table bytes.now row n from) out.new result }
{
    let content = sizes::content(bytes, row.kind, row.parts);
    let owned = sizes::rows::set(table, bytes, row.has_set, n, from);
    parts::bag_head(out, row.kind, content, owned.size);
    parts::content(out, bytes, row.kind, row.parts);
    let next = set(out, table, bytes, row.has_set, n, from, owned.body);
    RowsEnd {
        bag: n + 1,
        attribute: next,
    }
}

// Bag n in a safe, with all that it encloses. Where the row is no bag, or no level is left for it,
// nothing is written.
#[cycle(bag_bags)]
fn bag(
    out: &mut Out,
    table: Table,
    bytes: &[u8],
    row: BagRow,
    safe: usize,
    n: usize,
    from: usize,
    level: u8,
) -> RowsEnd
    requires { (n < bag_rows) × (row ≡ get_or table.bags n no_bag) }
    ensures { RowsPut out.old (one_part (bag_picked table bytes.now level safe n from) n from) out.new result }
{
    let nothing = RowsEnd {
        bag: n,
        attribute: from,
    };
    match sizes::rows::form_of(row.kind) {
        None => nothing,
        Some(Form::Leaf) => leaf(out, table, bytes, row, n, from),
        Some(Form::Nested) => {
            let Some(below) = level.checked_sub(1) else {
                return nothing;
            };
            let number = Some(n as u16);
            let next = n + 1;
            let inner = sizes::rows::bags(table, bytes, safe, number, next, from, below);
            let owned = sizes::rows::set(table, bytes, row.has_set, n, inner.attribute);
            parts::bag_head(out, row.kind, size::element(inner.size), owned.size);
            write::header(out, der::SEQUENCE, inner.size);
            let all = bags(out, table, bytes, safe, number, next, from, below);
            let end = set(out, table, bytes, row.has_set, n, all.attribute, owned.body);
            RowsEnd {
                bag: all.bag,
                attribute: end,
            }
        }
    }
}

// The bags in a safe and an enclosing bag, from a bag row and an attribute row on.
#[cycle(bag_bags)]
fn bags(
    out: &mut Out,
    table: Table,
    bytes: &[u8],
    safe: usize,
    enclosing: Option<u16>,
    first: usize,
    from: usize,
    level: u8,
) -> RowsEnd
    ensures { RowsPut out.old (bags_part (bags_picked table bytes.now level safe enclosing first from)) out.new result }
{
    let end = table.bag_count.min(pkcs12::BAG_ROWS);
    let mut so_far = RowsEnd {
        bag: first,
        attribute: from,
    };
    while so_far.bag < end {
        let n = so_far.bag;
        let row = table.bags[n];
        if !sizes::rows::belongs(row, safe, enclosing) {
            return so_far;
        }
        so_far = bag(out, table, bytes, row, safe, n, so_far.attribute, level);
        if so_far.bag <= n {
            return so_far;
        }
    }
    so_far
}

fn is_empty_safe(kind: SafeKind) -> bool
    ensures { result ≡ is_empty_safe kind }
{
    matches!(kind, SafeKind::None)
}

// Safe k; its bags from a bag row and an attribute row on.
fn safe(
    out: &mut Out,
    table: Table,
    bytes: &[u8],
    row: SafeRow,
    k: usize,
    first: usize,
    from: usize,
) -> RowsEnd
    requires { row ≡ get_or table.safes k no_safe }
    ensures { RowsPut out.old (safe_part (safe_picked table bytes.now k first from) first from) out.new result }
{
    let nothing = RowsEnd {
        bag: first,
        attribute: from,
    };
    match row.kind {
        SafeKind::None => nothing,
        SafeKind::Plain => {
            let inner = sizes::rows::bags(table, bytes, k, None, first, from, sizes::rows::BELOW);
            parts::data_head(out, inner.size);
            bags(out, table, bytes, k, None, first, from, sizes::rows::BELOW)
        }
        SafeKind::Encrypted => {
            parts::encrypted_safe(out, bytes, row.parts);
            nothing
        }
    }
}

// The safes, from the first row of each kind on.
fn safes(out: &mut Out, table: Table, bytes: &[u8])
    ensures { WroteShort out.old (safes_bytes (safes_picked table bytes.now 0 0 0).safes) out.new }
{
    let end = table.safe_count.min(pkcs12::SAFE_ROWS);
    let mut so_far = RowsEnd {
        bag: 0,
        attribute: 0,
    };
    for k in 0..end {
        let row = table.safes[k];
        if is_empty_safe(row.kind) {
            return;
        }
        so_far = safe(out, table, bytes, row, k, so_far.bag, so_far.attribute);
    }
}

// The whole file.
pub(crate) fn file(out: &mut Out, table: Table, bytes: &[u8])
    ensures { WroteShort out.old (encode (reading_at table bytes.now)) out.new }
{
    let all = sizes::rows::all_safes(table, bytes);
    let mac = sizes::mac(bytes, table.mac);
    write::header(out, der::SEQUENCE, sizes::pfx(all.size, mac));
    write::integer(out, pkcs12::PFX_VERSION);
    parts::data_head(out, all.size);
    safes(out, table, bytes);
    parts::mac(out, bytes, table.mac);
}
