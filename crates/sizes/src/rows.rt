// Rows in the order of a reading: which rows a bag, safe contents and the safes take, and the size
// of what they are written as. The numbers of the next bag row and of the next attribute row are
// kept; a row that doesn't belong at that point isn't taken.
ghost use Rattle.std.specs.Prelude.{◌≡◌, ◌+◌, ◌<◌, eqb, get_or};
ghost use Rattle.pkcs12.specs.Numbers.{bag_rows};
ghost use Rattle.der.specs.Choice.{both};
ghost use Rattle.pkcs12.specs.Table.{no_safe, no_bag};
ghost use Rattle.pkcs12.specs.Values.{same_enclosing};
ghost use Rattle.sizes.specs.Picked.{form_of, set_picked, bag_picked, bags_picked, safe_picked, safes_picked};
ghost use Rattle.sizes.specs.Report.{form_report};
ghost use Rattle.sizes.specs.Sizes.{bag_size, sized_as, one_of, with_safe, present_as, set_sized, one_sized};
ghost use Rattle.sizes.specs.Sizes.{taken_sized, safe_sized, safes_sized};
ghost use Rattle.encode.specs.Sizes.{element_size};

use encode::size;
use pkcs12::{BagKind, BagRow, SafeKind, SafeRow, Table};

// The levels below the safe contents of a plain safe.
pub const BELOW: u8 = pkcs12::LEVELS - 1;

// The attributes that one bag has: the size of them all, that of their set, and the next attribute
// row.
#[derive(Clone, Copy, Debug, PartialEq, Eq)]
pub struct Owned {
    pub body: usize,
    pub size: usize,
    pub next: usize,
}

// Bags that follow one another: their size, and the next bag and attribute rows.
#[derive(Clone, Copy, Debug, PartialEq, Eq)]
pub struct Taken {
    pub size: usize,
    pub bag: usize,
    pub attribute: usize,
}

// Whether a kind of bag holds bags.
#[derive(Clone, Copy, Debug, PartialEq, Eq)]
pub enum Form {
    Leaf,
    Nested,
}

// The safes: their size, and the next safe, bag and attribute rows.
#[derive(Clone, Copy, Debug, PartialEq, Eq)]
pub struct Safes {
    pub size: usize,
    pub safe: usize,
    pub bag: usize,
    pub attribute: usize,
}

// A set that is there, by the size of its attributes.
fn present(body: usize, next: usize) -> Owned
    ensures { result ≡ present_as body next }
{
    let size = size::element(body);
    Owned { body, size, next }
}

// The set of a bag, if it has one; its attributes from an attribute row on.
pub fn set(table: Table, bytes: &[u8], has_set: bool, bag: usize, from: usize) -> Owned
    ensures { result ≡ set_sized (set_picked table bytes.now has_set bag from) }
{
    if !has_set {
        return Owned {
            body: 0,
            size: 0,
            next: from,
        };
    }
    let end = table.attribute_count.min(pkcs12::ATTRIBUTE_ROWS);
    let mut body: usize = 0;
    for next in from..end {
        let row = table.attributes[next];
        if usize::from(row.bag) != bag {
            return present(body, next);
        }
        let one = size::element(crate::attribute(bytes, row));
        body = size::sum(body, one);
    }
    present(body, from.max(end))
}

// Whether a row names this safe and this enclosing bag.
pub fn belongs(row: BagRow, safe: usize, enclosing: Option<u16>) -> bool
    ensures { result ≡ both (eqb row.safe safe) (same_enclosing row.enclosing enclosing) }
{
    usize::from(row.safe) == safe && row.enclosing == enclosing
}

// `None` for the kind of an empty row.
pub fn form_of(kind: BagKind) -> Option<Form>
    ensures value { result ≡ form_of kind }
    ensures report { form_report result ≡ form_report (form_of kind) }
{
    match kind {
        BagKind::None => None,
        BagKind::Nested => Some(Form::Nested),
        _ => Some(Form::Leaf),
    }
}

// One bag, by the size of what is in its [0] and by its set; the bag row behind it is `next`.
fn one_bag(content: usize, owned: Owned, next: usize) -> Taken
    ensures { result ≡ sized_as (element_size (bag_size content owned.size)) next owned.next }
{
    Taken {
        size: size::element(crate::bag(content, owned.size)),
        bag: next,
        attribute: owned.next,
    }
}

// What was taken, and one more behind it.
fn joined(taken: Taken, one: Taken) -> Taken
    ensures { result ≡ sized_as (taken.size + one.size) one.bag one.attribute }
{
    Taken {
        size: size::sum(taken.size, one.size),
        bag: one.bag,
        attribute: one.attribute,
    }
}

// Bag n in a safe, if its row is a bag and a level is left for it, with all that it encloses.
#[cycle(bag_bags)]
fn bag(
    table: Table,
    bytes: &[u8],
    row: BagRow,
    safe: usize,
    n: usize,
    from: usize,
    level: u8,
) -> Option<Taken>
    requires { (n < bag_rows) × (row ≡ get_or table.bags n no_bag) }
    ensures { result ≡ one_sized (bag_picked table bytes.now level safe n from) }
{
    let next = n + 1;
    match form_of(row.kind)? {
        Form::Leaf => {
            let content = crate::content(bytes, row.kind, row.parts);
            let owned = set(table, bytes, row.has_set, n, from);
            Some(one_bag(content, owned, next))
        }
        Form::Nested => {
            let below = level.checked_sub(1)?;
            let inner = bags(table, bytes, safe, Some(n as u16), next, from, below);
            let content = size::element(inner.size);
            let owned = set(table, bytes, row.has_set, n, inner.attribute);
            Some(one_bag(content, owned, inner.bag))
        }
    }
}

// The bags in a safe and an enclosing bag, from a bag row and an attribute row on.
#[cycle(bag_bags)]
pub fn bags(
    table: Table,
    bytes: &[u8],
    safe: usize,
    enclosing: Option<u16>,
    first: usize,
    from: usize,
    level: u8,
) -> Taken
    ensures { result ≡ taken_sized (bags_picked table bytes.now level safe enclosing first from) }
{
    let end = table.bag_count.min(pkcs12::BAG_ROWS);
    let mut taken = Taken {
        size: 0,
        bag: first,
        attribute: from,
    };
    while taken.bag < end {
        let n = taken.bag;
        let row = table.bags[n];
        if !belongs(row, safe, enclosing) {
            return taken;
        }
        let Some(one) = bag(table, bytes, row, safe, n, taken.attribute, level) else {
            return taken;
        };
        taken = joined(taken, one);
    }
    taken
}

// Safe k, if its row is a safe; its bags from a bag row and an attribute row on.
fn safe(
    table: Table,
    bytes: &[u8],
    row: SafeRow,
    k: usize,
    first: usize,
    from: usize,
) -> Option<Taken>
    requires { row ≡ get_or table.safes k no_safe }
    ensures { result ≡ safe_sized (safe_picked table bytes.now k first from) }
{
    match row.kind {
        SafeKind::None => None,
        SafeKind::Plain => {
            let taken = bags(table, bytes, k, None, first, from, BELOW);
            let body = crate::data(taken.size);
            Some(Taken {
                size: size::element(body),
                ..taken
            })
        }
        SafeKind::Encrypted => {
            let content = crate::encrypted_data(bytes, row.parts);
            let info = crate::content_info(size::element(content));
            Some(Taken {
                size: size::element(info),
                bag: first,
                attribute: from,
            })
        }
    }
}

// All safes, from the first row of each kind on.
pub fn all_safes(table: Table, bytes: &[u8]) -> Safes
    ensures { result ≡ safes_sized (safes_picked table bytes.now 0 0 0) }
{
    let end = table.safe_count.min(pkcs12::SAFE_ROWS);
    let mut taken = Taken {
        size: 0,
        bag: 0,
        attribute: 0,
    };
    for k in 0..end {
        let row = table.safes[k];
        let Some(one) = safe(table, bytes, row, k, taken.bag, taken.attribute) else {
            return all(taken, k);
        };
        taken = joined(taken, one);
    }
    all(taken, end)
}

fn all(taken: Taken, safe: usize) -> Safes
    ensures { result ≡ with_safe taken safe }
{
    Safes {
        size: taken.size,
        safe,
        bag: taken.bag,
        attribute: taken.attribute,
    }
}
