// One line of a listing, or a part of one.
ghost use Rattle.listing.specs.Lines.{safe_text, safe_line, kind_text, enclosing_text, parts_text, set_text};
ghost use Rattle.listing.specs.Lines.{bag_start, bag_line, attribute_line, file_line, counts_line, mac_line};
ghost use Rattle.buffer.specs.Wrote.{Wrote};

use crate::out;
use buffer::write::Out;
use pkcs12::{AttributeRow, BagKind, BagRow, Mac, Parts, SafeKind, SafeRow};
use range::Range;

fn safe_kind(out: &mut Out, kind: SafeKind, p: Parts)
    ensures { Wrote out.old (safe_text kind p) out.new }
{
    match kind {
        SafeKind::None => out.bytes(b": none"),
        SafeKind::Plain => out.bytes(b": plain"),
        SafeKind::Encrypted => {
            out.bytes(b": encrypted");
            out::sealed(out, p);
        }
    }
}

pub(crate) fn safe_line(out: &mut Out, i: usize, row: SafeRow)
    ensures { Wrote out.old (safe_line i row) out.new }
{
    text::number(out, b"safe ", i);
    safe_kind(out, row.kind, row.parts);
    out.bytes(b"\n");
}

fn bag_kind(out: &mut Out, kind: BagKind)
    ensures { Wrote out.old (kind_text kind) out.new }
{
    match kind {
        BagKind::None => out.bytes(b": none"),
        BagKind::Key => out.bytes(b": key"),
        BagKind::ShroudedKey => out.bytes(b": shrouded key"),
        BagKind::Certificate => out.bytes(b": certificate"),
        BagKind::Crl => out.bytes(b": crl"),
        BagKind::Secret => out.bytes(b": secret"),
        BagKind::Nested => out.bytes(b": nested"),
    }
}

fn enclosing(out: &mut Out, e: Option<u16>)
    ensures { Wrote out.old (enclosing_text e) out.new }
{
    match e {
        None => out.bytes(b", in none"),
        Some(n) => text::number(out, b", in bag ", n as usize),
    }
}

// The ranges that a bag of this kind has.
fn bag_parts(out: &mut Out, kind: BagKind, p: Parts)
    ensures { Wrote out.old (parts_text kind p) out.new }
{
    match kind {
        BagKind::None | BagKind::Nested => {}
        BagKind::Key => out::range(out, b", key ", p.value),
        BagKind::ShroudedKey => out::sealed(out, p),
        BagKind::Certificate | BagKind::Crl | BagKind::Secret => out::typed(out, p),
    }
}

// How many attribute rows name the bag, if it has a set.
fn bag_set(out: &mut Out, has_set: bool, own: usize)
    ensures { Wrote out.old (set_text has_set own) out.new }
{
    if has_set {
        text::number(out, b", attributes ", own);
    } else {
        out.bytes(b", no attributes");
    }
}

// What every bag has.
fn bag_start(out: &mut Out, i: usize, row: BagRow)
    ensures { Wrote out.old (bag_start i row) out.new }
{
    text::number(out, b"bag ", i);
    bag_kind(out, row.kind);
    text::number(out, b", safe ", row.safe as usize);
    enclosing(out, row.enclosing);
}

pub(crate) fn bag_line(out: &mut Out, i: usize, row: BagRow, own: usize)
    ensures { Wrote out.old (bag_line i row own) out.new }
{
    bag_start(out, i, row);
    bag_parts(out, row.kind, row.parts);
    bag_set(out, row.has_set, own);
    out.bytes(b"\n");
}

pub(crate) fn attribute_line(out: &mut Out, i: usize, row: AttributeRow)
    ensures { Wrote out.old (attribute_line i row) out.new }
{
    text::number(out, b"attribute ", i);
    text::number(out, b": bag ", row.bag as usize);
    out::range(out, b", type ", row.identifier);
    out::range(out, b", values ", row.values);
    out.bytes(b"\n");
}

pub(crate) fn file_line(out: &mut Out, size: usize, elements: usize)
    ensures { Wrote out.old (file_line size elements) out.new }
{
    text::number(out, b"pfx ", size);
    text::number(out, b" bytes, ", elements);
    out.bytes(b" elements\n");
}

pub(crate) fn counts_line(out: &mut Out, safes: usize, bags: usize, attributes: usize)
    ensures { Wrote out.old (counts_line safes bags attributes) out.new }
{
    text::number(out, b"safes ", safes);
    text::number(out, b", bags ", bags);
    text::number(out, b", attributes ", attributes);
    out.bytes(b"\n");
}

pub(crate) fn mac_line(out: &mut Out, input: Range, mac: Mac)
    ensures { Wrote out.old (mac_line input mac) out.new }
{
    out::range(out, b"mac input ", input);
    out::range(out, b", digest ", mac.parts.value);
    out::range(out, b", salt ", mac.salt);
    text::number(out, b", iterations ", mac.iterations as usize);
    out.bytes(b"\n");
}
