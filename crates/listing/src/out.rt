// Ranges into a caller's buffer, at an offset, which moves behind them, as those of `text`
// do.
ghost use Rattle.listing.specs.Lines.{range_text, sealed_text, typed_text};
ghost use Rattle.buffer.specs.Wrote.{Wrote};

use buffer::write::Out;
use pkcs12::Parts;
use range::Range;

// A name and a range.
pub(crate) fn range(out: &mut Out, name: &[u8], r: Range)
    ensures { Wrote out.old (range_text name.now r) out.new }
{
    text::number(out, name, r.start as usize);
    text::number(out, b"..", r.end as usize);
}

// What an encrypted safe and a shrouded key hold.
pub(crate) fn sealed(out: &mut Out, p: Parts)
    ensures { Wrote out.old (sealed_text p) out.new }
{
    range(out, b", algorithm ", p.identifier);
    range(out, b", parameters ", p.parameters);
    range(out, b", ciphertext ", p.value);
}

// What a certificate, a CRL and a secret hold.
pub(crate) fn typed(out: &mut Out, p: Parts)
    ensures { Wrote out.old (typed_text p) out.new }
{
    range(out, b", type ", p.identifier);
    range(out, b", value ", p.value);
}
