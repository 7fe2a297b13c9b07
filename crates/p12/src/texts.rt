// The calls on text: the bytes that a text wraps, and the text of bytes.
ghost use Rattle.std.specs.Prelude.{◌≡◌};
ghost use Rattle.der.specs.Span.{Bytes};
ghost use Rattle.p12.specs.Calls.{import_call, import_offset, export_call};

// The bytes that a text wraps, into a buffer.
#[unsafe(no_mangle)]
pub extern "C" fn p12_import(
    text: &[u8],
    out: &mut [u8],
    written: &mut usize,
    offset: &mut usize,
) -> u8
    ensures value { result ≡ (import_call text.now out.old).number }
    ensures out_after { out.new ≡ (import_call text.now out.old).memory }
    ensures written_after { written.new ≡ (import_call text.now out.old).value }
    ensures offset_after { offset.new ≡ import_offset text.now out.old }
    ensures bytes { Bytes text.now }
{
    let imported = pem::import(text, out);
    *written = crate::length_of(imported);
    *offset = crate::offset_of(imported);
    crate::number_of(imported)
}

// The text of bytes, into a buffer. Its refusals are all at 0.
#[unsafe(no_mangle)]
pub extern "C" fn p12_export(bytes: &[u8], out: &mut [u8], written: &mut usize) -> u8
    ensures value { result ≡ (export_call bytes.now out.old).number }
    ensures out_after { out.new ≡ (export_call bytes.now out.old).memory }
    ensures written_after { written.new ≡ (export_call bytes.now out.old).value }
    ensures bytes { Bytes bytes.now }
{
    let exported = pem::export(bytes, out);
    *written = crate::length_of(exported);
    crate::number_of(exported)
}
