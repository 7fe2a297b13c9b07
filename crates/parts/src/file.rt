// The bytes of a file, whose length was tested: what reads them relies on it.
ghost use Rattle.std.specs.Prelude.{◌≡◌, ◌≤◌, ◌<◌, ◌↔◌, length, IsNone, IfSome};
ghost use Rattle.buffer.specs.Numbers.{file_bytes};

// The bytes of a file: no more than the longest file has, so that offsets in them fit 16 bits.
#[derive(Clone, Copy)]
pub struct File<'a> {
    pub bytes: &'a [u8],
    pub ghost fits: { length bytes.now ≤ file_bytes },
}

impl<'a> File<'a> {
    // The file of these bytes, or none if there are more.
    pub fn new(bytes: &'a [u8]) -> Option<File<'a>>
        ensures none { IsNone result ↔ (file_bytes < length bytes.now) }
        ensures same { IfSome result (λ f. f.bytes.now ≡ bytes.now) }
    {
        if buffer::FILE_BYTES < bytes.len() {
            return None;
        }
        Some(File { bytes })
    }
}
