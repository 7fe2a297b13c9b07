// Reads bytes and numbers at an offset of a caller's bytes, past their end as 0.
ghost use Rattle.std.specs.Prelude.{◌≡◌};
ghost use Rattle.buffer.specs.BigEndian.{byte_at, u16_at, u32_at};

// The byte at an offset, 0 past the end.
pub fn byte(bytes: &[u8], at: usize) -> u8
    ensures { result ≡ byte_at bytes.now at }
{
    bytes.get(at).copied().unwrap_or(0)
}

// The two bytes at an offset as a number, high first. A byte past the end counts as 0.
pub fn u16_be(bytes: &[u8], at: usize) -> u16
    ensures { result ≡ u16_at bytes.now at }
{
    if bytes.len() <= at {
        return 0;
    }
    u16::from_be_bytes([byte(bytes, at), byte(bytes, at + 1)])
}

// The four bytes at an offset as a number, high first. A byte past the end counts as 0.
pub fn u32_be(bytes: &[u8], at: usize) -> u32
    ensures { result ≡ u32_at bytes.now at }
{
    if bytes.len() <= at {
        return 0;
    }
    u32::from_be_bytes([
        byte(bytes, at),
        byte(bytes, at + 1),
        byte(bytes, at + 2),
        byte(bytes, at + 3),
    ])
}
