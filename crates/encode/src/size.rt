// Sizes of what is written, without writing it. A size past that of the longest file is returned
// as `PAST`, so that no sum can wrap.
ghost use Rattle.std.specs.Prelude.{◌≡◌, ◌+◌, length};
ghost use Rattle.der.specs.Octets.{integer_octets};
ghost use Rattle.encode.specs.Sizes.{capped, element_size};

pub const PAST: usize = 65536;

// Two parts together.
pub fn sum(a: usize, b: usize) -> usize
    ensures { result ≡ capped (a + b) }
{
    a.saturating_add(b).min(PAST)
}

// An element whose body has n bytes.
pub fn element(n: usize) -> usize
    ensures { result ≡ capped (element_size n) }
{
    match n {
        0..=0x7F => n + 2,
        0x80..=0xFF => n + 3,
        _ => sum(n, 4),
    }
}

// The body of the INTEGER n.
pub fn integer(n: u32) -> usize
    ensures { result ≡ length (integer_octets n) }
{
    let wide = n as usize;
    let octets = crate::count(wide);
    if crate::first(wide) < 0x80 {
        octets
    } else {
        octets + 1
    }
}
