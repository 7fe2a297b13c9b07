// Elements, headers and INTEGERs of DER: measured, and written into a caller's buffer.
#![tactic(auto)]

pub mod size;
pub mod write;

ghost use Rattle.std.specs.Prelude.{◌≡◌, length, get_or};
ghost use Rattle.der.specs.Octets.{digits};

// How many digits a number has to the base 256.
pub(crate) fn count(n: usize) -> usize
    ensures { result ≡ length (digits n) }
{
    if n < 256 {
        return 1;
    }
    count(n / 256) + 1
}

// The first of these digits.
pub(crate) fn first(n: usize) -> u8
    ensures { result ≡ get_or (digits n) 0 0 }
{
    if n < 256 {
        return n as u8;
    }
    first(n / 256)
}
