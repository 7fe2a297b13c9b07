// Stores parts of rows, and zeros, at an offset of a memory that has room for them.
ghost use Rattle.std.specs.Prelude.{[], ◌∷◌, ◌+◌, ◌-◌, ◌≤◌, ◌<◌, length, replicate};
ghost use Rattle.words.specs.Layout.{range_width, parts_width};
ghost use Rattle.words.specs.Stored.{range_words, parts_words};
ghost use Rattle.words.specs.Steps.{StoredAt};

use pkcs12::Parts;
use range::Range;

pub(crate) fn word(memory: &mut [u16], at: usize, w: u16)
    requires { at < length memory.old }
    ensures { StoredAt memory.old at (w ∷ []) memory.new }
{
    memory[at] = w;
}

pub(crate) fn range(memory: &mut [u16], at: usize, range: Range)
    requires { at + range_width ≤ length memory.old }
    ensures { StoredAt memory.old at (range_words range) memory.new }
{
    word(memory, at, range.start);
    word(memory, at + 1, range.end);
}

pub(crate) fn parts(memory: &mut [u16], at: usize, parts: Parts)
    requires { at + parts_width ≤ length memory.old }
    ensures { StoredAt memory.old at (parts_words parts) memory.new }
{
    range(memory, at, parts.identifier);
    range(memory, at + crate::RANGE_WIDTH, parts.parameters);
    range(memory, at + 2 * crate::RANGE_WIDTH, parts.value);
}

// The word 0 from one offset up to another.
pub(crate) fn zeros(memory: &mut [u16], from: usize, to: usize)
    requires { (from ≤ to) × (to ≤ length memory.old) }
    ensures { StoredAt memory.old from (replicate (to - from) 0) memory.new }
{
    memory[from..to].fill(0);
}
