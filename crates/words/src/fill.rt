// Stores the rows of a kind that are counted, one by one.
ghost use Rattle.std.specs.Prelude.{◌≤◌, min, length, get_or};
ghost use Rattle.buffer.specs.Placed.{each};
ghost use Rattle.words.specs.Layout.{table_words};
ghost use Rattle.words.specs.Steps.{StoredAt};

use crate::put;
use crate::stored::Stored;

pub(crate) fn rows<R: Stored, const N: usize>(memory: &mut [u16], rows: [R; N], count: usize)
    requires { (table_words ≤ length memory.old) × (N ≤ R.ROWS) }
    ensures { StoredAt memory.old R.AT
        (each (λ i. R.words (get_or rows i R.EMPTY)) (min count N)) memory.new }
{
    for i in 0..count.min(N) {
        put::row(memory, i, rows[i]);
    }
}
