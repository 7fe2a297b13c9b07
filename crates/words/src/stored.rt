// How a row of each kind is stored.
ghost use Rattle.std.specs.Prelude.{◌≡◌, List, ℕ, ◌+◌, ◌≤◌, length, refl};
ghost use Rattle.words.specs.Stored.{safe_words, bag_words, attribute_words};
ghost use Rattle.words.specs.Steps.{StoredAt};

use crate::row::Row;
use crate::{field, number};
use pkcs12::{AttributeRow, BagRow, SafeRow};

// A row that is stored as words.
pub(crate) trait Stored: Row {
    ghost words: { Self → List ℕ };

    // Stores the words of the row at an offset.
    fn put(self, memory: &mut [u16], at: usize)
        requires { at + Self.WIDTH ≤ length memory.old }
        ensures { StoredAt memory.old at (words self) memory.new };

    // Every row has as many words.
    ghost wide: { (x : Self) → length (words x) ≡ Self.WIDTH };
}

impl Stored for SafeRow {
    ghost words = { safe_words };

    ghost wide = { λ x. refl };

    fn put(self, memory: &mut [u16], at: usize) {
        field::word(memory, at, number::safe(self.kind));
        field::parts(memory, at + 1, self.parts);
    }
}

impl Stored for BagRow {
    ghost words = { bag_words };

    ghost wide = { λ x. refl };

    fn put(self, memory: &mut [u16], at: usize) {
        field::word(memory, at, number::bag(self.kind));
        field::word(memory, at + 1, self.safe);
        field::word(memory, at + 2, number::enclosing(self.enclosing));
        field::parts(memory, at + 3, self.parts);
        field::word(
            memory,
            at + 3 + crate::PARTS_WIDTH,
            number::set(self.has_set),
        );
    }
}

impl Stored for AttributeRow {
    ghost words = { attribute_words };

    ghost wide = { λ x. refl };

    fn put(self, memory: &mut [u16], at: usize) {
        field::word(memory, at, self.bag);
        field::range(memory, at + 1, self.identifier);
        field::range(memory, at + 1 + crate::RANGE_WIDTH, self.values);
    }
}
