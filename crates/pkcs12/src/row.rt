// The rows of a table.
use crate::kind::{BagKind, SafeKind};
use range::Range;

// The ranges of a safe, a bag or the MAC, by what its kind has. An AlgorithmIdentifier has an
// identifier and parameters, and a certificate, CRL or secret the identifier of its type; the value
// is a ciphertext, a digest, a key, or what the type names. What a kind doesn't have is 0..0.
#[derive(Clone, Copy)]
pub struct Parts {
    pub identifier: Range,
    pub parameters: Range,
    pub value: Range,
}

#[derive(Clone, Copy)]
pub struct SafeRow {
    pub kind: SafeKind,
    pub parts: Parts,
}

#[derive(Clone, Copy)]
pub struct BagRow {
    pub kind: BagKind,
    pub safe: u16,
    // the enclosing bag's row
    pub enclosing: Option<u16>,
    pub parts: Parts,
    // whether the bag has a set of attributes
    pub has_set: bool,
}

#[derive(Clone, Copy)]
pub struct AttributeRow {
    pub bag: u16,
    pub identifier: Range,
    // the body of the SET
    pub values: Range,
}

// The digest's algorithm and the digest, in `parts`; the salt; the iterations, which are 1 where
// none are written.
#[derive(Clone, Copy)]
pub struct Mac {
    pub parts: Parts,
    pub salt: Range,
    pub iterations: u32,
}

impl Parts {
    pub const EMPTY: Parts = Parts {
        identifier: Range::EMPTY,
        parameters: Range::EMPTY,
        value: Range::EMPTY,
    };
}

impl SafeRow {
    pub const EMPTY: SafeRow = SafeRow {
        kind: SafeKind::None,
        parts: Parts::EMPTY,
    };
}

impl BagRow {
    pub const EMPTY: BagRow = BagRow {
        kind: BagKind::None,
        safe: 0,
        enclosing: None,
        parts: Parts::EMPTY,
        has_set: false,
    };
}

impl AttributeRow {
    pub const EMPTY: AttributeRow = AttributeRow {
        bag: 0,
        identifier: Range::EMPTY,
        values: Range::EMPTY,
    };
}

impl Mac {
    pub const EMPTY: Mac = Mac {
        parts: Parts::EMPTY,
        salt: Range::EMPTY,
        iterations: 0,
    };
}
