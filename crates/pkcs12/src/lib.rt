// What the reading of a PKCS #12 file is kept in: the table with its rows, by value, and the kinds
// of bag. The rules that a file follows and what is read from it are definitions in specs/, with
// the theorems about them in proofs/.
#![tactic(auto)]

ghost use Rattle.std.specs.Prelude.{◌≡◌};
ghost use Rattle.der.specs.Span.{Bytes};
ghost use Rattle.range.specs.Range.{bytes_in};

pub mod answers;
pub mod identifiers;
pub mod kind;
pub mod row;
pub mod table;

pub use answers::{Parsed, Reading};
pub use identifiers::{DATA, ENCRYPTED_DATA, ENVELOPED_DATA, SIGNED_DATA, X509_CERTIFICATE};
pub use kind::{BagKind, SafeKind};
pub use row::{AttributeRow, BagRow, Mac, Parts, SafeRow};
pub use table::Table;

// The rows of one table (Rule 1.3).
pub const SAFE_ROWS: usize = 16;

pub const BAG_ROWS: usize = 64;

pub const ATTRIBUTE_ROWS: usize = 128;

// The levels of safe contents, of which those of a plain safe are level 1 (Rule 1.4).
pub const LEVELS: u8 = 8;

// The numbers of refusals that several crates report and no lower crate has (Rules 5.7 and 5.12).
pub const NOT_SERVED: u8 = 7;

pub const NO_ROW: u8 = 12;

// The tag of a ciphertext (Rule 3.10).
pub const CIPHERTEXT: u8 = 0x80;

// The versions of a PFX (Rule 3.3) and of EncryptedData (Rule 3.9); that of an EncryptedData with
// attributes, which isn't served (Rule 5.7).
pub const PFX_VERSION: u32 = 3;

pub const ENCRYPTED_VERSION: u32 = 0;

pub const ATTRIBUTED_VERSION: u32 = 2;

// The iterations where none are written (Rule 3.22).
pub const DEFAULT_ITERATIONS: u32 = 1;

// The bytes that the MAC is computed over, that part of the caller's own file; none for a refused
// file's table.
pub fn mac_input(file: &[u8], table: Table) -> &[u8]
    ensures result_value { result.now ≡ bytes_in file.now table.mac_input }
    ensures bytes { Bytes file.now }
{
    let range = table.mac_input;
    range.part(file)
}
