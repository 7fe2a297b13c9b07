// What every crate that reads or writes a caller's bytes shares: bytes and numbers, read at an offset
// and written at one.
#![tactic(auto)]

pub mod read;
pub mod write;

// The bytes of the longest file: offsets in it and its length fit 16 bits.
pub const FILE_BYTES: usize = 65535;

// The numbers of the refusals of calls that write, and of a file or a table that is too long or not
// sound (Rules 5.9 to 5.11).
pub const TOO_LONG: u8 = 9;

pub const SHORT_BUFFER: u8 = 10;

pub const NOT_SOUND: u8 = 11;
