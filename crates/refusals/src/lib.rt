// Refusals of files, defined a second time (specs/), and theorems about them (proofs/). There is
// no code here. The numbers of the refusals that reading returns are 1 to this one.
#![tactic(auto)]

pub const LAST_NUMBER: u8 = 9;
