// Bytes and words: what a byte is, words compared without case, fixed words, and names in a table.
#![tactic(auto)]

pub mod bytes;
pub mod fixed;
pub mod names;
pub mod spelling;
