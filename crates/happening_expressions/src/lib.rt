// Expressions in the rows: their value in a state, where they end, whether they read a number, and the mask of all that they read.
#![tactic(auto)]

pub mod ends;
mod literals;
pub mod masks;
pub mod reads;
pub mod values;
