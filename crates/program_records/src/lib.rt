// Records of the programs that are held beside the second one: read from standard input, answered line by line on standard output.
#![tactic(auto)]

pub mod input;
pub mod listing;
pub mod output;
pub mod state;
