// The arguments of the program for a technician, and the files that they name.
#![tactic(auto)]

pub mod arguments;
pub mod files;
mod reasons;
