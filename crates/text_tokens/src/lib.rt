// The tokens of a text: of domain and problem, and of plan lines.
#![tactic(auto)]

pub mod classes;
pub mod numbers;
pub mod runs;
pub mod signs;
pub mod tokens;
