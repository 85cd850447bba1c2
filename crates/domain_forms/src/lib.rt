// What a row is made of: a reference as its form, a number in its shortest cells, and how cells are read for them.
#![tactic(auto)]

pub mod cells;
pub mod forms;
pub mod numbers;
