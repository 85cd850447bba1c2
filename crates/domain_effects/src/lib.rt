// Effects of actions, read by the tables of what is declared, and written as cells.
#![tactic(auto)]

pub mod heads;
pub mod singles;
pub mod trees;
