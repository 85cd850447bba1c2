// Lists of declared names: typed lists, and predicates and functions with their typed variables.
#![tactic(auto)]

pub mod declarations;
pub mod items;
pub mod typed;
pub mod types;
