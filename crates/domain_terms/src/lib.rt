// Arguments, references and expressions of domain and problem: read by the tables of what is declared, and written as cells.
#![tactic(auto)]

pub mod arguments;
pub mod scope;
