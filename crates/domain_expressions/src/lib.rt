// Expressions of domain and problem, and references to facts and numbers: read by the tables of what is declared, and written as cells.
#![tactic(auto)]

pub mod heads;
pub mod leaves;
pub mod references;
pub mod trees;
