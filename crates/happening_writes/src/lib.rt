// The effects of a point over prepared rows: what it writes, which effects can't be together, and step 4: new numbers beside the old ones, their
// range, the facts, and making two tables of numbers equal again where it wrote.
#![tactic(auto)]

pub mod clashes;
pub mod facts;
pub mod marks;
pub mod masks;
pub mod numbers;
pub mod rows;
