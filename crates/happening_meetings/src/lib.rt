// Step 3 of a happening: interference (RULES 11, step 3; Fox and Long, Definition 12). Each point leaves marks at the cells that it reads and writes, so
// that it is known without pairs whether something meets; pairs are gone through in order only then.
#![tactic(auto)]

pub mod clearing;
pub mod pairs;
pub mod points;
pub mod walks;
