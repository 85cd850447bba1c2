// Single conditions in the rows: one decoder, and what is asked of a list of them: whether they hold, and what they read; and the goal.
#![tactic(auto)]

pub mod goal;
pub mod reads;
pub mod taken;
pub mod truths;
