// The reader of a plan line: a step, nothing, or the line's refusal.
#![tactic(auto)]

pub mod known;
pub mod reading;
pub mod steps;
