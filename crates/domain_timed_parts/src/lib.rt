// The parts of an action's condition and effect, each with its time, and the fields that hold them: read, and written as cells.
#![tactic(auto)]

pub mod bodies;
pub mod fields;
pub mod timed;
pub mod times;
