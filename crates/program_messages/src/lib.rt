// What an answer means, in sentences for a technician, on standard error, and the plan lines that it may name.
#![tactic(auto)]

mod meanings;
pub mod message;
pub mod quotes;
