// What a person is shown of a text: where a place lies, and what is quoted on standard error.
#![tactic(auto)]

pub mod location;
pub mod stderr;
