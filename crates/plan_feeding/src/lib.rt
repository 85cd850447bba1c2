// A plan that is fed: its lines, as they end, and its end.
#![tactic(auto)]

pub mod stepping;

use plan_running::Past;

// What is kept of a plan beside the state, the points that wait and the bytes of the line.
#[derive(Clone, Copy, PartialEq, Eq)]
pub struct PlanProgress {
    // how many bytes the line has so far, and its number
    pub used: usize,
    pub number: usize,
    // the last step's start
    pub start: usize,
    pub past: Past,
    // whether the plan is refused; the refusal's number, line and column
    pub refused: bool,
    pub refusal: u8,
    pub at: usize,
    pub column: usize,
}
