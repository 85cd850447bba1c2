// A plan that is fed: its bytes, part by part.
#![tactic(auto)]

pub mod bytes;

use plan_feeding::PlanProgress;
use plan_waiting::Queue;

// What is kept after a part: the points that wait, and the rest.
#[derive(Clone, Copy, PartialEq, Eq)]
pub struct Taken {
    pub queue: Queue,
    pub progress: PlanProgress,
}
