// The points that wait, by line number: "the points of all lines so far whose time is not below that line's start".
#![tactic(auto)]

pub mod lent;

ghost use Rattle.std.specs.Prelude.{◌≡◌, [], ◌≤◌, length};
ghost use Rattle.plan_meaning.specs.Plan.{points_of};
ghost use Rattle.plan_meaning.specs.Stored.{step_in};
ghost use Rattle.plan_meaning.specs.Listed.{listed_line};
ghost use Rattle.plan_waiting.specs.Waiting.{used, queue_of, sound_step, listed_step, step_fits, slots_fit};

use plan_meaning::{Slot, Step};

#[derive(Clone, Copy, PartialEq, Eq)]
pub struct Queue {
    pub slots: [Slot; 64],
    pub count: usize,
}

// How many points a step has: "A durative line gives two points, .. a simple line one."
#[tactic(auto, using(crate::proofs::Points::one_point, crate::proofs::Points::two_points))]
pub fn points_of(x: Step) -> usize
    ensures { result ≡ length (points_of (step_in x)) }
{
    if x.duration == 0 {
        return 1;
    }
    2
}

// A queue in which no point waits.
#[tactic(auto, using(crate::proofs::Places::zero_slot), unfolding(crate::specs::Waiting::queue_of))]
pub fn nobody() -> Queue
    ensures { result ≡ queue_of [] }
{
    Queue {
        slots: [Slot::default(); 64],
        count: 0,
    }
}

// The same points, with zeros in the places that none has: two queues in which the same points wait become one.
pub fn tidy(q: Queue) -> Queue
    requires { q.count ≤ 64 }
    ensures { result ≡ queue_of (used q) }
{
    let mut tidied = q;
    tidied.slots[q.count..].fill(Slot::default());
    tidied
}

// Whether a step's times are those of a plan line and its action is one of n.
#[tactic(auto, unfolding(crate::specs::Waiting::sound_step))]
fn sound_step(x: Step, n: usize) -> bool
    ensures { result ≡ sound_step n x }
{
    x.action < n && x.start < 1000000000000 && x.duration < 1000000000000
}

// Whether it is the number of a plan's line.
#[tactic(auto, unfolding(plan_meaning::specs::Listed::listed_line))]
pub fn is_line(l: usize) -> bool
    ensures { result ≡ listed_line l }
{
    1 <= l && l <= 1000000
}

// Whether a step's line is one of a plan, of at most 256 bytes.
#[tactic(auto, unfolding(crate::specs::Waiting::listed_step))]
fn listed_step(x: Step) -> bool
    ensures { result ≡ listed_step x }
{
    is_line(x.line) && x.width <= 256
}

fn step_fits(x: Step, n: usize) -> bool
    ensures { result ≡ step_fits n x }
{
    sound_step(x, n) && listed_step(x)
}

// Whether all of the points are so.
pub fn slots_fit(q: Queue, n: usize) -> bool
    requires { q.count ≤ 64 }
    ensures { result ≡ slots_fit n (used q) }
{
    q.slots[..q.count].iter().all(|s| step_fits(s.step, n))
}
