// What an instant does to a state: the meaning of a happening, of the conditions that span actions, and of the goal. Definitions, laws and worked
// examples over the trees of the domain; the code that follows them stands in the crates after this one.
#![tactic(auto)]

// A number, or what there is where a number is not.
#[derive(Clone, Copy, PartialEq, Eq)]
pub enum Value {
    Number(i64),
    Undefined,
    Range,
}

// Whether a condition holds, or why that can't be said.
#[derive(Clone, Copy, PartialEq, Eq)]
pub enum Truth {
    Holds,
    Fails,
    Undefined,
    Range,
}

// What an effect writes: a fact, added (true) or deleted; or a number, assigned (true) or raised or lowered.
#[derive(Clone, Copy, PartialEq, Eq)]
pub enum Mark {
    Nothing,
    Fact(bool, usize),
    Number(bool, usize),
}

// All is well so far; or the first failure, with its line, for a conflict with both.
#[derive(Clone, Copy, PartialEq, Eq)]
pub enum Outcome {
    Done,
    Duration(usize),
    Condition(usize),
    Undefined(usize),
    Range(usize),
    Itself(usize),
    Conflict(usize, usize),
    Invariant(usize),
    Goal,
}
