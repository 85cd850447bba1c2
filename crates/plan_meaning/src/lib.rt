// What a plan means, over the whole plan at once, and the machine that is fed it in parts: definitions, laws, and how steps lie in numbers. No code.
#![tactic(auto)]

// A step of a plan. Its duration is 0 if its action is simple; of its four objects those past its action's parameters are 0. `width` is its line's length.
#[derive(Clone, Copy, PartialEq, Eq, Default)]
pub struct Step {
    pub line: usize,
    pub start: usize,
    pub duration: usize,
    pub action: usize,
    pub a: u8,
    pub b: u8,
    pub c: u8,
    pub d: u8,
    pub width: usize,
}

// A point of a step: its end, or else its start.
#[derive(Clone, Copy, PartialEq, Eq, Default)]
pub struct Slot {
    pub step: Step,
    pub ends: bool,
}

// What a line says: nothing, a step, or a refusal with its number and its place from 0.
#[derive(Clone, Copy)]
pub enum Line {
    Blank,
    Read(Step),
    Refused(u8, usize),
}
