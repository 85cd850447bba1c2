// The parts of a check, each with one of its numbers set to another.
use domain_load::Model;
use happening_meaning::Outcome;
use plan_feeding::PlanProgress;
use plan_waiting::Queue;

// What is set: a number, or the outcome to a failure in a line or in two.
#[derive(Clone, Copy)]
pub enum Part {
    Number,
    Used,
    Start,
    Actions,
    Types,
    Objects,
    Facts,
    Numbers,
    Waiting,
    Action,
    Begin,
    Duration,
    Line,
    Width,
    Refusal,
    At,
    Column,
    Time,
    Condition,
    Undefined,
    First,
    Second,
}

// The word of each part.
pub const PARTS: [(&[u8], Part); 22] = [
    (b"number", Part::Number),
    (b"used", Part::Used),
    (b"start", Part::Start),
    (b"actions", Part::Actions),
    (b"types", Part::Types),
    (b"objects", Part::Objects),
    (b"facts", Part::Facts),
    (b"numbers", Part::Numbers),
    (b"waiting", Part::Waiting),
    (b"action", Part::Action),
    (b"begin", Part::Begin),
    (b"duration", Part::Duration),
    (b"line", Part::Line),
    (b"width", Part::Width),
    (b"refusal", Part::Refusal),
    (b"at", Part::At),
    (b"column", Part::Column),
    (b"time", Part::Time),
    (b"condition", Part::Condition),
    (b"undefined", Part::Undefined),
    (b"first", Part::First),
    (b"second", Part::Second),
];

pub fn spoil_progress(p: &mut PlanProgress, part: Part, v: usize) {
    match part {
        Part::Number => p.number = v,
        Part::Used => p.used = v,
        Part::Start => p.start = v,
        Part::Refusal => p.refusal = u8::try_from(v).unwrap_or(p.refusal),
        Part::At => p.at = v,
        Part::Column => p.column = v,
        Part::Time => p.past.time = v,
        Part::Condition => p.past.outcome = Outcome::Condition(v),
        Part::Undefined => p.past.outcome = Outcome::Undefined(v),
        Part::First => p.past.outcome = Outcome::Conflict(v, 2),
        Part::Second => p.past.outcome = Outcome::Conflict(1, v),
        _ => {}
    }
}

pub fn spoil_model(m: &mut Model, part: Part, v: usize) {
    match part {
        Part::Actions => m.acting = v,
        Part::Types => m.counts.types = v,
        Part::Objects => m.counts.objects = v,
        Part::Facts => m.sizes.facts = v,
        Part::Numbers => m.sizes.numbers = v,
        _ => {}
    }
}

// How many points wait, or the first one's step.
pub fn spoil_queue(q: &mut Queue, part: Part, v: usize) {
    let step = &mut q.slots[0].step;
    match part {
        Part::Waiting => q.count = v,
        Part::Action => step.action = v,
        Part::Begin => step.start = v,
        Part::Duration => step.duration = v,
        Part::Line => step.line = v,
        Part::Width => step.width = v,
        _ => {}
    }
}
