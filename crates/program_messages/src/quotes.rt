// The plan lines that the answer may still name, kept as they are read, since standard input can't be read again. A verdict names lines that waited
// when it fell, and at most 64 points wait. So there is room for 64 lines, and for the one that is being read.
use happening_meaning::Outcome;
use plan_feeding::PlanProgress;
use plan_waiting::Queue;
use std::iter::once;
use text_tokens::runs;

// The most bytes that are kept of a line: one more than a plan line may have.
const MOST: usize = 257;

// A line as far as it is kept.
#[derive(Clone, Copy)]
pub struct Line {
    number: usize,
    length: usize,
    bytes: [u8; MOST],
}

impl Line {
    // One byte more.
    fn add(&mut self, b: u8) {
        if self.length < MOST {
            self.bytes[self.length] = b;
            self.length += 1;
        }
    }

    pub fn first(&self, n: usize) -> &[u8] {
        runs::part_of(&self.bytes, 0, n)
    }

    pub fn text(&self) -> &[u8] {
        self.first(self.length)
    }
}

#[derive(Clone, Copy)]
pub struct Lines {
    kept: [Option<Line>; 64],
    // the line that is being read
    last: Line,
}

// The lines that a failure names; a line 0 stands for the goal.
pub fn named(outcome: Outcome) -> [Option<usize>; 2] {
    match outcome {
        Outcome::Done | Outcome::Goal => [None, None],
        Outcome::Duration(l)
        | Outcome::Condition(l)
        | Outcome::Undefined(l)
        | Outcome::Range(l)
        | Outcome::Itself(l)
        | Outcome::Invariant(l) => [Some(l), None],
        Outcome::Conflict(l, m) => [Some(l), Some(m)],
    }
}

// The first line from `from` on that is to be kept after a part: that of a refusal, one of the first failure, or else one that waits.
fn first_wanted(progress: &PlanProgress, queue: &Queue, from: usize) -> Option<usize> {
    if progress.refused {
        return Some(progress.at).filter(|line| from <= *line);
    }
    match progress.past.outcome {
        Outcome::Done => queue
            .slots
            .iter()
            .take(queue.count)
            .map(|slot| slot.step.line)
            .filter(|line| from <= *line)
            .min(),
        outcome => named(outcome)
            .into_iter()
            .flatten()
            .filter(|line| from <= *line)
            .min(),
    }
}

impl Lines {
    // Before the first byte, line 1 is being read.
    pub fn new() -> Lines {
        Lines {
            kept: [None; 64],
            last: Line {
                number: 1,
                length: 0,
                bytes: [0; MOST],
            },
        }
    }

    // A line, if it is kept.
    pub fn find(&self, number: usize) -> Option<&Line> {
        self.kept
            .iter()
            .flatten()
            .chain(once(&self.last))
            .find(|line| line.number == number)
    }

    // The line that is being read ends: it is kept if it is wanted, and the next begins.
    fn end_line(&mut self, wanted: bool) {
        if wanted && let Some(i) = self.kept.iter().position(|line| line.is_none()) {
            self.kept[i] = Some(self.last);
        }
        self.last.length = 0;
        // no line past 1,000,001 is ever named
        if self.last.number < 2000000 {
            self.last.number += 1;
        }
    }

    // Makes room: a line that is no more wanted goes.
    fn forget(&mut self, progress: &PlanProgress, queue: &Queue) {
        for line in self.kept.iter_mut() {
            if line.as_ref().is_some_and(|l| first_wanted(progress, queue, l.number)
                != Some(l.number))
            {
                *line = None;
            }
        }
    }

    // Goes over a part that was fed, with what is known after it. Room is made once, before the first line that is kept.
    pub fn keep(&mut self, progress: &PlanProgress, queue: &Queue, part: &[u8]) {
        let mut wanted = first_wanted(progress, queue, self.last.number);
        let mut has_room = false;
        for b in part {
            if *b != b'\n' {
                self.last.add(*b);
                continue;
            }
            let is_wanted = wanted == Some(self.last.number);
            if is_wanted && !has_room {
                self.forget(progress, queue);
                has_room = true;
            }
            self.end_line(is_wanted);
            if is_wanted {
                wanted = first_wanted(progress, queue, self.last.number);
            }
        }
    }
}
