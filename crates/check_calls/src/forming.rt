// "Well formed": the test of a check's numbers; and what is kept of a check between calls.
ghost use Rattle.std.specs.Prelude.{◌≡◌, cond, not, ◌&&◌, ◌≤◌, eqb, length, take};
ghost use Rattle.domain_meaning.specs.Indexes.{padded};
ghost use Rattle.plan_feeding.specs.Feeding.{refused_in, counted};
ghost use Rattle.check_calls.specs.Calls.{counters_fit, sizes_fit, formed, ready, settled, check_for, refused_from, ended_from};

use crate::{Check, listing};
use domain_load::{Loaded, Model, Sizes};
use domain_terms::scope::Counts;
use happening_meaning::Outcome;
use plan_feeding::PlanProgress;
use plan_running::Past;
use plan_waiting::Queue;

// The last line that can have so many bytes.
fn most_lines(used: usize) -> usize
    ensures { result ≡ cond (eqb used 0) 1000001 1000000 }
{
    if used == 0 {
        return 1000001;
    }
    1000000
}

fn counters_fit(p: PlanProgress) -> bool
    ensures { result ≡ counters_fit p }
{
    if 0 < p.number {
        if p.number <= most_lines(p.used) {
            if p.used <= 256 {
                return p.start < 1000000000000;
            }
        }
    }
    false
}

fn sizes_fit(counts: Counts, acting: usize, sizes: Sizes) -> bool
    ensures { result ≡ sizes_fit counts acting sizes.facts sizes.numbers }
{
    if counts.types <= 17 {
        if counts.objects <= 64 {
            if acting <= 32 {
                if sizes.facts <= 16384 {
                    return sizes.numbers <= 1024;
                }
            }
        }
    }
    false
}

// Whether a check is well formed.
pub fn is_formed(p: PlanProgress, counts: Counts, acting: usize, sizes: Sizes, queue: Queue) -> bool
    ensures { result ≡ formed p counts acting sizes.facts sizes.numbers queue }
{
    if counters_fit(p) {
        if listing::answers_fit(p) {
            if sizes_fit(counts, acting, sizes) {
                if queue.count <= 64 {
                    return plan_waiting::slots_fit(queue, acting);
                }
            }
        }
    }
    false
}

// Before the first byte of line `number`.
fn begin(number: usize) -> PlanProgress
    ensures { result ≡ ready number }
{
    PlanProgress {
        used: 0,
        number,
        start: 0,
        past: Past {
            outcome: Outcome::Done,
            time: 0,
        },
        refused: false,
        refusal: 0,
        at: 0,
        column: 0,
    }
}

// No refusal, and zeros for its place.
pub fn settle(p: PlanProgress) -> PlanProgress
    ensures { result ≡ settled p }
{
    PlanProgress {
        refused: false,
        refusal: 0,
        at: 0,
        column: 0,
        ..p
    }
}

// A line of another length.
pub fn lengthen(p: PlanProgress, used: usize) -> PlanProgress
    ensures { result ≡ settled (counted p p.number used) }
{
    settle(PlanProgress { used, ..p })
}

// Whether a part only makes the line longer: the check can be fed, and all of the part was added.
pub fn is_plain(formed: bool, finished: bool, whole: bool) -> bool
    ensures { result ≡ (formed && not finished && whole) }
{
    if formed {
        if !finished {
            return whole;
        }
    }
    false
}

// The bytes of the line in use, and zeros.
pub fn tidy_line(line: &[u8], used: usize) -> [u8; 257]
    requires { (used ≤ 256) × (length line.now ≡ 257) }
    ensures { result ≡ padded 257 (take used line.now) }
{
    let mut out = [0u8; 257];
    let mut i = 0;
    while i < used {
        out[i] = line[i];
        i += 1;
    }
    out
}

// The check before a plan, at line `number`: 0 for a refused load, which 19 refuses.
pub fn check_for(loaded: Loaded, number: usize) -> Check
    ensures { result ≡ check_for loaded number }
{
    let model = loaded.model;
    let facts = loaded.facts;
    let numbers = loaded.numbers;
    Check {
        model,
        facts,
        numbers,
        queue: plan_waiting::nobody(),
        line: [0u8; 257],
        progress: begin(number),
        finished: false,
    }
}

// The check of a refused plan: nothing of the run is kept.
pub fn refused_check(model: Model, p: PlanProgress, finished: bool) -> Check
    ensures { result ≡ refused_from model (refused_in p) finished }
{
    Check {
        model,
        facts: [0u8; 16384],
        numbers: [-1000000000001i64; 1024],
        queue: plan_waiting::nobody(),
        line: [0u8; 257],
        progress: PlanProgress {
            used: 0,
            number: 1,
            start: 0,
            past: Past {
                outcome: Outcome::Done,
                time: 0,
            },
            refused: true,
            refusal: p.refusal,
            at: p.at,
            column: p.column,
        },
        finished,
    }
}

// The progress of a plan that has ended: what came of it.
pub fn end(past: Past) -> PlanProgress
    ensures { result ≡ ended_from past }
{
    PlanProgress {
        used: 0,
        number: 1,
        start: 0,
        past,
        refused: false,
        refusal: 0,
        at: 0,
        column: 0,
    }
}
