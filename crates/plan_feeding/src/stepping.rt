// A line that has ended, and the plan's end: `take_line` on what the call works on, `end_plan` lays it out.
ghost use Rattle.std.specs.Prelude.{◌≡◌, true, false, ℕ, ◌≤◌, ◌<◌, length, take};
ghost use Rattle.domain_meaning.specs.Tables.{Table};
ghost use Rattle.domain_meaning.specs.Conditions.{Cond};
ghost use Rattle.domain_prepared_meaning.specs.Decode.{goal_at};
ghost use Rattle.domain_stored_meaning.specs.Entries.{signed_in};
ghost use Rattle.happening_state.specs.States.{state_in};
ghost use Rattle.happening_meaning.specs.State.{State};
ghost use Rattle.plan_meaning.specs.Machine as M;
ghost use Rattle.plan_meaning.specs.Machine.{drain, drained, waits, finish};
ghost use Rattle.plan_meaning.specs.Plan as P;
ghost use Rattle.plan_meaning.specs.Feed.{reading, close};
ghost use Rattle.plan_meaning.specs.Stored.{step_in};
ghost use Rattle.plan_meaning.specs.Lines.{reader, limits};
ghost use Rattle.plan_waiting.specs.Waiting.{waiting, sound_step, Sound, Timed, TimedStep};
ghost use Rattle.plan_running.specs.Running.{run_in, rules_in, queue_held, Rowed, IsPoised};
ghost use Rattle.plan_lines.specs.Knowing.{Tabled, Headed, known_in};
ghost use Rattle.plan_feeding.specs.Feeding.{refused_in, check_in, closed_in, refusing, going, Fit};

use crate::PlanProgress;
use domain_terms::scope::Counts;
use plan_lines::steps;
use plan_meaning::{Line, Step};
use plan_running::{Past, Workspace};
use plan_waiting::{Queue, lent};

// The line that is read is refused.
pub fn refuse(p: PlanProgress, k: u8, column: usize) -> PlanProgress
    ensures { result ≡ refusing p k column }
{
    PlanProgress {
        refused: true,
        refusal: k,
        at: p.number,
        column,
        ..p
    }
}

// Another start and another run so far.
fn begun(p: PlanProgress, start: usize, past: Past) -> PlanProgress
    ensures { result ≡ going p start past }
{
    PlanProgress { start, past, ..p }
}

// A step: what waits below its start happens, then its points wait. "18 too many waiting points: line end"
fn take_step(
    work: &mut Workspace,
    rows: &[u8],
    facts: &mut [u8],
    numbers: &mut [i64],
    fresh: &mut [i64],
    p: PlanProgress,
    x: Step,
) -> PlanProgress
    requires { Timed (queue_held work.old) × (p.refused ≡ false) × (x.line ≡ p.number) × (x.start < 1000000000000) × (x.width ≤ 257)
        × Rowed rows.now × IsPoised rows.now work.old facts.old numbers.old fresh.old
        × TimedStep x }
    ensures { ((c : Cond) (es : Table) (s : State) → Sound (length es) (queue_held work.old) → length es ≤ 32
        → check_in (state_in facts.new numbers.new) (queue_held work.new) result
        ≡ drained (rules_in rows.now c es s) limits (step_in x)
        (drain (rules_in rows.now c es s) (length (waiting (queue_held work.old))) x.start
        (run_in p.past (state_in facts.old numbers.old))
        (waiting (queue_held work.old))))
        × ((n : ℕ) → Sound n (queue_held work.old) → sound_step n x ≡ true
        → Sound n (queue_held work.new))
        × (result.used ≡ p.used) × (result.number ≡ p.number) × ((m : ℕ) → p.start < m → x.start < m → result.start < m)
        × IsPoised rows.now work.new facts.new numbers.new fresh.new }
{
    let past = work.drain_below(rows, facts, numbers, fresh, x.start, p.past);
    if 64 < work.count + plan_waiting::points_of(x) {
        return refuse(p, 18, x.width + 1);
    }
    work.count = lent::enter(&mut work.words, &mut work.objects, work.count, x);
    begun(p, x.start, past)
}

// The line that has ended, by its bytes, wherever they lie.
pub fn take_line(
    work: &mut Workspace,
    tables: &[u8],
    counts: Counts,
    heads: &[u8],
    acting: usize,
    rows: &[u8],
    facts: &mut [u8],
    numbers: &mut [i64],
    fresh: &mut [i64],
    text: &[u8],
    p: PlanProgress,
) -> PlanProgress
    requires { Tabled tables.now counts × Headed heads.now acting × Fit acting (queue_held work.old) p × (p.refused ≡ false)
        × (length text.now ≤ 256) × Rowed rows.now × IsPoised rows.now work.old facts.old numbers.old fresh.old }
    ensures { ((c : Cond) (s : State)
        → check_in (state_in facts.new numbers.new) (queue_held work.new) result
        ≡ M.take (rules_in rows.now c (signed_in heads.now acting) s) limits
        (check_in (state_in facts.old numbers.old) (queue_held work.old) p)
        ((reader (known_in tables.now counts heads.now acting rows.now)).line p.number
        p.start text.now))
        × Fit acting (queue_held work.new) result × (result.number ≡ p.number)
        × IsPoised rows.now work.new facts.new numbers.new fresh.new }
{
    let l = steps::line_at(text, tables, counts, heads, acting, rows, p.number, p.start);
    match l {
        Line::Blank => p,
        Line::Refused(k, place) => refuse(p, k, place + 1),
        Line::Read(x) => take_step(work, rows, facts, numbers, fresh, p, x),
    }
}

// The refusal of a line that is too long, by its first 257 bytes: "if none of it is refused it is 14".
pub fn refuse_long(
    tables: &[u8],
    counts: Counts,
    heads: &[u8],
    acting: usize,
    rows: &[u8],
    text: &[u8],
    p: PlanProgress,
) -> PlanProgress
    requires { Tabled tables.now counts × Headed heads.now acting × (length text.now ≡ 257) }
    ensures { (refused_in result
        ≡ (reader (known_in tables.now counts heads.now acting rows.now)).long p.number p.start text.now)
        × (result ≡ refusing p result.refusal result.column) }
{
    let l = steps::line_at(text, tables, counts, heads, acting, rows, p.number, p.start);
    match l {
        Line::Blank | Line::Read(_) => refuse(p, 14, 257),
        Line::Refused(k, place) => refuse(p, k, place + 1),
    }
}

// What waits happens, all of it, and the goal is tested.
fn end_run(
    work: &mut Workspace,
    rows: &[u8],
    goal: &[u8],
    facts: &mut [u8],
    numbers: &mut [i64],
    fresh: &mut [i64],
    p: PlanProgress,
) -> Past
    requires { Timed (queue_held work.old) × (p.start < 1000000000000) × Rowed rows.now × IsPoised rows.now work.old facts.old numbers.old fresh.old }
    ensures { (es : Table) (s : State) → Sound (length es) (queue_held work.old) → length es ≤ 32
        → P.ended (run_in result (state_in facts.new numbers.new))
        ≡ finish (rules_in rows.now (goal_at goal.now) es s) limits
        (waits (run_in p.past (state_in facts.old numbers.old)) p.start (waiting (queue_held work.old))) }
{
    let b = 1 + p.start.max(lent::last(&work.words, work.count));
    let past = work.drain_below(rows, facts, numbers, fresh, b, p.past);
    plan_running::judge(goal, facts, numbers, past)
}

// The plan's end: its last line, what waits, and the goal.
pub fn end_plan<'a>(
    tables: &'a [u8],
    counts: Counts,
    heads: &'a [u8],
    acting: usize,
    rows: &'a [u8],
    goal: &'a [u8],
    facts: &mut [u8],
    numbers: &mut [i64],
    fresh: &mut [i64],
    line: &'a [u8],
    queue: Queue,
    p: PlanProgress,
) -> PlanProgress
    requires { Tabled tables.now counts × Headed heads.now acting × Fit acting queue p × (p.refused ≡ false) × (length line.now ≡ 257)
        × Rowed rows.now × (fresh.old ≡ numbers.old) }
    ensures { (s : State)
        → closed_in (state_in facts.new numbers.new) result
        ≡ close (rules_in rows.now (goal_at goal.now) (signed_in heads.now acting) s) limits
        (reader (known_in tables.now counts heads.now acting rows.now))
        (reading (check_in (state_in facts.old numbers.old) queue p) p.number (take p.used line.now)) }
{
    let mut work = Workspace::new(queue);
    let text = &line[..p.used];
    let last = take_line(
        &mut work, tables, counts, heads, acting, rows, facts, numbers, fresh, text, p,
    );
    if last.refused {
        return last;
    }
    let past = end_run(&mut work, rows, goal, facts, numbers, fresh, last);
    begun(last, last.start, past)
}
