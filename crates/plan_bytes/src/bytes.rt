// The bytes of a plan, part by part.
ghost use Rattle.std.specs.Prelude.{◌≡◌, false, ◌++◌, ℕ, ◌+◌, ◌≤◌, length, take};
ghost use Rattle.domain_meaning.specs.Conditions.{Cond};
ghost use Rattle.domain_stored_meaning.specs.Entries.{signed_in};
ghost use Rattle.happening_state.specs.States.{state_in};
ghost use Rattle.happening_meaning.specs.State.{State};
ghost use Rattle.happening_meaning.specs.declared.Outcome.{Outcome};
ghost use Rattle.plan_meaning.specs.Plan.{Rules};
ghost use Rattle.plan_meaning.specs.Promised.{Act};
ghost use Rattle.plan_meaning.specs.Machine as M;
ghost use Rattle.plan_meaning.specs.Feed.{feed};
ghost use Rattle.plan_meaning.specs.Lines.{reader, limits};
ghost use Rattle.plan_running.specs.Running.{rules_in, queue_held, Rowed, IsPoised};
ghost use Rattle.plan_lines.specs.Knowing.{Tabled, Headed, known_in};
ghost use Rattle.plan_feeding.specs.Feeding.{check_in, held_in, counted, Fit};
ghost use Rattle.plan_bytes.specs.Ends.{line_end, ends_line};

use crate::Taken;
use domain_terms::scope::Counts;
use plan_feeding::{PlanProgress, stepping};
use plan_running::Workspace;
use plan_waiting::Queue;

// Another line, with so many bytes so far.
fn counting(p: PlanProgress, number: usize, used: usize) -> PlanProgress
    ensures { result ≡ counted p number used }
{
    PlanProgress { used, number, ..p }
}

// Where the line ends: how many bytes stand before the first LF, all where there is none.
pub fn line_end(part: &[u8]) -> usize
    ensures { result ≡ line_end part.now }
{
    for (at, b) in part.iter().enumerate() {
        if *b == b'\n' {
            return at;
        }
    }
    part.len()
}

// Whether a line ends that is to be taken: the plan goes on, an LF is left, and there is room for the bytes before it.
fn ends_line(p: PlanProgress, end: usize, left: usize) -> bool
    requires { p.used ≤ 256 }
    ensures { result ≡ ends_line p end left }
{
    !p.refused && p.number <= 1000000 && end < left && end <= 256 - p.used
}

// The line that ends with the bytes of `text`: it is read where it lies, or from the line so far where it began in an earlier part.
fn take_ended(
    work: &mut Workspace,
    tables: &[u8],
    counts: Counts,
    heads: &[u8],
    acting: usize,
    rows: &[u8],
    facts: &mut [u8],
    numbers: &mut [i64],
    fresh: &mut [i64],
    line: &mut [u8],
    p: PlanProgress,
    text: &[u8],
) -> PlanProgress
    requires { Tabled tables.now counts × Headed heads.now acting × Fit acting (queue_held work.old) p × (p.refused ≡ false)
        × (length line.old ≡ 257) × (p.used + length text.now ≤ 256) × Rowed rows.now
        × IsPoised rows.now work.old facts.old numbers.old fresh.old }
    ensures { ((c : Cond) (s : State)
        → check_in (state_in facts.new numbers.new) (queue_held work.new) result
        ≡ M.take (rules_in rows.now c (signed_in heads.now acting) s) limits
        (check_in (state_in facts.old numbers.old) (queue_held work.old) p)
        ((reader (known_in tables.now counts heads.now acting rows.now)).line p.number p.start
        (take p.used line.old ++ text.now)))
        × Fit acting (queue_held work.new) result × (result.number ≡ p.number)
        × (length line.new ≡ 257)
        × IsPoised rows.now work.new facts.new numbers.new fresh.new }
{
    let used = p.used;
    if used == 0 {
        return stepping::take_line(
            work, tables, counts, heads, acting, rows, facts, numbers, fresh, text, p,
        );
    }
    domain_rows::copy(line, used, text);
    let end = used + text.len();
    stepping::take_line(
        work,
        tables,
        counts,
        heads,
        acting,
        rows,
        facts,
        numbers,
        fresh,
        &line[..end],
        p,
    )
}

// What is left of a part where no line ends that is to be taken: it makes the line longer, or is refused. After a refusal nothing changes any more.
fn take_rest(
    tables: &[u8],
    counts: Counts,
    heads: &[u8],
    acting: usize,
    rows: &[u8],
    line: &mut [u8],
    p: PlanProgress,
    rest: &[u8],
    end: usize,
) -> PlanProgress
    requires { Tabled tables.now counts × Headed heads.now acting × (p.used ≤ 256) × (length line.old ≡ 257) × (end ≡ line_end rest.now)
        × (ends_line p end (length rest.now) ≡ false) }
    ensures { ((R : Rules State Act Outcome) (s : State) (q : Queue)
        → held_in s line.new q result
        ≡ feed R limits (reader (known_in tables.now counts heads.now acting rows.now))
        (held_in s line.old q p) rest.now)
        × ((n : ℕ) (q : Queue) → Fit n q p → Fit n q result) × (length line.new ≡ 257) }
{
    if p.refused {
        return p;
    }
    if rest.len() == 0 {
        return p;
    }
    if 1000000 < p.number {
        return stepping::refuse(p, 15, 1);
    }
    let used = p.used;
    let room = 256 - used;
    if end <= room {
        domain_rows::copy(line, used, rest);
        return counting(p, p.number, used + rest.len());
    }
    let first = room + 1;
    domain_rows::copy(line, used, &rest[..first]);
    let full = counting(p, p.number, 256);
    stepping::refuse_long(tables, counts, heads, acting, rows, line, full)
}

// The bytes of a part, line by line, from LF to LF.
fn take_bytes(
    work: &mut Workspace,
    tables: &[u8],
    counts: Counts,
    heads: &[u8],
    acting: usize,
    rows: &[u8],
    facts: &mut [u8],
    numbers: &mut [i64],
    fresh: &mut [i64],
    line: &mut [u8],
    progress: PlanProgress,
    part: &[u8],
) -> PlanProgress
    requires { Tabled tables.now counts × Headed heads.now acting × Fit acting (queue_held work.old) progress
        × (progress.refused ≡ false) × (length line.old ≡ 257) × Rowed rows.now
        × IsPoised rows.now work.old facts.old numbers.old fresh.old }
    ensures { ((c : Cond) (s : State)
        → held_in (state_in facts.new numbers.new) line.new (queue_held work.new) result
        ≡ feed (rules_in rows.now c (signed_in heads.now acting) s) limits
        (reader (known_in tables.now counts heads.now acting rows.now))
        (held_in (state_in facts.old numbers.old) line.old (queue_held work.old) progress) part.now)
        × Fit acting (queue_held work.new) result × (length line.new ≡ 257) }
{
    let mut p = progress;
    let mut rest = part;
    let mut end = line_end(part);
    while ends_line(p, end, rest.len()) {
        let next = take_ended(
            work,
            tables,
            counts,
            heads,
            acting,
            rows,
            facts,
            numbers,
            fresh,
            line,
            p,
            &rest[..end],
        );
        p = counting(next, next.number + 1, 0);
        rest = &rest[end + 1..];
        end = line_end(rest);
    }
    take_rest(tables, counts, heads, acting, rows, line, p, rest, end)
}

// A part of a plan: the points that wait are laid out for the time of the call.
pub fn take_part<'a>(
    tables: &'a [u8],
    counts: Counts,
    heads: &'a [u8],
    acting: usize,
    rows: &'a [u8],
    facts: &mut [u8],
    numbers: &mut [i64],
    fresh: &mut [i64],
    line: &mut [u8],
    queue: Queue,
    progress: PlanProgress,
    part: &'a [u8],
) -> Taken
    requires { Tabled tables.now counts × Headed heads.now acting × Fit acting queue progress × (progress.refused ≡ false) × (length line.old ≡ 257)
        × Rowed rows.now × (fresh.old ≡ numbers.old) }
    ensures { ((c : Cond) (s : State)
        → held_in (state_in facts.new numbers.new) line.new result.queue result.progress
        ≡ feed (rules_in rows.now c (signed_in heads.now acting) s) limits
        (reader (known_in tables.now counts heads.now acting rows.now))
        (held_in (state_in facts.old numbers.old) line.old queue progress) part.now)
        × Fit acting result.queue result.progress × (length line.new ≡ 257) }
{
    let mut work = Workspace::new(queue);
    let next = take_bytes(
        &mut work, tables, counts, heads, acting, rows, facts, numbers, fresh, line, progress, part,
    );
    Taken {
        queue: work.queue(),
        progress: next,
    }
}
