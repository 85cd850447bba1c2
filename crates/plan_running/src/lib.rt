// What a plan's calls work on, and the happenings of the points that wait there, in the order of their times, up to a time; and the goal.
#![tactic(auto)]

mod layout;
pub mod watching;

ghost use Rattle.std.specs.Prelude.{◌≡◌, ℕ, ◌≤◌, ◌<◌, List, ℤ, length, get_or};
ghost use Rattle.domain_meaning.specs.Tables.{Table};
ghost use Rattle.domain_meaning.specs.Conditions.{Cond};
ghost use Rattle.domain_prepared_meaning.specs.Decode.{goal_at};
ghost use Rattle.happening_meaning.specs.State.{State};
ghost use Rattle.happening_meaning.specs.Happening.{happened};
ghost use Rattle.happening_forms.specs.Summed.{summed};
ghost use Rattle.happening_state.specs.States.{state_in};
ghost use Rattle.happening_steps.specs.Instants.{instant_of};
ghost use Rattle.plan_meaning.specs.Plan.{at, instant, judged};
ghost use Rattle.plan_meaning.specs.Machine.{under_way, drain};
ghost use Rattle.plan_waiting.specs.Waiting.{used, waiting, queue_of, Sound, Timed};
ghost use Rattle.plan_running.specs.Running.{run_in, rules_in, queue_held, Next, Rowed, IsPoised, Settled};
ghost use Rattle.plan_running.specs.Lines.{points_on, lines_on};

use happening_meaning::Outcome;
use happening_steps::applying;
use plan_waiting::{Queue, lent};

// The first failure and its time; or none, and the time of the last happening.
#[derive(Clone, Copy, PartialEq, Eq)]
pub struct Past {
    pub outcome: Outcome,
    pub time: usize,
}

// What a call works on beside the state: the points that wait, as lent numbers. `points` and `whos` are lent for the points of a happening, `marks` to the
// layer of happenings; `watches` has the watch of each place, and at 64 the time below which lines have been judged so far.
#[derive(Drop)]
pub struct Workspace {
    pub words: [usize; 640],
    pub objects: [u8; 256],
    pub count: usize,
    pub points: [usize; 256],
    pub whos: [u8; 256],
    pub marks: [u8; 17408],
    pub watches: [usize; 65],
}

impl Workspace {
    // A queue, laid out for the time of a call.
    pub fn new(queue: Queue) -> Workspace
        requires { Timed queue }
        ensures { (used (queue_held result) ≡ used queue) × (result.count ≡ queue.count)
            × ((rows facts : List ℕ) (numbers fresh : List ℤ) → fresh ≡ numbers → IsPoised rows result facts numbers fresh) }
    {
        let mut work = Workspace {
            words: [0; 640],
            objects: [0; 256],
            count: queue.count,
            points: [0; 256],
            whos: [0; 256],
            marks: [0; 17408],
            watches: [0; 65],
        };
        lent::lend(queue, &mut work.words, &mut work.objects);
        work
    }

    // The points that wait, as a queue again.
    pub fn queue(&self) -> Queue
        requires { self.now.count ≤ 64 }
        ensures { result ≡ queue_of (used (queue_held self.now)) }
    {
        lent::back(&self.words, &self.objects, self.count)
    }

    // The happening at t, at which a point waits: steps 1 to 5.
    fn happen_now(
        &mut self,
        rows: &[u8],
        facts: &mut [u8],
        numbers: &mut [i64],
        fresh: &mut [i64],
        t: usize,
    ) -> Outcome
        requires { Timed (queue_held self.old) × Next (queue_held self.old) t × (t < 18446744073709551615) × Rowed rows.now × IsPoised rows.now self.old facts.old numbers.old fresh.old }
        ensures { (happened result (state_in facts.new numbers.new) ≡ instant_of summed
            (state_in facts.old numbers.old)
            (points_on rows.now t (used (queue_held self.old)))
            (lines_on rows.now t (used (queue_held self.old))))
            × Settled rows.now t self.old self.new facts.new numbers.new fresh.new }
    {
        let n = self.lay_points(t);
        let o = happening_steps::happen(
            rows,
            facts,
            numbers,
            fresh,
            &self.points,
            &self.whos,
            n,
            &mut self.marks,
        );
        let Outcome::Done = o else {
            self.watches[64] = 0;
            return o;
        };
        if n == self.count {
            return Outcome::Done;
        }
        let written = applying::written(rows, &self.points, &self.whos, n);
        self.judge_lines(rows, facts, numbers, t, written)
    }

    // The same after the run so far: after a failure nothing happens any more.
    fn happen_at(
        &mut self,
        rows: &[u8],
        facts: &mut [u8],
        numbers: &mut [i64],
        fresh: &mut [i64],
        t: usize,
        past: Past,
    ) -> Past
        requires { Timed (queue_held self.old) × Next (queue_held self.old) t × (t < 18446744073709551615) × Rowed rows.now × IsPoised rows.now self.old facts.old numbers.old fresh.old }
        ensures { ((c : Cond) (es : Table) (s : State) → Sound (length es) (queue_held self.old)
            → length es ≤ 32 → run_in result (state_in facts.new numbers.new) ≡ instant
            (rules_in rows.now c es s) t
            (at t (waiting (queue_held self.old)))
            (under_way t (waiting (queue_held self.old)))
            (run_in past (state_in facts.old numbers.old)))
            × Settled rows.now t self.old self.new facts.new numbers.new fresh.new }
    {
        let Outcome::Done = past.outcome else {
            return past;
        };
        let outcome = self.happen_now(rows, facts, numbers, fresh, t);
        Past { outcome, time: t }
    }

    // All happenings of waiting points below b.
    pub fn drain_below(
        &mut self,
        rows: &[u8],
        facts: &mut [u8],
        numbers: &mut [i64],
        fresh: &mut [i64],
        b: usize,
        past: Past,
    ) -> Past
        requires { Timed (queue_held self.old) × Rowed rows.now × IsPoised rows.now self.old facts.old numbers.old fresh.old }
        ensures { ((c : Cond) (es : Table) (s : State) → Sound (length es) (queue_held self.old) → length es ≤ 32
            → (run_in result (state_in facts.new numbers.new), waiting (queue_held self.new))
            ≡ drain (rules_in rows.now c es s) (length (waiting (queue_held self.old))) b
            (run_in past (state_in facts.old numbers.old)) (waiting (queue_held self.old)))
            × ((n : ℕ) → Sound n (queue_held self.old) → Sound n (queue_held self.new))
            × (self.new.objects ≡ self.old.objects)
            × IsPoised rows.now self.new facts.new numbers.new fresh.new × (get_or self.new.watches 64 0 ≤ b) }
    {
        let mut p = past;
        let mut t = lent::soonest(&self.words, self.count, b);
        while t < b {
            p = self.happen_at(rows, facts, numbers, fresh, t, p);
            self.count = lent::later(&mut self.words, self.count, t);
            t = lent::soonest(&self.words, self.count, b);
        }
        watching::claim_below(&mut self.watches, b);
        p
    }
}

// "The last state of all meets the goal."
pub fn judge<'a>(goal: &'a [u8], facts: &'a [u8], numbers: &'a [i64], past: Past) -> Past
    ensures { (rows : List ℕ) (es : Table) (s : State)
        → run_in result (state_in facts.now numbers.now) ≡ judged
        (rules_in rows (goal_at goal.now) es s)
        (run_in past (state_in facts.now numbers.now)) }
{
    let Outcome::Done = past.outcome else {
        return past;
    };
    let outcome = happening_steps::reach(goal, facts, numbers);
    Past { outcome, ..past }
}
