// Step 5 for the lines under way. A line is judged when it has started, and then only after a happening that wrote what it looks at: its watch, the bits of
// all that its `over all` conditions read.
ghost use Rattle.std.specs.Prelude.{◌≡◌, true, cond, ◌&&◌, List, ℕ, ◌≤◌, ◌<◌, eqb, ltb, length, get_or, set};
ghost use Rattle.std.specs.Int.Bits.{bit_and};
ghost use Rattle.happening_meaning.specs.Happening.{spanning, spans};
ghost use Rattle.happening_forms.specs.Summed.{summed};
ghost use Rattle.happening_state.specs.States.{state_in};
ghost use Rattle.happening_steps.specs.Watching.{watching};
ghost use Rattle.plan_waiting.specs.Waiting.{used, Timed};
ghost use Rattle.plan_waiting.specs.Lent.{slot_in, Kept, TimedWord};
ghost use Rattle.plan_running.specs.Running.{queue_held};
ghost use Rattle.plan_running.specs.Lines.{step_on, lines_on, Spares, Spared, Spanned, Judged, Claimed};

use crate::Workspace;
use happening_meaning::Outcome;
use happening_steps::judging;
use plan_waiting::lent;

// Lines that start at b or later count as not judged.
pub fn claim_below(watches: &mut [usize; 65], b: usize)
    requires { length watches.old ≡ 65 }
    ensures { Claimed watches.old watches.new b }
{
    if b < watches[64] {
        watches[64] = b;
    }
}

impl Workspace {
    // Whether the line at place p held before, and nothing that it looks at was written.
    fn is_spared(&self, p: usize, held: usize, written: u64) -> bool
        requires { p < 64 }
        ensures { result ≡ (ltb (slot_in self.now.words self.now.objects p).step.start held
            && eqb (bit_and (get_or self.now.watches p 0) written) 0) }
    {
        lent::start_at(&self.words, p) < held && self.watches[p] as u64 & written == 0
    }

    // What a line that has not been judged before looks at.
    fn watch_new(&mut self, rows: &[u8], p: usize, held: usize)
        requires { (p < 64) × (385 ≤ length rows.now) }
        ensures { self.new ≡ record self.old {
          watches = cond (ltb (slot_in self.old.words self.old.objects p).step.start held) self.old.watches
              (set self.old.watches p (watching summed (step_on rows.now (slot_in self.old.words self.old.objects p).step)));
        } }
    {
        if held <= lent::start_at(&self.words, p) {
            let action = lent::action_at(&self.words, p);
            self.watches[p] = judging::watched(rows, &self.objects, p, action) as usize;
        }
    }

    // The line at place p is judged: its `over all` conditions.
    fn span_at(&self, rows: &[u8], facts: &[u8], numbers: &[i64], p: usize) -> Outcome
        requires { (p < 64) × (385 ≤ length rows.now) }
        ensures { result ≡ spans summed (state_in facts.now numbers.now)
            (step_on rows.now (slot_in self.now.words self.now.objects p).step) }
    {
        let line = lent::line_at(&self.words, p);
        let action = lent::action_at(&self.words, p);
        judging::span(rows, facts, numbers, &self.objects, p, line, action)
    }

    // Step 5 for the line at place p, if it is under way at t: it is judged if it is new, or if it looks at what was written.
    fn judge_place(
        &mut self,
        rows: &[u8],
        facts: &[u8],
        numbers: &[i64],
        p: usize,
        t: usize,
        held: usize,
        written: u64,
    ) -> Outcome
        requires { (p < 64) × (385 ≤ length rows.now) × TimedWord self.old.words p
            × ((slot_in self.old.words self.old.objects p).ends ≡ true → (slot_in self.old.words self.old.objects p).step.start < held
            → Spares rows.now (slot_in self.old.words self.old.objects p) (get_or self.old.watches p 0) written (state_in facts.now numbers.now)) }
        ensures { (self.new ≡ record self.old { watches = self.new.watches })
            × Judged rows.now (slot_in self.old.words self.old.objects p) p t self.old.watches self.new.watches
            (state_in facts.now numbers.now) result }
    {
        if self.is_spared(p, held, written) {
            return Outcome::Done;
        }
        if !lent::is_open(&self.words, p, t) {
            return Outcome::Done;
        }
        self.watch_new(rows, p, held);
        self.span_at(rows, facts, numbers, p)
    }

    // "the `over all` conditions of every durative line" under way at t, "by line number", after a happening that wrote the bits `written`.
    pub fn judge_lines(
        &mut self,
        rows: &[u8],
        facts: &[u8],
        numbers: &[i64],
        t: usize,
        written: u64,
    ) -> Outcome
        requires { Timed (queue_held self.old) × Kept self.old.words self.old.objects self.old.count × (385 ≤ length rows.now)
            × (t < 18446744073709551615)
            × Spared rows.now self.old.words self.old.objects self.old.count self.old.watches written (state_in facts.now numbers.now) }
        ensures { (result ≡ spanning summed (state_in facts.now numbers.now)
            (lines_on rows.now t (used (queue_held self.old))))
            × (self.new ≡ record self.old { watches = self.new.watches })
            × Spanned rows.now self.old.words self.old.objects self.old.count t self.new.watches
            (state_in facts.now numbers.now) }
    {
        let held = self.watches[64];
        for i in 0..self.count {
            let p = lent::place_at(&self.words, i);
            let o = self.judge_place(rows, facts, numbers, p, t, held, written);
            let Outcome::Done = o else {
                self.watches[64] = 0;
                return o;
            };
        }
        self.watches[64] = t + 1;
        Outcome::Done
    }
}
