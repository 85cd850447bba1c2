// The check of a plan: what the caller holds, and the calls on it. No call asks anything of what it is handed.
#![tactic(auto)]

mod adding;
mod forming;
mod listing;
mod outputs;

ghost use Rattle.std.specs.Prelude.{◌≡◌, true, false};
ghost use Rattle.check_calls.specs.Calls.{well_formed, fed, feed_of, finish_of, result_of, facts_of, numbers_of, open_of, line_of};

use domain_load::{LoadAnswer, Model};
use plan_bytes::bytes;
use plan_feeding::{PlanProgress, stepping};
use plan_waiting::Queue;

#[derive(Clone, Copy, PartialEq, Eq)]
pub struct Check {
    pub model: Model,
    pub facts: [u8; 16384],
    pub numbers: [i64; 1024],
    pub queue: Queue,
    // the bytes of the line so far, and the one past the most that it may have
    pub line: [u8; 257],
    pub progress: PlanProgress,
    pub finished: bool,
}

// What a call answers.
#[derive(Clone, Copy, PartialEq, Eq)]
pub enum Answer {
    // it was done: how many places were written, 0 where nothing is
    Done(usize),
    // the plan is refused: number, line, column
    Refused(u8, usize, usize),
    // 19: the check isn't well formed
    Unformed,
    // 20: the lent output is too short
    Short,
    // 21: fed or finished after finish
    Late,
    // 22: asked before finish
    Early,
    // 23: facts or numbers asked after a plan refusal
    Stateless,
}

#[derive(Clone, Copy)]
pub struct LoadReply {
    pub check: Check,
    pub answer: LoadAnswer,
}

#[derive(Clone, Copy)]
pub struct Reply {
    pub check: Check,
    pub answer: Answer,
}

// Domain and problem: the check to feed, or one that 19 refuses and the texts' refusal.
pub fn load(domain: &[u8], problem: &[u8]) -> LoadReply
    ensures { result ≡ open_of domain.now problem.now }
{
    let loaded = domain_load::load(domain, problem);
    let answer = loaded.answer;
    let LoadAnswer::Loaded = answer else {
        let check = forming::check_for(loaded, 0);
        return LoadReply { check, answer };
    };
    let check = forming::check_for(loaded, 1);
    LoadReply { check, answer }
}

// A refused load's line, from its answer.
pub fn refused_line(answer: LoadAnswer, line: &mut [u8]) -> Answer
    ensures { (result, line.new) ≡ line_of answer line.old }
{
    match answer {
        LoadAnswer::Loaded => Answer::Early,
        LoadAnswer::Domain(k, p) => outputs::write_refusal(line, b"domain", k, p),
        LoadAnswer::Problem(k, p) => outputs::write_refusal(line, b"problem", k, p),
    }
}

impl Check {
    fn is_formed(self) -> bool
        ensures { result ≡ well_formed self }
    {
        forming::is_formed(
            self.progress,
            self.model.counts,
            self.model.acting,
            self.model.sizes,
            self.queue,
        )
    }

    fn answered(self, answer: Answer) -> Reply
        ensures { result ≡ fed self answer }
    {
        Reply {
            check: self,
            answer,
        }
    }

    // A part of a plan that goes on.
    fn take(mut self, part: &[u8]) -> Reply
        requires { (well_formed self ≡ true) × (self.finished ≡ false) × (self.progress.refused ≡ false) }
        ensures { result ≡ feed_of self part.now }
    {
        let mut facts = self.facts;
        let mut numbers = self.numbers;
        let mut fresh = self.numbers;
        let mut line = self.line;
        let taken = bytes::take_part(
            &self.model.tables,
            self.model.counts,
            &self.model.actions,
            self.model.acting,
            &self.model.rows,
            &mut facts,
            &mut numbers,
            &mut fresh,
            &mut line,
            self.queue,
            self.progress,
            part,
        );
        let after = taken.progress;
        if after.refused {
            let check = forming::refused_check(self.model, after, false);
            return check.answered(outputs::standing_answer(after));
        }
        self.facts = facts;
        self.numbers = numbers;
        self.queue = plan_waiting::tidy(taken.queue);
        self.line = forming::tidy_line(&line, after.used);
        self.progress = forming::settle(after);
        self.answered(Answer::Done(0))
    }

    // A part that may end lines: the run is laid out for the time of the call.
    fn feed_lines(self, part: &[u8]) -> Reply
        ensures { result ≡ feed_of self part.now }
    {
        if !self.is_formed() {
            return self.answered(Answer::Unformed);
        }
        if self.finished {
            return self.answered(Answer::Late);
        }
        if self.progress.refused {
            return self.answered(outputs::standing_answer(self.progress));
        }
        self.take(part)
    }

    // A part of the plan, of any size. One that ends no line only makes the line longer; with one exit for both, the check is copied as
    // seldom as can be.
    pub fn feed(mut self, part: &[u8]) -> Reply
        ensures { result ≡ feed_of self part.now }
    {
        let p = self.progress;
        let counts = self.model.counts;
        let sizes = self.model.sizes;
        let queue = self.queue;
        let mut line = self.line;
        let mut answer = Answer::Done(0);
        let added = adding::add_part(&mut line, p, part);
        let used = added.used;
        let formed = forming::is_formed(p, counts, self.model.acting, sizes, queue);
        if forming::is_plain(formed, self.finished, added.whole) {
            self.queue = plan_waiting::tidy(queue);
            let longer = forming::tidy_line(&line, used);
            self.line = longer;
            self.progress = forming::lengthen(p, used);
        } else {
            let before = self;
            let fed = before.feed_lines(part);
            let check = fed.check;
            self = check;
            answer = fed.answer;
        }
        self.answered(answer)
    }

    // The end of a plan that goes on.
    fn close(mut self) -> Reply
        requires { (well_formed self ≡ true) × (self.finished ≡ false) × (self.progress.refused ≡ false) }
        ensures { result ≡ finish_of self }
    {
        let mut facts = self.facts;
        let mut numbers = self.numbers;
        let mut fresh = self.numbers;
        let after = stepping::end_plan(
            &self.model.tables,
            self.model.counts,
            &self.model.actions,
            self.model.acting,
            &self.model.rows,
            &self.model.goal,
            &mut facts,
            &mut numbers,
            &mut fresh,
            &self.line,
            self.queue,
            self.progress,
        );
        if after.refused {
            let check = forming::refused_check(self.model, after, true);
            return check.answered(outputs::standing_answer(after));
        }
        self.facts = facts;
        self.numbers = numbers;
        self.queue = plan_waiting::nobody();
        self.line = [0u8; 257];
        self.progress = forming::end(after.past);
        self.finished = true;
        self.answered(Answer::Done(0))
    }

    // No more parts come: the last line, what waits, and the goal.
    pub fn finish(mut self) -> Reply
        ensures { result ≡ finish_of self }
    {
        if !self.is_formed() {
            return self.answered(Answer::Unformed);
        }
        if self.finished {
            return self.answered(Answer::Late);
        }
        if self.progress.refused {
            self.finished = true;
            return self.answered(outputs::standing_answer(self.progress));
        }
        self.close()
    }

    // The line: a verdict, or a plan refusal.
    pub fn result(self, line: &mut [u8]) -> Reply
        ensures { (result, line.new) ≡ result_of self line.old }
    {
        if !self.is_formed() {
            return self.answered(Answer::Unformed);
        }
        if !self.finished {
            return self.answered(Answer::Early);
        }
        if line.len() < 64 {
            return self.answered(Answer::Short);
        }
        let n = outputs::write_line(self.progress, line);
        self.answered(Answer::Done(n))
    }

    // The final facts.
    pub fn facts(self, out: &mut [u8]) -> Reply
        ensures { (result, out.new) ≡ facts_of self out.old }
    {
        if !self.is_formed() {
            return self.answered(Answer::Unformed);
        }
        if !self.finished {
            return self.answered(Answer::Early);
        }
        if self.progress.refused {
            return self.answered(Answer::Stateless);
        }
        let n = self.model.sizes.facts;
        if out.len() < n {
            return self.answered(Answer::Short);
        }
        outputs::write_facts(&self.facts, n, out);
        self.answered(Answer::Done(n))
    }

    // The final numbers.
    pub fn numbers(self, out: &mut [i64]) -> Reply
        ensures { (result, out.new) ≡ numbers_of self out.old }
    {
        if !self.is_formed() {
            return self.answered(Answer::Unformed);
        }
        if !self.finished {
            return self.answered(Answer::Early);
        }
        if self.progress.refused {
            return self.answered(Answer::Stateless);
        }
        let n = self.model.sizes.numbers;
        if out.len() < n {
            return self.answered(Answer::Short);
        }
        outputs::write_numbers(&self.numbers, n, out);
        self.answered(Answer::Done(n))
    }
}
