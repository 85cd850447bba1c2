// What the calls answer and write.
ghost use Rattle.std.specs.Prelude.{◌≡◌, map, ◌≤◌, length, take};
ghost use Rattle.std.proofs.lemmas.List.Edits.{sets};
ghost use Rattle.check_meaning.specs.Answer.{bit, shown};
ghost use Rattle.check_wording.specs.Wording.{refusal_line};
ghost use Rattle.check_calls.specs.Calls.{standing, line_in, writing_line};

use crate::Answer;
use plan_feeding::PlanProgress;

// A plan refusal that stands, or that all is done.
pub fn standing_answer(p: PlanProgress) -> Answer
    ensures { result ≡ standing p }
{
    let refused = p.refused;
    if refused {
        return Answer::Refused(p.refusal, p.at, p.column);
    }
    Answer::Done(0)
}

// The line of a plan that is finished: how many bytes.
pub fn write_line(p: PlanProgress, out: &mut [u8]) -> usize
    ensures { (out.new ≡ sets out.old 0 (line_in p)) × (result ≡ length (line_in p)) }
{
    let refused = p.refused;
    if refused {
        return check_wording::refusal_line(out, b"plan", p.refusal as usize, p.at, p.column);
    }
    let past = p.past;
    let outcome = past.outcome;
    check_wording::verdict_line(out, outcome, past.time)
}

// "1 if true, else 0"
fn bit_of(b: u8) -> u8
    ensures { result ≡ bit b }
{
    if b == 1 {
        return 1;
    }
    0
}

// The first n facts.
pub fn write_facts<'a>(facts: &'a [u8], n: usize, out: &mut [u8])
    requires { (n ≤ length facts.now) × (n ≤ length out.old) }
    ensures { out.new ≡ sets out.old 0 (map bit (take n facts.now)) }
{
    let mut i = 0;
    while i < n {
        out[i] = bit_of(facts[i]);
        i += 1;
    }
}

// "−1,000,000,000,001 if undefined"
fn shown_of(z: i64) -> i64
    ensures { result ≡ shown z }
{
    if happening_amounts::is_inside(z) {
        return z;
    }
    -1000000000001
}

// The first n numbers.
pub fn write_numbers<'a>(numbers: &'a [i64], n: usize, out: &mut [i64])
    requires { (n ≤ length numbers.now) × (n ≤ length out.old) }
    ensures { out.new ≡ sets out.old 0 (map shown (take n numbers.now)) }
{
    let mut i = 0;
    while i < n {
        out[i] = shown_of(numbers[i]);
        i += 1;
    }
}

// A refusal of a text, if there is room.
pub fn write_refusal(line: &mut [u8], word: &[u8], k: u8, p: usize) -> Answer
    requires { length word.now ≤ 16 }
    ensures { (result, line.new) ≡ writing_line (refusal_line word.now k p 0) line.old }
{
    if line.len() < 64 {
        return Answer::Short;
    }
    Answer::Done(check_wording::refusal_line(line, word, k as usize, p, 0))
}
