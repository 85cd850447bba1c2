// What is written for a record: the line and, unless something is refused, the facts and the numbers; then `--`.
use check_calls::{Answer, Check};
use domain_load::LoadAnswer;
use program_records::listing;
use program_records::output::Output;
use text_tokens::runs;

// This and `put_answer` are in one frame with their caller, so that the checks of all three share their places on the stack.
#[inline(always)]
pub fn write(load: LoadAnswer, check: &Check) {
    let mut block = [0u8; 4096];
    let mut out = Output::new(&mut block);
    put_answer(&mut out, load, check);
    out.word(b"--\n");
    out.finish();
}

#[inline(always)]
fn put_answer(out: &mut Output, load: LoadAnswer, check: &Check) {
    let mut line = [0u8; 64];
    let LoadAnswer::Loaded = load else {
        let told = check_calls::refused_line(load, &mut line);
        put_line(out, told, &line);
        return;
    };
    let ended = check.finish().check;
    let told = ended.result(&mut line).answer;
    put_line(out, told, &line);
    put_facts(out, &ended);
    put_numbers(out, &ended);
}

fn put_line(out: &mut Output, told: Answer, line: &[u8]) {
    if let Answer::Done(n) = told {
        out.word(runs::part_of(line, 0, n));
    }
}

// The facts, if there is a last state.
fn put_facts(out: &mut Output, check: &Check) {
    let mut facts = [0u8; 16384];
    if let Answer::Done(n) = check.facts(&mut facts).answer {
        listing::put_facts(out, runs::part_of(&facts, 0, n));
    }
}

// The numbers, if there is a last state.
fn put_numbers(out: &mut Output, check: &Check) {
    let mut numbers = [0i64; 1024];
    if let Answer::Done(n) = check.numbers(&mut numbers).answer {
        listing::put_numbers(out, &numbers, n);
    }
}
