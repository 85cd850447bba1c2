// Each call on a check, with what it answers, what it wrote, and whether the output past that and the check stayed as they were.
// Outputs are lent as the first places of a block that is filled with a mark.
use crate::report;
use check_calls::{Answer, Check, Reply};
use domain_load::LoadAnswer;
use program_script::marks;
use text_tokens::runs;

const BYTE_MARK: u8 = 170;

const NUMBER_MARK: i64 = -7;

// A part as a script writes it: `|` stands for LF.
fn unescape<'a>(part: &[u8], out: &'a mut [u8]) -> &'a [u8] {
    for (to, from) in out.iter_mut().zip(part) {
        *to = if *from == b'|' { b'\n' } else { *from };
    }
    runs::part_of(out, 0, part.len())
}

pub fn feed(check: &mut Check, part: &[u8]) {
    let mut bytes = [0u8; 256];
    let reply = check.feed(unescape(part, &mut bytes));
    report::say(check, &reply);
    *check = reply.check;
}

// A part in parts of one byte each: the last one's answer.
pub fn feed_bytes(check: &mut Check, part: &[u8]) {
    let mut bytes = [0u8; 256];
    let mut reply = Reply {
        check: *check,
        answer: Answer::Done(0),
    };
    for byte in unescape(part, &mut bytes).chunks(1) {
        reply = reply.check.feed(byte);
    }
    report::say(check, &reply);
    *check = reply.check;
}

pub fn finish(check: &mut Check) {
    let reply = check.finish();
    report::say(check, &reply);
    *check = reply.check;
}

// Each call on the first places of a block, or on all of it if it has no more.
pub fn result(check: &mut Check, places: usize) {
    let mut out = [BYTE_MARK; 80];
    let reply = check.result(&mut out[..places.min(80)]);
    let same = marks::is_filled(&out, report::written(reply.answer), BYTE_MARK);
    report::say_asked(check, &reply, same);
    report::say_line(reply.answer, &out);
    *check = reply.check;
}

// The line of a refused load.
pub fn refused(load: LoadAnswer, places: usize) {
    let mut out = [BYTE_MARK; 80];
    let answer = check_calls::refused_line(load, &mut out[..places.min(80)]);
    let same = marks::is_filled(&out, report::written(answer), BYTE_MARK);
    report::say_answer(answer);
    report::say_output(answer, same);
    report::say_line(answer, &out);
}

pub fn facts(check: &mut Check, places: usize) {
    let mut out = [BYTE_MARK; 8];
    let reply = check.facts(&mut out[..places.min(8)]);
    let same = marks::is_filled(&out, report::written(reply.answer), BYTE_MARK);
    report::say_asked(check, &reply, same);
    report::say_written(
        reply.answer,
        &out,
        |fact| report::say_number(*fact as usize),
    );
    *check = reply.check;
}

pub fn numbers(check: &mut Check, places: usize) {
    let mut out = [NUMBER_MARK; 8];
    let reply = check.numbers(&mut out[..places.min(8)]);
    let same = marks::is_filled(&out, report::written(reply.answer), NUMBER_MARK);
    report::say_asked(check, &reply, same);
    report::say_written(reply.answer, &out, |number| report::say_value(*number));
    *check = reply.check;
}
