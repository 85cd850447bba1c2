// What is written of an answer, and of how a call left the check and the output.
ghost use Rattle.std.specs.Prelude.{◌≡◌};
ghost use Rattle.check_calls.specs.Numbers.{number_of};

use check_calls::{Answer, Check, Reply};
use domain_load::LoadAnswer;
use program_records::output::Output;
use text_tokens::runs;

// A space and a number.
pub fn say_number(n: usize) {
    io::write_all(1, b" ");
    io::print_decimal(1, n as u64);
}

// A space and a number of thousandths.
pub fn say_value(z: i64) {
    let mut block = [0u8; 32];
    let mut out = Output::new(&mut block);
    out.put(b' ');
    out.signed(z);
    out.finish();
}

// The number of an answer (RULES 7, RULES 13), 0 for none.
fn number_of(answer: Answer) -> usize
    ensures { result ≡ number_of answer }
{
    match answer {
        Answer::Done(_) => 0,
        Answer::Refused(k, _, _) => k as usize,
        Answer::Unformed => 19,
        Answer::Short => 20,
        Answer::Late => 21,
        Answer::Early => 22,
        Answer::Stateless => 23,
    }
}

// That a call was done and how many places it wrote; or a refusal's number, and of a plan refusal line and column.
pub fn say_answer(answer: Answer) {
    io::write_all(1, b" ->");
    match answer {
        Answer::Done(n) => {
            io::write_all(1, b" done");
            say_number(n);
        }
        Answer::Refused(_, line, column) => {
            say_number(number_of(answer));
            say_number(line);
            say_number(column);
        }
        _ => say_number(number_of(answer)),
    }
}

fn say_check(same: bool) {
    if same {
        io::write_all(1, b", check same");
    } else {
        io::write_all(1, b", check changed");
    }
}

// How many places a call wrote.
pub fn written(answer: Answer) -> usize {
    match answer {
        Answer::Done(n) => n,
        _ => 0,
    }
}

// Whether the output stayed as it was, past what was written.
pub fn say_output(answer: Answer, same: bool) {
    if let Answer::Done(_) = answer {
        io::write_all(1, b", rest");
    } else {
        io::write_all(1, b", output");
    }
    if same {
        io::write_all(1, b" same");
    } else {
        io::write_all(1, b" changed");
    }
}

// What a load answers.
pub fn say_load(answer: LoadAnswer) {
    match answer {
        LoadAnswer::Loaded => {
            io::write_all(1, b" -> loaded");
        }
        LoadAnswer::Domain(k, p) => say_refused(b" -> domain", k, p),
        LoadAnswer::Problem(k, p) => say_refused(b" -> problem", k, p),
    }
    io::write_all(1, b"\n");
}

fn say_refused(words: &[u8], k: u8, p: usize) {
    io::write_all(1, words);
    say_number(k as usize);
    say_number(p);
}

pub fn say_same(same: bool) {
    if same {
        io::write_all(1, b" -> same\n");
    } else {
        io::write_all(1, b" -> different\n");
    }
}

// How a call left the check.
pub fn say(before: &Check, reply: &Reply) {
    say_answer(reply.answer);
    say_check(*before == reply.check);
    io::write_all(1, b"\n");
}

// A call that writes: its answer, and how it left the output and the check.
pub fn say_asked(before: &Check, reply: &Reply, same: bool) {
    say_answer(reply.answer);
    say_output(reply.answer, same);
    say_check(*before == reply.check);
}

// The line that a call wrote, which ends in LF; or only the end of what is said.
pub fn say_line(answer: Answer, out: &[u8]) {
    if let Answer::Done(n) = answer {
        io::write_all(1, b", written: ");
        io::write_all(1, runs::part_of(out, 0, n));
    } else {
        io::write_all(1, b"\n");
    }
}

// What a call wrote: facts or numbers.
pub fn say_written<T, F: Fn(&T)>(answer: Answer, out: &[T], say: F)
    requires { F.IsAlwaysCallable say }
{
    if let Answer::Done(n) = answer {
        io::write_all(1, b", written:");
        for x in out.iter().take(n) {
            say(x);
        }
    }
    io::write_all(1, b"\n");
}
