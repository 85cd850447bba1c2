// The shortest program on the library: checks the plan on standard input and writes its line. docs/CALLS.md goes through it.
#![tactic(auto)]

mod texts;

use check_calls::{Answer, Check};
use domain_load::LoadAnswer;
use std::io::{Error, Read};
use text_tokens::runs;

const STDOUT: i32 = 1;

const STDERR: i32 = 2;

// The whole plan, fed a part for each read: parts may be cut anywhere. After a refusal, which stays, there is no need to read on.
// A proved loop has to end, and nothing says that the input does.
fn feed(input: &mut impl Read, opened: Check) -> Result<Check, Error> {
    let mut check = opened;
    let mut block = io::large_buffer();
    for _ in 0..u64::MAX {
        let n = input.read(&mut block)?;
        if n == 0 {
            break;
        }
        let reply = check.feed(&block[..n]);
        check = reply.check;
        let Answer::Done(_) = reply.answer else {
            break;
        };
    }
    Ok(check)
}

// The line that a call has written; any other answer than `Done` is a mistake of this program.
fn write(told: Answer, line: &[u8]) {
    let Answer::Done(n) = told else {
        io::write_all(STDERR, b"a call was out of order\n");
        return;
    };
    io::write_all(STDOUT, runs::part_of(line, 0, n));
}

fn main(rt: HostRuntime) {
    let mut line = [0u8; 64];
    let opened = texts::load();
    let LoadAnswer::Loaded = opened.answer else {
        write(check_calls::refused_line(opened.answer, &mut line), &line);
        return;
    };
    let Ok(check) = feed(&mut rt.stdin(), opened.check) else {
        io::write_all(STDERR, b"the plan can't be read\n");
        return;
    };
    let ended = check.finish().check;
    let told = ended.result(&mut line).answer;
    write(told, &line);
}
