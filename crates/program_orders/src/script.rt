// The script: a command to a line, which is written out again with what came of it; other lines are headings.
use crate::command::{COMMANDS, Command};
use crate::{calls, report};
use check_calls::Check;
use domain_load::LoadAnswer;
use program_script::{lines, spoil, words};
use text_tokens::runs;

// The two texts, the check that the calls are made on, one put aside, and the answer of the last load.
#[derive(Drop)]
struct Bench<'a> {
    domain: &'a [u8],
    problem: &'a [u8],
    check: Check,
    kept: Check,
    answer: LoadAnswer,
}

impl<'a> Bench<'a> {
    // With the check of a load of nothing.
    fn new(domain: &'a [u8], problem: &'a [u8]) -> Self {
        let opened = check_calls::load(b"", b"");
        Bench {
            domain,
            problem,
            check: opened.check,
            kept: opened.check,
            answer: opened.answer,
        }
    }

    fn load(&mut self, sizes: &[u8]) {
        let (domain, problem) = lines::split(sizes);
        let opened = check_calls::load(
            runs::part_of(self.domain, 0, lines::number(domain)),
            runs::part_of(self.problem, 0, lines::number(problem)),
        );
        report::say_load(opened.answer);
        self.check = opened.check;
        self.answer = opened.answer;
    }

    // Sets the number that a word names.
    fn spoil(&mut self, given: &[u8]) {
        let (word, value) = lines::split(given);
        if let Some(part) = words::meaning_of(&spoil::PARTS, word) {
            let v = lines::number(value);
            spoil::spoil_progress(&mut self.check.progress, part, v);
            spoil::spoil_model(&mut self.check.model, part, v);
            spoil::spoil_queue(&mut self.check.queue, part, v);
        }
    }

    // What is done with a check and answers nothing.
    fn change(&mut self, command: Option<Command>, given: &[u8]) {
        match command {
            Some(Command::Keep) => self.kept = self.check,
            Some(Command::Restore) => self.check = self.kept,
            Some(Command::Spoil) => self.spoil(given),
            _ => {}
        }
        io::write_all(1, b"\n");
    }

    fn step(&mut self, line: &[u8]) {
        io::write_all(1, line);
        let (word, given) = lines::split(line);
        let command = words::meaning_of(&COMMANDS, word);
        match command {
            Some(Command::Load) => self.load(given),
            Some(Command::Refused) => calls::refused(self.answer, lines::number(given)),
            Some(Command::Compare) => report::say_same(self.check == self.kept),
            Some(Command::Feed) => calls::feed(&mut self.check, given),
            Some(Command::Bytes) => calls::feed_bytes(&mut self.check, given),
            Some(Command::Finish) => calls::finish(&mut self.check),
            Some(Command::Result) => calls::result(&mut self.check, lines::number(given)),
            Some(Command::Facts) => calls::facts(&mut self.check, lines::number(given)),
            Some(Command::Numbers) => calls::numbers(&mut self.check, lines::number(given)),
            _ => self.change(command, given),
        }
    }
}

// The script's lines, one after the other.
pub fn run(domain: &[u8], problem: &[u8], text: &[u8]) {
    let mut bench = Bench::new(domain, problem);
    for line in text.split_inclusive(|b| *b == b'\n') {
        bench.step(line.strip_suffix(b"\n").unwrap_or(line));
    }
}
