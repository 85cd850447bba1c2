// What an answer means for a person: a sentence, and the lines that it is about.
use crate::quotes::{Line, Lines};
use crate::{meanings, quotes};
use happening_meaning::Outcome;
use plan_feeding::PlanProgress;
use program_arguments::files;
use program_quotes::{location, stderr};
use std::rt::Env;

// A refusal's place, its number and what that means.
fn say_refusal(
    rt: &impl Env,
    name: usize,
    line: usize,
    column: usize,
    number: u8,
    meaning: &'static str,
) {
    files::say_name(rt, name);
    stderr::say(format_args!(":{line}:{column}: refused ({number}): {meaning}\n"));
}

// What the number means; of 12, which limit it is.
fn meaning_of(domain: &[u8], text: &[u8], number: u8, place: usize) -> &'static str {
    if number == 12
        && let Some(limit) = program_limits::limit_of(domain, text, place)
    {
        meanings::of_limit(limit)
    } else {
        meanings::of_number(number)
    }
}

// A refusal of domain or problem, which argument `name` names; the domain's text is given for both.
pub fn of_text(rt: &impl Env, name: usize, domain: &[u8], text: &[u8], number: u8, place: usize) {
    let line = location::line_at(text, place);
    let column = location::column_at(text, place);
    let meaning = meaning_of(domain, text, number, place);
    say_refusal(rt, name, line, column, number, meaning);
    stderr::quote(line, text, place);
    stderr::point(line, text, place);
}

// What a verdict means. For the goal no line stands.
fn say_verdict(outcome: Outcome) {
    match outcome {
        Outcome::Done => stderr::say("the plan ends, and its goal is met: it is valid.\n"),
        Outcome::Duration(l) => stderr::say(format_args!(
            "the duration of line {l} is not the one that its action's rule gives:\n"
        )),
        Outcome::Condition(l) => {
            stderr::say(format_args!("a condition of line {l} does not hold:\n"))
        }
        Outcome::Undefined(0) => {
            stderr::say("the plan ends, and its goal needs a number that has no value.\n")
        }
        Outcome::Undefined(l) => {
            stderr::say(format_args!("line {l} needs a number that has no value:\n"))
        }
        Outcome::Range(0) => stderr::say(
            "the plan ends, and its goal takes a number beyond 1,000,000,000 or below -1,000,000,000.\n",
        ),
        Outcome::Range(l) => stderr::say(format_args!(
            "line {l} takes a number beyond 1,000,000,000 or below -1,000,000,000:\n"
        )),
        Outcome::Itself(l) => stderr::say(format_args!(
            "line {l} sets a number twice, or sets it and also raises or lowers it:\n"
        )),
        Outcome::Conflict(l, m) => {
            stderr::say(format_args!("lines {l} and {m} interfere with each other:\n"))
        }
        Outcome::Invariant(l) => stderr::say(format_args!(
            "a condition that line {l} needs for as long as it lasts does not hold:\n"
        )),
        Outcome::Goal => stderr::say("the plan ends, and its goal is not met.\n"),
    }
}

// What came of a plan, which argument `name` names.
pub fn of_plan(rt: &impl Env, name: usize, p: &PlanProgress, lines: &Lines) {
    if p.refused {
        of_refused(rt, name, p, lines);
        return;
    }
    stderr::say("At ");
    stderr::say_time(p.past.time);
    stderr::say(" ");
    say_verdict(p.past.outcome);
    for line in quotes::named(p.past.outcome).into_iter().flatten() {
        if let Some(kept) = lines.find(line) {
            stderr::quote(line, kept.text(), 0);
        }
    }
}

// How much of a refused line is quoted: of one after the millionth only the byte that is refused, since no more of it was read.
fn quoted(number: u8, line: &Line) -> &[u8] {
    if number == 15 {
        line.first(1)
    } else {
        line.text()
    }
}

// A plan refusal. Its column counts from 1.
fn of_refused(rt: &impl Env, name: usize, p: &PlanProgress, lines: &Lines) {
    let line = p.at;
    let meaning = meanings::of_number(p.refusal);
    say_refusal(rt, name, line, p.column, p.refusal, meaning);
    if let Some(place) = p.column.checked_sub(1)
        && let Some(kept) = lines.find(line)
    {
        let text = quoted(p.refusal, kept);
        stderr::quote(line, text, place);
        stderr::point(line, text, place);
    }
}
