// The program for a technician: checks one plan from files, answers with the line of RULES 12 and says on standard error what that means.
#![tactic(auto)]

mod plan;
mod reply;
mod texts;

use check_calls::Check;
use domain_load::LoadAnswer;
use program_arguments::arguments::Options;
use program_arguments::{arguments, files};
use program_messages::message;
use program_messages::quotes::Lines;
use std::io::Read;
use std::rt::Env;

// Feeds the plan to the check of two texts that are not refused, and answers.
fn judge(rt: &impl Env, options: &Options, plan: &mut impl Read, check: Check) {
    let mut lines = Lines::new();
    let Ok(ended) = plan::feed(plan, options.part, check, &mut lines) else {
        files::say_unread(rt, options.plan);
        return;
    };
    reply::write(options, &ended);
    if !options.quiet {
        message::of_plan(rt, options.plan, &ended.progress, &lines);
    }
}

// Answers of two texts, and of the plan if they are not refused.
fn answer(rt: &impl Env, options: &Options, domain: &[u8], problem: &[u8], plan: &mut impl Read) {
    let opened = check_calls::load(domain, problem);
    let (name, text, number, place) = match opened.answer {
        LoadAnswer::Loaded => {
            judge(rt, options, plan, opened.check);
            return;
        }
        LoadAnswer::Domain(k, at) => (options.domain, domain, k, at),
        LoadAnswer::Problem(k, at) => (options.problem, problem, k, at),
    };
    reply::refuse(options, opened.answer);
    if !options.quiet {
        message::of_text(rt, name, domain, text, number, place);
    }
}

// Reads domain and problem, and answers.
fn check(
    rt: &impl Env,
    options: &Options,
    domain: &mut impl Read,
    problem: &mut impl Read,
    plan: &mut impl Read,
) {
    let mut first = [0u8; 65536];
    let Ok(domain) = texts::read(domain, &mut first) else {
        files::say_unread(rt, options.domain);
        return;
    };
    let mut second = [0u8; 65536];
    let Ok(problem) = texts::read(problem, &mut second) else {
        files::say_unread(rt, options.problem);
        return;
    };
    answer(rt, options, domain, problem, plan);
}

// All three files are opened before any is read, so that a missing one is said at once.
fn main(rt: HostRuntime) {
    let Some(options) = arguments::read(&rt).if_right(&rt) else {
        return;
    };
    let Some(mut domain) = files::open(&rt, options.domain) else {
        return;
    };
    let Some(mut problem) = files::open(&rt, options.problem) else {
        return;
    };
    let Some(mut plan) = files::open_plan(&rt, options.plan) else {
        return;
    };
    check(&rt, &options, &mut domain, &mut problem, &mut plan);
}
