// What goes to standard output: the line of RULES 12 and, if asked for, the last facts and numbers, as digits or with their names.
use check_calls::{Answer, Check};
use domain_load::LoadAnswer;
use program_arguments::arguments::Options;
use program_arguments::files;
use program_records::listing;
use program_records::output::Output;
use text_tokens::runs;

const STDOUT: i32 = 1;

// The script `khushelvo` opens descriptor 3 to learn the answer: the program ends with status 0 whatever it is, and standard output goes past the script.
const SCRIPT: i32 = 3;

fn write_line(options: &Options, told: Answer, line: &[u8]) {
    let Answer::Done(n) = told else {
        return;
    };
    let words = runs::part_of(line, 0, n);
    if !io::write_all(STDOUT, words) {
        files::say_unwritten();
    } else if options.answer_on_3 {
        io::write_all(SCRIPT, words);
    }
}

// The line of a refused domain or problem.
pub fn refuse(options: &Options, load: LoadAnswer) {
    let mut line = [0u8; 64];
    let told = check_calls::refused_line(load, &mut line);
    write_line(options, told, &line);
}

fn list_facts(values: &[u8]) {
    let mut block = [0u8; 4096];
    let mut out = Output::new(&mut block);
    listing::put_facts(&mut out, values);
    out.finish();
}

// The last facts, with names or as digits.
fn write_facts(check: &Check, named: bool) {
    let mut facts = [0u8; 16384];
    let Answer::Done(n) = check.facts(&mut facts).answer else {
        return;
    };
    let values = runs::part_of(&facts, 0, n);
    if named {
        program_naming::write_facts(&check.model.tables, check.model.counts, values);
    } else {
        list_facts(values);
    }
}

fn list_numbers(values: &[i64], n: usize) {
    let mut block = [0u8; 4096];
    let mut out = Output::new(&mut block);
    listing::put_numbers(&mut out, values, n);
    out.finish();
}

// The last numbers, with names or by themselves.
fn write_numbers(check: &Check, named: bool) {
    let mut numbers = [0i64; 1024];
    let Answer::Done(n) = check.numbers(&mut numbers).answer else {
        return;
    };
    if named {
        program_naming::write_numbers(&check.model.tables, check.model.counts, &numbers, n);
    } else {
        list_numbers(&numbers, n);
    }
}

// The line of a finished check; then, unless the plan is refused, the facts and the numbers with `--state`, and the same with names with `--names`.
pub fn write(options: &Options, check: &Check) {
    let mut line = [0u8; 64];
    let told = check.result(&mut line).answer;
    write_line(options, told, &line);
    if options.state {
        write_facts(check, false);
        write_numbers(check, false);
    }
    if options.names {
        write_facts(check, true);
        write_numbers(check, true);
    }
}
