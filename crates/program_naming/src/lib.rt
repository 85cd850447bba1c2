// A state for people: the true facts and the defined numbers as PDDL, a line each, in the order of their indexes, to standard output.
#![tactic(auto)]

mod amounts;
mod grounds;
mod rows;
mod state;

use domain_terms::scope::Counts;
use program_records::output::Output;

// The true ones of these facts, by the names in the tables.
pub fn write_facts(tables: &[u8], counts: Counts, values: &[u8]) {
    let mut block = [0u8; 4096];
    let mut out = Output::new(&mut block);
    state::put_facts(&mut out, tables, counts, values);
    out.finish();
}

// The defined ones of the first n numbers.
pub fn write_numbers(tables: &[u8], counts: Counts, values: &[i64], n: usize) {
    let mut block = [0u8; 4096];
    let mut out = Output::new(&mut block);
    state::put_numbers(&mut out, tables, counts, values, n);
    out.finish();
}
