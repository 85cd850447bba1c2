// The lines of a state.
use crate::amounts;
use crate::grounds::Heads;
use domain_rows::layout;
use domain_terms::scope::Counts;
use program_records::output;
use program_records::output::Output;

// The true facts.
pub fn put_facts(out: &mut Output, tables: &[u8], counts: Counts, values: &[u8]) {
    let heads = Heads {
        tables,
        off: layout::PREDICATES_AT,
        count: counts.predicates,
        objects: counts.objects,
    };
    for (i, value) in values.iter().enumerate() {
        if *value != 0 {
            heads.put_ground(out, i);
            out.put(b'\n');
        }
    }
}

// The defined ones of the first n numbers.
pub fn put_numbers(out: &mut Output, tables: &[u8], counts: Counts, values: &[i64], n: usize) {
    let heads = Heads {
        tables,
        off: layout::FUNCTIONS_AT,
        count: counts.functions,
        objects: counts.objects,
    };
    for (i, value) in values.iter().take(n).enumerate() {
        if output::is_defined(*value) {
            out.word(b"(= ");
            heads.put_ground(out, i);
            out.put(b' ');
            amounts::put_amount(out, *value);
            out.word(b")\n");
        }
    }
}
