// The state on a line: the true facts and the defined numbers.
use crate::output;
use crate::output::Output;

// The indexes of the true facts, then those of the defined numbers, each with its value in thousandths.
pub fn state(out: &mut Output, facts: &[u8], numbers: &[i64]) {
    out.word(b" true");
    for (i, value) in facts.iter().enumerate() {
        if *value != 0 {
            out.number(i as u64);
        }
    }
    out.word(b" numbers");
    for (i, value) in numbers.iter().enumerate() {
        if output::is_defined(*value) {
            out.number(i as u64);
            out.put(b' ');
            out.signed(*value);
        }
    }
}
