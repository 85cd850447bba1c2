// The last state as `second --state` writes it: a line of facts and a line of numbers.
ghost use Rattle.std.specs.Prelude.{◌≡◌, ◌-◌, ◌<◌, length, slice_index};

use crate::output;
use crate::output::Output;

// Facts: a line of digits.
pub fn put_facts(out: &mut Output, values: &[u8])
    ensures { 0 < length out.new.block.now → slice_index out.new.block.now (out.new.used - 1) ≡ 10 }
{
    for value in values {
        out.put(if *value == 0 { b'0' } else { b'1' });
    }
    out.put(b'\n');
}

// The first n numbers: a line of numbers separated by spaces.
pub fn put_numbers(out: &mut Output, values: &[i64], n: usize)
    ensures { 0 < length out.new.block.now → slice_index out.new.block.now (out.new.used - 1) ≡ 10 }
{
    for (i, value) in values.iter().take(n).enumerate() {
        if i != 0 {
            out.put(b' ');
        }
        put_number(out, *value);
    }
    out.put(b'\n');
}

// A number, or the one that stands for none.
fn put_number(out: &mut Output, value: i64) {
    if output::is_defined(value) {
        out.signed(value);
    } else {
        out.word(b"-1000000000001");
    }
}
