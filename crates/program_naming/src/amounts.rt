// A number of thousandths in its shortest form: 2, 2.5, -0.001.
use program_records::output;
use program_records::output::Output;

// The last digit of a number.
fn digit(n: u64) -> u8 {
    b'0' + (n % 10) as u8
}

// What stands after the point, without the zeros at its end.
fn put_decimals(out: &mut Output, thousandths: u64) {
    if thousandths == 0 {
        return;
    }
    out.put(b'.');
    out.put(digit(thousandths / 100));
    if thousandths % 100 == 0 {
        return;
    }
    out.put(digit(thousandths / 10));
    if thousandths % 10 != 0 {
        out.put(digit(thousandths));
    }
}

pub fn put_amount(out: &mut Output, z: i64) {
    if z < 0 {
        out.put(b'-');
    }
    let m = output::magnitude(z);
    out.digits(m / 1000);
    put_decimals(out, m % 1000);
}
