// Bytes and decimal numbers from standard input.
ghost use Rattle.std.specs.Prelude.{◌≤◌};

// The value of a digit; a byte that is none counts 0.
fn digit(b: u8) -> usize
    ensures { result ≤ 9 }
{
    match b {
        b'0'..=b'9' => (b - b'0') as usize,
        _ => 0,
    }
}

// One digit more; past eighteen of them a number stays as it is.
fn shifted(acc: usize, b: u8) -> usize {
    if acc < 100000000000000000 {
        return acc * 10 + digit(b);
    }
    acc
}

// The number that bytes write.
pub fn decimal(digits: &[u8]) -> usize {
    digits.iter().fold(0, |acc, b| shifted(acc, *b))
}

// Reads n bytes into the lent ones, if there are so many of both: what was read.
pub fn read_text(text: &mut [u8], n: usize) -> Option<&[u8]> {
    let part = text.get_mut(..n)?;
    if io::read_full(0, part) == n {
        return Some(part);
    }
    None
}
