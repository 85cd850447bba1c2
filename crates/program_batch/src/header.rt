// The header of a record: three lengths and perhaps the size of parts, in decimal, separated by single spaces and ended by LF.
ghost use Rattle.std.specs.Prelude.{◌<◌};

use program_records::input;

#[derive(Clone, Copy)]
pub struct RecordHead {
    pub domain: usize,
    pub problem: usize,
    pub plan: usize,
    // how many bytes of the plan are fed at a time
    pub part: usize,
    pub ghost feeds: { 0 < part },
}

// Reads a line with its LF, as much of it as there is room for: no byte where the input has ended.
pub fn read_line(line: &mut [u8; 96]) -> &[u8] {
    for i in 0..96 {
        if io::read_full(0, &mut line[i..i + 1]) == 0 {
            return &line[..i];
        }
        if line[i] == b'\n' {
            return &line[..i + 1];
        }
    }
    line
}

// The number that a line begins with, the byte after it, and what stands after that.
fn field(line: &[u8]) -> Option<(usize, u8, &[u8])> {
    let end = line.iter().position(|b| !b.is_ascii_digit())?;
    if end == 0 {
        return None;
    }
    Some((input::decimal(&line[..end]), line[end], &line[end + 1..]))
}

// The number that a line begins with, with this byte after it, and what stands after that.
fn field_before(byte: u8, line: &[u8]) -> Option<(usize, &[u8])> {
    let (number, end, rest) = field(line)?;
    if end == byte {
        Some((number, rest))
    } else {
        None
    }
}

// The header on a line; one without a size of parts has 4,096, and no part has 0 bytes.
pub fn head_of(line: &[u8]) -> Option<RecordHead> {
    let (domain, rest) = field_before(b' ', line)?;
    let (problem, rest) = field_before(b' ', rest)?;
    let (plan, end, rest) = field(rest)?;
    let part = match end {
        b'\n' => 4096,
        b' ' => field_before(b'\n', rest)?.0,
        _ => 0,
    };
    if part == 0 {
        return None;
    }
    Some(RecordHead {
        domain,
        problem,
        plan,
        part,
    })
}
