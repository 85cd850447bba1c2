// The lines of a script, their words and their numbers.
ghost use Rattle.std.specs.Prelude.{◌≡◌, ◌+◌, ◌==◌, MatchOption, take, drop, length, position};

use program_records::input;

// A line's first word, and what stands after its first space.
pub fn split(line: &[u8]) -> (&[u8], &[u8])
    ensures word { MatchOption (position (λ b. b == 32) line.now) (result.0.now ≡ line.now) (λ i. result.0.now ≡ take i line.now) }
    ensures rest { result.1.now ≡ drop (length result.0.now + 1) line.now }
{
    match line.iter().position(|b| *b == b' ') {
        Some(end) => (&line[..end], &line[end + 1..]),
        None => (line, b""),
    }
}

// The number that a line begins with.
pub fn number(line: &[u8]) -> usize {
    let (digits, _) = split(line);
    input::decimal(digits)
}
