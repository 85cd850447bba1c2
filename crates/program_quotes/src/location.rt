// Where a place of a text lies for a person: its line and column, and what is quoted of the line.
ghost use Rattle.std.specs.Prelude.{◌≡◌, ◌+◌, ◌≤◌, ◌==◌, not, length, leb};
ghost use Rattle.std.specs.List.{prefix_len, suffix_len};
ghost use Rattle.program_quotes.specs.Location.{line_ends, line_at, column_at, before_of, after_of, from_at, to_at, shown_byte};

use text_tokens::runs;
use text_words::bytes;

#[tactic(auto, using(crate::proofs::Steps::ends_counted))]
fn line_ends(s: &[u8]) -> usize
    ensures { (result ≡ line_ends s.now) × (result ≤ length s.now) }
{
    s.iter().filter(|b| **b == b'\n').count()
}

fn bytes_behind(s: &[u8]) -> usize
    ensures { (result ≡ suffix_len (λ b. not (b == 10)) s.now) × (result ≤ length s.now) }
{
    s.iter().rev().take_while(|b| **b != b'\n').count()
}

fn bytes_ahead(s: &[u8]) -> usize
    ensures { (result ≡ prefix_len (λ b. not (b == 10)) s.now) × (result ≤ length s.now) }
{
    s.iter().take_while(|b| **b != b'\n').count()
}

pub fn line_at(text: &[u8], place: usize) -> usize
    ensures { result ≡ line_at text.now place }
{
    1 + line_ends(runs::part_of(text, 0, place))
}

pub fn column_at(text: &[u8], place: usize) -> usize
    ensures { result ≡ column_at text.now place }
{
    1 + bytes_behind(runs::part_of(text, 0, place))
}

// Whether a line is quoted whole, if n bytes of it stand before a place and m from it on.
fn is_short(n: usize, m: usize) -> bool
    ensures { result ≡ leb (n + m) 80 }
{
    n <= 80 && m <= 80 - n
}

// How many of the n bytes before the place are quoted.
#[tactic(auto, unfolding(crate::specs::Location::before_of))]
fn quoted_before(n: usize, m: usize) -> usize
    ensures { (result ≡ before_of n m) × (result ≤ n) }
{
    if is_short(n, m) { n } else { n.min(37) }
}

// How many of the m bytes from the place on.
#[tactic(auto, unfolding(crate::specs::Location::after_of))]
fn quoted_after(n: usize, m: usize) -> usize
    ensures { (result ≡ after_of n m) × (result ≤ m) }
{
    if is_short(n, m) {
        m
    } else {
        m.min(74 - n.min(37))
    }
}

// Where what is quoted of the place's line begins.
pub fn quoted_from(text: &[u8], place: usize) -> usize
    ensures { result ≡ from_at text.now place }
{
    let n = bytes_behind(runs::part_of(text, 0, place));
    let m = bytes_ahead(runs::part_of(text, place, text.len()));
    place - quoted_before(n, m)
}

// Where it ends.
pub fn quoted_to(text: &[u8], place: usize) -> usize
    ensures { result ≡ to_at text.now place }
{
    let n = bytes_behind(runs::part_of(text, 0, place));
    let m = bytes_ahead(runs::part_of(text, place, text.len()));
    place + quoted_after(n, m)
}

// A byte as it is quoted: white is a space, so that the caret stands right, and a byte not allowed a point.
#[tactic(auto, unfolding(crate::specs::Location::shown_byte))]
pub fn shown(b: u8) -> u8
    ensures { result ≡ shown_byte b }
{
    if bytes::is_refused(b) {
        b'.'
    } else if bytes::is_white(b) {
        b' '
    } else {
        b
    }
}
