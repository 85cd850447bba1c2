// Numbers in thousandths.
ghost use Rattle.std.specs.Prelude.{◌≡◌, ◌+◌, ◌-◌, ◌≤◌, ◌<◌, min, length, drop};
ghost use Rattle.text_tokens.specs.Numbers.{digits_end, decimal, scale_of, number_from, Small, with_sign, number_of};
ghost use Rattle.text_tokens.specs.Figures.{decimals_at, figure_at};
ghost use Rattle.text_tokens.specs.Runs.{part};

use crate::{classes, runs};
use text_words::bytes;

// Digits that were read: their value, and where they end.
#[derive(Clone, Copy)]
struct Digits {
    value: usize,
    end: usize,
}

fn digit(b: u8) -> usize
    ensures { (result ≡ b - 48) × (result < 208) }
{
    b.saturating_sub(b'0') as usize
}

// Where at most so many digits from `from` on end, if all are digits.
fn least_end(long: usize, from: usize, most: usize) -> usize
    requires { from ≤ long }
    ensures { result ≡ min long (from + most) }
{
    from + most.min(long - from)
}

// The digits that stand at `from`, at most so many, summed as they are read.
fn digits_at(w: &[u8], from: usize, most: usize) -> Digits
    requires { (from ≤ length w.now) × (most ≤ 10) }
    ensures { (result.end ≡ min (digits_end w.now from) (from + most)) × (result.value ≡ decimal 0 (part w.now from result.end))
        × (result.value < 230000000000) }
{
    let stop = least_end(w.len(), from, most);
    let mut value = 0;
    for end in from..stop {
        let b = w[end];
        if !bytes::is_digit(b) {
            return Digits { value, end };
        }
        value = value * 10 + digit(b);
    }
    Digits { value, end: stop }
}

// What a last decimal counts, where there are so many.
fn scale(n: usize) -> usize
    ensures { (result ≡ scale_of n) × (result < 101) }
{
    match n {
        1 => 100,
        2 => 10,
        _ => 1,
    }
}

// The decimals from `from` on, after a whole part and its point, to the run's end: 1 to 3 digits.
fn decimals_at(text: &[u8], stop: u8, whole: usize, from: usize) -> Option<(usize, usize)>
    requires { (58 ≤ stop) × (from ≤ length text.now) × (whole < 230000000000) }
    ensures { result ≡ decimals_at text.now stop whole from }
{
    let d = digits_at(text, from, 4);
    let end = d.end;
    let n = end - from;
    if n == 0 {
        return None;
    }
    if 3 < n {
        return None;
    }
    if !runs::is_over(text, stop, end) {
        return None;
    }
    Some((whole * 1000 + d.value * scale(n), end))
}

// The number without a sign that stands at `from`, to the run's end: 1 to 9 digits, perhaps a point and decimals.
pub fn figure_at(text: &[u8], stop: u8, from: usize) -> Option<(usize, usize)>
    requires { (58 ≤ stop) × (from ≤ length text.now) }
    ensures { result ≡ figure_at text.now stop from }
{
    let d = digits_at(text, from, 10);
    let end = d.end;
    let n = end - from;
    if n == 0 {
        return None;
    }
    if 9 < n {
        return None;
    }
    if runs::is_over(text, stop, end) {
        return Some((d.value * 1000, end));
    }
    if text[end] != b'.' {
        return None;
    }
    decimals_at(text, stop, d.value, end + 1)
}

// The number that a word is from `from` on: `from` is 1 after a minus.
fn number_from(w: &[u8], from: usize) -> Option<usize>
    requires { from ≤ length w.now }
    ensures { result ≡ number_from (drop from w.now) }
{
    let (m, end) = figure_at(w, b';', from)?;
    if end < w.len() {
        return None;
    }
    Some(m)
}

fn signed_of(minus: bool, n: Option<usize>) -> Option<i64>
    requires { Small n }
    ensures { result ≡ with_sign minus n }
{
    let m = n?;
    let v = m as i64;
    if minus {
        return Some(-v);
    }
    Some(v)
}

// A number, with a minus before it or without.
pub fn number_of(w: &[u8]) -> Option<i64>
    ensures { result ≡ number_of w.now }
{
    if classes::begins_with(w, b'-') {
        return signed_of(true, number_from(w, 1));
    }
    signed_of(false, number_from(w, 0))
}
