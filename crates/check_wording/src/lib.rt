// The line written: its words are fixed byte strings. What does not fit into the lent bytes is not written.
#![tactic(auto)]

ghost use Rattle.std.specs.Prelude.{◌≡◌, [], ◌∷◌, ◌++◌, ◌+◌, ◌%◌, ◌≤◌, ◌<◌, length};
ghost use Rattle.std.proofs.lemmas.List.Edits.{sets};
ghost use Rattle.check_wording.specs.Wording.{digit, decimal, time_of, word_of, line_of, second_of, verdict_line, refusal_line, behind_space, ended};

use happening_meaning::Outcome;

// One byte.
fn put_byte(out: &mut [u8], at: usize, x: u8) -> usize
    requires { at < 18446744073709551615 }
    ensures { (out.new ≡ sets out.old at (x ∷ [])) × (result ≡ at + 1) }
{
    domain_literals::put(out, at, x as usize);
    at + 1
}

// The bytes of w from `at` on: the place after them.
fn put_word(out: &mut [u8], at: usize, w: &[u8]) -> usize
    requires { at + length w.now ≤ 18446744073709551615 }
    ensures { (out.new ≡ sets out.old at w.now) × (result ≡ at + length w.now) }
{
    let mut end = at;
    for &x in w {
        end = put_byte(out, end, x);
    }
    end
}

// The last digit of a number.
fn put_digit(out: &mut [u8], at: usize, n: usize) -> usize
    requires { at < 18446744073709551615 }
    ensures { (out.new ≡ sets out.old at (digit (n % 10) ∷ [])) × (result ≡ at + 1) }
{
    put_byte(out, at, b'0' + (n % 10) as u8)
}

// A number: all digits but the last, then the last one.
#[tactic(auto, using(crate::proofs::Digits::decimal_rest))]
fn put_number(out: &mut [u8], at: usize, n: usize) -> usize
    requires { at + 20 ≤ 18446744073709551615 }
    ensures { (out.new ≡ sets out.old at (decimal n)) × (result ≡ at + length (decimal n)) }
{
    if n < 10 {
        return put_digit(out, at, n);
    }
    let end = put_number(out, at, n / 10);
    put_digit(out, end, n)
}

#[tactic(auto, using(crate::proofs::Digits::decimal_short))]
fn put_time(out: &mut [u8], at: usize, t: usize) -> usize
    requires { at + 24 ≤ 18446744073709551615 }
    ensures { (out.new ≡ sets out.old at (time_of t)) × (result ≡ at + length (time_of t)) }
{
    let point = put_number(out, at, t / 1000);
    let first = put_byte(out, point, b'.');
    let second = put_digit(out, first, t / 100);
    let third = put_digit(out, second, t / 10);
    put_digit(out, third, t)
}

#[tactic(auto, unfolding(crate::specs::Wording::word_of, text_words::specs::Bytes::bytes))]
fn word_of(o: Outcome) -> &'static [u8]
    ensures { result.now ≡ word_of o }
{
    match o {
        Outcome::Done => b"valid",
        Outcome::Duration(_) => b"duration",
        Outcome::Condition(_) => b"condition",
        Outcome::Undefined(_) => b"undefined",
        Outcome::Range(_) => b"range",
        Outcome::Itself(_) => b"itself",
        Outcome::Conflict(_, _) => b"conflict",
        Outcome::Invariant(_) => b"invariant",
        Outcome::Goal => b"goal",
    }
}

#[tactic(auto, unfolding(crate::specs::Wording::line_of))]
fn line_of(o: Outcome) -> usize
    ensures { result ≡ line_of o }
{
    match o {
        Outcome::Done | Outcome::Goal => 0,
        Outcome::Duration(l)
        | Outcome::Condition(l)
        | Outcome::Undefined(l)
        | Outcome::Range(l)
        | Outcome::Itself(l)
        | Outcome::Conflict(l, _)
        | Outcome::Invariant(l) => l,
    }
}

#[tactic(auto, unfolding(crate::specs::Wording::second_of))]
fn second_of(o: Outcome) -> usize
    ensures { result ≡ second_of o }
{
    match o {
        Outcome::Conflict(_, m) => m,
        _ => 0,
    }
}

// A space and a number.
fn put_spaced(out: &mut [u8], at: usize, n: usize) -> usize
    requires { at + 21 ≤ 18446744073709551615 }
    ensures { (out.new ≡ sets out.old at (behind_space (decimal n))) × (result ≡ at + length (behind_space (decimal n))) }
{
    let digits = put_byte(out, at, b' ');
    put_number(out, digits, n)
}

// The end of every line: two numbers and LF.
#[tactic(auto, using(crate::proofs::Digits::decimal_short))]
fn put_end(out: &mut [u8], at: usize, p: usize, q: usize) -> usize
    requires { at + 43 ≤ 18446744073709551615 }
    ensures { (out.new ≡ sets out.old at (ended (behind_space (decimal p) ++ behind_space (decimal q))))
        × (result ≡ at + length (ended (behind_space (decimal p) ++ behind_space (decimal q)))) }
{
    let second = put_spaced(out, at, p);
    let last = put_spaced(out, second, q);
    put_byte(out, last, b'\n')
}

// The line of a verdict at a time: how many bytes it has.
#[tactic(auto, using(crate::proofs::Whole::word_short, crate::proofs::Whole::time_short))]
pub fn verdict_line(out: &mut [u8], o: Outcome, t: usize) -> usize
    ensures { (out.new ≡ sets out.old 0 (verdict_line o t)) × (result ≡ length (verdict_line o t)) }
{
    let space = put_word(out, 0, word_of(o));
    let time = put_byte(out, space, b' ');
    let end = put_time(out, time, t);
    put_end(out, end, line_of(o), second_of(o))
}

// The line of a refusal: the text that w names, its number and its place.
#[tactic(auto, using(crate::proofs::Digits::decimal_short))]
pub fn refusal_line(out: &mut [u8], w: &[u8], k: usize, p: usize, q: usize) -> usize
    requires { length w.now ≤ 16 }
    ensures { (out.new ≡ sets out.old 0 (refusal_line w.now k p q)) × (result ≡ length (refusal_line w.now k p q)) }
{
    let named = put_word(out, 0, b"refused ");
    let number = put_word(out, named, w);
    let end = put_spaced(out, number, k);
    put_end(out, end, p, q)
}
