// Tokens: each is a word, a number, a bracket or a refusal; and the text's end.
ghost use Rattle.std.specs.Prelude.{◌≡◌, true, length, get_or, ◌<◌};
ghost use Rattle.text_words.specs.Bytes.{kind_of, is_digit};
ghost use Rattle.text_tokens.specs.Tokens.{sized_of, number_token, is_past, bracket_of, domain_word, word_of, token_at, spot_at};
ghost use Rattle.text_tokens.specs.Tokens.{judged_of, strange_of, plan_number, plan_word, square_of, plan_run, end_of, plan_token_at};

use crate::classes::Class;
use crate::{classes, numbers, runs};
use text_words::bytes::Kind;
use text_words::{bytes, fixed, spelling};

#[derive(Clone, Copy, PartialEq, Eq)]
pub enum Word {
    Name,
    Variable,
    Keyword,
    Operator,
}

// With places: of a word or a number where it begins and where it ends, of a bracket its own and the next.
#[derive(Clone, Copy, PartialEq, Eq)]
pub enum Token {
    Word(Word, usize, usize),
    Number(i64, usize, usize),
    Open(usize, usize),
    Close(usize, usize),
    // in plans: a colon or a square bracket
    Mark(u8, usize, usize),
    Refusal(u8, usize),
    End(usize),
}

// The word that was read, as the part of the caller's text, with no copy; of any other token no byte.
pub fn word_of(text: &[u8], t: Token) -> &[u8]
    ensures { result.now ≡ word_of text.now t }
{
    let Token::Word(_, p, e) = t else {
        return &text[..0];
    };
    runs::part_of(text, p, e)
}

// A word whose name has at most 32 bytes: `most` counts the mark too.
fn sized(kind: Word, most: usize, long: usize, p: usize, e: usize) -> Token
    ensures { result ≡ sized_of kind most long p e }
{
    if most < long {
        return Token::Refusal(5, p);
    }
    Token::Word(kind, p, e)
}

fn number_token(w: &[u8], p: usize, e: usize) -> Token
    ensures { result ≡ number_token w.now p e }
{
    match numbers::number_of(w) {
        Some(z) => Token::Number(z, p, e),
        None => Token::Refusal(6, p),
    }
}

fn domain_word(w: &[u8], p: usize, e: usize) -> Token
    ensures { result ≡ domain_word w.now p e }
{
    if fixed::is_listed(w) {
        return Token::Refusal(11, p);
    }
    match classes::class_of(w) {
        Class::Number => number_token(w, p, e),
        Class::Name => sized(Word::Name, 32, w.len(), p, e),
        Class::Variable => sized(Word::Variable, 33, w.len(), p, e),
        Class::Keyword => sized(Word::Keyword, 33, w.len(), p, e),
        Class::Operator => Token::Word(Word::Operator, p, e),
        Class::Other => Token::Refusal(3, p),
    }
}

// The most bytes of a domain or problem.
pub const LONGEST: usize = 32768;

// Whether a place is past the most bytes of a text that is too long.
fn is_past(long: usize, p: usize) -> bool
    ensures { result ≡ is_past long p }
{
    LONGEST < long && LONGEST <= p
}

fn bracket(b: u8, p: usize) -> Token
    requires { p < 18446744073709551615 }
    ensures { result ≡ bracket_of b p }
{
    if b == b'(' {
        return Token::Open(p, p + 1);
    }
    if b == b')' {
        return Token::Close(p, p + 1);
    }
    Token::Refusal(3, p)
}

// The first token at or after `from` of a domain or problem.
pub fn token_at(text: &[u8], from: usize) -> Token
    ensures { result ≡ token_at text.now from }
{
    let p = runs::gap_end(text, from);
    if is_past(text.len(), p) {
        return Token::Refusal(1, LONGEST);
    }
    if text.len() <= p {
        return Token::End(p);
    }
    let b = text[p];
    match bytes::kind_of(b) {
        Kind::Refused => Token::Refusal(2, p),
        Kind::Bracket => bracket(b, p),
        Kind::Digit | Kind::Letter | Kind::White | Kind::Mark => {
            let e = runs::run_end(text, b';', p + 1);
            domain_word(runs::part_of(text, p, e), p, e)
        }
    }
}

// Where the next token of a domain or problem is the word w, whatever token that is: from and to.
pub fn spot_at(text: &[u8], from: usize, w: &[u8]) -> Option<(usize, usize)>
    ensures { result ≡ spot_at text.now from w.now }
{
    let p = runs::gap_end(text, from);
    if is_past(text.len(), p) {
        return None;
    }
    if text.len() <= p {
        return None;
    }
    let e = runs::run_end(text, b';', p + 1);
    if spelling::same_word(runs::part_of(text, p, e), w) {
        return Some((p, e));
    }
    None
}

// A token of a plan line, if it ends before column 257.
pub fn judged(end: usize, t: Token) -> Token
    ensures { result ≡ judged_of end t }
{
    if 256 < end {
        return Token::Refusal(14, 256);
    }
    t
}

fn strange(long: usize, p: usize) -> Token
    ensures { result ≡ strange_of long p }
{
    if 33 < long {
        return Token::Refusal(5, p);
    }
    Token::Refusal(3, p)
}

fn plan_number(w: &[u8], p: usize, e: usize) -> Token
    ensures { result ≡ plan_number w.now p e }
{
    if classes::begins_with(w, b'-') {
        return Token::Refusal(6, p);
    }
    number_token(w, p, e)
}

fn plan_word(w: &[u8], p: usize, e: usize) -> Token
    ensures { result ≡ plan_word w.now p e }
{
    match classes::class_of(w) {
        Class::Number => plan_number(w, p, e),
        Class::Name => sized(Word::Name, 32, w.len(), p, e),
        Class::Variable | Class::Keyword => strange(w.len(), p),
        Class::Operator | Class::Other => Token::Refusal(3, p),
    }
}

pub fn plan_bracket(b: u8, p: usize) -> Token
    requires { p < 18446744073709551615 }
    ensures { result ≡ square_of b p }
{
    if b == b'(' {
        return Token::Open(p, p + 1);
    }
    if b == b')' {
        return Token::Close(p, p + 1);
    }
    Token::Mark(b, p, p + 1)
}

// What begins with a digit at p, summed as it is read.
fn plan_figure(line: &[u8], p: usize) -> Token
    requires { (p < length line.now) × (is_digit (kind_of (get_or line.now p 0)) ≡ true) }
    ensures { result ≡ plan_run line.now p (end_of line.now 58 p) }
{
    let f = numbers::figure_at(line, b':', p);
    let Some((m, e)) = f else {
        return judged(runs::run_end(line, b':', p + 1), Token::Refusal(6, p));
    };
    let z = m as i64;
    judged(e, Token::Number(z, p, e))
}

// Any run that begins at p.
fn plan_run(line: &[u8], p: usize) -> Token
    requires { p < length line.now }
    ensures { result ≡ plan_run line.now p (end_of line.now 58 p) }
{
    let e = runs::run_end(line, b':', p + 1);
    judged(e, plan_word(runs::part_of(line, p, e), p, e))
}

// The first token at or after `from` of a plan line. Of a line that is too long, the first 257 bytes are enough.
// Numbers and names are read once, to the run's end; any other run is a refusal, and is read again to tell which.
pub fn plan_token_at(line: &[u8], from: usize) -> Token
    ensures { result ≡ plan_token_at line.now from }
{
    let p = runs::gap_end(line, from);
    if line.len() <= p {
        return judged(line.len(), Token::End(p));
    }
    let b = line[p];
    if b == b':' {
        return judged(p + 1, Token::Mark(b':', p, p + 1));
    }
    match bytes::kind_of(b) {
        Kind::Digit => return plan_figure(line, p),
        Kind::Letter => {
            let e = spelling::name_end(line, p + 1);
            if runs::is_over(line, b':', e) {
                return judged(e, sized(Word::Name, 32, e - p, p, e));
            }
        }
        Kind::Refused => return judged(p + 1, Token::Refusal(2, p)),
        Kind::Bracket => return judged(p + 1, plan_bracket(b, p)),
        Kind::White | Kind::Mark => {}
    }
    plan_run(line, p)
}
