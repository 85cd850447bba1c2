// What is due at a place of domain or problem: brackets, fixed words, names; and the refusal of what may not stand there.
#![tactic(auto)]

ghost use Rattle.std.specs.Prelude.{◌≡◌, ℕ, ◌≤◌, length};
ghost use Rattle.domain_meaning.specs.Due.{number_of, place_of, opening, closing, word_due, any_name, new_name};
ghost use Rattle.domain_due.specs.Answers.{answer_of, name_of, at, Ahead};

use text_tokens::tokens::{Token, Word};
use text_tokens::{runs, tokens};
use text_words::{fixed, spelling};

// A refusal of a text: its number and its place.
#[derive(Clone, Copy, PartialEq, Eq)]
pub struct Refusal(pub u8, pub usize);

// The place after what was read, and a number: a place, or one that the reader says.
pub type Parsed = Result<(usize, usize), Refusal>;

// The refusal of a token that may not stand here, where d levels of brackets are left.
pub fn not_due(t: Token, d: usize) -> Refusal
    ensures { result ≡ at (number_of d t) (place_of t) }
{
    match t {
        Token::Word(_, p, _) => Refusal(3, p),
        Token::Number(_, p, _) => Refusal(3, p),
        Token::Open(p, _) => {
            if d == 0 {
                return Refusal(12, p);
            }
            Refusal(3, p)
        }
        Token::Close(p, _) => Refusal(3, p),
        Token::Mark(_, p, _) => Refusal(3, p),
        Token::Refusal(k, p) => Refusal(k, p),
        Token::End(p) => Refusal(4, p),
    }
}

// An opening bracket.
pub fn opening(text: &[u8], from: usize, d: usize) -> Parsed
    requires { from ≤ length text.now }
    ensures { (result ≡ answer_of (opening text.now d from)) × Ahead (length text.now) from result }
{
    let t = tokens::token_at(text, from);
    let Token::Open(p, next) = t else {
        return Err(not_due(t, d));
    };
    if d == 0 {
        return Err(Refusal(12, p));
    }
    Ok((next, p))
}

// A closing bracket.
pub fn closing(text: &[u8], from: usize, d: usize) -> Parsed
    requires { from ≤ length text.now }
    ensures { (result ≡ answer_of (closing text.now d from)) × Ahead (length text.now) from result }
{
    let t = tokens::token_at(text, from);
    let Token::Close(p, next) = t else {
        return Err(not_due(t, d));
    };
    Ok((next, p))
}

// The word w.
pub fn word_due(text: &[u8], from: usize, d: usize, w: &[u8]) -> Parsed
    requires { from ≤ length text.now }
    ensures { (result ≡ answer_of (word_due text.now d w.now from)) × Ahead (length text.now) from result }
{
    let t = tokens::token_at(text, from);
    let Token::Word(_, p, e) = t else {
        return Err(not_due(t, d));
    };
    if spelling::same_word(tokens::word_of(text, t), w) {
        return Ok((e, p));
    }
    Err(Refusal(3, p))
}

// Any name: where it ends, and where it begins.
pub fn any_name(text: &[u8], from: usize, d: usize) -> Parsed
    requires { from ≤ length text.now }
    ensures { (result ≡ name_of (any_name text.now d from)) × Ahead (length text.now) from result }
{
    let t = tokens::token_at(text, from);
    let Token::Word(k, p, e) = t else {
        return Err(not_due(t, d));
    };
    let Word::Name = k else {
        return Err(Refusal(3, p));
    };
    Ok((e, p))
}

// A name that is declared here.
pub fn new_name(text: &[u8], from: usize, d: usize) -> Parsed
    requires { from ≤ length text.now }
    ensures { (result ≡ name_of (new_name text.now d from)) × Ahead (length text.now) from result }
{
    let (e, p) = any_name(text, from, d)?;
    if fixed::is_reserved(runs::part_of(text, p, e)) {
        return Err(Refusal(3, p));
    }
    Ok((e, p))
}

// Where a token begins.
pub fn place_of(t: Token) -> usize
    ensures { result ≡ place_of t }
{
    match t {
        Token::Word(_, p, _) => p,
        Token::Number(_, p, _) => p,
        Token::Open(p, _) => p,
        Token::Close(p, _) => p,
        Token::Mark(_, p, _) => p,
        Token::Refusal(_, p) => p,
        Token::End(p) => p,
    }
}
