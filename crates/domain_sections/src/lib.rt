// What frames the sections of domain and problem: their first words, the end of the text, and the requirement flags.
#![tactic(auto)]

ghost use Rattle.std.specs.Prelude.{◌≡◌, ℕ, ◌-◌, ◌≤◌, ◌<◌, eqb, length, get_or};
ghost use Rattle.domain_due.specs.Answers.{answer_of, Ahead};
ghost use Rattle.domain_meaning.specs.Due.{after_of};
ghost use Rattle.domain_meaning.specs.Domain.{begins_with, ending, heading_of, flag_of, flags_to};
ghost use Rattle.domain_sections.specs.Openings.{opened_of, Further, titled_of, TitledIn};

use domain_due::{Parsed, Refusal};
use text_tokens::tokens;
use text_tokens::tokens::{Token, Word};
use text_words::{fixed, spelling};

// Whether the next section has the keyword w: where the word stands, from and to.
pub fn begins_at(text: &[u8], from: usize, w: &[u8]) -> Option<(usize, usize)>
    requires { from ≤ length text.now }
    ensures { (result ≡ opened_of (begins_with text.now w.now from)) × Further (length text.now) from result }
{
    let t = tokens::token_at(text, from);
    let Token::Open(_, next) = t else {
        return None;
    };
    let u = tokens::token_at(text, next);
    let Token::Word(_, p, e) = u else {
        return None;
    };
    if spelling::same_word(tokens::word_of(text, u), w) {
        return Some((p, e));
    }
    None
}

// The bracket that closes the text's first one, and after it the end.
pub fn ending_at(text: &[u8], from: usize) -> Parsed
    ensures { result ≡ answer_of (ending text.now from) }
{
    let t = tokens::token_at(text, from);
    if let Token::Open(_, next) = t {
        return Err(domain_due::not_due(tokens::token_at(text, next), 14));
    }
    let Token::Close(_, next) = t else {
        return Err(domain_due::not_due(t, 15));
    };
    let u = tokens::token_at(text, next);
    let Token::End(p) = u else {
        return Err(domain_due::not_due(u, 16));
    };
    Ok((p, p))
}

// A heading: the place after it, and its name from, to.
pub type Titled = Result<(usize, usize, usize), Refusal>;

// `(define (domain NAME)` or `(define (problem NAME)`, the word being w.
pub fn heading_at(text: &[u8], from: usize, w: &[u8]) -> Titled
    requires { from ≤ length text.now }
    ensures { (result ≡ titled_of (heading_of text.now w.now from)) × TitledIn (length text.now) result }
{
    let (a, _) = domain_due::opening(text, from, 16)?;
    let (b, _) = domain_due::word_due(text, a, 15, b"define")?;
    let (c, _) = domain_due::opening(text, b, 15)?;
    let (d, _) = domain_due::word_due(text, c, 14, w)?;
    let (e, p) = domain_due::any_name(text, d, 14)?;
    let (next, _) = domain_due::closing(text, e, 14)?;
    Ok((next, p, e))
}

// Whether a colon stands at a place.
fn is_colon(text: &[u8], p: usize) -> bool
    ensures { result ≡ eqb (get_or text.now p 0) 58 }
{
    if p < text.len() {
        return text[p] == b':';
    }
    false
}

// A requirement flag: 11 if it is not carried, however long.
fn flag_of(text: &[u8], t: Token) -> Parsed
    ensures { result ≡ answer_of (flag_of text.now t (after_of t)) }
{
    if let Token::Refusal(k, p) = t {
        if k == 5 {
            if is_colon(text, p) {
                return Err(Refusal(11, p));
            }
        }
        return Err(Refusal(k, p));
    }
    let Token::Word(kind, p, e) = t else {
        return Err(domain_due::not_due(t, 14));
    };
    let Word::Keyword = kind else {
        return Err(Refusal(3, p));
    };
    if fixed::is_flag(tokens::word_of(text, t)) {
        return Ok((e, p));
    }
    Err(Refusal(11, p))
}

// The requirement flags, to their closing bracket.
pub fn flags_to(text: &[u8], from: usize) -> Parsed
    requires { from ≤ length text.now }
    ensures { ((k : ℕ) → length text.now - from < k → result ≡ answer_of (flags_to k text.now from))
        × Ahead (length text.now) from result }
{
    let mut at = from;
    loop {
        let t = tokens::token_at(text, at);
        if let Token::Close(p, next) = t {
            return Ok((next, p));
        }
        let (after, _) = flag_of(text, t)?;
        at = after;
    }
}
