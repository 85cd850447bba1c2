// What is due in a plan line, token by token.
ghost use Rattle.std.specs.Prelude.{◌≡◌, ◌<◌, nat_abs};
ghost use Rattle.domain_meaning.specs.Tables.{entry_at, wanted_of};
ghost use Rattle.domain_meaning.specs.Due.{after_of};
ghost use Rattle.domain_due.specs.Answers.{answer_of};
ghost use Rattle.domain_stored_meaning.specs.Entries.{signed_in};
ghost use Rattle.plan_meaning.specs.Lines.{mark, opening, line_end, start_at, duration_in, objects_to};
ghost use Rattle.plan_lines.specs.Knowing.{Tabled, Headed, objects_in, known_in};
ghost use Rattle.plan_lines.specs.Reading.{Plain, AmountAnswer, span_answer, named_action, named_by, lasting_read, Listed, Small};

use crate::known;
use domain_due::{Parsed, Refusal};
use domain_terms::scope::Counts;
use text_tokens::tokens::Token;
use text_tokens::{signs, tokens};

// A colon or a square bracket.
pub fn mark_due(text: &[u8], from: usize, b: u8) -> Parsed
    ensures { result ≡ answer_of (mark text.now b from) }
{
    let t = signs::sign_at(text, from, b);
    let Token::Mark(c, p, next) = t else {
        return Err(domain_due::not_due(t, 1));
    };
    if c == b {
        return Ok((next, p));
    }
    Err(Refusal(3, p))
}

// An opening bracket.
pub fn opening_due(text: &[u8], from: usize) -> Parsed
    ensures { result ≡ answer_of (opening text.now from) }
{
    let t = signs::sign_at(text, from, b'(');
    let Token::Open(p, next) = t else {
        return Err(domain_due::not_due(t, 1));
    };
    Ok((next, p))
}

// The line's end.
fn end_due(text: &[u8], from: usize) -> Parsed
    ensures { result ≡ answer_of (line_end text.now from) }
{
    let t = signs::end_at(text, from);
    let Token::End(p) = t else {
        return Err(domain_due::not_due(t, 1));
    };
    Ok((p, p))
}

// An action's name: its number.
pub fn action_at<'a>(text: &'a [u8], from: usize, heads: &'a [u8], acting: usize) -> Parsed
    requires { Headed heads.now acting }
    ensures { result ≡ answer_of (named_action text.now (signed_in heads.now acting) from) }
{
    let t = tokens::plan_token_at(text, from);
    let Token::Word(_, p, e) = t else {
        return Err(domain_due::not_due(t, 1));
    };
    let Some(i) = known::action_of(heads, acting, tokens::word_of(text, t)) else {
        return Err(Refusal(8, p));
    };
    Ok((e, i))
}

// The number of the object that a token names.
fn object_at<'a>(text: &'a [u8], t: Token, tables: &'a [u8], counts: Counts) -> Parsed
    requires { Tabled tables.now counts }
    ensures { result ≡ answer_of (named_by text.now (objects_in tables.now counts) t (after_of t)) }
{
    let Token::Word(_, p, e) = t else {
        return Err(domain_due::not_due(t, 1));
    };
    let Some(i) = known::object_of(tables, counts, tokens::word_of(text, t)) else {
        return Err(Refusal(8, p));
    };
    Ok((e, i))
}

// The objects of action i, to the closing bracket: how many, stored in `out`.
pub fn objects_at<'a>(
    text: &'a [u8],
    from: usize,
    tables: &'a [u8],
    counts: Counts,
    heads: &'a [u8],
    acting: usize,
    rows: &'a [u8],
    i: usize,
    out: &mut [u8],
) -> Parsed
    requires { Tabled tables.now counts × Headed heads.now acting }
    ensures { Listed result out.old out.new
        (objects_to text.now (known_in tables.now counts heads.now acting rows.now)
        (wanted_of (entry_at (signed_in heads.now acting) i)) from) }
{
    let arity = known::arity(heads, acting, i);
    let mut j = 0;
    let mut at = from;
    loop {
        let t = signs::sign_at(text, at, b')');
        if let Token::Close(p, next) = t {
            if j < arity {
                return Err(Refusal(9, p));
            }
            return Ok((next, j));
        }
        let (after, x) = object_at(text, t, tables, counts)?;
        if arity <= j {
            return Err(Refusal(9, domain_due::place_of(t)));
        }
        if !known::is_fit(tables, counts, x, known::wanted(heads, acting, i, j)) {
            return Err(Refusal(10, domain_due::place_of(t)));
        }
        domain_literals::put(out, j, x);
        at = after;
        j += 1;
    }
}

// A number of a plan line, which has no sign.
fn amount_of(z: i64) -> usize
    requires { Plain z }
    ensures { (result ≡ nat_abs z) × (result < 1000000000000) }
{
    z as usize
}

// The start, from the line's first token. "16 start below the previous step's start"
pub fn start_at(t: Token, before: usize) -> Parsed
    requires { Small t }
    ensures { (result ≡ answer_of (start_at before t (after_of t))) × AmountAnswer result }
{
    let Token::Number(z, p, next) = t else {
        return Err(domain_due::not_due(t, 1));
    };
    let n = amount_of(z);
    if n < before {
        return Err(Refusal(16, p));
    }
    Ok((next, n))
}

// A duration after its opening bracket, to the line's end. "17 bracket .. holding 0: .. the number"
fn duration_at(text: &[u8], from: usize) -> Parsed
    ensures { (result ≡ span_answer (duration_in text.now from)) × AmountAnswer result }
{
    let t = tokens::plan_token_at(text, from);
    let Token::Number(z, p, next) = t else {
        return Err(domain_due::not_due(t, 1));
    };
    let d = amount_of(z);
    if d == 0 {
        return Err(Refusal(17, p));
    }
    let (after, _) = mark_due(text, next, b']')?;
    let (end, _) = end_due(text, after)?;
    Ok((end, d))
}

// The bracket, or the line's end: 0 if there is none. "17 bracket missing, not wanted"
pub fn span_at(text: &[u8], from: usize, lasting: bool) -> Parsed
    ensures { (result ≡ span_answer (lasting_read text.now lasting from)) × AmountAnswer result }
{
    let t = signs::sign_at(text, from, b'[');
    if let Token::End(p) = t {
        if lasting {
            return Err(Refusal(17, p));
        }
        return Ok((p, 0));
    }
    let Token::Mark(b, p, next) = t else {
        return Err(domain_due::not_due(t, 1));
    };
    if b != b'[' {
        return Err(Refusal(3, p));
    }
    if lasting {
        return duration_at(text, next);
    }
    Err(Refusal(17, p))
}
