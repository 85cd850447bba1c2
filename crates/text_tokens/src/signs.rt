// The signs of a plan line and its end, read at once where nearly every line has them: at a place, or after one space there.
ghost use Rattle.std.specs.Prelude.{◌≡◌};
ghost use Rattle.text_tokens.specs.Tokens.{plan_token_at};
ghost use Rattle.text_tokens.specs.Signs.{is_sign, Stands};

use crate::tokens;
use crate::tokens::Token;
use text_words::bytes;
use text_words::bytes::Kind;

// Whether a byte is a token of a plan line by itself.
fn is_sign(b: u8) -> bool
    ensures { result ≡ is_sign b }
{
    b == b':' || bytes::kind_of(b) == Kind::Bracket
}

// Whether the sign b stands at p and ends before column 257.
fn stands(line: &[u8], p: usize, b: u8) -> bool
    ensures { Stands result line.now p b }
{
    if 255 < p {
        return false;
    }
    if line.len() <= p {
        return false;
    }
    if line[p] != b {
        return false;
    }
    is_sign(b)
}

// The place after a space, if one stands at `from`.
fn after_space(line: &[u8], from: usize) -> usize
    ensures { plan_token_at line.now result ≡ plan_token_at line.now from }
{
    if line.len() <= from {
        return from;
    }
    if line[from] != b' ' {
        return from;
    }
    from + 1
}

// The first token at or after `from`, where the line's end is due.
pub fn end_at(line: &[u8], from: usize) -> Token
    ensures { result ≡ plan_token_at line.now from }
{
    if line.len() <= from {
        return tokens::judged(line.len(), Token::End(from));
    }
    tokens::plan_token_at(line, from)
}

// The first token at or after `from`, where the sign b is due, or the end.
pub fn sign_at(line: &[u8], from: usize, b: u8) -> Token
    ensures { result ≡ plan_token_at line.now from }
{
    let p = after_space(line, from);
    if stands(line, p, b) {
        return tokens::plan_bracket(b, p);
    }
    end_at(line, from)
}
