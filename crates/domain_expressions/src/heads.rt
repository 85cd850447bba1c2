// How an expression begins: with a number, or with a bracket and its head word.
ghost use Rattle.std.specs.Prelude.{ℕ, ◌≤◌, ◌<◌, List, length};
ghost use Rattle.domain_meaning.specs.Read.{Reader};
ghost use Rattle.domain_meaning.specs.Terms.{Scope, Expr, Counted, operation, in_bracket, expr};
ghost use Rattle.domain_expressions.specs.Begins.{Bracketed, Inside, Begins, Placed};

use domain_due::Refusal;
use text_tokens::tokens;
use text_tokens::tokens::{Token, Word};
use text_words::fixed;
use text_words::fixed::HeadWord;

#[derive(Clone, Copy)]
pub enum ExpressionHead {
    // a number: its value, where it ends, and how many operators and operands may follow
    Number(i64, usize, usize),
    // a function's name: where it begins and where it ends
    Function(usize, usize),
    // `-` or `+`: whether it is `-`, where it ends, and how many may follow
    Operation(bool, usize, usize),
}

// The operation of a head word from p to e.
fn operation_of(h: HeadWord, p: usize, e: usize, left: usize) -> Result<ExpressionHead, Refusal>
    requires { p < e }
    ensures { ((s : List ℕ) (d : ℕ) (c : Scope) (f : ℕ → Reader (Counted Expr)) → Bracketed s d c f left result (operation s d f left h p e))
        × Inside p e result }
{
    match h {
        HeadWord::Plus => {
            if left == 0 {
                return Err(Refusal(12, p));
            }
            Ok(ExpressionHead::Operation(false, e, left - 1))
        }
        HeadWord::Minus => {
            if left == 0 {
                return Err(Refusal(12, p));
            }
            Ok(ExpressionHead::Operation(true, e, left - 1))
        }
        _ => Err(Refusal(3, p)),
    }
}

// What stands after a bracket.
fn head_at(text: &[u8], from: usize, d: usize, left: usize) -> Result<ExpressionHead, Refusal>
    requires { from ≤ length text.now }
    ensures { ((c : Scope) (f : ℕ → Reader (Counted Expr)) → Bracketed text.now d c f left result (in_bracket text.now d c f left from))
        × Inside from (length text.now) result }
{
    let t = tokens::token_at(text, from);
    let Token::Word(k, p, e) = t else {
        return Err(domain_due::not_due(t, d));
    };
    match k {
        Word::Name => Ok(ExpressionHead::Function(p, e)),
        Word::Operator => operation_of(fixed::head_of(tokens::word_of(text, t)), p, e, left),
        Word::Variable | Word::Keyword => Err(Refusal(3, p)),
    }
}

// How an expression begins, where d levels of brackets are left.
pub fn begun_at(text: &[u8], from: usize, d: usize, left: usize) -> Result<ExpressionHead, Refusal>
    requires { from ≤ length text.now }
    ensures { ((c : Scope) → Begins text.now c d left result (expr d text.now c left from))
        × Placed from (length text.now) d result }
{
    let t = tokens::token_at(text, from);
    if let Token::Number(z, p, e) = t {
        if left == 0 {
            return Err(Refusal(12, p));
        }
        return Ok(ExpressionHead::Number(z, e, left - 1));
    }
    let Token::Open(_, next) = t else {
        return Err(domain_due::not_due(t, d));
    };
    if d == 0 {
        return Err(domain_due::not_due(t, d));
    }
    head_at(text, next, d - 1, left)
}
