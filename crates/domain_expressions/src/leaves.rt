// What an expression is made of besides expressions: functions, and the ends of operands.
ghost use Rattle.std.specs.Prelude.{◌≡◌, ◌+◌, ◌-◌, ◌≤◌, ◌<◌, cond, length};
ghost use Rattle.text_tokens.specs.Tokens.{token_at};
ghost use Rattle.domain_due.specs.Answers.{answer_of, Ahead};
ghost use Rattle.domain_meaning.specs.Terms.{Scope, function_at, operands_end};
ghost use Rattle.domain_terms.specs.Scoped.{Scoped, Scopes};
ghost use Rattle.domain_expressions.specs.Codes.{cells_of, Written, Spent, lone_end, Joined};

use crate::references;
use domain_due::{Parsed, Refusal};
use domain_rows::layout;
use domain_terms::scope;
use domain_terms::scope::Counts;
use text_tokens::tokens::Token;
use text_tokens::{runs, tokens};

// The place after what was read, the first cell that is free, and how many operators and operands may follow.
pub type Progress = Result<(usize, usize, usize), Refusal>;

// A function's value, whose name stands from p to e.
pub fn function_at(
    text: &[u8],
    p: usize,
    e: usize,
    d: usize,
    tables: &[u8],
    counts: Counts,
    code: &mut [u8],
    used: usize,
    left: usize,
) -> Progress
    requires { (e ≤ length text.now) × Scopes tables.now counts × (used + 2 + (length text.now - e) ≤ 18446744073709551615) }
    ensures { ((c : Scope) → Scoped tables.now counts c
        → Written cells_of code.old used result code.new (function_at text.now d c left p e e))
        × Spent 0 (length text.now) (used + 2) e result }
{
    let n = counts.functions;
    let name = runs::part_of(text, p, e);
    let Some(i) = scope::find_in(tables, layout::FUNCTIONS_AT, layout::VARIABLES_AT, n, name) else {
        return Err(Refusal(8, p));
    };
    if left == 0 {
        return Err(Refusal(12, p));
    }
    let (end, free) = references::reference_at(
        text,
        e,
        d,
        tables,
        counts,
        layout::FUNCTIONS_AT,
        n,
        i,
        5,
        code,
        used,
    )?;
    Ok((end, free, left - 1))
}

// Where the operands of `-` end after the first, if it is the only one.
pub fn lone_end(text: &[u8], from: usize, minus: bool) -> Option<usize>
    ensures { result ≡ lone_end minus (token_at text.now from) }
{
    if !minus {
        return None;
    }
    match tokens::token_at(text, from) {
        Token::Close(_, n) => Some(n),
        _ => None,
    }
}

// After the last operand: a closing bracket.
pub fn operands_end(text: &[u8], from: usize, d: usize, left: usize) -> Parsed
    requires { from ≤ length text.now }
    ensures { (result ≡ answer_of (operands_end text.now d left from)) × Ahead (length text.now) from result }
{
    let t = tokens::token_at(text, from);
    if let Token::Close(p, n) = t {
        return Ok((n, p));
    }
    if let Token::Number(_, p, _) = t {
        if left == 0 {
            return Err(Refusal(12, p));
        }
        return Err(Refusal(3, p));
    }
    Err(domain_due::not_due(t, d))
}

// After two operands: the bracket, and the operator's cell.
pub fn joined_at(
    text: &[u8],
    from: usize,
    d: usize,
    minus: bool,
    code: &mut [u8],
    used: usize,
    free: usize,
    left: usize,
) -> Progress
    requires { from ≤ length text.now }
    ensures { Joined code.old used free left minus result code.new (operands_end text.now d left from)
        × Spent 0 (length text.now) free from result }
{
    let (n, _) = operands_end(text, from, d, left)?;
    domain_literals::put(code, used, operator_cell(minus));
    Ok((n, free, left))
}

// The cell of an operator of two.
fn operator_cell(minus: bool) -> usize
    ensures { result ≡ cond minus 1 2 }
{
    if minus { 1 } else { 2 }
}
