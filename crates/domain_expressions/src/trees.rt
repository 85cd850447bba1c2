// Expressions: a number, `(f args)`, `+` of two, or `-` of one or two expressions; at most 16 operators and operands.
ghost use Rattle.std.specs.Prelude.{◌≡◌, ◌+◌, ◌-◌, ◌≤◌, length};
ghost use Rattle.domain_due.specs.Answers.{Ahead};
ghost use Rattle.domain_meaning.specs.Terms.{Scope, expr, expression};
ghost use Rattle.domain_terms.specs.Scoped.{Scoped, Scopes};
ghost use Rattle.domain_terms.specs.Cells.{Wrote};
ghost use Rattle.domain_expressions.specs.Codes.{cells_of, Written, Spent, Over};

use crate::heads::ExpressionHead;
use crate::leaves::Progress;
use crate::{heads, leaves};
use domain_due::{Parsed, Refusal};
use domain_terms::scope::Counts;

// An expression, where d levels of brackets are left and `left` operators and operands may follow, stored from `used` on.
pub fn expr_at(
    text: &[u8],
    from: usize,
    d: usize,
    tables: &[u8],
    counts: Counts,
    code: &mut [u8],
    used: usize,
    left: usize,
) -> Progress
    requires { (from ≤ length text.now) × Scopes tables.now counts × (used + (length text.now - from) + 1 ≤ 18446744073709551615) }
    ensures { ((c : Scope) → Scoped tables.now counts c
        → Written cells_of code.old used result code.new (expr d text.now c left from))
        × Spent 1 (length text.now) used from result }
{
    let head = heads::begun_at(text, from, d, left)?;
    match head {
        ExpressionHead::Number(z, e, m) => Ok((e, domain_literals::put_number(code, used, z), m)),
        ExpressionHead::Function(p, e) => {
            leaves::function_at(text, p, e, d - 1, tables, counts, code, used, left)
        }
        ExpressionHead::Operation(minus, e, m) => {
            let (after, v, l) = expr_at(text, e, d - 1, tables, counts, code, used + 1, m)?;
            if let Some(n) = leaves::lone_end(text, after, minus) {
                domain_literals::put(code, used, 0);
                return Ok((n, v, l));
            }
            let (end, free, more) = expr_at(text, after, d - 1, tables, counts, code, v, l)?;
            leaves::joined_at(text, end, d - 1, minus, code, used, free, more)
        }
    }
}

// An expression of its own, stored from `used` on.
pub fn expression_at(
    text: &[u8],
    from: usize,
    d: usize,
    tables: &[u8],
    counts: Counts,
    code: &mut [u8],
    used: usize,
) -> Parsed
    requires { (from ≤ length text.now) × Scopes tables.now counts × (used + (length text.now - from) + 1 ≤ 18446744073709551615) }
    ensures { ((c : Scope) → Scoped tables.now counts c
        → Wrote cells_of code.old used result code.new (expression text.now d c from))
        × Ahead (length text.now) from result × Over used from result }
{
    let (end, free, _) = expr_at(text, from, d, tables, counts, code, used, 16)?;
    Ok((end, free))
}
