// Conditions as trees: single ones, `not` around one, and `and` around any number; d levels of brackets and `left` single conditions are left.
ghost use Rattle.std.specs.Prelude.{ℕ, ◌+◌, ◌-◌, ◌≤◌, ◌<◌, length, false};
ghost use Rattle.domain_meaning.specs.Read.{refuse};
ghost use Rattle.domain_meaning.specs.Terms.{Scope};
ghost use Rattle.domain_meaning.specs.Conditions.{atom_at, negation, list_to, condition};
ghost use Rattle.domain_terms.specs.Scoped.{Scoped, Scopes};
ghost use Rattle.domain_expressions.specs.Codes.{Written, Spent};
ghost use Rattle.domain_stored_meaning.specs.Cells.{cond_cells, conds_cells};
ghost use Rattle.domain_conditions.specs.Begins.{in_bracket};

use crate::heads::ConditionHead;
use crate::{heads, singles};
use domain_due::Refusal;
use domain_expressions::leaves;
use domain_expressions::leaves::Progress;
use domain_terms::scope::Counts;
use text_tokens::tokens;
use text_tokens::tokens::Token;

// The single condition under `not`, in its bracket. `not` is no predicate's name.
fn negated_at(
    text: &[u8],
    from: usize,
    d: usize,
    tables: &[u8],
    counts: Counts,
    code: &mut [u8],
    used: usize,
    left: usize,
) -> Progress
    requires { (from ≤ length text.now) × Scopes tables.now counts × (used + (length text.now - from) + 2 ≤ 18446744073709551615) }
    ensures { ((c : Scope) → Scoped tables.now counts c
        → Written cond_cells code.old used result code.new
        (in_bracket text.now d c false left (λ p e. refuse 11 p) (λ p e. atom_at text.now (d - 1) c false left p e) from))
        × Spent 0 (length text.now) used from result }
{
    let head = heads::begun_at(text, from, d, left)?;
    match head {
        ConditionHead::And(p, _) => Err(Refusal(11, p)),
        ConditionHead::Not(p, e) | ConditionHead::Atom(p, e) => {
            singles::atom_at(text, p, e, d - 1, tables, counts, false, code, used, left)
        }
        ConditionHead::Compared(k, e, m) => {
            singles::compared_at(text, e, d - 1, tables, counts, false, k, code, used, m)
        }
    }
}

// After `not`, to its closing bracket.
fn negation_at(
    text: &[u8],
    from: usize,
    d: usize,
    tables: &[u8],
    counts: Counts,
    code: &mut [u8],
    used: usize,
    left: usize,
) -> Progress
    requires { (from ≤ length text.now) × Scopes tables.now counts × (used + (length text.now - from) + 2 ≤ 18446744073709551615) }
    ensures { ((c : Scope) → Scoped tables.now counts c
        → Written cond_cells code.old used result code.new (negation text.now d c left from))
        × Spent 0 (length text.now) used from result }
{
    let (after, v, m) = negated_at(text, from, d, tables, counts, code, used, left)?;
    singles::closed_at(text, after, d, v, m)
}

// A condition, stored from `used` on.
#[cycle(condition_at_conditions_to)]
pub fn condition_at(
    text: &[u8],
    from: usize,
    d: usize,
    tables: &[u8],
    counts: Counts,
    code: &mut [u8],
    used: usize,
    left: usize,
) -> Progress
    requires { (from ≤ length text.now) × Scopes tables.now counts × (used + (length text.now - from) + 2 ≤ 18446744073709551615) }
    ensures { ((c : Scope) → Scoped tables.now counts c
        → Written cond_cells code.old used result code.new (condition d text.now c left from))
        × Spent 0 (length text.now) used from result }
{
    let head = heads::begun_at(text, from, d, left)?;
    match head {
        ConditionHead::And(_, e) => {
            domain_literals::put(code, used, 1);
            conditions_to(text, e, d - 1, tables, counts, code, used + 1, left)
        }
        ConditionHead::Not(_, e) => negation_at(text, e, d - 1, tables, counts, code, used, left),
        ConditionHead::Atom(p, e) => {
            singles::atom_at(text, p, e, d - 1, tables, counts, true, code, used, left)
        }
        ConditionHead::Compared(k, e, m) => {
            singles::compared_at(text, e, d - 1, tables, counts, true, k, code, used, m)
        }
    }
}

// The conditions of an `and`, to its closing bracket.
#[cycle(condition_at_conditions_to)]
fn conditions_to(
    text: &[u8],
    from: usize,
    d: usize,
    tables: &[u8],
    counts: Counts,
    code: &mut [u8],
    used: usize,
    left: usize,
) -> Progress
    requires { (from ≤ length text.now) × Scopes tables.now counts × (used + (length text.now - from) + 2 ≤ 18446744073709551615) }
    ensures { ((c : Scope) (k : ℕ) → Scoped tables.now counts c → length text.now - from < k
        → Written conds_cells code.old used result code.new (list_to k text.now d (condition d text.now c) left from))
        × Spent 0 (length text.now) used from result }
{
    let mut at = from;
    let mut u = used;
    let mut l = left;
    loop {
        let t = tokens::token_at(text, at);
        if let Token::Close(_, next) = t {
            domain_literals::put(code, u, 0);
            return Ok((next, u + 1, l));
        }
        let (after, v, m) = condition_at(text, at, d, tables, counts, code, u, l)?;
        at = after;
        u = v;
        l = m;
    }
}
