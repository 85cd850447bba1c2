// Single conditions, as they are written or under `not`: facts, comparisons, and equalities of objects.
ghost use Rattle.std.specs.Prelude.{◌≡◌, ◌+◌, ◌-◌, ◌≤◌, ◌<◌, cond, length};
ghost use Rattle.text_tokens.specs.Tokens.{token_at};
ghost use Rattle.domain_meaning.specs.Due.{closing};
ghost use Rattle.domain_meaning.specs.Terms.{Scope};
ghost use Rattle.domain_meaning.specs.Conditions.{atom_at, comparison, same_objects};
ghost use Rattle.domain_terms.specs.Scoped.{Scoped, Scopes};
ghost use Rattle.domain_expressions.specs.Codes.{Written, Spent};
ghost use Rattle.domain_stored_meaning.specs.Cells.{cond_cells};
ghost use Rattle.domain_conditions.specs.Begins.{comparison_of, objects_due, compared};
ghost use Rattle.domain_conditions.specs.Closed.{closed_by};

use domain_due::{Parsed, Refusal};
use domain_expressions::leaves::Progress;
use domain_expressions::{leaves, references, trees};
use domain_rows::layout;
use domain_terms::scope::Counts;
use domain_terms::{arguments, scope};
use text_tokens::tokens::Token;
use text_tokens::{runs, tokens};

// One number as it is written, the other under `not`.
fn chosen(yes: bool, a: usize, b: usize) -> usize
    ensures { result ≡ cond yes a b }
{
    if yes { a } else { b }
}

// The closing bracket of a condition whose cells end before `free`.
pub fn closed_at(text: &[u8], from: usize, d: usize, free: usize, left: usize) -> Progress
    requires { from ≤ length text.now }
    ensures { (result ≡ closed_by free left (closing text.now d from)) × Spent 0 (length text.now) free from result }
{
    let (end, _) = domain_due::closing(text, from, d)?;
    Ok((end, free, left))
}

// A fact, whose predicate's name stands from p to e.
pub fn atom_at(
    text: &[u8],
    p: usize,
    e: usize,
    d: usize,
    tables: &[u8],
    counts: Counts,
    yes: bool,
    code: &mut [u8],
    used: usize,
    left: usize,
) -> Progress
    requires { (e ≤ length text.now) × Scopes tables.now counts × (used + 2 + (length text.now - e) ≤ 18446744073709551615) }
    ensures { ((c : Scope) → Scoped tables.now counts c
        → Written cond_cells code.old used result code.new (atom_at text.now d c yes left p e e))
        × Spent 0 (length text.now) (used + 2) e result }
{
    let n = counts.predicates;
    let name = runs::part_of(text, p, e);
    let Some(i) = scope::find_in(tables, layout::PREDICATES_AT, layout::FUNCTIONS_AT, n, name)
    else {
        return Err(Refusal(8, p));
    };
    if left == 0 {
        return Err(Refusal(12, p));
    }
    let tag = chosen(yes, 4, 8);
    let (end, free) = references::reference_at(
        text,
        e,
        d,
        tables,
        counts,
        layout::PREDICATES_AT,
        n,
        i,
        tag,
        code,
        used,
    )?;
    Ok((end, free, left - 1))
}

// Comparison k of two expressions, after its word.
fn comparison_at(
    text: &[u8],
    from: usize,
    d: usize,
    tables: &[u8],
    counts: Counts,
    yes: bool,
    k: usize,
    code: &mut [u8],
    used: usize,
    left: usize,
) -> Progress
    requires { (from ≤ length text.now) × Scopes tables.now counts × (used + 3 + (length text.now - from) ≤ 18446744073709551615) × (k ≤ 4) }
    ensures { ((c : Scope) → Scoped tables.now counts c
        → Written cond_cells code.old used result code.new (comparison text.now d c yes (comparison_of k) left from))
        × Spent 2 (length text.now) used from result }
{
    domain_literals::put(code, used, chosen(yes, 12, 17) + k);
    let (mid, v) = trees::expression_at(text, from, d, tables, counts, code, used + 1)?;
    let (end, w) = trees::expression_at(text, mid, d, tables, counts, code, v)?;
    closed_at(text, end, d, w, left)
}

// An equality of objects, after its word.
fn same_at(
    text: &[u8],
    from: usize,
    d: usize,
    tables: &[u8],
    counts: Counts,
    yes: bool,
    code: &mut [u8],
    used: usize,
    left: usize,
) -> Progress
    requires { (from ≤ length text.now) × Scopes tables.now counts × (used + 3 ≤ 18446744073709551615) }
    ensures { ((c : Scope) → Scoped tables.now counts c
        → Written cond_cells code.old used result code.new (same_objects text.now d c yes left from))
        × Spent 2 (length text.now) used from result }
{
    let (mid, x) = arguments::argument_at(text, from, d, tables, counts)?;
    let (end, y) = arguments::argument_at(text, mid, d, tables, counts)?;
    domain_literals::put(code, used, chosen(yes, 2, 3));
    domain_literals::put(code, used + 1, x);
    domain_literals::put(code, used + 2, y);
    closed_at(text, end, d, used + 3, left)
}

// Whether objects are compared: the first token after `=` decides.
fn objects_due(text: &[u8], from: usize, k: usize) -> bool
    ensures { result ≡ objects_due k (token_at text.now from) }
{
    k == 0 && matches!(tokens::token_at(text, from), Token::Word(_, _, _))
}

// Comparison k, after its word.
pub fn compared_at(
    text: &[u8],
    from: usize,
    d: usize,
    tables: &[u8],
    counts: Counts,
    yes: bool,
    k: usize,
    code: &mut [u8],
    used: usize,
    left: usize,
) -> Progress
    requires { (from ≤ length text.now) × Scopes tables.now counts × (used + 3 + (length text.now - from) ≤ 18446744073709551615) × (k ≤ 4) }
    ensures { ((c : Scope) → Scoped tables.now counts c
        → Written cond_cells code.old used result code.new (compared text.now d c yes (comparison_of k) left from))
        × Spent 2 (length text.now) used from result }
{
    if objects_due(text, from, k) {
        return same_at(text, from, d, tables, counts, yes, code, used, left);
    }
    comparison_at(text, from, d, tables, counts, yes, k, code, used, left)
}
