// Single effects: a fact that becomes true or false, a number that is changed.
ghost use Rattle.std.specs.Prelude.{◌≡◌, ◌+◌, ◌-◌, ◌≤◌, Bool, cond, length};
ghost use Rattle.domain_due.specs.Answers.{Ahead};
ghost use Rattle.domain_meaning.specs.Terms.{Scope};
ghost use Rattle.domain_meaning.specs.Effects.{Change, becomes_at, target, change_at, in_deletion, deletion};
ghost use Rattle.domain_terms.specs.Scoped.{Scoped, Scopes};
ghost use Rattle.domain_terms.specs.Cells.{Wrote, Room};
ghost use Rattle.domain_expressions.specs.Codes.{ref_cells, Written, Spent};
ghost use Rattle.domain_stored_meaning.specs.Cells.{change_cell, effects_cells};

use domain_due::{Parsed, Refusal};
use domain_expressions::leaves::Progress;
use domain_expressions::{leaves, references, trees};
use domain_rows::layout;
use domain_terms::scope;
use domain_terms::scope::Counts;
use text_tokens::tokens::{Token, Word};
use text_tokens::{runs, tokens};
use text_words::fixed;
use text_words::fixed::HeadWord;

// A fact, whose name stands from p to e: the tag says whether it becomes true.
pub fn becomes_at(
    text: &[u8],
    p: usize,
    e: usize,
    d: usize,
    tables: &[u8],
    counts: Counts,
    tag: usize,
    code: &mut [u8],
    used: usize,
    left: usize,
) -> Progress
    requires { (e ≤ length text.now) × Scopes tables.now counts × (tag ≤ 251) × (used + 2 + (length text.now - e) ≤ 18446744073709551615) }
    ensures { ((c : Scope) (yes' : Bool) → Scoped tables.now counts c → tag ≡ cond yes' 4 8
        → Written effects_cells code.old used result code.new (becomes_at text.now d c yes' left p e e))
        × Spent 0 (length text.now) (used + 2) e result }
{
    let n = counts.predicates;
    let f = scope::find_in(
        tables,
        layout::PREDICATES_AT,
        layout::FUNCTIONS_AT,
        n,
        runs::part_of(text, p, e),
    );
    let Some(i) = f else {
        return Err(Refusal(8, p));
    };
    if left == 0 {
        return Err(Refusal(12, p));
    }
    let (end, free) = references::reference_at(
        text,
        e,
        d,
        tables,
        counts,
        layout::PREDICATES_AT,
        n,
        i,
        tag,
        code,
        used,
    )?;
    Ok((end, free, left - 1))
}

// The number to be changed.
fn target_at(
    text: &[u8],
    from: usize,
    d: usize,
    tables: &[u8],
    counts: Counts,
    tag: usize,
    code: &mut [u8],
    used: usize,
) -> Parsed
    requires { (from ≤ length text.now) × Scopes tables.now counts × (tag ≤ 251) × (used + (length text.now - from) ≤ 18446744073709551615) }
    ensures { ((c : Scope) → Scoped tables.now counts c
        → Wrote (ref_cells tag) code.old used result code.new (target text.now d c from))
        × Ahead (length text.now) from result × Room used from result }
{
    let (next, _) = domain_due::opening(text, from, d)?;
    let (e, p) = domain_due::any_name(text, next, d - 1)?;
    let n = counts.functions;
    let f = scope::find_in(
        tables,
        layout::FUNCTIONS_AT,
        layout::VARIABLES_AT,
        n,
        runs::part_of(text, p, e),
    );
    let Some(i) = f else {
        return Err(Refusal(8, p));
    };
    references::reference_at(
        text,
        e,
        d - 1,
        tables,
        counts,
        layout::FUNCTIONS_AT,
        n,
        i,
        tag,
        code,
        used,
    )
}

// A change of a number, whose word stands from p to e: the tag says which.
pub fn change_at(
    text: &[u8],
    p: usize,
    e: usize,
    d: usize,
    tables: &[u8],
    counts: Counts,
    tag: usize,
    code: &mut [u8],
    used: usize,
    left: usize,
) -> Progress
    requires { (e ≤ length text.now) × Scopes tables.now counts × (tag ≤ 251) × (used + (length text.now - e) + 1 ≤ 18446744073709551615) }
    ensures { ((c : Scope) (how : Change) → Scoped tables.now counts c → tag ≡ change_cell how
        → Written effects_cells code.old used result code.new (change_at text.now d c how left p e))
        × Spent 0 (length text.now) used e result }
{
    if left == 0 {
        return Err(Refusal(12, p));
    }
    let (after, v) = target_at(text, e, d, tables, counts, tag, code, used)?;
    let (end, free) = trees::expression_at(text, after, d, tables, counts, code, v)?;
    let (next, _) = domain_due::closing(text, end, d)?;
    Ok((next, free, left - 1))
}

// After `not` and its bracket: a fact that becomes false.
fn deleted_at(
    text: &[u8],
    from: usize,
    d: usize,
    tables: &[u8],
    counts: Counts,
    code: &mut [u8],
    used: usize,
    left: usize,
) -> Progress
    requires { (from ≤ length text.now) × Scopes tables.now counts × (used + 1 + (length text.now - from) ≤ 18446744073709551615) }
    ensures { ((c : Scope) → Scoped tables.now counts c
        → Written effects_cells code.old used result code.new (in_deletion text.now d c left from))
        × Spent 1 (length text.now) used from result }
{
    let t = tokens::token_at(text, from);
    let Token::Word(k, p, e) = t else {
        return Err(domain_due::not_due(t, d));
    };
    let Word::Name = k else {
        return Err(Refusal(3, p));
    };
    if let HeadWord::And = fixed::head_of(tokens::word_of(text, t)) {
        return Err(Refusal(11, p));
    }
    becomes_at(text, p, e, d, tables, counts, 8, code, used, left)
}

// After `not`: a fact in brackets, and the closing bracket.
pub fn deletion_at(
    text: &[u8],
    from: usize,
    d: usize,
    tables: &[u8],
    counts: Counts,
    code: &mut [u8],
    used: usize,
    left: usize,
) -> Progress
    requires { (from ≤ length text.now) × Scopes tables.now counts × (used + (length text.now - from) ≤ 18446744073709551615) }
    ensures { ((c : Scope) → Scoped tables.now counts c
        → Written effects_cells code.old used result code.new (deletion text.now d c left from))
        × Spent 0 (length text.now) used from result }
{
    let (next, _) = domain_due::opening(text, from, d)?;
    let (end, v, l) = deleted_at(text, next, d - 1, tables, counts, code, used, left)?;
    let (after, _) = domain_due::closing(text, end, d)?;
    Ok((after, v, l))
}
