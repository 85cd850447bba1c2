// Arguments: each is an object or a parameter, of the wanted type or below it.
ghost use Rattle.std.specs.Prelude.{◌≡◌, ℕ, ◌+◌, ◌-◌, ◌≤◌, ◌<◌, length, List};
ghost use Rattle.text_tokens.specs.Runs.{part};
ghost use Rattle.text_tokens.specs.declared.tokens.Word.TheVariants as W;
ghost use Rattle.domain_due.specs.Answers.{Ahead};
ghost use Rattle.domain_meaning.specs.Tables.{Table, entry_at, wanted_of, is_below};
ghost use Rattle.domain_meaning.specs.Terms.{Scope, given_by, argument, arguments};
ghost use Rattle.domain_rows.specs.Held.{Holds};
ghost use Rattle.domain_terms.specs.Scoped.{Scoped, Scopes, AllSigned, Signatures};
ghost use Rattle.domain_terms.specs.Cells.{cell_answer, type_of_cell, arg_cells, Wrote, Cellular, Room};

use crate::scope;
use crate::scope::Counts;
use domain_due::{Parsed, Refusal};
use domain_rows::layout;
use text_tokens::tokens::{Token, Word};
use text_tokens::{runs, tokens};

// An object's name w, which stands from p to e: its cell.
fn object_at(w: &[u8], p: usize, e: usize, tables: &[u8], counts: Counts) -> Parsed
    requires { Scopes tables.now counts }
    ensures { ((s : List ℕ) (c : Scope) → w.now ≡ part s p e → Scoped tables.now counts c
        → result ≡ cell_answer (given_by s c W.Name p e e)) × Cellular result }
{
    let n = counts.objects;
    let Some(i) = scope::find_in(tables, layout::OBJECTS_AT, layout::PREDICATES_AT, n, w) else {
        return Err(Refusal(8, p));
    };
    Ok((e, i))
}

// A variable from its mark at p to e: its cell, in an action.
fn variable_at(text: &[u8], p: usize, e: usize, tables: &[u8], counts: Counts) -> Parsed
    requires { Scopes tables.now counts × (p < e) }
    ensures { ((c : Scope) → Scoped tables.now counts c → result ≡ cell_answer (given_by text.now c W.Variable p e e)) × Cellular result }
{
    if !counts.in_action {
        return Err(Refusal(3, p));
    }
    let n = counts.variables;
    let name = runs::part_of(text, p + 1, e);
    let Some(i) = scope::find_in(tables, layout::VARIABLES_AT, layout::TABLES_LENGTH, n, name)
    else {
        return Err(Refusal(8, p));
    };
    Ok((e, 64 + i))
}

// An argument: its cell.
pub fn argument_at(text: &[u8], from: usize, d: usize, tables: &[u8], counts: Counts) -> Parsed
    requires { (from ≤ length text.now) × Scopes tables.now counts }
    ensures { ((c : Scope) → Scoped tables.now counts c → result ≡ cell_answer (argument text.now d c from))
        × Cellular result × Ahead (length text.now) from result }
{
    let t = tokens::token_at(text, from);
    let Token::Word(k, p, e) = t else {
        return Err(domain_due::not_due(t, d));
    };
    match k {
        Word::Name => object_at(tokens::word_of(text, t), p, e, tables, counts),
        Word::Variable => variable_at(text, p, e, tables, counts),
        Word::Keyword | Word::Operator => Err(Refusal(3, p)),
    }
}

// The type of the argument in a cell.
pub fn type_of_cell(tables: &[u8], counts: Counts, x: usize) -> usize
    requires { Scopes tables.now counts }
    ensures { (c : Scope) → Scoped tables.now counts c → result ≡ type_of_cell c x }
{
    if x < 64 {
        return scope::kept_in(tables, layout::OBJECTS_AT, counts.objects, x, 0);
    }
    scope::kept_in(tables, layout::VARIABLES_AT, counts.variables, x - 64, 0)
}

// Whether the argument in a cell is of the wanted type, or below it.
fn fits_at(tables: &[u8], counts: Counts, x: usize, want: usize) -> bool
    requires { Scopes tables.now counts }
    ensures { (c : Scope) → Scoped tables.now counts c → result ≡ is_below (length c.types) c.types (type_of_cell c x) want }
{
    scope::is_below(tables, counts.types, type_of_cell(tables, counts, x), want)
}

// The arguments of name i of the table from `off` on, to the closing bracket, stored from `used` on.
pub fn arguments_at(
    text: &[u8],
    from: usize,
    d: usize,
    tables: &[u8],
    counts: Counts,
    off: usize,
    n: usize,
    i: usize,
    code: &mut [u8],
    used: usize,
) -> Parsed
    requires { (from ≤ length text.now) × Scopes tables.now counts × Signatures tables.now off n
        × (i < n) × (used + (length text.now - from) ≤ 18446744073709551615) }
    ensures { ((c : Scope) (m to : ℕ) (t : Table) → Scoped tables.now counts c → Holds m (part tables.now off to) n t → AllSigned t
        → Wrote arg_cells code.old used result code.new (arguments text.now d c (wanted_of (entry_at t i)) from))
        × Ahead (length text.now) from result × Room used from result }
{
    let arity = scope::kept_in(tables, off, n, i, 0);
    let mut j = 0;
    let mut at = from;
    let mut u = used;
    loop {
        let t = tokens::token_at(text, at);
        if let Token::Close(p, next) = t {
            if j < arity {
                return Err(Refusal(9, p));
            }
            return Ok((next, u));
        }
        let (after, x) = argument_at(text, at, d, tables, counts)?;
        if arity <= j {
            return Err(Refusal(9, domain_due::place_of(t)));
        }
        if !fits_at(tables, counts, x, scope::kept_in(tables, off, n, i, j + 1)) {
            return Err(Refusal(10, domain_due::place_of(t)));
        }
        domain_literals::put(code, u, x);
        u += 1;
        at = after;
        j += 1;
    }
}
