// What init holds: facts, and numbers after `=`.
ghost use Rattle.std.specs.Prelude.{◌≡◌, ℕ, ◌-◌, ◌≤◌, ◌<◌, true, false, List, ℤ, length};
ghost use Rattle.domain_due.specs.Answers.{answer_of, Ahead};
ghost use Rattle.domain_meaning.specs.Terms.{Scope};
ghost use Rattle.domain_meaning.specs.Problem.{Init, nothing, fact_of, value_of, init_to, sums_fit};
ghost use Rattle.domain_terms.specs.Scoped.{Scoped, Scopes};
ghost use Rattle.domain_init.specs.State.{Begins};
ghost use Rattle.domain_meaning.specs.First.{no_facts, no_numbers};
ghost use Rattle.domain_init.specs.Parts.{Stands, Took, target_of, value_for, entry_of};

use crate::{grounds, values};
use domain_due::{Parsed, Refusal};
use domain_rows::layout;
use domain_terms::scope::Counts;
use text_tokens::tokens;
use text_tokens::tokens::{Token, Word};
use text_words::spelling;

// A fact, whose predicate's name stands from p to e, to its closing bracket.
fn fact_at(
    text: &[u8],
    p: usize,
    e: usize,
    tables: &[u8],
    counts: Counts,
    facts: &mut [u8],
) -> Parsed
    requires { (e ≤ length text.now) × Scopes tables.now counts }
    ensures { ((c : Scope) (x : Init) (numbers : List ℤ) → Scoped tables.now counts c → c.in_action ≡ false
        → Stands facts.old numbers x → Took result facts.new numbers (fact_of text.now c x p e e))
        × Ahead (length text.now) e result }
{
    let n = counts.predicates;
    let (after, i) = grounds::ground_at(
        text,
        p,
        e,
        13,
        tables,
        counts,
        layout::PREDICATES_AT,
        layout::FUNCTIONS_AT,
        n,
    )?;
    domain_literals::put(facts, i, 1);
    Ok((after, 0))
}

// After `=`: the index of the number that is given, if it is not given yet.
fn target_at(text: &[u8], from: usize, tables: &[u8], counts: Counts, numbers: &[i64]) -> Parsed
    requires { (from ≤ length text.now) × Scopes tables.now counts }
    ensures { ((c : Scope) (x : Init) (facts : List ℕ) → Scoped tables.now counts c → c.in_action ≡ false → sums_fit c ≡ true
        → Stands facts numbers.now x → result ≡ answer_of (target_of text.now c x from))
        × Ahead (length text.now) from result }
{
    let (inside, _) = domain_due::opening(text, from, 13)?;
    let (e, p) = domain_due::any_name(text, inside, 12)?;
    let n = counts.functions;
    let (after, i) = grounds::ground_at(
        text,
        p,
        e,
        12,
        tables,
        counts,
        layout::FUNCTIONS_AT,
        layout::VARIABLES_AT,
        n,
    )?;
    if values::is_defined(numbers, i) {
        return Err(Refusal(7, p));
    }
    Ok((after, i))
}

// The value of number i, and the closing bracket.
fn value_at(text: &[u8], from: usize, i: usize, numbers: &mut [i64]) -> Parsed
    requires { from ≤ length text.now }
    ensures { ((x : Init) (facts : List ℕ) → Stands facts numbers.old x
        → Took result facts numbers.new (value_for text.now x i from))
        × Ahead (length text.now) from result }
{
    let t = tokens::token_at(text, from);
    let Token::Number(z, _, e) = t else {
        return Err(domain_due::not_due(t, 13));
    };
    let (after, _) = domain_due::closing(text, e, 13)?;
    values::put(numbers, i, z);
    Ok((after, 0))
}

// After `=`: a number with its value, to the closing bracket.
fn number_at(text: &[u8], from: usize, tables: &[u8], counts: Counts, numbers: &mut [i64]) -> Parsed
    requires { (from ≤ length text.now) × Scopes tables.now counts }
    ensures { ((c : Scope) (x : Init) (facts : List ℕ) → Scoped tables.now counts c → c.in_action ≡ false → sums_fit c ≡ true
        → Stands facts numbers.old x → Took result facts numbers.new (value_of text.now c x from))
        × Ahead (length text.now) from result }
{
    let (after, i) = target_at(text, from, tables, counts, numbers)?;
    value_at(text, after, i, numbers)
}

// A fact or a number with its brackets.
fn entry_at(
    text: &[u8],
    from: usize,
    tables: &[u8],
    counts: Counts,
    facts: &mut [u8],
    numbers: &mut [i64],
) -> Parsed
    requires { (from ≤ length text.now) × Scopes tables.now counts }
    ensures { ((c : Scope) (x : Init) → Scoped tables.now counts c → c.in_action ≡ false → sums_fit c ≡ true
        → Stands facts.old numbers.old x → Took result facts.new numbers.new (entry_of text.now c x from))
        × Ahead (length text.now) from result }
{
    let (inside, _) = domain_due::opening(text, from, 14)?;
    let t = tokens::token_at(text, inside);
    let Token::Word(k, p, e) = t else {
        return Err(domain_due::not_due(t, 13));
    };
    match k {
        Word::Name => fact_at(text, p, e, tables, counts, facts),
        Word::Operator => {
            if spelling::same_word(tokens::word_of(text, t), b"=") {
                return number_at(text, e, tables, counts, numbers);
            }
            Err(Refusal(3, p))
        }
        Word::Variable => Err(Refusal(3, p)),
        Word::Keyword => Err(Refusal(3, p)),
    }
}

// What init holds, to its closing bracket.
pub fn init_to(
    text: &[u8],
    from: usize,
    tables: &[u8],
    counts: Counts,
    facts: &mut [u8],
    numbers: &mut [i64],
) -> Parsed
    requires { (from ≤ length text.now) × Scopes tables.now counts × (facts.old ≡ no_facts) × (numbers.old ≡ no_numbers) }
    ensures { ((c : Scope) (k : ℕ) → Scoped tables.now counts c → c.in_action ≡ false → sums_fit c ≡ true
        → length text.now - from < k → Begins result facts.new numbers.new (init_to k text.now c nothing from))
        × Ahead (length text.now) from result }
{
    let mut at = from;
    loop {
        let t = tokens::token_at(text, at);
        if let Token::Close(_, next) = t {
            return Ok((next, 0));
        }
        let (after, _) = entry_at(text, at, tables, counts, facts, numbers)?;
        at = after;
    }
}
