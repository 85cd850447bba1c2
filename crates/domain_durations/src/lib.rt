// How long an action lasts, read and written as cells: the rule of a durative action, nothing of a simple one.
#![tactic(auto)]

ghost use Rattle.std.specs.Prelude.{◌≡◌, ◌+◌, ◌-◌, ◌≤◌, length};
ghost use Rattle.domain_due.specs.Answers.{answer_of, Ahead};
ghost use Rattle.domain_meaning.specs.Due.{after_of};
ghost use Rattle.domain_meaning.specs.Terms.{Scope};
ghost use Rattle.domain_meaning.specs.Actions.{rule_head, duration_rule};
ghost use Rattle.domain_terms.specs.Scoped.{Scoped, Scopes};
ghost use Rattle.domain_terms.specs.Cells.{Wrote, Room};
ghost use Rattle.domain_expressions.specs.Codes.{cells_of};
ghost use Rattle.domain_stored_meaning.specs.Cells.{lasting_cells};
ghost use Rattle.domain_durations.specs.Lasts.{rule_begun, lasting_of, Reached};

use domain_due::{Parsed, Refusal};
use domain_expressions::trees;
use domain_terms::scope::Counts;
use text_tokens::tokens;
use text_tokens::tokens::Token;
use text_words::spelling;

// A rule's head word: 11 if it is not `=`, however long.
fn rule_head(text: &[u8], t: Token) -> Parsed
    ensures { result ≡ answer_of (rule_head text.now t (after_of t)) }
{
    if let Token::Refusal(k, p) = t {
        if k == 5 {
            return Err(Refusal(11, p));
        }
        return Err(Refusal(k, p));
    }
    let Token::Word(_, p, e) = t else {
        return Err(domain_due::not_due(t, 13));
    };
    if spelling::same_word(tokens::word_of(text, t), b"=") {
        return Ok((e, p));
    }
    Err(Refusal(11, p))
}

// What stands before a rule's expression: `(= ?duration`.
fn rule_begun(text: &[u8], from: usize) -> Parsed
    requires { from ≤ length text.now }
    ensures { (result ≡ answer_of (rule_begun text.now from)) × Ahead (length text.now) from result }
{
    let (a, _) = domain_due::opening(text, from, 14)?;
    let (b, _) = rule_head(text, tokens::token_at(text, a))?;
    let spot = tokens::spot_at(text, b, b"?duration");
    let Some((p, e)) = spot else {
        return Err(domain_due::not_due(tokens::token_at(text, b), 13));
    };
    Ok((e, p))
}

// The rule `(= ?duration e)`: the cells of e, stored from `used` on.
fn duration_at(
    text: &[u8],
    from: usize,
    tables: &[u8],
    counts: Counts,
    code: &mut [u8],
    used: usize,
) -> Parsed
    requires { (from ≤ length text.now) × Scopes tables.now counts × (used + (length text.now - from) + 1 ≤ 18446744073709551615) }
    ensures { ((c : Scope) → Scoped tables.now counts c
        → Wrote cells_of code.old used result code.new (duration_rule text.now c from))
        × Ahead (length text.now) from result × Room used from result }
{
    let (at, _) = rule_begun(text, from)?;
    let (after, free) = trees::expression_at(text, at, 13, tables, counts, code, used)?;
    let (end, _) = domain_due::closing(text, after, 13)?;
    Ok((end, free))
}

// How long an action lasts, stored from `used` on.
pub fn lasting_at(
    text: &[u8],
    from: usize,
    tables: &[u8],
    counts: Counts,
    code: &mut [u8],
    used: usize,
    durative: bool,
) -> Parsed
    requires { (from ≤ length text.now) × Scopes tables.now counts × (used + (length text.now - from) + 2 ≤ 18446744073709551615) }
    ensures { ((c : Scope) → Scoped tables.now counts c
        → Wrote lasting_cells code.old used result code.new (lasting_of durative text.now c from))
        × Reached (length text.now) used from result }
{
    if durative {
        let (at, _) = domain_due::word_due(text, from, 14, b":duration")?;
        domain_literals::put(code, used, 1);
        return duration_at(text, at, tables, counts, code, used + 1);
    }
    domain_literals::put(code, used, 0);
    Ok((from, used + 1))
}
