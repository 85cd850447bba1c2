// The fields of an action that hold its condition and its effect, each optional.
ghost use Rattle.std.specs.Prelude.{◌≡◌, ◌+◌, ◌-◌, ◌≤◌, length};
ghost use Rattle.domain_meaning.specs.Terms.{Scope};
ghost use Rattle.domain_meaning.specs.Actions.{field_of};
ghost use Rattle.domain_terms.specs.Scoped.{Scoped, Scopes};
ghost use Rattle.domain_terms.specs.Cells.{Wrote};
ghost use Rattle.domain_expressions.specs.Codes.{Written, Spent, Over};
ghost use Rattle.domain_timed_parts.specs.Bodies.{timed_cells};
ghost use Rattle.domain_timed_parts.specs.Fields.{field_found, Farther, parts_of, field_parts, ended_cells, Onwards};

use crate::{bodies, timed};
use domain_due::{Parsed, Refusal};
use domain_expressions::leaves::Progress;
use domain_terms::scope::Counts;
use text_tokens::tokens;
use text_tokens::tokens::Token;
use text_words::spelling;

// Whether a field's word follows: where it ends.
fn field_at(text: &[u8], from: usize, w: &[u8]) -> Option<usize>
    requires { from ≤ length text.now }
    ensures { (result ≡ field_found (field_of text.now w.now from)) × Farther (length text.now) from result }
{
    let t = tokens::token_at(text, from);
    let Token::Word(_, p, e) = t else {
        return None;
    };
    if spelling::same_word(tokens::word_of(text, t), w) {
        return Some(e);
    }
    None
}

// After a field's word: the parts of a durative action, or the one condition or effect of a simple one, which is at its start.
fn held_at(
    text: &[u8],
    from: usize,
    tables: &[u8],
    counts: Counts,
    code: &mut [u8],
    used: usize,
    left: usize,
    durative: bool,
    over: bool,
) -> Progress
    requires { (from ≤ length text.now) × Scopes tables.now counts × (used + (length text.now - from) + 3 ≤ 18446744073709551615) }
    ensures { ((c : Scope) → Scoped tables.now counts c
        → Written timed_cells code.old used result code.new (parts_of durative over text.now c left from))
        × Spent 2 (length text.now) used from result }
{
    if durative {
        return timed::parts_at(text, from, 14, tables, counts, code, used, left, over);
    }
    domain_literals::put(code, used, 1);
    bodies::body_at(text, from, 14, tables, counts, code, used + 1, left, over)
}

// The field w, stored with the cell that ends it from `used` on; of what it holds at most `left` are single.
pub fn field_parts(
    text: &[u8],
    from: usize,
    w: &[u8],
    tables: &[u8],
    counts: Counts,
    code: &mut [u8],
    used: usize,
    left: usize,
    durative: bool,
    over: bool,
) -> Parsed
    requires { (from ≤ length text.now) × Scopes tables.now counts × (used + (length text.now - from) + 3 ≤ 18446744073709551615) }
    ensures { ((c : Scope) → Scoped tables.now counts c
        → Wrote ended_cells code.old used result code.new (field_parts durative over text.now c w.now left from))
        × Onwards (length text.now) used from result }
{
    let f = field_at(text, from, w);
    let Some(inside) = f else {
        domain_literals::put(code, used, 0);
        return Ok((from, used + 1));
    };
    let (after, free, _) = held_at(
        text, inside, tables, counts, code, used, left, durative, over,
    )?;
    domain_literals::put(code, free, 0);
    Ok((after, free + 1))
}
