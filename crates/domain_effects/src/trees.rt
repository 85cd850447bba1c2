// Effects and lists of them: one after the other, as they are written.
ghost use Rattle.std.specs.Prelude.{ℕ, ◌+◌, ◌-◌, ◌≤◌, ◌<◌, length};
ghost use Rattle.domain_meaning.specs.Terms.{Scope};
ghost use Rattle.domain_meaning.specs.Effects.{effects_to, effect};
ghost use Rattle.domain_terms.specs.Scoped.{Scoped, Scopes};
ghost use Rattle.domain_expressions.specs.Codes.{Written, Spent};
ghost use Rattle.domain_stored_meaning.specs.Cells.{effects_cells};

use crate::heads::EffectHead;
use crate::{heads, singles};
use domain_expressions::leaves;
use domain_expressions::leaves::Progress;
use domain_terms::scope::Counts;
use text_tokens::tokens;
use text_tokens::tokens::Token;

// An effect, where d levels of brackets and `left` single effects are left, stored from `used` on.
#[cycle(effect_at_effects_to)]
pub fn effect_at(
    text: &[u8],
    from: usize,
    d: usize,
    tables: &[u8],
    counts: Counts,
    code: &mut [u8],
    used: usize,
    left: usize,
) -> Progress
    requires { (from ≤ length text.now) × Scopes tables.now counts × (used + (length text.now - from) + 2 ≤ 18446744073709551615) }
    ensures { ((c : Scope) → Scoped tables.now counts c
        → Written effects_cells code.old used result code.new (effect d text.now c left from))
        × Spent 0 (length text.now) used from result }
{
    let head = heads::begun_at(text, from, d)?;
    match head {
        EffectHead::All(e) => effects_to(text, e, d - 1, tables, counts, code, used, left),
        EffectHead::Not(e) => singles::deletion_at(
            text,
            e,
            d - 1,
            tables,
            counts,
            code,
            used,
            left,
        ),
        EffectHead::Change(tag, p, e) => {
            singles::change_at(text, p, e, d - 1, tables, counts, tag, code, used, left)
        }
        EffectHead::Fact(p, e) => {
            singles::becomes_at(text, p, e, d - 1, tables, counts, 4, code, used, left)
        }
    }
}

// Effects to the closing bracket.
#[cycle(effect_at_effects_to)]
fn effects_to(
    text: &[u8],
    from: usize,
    d: usize,
    tables: &[u8],
    counts: Counts,
    code: &mut [u8],
    used: usize,
    left: usize,
) -> Progress
    requires { (from ≤ length text.now) × Scopes tables.now counts × (used + (length text.now - from) + 2 ≤ 18446744073709551615) }
    ensures { ((c : Scope) (k : ℕ) → Scoped tables.now counts c → length text.now - from < k
        → Written effects_cells code.old used result code.new (effects_to k text.now d (effect d text.now c) left from))
        × Spent 0 (length text.now) used from result }
{
    let mut at = from;
    let mut u = used;
    let mut n = left;
    loop {
        let t = tokens::token_at(text, at);
        if let Token::Close(_, next) = t {
            return Ok((next, u, n));
        }
        let (after, v, l) = effect_at(text, at, d, tables, counts, code, u, n)?;
        at = after;
        u = v;
        n = l;
    }
}
