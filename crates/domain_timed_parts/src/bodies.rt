// What stands in a part: a condition, or effects and the cell that ends them.
ghost use Rattle.std.specs.Prelude.{◌+◌, ◌-◌, ◌≤◌, length};
ghost use Rattle.domain_meaning.specs.Terms.{Scope};
ghost use Rattle.domain_terms.specs.Scoped.{Scoped, Scopes};
ghost use Rattle.domain_expressions.specs.Codes.{Written, Spent};
ghost use Rattle.domain_timed_parts.specs.Bodies.{as_is, body_of};

use domain_conditions::trees::condition_at;
use domain_effects::trees::effect_at;
use domain_expressions::leaves::Progress;
use domain_terms::scope::Counts;

// What stands in a part of the condition (`over`: it may span the action), or of the effect.
pub fn body_at(
    text: &[u8],
    from: usize,
    d: usize,
    tables: &[u8],
    counts: Counts,
    code: &mut [u8],
    used: usize,
    left: usize,
    over: bool,
) -> Progress
    requires { (from ≤ length text.now) × Scopes tables.now counts × (used + (length text.now - from) + 2 ≤ 18446744073709551615) }
    ensures { ((c : Scope) → Scoped tables.now counts c
        → Written as_is code.old used result code.new (body_of over text.now c d left from))
        × Spent 1 (length text.now) used from result }
{
    if over {
        return condition_at(text, from, d, tables, counts, code, used, left);
    }
    let (after, free, more) = effect_at(text, from, d, tables, counts, code, used, left)?;
    domain_literals::put(code, free, 0);
    Ok((after, free + 1, more))
}
