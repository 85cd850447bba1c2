// "In a durative action each part, under at most one outer `and`, is `at start`, `over all` (conditions only) or `at end` around a condition or effect."
ghost use Rattle.std.specs.Prelude.{ℕ, ◌+◌, ◌-◌, ◌≤◌, ◌<◌, length};
ghost use Rattle.domain_meaning.specs.Terms.{Scope};
ghost use Rattle.domain_meaning.specs.Actions.{part_behind, part_at, parts_to, parts};
ghost use Rattle.domain_terms.specs.Scoped.{Scoped, Scopes};
ghost use Rattle.domain_expressions.specs.Codes.{Written, Spent};
ghost use Rattle.domain_timed_parts.specs.Bodies.{body_of, timed_cells};

use crate::{bodies, times};
use domain_due::Parsed;
use domain_expressions::leaves;
use domain_expressions::leaves::Progress;
use domain_terms::scope::Counts;
use text_tokens::tokens;
use text_tokens::tokens::Token;
use text_words::spelling;

// After a part's first word, which stands from p to e.
fn part_behind(
    text: &[u8],
    p: usize,
    e: usize,
    d: usize,
    tables: &[u8],
    counts: Counts,
    code: &mut [u8],
    used: usize,
    left: usize,
    over: bool,
) -> Progress
    requires { (e ≤ length text.now) × Scopes tables.now counts × (used + (length text.now - e) + 3 ≤ 18446744073709551615) }
    ensures { ((c : Scope) → Scoped tables.now counts c
        → Written timed_cells code.old used result code.new
        (part_behind text.now over (body_of over text.now c) d left p e e))
        × Spent 0 (length text.now) used e result }
{
    let (at, when) = times::time_of(text, p, e, d, over)?;
    domain_literals::put(code, used, when);
    let (after, free, more) = bodies::body_at(
        text,
        at,
        d,
        tables,
        counts,
        code,
        used + 1,
        left,
        over,
    )?;
    let (end, _) = domain_due::closing(text, after, d)?;
    Ok((end, free, more))
}

// A part.
fn part_at(
    text: &[u8],
    from: usize,
    d: usize,
    tables: &[u8],
    counts: Counts,
    code: &mut [u8],
    used: usize,
    left: usize,
    over: bool,
) -> Progress
    requires { (from ≤ length text.now) × Scopes tables.now counts × (used + (length text.now - from) + 3 ≤ 18446744073709551615) }
    ensures { ((c : Scope) → Scoped tables.now counts c
        → Written timed_cells code.old used result code.new (part_at text.now over (body_of over text.now c) d left from))
        × Spent 0 (length text.now) used from result }
{
    let (inside, _) = domain_due::opening(text, from, d)?;
    let t = tokens::token_at(text, inside);
    let Token::Word(_, p, e) = t else {
        return Err(domain_due::not_due(t, d - 1));
    };
    part_behind(text, p, e, d - 1, tables, counts, code, used, left, over)
}

// Parts, to the closing bracket.
fn parts_to(
    text: &[u8],
    from: usize,
    d: usize,
    tables: &[u8],
    counts: Counts,
    code: &mut [u8],
    used: usize,
    left: usize,
    over: bool,
) -> Progress
    requires { (from ≤ length text.now) × Scopes tables.now counts × (used + (length text.now - from) + 3 ≤ 18446744073709551615) }
    ensures { ((c : Scope) (k : ℕ) → Scoped tables.now counts c → length text.now - from < k
        → Written timed_cells code.old used result code.new (parts_to text.now over (body_of over text.now c) k d left from))
        × Spent 0 (length text.now) used from result }
{
    let mut at = from;
    let mut free = used;
    let mut more = left;
    loop {
        let t = tokens::token_at(text, at);
        if let Token::Close(_, next) = t {
            return Ok((next, free, more));
        }
        let (after, v, l) = part_at(text, at, d, tables, counts, code, free, more, over)?;
        at = after;
        free = v;
        more = l;
    }
}

// A durative action's parts.
pub fn parts_at(
    text: &[u8],
    from: usize,
    d: usize,
    tables: &[u8],
    counts: Counts,
    code: &mut [u8],
    used: usize,
    left: usize,
    over: bool,
) -> Progress
    requires { (from ≤ length text.now) × Scopes tables.now counts × (used + (length text.now - from) + 3 ≤ 18446744073709551615) }
    ensures { ((c : Scope) → Scoped tables.now counts c
        → Written timed_cells code.old used result code.new (parts text.now over (body_of over text.now c) d left from))
        × Spent 0 (length text.now) used from result }
{
    let (inside, _) = domain_due::opening(text, from, d)?;
    let t = tokens::token_at(text, inside);
    let Token::Word(_, p, e) = t else {
        return Err(domain_due::not_due(t, d - 1));
    };
    if spelling::same_word(tokens::word_of(text, t), b"and") {
        return parts_to(text, e, d - 1, tables, counts, code, used, left, over);
    }
    part_behind(text, p, e, d - 1, tables, counts, code, used, left, over)
}
