// Predicates and functions: each a name and its typed variables, of which the number and the types are kept.
ghost use Rattle.std.specs.Prelude.{◌≡◌, List, [], ℕ, ◌-◌, ◌≤◌, ◌<◌, length};
ghost use Rattle.domain_meaning.specs.Tables.{Table};
ghost use Rattle.domain_meaning.specs.Lists.{variables_to, declaration, declarations};
ghost use Rattle.domain_due.specs.Answers.{Ahead};
ghost use Rattle.domain_rows.specs.Held.{rows_of, Holds, Stands};
ghost use Rattle.domain_typed_lists.specs.Outcome.{Outcome, Signed};

use crate::typed;
use domain_due::Parsed;
use text_tokens::tokens::Token;
use text_tokens::{runs, tokens};
use text_words::names::ROW;

// The number of the variables and their types, in `info`; the variables themselves are read into `rows`, which are empty.
fn signature_to(
    text: &[u8],
    from: usize,
    types: &[u8],
    tn: usize,
    rows: &mut [u8],
    most: usize,
    info: &mut [u8],
) -> Parsed
    requires { (from ≤ length text.now) × Stands 17 types.now tn × (rows.old ≡ rows_of most []) × (most < length info.old) × (most ≤ 255) }
    ensures { ((ts : Table) → Holds 17 types.now tn ts
        → Signed most result info.old info.new (variables_to text.now ts most from))
        × Ahead (length text.now) from result }
{
    let (after, n) = typed::variables_to(text, from, types, tn, rows, most)?;
    domain_rows::signature(rows, most, n, info);
    Ok((after, n))
}

// After the opening bracket of one declaration, of at most 3 variables.
fn declaration_at(
    text: &[u8],
    from: usize,
    types: &[u8],
    tn: usize,
    rows: &mut [u8],
    max: usize,
    most: usize,
    n: usize,
) -> Parsed
    requires { (from ≤ length text.now) × Stands 17 types.now tn × Stands max rows.old n × (most ≤ 3) }
    ensures { ((ts t : Table) → Holds 17 types.now tn ts → Holds max rows.old n t
        → Outcome max result rows.new (declaration text.now ts max most t from))
        × Ahead (length text.now) from result }
{
    let (end, start) = domain_due::new_name(text, from, 13)?;
    typed::fresh_at(text, start, start, end, rows, max, n)?;
    let mut table = [0u8; 3 * ROW];
    let width = ROW * most;
    let mut info = [0u8; 4];
    let (after, vn) = signature_to(text, end, types, tn, &mut table[..width], most, &mut info)?;
    let m = vn + 1;
    domain_rows::enter(rows, max, n, runs::part_of(text, start, end), &info[..m]);
    Ok((after, n + 1))
}

// The rest of the declarations, to the closing bracket: at most `max`, each of at most `most` variables.
pub fn declarations_at(
    text: &[u8],
    from: usize,
    types: &[u8],
    tn: usize,
    rows: &mut [u8],
    max: usize,
    most: usize,
    count: usize,
) -> Parsed
    requires { (from ≤ length text.now) × Stands 17 types.now tn × Stands max rows.old count × (most ≤ 3) }
    ensures { ((ts t : Table) (k : ℕ) → Holds 17 types.now tn ts → Holds max rows.old count t
        → length text.now - from < k → Outcome max result rows.new (declarations k text.now ts max most t from))
        × Ahead (length text.now) from result }
{
    let mut at = from;
    let mut n = count;
    loop {
        let c = tokens::token_at(text, at);
        if let Token::Close(_, next) = c {
            return Ok((next, n));
        }
        let (inside, _) = domain_due::opening(text, at, 14)?;
        let (after, m) = declaration_at(text, inside, types, tn, rows, max, most, n)?;
        at = after;
        n = m;
    }
}
