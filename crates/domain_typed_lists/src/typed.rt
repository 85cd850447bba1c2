// Typed lists: names, each group of them before its type, read into a table.
ghost use Rattle.std.specs.Prelude.{◌≡◌, cond, List, [], ℕ, ◌-◌, ◌≤◌, ◌<◌, length};
ghost use Rattle.text_tokens.specs.Runs.{part};
ghost use Rattle.domain_meaning.specs.Read.{and_then};
ghost use Rattle.domain_meaning.specs.Tables.{Table, fresh};
ghost use Rattle.domain_meaning.specs.Lists.{type_due, group, declare, waiting, typed, names_to, variables_to, types_to};
ghost use Rattle.domain_due.specs.Answers.{answer_of, Ahead};
ghost use Rattle.domain_rows.specs.Held.{rows_of, Holds, Stands};
ghost use Rattle.domain_typed_lists.specs.Outcome.{Outcome, Below, Room};

use crate::items::Item;
use crate::{items, types};
use domain_due::{Parsed, Refusal};
use domain_rows::layout;
use text_tokens::runs;
use text_words::names;

// Whether the name may be declared in the table.
pub fn fresh_at(
    text: &[u8],
    place: usize,
    start: usize,
    end: usize,
    rows: &[u8],
    max: usize,
    n: usize,
) -> Parsed
    ensures { ((m : ℕ) (t : Table) → Holds m rows.now n t → result ≡ answer_of (fresh max t place (part text.now start end) end))
        × Room max n result }
{
    if names::find(rows, n, runs::part_of(text, start, end)).is_some() {
        return Err(Refusal(7, place));
    };
    if max <= n {
        return Err(Refusal(12, place));
    }
    Ok((end, place))
}

// A name more in the table, an object.
fn declare_name(
    text: &[u8],
    place: usize,
    start: usize,
    end: usize,
    rows: &mut [u8],
    max: usize,
    n: usize,
) -> Parsed
    requires { (length (part text.now start end) ≤ 32) × Stands max rows.old n }
    ensures { (t : Table) → Holds max rows.old n t
        → Outcome max result rows.new (declare max t place (part text.now start end) end) }
{
    let (after, _) = fresh_at(text, place, start, end, rows, max, n)?;
    let object = [0u8; 1];
    domain_rows::enter(rows, max, n, runs::part_of(text, start, end), &object);
    Ok((after, n + 1))
}

// After a dash: a type's parent stands before the group, any other type is in `types`.
fn type_of_group(
    text: &[u8],
    from: usize,
    own: bool,
    types: &[u8],
    tn: usize,
    rows: &[u8],
    g: usize,
    n: usize,
) -> Parsed
    requires { (from ≤ length text.now) × (tn ≤ 255) × (g ≤ 255) }
    ensures { ((m : ℕ) (ts t : Table) → Holds 17 types.now tn ts → Holds m rows.now n t
        → result ≡ answer_of (type_due text.now (cond own t ts) (cond own g (length ts)) from))
        × Ahead (length text.now) from result × Below 256 result }
{
    if own {
        return types::type_due(text, from, rows, n, g);
    }
    types::type_due(text, from, types, tn, tn)
}

// After a dash at p: the group's names, where there are any, get their type.
fn group_at(
    text: &[u8],
    p: usize,
    from: usize,
    own: bool,
    types: &[u8],
    tn: usize,
    rows: &mut [u8],
    max: usize,
    g: usize,
    n: usize,
) -> Parsed
    requires { (from ≤ length text.now) × Stands 17 types.now tn × Stands max rows.old n × (n ≤ 255) }
    ensures { ((ts t : Table) → Holds 17 types.now tn ts → Holds max rows.old n t
        → Outcome max result rows.new (and_then (waiting t g p from) (λ _. group text.now own ts t g)))
        × Ahead (length text.now) from result }
{
    if n <= g {
        return Err(Refusal(3, p));
    }
    let (after, k) = type_of_group(text, from, own, types, tn, rows, g, n)?;
    domain_rows::fill(rows, max, g, n, k as u8);
    Ok((after, n))
}

// The list's rest, to its closing bracket: of names or of variables (`var`), of types (`own`) or of what has a type of `types`.
pub fn typed_list(
    text: &[u8],
    mut at: usize,
    var: bool,
    own: bool,
    types: &[u8],
    tn: usize,
    rows: &mut [u8],
    max: usize,
    mut n: usize,
) -> Parsed
    requires { (at ≤ length text.now) × Stands 17 types.now tn × Stands max rows.old n × (max ≤ 255) }
    ensures { ((ts t : Table) (k : ℕ) → Holds 17 types.now tn ts → Holds max rows.old n t → length text.now - at < k
        → Outcome max result rows.new (typed k text.now var own ts max t n at))
        × Ahead (length text.now) at result }
{
    let mut g = n;
    loop {
        match items::item_at(text, at, var)? {
            Item::Close(next) => return Ok((next, n)),
            Item::Dash(p, next) => {
                let (after, m) = group_at(text, p, next, own, types, tn, rows, max, g, n)?;
                at = after;
                n = m;
                g = m;
            }
            Item::Name(place, start, end) => {
                let (_, m) = declare_name(text, place, start, end, rows, max, n)?;
                at = end;
                n = m;
            }
        }
    }
}

// Objects or constants, after the `count` that are in the table.
pub fn names_to(
    text: &[u8],
    from: usize,
    types: &[u8],
    tn: usize,
    rows: &mut [u8],
    count: usize,
) -> Parsed
    requires { (from ≤ length text.now) × Stands 17 types.now tn × Stands 64 rows.old count }
    ensures { ((ts t : Table) → Holds 17 types.now tn ts → Holds 64 rows.old count t
        → Outcome 64 result rows.new (names_to text.now ts 64 t from))
        × Ahead (length text.now) from result }
{
    typed_list(text, from, false, false, types, tn, rows, 64, count)
}

// The variables of a declaration, in a table of its own.
pub fn variables_to(
    text: &[u8],
    from: usize,
    types: &[u8],
    tn: usize,
    rows: &mut [u8],
    most: usize,
) -> Parsed
    requires { (from ≤ length text.now) × Stands 17 types.now tn × (rows.old ≡ rows_of most []) × (most ≤ 255) }
    ensures { ((ts : Table) → Holds 17 types.now tn ts → Outcome most result rows.new (variables_to text.now ts most from))
        × Ahead (length text.now) from result }
{
    typed_list(text, from, true, false, types, tn, rows, most, 0)
}

// The types of a domain, after `object`.
pub fn types_to(text: &[u8], from: usize, rows: &mut [u8]) -> Parsed
    requires { (from ≤ length text.now) × (rows.old ≡ rows_of 17 []) }
    ensures { Outcome 17 result rows.new (types_to text.now from) × Ahead (length text.now) from result }
{
    let root = [0u8; 1];
    domain_rows::enter(rows, 17, 0, b"object", &root);
    let none = [0u8; layout::TYPES_LENGTH];
    typed_list(text, from, false, true, &none, 0, rows, 17, 1)
}
