// Actions one after the other, "of both kinds".
ghost use Rattle.std.specs.Prelude.{◌≡◌, List, [], ℕ, suc, ◌+◌, ◌-◌, ◌≤◌, ◌<◌, length};
ghost use Rattle.domain_meaning.specs.Terms.{Scope};
ghost use Rattle.domain_meaning.specs.Actions.{Action, action};
ghost use Rattle.domain_meaning.specs.Domain.{actions_to};
ghost use Rattle.domain_rows.specs.Held.{rows_of, Holds, Stands};
ghost use Rattle.domain_terms.specs.Scoped.{Scoped, Scopes};
ghost use Rattle.domain_actions.specs.Acted.{declarations, Adds, Stores, Ended, Begins, Further, Later};
ghost use Rattle.domain_rows.specs.Layout.{tables_length};

use crate::{bodies, headers};
use domain_due::Parsed;
use domain_rows::layout;
use domain_terms::scope::Counts;

// After its section's word: action n, whose row, cells and places are stored after those of the actions before it.
fn action_at(
    text: &[u8],
    from: usize,
    tables: &[u8],
    counts: Counts,
    durative: bool,
    rows: &mut [u8],
    n: usize,
    code: &mut [u8],
    used: usize,
    starts: &mut [usize],
) -> Parsed
    requires { (from ≤ length text.now) × Scopes tables.now counts × (length tables.now ≡ tables_length)
        × Stands 32 rows.old n × (used + (length text.now - from) + 2 ≤ 18446744073709551615) }
    ensures { ((c : Scope) (as' : List Action) → Scoped tables.now counts c → Holds 32 rows.old n (declarations as')
        → Adds as' code.old used starts.old result rows.new code.new starts.new
        (action text.now c durative as' from)) × Ended 0 (length text.now) used from result }
{
    let mut own = [0u8; layout::TABLES_LENGTH];
    let (after, v) = headers::header_at(text, from, tables, counts, rows, n, &mut own)?;
    let acting = Counts {
        types: counts.types,
        objects: counts.objects,
        predicates: counts.predicates,
        functions: counts.functions,
        variables: v,
        in_action: true,
    };
    bodies::body_at(text, after, &own, acting, code, used, durative, starts, n)
}

// Whether an action begins here: whether it is durative, and where its section's word ends.
fn begun_at(text: &[u8], from: usize) -> Option<(bool, usize)>
    requires { from ≤ length text.now }
    ensures { ((k : ℕ) (c : Scope) (as' : List Action) → Begins text.now c as' k result (actions_to (suc k) text.now c as' from) from)
        × Further (length text.now) from result }
{
    let simple = domain_sections::begins_at(text, from, b":action");
    if let Some((_, e)) = simple {
        return Some((false, e));
    }
    let durative = domain_sections::begins_at(text, from, b":durative-action");
    if let Some((_, e)) = durative {
        return Some((true, e));
    }
    None
}

// All actions, to the section that is none: how many there are.
pub fn actions_to(
    text: &[u8],
    from: usize,
    tables: &[u8],
    counts: Counts,
    rows: &mut [u8],
    code: &mut [u8],
    starts: &mut [usize],
) -> Parsed
    requires { (from ≤ length text.now) × (2 ≤ from) × Scopes tables.now counts × (length tables.now ≡ tables_length) × (rows.old ≡ rows_of 32 []) }
    ensures { ((c : Scope) (k : ℕ) → Scoped tables.now counts c → length text.now - from < k
        → Stores (length text.now) code.old starts.old result rows.new code.new starts.new
        (actions_to k text.now c [] from)) × Later (length text.now) from result }
{
    let mut at = from;
    let mut n = 0;
    let mut used = 0;
    loop {
        let b = begun_at(text, at);
        let Some((durative, inside)) = b else {
            return Ok((at, n));
        };
        let (after, free) = action_at(
            text, inside, tables, counts, durative, rows, n, code, used, starts,
        )?;
        at = after;
        used = free;
        n += 1;
    }
}
