// What stands after an action's parameters: its duration rule, its condition and its effect.
ghost use Rattle.std.specs.Prelude.{◌≡◌, [], ◌∷◌, ◌+◌, ◌-◌, ◌*◌, ◌≤◌, ◌<◌, length};
ghost use Rattle.std.proofs.lemmas.List.Edits.{sets};
ghost use Rattle.domain_meaning.specs.Tables.{Entry};
ghost use Rattle.domain_meaning.specs.Terms.{Scope};
ghost use Rattle.domain_terms.specs.Scoped.{Scoped, Scopes};
ghost use Rattle.domain_terms.specs.Cells.{Wrote};
ghost use Rattle.domain_stored_meaning.specs.Cells.{parts_cells, cond_cells, list_cells};
ghost use Rattle.domain_timed_parts.specs.Fields.{Onwards};
ghost use Rattle.domain_actions.specs.Acted.{conditions_of, effects_of, rest_of, Bodied, Ended};

use domain_due::Parsed;
use domain_terms::scope::Counts;
use domain_timed_parts::fields;

// Where the cells of action n begin: its duration rule, its condition, its effect.
fn mark(starts: &mut [usize], n: usize, rule: usize, condition: usize, effect: usize)
    requires { n < 32 }
    ensures { starts.new ≡ sets starts.old (3 * n) (rule ∷ condition ∷ effect ∷ []) }
{
    domain_indexes::bases::put(starts, 3 * n, rule);
    domain_indexes::bases::put(starts, 3 * n + 1, condition);
    domain_indexes::bases::put(starts, 3 * n + 2, effect);
}

// The condition's field.
fn conditions_field(
    text: &[u8],
    from: usize,
    tables: &[u8],
    counts: Counts,
    code: &mut [u8],
    used: usize,
    durative: bool,
) -> Parsed
    requires { (from ≤ length text.now) × Scopes tables.now counts × (used + (length text.now - from) + 3 ≤ 18446744073709551615) }
    ensures { ((c : Scope) → Scoped tables.now counts c
        → Wrote (parts_cells cond_cells) code.old used result code.new (conditions_of durative text.now c from))
        × Onwards (length text.now) used from result }
{
    if durative {
        return fields::field_parts(
            text,
            from,
            b":condition",
            tables,
            counts,
            code,
            used,
            32,
            true,
            true,
        );
    }
    fields::field_parts(
        text,
        from,
        b":precondition",
        tables,
        counts,
        code,
        used,
        32,
        false,
        true,
    )
}

// The effect's field.
fn effects_field(
    text: &[u8],
    from: usize,
    tables: &[u8],
    counts: Counts,
    code: &mut [u8],
    used: usize,
    durative: bool,
) -> Parsed
    requires { (from ≤ length text.now) × Scopes tables.now counts × (used + (length text.now - from) + 3 ≤ 18446744073709551615) }
    ensures { ((c : Scope) → Scoped tables.now counts c
        → Wrote (parts_cells list_cells) code.old used result code.new (effects_of durative text.now c from))
        × Onwards (length text.now) used from result }
{
    fields::field_parts(
        text, from, b":effect", tables, counts, code, used, 16, durative, false,
    )
}

// After the parameters of action n, to its closing bracket.
pub fn body_at(
    text: &[u8],
    from: usize,
    tables: &[u8],
    counts: Counts,
    code: &mut [u8],
    used: usize,
    durative: bool,
    starts: &mut [usize],
    n: usize,
) -> Parsed
    requires { (from ≤ length text.now) × Scopes tables.now counts × (used + (length text.now - from) + 6 ≤ 18446744073709551615) × (n < 32) }
    ensures { ((c : Scope) (e : Entry) → Scoped tables.now counts c
        → Bodied e code.old used starts.old n result code.new starts.new (rest_of durative text.now c e from))
        × Ended 4 (length text.now) used from result }
{
    let (behind, v) = domain_durations::lasting_at(
        text, from, tables, counts, code, used, durative,
    )?;
    let (after, w) = conditions_field(text, behind, tables, counts, code, v, durative)?;
    let (last, free) = effects_field(text, after, tables, counts, code, w, durative)?;
    let (end, _) = domain_due::closing(text, last, 14)?;
    mark(starts, n, used, v, w);
    Ok((end, free))
}
