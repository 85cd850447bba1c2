// An action's name and its parameters, read into the table of actions and into a scope of the action's own.
ghost use Rattle.std.specs.Prelude.{◌≡◌, ◌≤◌, length};
ghost use Rattle.domain_meaning.specs.Tables.{Table};
ghost use Rattle.domain_meaning.specs.Lists.{variables_to};
ghost use Rattle.domain_meaning.specs.Terms.{Scope};
ghost use Rattle.domain_due.specs.Answers.{Ahead};
ghost use Rattle.domain_rows.specs.Held.{Holds, Stands};
ghost use Rattle.domain_typed_lists.specs.Outcome.{Signed};
ghost use Rattle.domain_terms.specs.Scoped.{Scoped, Scopes};
ghost use Rattle.domain_actions.specs.Titles.{title_of, Titled, Owned, Beyond};
ghost use Rattle.domain_rows.specs.Layout.{tables_length};

use domain_due::Parsed;
use domain_rows::layout;
use domain_terms::scope::Counts;
use domain_typed_lists::typed;
use text_tokens::runs;

// The parameters, after their opening bracket: `own` becomes the tables with them in it, `info` gets their number and their types.
fn parameters_to(
    text: &[u8],
    from: usize,
    tables: &[u8],
    counts: Counts,
    own: &mut [u8],
    info: &mut [u8],
) -> Parsed
    requires { (from ≤ length text.now) × Scopes tables.now counts × (length tables.now ≡ tables_length)
        × (length own.old ≡ tables_length) × (length info.old ≡ 5) }
    ensures { ((c : Scope) → Scoped tables.now counts c
        → Signed 4 result info.old info.new (variables_to text.now c.types 4 from) × Owned c counts own.new
        (variables_to text.now c.types 4 from)) × Ahead (length text.now) from result }
{
    let mut table = [0u8; layout::VARIABLES_LENGTH];
    let types = runs::part_of(tables, 0, layout::TYPES_LENGTH);
    let (after, n) = typed::variables_to(text, from, types, counts.types, &mut table, 4)?;
    domain_rows::signature(&table, 4, n, info);
    domain_rows::copy(own, 0, tables);
    domain_rows::copy(own, layout::VARIABLES_AT, &table);
    Ok((after, n))
}

// After the word that opens an action: the place after the parameters, and how many there are.
pub fn header_at(
    text: &[u8],
    from: usize,
    tables: &[u8],
    counts: Counts,
    rows: &mut [u8],
    n: usize,
    own: &mut [u8],
) -> Parsed
    requires { (from ≤ length text.now) × Scopes tables.now counts × (length tables.now ≡ tables_length) × (length own.old ≡ tables_length)
        × Stands 32 rows.old n }
    ensures { ((c : Scope) (t : Table) → Scoped tables.now counts c → Holds 32 rows.old n t
        → Titled c counts n t result rows.new own.new (title_of text.now c t from))
        × Beyond (length text.now) from result }
{
    let (end, start) = domain_due::new_name(text, from, 14)?;
    typed::fresh_at(text, start, start, end, rows, 32, n)?;
    let (behind, _) = domain_due::word_due(text, end, 14, b":parameters")?;
    let (inside, _) = domain_due::opening(text, behind, 14)?;
    let mut info = [0u8; 5];
    let (after, v) = parameters_to(text, inside, tables, counts, own, &mut info)?;
    let m = v + 1;
    domain_rows::enter(rows, 32, n, runs::part_of(text, start, end), &info[..m]);
    Ok((after, v))
}
