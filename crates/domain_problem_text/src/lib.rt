// The text of a problem, read whole: its objects beside what the domain declares, the first facts and numbers, and the goal as cells.
#![tactic(auto)]

pub mod premises;

ghost use Rattle.std.specs.Prelude.{◌≡◌, false, ◌≤◌, ◌<◌, length};
ghost use Rattle.domain_meaning.specs.Terms.{Scope};
ghost use Rattle.domain_meaning.specs.Domain.{Domain};
ghost use Rattle.domain_meaning.specs.Problem.{goal_to, scope_of, read_problem};
ghost use Rattle.domain_preamble.specs.Onwards.{Onwards};
ghost use Rattle.domain_terms.specs.Scoped.{Scoped, Scopes};
ghost use Rattle.domain_meaning.specs.First.{no_facts, no_numbers};
ghost use Rattle.domain_problem_text.specs.Parts.{start_at, goal_from, rest_of, Started, Reached, Aimed, Settled};
ghost use Rattle.domain_problem_text.specs.Posed.{Posed};
ghost use Rattle.domain_rows.specs.Layout.{tables_length};

use domain_conditions::trees;
use domain_due::{Parsed, Refusal};
use domain_expressions::leaves::Progress;
use domain_init::entries;
use domain_terms::scope::Counts;

// Init, if there is one: the place after it, and 1; else 0. The sums are judged at its word.
fn init_at(
    text: &[u8],
    from: usize,
    tables: &[u8],
    counts: Counts,
    facts: &mut [u8],
    numbers: &mut [i64],
) -> Parsed
    requires { (from ≤ length text.now) × Scopes tables.now counts × (facts.old ≡ no_facts) × (numbers.old ≡ no_numbers) }
    ensures { ((c : Scope) → Scoped tables.now counts c → c.in_action ≡ false
        → Started c result facts.new numbers.new (start_at text.now c from))
        × Onwards (length text.now) from result }
{
    let o = domain_sections::begins_at(text, from, b":init");
    let Some((p, inside)) = o else {
        return Ok((from, 0));
    };
    premises::sums_at(tables, counts, inside, p)?;
    let (after, _) = entries::init_to(text, inside, tables, counts, facts, numbers)?;
    Ok((after, 1))
}

// The goal's condition, to the section's closing bracket: at most 64 single ones.
fn goal_to(text: &[u8], from: usize, tables: &[u8], counts: Counts, goal: &mut [u8]) -> Parsed
    requires { (1 < from) × (from ≤ length text.now) × Scopes tables.now counts }
    ensures { (c : Scope) → Scoped tables.now counts c
        → Reached (length text.now) result goal.old goal.new (goal_to text.now c from) }
{
    let (after, _, _) = trees::condition_at(text, from, 14, tables, counts, goal, 0, 64)?;
    let (behind, _) = domain_due::closing(text, after, 14)?;
    Ok((behind, 0))
}

// The goal. Where the sums were not judged, they are at its word.
fn goal_at(
    text: &[u8],
    from: usize,
    tables: &[u8],
    counts: Counts,
    judged: bool,
    goal: &mut [u8],
) -> Parsed
    requires { (0 < from) × (from ≤ length text.now) × Scopes tables.now counts }
    ensures { (c : Scope) → Scoped tables.now counts c
        → Aimed (length text.now) c judged result goal.old goal.new (goal_from text.now c judged from) }
{
    let (inside, p) = premises::section_due(text, from, b":goal")?;
    if judged {
        return goal_to(text, inside, tables, counts, goal);
    }
    premises::sums_at(tables, counts, inside, p)?;
    goal_to(text, inside, tables, counts, goal)
}

// Init, goal and the end of the text: the place there, and how many objects there are.
fn rest_at(
    text: &[u8],
    from: usize,
    tables: &[u8],
    counts: Counts,
    facts: &mut [u8],
    numbers: &mut [i64],
    goal: &mut [u8],
) -> Parsed
    requires { (0 < from) × (from ≤ length text.now) × Scopes tables.now counts × (facts.old ≡ no_facts) × (numbers.old ≡ no_numbers) }
    ensures { (c : Scope) → Scoped tables.now counts c → c.in_action ≡ false
        → Settled text.now c result facts.new numbers.new goal.old goal.new
        (rest_of text.now c from) }
{
    let (a, given) = init_at(text, from, tables, counts, facts, numbers)?;
    let (b, _) = goal_at(text, a, tables, counts, given == 1, goal)?;
    let (end, _) = domain_sections::ending_at(text, b)?;
    Ok((end, counts.objects))
}

// The text of a problem, NAME being its domain's: where it ends, and how many objects there are. They replace the objects' rows of `tables`.
pub fn problem_at(
    text: &[u8],
    tables: &mut [u8],
    counts: Counts,
    name: &[u8],
    facts: &mut [u8],
    numbers: &mut [i64],
    goal: &mut [u8],
) -> Parsed
    requires { Scopes tables.old counts × (length tables.old ≡ tables_length) × (facts.old ≡ no_facts)
        × (numbers.old ≡ no_numbers) × (counts.variables ≡ 0) × (counts.in_action ≡ false) }
    ensures { (d : Domain) → Scoped tables.old counts (scope_of d d.constants) → name.now ≡ d.name
        → Posed text.now d counts result tables.new facts.new numbers.new goal.old goal.new
        (read_problem text.now d) }
{
    let (from, objects) = premises::premises_at(text, tables, counts, name)?;
    let all = Counts {
        types: counts.types,
        objects,
        predicates: counts.predicates,
        functions: counts.functions,
        variables: counts.variables,
        in_action: counts.in_action,
    };
    rest_at(text, from, tables, all, facts, numbers, goal)
}
