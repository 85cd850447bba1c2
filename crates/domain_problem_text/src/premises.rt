// What a problem has before init: its heading, its domain's name, its objects; and the sums that are judged at `:init` or `:goal`.
ghost use Rattle.std.specs.Prelude.{◌≡◌, ◌≤◌, length};
ghost use Rattle.domain_meaning.specs.Terms.{Scope};
ghost use Rattle.domain_meaning.specs.Lists.{names_to};
ghost use Rattle.domain_meaning.specs.Domain.{Domain, section};
ghost use Rattle.domain_meaning.specs.Problem.{sums_fit, sums_at, section_due_of, of_domain, premises, scope_of};
ghost use Rattle.domain_due.specs.Answers.{answer_of, Ahead};
ghost use Rattle.domain_preamble.specs.Onwards.{Onwards};
ghost use Rattle.domain_terms.specs.Scoped.{Scoped, Scopes};
ghost use Rattle.domain_problem_text.specs.Grounded.{Grounded};
ghost use Rattle.domain_rows.specs.Layout.{tables_length};

use domain_due::{Parsed, Refusal};
use domain_indexes::sum_of;
use domain_rows::layout;
use domain_rows::layout::{FUNCTIONS_AT, PREDICATES_AT};
use domain_terms::scope::Counts;
use domain_typed_lists::typed;
use text_tokens::runs;
use text_words::spelling;

// The most ground facts.
pub const MOST_FACTS: usize = 16384;

// The most ground numbers.
pub const MOST_NUMBERS: usize = 1024;

// Whether both sums fit.
pub fn sums_fit(tables: &[u8], counts: Counts) -> bool
    requires { Scopes tables.now counts }
    ensures { (c : Scope) → Scoped tables.now counts c → result ≡ sums_fit c }
{
    if MOST_FACTS < sum_of(tables, PREDICATES_AT, counts.predicates, counts.objects) {
        return false;
    }
    sum_of(tables, FUNCTIONS_AT, counts.functions, counts.objects) <= MOST_NUMBERS
}

// The sums are judged at p: where they fit, reading goes on at `from`.
pub fn sums_at(tables: &[u8], counts: Counts, from: usize, p: usize) -> Parsed
    requires { Scopes tables.now counts }
    ensures { (c : Scope) → Scoped tables.now counts c → result ≡ answer_of (sums_at c p from) }
{
    if sums_fit(tables, counts) {
        return Ok((from, p));
    }
    Err(Refusal(12, p))
}

// The section w is due: its bracket, then its word.
pub fn section_due(text: &[u8], from: usize, w: &[u8]) -> Parsed
    requires { from ≤ length text.now }
    ensures { (result ≡ answer_of (section_due_of text.now w.now from)) × Ahead (length text.now) from result }
{
    let (inside, _) = domain_due::opening(text, from, 15)?;
    domain_due::word_due(text, inside, 14, w)
}

// `(:domain NAME)`, NAME being that of the domain.
pub fn of_domain(text: &[u8], from: usize, name: &[u8]) -> Parsed
    requires { from ≤ length text.now }
    ensures { ((d : Domain) → name.now ≡ d.name → result ≡ answer_of (of_domain text.now d from))
        × Ahead (length text.now) from result }
{
    let (inside, _) = section_due(text, from, b":domain")?;
    let (e, p) = domain_due::any_name(text, inside, 14)?;
    if spelling::same_word(runs::part_of(text, p, e), name) {
        return domain_due::closing(text, e, 14);
    }
    Err(Refusal(13, p))
}

// The objects, after the domain's constants in the rows of `tables`: the place after them, and how many there are.
fn objects_section(text: &[u8], from: usize, tables: &mut [u8], counts: Counts) -> Parsed
    requires { (from ≤ length text.now) × Scopes tables.old counts × (length tables.old ≡ tables_length) }
    ensures { ((d : Domain) → Scoped tables.old counts (scope_of d d.constants)
        → Grounded counts result tables.new d
        (section text.now ":objects" d.constants (names_to text.now d.types 64 d.constants) from))
        × Onwards (length text.now) from result }
{
    let o = domain_sections::begins_at(text, from, b":objects");
    let Some((_, inside)) = o else {
        return Ok((from, counts.objects));
    };
    let mut types = [0u8; layout::TYPES_LENGTH];
    domain_rows::copy(
        &mut types,
        0,
        runs::part_of(tables, 0, layout::TYPES_LENGTH),
    );
    let first = layout::OBJECTS_AT;
    let end = PREDICATES_AT;
    typed::names_to(
        text,
        inside,
        &types,
        counts.types,
        &mut tables[first..end],
        counts.objects,
    )
}

// What a problem has before init: the place after it, and how many objects there are. They replace the objects' rows of `tables`.
pub fn premises_at(text: &[u8], tables: &mut [u8], counts: Counts, name: &[u8]) -> Parsed
    requires { Scopes tables.old counts × (length tables.old ≡ tables_length) }
    ensures { ((d : Domain) → Scoped tables.old counts (scope_of d d.constants) → name.now ≡ d.name
        → Grounded counts result tables.new d (premises text.now d 0))
        × Onwards (length text.now) 6 result }
{
    let (a, _, _) = domain_sections::heading_at(text, 0, b"problem")?;
    let (b, _) = of_domain(text, a, name)?;
    objects_section(text, b, tables, counts)
}
