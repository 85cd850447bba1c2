// What a domain declares before its actions: types, constants, predicates and functions, each section optional, read into tables.
ghost use Rattle.std.specs.Prelude.{◌≡◌, List, [], ◌≤◌, length};
ghost use Rattle.domain_meaning.specs.Tables.{Table};
ghost use Rattle.domain_meaning.specs.Domain.{flags_section, types_section, constants_section, declared_section};
ghost use Rattle.domain_due.specs.Answers.{answer_of};
ghost use Rattle.domain_rows.specs.Held.{rows_of, Holds, Stands};
ghost use Rattle.domain_typed_lists.specs.Outcome.{Outcome};
ghost use Rattle.domain_preamble.specs.Onwards.{Onwards};

use domain_due::Parsed;
use domain_typed_lists::{declarations, typed};

// The requirement flags.
pub fn flags_section(text: &[u8], from: usize) -> Parsed
    requires { from ≤ length text.now }
    ensures { (result ≡ answer_of (flags_section text.now from)) × Onwards (length text.now) from result }
{
    let Some((_, inside)) = domain_sections::begins_at(text, from, b":requirements") else {
        return Ok((from, 0));
    };
    domain_sections::flags_to(text, inside)
}

// The types; without the section `object` alone.
pub fn types_section(text: &[u8], from: usize, rows: &mut [u8]) -> Parsed
    requires { (from ≤ length text.now) × (rows.old ≡ rows_of 17 []) }
    ensures { Outcome 17 result rows.new (types_section text.now from) × Onwards (length text.now) from result }
{
    let Some((_, inside)) = domain_sections::begins_at(text, from, b":types") else {
        let root = [0u8; 1];
        domain_rows::enter(rows, 17, 0, b"object", &root);
        return Ok((from, 1));
    };
    typed::types_to(text, inside, rows)
}

pub fn constants_section(
    text: &[u8],
    from: usize,
    types: &[u8],
    tn: usize,
    rows: &mut [u8],
) -> Parsed
    requires { (from ≤ length text.now) × Stands 17 types.now tn × (rows.old ≡ rows_of 64 []) }
    ensures { ((ts : Table) → Holds 17 types.now tn ts → Outcome 64 result rows.new (constants_section text.now ts from))
        × Onwards (length text.now) from result }
{
    let Some((_, inside)) = domain_sections::begins_at(text, from, b":constants") else {
        return Ok((from, 0));
    };
    typed::names_to(text, inside, types, tn, rows, 0)
}

// Predicates or functions: the section of the word w, at most `max` of at most `most` arguments.
pub fn declared_section(
    text: &[u8],
    from: usize,
    w: &[u8],
    types: &[u8],
    tn: usize,
    rows: &mut [u8],
    max: usize,
    most: usize,
) -> Parsed
    requires { (from ≤ length text.now) × Stands 17 types.now tn × (rows.old ≡ rows_of max []) × (most ≤ 3) }
    ensures { ((ts : Table) → Holds 17 types.now tn ts
        → Outcome max result rows.new (declared_section text.now w.now ts max most from))
        × Onwards (length text.now) from result }
{
    let Some((_, inside)) = domain_sections::begins_at(text, from, w) else {
        return Ok((from, 0));
    };
    declarations::declarations_at(text, inside, types, tn, rows, max, most, 0)
}
