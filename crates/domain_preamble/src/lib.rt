// What a domain declares before its actions: its name, and the types, constants, predicates and functions in the tables of one scope.
#![tactic(auto)]

pub mod vocabulary;

ghost use Rattle.std.specs.Prelude.{◌≡◌, [], ℕ, ◌≤◌, length};
ghost use Rattle.std.proofs.lemmas.List.Edits.{sets};
ghost use Rattle.text_words.specs.Bytes.{bytes};
ghost use Rattle.domain_meaning.specs.Read.{got};
ghost use Rattle.domain_meaning.specs.Due.{Name};
ghost use Rattle.domain_meaning.specs.Domain.{heading_of, flags_section, vocabulary};
ghost use Rattle.domain_rows.specs.Held.{rows_of};
ghost use Rattle.domain_preamble.specs.Beginning.{Listed, Declares};
ghost use Rattle.domain_rows.specs.Layout.{objects_at, predicates_at, functions_at, tables_length};

use domain_due::Refusal;
use domain_rows::layout;
use domain_terms::scope::Counts;
use vocabulary::declared_section;

// What was begun: the place after it, the name from, to, and how many names each table has.
pub type Preamble = Result<(usize, usize, usize, Counts), Refusal>;

// A section that was read: the place after it, and how many names it declares.
#[derive(Clone, Copy)]
pub struct Section {
    pub end: usize,
    pub n: usize,
}

// The declarations after the flags of a domain whose name is from p to e, each kind in a table of its own.
fn tables_at(
    text: &[u8],
    from: usize,
    p: usize,
    e: usize,
    types: &mut [u8],
    objects: &mut [u8],
    predicates: &mut [u8],
    functions: &mut [u8],
) -> Preamble
    requires { (from ≤ length text.now) × (types.old ≡ rows_of 17 []) × (objects.old ≡ rows_of 64 [])
        × (predicates.old ≡ rows_of 32 []) × (functions.old ≡ rows_of 16 []) }
    ensures { (n : Name) (a v : ℕ) → heading_of text.now (bytes "domain") 0 ≡ got n a → flags_section text.now a ≡ got v from
        → Listed (length text.now) n from p e result types.new objects.new predicates.new functions.new
        (vocabulary text.now 0) }
{
    let (at, n) = vocabulary::types_section(text, from, types)?;
    let ts = Section { end: at, n };
    let (at, n) = vocabulary::constants_section(text, ts.end, types, ts.n, objects)?;
    let os = Section { end: at, n };
    let (at, n) = declared_section(text, os.end, b":predicates", types, ts.n, predicates, 32, 3)?;
    let ps = Section { end: at, n };
    let (end, n) = declared_section(text, ps.end, b":functions", types, ts.n, functions, 16, 2)?;
    let counts = Counts {
        types: ts.n,
        objects: os.n,
        predicates: ps.n,
        functions: n,
        variables: 0,
        in_action: false,
    };
    Ok((end, p, e, counts))
}

// Each table in its place among the tables of a scope.
fn store(tables: &mut [u8], types: &[u8], objects: &[u8], predicates: &[u8], functions: &[u8])
    requires { (length tables.old ≡ tables_length) × (length types.now ≡ objects_at) × (length objects.now ≡ 2432)
        × (length predicates.now ≡ 1216) × (length functions.now ≡ 608) }
    ensures { tables.new ≡ sets
        (sets (sets (sets tables.old 0 types.now) objects_at objects.now) predicates_at predicates.now) functions_at
        functions.now }
{
    domain_rows::copy(tables, 0, types);
    domain_rows::copy(tables, layout::OBJECTS_AT, objects);
    domain_rows::copy(tables, layout::PREDICATES_AT, predicates);
    domain_rows::copy(tables, layout::FUNCTIONS_AT, functions);
}

// The text of a domain up to its actions. Of a text that is refused the tables tell nothing.
pub fn preamble_at(text: &[u8], tables: &mut [u8]) -> Preamble
    requires { tables.old ≡ rows_of 133 [] }
    ensures { Declares text.now result tables.new (vocabulary text.now 0) }
{
    let (behind, p, e) = domain_sections::heading_at(text, 0, b"domain")?;
    let (from, _) = vocabulary::flags_section(text, behind)?;
    let mut types = [0u8; layout::TYPES_LENGTH];
    let mut objects = [0u8; layout::OBJECTS_LENGTH];
    let mut predicates = [0u8; layout::PREDICATES_LENGTH];
    let mut functions = [0u8; layout::FUNCTIONS_LENGTH];
    let preamble = tables_at(
        text,
        from,
        p,
        e,
        &mut types,
        &mut objects,
        &mut predicates,
        &mut functions,
    )?;
    store(tables, &types, &objects, &predicates, &functions);
    Ok(preamble)
}
