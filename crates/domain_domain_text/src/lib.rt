// The text of a domain, read whole: its tables, and its actions as rows and cells.
#![tactic(auto)]

ghost use Rattle.std.specs.Prelude.{◌≡◌, [], ◌≤◌, length};
ghost use Rattle.domain_meaning.specs.Domain.{Vocabulary, read_domain};
ghost use Rattle.domain_rows.specs.Held.{rows_of};
ghost use Rattle.domain_terms.specs.Scoped.{Scopes};
ghost use Rattle.domain_domain_text.specs.Knowing.{Preceded, Knows};
ghost use Rattle.domain_rows.specs.Layout.{tables_length};

use domain_actions::acts;
use domain_due::Refusal;
use domain_terms::scope::Counts;

// A domain that was read: its name from, to; how many names each table has; how many actions there are.
pub type Known = Result<(usize, usize, Counts, usize), Refusal>;

// The actions of a domain whose name is from p to e, and the end of its text.
fn acting_at(
    text: &[u8],
    at: usize,
    p: usize,
    e: usize,
    counts: Counts,
    tables: &[u8],
    rows: &mut [u8],
    code: &mut [u8],
    starts: &mut [usize],
) -> Known
    requires { (at ≤ length text.now) × (2 ≤ at) × Scopes tables.now counts × (length tables.now ≡ tables_length) × (rows.old ≡ rows_of 32 []) }
    ensures { (v : Vocabulary) → Preceded text.now at p e counts tables.now v
        → Knows text.now code.old starts.old result tables.now rows.new code.new
        starts.new (read_domain text.now) }
{
    let (after, n) = acts::actions_to(text, at, tables, counts, rows, code, starts)?;
    domain_sections::ending_at(text, after)?;
    Ok((p, e, counts, n))
}

// A domain: its tables, its actions' rows, their cells and where these begin.
pub fn domain_at(
    text: &[u8],
    tables: &mut [u8],
    rows: &mut [u8],
    code: &mut [u8],
    starts: &mut [usize],
) -> Known
    requires { (tables.old ≡ rows_of 133 []) × (rows.old ≡ rows_of 32 []) }
    ensures { Knows text.now code.old starts.old result tables.new rows.new code.new
        starts.new (read_domain text.now) }
{
    let (at, p, e, counts) = domain_preamble::preamble_at(text, tables)?;
    acting_at(text, at, p, e, counts, tables, rows, code, starts)
}
