// Ground facts and numbers: a name with objects, and its index.
ghost use Rattle.std.specs.Prelude.{◌≡◌, ℕ, ◌≤◌, ◌<◌, false, length, take};
ghost use Rattle.text_tokens.specs.Runs.{part};
ghost use Rattle.domain_due.specs.Answers.{answer_of, Ahead};
ghost use Rattle.domain_meaning.specs.Tables.{Table};
ghost use Rattle.domain_meaning.specs.Terms.{Scope};
ghost use Rattle.domain_meaning.specs.Indexes.{digits};
ghost use Rattle.domain_rows.specs.Held.{Holds};
ghost use Rattle.domain_terms.specs.Scoped.{Scoped, Scopes, AllSigned, Signatures};
ghost use Rattle.domain_init.specs.Parts.{ground_behind, ground_of, Listed};

use domain_due::{Parsed, Refusal};
use domain_terms::scope::Counts;
use domain_terms::{arguments, scope};
use text_tokens::runs;

// The first k cells as digits in base n, the first highest.
fn numeral_of(cells: &[u8], k: usize, n: usize) -> usize
    requires { (k ≤ length cells.now) × (k ≤ 4) × (n ≤ 64) }
    ensures { (result ≡ digits n 0 (take k cells.now)) × (result < 4294967296) }
{
    let mut acc = 0;
    for i in 0..k {
        acc = acc * n + domain_rows::byte(cells, i) as usize;
    }
    acc
}

// After its name, number i of the table from `off` on: the index, with the arguments to the closing bracket.
fn index_at(
    text: &[u8],
    from: usize,
    d: usize,
    tables: &[u8],
    counts: Counts,
    off: usize,
    n: usize,
    i: usize,
) -> Parsed
    requires { (from ≤ length text.now) × Scopes tables.now counts × Signatures tables.now off n × (i < n) }
    ensures { ((c : Scope) (m to : ℕ) (t : Table) → Scoped tables.now counts c → c.in_action ≡ false
        → Holds m (part tables.now off to) n t → AllSigned t → result ≡ answer_of (ground_behind text.now d c t i from))
        × Ahead (length text.now) from result }
{
    let objects = counts.objects;
    let mut cells = [0u8; 4];
    let (after, k) = arguments::arguments_at(
        text, from, d, tables, counts, off, n, i, &mut cells, 0,
    )?;
    let low = numeral_of(&cells, k, objects);
    Ok((
        after,
        domain_indexes::first_of(tables, off, n, objects, i) + low,
    ))
}

// The index of a ground fact or number, whose name from p to e is one of the table from `off` to `to`.
pub fn ground_at(
    text: &[u8],
    p: usize,
    e: usize,
    d: usize,
    tables: &[u8],
    counts: Counts,
    off: usize,
    to: usize,
    n: usize,
) -> Parsed
    requires { (e ≤ length text.now) × Scopes tables.now counts × Listed tables.now off to n }
    ensures { ((c : Scope) (m : ℕ) (t : Table) → Scoped tables.now counts c → c.in_action ≡ false
        → Holds m (part tables.now off to) n t → AllSigned t → result ≡ answer_of (ground_of text.now d c t p e e))
        × Ahead (length text.now) e result }
{
    let f = scope::find_in(tables, off, to, n, runs::part_of(text, p, e));
    let Some(i) = f else {
        return Err(Refusal(8, p));
    };
    index_at(text, e, d, tables, counts, off, n, i)
}
