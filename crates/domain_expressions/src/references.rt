// A reference to a fact or a number: its head and its arguments as cells.
ghost use Rattle.std.specs.Prelude.{◌≡◌, ℕ, ◌+◌, ◌-◌, ◌≤◌, ◌<◌, length};
ghost use Rattle.text_tokens.specs.Runs.{part};
ghost use Rattle.domain_due.specs.Answers.{Ahead};
ghost use Rattle.domain_meaning.specs.Tables.{Table};
ghost use Rattle.domain_meaning.specs.Terms.{Scope, reference};
ghost use Rattle.domain_rows.specs.Held.{Holds};
ghost use Rattle.domain_terms.specs.Scoped.{Scoped, Scopes, AllSigned, Signatures};
ghost use Rattle.domain_terms.specs.Cells.{Wrote, Room};
ghost use Rattle.domain_expressions.specs.Codes.{ref_cells};

use domain_due::Parsed;
use domain_terms::scope::Counts;
use domain_terms::{arguments, scope};

// After its name: a reference to name i of the table from `off` on, stored from `used` on. Two cells stand for the bracket and the name.
pub fn reference_at(
    text: &[u8],
    from: usize,
    d: usize,
    tables: &[u8],
    counts: Counts,
    off: usize,
    n: usize,
    i: usize,
    tag: usize,
    code: &mut [u8],
    used: usize,
) -> Parsed
    requires { (from ≤ length text.now) × Scopes tables.now counts × Signatures tables.now off n
        × (i < n) × (tag ≤ 251) × (used + 2 + (length text.now - from) ≤ 18446744073709551615) }
    ensures { ((c : Scope) (m to : ℕ) (t : Table) → Scoped tables.now counts c → Holds m (part tables.now off to) n t → AllSigned t
        → Wrote (ref_cells tag) code.old used result code.new (reference text.now d c t i from))
        × Ahead (length text.now) from result × Room (used + 2) from result }
{
    let arity = scope::kept_in(tables, off, n, i, 0);
    domain_literals::put(code, used, tag + arity);
    domain_literals::put(code, used + 1, i);
    arguments::arguments_at(text, from, d, tables, counts, off, n, i, code, used + 2)
}
