// The first index of each predicate or function, stored one after the other, so that an index is found without the table.
ghost use Rattle.std.specs.Prelude.{◌≡◌, ℕ, ◌+◌, ◌≤◌, ◌<◌, length, set};
ghost use Rattle.std.proofs.lemmas.List.Edits.{sets};
ghost use Rattle.text_tokens.specs.Runs.{part};
ghost use Rattle.domain_meaning.specs.Tables.{Table};
ghost use Rattle.domain_rows.specs.Held.{Holds};
ghost use Rattle.domain_terms.specs.Scoped.{AllSigned, Signatures};
ghost use Rattle.domain_meaning.specs.Indexes.{sum_of, bases_of};

// One number; past the end nothing is stored.
pub fn put(out: &mut [usize], at: usize, x: usize)
    ensures { out.new ≡ set out.old at x }
{
    if at < out.len() {
        out[at] = x;
    }
}

// The first indexes of the names of the table from `off` on, with n objects, stored from `at` on.
pub fn bases_at(tables: &[u8], off: usize, count: usize, n: usize, out: &mut [u16], at: usize)
    requires { ((s : Signatures tables.now off count) × (sum_of n s.table < 65536)) × (n ≤ 64) × (at + count ≤ length out.old) }
    ensures { (m to : ℕ) (t : Table) → Holds m (part tables.now off to) count t → AllSigned t
        → out.new ≡ sets out.old at (bases_of n t) }
{
    let mut i = 0;
    while i < count {
        let first = crate::first_of(tables, off, count, n, i);
        out[at + i] = first as u16;
        i += 1;
    }
}
