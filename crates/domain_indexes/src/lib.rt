// Index rules: a predicate's or function's first index, and the sum over all of them.
#![tactic(auto)]

pub mod bases;

ghost use Rattle.std.specs.Prelude.{◌≡◌, ℕ, ◌^◌, ◌*◌, ◌≤◌, ◌<◌, length};
ghost use Rattle.text_tokens.specs.Runs.{part};
ghost use Rattle.domain_meaning.specs.Tables.{Table};
ghost use Rattle.domain_indexes.specs.Firsts.{first_of};
ghost use Rattle.domain_meaning.specs.Indexes.{sum_of};
ghost use Rattle.domain_rows.specs.Held.{Holds};
ghost use Rattle.domain_terms.specs.Scoped.{AllSigned, Signatures};

use domain_terms::scope;

// n to the power k, for at most 64 objects and 4 arguments.
fn power(n: usize, k: usize) -> usize
    requires { (n ≤ 64) × (k ≤ 4) }
    ensures { (result ≡ n ^ k) × (result ≤ 16777216) }
{
    let mut p = 1;
    let mut i = 0;
    while i < k {
        p = p * n;
        i += 1;
    }
    p
}

// The first index of name i of the table from `off` on, with n objects: the sum over those before it.
pub fn first_of(tables: &[u8], off: usize, count: usize, n: usize, i: usize) -> usize
    requires { Signatures tables.now off count × (n ≤ 64) × (i ≤ count) }
    ensures { ((m to : ℕ) (t : Table) → Holds m (part tables.now off to) count t → AllSigned t → result ≡ first_of n t i) × (result ≤ 1073741824) }
{
    let mut sum = 0;
    let mut j = 0;
    while j < i {
        sum += power(n, scope::kept_in(tables, off, count, j, 0));
        j += 1;
    }
    sum
}

// The sum over the whole table.
pub fn sum_of(tables: &[u8], off: usize, count: usize, n: usize) -> usize
    requires { Signatures tables.now off count × (n ≤ 64) }
    ensures { (m to : ℕ) (t : Table) → Holds m (part tables.now off to) count t → AllSigned t → result ≡ sum_of n t }
{
    first_of(tables, off, count, n, count)
}
