// What has been declared where a condition or an effect stands: five tables of rows in one lent slice, and their counts.
ghost use Rattle.std.specs.Prelude.{◌≡◌, ℕ, ◌+◌, ◌*◌, ◌≤◌, ◌<◌, length, get_or};
ghost use Rattle.text_tokens.specs.Runs.{part};
ghost use Rattle.domain_meaning.specs.Tables.{Table, lookup, info_of, entry_at, type_of, is_below};
ghost use Rattle.domain_rows.specs.Held.{Holds};
ghost use Rattle.domain_terms.specs.Raw.{kept_in, below_in};
ghost use Rattle.domain_rows.specs.Layout.{tables_length};

use text_tokens::runs;
use text_words::names;
use text_words::names::ROW;

// How many names each table has. Where the tables lie says domain_rows::layout.
#[derive(Clone, Copy, PartialEq, Eq)]
pub struct Counts {
    pub types: usize,
    pub objects: usize,
    pub predicates: usize,
    pub functions: usize,
    pub variables: usize,
    pub in_action: bool,
}

// The number of a name in the table from `from` to `to`, which has n names.
pub fn find_in(tables: &[u8], from: usize, to: usize, n: usize, w: &[u8]) -> Option<usize>
    ensures { (m : ℕ) (t : Table) → Holds m (part tables.now from to) n t → result ≡ lookup t w.now }
{
    names::find(runs::part_of(tables, from, to), n, w)
}

// Number j of those kept with name i, in the table from `from` on, which has n names.
pub fn kept_in(tables: &[u8], from: usize, n: usize, i: usize, j: usize) -> usize
    requires { (n ≤ 64) × (from ≤ tables_length) × (j < 5) }
    ensures { ((m to : ℕ) (t : Table) → Holds m (part tables.now from to) n t → result ≡ get_or (info_of (entry_at t i)) j 0)
        × (result < 256) × (result ≡ kept_in tables.now from n i j) }
{
    if n <= i {
        return 0;
    }
    domain_rows::byte(tables, from + ROW * i + 1 + j) as usize
}

// Whether a type is another, or below it.
pub fn is_below(tables: &[u8], n: usize, a: usize, b: usize) -> bool
    requires { n ≤ 17 }
    ensures { ((m to : ℕ) (ts : Table) → Holds m (part tables.now 0 to) n ts → result ≡ is_below (length ts) ts a b)
        × (result ≡ below_in n tables.now n a b) }
{
    let mut x = a;
    for _ in 0..n {
        if x == b {
            return true;
        }
        x = kept_in(tables, 0, n, x, 0);
    }
    x == b
}
