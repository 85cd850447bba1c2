// A table of declared names in a lent slice: rows of 38 bytes, a name's length, five numbers kept with it, its bytes and zeros.
#![tactic(auto)]

pub mod layout;

ghost use Rattle.std.specs.Prelude.{◌≡◌, List, [], ◌∷◌, ◌++◌, map, ℕ, ◌+◌, ◌*◌, ◌≤◌, ◌<◌, length};
ghost use Rattle.std.proofs.lemmas.List.Edits.{sets};
ghost use Rattle.domain_meaning.specs.Tables.{Table, entry, type_of, retype};
ghost use Rattle.domain_rows.specs.Held.{byte_at, Holds, Stands};

use text_words::names::{NAME_AT, ROW};

// A byte of the table, 0 past its end.
pub fn byte(rows: &[u8], at: usize) -> u8
    ensures { result ≡ byte_at rows.now at }
{
    if at < rows.len() { rows[at] } else { 0 }
}

// The same as a number to count with.
pub fn cell(rows: &[u8], at: usize) -> usize
    ensures { (result ≡ byte_at rows.now at) × (result < 256) }
{
    byte(rows, at) as usize
}

// The bytes of w, stored from `at` on.
pub fn copy(rows: &mut [u8], at: usize, w: &[u8])
    requires { at + length w.now ≤ length rows.old }
    ensures { rows.new ≡ sets rows.old at w.now }
{
    let mut i = 0;
    while i < w.len() {
        rows[at + i] = w[i];
        i += 1;
    }
}

// A name more, with its numbers.
pub fn enter<'a>(rows: &mut [u8], max: usize, n: usize, w: &'a [u8], info: &'a [u8])
    requires { Stands max rows.old n × (n < max) × (length w.now ≤ 32) × (length info.now ≤ 5) }
    ensures { (t : Table) → Holds max rows.old n t
        → Holds max rows.new (n + 1) (t ++ entry w.now info.now ∷ []) }
{
    let at = ROW * n;
    rows[at] = w.len() as u8;
    copy(rows, at + 1, info);
    copy(rows, at + NAME_AT, w);
}

// The type k for the names from number g on.
pub fn fill(rows: &mut [u8], max: usize, g: usize, n: usize, k: u8)
    requires { Stands max rows.old n × (g ≤ n) }
    ensures { (t : Table) → Holds max rows.old n t → Holds max rows.new n (retype g k t) }
{
    let mut i = g;
    while i < n {
        rows[ROW * i + 1] = k;
        i += 1;
    }
}

// The number of the names, and their types.
pub fn signature(rows: &[u8], max: usize, n: usize, out: &mut [u8])
    requires { Stands max rows.now n × (n < length out.old) × (n ≤ 255) }
    ensures { (t : Table) → Holds max rows.now n t → out.new ≡ sets out.old 0 (n ∷ map type_of t) }
{
    out[0] = n as u8;
    let mut i = 0;
    while i < n {
        out[i + 1] = rows[ROW * i + 1];
        i += 1;
    }
}
