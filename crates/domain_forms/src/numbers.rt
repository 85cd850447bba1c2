// A number of an expression: from any cells to its cells in the shortest form.
ghost use Rattle.std.specs.Prelude.{◌≡◌, ◌+◌, ◌-◌, ◌%◌, ◌≤◌, ◌<◌, cond, eqb, length};
ghost use Rattle.std.proofs.lemmas.List.Edits.{sets};
ghost use Rattle.domain_literals.specs.Literal.{size_of, bytes_of, literal, number_cells};
ghost use Rattle.domain_stored_meaning.specs.Decode.{number_at};
ghost use Rattle.domain_forms.specs.Stored.{Stored};

use crate::cells;

// How many bytes a number takes.
fn size_of(v: usize) -> usize
    ensures { (result ≡ size_of v) × (result ≤ 5) }
{
    if v < 1 {
        return 0;
    }
    if v < 256 {
        return 1;
    }
    if v < 65536 {
        return 2;
    }
    if v < 16777216 {
        return 3;
    }
    if v < 4294967296 {
        return 4;
    }
    5
}

// So many bytes of a number, the lowest first.
fn put_bytes(rows: &mut [u8], at: usize, k: usize, v: usize)
    requires { at + k ≤ 18446744073709551615 }
    ensures { rows.new ≡ sets rows.old at (bytes_of k v) }
{
    let mut i = 0;
    let mut rest = v;
    while i < k {
        domain_literals::put(rows, at + i, rest % 256);
        rest = rest / 256;
        i += 1;
    }
}

// A literal: the first cell is `base` and the count of bytes.
fn put_literal(rows: &mut [u8], used: usize, base: usize, v: usize) -> usize
    requires { (base ≤ 40) × (used < 18446744073709551609) }
    ensures { Stored rows.old used (literal base v) rows.new result × (result ≤ used + 6) }
{
    let k = size_of(v);
    domain_literals::put(rows, used, base + k);
    put_bytes(rows, used + 1, k, v);
    used + 1 + k
}

// What the first cell says of the sign: 24 if the number is negative, else 16.
fn sign_base(negative: bool, v: usize) -> usize
    ensures { (result ≡ cond negative (cond (eqb v 0) 16 24) 16) × (result ≤ 24) }
{
    if negative {
        if v == 0 {
            return 16;
        }
        return 24;
    }
    16
}

// The number after its first cell `tag`.
pub fn put_number(code: &[u8], at: usize, tag: usize, rows: &mut [u8], used: usize) -> usize
    requires { (at ≤ length code.now) × (16 ≤ tag) × ((tag - 16) % 8 ≤ 5) × (used < 18446744073709551609) }
    ensures { Stored rows.old used (number_cells (number_at code.now at tag)) rows.new result × (result ≤ used + 6) }
{
    let t = tag - 16;
    let v = cells::little_at(code, at, t % 8);
    let base = sign_base(t / 8 % 2 == 1, v);
    if 15 < t {
        return put_literal(rows, used, base + 16, v);
    }
    if v % 1000 == 0 {
        return put_literal(rows, used, base + 16, v / 1000);
    }
    put_literal(rows, used, base, v)
}
