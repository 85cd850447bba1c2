// A number of an expression as cells of the code: one that says its sign, its unit and how many bytes follow, then those bytes.
#![tactic(auto)]

ghost use Rattle.std.specs.Prelude.{◌≡◌, ℕ, ◌+◌, ◌≤◌, ◌<◌, ◌^◌, ◌∷◌, nat_abs, pos, length, set};
ghost use Rattle.std.proofs.lemmas.List.Edits.{sets};
ghost use Rattle.std.specs.Int.Signed.{mag, lt_z};
ghost use Rattle.domain_literals.specs.Literal.{sign_base, size_of, bytes_of, number_cells};

// One cell; past the code's end nothing is stored.
pub fn put(code: &mut [u8], at: usize, x: usize)
    requires { x < 256 }
    ensures { code.new ≡ set code.old at x }
{
    if at < code.len() {
        code[at] = x as u8;
    }
}

fn is_negative(z: i64) -> bool
    ensures { result ≡ lt_z z (pos 0) }
{
    z < 0
}

fn magnitude(z: i64) -> usize
    requires { mag z < 1099511627776 }
    ensures { (result ≡ nat_abs z) × (result ≤ 1099511627776) }
{
    if is_negative(z) {
        return (0 - z) as usize;
    }
    z as usize
}

fn sign_base(z: i64) -> usize
    ensures { (result ≡ sign_base z) × (result ≤ 24) }
{
    if is_negative(z) {
        return 24;
    }
    16
}

// How many bytes a number takes.
fn size_of(v: usize) -> usize
    ensures { (result ≡ size_of v) × (result ≤ 5) }
{
    if v < 1 {
        return 0;
    }
    if v < 256 {
        return 1;
    }
    if v < 65536 {
        return 2;
    }
    if v < 16777216 {
        return 3;
    }
    if v < 4294967296 {
        return 4;
    }
    5
}

// So many bytes of a number, the lowest first.
fn put_bytes(code: &mut [u8], at: usize, k: usize, v: usize)
    requires { at + k ≤ 18446744073709551615 }
    ensures { code.new ≡ sets code.old at (bytes_of k v) }
{
    let mut i = 0;
    let mut rest = v;
    while i < k {
        put(code, at + i, rest % 256);
        rest = rest / 256;
        i += 1;
    }
}

// A literal: the first cell is `base` and the count of bytes.
fn put_literal(code: &mut [u8], at: usize, base: usize, v: usize) -> usize
    requires { (base ≤ 40) × (at + 1 + size_of v ≤ 18446744073709551615) }
    ensures { (code.new ≡ sets code.old at ((base + size_of v) ∷ bytes_of (size_of v) v)) × (result ≡ at + 1 + size_of v) }
{
    let k = size_of(v);
    put(code, at, base + k);
    put_bytes(code, at + 1, k, v);
    at + 1 + k
}

// The cells of a number, stored from `at` on: the first cell that is free.
pub fn put_number(code: &mut [u8], at: usize, z: i64) -> usize
    requires { (mag z < 1099511627776) × (at + length (number_cells z) ≤ 18446744073709551615) }
    ensures { (code.new ≡ sets code.old at (number_cells z)) × (result ≡ at + length (number_cells z)) }
{
    let m = magnitude(z);
    let base = sign_base(z);
    if m % 1000 == 0 {
        return put_literal(code, at, base + 16, m / 1000);
    }
    put_literal(code, at, base, m)
}
