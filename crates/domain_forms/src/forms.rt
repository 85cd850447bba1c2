// A reference as its form: a tag with the count of parameters, the base in which the constants are folded, a byte for each parameter.
ghost use Rattle.std.specs.Prelude.{◌≡◌, ◌+◌, ◌*◌, ◌≤◌, ◌<◌, false, length};
ghost use Rattle.std.proofs.lemmas.List.Edits.{sets};
ghost use Rattle.domain_stored_meaning.specs.Decode.{arg_of, args_at, ref_at};
ghost use Rattle.domain_prepared_meaning.specs.Forms.{folded};
ghost use Rattle.domain_prepared_meaning.specs.Rows.{two_bytes, share_bytes};
ghost use Rattle.domain_forms.specs.Stored.{Stored, fixed_of, share_of, form_in};

use crate::cells;

// The place after what was read, and the first place that is free.
#[derive(Clone, Copy)]
pub struct Copied {
    pub next: usize,
    pub free: usize,
}

// Two bytes, the lower first.
pub fn put_word(rows: &mut [u8], at: usize, x: usize)
    requires { at < 18446744073709551615 }
    ensures { rows.new ≡ sets rows.old at (two_bytes x) }
{
    domain_literals::put(rows, at, x % 256);
    domain_literals::put(rows, at + 1, x / 256 % 256);
}

// The object that an argument's cell names; a parameter counts 0.
fn fixed(x: usize) -> usize
    ensures { (result ≡ fixed_of (arg_of x)) × (result < 64) }
{
    if x < 64 {
        return x;
    }
    0
}

// One digit more.
fn shift(acc: usize, n: usize, a: usize) -> usize
    requires { (acc < 4294967296) × (n < 65536) × (a < 256) }
    ensures { (result ≡ acc * n + a) × (result < 65536 * acc + 65536) }
{
    acc * n + a
}

// What the constants among k arguments add to the index, with n objects.
fn folded_at(code: &[u8], n: usize, at: usize, k: usize) -> usize
    requires { (n < 65536) × (at ≤ length code.now + 1) × (k ≤ 3) }
    ensures { (result ≡ folded n (args_at code.now at k)) × (result < 1000000000000000) }
{
    if k == 0 {
        return 0;
    }
    let x = shift(0, n, fixed(cells::cell(code, at)));
    if k == 1 {
        return x;
    }
    let y = shift(x, n, fixed(cells::cell(code, at + 1)));
    if k == 2 {
        return y;
    }
    shift(y, n, fixed(cells::cell(code, at + 2)))
}

// The byte of an argument that is a parameter, with m arguments after it.
fn put_share(rows: &mut [u8], used: usize, x: usize, m: usize) -> usize
    requires { (x < 256) × (m ≤ 2) × (used < 18446744073709551615) }
    ensures { Stored rows.old used (share_of m (arg_of x)) rows.new result × (result ≤ used + 1) }
{
    if x < 64 {
        return used;
    }
    domain_literals::put(rows, used, x - 64 + 4 * m);
    used + 1
}

// The bytes of the parameters among k arguments.
fn put_shares(code: &[u8], at: usize, k: usize, rows: &mut [u8], used: usize) -> usize
    requires { (at ≤ length code.now + 1) × (k ≤ 3) × (used < 18446744073709551612) }
    ensures { Stored rows.old used (share_bytes (args_at code.now at k)) rows.new result × (result ≤ used + k) }
{
    let mut u = used;
    let mut i = 0;
    while i < k {
        u = put_share(rows, u, cells::cell(code, at + i), k - 1 - i);
        i += 1;
    }
    u
}

// The form of the reference whose head is at a place, with k arguments: the first place after it.
pub fn put_form<'a>(
    code: &'a [u8],
    firsts: &'a [u16],
    numeric: bool,
    tag: usize,
    at: usize,
    k: usize,
    rows: &mut [u8],
    used: usize,
) -> usize
    requires { (at ≤ length code.now) × (k ≤ 3) × (tag ≤ 252) × (used < 18446744073709551609) }
    ensures { Stored rows.old used (form_in firsts.now tag numeric (ref_at code.now at k)) rows.new result
        × (result ≤ used + 3 + k) }
{
    let first = cells::first(firsts, numeric, cells::cell(code, at));
    let base = first + folded_at(code, cells::entry(firsts, 48), at + 1, k);
    let end = put_shares(code, at + 1, k, rows, used + 3);
    domain_literals::put(rows, used, tag + (end - (used + 3)));
    put_word(rows, used + 1, base);
    end
}

// The fact whose first cell is at a place, as it is written or under `not`, or as an effect.
pub fn put_fact<'a>(
    code: &'a [u8],
    firsts: &'a [u16],
    at: usize,
    tag: usize,
    k: usize,
    rows: &mut [u8],
    used: usize,
) -> Copied
    requires { (at < length code.now) × (k ≤ 3) × (tag ≤ 252) × (used < 18446744073709551609) }
    ensures { Stored rows.old used (form_in firsts.now tag false (ref_at code.now (at + 1) k)) rows.new
        result.free × (result.next ≡ at + 2 + k) × (result.free ≤ used + 3 + k) }
{
    let free = put_form(code, firsts, false, tag, at + 1, k, rows, used);
    Copied {
        next: at + 2 + k,
        free,
    }
}
