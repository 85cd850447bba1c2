// Bytes of the rows, the objects of a point, and the index of a fact or number by its form: base and strides, no loop. Every byte gives something.
#![tactic(auto)]

ghost use Rattle.std.specs.Prelude.{◌≡◌, ◌+◌, ◌*◌, ◌/◌, ◌%◌, ◌^◌, ◌<◌, ◌≤◌, length, get_or};
ghost use Rattle.domain_rows.specs.Held.{byte_at};
ghost use Rattle.domain_meaning.specs.Indexes.{object_of};
ghost use Rattle.domain_stored_meaning.specs.Decode.{arg_of};
ghost use Rattle.domain_prepared_meaning.specs.Forms.{index_by};
ghost use Rattle.domain_prepared_meaning.specs.Decode.{word_at, form_at};
ghost use Rattle.happening_forms.specs.Summed.{four_at};

pub use domain_rows::cell;

// What is found at a place of the rows, and the place after it.
#[derive(Clone, Copy)]
pub struct Taken<T> {
    pub what: T,
    pub next: usize,
}

// Two bytes, the lowest first.
pub fn word(rows: &[u8], at: usize) -> usize
    requires { at ≤ length rows.now }
    ensures { (result ≡ word_at rows.now at) × (result < 65536) }
{
    cell(rows, at) + 256 * cell(rows, at + 1)
}

// Object i of point k.
#[tactic(auto, using(crate::proofs::Placing::four))]
fn object(objects: &[u8; 256], k: usize, i: usize) -> usize
    requires { (k < 64) × (i < 4) }
    ensures { (result ≡ get_or (four_at objects.now k) i 0) × (result < 256) }
{
    objects[4 * k + i] as usize
}

// What a parameter adds to the index, with n objects: x has its number, and 4 times the power of its stride.
#[tactic(auto, using(crate::proofs::Placing::power_below))]
fn part(objects: &[u8; 256], k: usize, n: usize, x: usize) -> usize
    requires { (k < 64) × (n < 256) }
    ensures { (result ≡ n ^ (x / 4 % 4) * get_or (four_at objects.now k) (x % 4) 0) × (result < 4294967296) }
{
    n.pow((x / 4 % 4) as u32) * object(objects, k, x % 4)
}

// The index of the fact or number whose form is at a place, with v parameters.
#[tactic(auto, unfolding(domain_prepared_meaning::specs::Forms::index_by, domain_prepared_meaning::specs::Forms::shares_in, domain_prepared_meaning::specs::Decode::form_at, domain_prepared_meaning::specs::Decode::shares_at))]
pub fn index<'a>(rows: &'a [u8], objects: &'a [u8; 256], k: usize, at: usize, v: usize) -> usize
    requires { (k < 64) × (v ≤ 3) × (at ≤ length rows.now) }
    ensures { result ≡ index_by (form_at rows.now at v) (four_at objects.now k) }
{
    let base = word(rows, at);
    if v == 0 {
        return base;
    }
    let n = cell(rows, 0);
    let a = part(objects, k, n, cell(rows, at + 2));
    if v == 1 {
        return base + a;
    }
    let b = part(objects, k, n, cell(rows, at + 3));
    if v == 2 {
        return base + a + b;
    }
    let c = part(objects, k, n, cell(rows, at + 4));
    base + a + b + c
}

// The object that an argument stands for: below 64 an object, from 64 on a parameter.
#[tactic(auto, unfolding(crate::specs::Summed::four_at, domain_stored_meaning::specs::Decode::arg_of))]
pub fn argument(objects: &[u8; 256], k: usize, x: usize) -> usize
    requires { k < 64 }
    ensures { (result ≡ object_of (four_at objects.now k) (arg_of x)) × (result < 256) }
{
    if x < 64 {
        return x;
    }
    if x < 68 {
        return object(objects, k, x - 64);
    }
    0
}
