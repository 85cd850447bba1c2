// The state: facts and numbers by their index, and the bit of each in a mask. Nothing else reads or writes the two slices by index.
#![tactic(auto)]

ghost use Rattle.std.specs.Prelude.{◌≡◌, cond, set};
ghost use Rattle.happening_meaning.specs.State.{is_true, number_at, stored};
ghost use Rattle.happening_state.specs.Masks.{fact_bit, number_bit};

use happening_meaning::Value;

// Past the end no fact is true.
#[tactic(auto, unfolding(happening_meaning::specs::State::is_true))]
pub fn is_true(facts: &[u8], i: usize) -> bool
    ensures { result ≡ is_true facts.now i }
{
    i < facts.len() && facts[i] == 1
}

// The number at an index, as it is stored; past the end the one that says it is undefined.
#[tactic(auto, unfolding(happening_meaning::specs::State::number_at))]
pub fn number(numbers: &[i64], i: usize) -> i64
    ensures { result ≡ number_at numbers.now i }
{
    if i < numbers.len() {
        numbers[i]
    } else {
        -1000000000001
    }
}

// The number at an index, if it is defined.
#[tactic(auto, unfolding(happening_meaning::specs::State::defined))]
pub fn given(numbers: &[i64], i: usize) -> Value
    ensures { result ≡ stored numbers.now i }
{
    let z = number(numbers, i);
    if happening_amounts::is_inside(z) {
        Value::Number(z)
    } else {
        Value::Undefined
    }
}

// Fact i becomes true, or false; past the end nothing is stored.
pub fn make(facts: &mut [u8], i: usize, b: bool)
    ensures { facts.new ≡ set facts.old i (cond b 1 0) }
{
    if i < facts.len() {
        facts[i] = u8::from(b);
    }
}

// Number i becomes z; past the end nothing is stored.
pub fn put(numbers: &mut [i64], i: usize, z: i64)
    ensures { numbers.new ≡ set numbers.old i z }
{
    if i < numbers.len() {
        numbers[i] = z;
    }
}

#[tactic(auto, using(crate::proofs::Bits::bit_made))]
pub fn fact_bit(i: usize) -> u64
    ensures { result ≡ fact_bit i }
{
    1u64 << (i % 64)
}

#[tactic(auto, using(crate::proofs::Bits::bit_made))]
pub fn number_bit(i: usize) -> u64
    ensures { result ≡ number_bit i }
{
    1u64 << ((i % 64 + 32) % 64)
}
