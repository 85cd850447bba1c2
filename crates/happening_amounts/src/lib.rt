// Numbers of the state and of expressions: exact within a million million thousandths of 0, both ends included. Signed sums stand here and nowhere else.
#![tactic(auto)]

ghost use Rattle.std.specs.Prelude.{◌≡◌, ◌<◌, ◌^◌, neg_ℤ, ◌+ℤ◌, ◌-ℤ◌};
ghost use Rattle.std.specs.Int.Signed.{mag, le_z};
ghost use Rattle.happening_meaning.specs.State.{inside, within, plus_of, less_of, minus_of};
ghost use Rattle.happening_amounts.specs.Ranged.{Ranged};

use happening_meaning::Value;

pub fn at_most(a: i64, b: i64) -> bool
    ensures { result ≡ le_z a b }
{
    a <= b
}

pub fn sum(a: i64, b: i64) -> i64
    requires { (mag a < 2 ^ 61) × (mag b < 2 ^ 61) }
    ensures { result ≡ a +ℤ b }
{
    a + b
}

pub fn difference(a: i64, b: i64) -> i64
    requires { (mag a < 2 ^ 61) × (mag b < 2 ^ 61) }
    ensures { result ≡ a -ℤ b }
{
    a - b
}

pub fn negation(a: i64) -> i64
    requires { mag a < 2 ^ 61 }
    ensures { result ≡ neg_ℤ a }
{
    -a
}

#[tactic(auto, unfolding(happening_meaning::specs::State::inside))]
pub fn is_inside(z: i64) -> bool
    ensures { result ≡ inside z }
{
    z <= 1000000000000 && -1000000000000 <= z
}

// A number, or `range` outside it.
#[tactic(auto, unfolding(happening_meaning::specs::State::within))]
pub fn ranged(z: i64) -> Value
    ensures { result ≡ within z }
{
    if is_inside(z) {
        Value::Number(z)
    } else {
        Value::Range
    }
}

// The first of two values that is no number decides.
#[tactic(auto, using(crate::proofs::Ranges::ranged_mag), unfolding(happening_meaning::specs::State::plus_of))]
pub fn plus(a: Value, b: Value) -> Value
    requires { Ranged a × Ranged b }
    ensures { result ≡ plus_of a b }
{
    let Value::Number(x) = a else {
        return a;
    };
    let Value::Number(y) = b else {
        return b;
    };
    ranged(sum(x, y))
}

#[tactic(auto, using(crate::proofs::Ranges::ranged_mag), unfolding(happening_meaning::specs::State::less_of))]
pub fn less(a: Value, b: Value) -> Value
    requires { Ranged a × Ranged b }
    ensures { result ≡ less_of a b }
{
    let Value::Number(x) = a else {
        return a;
    };
    let Value::Number(y) = b else {
        return b;
    };
    ranged(difference(x, y))
}

#[tactic(auto, using(crate::proofs::Ranges::ranged_mag))]
pub fn minus(a: Value) -> Value
    requires { Ranged a }
    ensures { result ≡ minus_of a }
{
    let Value::Number(x) = a else {
        return a;
    };
    ranged(negation(x))
}
