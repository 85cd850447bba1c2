// The effects of a point on numbers: right sides are evaluated in the old numbers, new ones are stored in a second table.
ghost use Rattle.std.specs.Prelude.{◌≡◌, ◌-◌, ◌<◌, ◌^◌, length};
ghost use Rattle.std.specs.Int.Signed.{mag};
ghost use Rattle.domain_prepared_meaning.specs.Decode.{effects_at};
ghost use Rattle.happening_amounts.specs.Ranged.{Ranged};
ghost use Rattle.happening_meaning.specs.Writes.{some};
ghost use Rattle.happening_meaning.specs.Happening.{made, change_all, leaves};
ghost use Rattle.happening_forms.specs.Summed.{summed, four_at};
ghost use Rattle.happening_writes.specs.Rows.{marks_at};
ghost use Rattle.happening_writes.specs.Changing.{Bounded, Room, change_in, blamed, shifted, change_by, settle_all};

use crate::marks::{Asked, Walk};
use crate::rows;
use happening_expressions::values;
use happening_meaning::{Mark, Outcome, Value};
use rows::{How, Row};

#[tactic(auto, unfolding(crate::specs::Changing::blamed))]
fn blame(line: usize, v: Value) -> Outcome
    ensures { result ≡ blamed line v }
{
    match v {
        Value::Number(_) => Outcome::Done,
        Value::Undefined => Outcome::Undefined(line),
        Value::Range => Outcome::Range(line),
    }
}

// Number x is raised, or lowered, by z: "the exact sum of rises and falls".
#[tactic(auto, unfolding(crate::specs::Changing::shifted, crate::specs::Changing::blamed))]
fn shift(old: &[i64], fresh: &mut [i64], line: usize, x: usize, raises: bool, z: i64) -> Outcome
    requires { (mag z < 2 ^ 61) × Bounded (2 ^ 61 - 1) old.now fresh.old }
    ensures { made result fresh.new ≡ shifted line old.now fresh.old x raises z }
{
    let v = happening_state::given(old, x);
    let Value::Number(_) = v else {
        return blame(line, v);
    };
    let so = happening_state::number(fresh, x);
    if raises {
        happening_state::put(fresh, x, happening_amounts::sum(so, z));
    } else {
        happening_state::put(fresh, x, happening_amounts::difference(so, z));
    }
    Outcome::Done
}

// Number x is assigned, raised or lowered by the value v of the right side.
#[tactic(auto, unfolding(crate::specs::Changing::change_by, crate::specs::Changing::shifted, crate::specs::Changing::blamed))]
fn change_number(
    old: &[i64],
    fresh: &mut [i64],
    line: usize,
    how: How,
    x: usize,
    v: Value,
) -> Outcome
    requires { Ranged v × Bounded (2 ^ 61 - 1) old.now fresh.old }
    ensures { made result fresh.new ≡ change_by line old.now fresh.old (change_in how) x v }
{
    let Value::Number(z) = v else {
        return blame(line, v);
    };
    match how {
        How::Assigned => {
            happening_state::put(fresh, x, z);
            Outcome::Done
        }
        How::Raised => shift(old, fresh, line, x, true, z),
        How::Lowered => shift(old, fresh, line, x, false, z),
    }
}

// The effects of a point on the numbers.
pub fn change<'a>(
    rows: &'a [u8],
    old: &'a [i64],
    fresh: &mut [i64],
    objects: &'a [u8; 256],
    k: usize,
    line: usize,
    from: usize,
) -> Outcome
    requires { (k < 64) × Room (length (effects_at rows.now from)) old.now fresh.old }
    ensures { made result fresh.new ≡ change_all summed old.now line (four_at objects.now k)
        fresh.old (effects_at rows.now from) }
{
    let mut at = from;
    while let Some(row) = rows::effect_at(rows, at) {
        match row {
            Row::Fact { next, .. } => at = next,
            Row::Number { how, params, right } => {
                let x = happening_forms::index(rows, objects, k, at + 1, params);
                let e = values::value(rows, old, objects, k, right, 16);
                let o = change_number(old, fresh, line, how, x, e.what);
                let Outcome::Done = o else {
                    return o;
                };
                at = e.next;
            }
        }
    }
    Outcome::Done
}

#[tactic(auto, unfolding(happening_meaning::specs::Happening::leaves))]
fn leaves_range(fresh: &[i64], m: Mark) -> bool
    ensures { result ≡ leaves fresh.now m }
{
    match m {
        Mark::Number(_, x) => !happening_amounts::is_inside(happening_state::number(fresh, x)),
        Mark::Nothing | Mark::Fact(..) => false,
    }
}

// Whether a number that a point writes has ended outside the range.
pub fn leaves<'a>(
    rows: &'a [u8],
    fresh: &'a [i64],
    objects: &'a [u8; 256],
    k: usize,
    from: usize,
) -> bool
    requires { k < 64 }
    ensures { result ≡ some (leaves fresh.now) (marks_at rows.now (four_at objects.now k) from) }
{
    Walk::asking(rows, objects, k, from, Asked::Numbers).any(|m| leaves_range(fresh, m))
}

// Each number that a point writes becomes what it is in the source.
#[tactic(auto, using(crate::proofs::Showing::settle_asked), unfolding(crate::specs::Changing::settle_all, crate::specs::Changing::settle_one))]
pub fn settle<'a>(
    rows: &'a [u8],
    source: &'a [i64],
    target: &mut [i64],
    objects: &'a [u8; 256],
    k: usize,
    from: usize,
)
    requires { k < 64 }
    ensures { target.new ≡ settle_all source.now target.old
        (marks_at rows.now (four_at objects.now k) from) }
{
    for m in Walk::asking(rows, objects, k, from, Asked::Numbers) {
        if let Mark::Number(_, x) = m {
            happening_state::put(target, x, happening_state::number(source, x));
        }
    }
}
