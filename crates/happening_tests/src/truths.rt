// Whether single conditions hold in a state.
ghost use Rattle.std.specs.Prelude.{◌≡◌, ◌<◌};
ghost use Rattle.domain_stored_meaning.specs.Decode.{comparison_of};
ghost use Rattle.domain_prepared_meaning.specs.Decode.{tests_at};
ghost use Rattle.happening_meaning.specs.Truths.{agrees, compared, compared_of, hold_all};
ghost use Rattle.happening_forms.specs.Summed.{summed, four_at};
ghost use Rattle.happening_state.specs.States.{state_in};
ghost use Rattle.happening_tests.specs.Judging.{blamed, row_judged};

use crate::taken;
use crate::taken::Row;
use happening_expressions::values;
use happening_forms::Taken;
use happening_meaning::{Truth, Value};

#[tactic(auto, unfolding(happening_meaning::specs::Truths::agrees))]
fn agree(wanted: bool, so: bool) -> Truth
    ensures { result ≡ agrees wanted so }
{
    if wanted == so {
        Truth::Holds
    } else {
        Truth::Fails
    }
}

// 0 equal, 1 less, 2 at most, 3 more, else at least.
#[tactic(auto, unfolding(happening_meaning::specs::Truths::compared, domain_stored_meaning::specs::Decode::comparison_of))]
fn compares(op: usize, x: i64, y: i64) -> bool
    ensures { result ≡ compared (comparison_of op) x y }
{
    match op {
        0 => x == y,
        1 => x < y,
        2 => x <= y,
        3 => x > y,
        _ => x >= y,
    }
}

#[tactic(auto, unfolding(crate::specs::Judging::blamed))]
fn blame(v: Value) -> Truth
    ensures { result ≡ blamed v }
{
    match v {
        Value::Number(_) => Truth::Holds,
        Value::Undefined => Truth::Undefined,
        Value::Range => Truth::Range,
    }
}

#[tactic(auto, unfolding(crate::specs::Judging::blamed, happening_meaning::specs::Truths::compared_of))]
fn compare(wanted: bool, op: usize, a: Value, b: Value) -> Truth
    ensures { result ≡ compared_of wanted (comparison_of op) a b }
{
    let Value::Number(x) = a else {
        return blame(a);
    };
    let Value::Number(y) = b else {
        return blame(b);
    };
    agree(wanted, compares(op, x, y))
}

// Whether a condition that was taken apart holds.
#[tactic(auto, unfolding(crate::specs::Judging::row_judged, happening_expressions::specs::Evaluated::valued_of))]
fn judge<'a>(
    rows: &'a [u8],
    facts: &'a [u8],
    numbers: &'a [i64],
    objects: &'a [u8; 256],
    k: usize,
    row: Row,
) -> Taken<Truth>
    requires { k < 64 }
    ensures { result ≡ row_judged rows.now (state_in facts.now numbers.now) (four_at objects.now k) row }
{
    match row {
        Row::Fact(w, i, next) => Taken {
            what: agree(w, happening_state::is_true(facts, i)),
            next,
        },
        Row::Same(h, next) => Taken {
            what: agree(true, h),
            next,
        },
        Row::Compare(w, op, e) => {
            let a = values::value(rows, numbers, objects, k, e, 16);
            let b = values::value(rows, numbers, objects, k, a.next, 16);
            Taken {
                what: compare(w, op, a.what, b.what),
                next: b.next,
            }
        }
    }
}

// "conditions as written, up to the first that doesn't hold"
pub fn hold<'a>(
    rows: &'a [u8],
    facts: &'a [u8],
    numbers: &'a [i64],
    objects: &'a [u8; 256],
    k: usize,
    at: usize,
) -> Truth
    requires { k < 64 }
    ensures { result ≡ hold_all summed (state_in facts.now numbers.now) (four_at objects.now k)
        (tests_at rows.now at) }
{
    let mut i = at;
    for _ in 0..rows.len() {
        let Some(row) = taken::test_at(rows, objects, k, i) else {
            return Truth::Holds;
        };
        let v = judge(rows, facts, numbers, objects, k, row);
        let Truth::Holds = v.what else {
            return v.what;
        };
        i = v.next;
    }
    Truth::Holds
}
