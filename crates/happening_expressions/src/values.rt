// The value of the expression at a place of the rows.
ghost use Rattle.std.specs.Prelude.{◌≡◌, ◌+◌, ◌<◌, length};
ghost use Rattle.domain_prepared_meaning.specs.Decode.{leaf_at, expr_at};
ghost use Rattle.happening_forms.specs.Summed.{summed, four_at};
ghost use Rattle.happening_expressions.specs.Evaluated.{valued_of};

use crate::literals;
use happening_forms::Taken;
use happening_meaning::Value;

// An expression without parts.
#[tactic(auto, using(happening_forms::proofs::Placing::number_at), unfolding(domain_prepared_meaning::specs::Decode::leaf_at, crate::specs::Evaluated::valued_of, happening_meaning::specs::Truths::value_of, happening_meaning::specs::State::within, happening_meaning::specs::State::inside))]
fn leaf<'a>(
    rows: &'a [u8],
    numbers: &'a [i64],
    objects: &'a [u8; 256],
    k: usize,
    at: usize,
    tag: usize,
) -> Taken<Value>
    requires { (k < 64) × (at < length rows.now) }
    ensures { result ≡ valued_of summed numbers.now (four_at objects.now k) (leaf_at rows.now at tag) }
{
    match tag {
        5..=7 => {
            let v = tag - 5;
            let i = happening_forms::index(rows, objects, k, at + 1, v);
            Taken {
                what: happening_state::given(numbers, i),
                next: at + 3 + v,
            }
        }
        16.. if (tag - 16) % 8 < 6 => Taken {
            what: happening_amounts::ranged(literals::literal_at(rows, at + 1, tag)),
            next: at + 1 + (tag - 16) % 8,
        },
        _ => Taken {
            what: Value::Number(0),
            next: at + 1,
        },
    }
}

// The expression at a place, at most so many levels deep: "Parts are taken left to right, a part before the whole".
#[tactic(auto, using(crate::proofs::Shapes::expr_none, crate::proofs::Shapes::expr_past, crate::proofs::Shapes::expr_here, crate::proofs::Ranging::value_ranged), unfolding(domain_prepared_meaning::specs::Decode::expr_node, crate::specs::Evaluated::valued_of, happening_meaning::specs::Truths::value_of, happening_meaning::specs::State::within, happening_meaning::specs::State::inside))]
pub fn value<'a>(
    rows: &'a [u8],
    numbers: &'a [i64],
    objects: &'a [u8; 256],
    k: usize,
    at: usize,
    depth: usize,
) -> Taken<Value>
    requires { k < 64 }
    ensures { result ≡ valued_of summed numbers.now (four_at objects.now k) (expr_at depth rows.now at) }
{
    if depth == 0 || rows.len() <= at {
        return Taken {
            what: Value::Number(0),
            next: at,
        };
    }
    let tag = happening_forms::cell(rows, at);
    if 2 < tag {
        return leaf(rows, numbers, objects, k, at, tag);
    }
    let a = value(rows, numbers, objects, k, at + 1, depth - 1);
    if tag == 0 {
        return Taken {
            what: happening_amounts::minus(a.what),
            next: a.next,
        };
    }
    let b = value(rows, numbers, objects, k, a.next, depth - 1);
    let what = if tag == 1 {
        happening_amounts::less(a.what, b.what)
    } else {
        happening_amounts::plus(a.what, b.what)
    };
    Taken { what, next: b.next }
}
