// The bits of all numbers that the expression at a place of the rows reads.
ghost use Rattle.std.specs.Prelude.{◌≡◌, ◌+◌, ◌<◌, length};
ghost use Rattle.domain_prepared_meaning.specs.Decode.{leaf_at, expr_at};
ghost use Rattle.happening_forms.specs.Summed.{summed, four_at};
ghost use Rattle.happening_expressions.specs.Evaluated.{expr_masked};

use crate::ends;
use happening_forms::Taken;

#[tactic(auto, using(happening_forms::proofs::Placing::number_at), unfolding(domain_prepared_meaning::specs::Decode::leaf_at, crate::specs::Evaluated::expr_masked, crate::specs::Evaluated::expr_mask))]
fn leaf<'a>(rows: &'a [u8], objects: &'a [u8; 256], k: usize, at: usize, tag: usize) -> Taken<u64>
    requires { (k < 64) × (at < length rows.now) }
    ensures { result ≡ expr_masked summed (four_at objects.now k) (leaf_at rows.now at tag) }
{
    let next = ends::leaf_end(rows, at, tag);
    match tag {
        5..=7 => {
            let i = happening_forms::index(rows, objects, k, at + 1, tag - 5);
            Taken {
                what: happening_state::number_bit(i),
                next,
            }
        }
        _ => Taken { what: 0, next },
    }
}

// What the expression at a place, at most so many levels deep, reads.
#[tactic(auto, using(crate::proofs::Shapes::expr_none, crate::proofs::Shapes::expr_past, crate::proofs::Shapes::expr_here), unfolding(domain_prepared_meaning::specs::Decode::expr_node, crate::specs::Evaluated::expr_masked, crate::specs::Evaluated::expr_mask))]
pub fn mask_of<'a>(
    rows: &'a [u8],
    objects: &'a [u8; 256],
    k: usize,
    at: usize,
    depth: usize,
) -> Taken<u64>
    requires { k < 64 }
    ensures { result ≡ expr_masked summed (four_at objects.now k) (expr_at depth rows.now at) }
{
    if depth == 0 || rows.len() <= at {
        return Taken { what: 0, next: at };
    }
    let tag = happening_forms::cell(rows, at);
    if 2 < tag {
        return leaf(rows, objects, k, at, tag);
    }
    let a = mask_of(rows, objects, k, at + 1, depth - 1);
    if tag == 0 {
        return a;
    }
    let b = mask_of(rows, objects, k, a.next, depth - 1);
    Taken {
        what: a.what | b.what,
        next: b.next,
    }
}
