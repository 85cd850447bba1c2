// Whether the expression at a place of the rows reads a number.
ghost use Rattle.std.specs.Prelude.{◌≡◌, ◌+◌, ◌<◌, length};
ghost use Rattle.domain_prepared_meaning.specs.Decode.{leaf_at, expr_at};
ghost use Rattle.happening_forms.specs.Summed.{summed, four_at};
ghost use Rattle.happening_expressions.specs.Evaluated.{expr_found};

use crate::ends;
use happening_forms::Taken;

#[tactic(auto, using(happening_forms::proofs::Placing::number_at), unfolding(domain_prepared_meaning::specs::Decode::leaf_at, crate::specs::Evaluated::expr_found, happening_meaning::specs::Writes::expr_reads))]
fn leaf<'a>(
    rows: &'a [u8],
    objects: &'a [u8; 256],
    k: usize,
    at: usize,
    tag: usize,
    x: usize,
) -> Taken<bool>
    requires { (k < 64) × (at < length rows.now) }
    ensures { result ≡ expr_found summed (four_at objects.now k) x (leaf_at rows.now at tag) }
{
    let next = ends::leaf_end(rows, at, tag);
    match tag {
        5..=7 => Taken {
            what: happening_forms::index(rows, objects, k, at + 1, tag - 5) == x,
            next,
        },
        _ => Taken { what: false, next },
    }
}

// Whether the expression at a place, at most so many levels deep, reads number x.
#[tactic(auto, using(crate::proofs::Shapes::expr_none, crate::proofs::Shapes::expr_past, crate::proofs::Shapes::expr_here), unfolding(domain_prepared_meaning::specs::Decode::expr_node, crate::specs::Evaluated::expr_found, happening_meaning::specs::Writes::expr_reads))]
pub fn expr_reads<'a>(
    rows: &'a [u8],
    objects: &'a [u8; 256],
    k: usize,
    at: usize,
    depth: usize,
    x: usize,
) -> Taken<bool>
    requires { k < 64 }
    ensures { result ≡ expr_found summed (four_at objects.now k) x (expr_at depth rows.now at) }
{
    if depth == 0 || rows.len() <= at {
        return Taken {
            what: false,
            next: at,
        };
    }
    let tag = happening_forms::cell(rows, at);
    if 2 < tag {
        return leaf(rows, objects, k, at, tag, x);
    }
    let a = expr_reads(rows, objects, k, at + 1, depth - 1, x);
    if tag == 0 {
        return a;
    }
    let b = expr_reads(rows, objects, k, a.next, depth - 1, x);
    Taken {
        what: a.what || b.what,
        next: b.next,
    }
}
