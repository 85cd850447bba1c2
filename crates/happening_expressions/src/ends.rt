// Where the expression at a place of the rows ends: known from the first bytes alone, without objects and without a state.
ghost use Rattle.std.specs.Prelude.{◌≡◌, ◌<◌, length};
ghost use Rattle.domain_prepared_meaning.specs.Decode.{leaf_at, expr_at};

// An expression without parts.
#[tactic(auto, unfolding(domain_prepared_meaning::specs::Decode::leaf_at))]
pub fn leaf_end(rows: &[u8], at: usize, tag: usize) -> usize
    requires { at < length rows.now }
    ensures { result ≡ (leaf_at rows.now at tag).next }
{
    match tag {
        5..=7 => at + 3 + (tag - 5),
        16.. if (tag - 16) % 8 < 6 => at + 1 + (tag - 16) % 8,
        _ => at + 1,
    }
}

// The place after the expression at a place, at most so many levels deep.
#[tactic(auto, using(crate::proofs::Shapes::expr_none, crate::proofs::Shapes::expr_past, crate::proofs::Shapes::expr_here), unfolding(domain_prepared_meaning::specs::Decode::expr_node))]
pub fn expr_end(rows: &[u8], at: usize, depth: usize) -> usize
    ensures { result ≡ (expr_at depth rows.now at).next }
{
    if depth == 0 || rows.len() <= at {
        return at;
    }
    let tag = happening_forms::cell(rows, at);
    if 2 < tag {
        return leaf_end(rows, at, tag);
    }
    let second = expr_end(rows, at + 1, depth - 1);
    if tag == 0 {
        return second;
    }
    expr_end(rows, second, depth - 1)
}
