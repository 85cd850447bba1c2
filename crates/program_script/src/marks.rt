// Outputs that are still filled with a mark.
ghost use Rattle.std.specs.Prelude.{◌≡◌, drop};
ghost use Rattle.std.specs.List.{list_all};

// Whether a block has the mark from a place on.
pub fn is_filled<T: Copy + PartialEq>(block: &[T], from: usize, mark: T) -> bool
    ensures { result ≡ list_all (λ x. T.eq x mark) (drop from block.now) }
{
    block.iter().skip(from).all(|x| *x == mark)
}
