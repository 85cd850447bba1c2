// What the effects of a point write, as a mask.
ghost use Rattle.std.specs.Prelude.{◌≡◌, ◌<◌};
ghost use Rattle.happening_forms.specs.Summed.{four_at};
ghost use Rattle.happening_writes.specs.Rows.{marks_at};
ghost use Rattle.happening_writes.specs.Masks.{mark_bit, mask_from};

use crate::marks::Marks;
use happening_meaning::Mark;

// A fact that is deleted has its bit as one that is added.
#[tactic(auto, unfolding(crate::specs::Masks::mark_bit))]
fn mark_bit(m: Mark) -> u64
    ensures { result ≡ mark_bit m }
{
    match m {
        Mark::Nothing => 0,
        Mark::Fact(_, x) => happening_state::fact_bit(x),
        Mark::Number(_, x) => happening_state::number_bit(x),
    }
}

// The bits of w, and of what the effects of the list at a place write.
#[tactic(auto, unfolding(crate::specs::Masks::mask_from))]
pub fn writes<'a>(rows: &'a [u8], objects: &'a [u8; 256], k: usize, from: usize, w: u64) -> u64
    requires { k < 64 }
    ensures { result ≡ mask_from w (marks_at rows.now (four_at objects.now k) from) }
{
    let mut mask = w;
    for m in Marks::new(rows, objects, k, from) {
        mask |= mark_bit(m);
    }
    mask
}
