// The effects of a point on facts: what it deletes, or what it adds.
ghost use Rattle.std.specs.Prelude.{◌≡◌, ◌||◌, ◌<◌};
ghost use Rattle.happening_meaning.specs.Writes.{some};
ghost use Rattle.happening_meaning.specs.Happening.{each_mark};
ghost use Rattle.happening_forms.specs.Summed.{four_at};
ghost use Rattle.happening_writes.specs.Rows.{marks_at};
ghost use Rattle.happening_writes.specs.Changing.{write_fact, adds};

use crate::marks::{Asked, Walk};
use happening_meaning::Mark;

// The facts that a point adds (`add`) or deletes. The answer: whether this point, or an earlier one, adds a fact at all.
#[tactic(auto, using(crate::proofs::Showing::facts_asked, crate::proofs::Showing::adds_asked), unfolding(happening_meaning::specs::Happening::each_mark, happening_meaning::specs::Writes::some, crate::specs::Changing::adds, happening_meaning::specs::Happening::with, happening_meaning::specs::Happening::without))]
pub fn write_facts<'a>(
    rows: &'a [u8],
    facts: &mut [u8],
    objects: &'a [u8; 256],
    k: usize,
    from: usize,
    add: bool,
    earlier: bool,
) -> bool
    requires { k < 64 }
    ensures { (facts.new ≡ each_mark (write_fact add) facts.old
        (marks_at rows.now (four_at objects.now k) from))
        × (result ≡ (earlier || some adds (marks_at rows.now (four_at objects.now k) from))) }
{
    let mut any = earlier;
    for m in Walk::asking(rows, objects, k, from, Asked::Facts(add)) {
        if let Mark::Fact(added, x) = m {
            any |= added;
            if added == add {
                happening_state::make(facts, x, add);
            }
        }
    }
    any
}
