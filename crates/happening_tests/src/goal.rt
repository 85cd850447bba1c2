// "The last state of all meets the goal."
ghost use Rattle.std.specs.Prelude.{◌≡◌};
ghost use Rattle.domain_prepared_meaning.specs.Decode.{goal_at};
ghost use Rattle.happening_meaning.specs.Truths.{truth_of};
ghost use Rattle.happening_meaning.specs.Happening.{no_objects};
ghost use Rattle.happening_forms.specs.Summed.{summed};
ghost use Rattle.happening_state.specs.States.{state_in};

use crate::truths;
use happening_meaning::Truth;

pub fn reach<'a>(goal: &'a [u8], facts: &'a [u8], numbers: &'a [i64]) -> Truth
    ensures { result ≡ truth_of summed (state_in facts.now numbers.now) no_objects (goal_at goal.now) }
{
    let nobody = [0u8; 256];
    truths::hold(goal, facts, numbers, &nobody, 0, 0)
}
