// One instant on a state, in the order of RULES 11: steps 1 to 4 for the points of a happening, step 5 for a line under way, and the goal.
#![tactic(auto)]

pub mod applying;
pub mod judging;

ghost use Rattle.std.specs.Prelude.{◌≡◌, ◌≤◌, length};
ghost use Rattle.domain_prepared_meaning.specs.Decode.{goal_at};
ghost use Rattle.happening_meaning.specs.Happening.{happened, happening, reached};
ghost use Rattle.happening_forms.specs.Summed.{summed};
ghost use Rattle.happening_state.specs.States.{state_in};
ghost use Rattle.happening_placing.specs.Given.{points_in};
ghost use Rattle.happening_meetings.specs.Marks.{no_marks};

use happening_meaning::Outcome;
use happening_tests::goal;

// Steps 1 to 4 for the n points given, by line number. `fresh` holds the same numbers as `numbers`, before and after; `marks` is lent to step 3.
pub fn happen<'a>(
    rows: &'a [u8],
    facts: &mut [u8],
    numbers: &mut [i64],
    fresh: &mut [i64],
    points: &'a [usize; 256],
    objects: &'a [u8; 256],
    n: usize,
    marks: &mut [u8; 17408],
) -> Outcome
    requires { (n ≤ 64) × (385 ≤ length rows.now) × (length rows.now ≤ 65536) × (fresh.old ≡ numbers.old) × (marks.old ≡ no_marks) }
    ensures { (happened result (state_in facts.new numbers.new) ≡ happening summed
        (state_in facts.old numbers.old) (points_in rows.now points.now objects.now n 0))
        × (fresh.new ≡ numbers.new) × (marks.new ≡ no_marks) }
{
    let o = judging::allow(rows, facts, numbers, points, objects, n, marks);
    let Outcome::Done = o else {
        return o;
    };
    let c = applying::change_points(rows, numbers, fresh, points, objects, n);
    let Outcome::Done = c else {
        applying::settle_points(rows, numbers, fresh, points, objects, n);
        return c;
    };
    let s = applying::stay_all(rows, fresh, points, objects, n);
    let Outcome::Done = s else {
        applying::settle_points(rows, numbers, fresh, points, objects, n);
        return s;
    };
    applying::renew_facts(rows, facts, points, objects, n);
    applying::settle_points(rows, fresh, numbers, points, objects, n);
    Outcome::Done
}

// "The last state of all meets the goal."
#[tactic(auto, unfolding(happening_meaning::specs::Happening::reached))]
pub fn reach<'a>(goal: &'a [u8], facts: &'a [u8], numbers: &'a [i64]) -> Outcome
    ensures { result ≡ reached summed (goal_at goal.now) (state_in facts.now numbers.now) }
{
    let t = goal::reach(goal, facts, numbers);
    judging::judge(Outcome::Goal, 0, t)
}
