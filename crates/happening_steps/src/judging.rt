// Steps 1 to 3 for all points of a happening, and step 5 for a line under way, with what it looks at.
ghost use Rattle.std.specs.Prelude.{◌≡◌, ◌&&◌, ℕ, ◌≤◌, ◌<◌, pos, length};
ghost use Rattle.std.specs.Int.Signed.{le_z};
ghost use Rattle.happening_meaning.specs.Happening.{each, judged, lasts, lasting, rule_of, tested, apart, allowed, spans};
ghost use Rattle.happening_forms.specs.Summed.{summed};
ghost use Rattle.happening_state.specs.States.{state_in};
ghost use Rattle.happening_placing.specs.Given.{placed_in, point_in, points_in, line_at};
ghost use Rattle.happening_meetings.specs.Marks.{no_marks};
ghost use Rattle.happening_steps.specs.Watching.{watching};

use happening_expressions::values;
use happening_meaning::{Outcome, Truth, Value};
use happening_meetings::clearing;
use happening_placing::Placed;
use happening_tests::{reads, truths};
use happening_writes::clashes;

fn is_same(z: i64, d: usize) -> bool
    ensures { result ≡ (le_z z (pos d) && le_z (pos d) z) }
{
    if 9223372036854775807 < d {
        return false;
    }
    let s = d as i64;
    happening_amounts::at_most(z, s) && happening_amounts::at_most(s, z)
}

#[tactic(auto, unfolding(happening_meaning::specs::Happening::lasts))]
fn compare_duration(line: usize, duration: usize, v: Value) -> Outcome
    ensures { result ≡ lasts line duration v }
{
    match v {
        Value::Number(z) if is_same(z, duration) => Outcome::Done,
        Value::Number(_) => Outcome::Duration(line),
        Value::Undefined => Outcome::Undefined(line),
        Value::Range => Outcome::Range(line),
    }
}

// What the truth of a line's conditions means, `fails` being for those that don't hold.
#[tactic(auto, unfolding(happening_meaning::specs::Happening::judged))]
pub fn judge(fails: Outcome, line: usize, t: Truth) -> Outcome
    ensures { result ≡ judged fails line t }
{
    match t {
        Truth::Holds => Outcome::Done,
        Truth::Fails => fails,
        Truth::Undefined => Outcome::Undefined(line),
        Truth::Range => Outcome::Range(line),
    }
}

// "for a start, the duration rule", of point j
#[tactic(auto, using(happening_placing::proofs::Placing::by_place), unfolding(happening_meaning::specs::Happening::lasting, happening_expressions::specs::Evaluated::valued_of))]
fn test_rule<'a>(
    rows: &'a [u8],
    numbers: &'a [i64],
    points: &'a [usize; 256],
    objects: &'a [u8; 256],
    j: usize,
    p: Placed,
) -> Outcome
    requires { (j < 64) × (p ≡ placed_in rows.now points.now j) }
    ensures { result ≡ lasting summed numbers.now (point_in rows.now points.now objects.now j)
        (rule_of (point_in rows.now points.now objects.now j)) }
{
    let Some(at) = p.rule_expression(rows) else {
        return Outcome::Done;
    };
    let e = values::value(rows, numbers, objects, j, at, 16);
    compare_duration(p.line, p.duration, e.what)
}

// Step 1 for point j: the duration rule, then the conditions.
#[tactic(auto, using(happening_placing::proofs::Placing::by_place), unfolding(happening_meaning::specs::Happening::tested, happening_meaning::specs::Happening::unless))]
fn test<'a>(
    rows: &'a [u8],
    facts: &'a [u8],
    numbers: &'a [i64],
    points: &'a [usize; 256],
    objects: &'a [u8; 256],
    j: usize,
) -> Outcome
    requires { (j < 64) × (385 ≤ length rows.now) }
    ensures { result ≡ tested summed (state_in facts.now numbers.now)
        (point_in rows.now points.now objects.now j) }
{
    let p = happening_placing::point_at(rows, points, j);
    let o = test_rule(rows, numbers, points, objects, j, p);
    let Outcome::Done = o else {
        return o;
    };
    let t = truths::hold(rows, facts, numbers, objects, j, p.tests);
    judge(Outcome::Condition(p.line), p.line, t)
}

// Step 1, point by point.
#[tactic(auto, using(happening_meetings::proofs::Given::by_point), unfolding(happening_meaning::specs::Happening::each, happening_meaning::specs::Happening::unless))]
fn test_all<'a>(
    rows: &'a [u8],
    facts: &'a [u8],
    numbers: &'a [i64],
    points: &'a [usize; 256],
    objects: &'a [u8; 256],
    n: usize,
) -> Outcome
    requires { (n ≤ 64) × (385 ≤ length rows.now) }
    ensures { result ≡ each (tested summed (state_in facts.now numbers.now))
        (points_in rows.now points.now objects.now n 0) }
{
    for j in 0..n {
        let o = test(rows, facts, numbers, points, objects, j);
        let Outcome::Done = o else {
            return o;
        };
    }
    Outcome::Done
}

// Step 2 for point j: no two of its effects are in each other's way.
#[tactic(auto, using(happening_placing::proofs::Placing::line_is, happening_meetings::proofs::Given::marks_are), unfolding(happening_meaning::specs::Happening::apart))]
fn keep_apart<'a>(
    rows: &'a [u8],
    points: &'a [usize; 256],
    objects: &'a [u8; 256],
    j: usize,
) -> Outcome
    requires { (j < 64) × (385 ≤ length rows.now) }
    ensures { result ≡ apart summed (point_in rows.now points.now objects.now j) }
{
    let p = happening_placing::point_at(rows, points, j);
    if clashes::itself(rows, objects, j, p.effects) {
        return Outcome::Itself(p.line);
    }
    Outcome::Done
}

// Step 2, point by point.
#[tactic(auto, using(happening_meetings::proofs::Given::by_point), unfolding(happening_meaning::specs::Happening::each, happening_meaning::specs::Happening::unless))]
fn apart_all<'a>(
    rows: &'a [u8],
    points: &'a [usize; 256],
    objects: &'a [u8; 256],
    n: usize,
) -> Outcome
    requires { (n ≤ 64) × (385 ≤ length rows.now) }
    ensures { result ≡ each (apart summed) (points_in rows.now points.now objects.now n 0) }
{
    for j in 0..n {
        let o = keep_apart(rows, points, objects, j);
        let Outcome::Done = o else {
            return o;
        };
    }
    Outcome::Done
}

// Steps 1 to 3.
#[tactic(auto, unfolding(happening_meaning::specs::Happening::allowed, happening_meaning::specs::Happening::unless))]
pub fn allow<'a>(
    rows: &'a [u8],
    facts: &'a [u8],
    numbers: &'a [i64],
    points: &'a [usize; 256],
    objects: &'a [u8; 256],
    n: usize,
    marks: &mut [u8; 17408],
) -> Outcome
    requires { (n ≤ 64) × (385 ≤ length rows.now) × (marks.old ≡ no_marks) }
    ensures { (result ≡ allowed summed (state_in facts.now numbers.now)
        (points_in rows.now points.now objects.now n 0)) × (marks.new ≡ no_marks) }
{
    let t = test_all(rows, facts, numbers, points, objects, n);
    let Outcome::Done = t else {
        return t;
    };
    let a = apart_all(rows, points, objects, n);
    let Outcome::Done = a else {
        return a;
    };
    clearing::clear_pairs(rows, points, objects, n, marks)
}

// Step 5 for a line whose objects are at place k: its `over all` conditions.
pub fn span<'a>(
    rows: &'a [u8],
    facts: &'a [u8],
    numbers: &'a [i64],
    objects: &'a [u8; 256],
    k: usize,
    line: usize,
    action: usize,
) -> Outcome
    requires { (k < 64) × (385 ≤ length rows.now) }
    ensures { (d : ℕ) → result ≡ spans summed (state_in facts.now numbers.now)
        (line_at rows.now objects.now k line action d) }
{
    let from = happening_placing::during(rows, action);
    let t = truths::hold(rows, facts, numbers, objects, k, from);
    judge(Outcome::Invariant(line), line, t)
}

// The bits of all facts and numbers that the `over all` conditions of such a line read.
pub fn watched<'a>(rows: &'a [u8], objects: &'a [u8; 256], k: usize, action: usize) -> u64
    requires { (k < 64) × (385 ≤ length rows.now) }
    ensures { (line d : ℕ) → result ≡ watching summed (line_at rows.now objects.now k line action d) }
{
    let from = happening_placing::during(rows, action);
    reads::mask_of(rows, objects, k, from)
}
