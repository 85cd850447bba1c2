// Two points by what exactly they read and write: gone through only where something meets.
ghost use Rattle.std.specs.Prelude.{◌≡◌, ◌≤◌, ◌<◌, length};
ghost use Rattle.happening_meaning.specs.Writes.{some, against};
ghost use Rattle.happening_meaning.specs.Happening.{rule_reads, reads_fact, reads_number, marks, interfere, clear};
ghost use Rattle.happening_meaning.specs.Happening as Happens;
ghost use Rattle.happening_forms.specs.Summed.{summed, four_at};
ghost use Rattle.happening_placing.specs.Given.{rule_in, point_in};

use happening_expressions::reads;
use happening_meaning::{Mark, Outcome};
use happening_placing::Placed;
use happening_tests::reads as tests;
use happening_writes::clashes;
use happening_writes::marks::Marks;

#[tactic(auto, unfolding(happening_meaning::specs::Happening::rule_reads, happening_expressions::specs::Evaluated::expr_found))]
fn rule_reads<'a>(rows: &'a [u8], objects: &'a [u8; 256], k: usize, p: Placed, x: usize) -> bool
    requires { k < 64 }
    ensures { result ≡ rule_reads summed (four_at objects.now k) x (rule_in rows.now p) }
{
    let Some(at) = p.rule_expression(rows) else {
        return false;
    };
    let e = reads::expr_reads(rows, objects, k, at, 16, x);
    e.what
}

// Whether point i reads fact x.
#[tactic(auto, using(happening_placing::proofs::Placing::by_place), unfolding(happening_meaning::specs::Happening::reads_fact))]
fn reads_fact<'a>(
    rows: &'a [u8],
    points: &'a [usize; 256],
    objects: &'a [u8; 256],
    i: usize,
    x: usize,
) -> bool
    requires { (i < 64) × (385 ≤ length rows.now) }
    ensures { result ≡ reads_fact summed (point_in rows.now points.now objects.now i) x }
{
    let p = happening_placing::point_at(rows, points, i);
    tests::reads_fact(rows, objects, i, p.tests, x)
}

// Whether point i reads number x: "in a condition, a duration rule or a right side".
#[tactic(auto, using(happening_placing::proofs::Placing::by_place), unfolding(happening_meaning::specs::Happening::reads_number))]
fn reads_number<'a>(
    rows: &'a [u8],
    points: &'a [usize; 256],
    objects: &'a [u8; 256],
    i: usize,
    x: usize,
) -> bool
    requires { (i < 64) × (385 ≤ length rows.now) }
    ensures { result ≡ reads_number summed (point_in rows.now points.now objects.now i) x }
{
    let p = happening_placing::point_at(rows, points, i);
    tests::reads_number(rows, objects, i, p.tests, x)
        || rule_reads(rows, objects, i, p, x)
        || clashes::rights_read(rows, objects, i, p.effects, x)
}

#[tactic(auto, unfolding(happening_meaning::specs::Happening::reads))]
fn reads<'a>(
    rows: &'a [u8],
    points: &'a [usize; 256],
    objects: &'a [u8; 256],
    i: usize,
    m: Mark,
) -> bool
    requires { (i < 64) × (385 ≤ length rows.now) }
    ensures { result ≡ Happens.reads summed (point_in rows.now points.now objects.now i) m }
{
    match m {
        Mark::Nothing => false,
        Mark::Fact(_, x) => reads_fact(rows, points, objects, i, x),
        Mark::Number(_, x) => reads_number(rows, points, objects, i, x),
    }
}

// Whether point i reads something that point j writes.
fn reads_any<'a>(
    rows: &'a [u8],
    points: &'a [usize; 256],
    objects: &'a [u8; 256],
    i: usize,
    j: usize,
) -> bool
    requires { (i < 64) × (j < 64) × (385 ≤ length rows.now) }
    ensures { result ≡ some (Happens.reads summed (point_in rows.now points.now objects.now i))
        (marks summed (point_in rows.now points.now objects.now j)) }
{
    let q = happening_placing::point_at(rows, points, j);
    Marks::new(rows, objects, j, q.effects).any(|m| reads(rows, points, objects, i, m))
}

// Whether an effect of point i can't be together with one of point j.
fn clash_any<'a>(
    rows: &'a [u8],
    points: &'a [usize; 256],
    objects: &'a [u8; 256],
    i: usize,
    j: usize,
) -> bool
    requires { (i < 64) × (j < 64) × (385 ≤ length rows.now) }
    ensures { result ≡ some (λ m. some (against m) (marks summed (point_in rows.now points.now objects.now j)))
        (marks summed (point_in rows.now points.now objects.now i)) }
{
    let p = happening_placing::point_at(rows, points, i);
    let q = happening_placing::point_at(rows, points, j);
    Marks::new(rows, objects, i, p.effects).any(|m| clashes::clashes(
        rows, objects, j, q.effects, m,
    ))
}

#[tactic(auto, unfolding(happening_meaning::specs::Happening::interfere))]
fn interferes<'a>(
    rows: &'a [u8],
    points: &'a [usize; 256],
    objects: &'a [u8; 256],
    i: usize,
    j: usize,
) -> bool
    requires { (i < 64) × (j < 64) × (385 ≤ length rows.now) }
    ensures { result ≡ interfere summed (point_in rows.now points.now objects.now i)
        (point_in rows.now points.now objects.now j) }
{
    reads_any(rows, points, objects, i, j)
        || reads_any(rows, points, objects, j, i)
        || clash_any(rows, points, objects, i, j)
}

// Step 3 for a pair.
#[tactic(auto, using(happening_placing::proofs::Placing::line_is), unfolding(happening_meaning::specs::Happening::clear))]
pub fn keep_clear<'a>(
    rows: &'a [u8],
    points: &'a [usize; 256],
    objects: &'a [u8; 256],
    i: usize,
    j: usize,
) -> Outcome
    requires { (i < 64) × (j < 64) × (385 ≤ length rows.now) }
    ensures { result ≡ clear summed (point_in rows.now points.now objects.now i)
        (point_in rows.now points.now objects.now j) }
{
    if interferes(rows, points, objects, i, j) {
        let p = happening_placing::point_at(rows, points, i);
        let q = happening_placing::point_at(rows, points, j);
        return Outcome::Conflict(p.line, q.line);
    }
    Outcome::Done
}
