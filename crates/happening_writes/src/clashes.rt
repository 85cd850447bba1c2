// Effects that can't be together, in one point or in two; and what right sides read.
ghost use Rattle.std.specs.Prelude.{◌≡◌, ◌<◌};
ghost use Rattle.domain_prepared_meaning.specs.Decode.{effects_at};
ghost use Rattle.happening_meaning.specs.Writes.{undo, collide, against, some, itself, right_reads};
ghost use Rattle.happening_forms.specs.Summed.{summed, four_at};
ghost use Rattle.happening_writes.specs.Rows.{marks_at};
ghost use Rattle.happening_writes.specs.Asking.{asked_against};
ghost use Rattle.happening_writes.specs.Left.{shown_left};

use crate::marks::{Asked, Walk};
use crate::rows;
use happening_expressions::reads;
use happening_meaning::Mark;
use rows::Row;

// Both write one number, "unless both only raise or lower it".
#[tactic(auto, unfolding(happening_meaning::specs::Writes::collide))]
fn collide(m: Mark, n: Mark) -> bool
    ensures { result ≡ collide m n }
{
    match (m, n) {
        (Mark::Number(assigned, x), Mark::Number(assigns, y)) => x == y && (assigned || assigns),
        _ => false,
    }
}

// "one adds what the other deletes"
#[tactic(auto, unfolding(happening_meaning::specs::Writes::undo))]
fn undo(m: Mark, n: Mark) -> bool
    ensures { result ≡ undo m n }
{
    match (m, n) {
        (Mark::Fact(added, x), Mark::Fact(adds, y)) => x == y && added != adds,
        _ => false,
    }
}

#[tactic(auto, unfolding(happening_meaning::specs::Writes::against))]
fn against(m: Mark, n: Mark) -> bool
    ensures { result ≡ against m n }
{
    collide(m, n) || undo(m, n)
}

// What to ask for where one that can't be together with an effect is looked for.
fn asked_against(m: Mark) -> Asked
    ensures { result ≡ asked_against m }
{
    match m {
        Mark::Fact(added, _) => Asked::Facts(!added),
        Mark::Nothing | Mark::Number(..) => Asked::Numbers,
    }
}

// Whether an effect of another point can't be together with one of the list at a place.
pub fn clashes<'a>(rows: &'a [u8], objects: &'a [u8; 256], k: usize, from: usize, m: Mark) -> bool
    requires { k < 64 }
    ensures { result ≡ some (against m) (marks_at rows.now (four_at objects.now k) from) }
{
    Walk::asking(rows, objects, k, from, asked_against(m)).any(|n| against(m, n))
}

// Whether a mark collides with one of those after it: only a number does.
fn collided(m: Mark, mut later: Walk) -> bool
    ensures { result ≡ some (collide m) (shown_left later.entry) }
{
    match m {
        Mark::Number(..) => later.any(|n| collide(m, n)),
        Mark::Nothing | Mark::Fact(..) => false,
    }
}

// Step 2: "no number is assigned twice, or assigned and also raised or lowered".
#[tactic(auto, using(crate::proofs::Showing::itself_asked), unfolding(happening_meaning::specs::Writes::itself))]
pub fn itself<'a>(rows: &'a [u8], objects: &'a [u8; 256], k: usize, from: usize) -> bool
    requires { k < 64 }
    ensures { result ≡ itself (marks_at rows.now (four_at objects.now k) from) }
{
    let mut marks = Walk::asking(rows, objects, k, from, Asked::Numbers);
    while let Some(m) = marks.next() {
        if collided(m, marks) {
            return true;
        }
    }
    false
}

// Whether a right side of the list at a place reads number x.
pub fn rights_read<'a>(
    rows: &'a [u8],
    objects: &'a [u8; 256],
    k: usize,
    from: usize,
    x: usize,
) -> bool
    requires { k < 64 }
    ensures { result ≡ some (right_reads summed (four_at objects.now k) x) (effects_at rows.now from) }
{
    let mut at = from;
    while let Some(row) = rows::effect_at(rows, at) {
        match row {
            Row::Fact { next, .. } => at = next,
            Row::Number { right, .. } => {
                let e = reads::expr_reads(rows, objects, k, right, 16, x);
                if e.what {
                    return true;
                }
                at = e.next;
            }
        }
    }
    false
}
