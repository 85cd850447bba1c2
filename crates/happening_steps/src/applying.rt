// Step 4 for all points of a happening.
ghost use Rattle.std.specs.Prelude.{◌≡◌, ◌≤◌, length};
ghost use Rattle.happening_meaning.specs.Happening.{made, change_points, each, stays, each_mark, all_marks, new_facts};
ghost use Rattle.happening_meaning.specs.Writes.{some};
ghost use Rattle.happening_forms.specs.Summed.{summed};
ghost use Rattle.happening_placing.specs.Given.{points_in};
ghost use Rattle.happening_writes.specs.Changing.{settle_all, write_fact, adds};
ghost use Rattle.happening_writes.specs.Masks.{mask_from};

use happening_meaning::Outcome;
use happening_writes::{facts, masks, numbers};

// The new numbers into `fresh`, which holds the old ones.
pub fn change_points<'a>(
    rows: &'a [u8],
    old: &'a [i64],
    fresh: &mut [i64],
    points: &'a [usize; 256],
    objects: &'a [u8; 256],
    n: usize,
) -> Outcome
    requires { (n ≤ 64) × (385 ≤ length rows.now) × (length rows.now ≤ 65536) × (fresh.old ≡ old.now) }
    ensures { made result fresh.new ≡ change_points summed old.now fresh.old
        (points_in rows.now points.now objects.now n 0) }
{
    for j in 0..n {
        let p = happening_placing::point_at(rows, points, j);
        let o = numbers::change(rows, old, fresh, objects, j, p.line, p.effects);
        let Outcome::Done = o else {
            return o;
        };
    }
    Outcome::Done
}

// "a new value outside (the lowest line to write one is named)"
#[tactic(auto, using(happening_meetings::proofs::Given::by_point, happening_placing::proofs::Placing::line_is, happening_meetings::proofs::Given::marks_are), unfolding(happening_meaning::specs::Happening::each, happening_meaning::specs::Happening::unless, happening_meaning::specs::Happening::stays))]
pub fn stay_all<'a>(
    rows: &'a [u8],
    fresh: &'a [i64],
    points: &'a [usize; 256],
    objects: &'a [u8; 256],
    n: usize,
) -> Outcome
    requires { (n ≤ 64) × (385 ≤ length rows.now) }
    ensures { result ≡ each (stays summed fresh.now)
        (points_in rows.now points.now objects.now n 0) }
{
    for j in 0..n {
        let p = happening_placing::point_at(rows, points, j);
        if numbers::leaves(rows, fresh, objects, j, p.effects) {
            return Outcome::Range(p.line);
        }
    }
    Outcome::Done
}

// What all points delete, or add. The answer: whether one of them adds a fact at all.
#[tactic(auto, using(happening_meetings::proofs::Given::points_all, crate::proofs::Applied::write_turn, crate::proofs::Applied::write_end, crate::proofs::Applied::adds_turn, crate::proofs::Applied::adds_end))]
fn write_points<'a>(
    rows: &'a [u8],
    facts: &mut [u8],
    points: &'a [usize; 256],
    objects: &'a [u8; 256],
    n: usize,
    add: bool,
) -> bool
    requires { (n ≤ 64) × (385 ≤ length rows.now) }
    ensures { (facts.new ≡ each_mark (write_fact add) facts.old
        (all_marks summed (points_in rows.now points.now objects.now n 0)))
        × (result ≡ some adds (all_marks summed (points_in rows.now points.now objects.now n 0))) }
{
    let mut any = false;
    for j in 0..n {
        let p = happening_placing::point_at(rows, points, j);
        any = facts::write_facts(rows, facts, objects, j, p.effects, add, any);
    }
    any
}

// "(old without deleted) with added". The points are gone through again only if one of them adds a fact.
#[tactic(auto, using(happening_writes::proofs::Joining::none_added))]
pub fn renew_facts<'a>(
    rows: &'a [u8],
    facts: &mut [u8],
    points: &'a [usize; 256],
    objects: &'a [u8; 256],
    n: usize,
)
    requires { (n ≤ 64) × (385 ≤ length rows.now) }
    ensures { facts.new ≡ new_facts summed facts.old
        (points_in rows.now points.now objects.now n 0) }
{
    let more = write_points(rows, facts, points, objects, n, false);
    if more {
        write_points(rows, facts, points, objects, n, true);
    }
}

// Each number that a point writes becomes what it is in the source.
#[tactic(auto, using(happening_meetings::proofs::Given::points_all, crate::proofs::Applied::settle_turn, crate::proofs::Applied::settle_end))]
pub fn settle_points<'a>(
    rows: &'a [u8],
    source: &'a [i64],
    target: &mut [i64],
    points: &'a [usize; 256],
    objects: &'a [u8; 256],
    n: usize,
)
    requires { (n ≤ 64) × (385 ≤ length rows.now) }
    ensures { target.new ≡ settle_all source.now target.old
        (all_marks summed (points_in rows.now points.now objects.now n 0)) }
{
    for j in 0..n {
        let p = happening_placing::point_at(rows, points, j);
        numbers::settle(rows, source, target, objects, j, p.effects);
    }
}

// The bits of all facts and numbers that the points write.
#[tactic(auto, using(happening_meetings::proofs::Given::points_all, crate::proofs::Applied::mask_turn, crate::proofs::Applied::mask_end))]
pub fn written<'a>(
    rows: &'a [u8],
    points: &'a [usize; 256],
    objects: &'a [u8; 256],
    n: usize,
) -> u64
    requires { (n ≤ 64) × (385 ≤ length rows.now) }
    ensures { result ≡ mask_from 0 (all_marks summed (points_in rows.now points.now objects.now n 0)) }
{
    let mut mask = 0u64;
    for j in 0..n {
        let p = happening_placing::point_at(rows, points, j);
        mask = masks::writes(rows, objects, j, p.effects, mask);
    }
    mask
}
