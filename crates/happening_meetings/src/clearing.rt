// Step 3 for all points of a happening.
ghost use Rattle.std.specs.Prelude.{◌≡◌, ◌+◌, ◌-◌, ◌≤◌, ◌<◌, length};
ghost use Rattle.happening_meaning.specs.Happening.{each, clear, pairs};
ghost use Rattle.happening_forms.specs.Summed.{summed};
ghost use Rattle.happening_placing.specs.Given.{point_in, points_in};
ghost use Rattle.happening_meetings.specs.Accesses.{some_pair};
ghost use Rattle.happening_meetings.specs.Marks.{no_marks, scan, mark_each, wipe_each};
ghost use Rattle.happening_meetings.specs.Points.{accesses_in};

use crate::{pairs, points, walks};
use happening_meaning::Outcome;
use walks::Mode;

// Each point but the last is marked, and the one after it held against the marks so far: whether one meets a mark.
#[tactic(auto, using(crate::proofs::Given::scan_start, crate::proofs::Given::scan_end, crate::proofs::Given::mark_end, crate::proofs::Given::accesses_all))]
fn scan_all<'a>(
    rows: &'a [u8],
    points: &'a [usize; 256],
    objects: &'a [u8; 256],
    last: usize,
    marks: &mut [u8; 17408],
) -> bool
    requires { (last < 64) × (385 ≤ length rows.now) × (marks.old ≡ no_marks) }
    ensures { (result ≡ scan no_marks (accesses_in rows.now points.now objects.now (last + 1) 0))
        × (marks.new ≡ mark_each no_marks (accesses_in rows.now points.now objects.now last 0)) }
{
    let mut found = false;
    for j in 0..last {
        let p = happening_placing::point_at(rows, points, j);
        points::walk_point(rows, p, objects, j, marks, Mode::Mark);
        let q = happening_placing::point_at(rows, points, j + 1);
        found |= points::walk_point(rows, q, objects, j + 1, marks, Mode::Meet);
    }
    found
}

// The marks of the first n points are taken away.
#[tactic(auto, using(crate::proofs::Given::wipe_turn, crate::proofs::Given::wipe_end, crate::proofs::Given::accesses_all))]
fn wipe_all<'a>(
    rows: &'a [u8],
    points: &'a [usize; 256],
    objects: &'a [u8; 256],
    n: usize,
    marks: &mut [u8; 17408],
)
    requires { (n ≤ 64) × (385 ≤ length rows.now) }
    ensures { marks.new ≡ wipe_each marks.old (accesses_in rows.now points.now objects.now n 0) }
{
    for j in 0..n {
        let p = happening_placing::point_at(rows, points, j);
        points::walk_point(rows, p, objects, j, marks, Mode::Wipe);
    }
}

// Whether some two points meet. There are no marks before it and none after it.
fn some_pair<'a>(
    rows: &'a [u8],
    points: &'a [usize; 256],
    objects: &'a [u8; 256],
    n: usize,
    marks: &mut [u8; 17408],
) -> bool
    requires { (0 < n) × (n ≤ 64) × (385 ≤ length rows.now) × (marks.old ≡ no_marks) }
    ensures { (result ≡ some_pair (accesses_in rows.now points.now objects.now n 0)) × (marks.new ≡ no_marks) }
{
    let last = n - 1;
    let r = scan_all(rows, points, objects, last, marks);
    wipe_all(rows, points, objects, last, marks);
    r
}

// Point i and those after it.
#[tactic(auto, using(crate::proofs::Given::by_point), unfolding(happening_meaning::specs::Happening::each, happening_meaning::specs::Happening::unless))]
fn clear_all<'a>(
    rows: &'a [u8],
    points: &'a [usize; 256],
    objects: &'a [u8; 256],
    n: usize,
    i: usize,
) -> Outcome
    requires { (n ≤ 64) × (i < n) × (385 ≤ length rows.now) }
    ensures { result ≡ each (clear summed (point_in rows.now points.now objects.now i))
        (points_in rows.now points.now objects.now (n - (i + 1)) (i + 1)) }
{
    for j in i + 1..n {
        let o = pairs::keep_clear(rows, points, objects, i, j);
        let Outcome::Done = o else {
            return o;
        };
    }
    Outcome::Done
}

// "Per pair, ordered by the lower line, then the higher"
#[tactic(auto, using(crate::proofs::Given::by_point), unfolding(happening_meaning::specs::Happening::pairs, happening_meaning::specs::Happening::unless))]
fn each_pair<'a>(
    rows: &'a [u8],
    points: &'a [usize; 256],
    objects: &'a [u8; 256],
    n: usize,
) -> Outcome
    requires { (n ≤ 64) × (385 ≤ length rows.now) }
    ensures { result ≡ pairs summed (points_in rows.now points.now objects.now n 0) }
{
    for i in 0..n {
        let o = clear_all(rows, points, objects, n, i);
        let Outcome::Done = o else {
            return o;
        };
    }
    Outcome::Done
}

// Step 3. A happening of one point, the common case, pays nothing.
#[tactic(auto, using(crate::proofs::Crossing::pairs_none, crate::proofs::Meeting::pairs_quiet))]
pub fn clear_pairs<'a>(
    rows: &'a [u8],
    points: &'a [usize; 256],
    objects: &'a [u8; 256],
    n: usize,
    marks: &mut [u8; 17408],
) -> Outcome
    requires { (n ≤ 64) × (385 ≤ length rows.now) × (marks.old ≡ no_marks) }
    ensures { (result ≡ pairs summed (points_in rows.now points.now objects.now n 0)) × (marks.new ≡ no_marks) }
{
    if n < 2 {
        return Outcome::Done;
    }
    if some_pair(rows, points, objects, n, marks) {
        return each_pair(rows, points, objects, n);
    }
    Outcome::Done
}
