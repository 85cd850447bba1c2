// One walk over what a point reads and writes, in three modes.
ghost use Rattle.std.specs.Prelude.{◌≡◌, ◌+◌, ◌<◌, length};
ghost use Rattle.domain_prepared_meaning.specs.Decode.{leaf_at, expr_at};
ghost use Rattle.happening_forms.specs.Summed.{summed, four_at};
ghost use Rattle.happening_meetings.specs.Accesses.{access, kind_of, fact_cell, number_cell, expr_accesses};
ghost use Rattle.happening_meetings.specs.Marks.{join_of, hit_by, after_one, met_one, Went};

use happening_expressions::ends;
use happening_forms::Taken;

// What is done with each access: it is held against the marks, it is marked, or its mark is taken away.
#[derive(Clone, Copy)]
pub enum Mode {
    Meet,
    Mark,
    Wipe,
}

// What is done at a cell: it is read, added or raised, deleted, assigned.
#[derive(Clone, Copy)]
pub enum Kind {
    Reads,
    Adds,
    Deletes,
    Assigns,
}

// The mark of things of this kind alone.
fn mark_of(kind: Kind) -> u8
    ensures { (result ≡ kind_of kind + 2) × (result < 6) }
{
    kind as u8 + 2
}

#[tactic(auto, unfolding(crate::specs::Marks::join_of))]
fn join(m: u8, kind: Kind) -> u8
    ensures { result ≡ join_of m (kind_of kind) }
{
    let alone = mark_of(kind);
    if m == 0 || m == alone {
        return alone;
    }
    1
}

#[tactic(auto, unfolding(crate::specs::Marks::hit_by))]
fn hit(m: u8, kind: Kind) -> bool
    ensures { result ≡ hit_by m (kind_of kind) }
{
    if m == 0 {
        return false;
    }
    if m == mark_of(kind) {
        return matches!(kind, Kind::Assigns);
    }
    true
}

#[tactic(auto, unfolding(crate::specs::Accesses::fact_cell))]
pub fn fact_cell(x: usize) -> usize
    ensures { (result ≡ fact_cell x) × (result < 17408) }
{
    if x < 16384 { x } else { 0 }
}

#[tactic(auto, unfolding(crate::specs::Accesses::number_cell))]
pub fn number_cell(x: usize) -> usize
    ensures { (result ≡ number_cell x) × (result < 17408) }
{
    if x < 1024 { 16384 + x } else { 0 }
}

// One access.
#[tactic(auto, unfolding(crate::specs::Marks::met_one, crate::specs::Marks::after_one))]
pub fn touch(marks: &mut [u8; 17408], cell: usize, kind: Kind, mode: Mode) -> bool
    requires { cell < 17408 }
    ensures { (result ≡ met_one mode marks.old (access (kind_of kind) cell))
        × (marks.new ≡ after_one mode marks.old (access (kind_of kind) cell)) }
{
    match mode {
        Mode::Meet => hit(marks[cell], kind),
        Mode::Mark => {
            marks[cell] = join(marks[cell], kind);
            false
        }
        Mode::Wipe => {
            marks[cell] = 0;
            false
        }
    }
}

fn leaf<'a>(
    rows: &'a [u8],
    objects: &'a [u8; 256],
    k: usize,
    at: usize,
    tag: usize,
    marks: &mut [u8; 17408],
    mode: Mode,
) -> Taken<bool>
    requires { (k < 64) × (at < length rows.now) }
    ensures { (result.next ≡ (leaf_at rows.now at tag).next) × Went mode marks.old
        (expr_accesses summed (four_at objects.now k) (leaf_at rows.now at tag).tree) result.what marks.new }
{
    let next = ends::leaf_end(rows, at, tag);
    match tag {
        0..=4 => Taken { what: false, next },
        5..=7 => {
            let i = happening_forms::index(rows, objects, k, at + 1, tag - 5);
            let found = touch(marks, number_cell(i), Kind::Reads, mode);
            Taken { what: found, next }
        }
        _ => Taken { what: false, next },
    }
}

// The numbers that the expression at a place, at most so many levels deep, reads.
pub fn walk_expr<'a>(
    rows: &'a [u8],
    objects: &'a [u8; 256],
    k: usize,
    at: usize,
    depth: usize,
    marks: &mut [u8; 17408],
    mode: Mode,
) -> Taken<bool>
    requires { k < 64 }
    ensures { (result.next ≡ (expr_at depth rows.now at).next) × Went mode marks.old
        (expr_accesses summed (four_at objects.now k) (expr_at depth rows.now at).tree) result.what marks.new }
{
    if depth == 0 || rows.len() <= at {
        return Taken {
            what: false,
            next: at,
        };
    }
    let tag = happening_forms::cell(rows, at);
    if 2 < tag {
        return leaf(rows, objects, k, at, tag, marks, mode);
    }
    let a = walk_expr(rows, objects, k, at + 1, depth - 1, marks, mode);
    if tag == 0 {
        return a;
    }
    let b = walk_expr(rows, objects, k, a.next, depth - 1, marks, mode);
    Taken {
        what: a.what | b.what,
        next: b.next,
    }
}
