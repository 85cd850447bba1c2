// The walk over all that a point reads and writes: its single conditions, its duration rule, its effects.
ghost use Rattle.std.specs.Prelude.{◌≡◌, cond, ◌<◌};
ghost use Rattle.domain_prepared_meaning.specs.Decode.{tests_at, effects_at};
ghost use Rattle.happening_forms.specs.Summed.{summed, four_at};
ghost use Rattle.happening_placing.specs.Given.{rule_in};
ghost use Rattle.happening_writes.specs.Rows.{assigns};
ghost use Rattle.happening_meetings.specs.Accesses.{kind_of, tests_accesses, rule_accesses, effects_accesses};
ghost use Rattle.happening_meetings.specs.Marks.{Went};
ghost use Rattle.happening_meetings.specs.Taken.{row_accesses, row_next};
ghost use Rattle.happening_meetings.specs.Points.{placed_accesses};

use crate::walks;
use happening_forms::Taken;
use happening_placing::Placed;
use happening_tests::taken;
use happening_writes::rows as written;
use walks::{Kind, Mode};
use written::How;

fn walk_row<'a>(
    rows: &'a [u8],
    objects: &'a [u8; 256],
    k: usize,
    row: taken::Row,
    marks: &mut [u8; 17408],
    mode: Mode,
) -> Taken<bool>
    requires { k < 64 }
    ensures { (result.next ≡ row_next rows.now row) × Went mode marks.old
        (row_accesses rows.now (four_at objects.now k) row) result.what marks.new }
{
    match row {
        taken::Row::Fact(_, i, next) => Taken {
            what: walks::touch(marks, walks::fact_cell(i), Kind::Reads, mode),
            next,
        },
        taken::Row::Same(_, next) => Taken { what: false, next },
        taken::Row::Compare(_, _, e) => {
            let a = walks::walk_expr(rows, objects, k, e, 16, marks, mode);
            let b = walks::walk_expr(rows, objects, k, a.next, 16, marks, mode);
            Taken {
                what: a.what | b.what,
                next: b.next,
            }
        }
    }
}

// The single conditions of the list at a place.
fn walk_tests<'a>(
    rows: &'a [u8],
    objects: &'a [u8; 256],
    k: usize,
    at: usize,
    marks: &mut [u8; 17408],
    mode: Mode,
) -> bool
    requires { k < 64 }
    ensures { Went mode marks.old (tests_accesses summed (four_at objects.now k) (tests_at rows.now at)) result
        marks.new }
{
    let mut found = false;
    let mut i = at;
    for _ in 0..rows.len() {
        let Some(row) = taken::test_at(rows, objects, k, i) else {
            return found;
        };
        let v = walk_row(rows, objects, k, row, marks, mode);
        found |= v.what;
        i = v.next;
    }
    found
}

// The duration rule of a start.
fn walk_rule<'a>(
    rows: &'a [u8],
    objects: &'a [u8; 256],
    k: usize,
    p: Placed,
    marks: &mut [u8; 17408],
    mode: Mode,
) -> bool
    requires { k < 64 }
    ensures { Went mode marks.old (rule_accesses summed (four_at objects.now k) (rule_in rows.now p)) result marks.new }
{
    let Some(at) = p.rule_expression(rows) else {
        return false;
    };
    let e = walks::walk_expr(rows, objects, k, at, 16, marks, mode);
    e.what
}

fn fact_kind(added: bool) -> Kind
    ensures { kind_of result ≡ cond added 1 2 }
{
    if added { Kind::Adds } else { Kind::Deletes }
}

fn number_kind(how: How) -> Kind
    ensures { kind_of result ≡ cond (assigns how) 3 1 }
{
    match how {
        How::Assigned => Kind::Assigns,
        How::Raised | How::Lowered => Kind::Adds,
    }
}

// The effects of the list at a place: each write, then what its right side reads.
fn walk_effects<'a>(
    rows: &'a [u8],
    objects: &'a [u8; 256],
    k: usize,
    from: usize,
    marks: &mut [u8; 17408],
    mode: Mode,
) -> bool
    requires { k < 64 }
    ensures { Went mode marks.old (effects_accesses summed (four_at objects.now k) (effects_at rows.now from)) result
        marks.new }
{
    let mut found = false;
    let mut at = from;
    while let Some(row) = written::effect_at(rows, at) {
        match row {
            written::Row::Fact {
                added,
                params,
                next,
            } => {
                let x = happening_forms::index(rows, objects, k, at + 1, params);
                found |= walks::touch(marks, walks::fact_cell(x), fact_kind(added), mode);
                at = next;
            }
            written::Row::Number { how, params, right } => {
                let x = happening_forms::index(rows, objects, k, at + 1, params);
                let h = walks::touch(marks, walks::number_cell(x), number_kind(how), mode);
                let e = walks::walk_expr(rows, objects, k, right, 16, marks, mode);
                found |= h | e.what;
                at = e.next;
            }
        }
    }
    found
}

pub fn walk_point<'a>(
    rows: &'a [u8],
    p: Placed,
    objects: &'a [u8; 256],
    k: usize,
    marks: &mut [u8; 17408],
    mode: Mode,
) -> bool
    requires { k < 64 }
    ensures { Went mode marks.old (placed_accesses rows.now (four_at objects.now k) p) result marks.new }
{
    let a = walk_tests(rows, objects, k, p.tests, marks, mode);
    let b = walk_rule(rows, objects, k, p, marks, mode);
    let c = walk_effects(rows, objects, k, p.effects, marks, mode);
    a | (b | c)
}
