// What single conditions read: the mask of all facts and numbers, and whether they read one.
ghost use Rattle.std.specs.Prelude.{◌≡◌, true, false, ◌||◌, ◌<◌};
ghost use Rattle.domain_prepared_meaning.specs.Decode.{tests_at};
ghost use Rattle.happening_meaning.specs.Writes.{some, cond_reads};
ghost use Rattle.happening_forms.specs.Summed.{summed, four_at};
ghost use Rattle.happening_tests.specs.Reading.{mask_of, row_masked, sides_found, row_found};

use crate::taken;
use crate::taken::Row;
use happening_expressions::{ends, masks, reads};
use happening_forms::Taken;

#[tactic(auto, unfolding(crate::specs::Reading::row_masked, happening_expressions::specs::Evaluated::expr_masked))]
fn row_mask<'a>(rows: &'a [u8], objects: &'a [u8; 256], k: usize, row: Row) -> Taken<u64>
    requires { k < 64 }
    ensures { result ≡ row_masked rows.now (four_at objects.now k) row }
{
    match row {
        Row::Fact(_, i, next) => Taken {
            what: happening_state::fact_bit(i),
            next,
        },
        Row::Same(_, next) => Taken { what: 0, next },
        Row::Compare(_, _, e) => {
            let a = masks::mask_of(rows, objects, k, e, 16);
            let b = masks::mask_of(rows, objects, k, a.next, 16);
            Taken {
                what: a.what | b.what,
                next: b.next,
            }
        }
    }
}

// The bits of all that the conditions from a place on read.
pub fn mask_of<'a>(rows: &'a [u8], objects: &'a [u8; 256], k: usize, at: usize) -> u64
    requires { k < 64 }
    ensures { result ≡ mask_of summed (four_at objects.now k) (tests_at rows.now at) }
{
    let mut m: u64 = 0;
    let mut i = at;
    for _ in 0..rows.len() {
        let Some(row) = taken::test_at(rows, objects, k, i) else {
            return m;
        };
        let v = row_mask(rows, objects, k, row);
        m |= v.what;
        i = v.next;
    }
    m
}

// The two sides of a comparison.
#[tactic(auto, unfolding(happening_expressions::specs::Evaluated::expr_found))]
fn sides_read<'a>(
    rows: &'a [u8],
    objects: &'a [u8; 256],
    k: usize,
    e: usize,
    numeric: bool,
    x: usize,
) -> Taken<bool>
    requires { k < 64 }
    ensures { result ≡ sides_found rows.now (four_at objects.now k) numeric x e }
{
    if numeric {
        let a = reads::expr_reads(rows, objects, k, e, 16, x);
        let b = reads::expr_reads(rows, objects, k, a.next, 16, x);
        return Taken {
            what: a.what || b.what,
            next: b.next,
        };
    }
    let second = ends::expr_end(rows, e, 16);
    Taken {
        what: false,
        next: ends::expr_end(rows, second, 16),
    }
}

#[tactic(auto, unfolding(crate::specs::Reading::row_found))]
fn row_reads<'a>(
    rows: &'a [u8],
    objects: &'a [u8; 256],
    k: usize,
    row: Row,
    numeric: bool,
    x: usize,
) -> Taken<bool>
    requires { k < 64 }
    ensures { result ≡ row_found rows.now (four_at objects.now k) numeric x row }
{
    match row {
        Row::Fact(_, i, next) => Taken {
            what: !numeric && i == x,
            next,
        },
        Row::Same(_, next) => Taken { what: false, next },
        Row::Compare(_, _, e) => sides_read(rows, objects, k, e, numeric, x),
    }
}

// Whether the conditions from a place on read number x, if `numeric`, or fact x.
fn read<'a>(
    rows: &'a [u8],
    objects: &'a [u8; 256],
    k: usize,
    at: usize,
    numeric: bool,
    x: usize,
) -> bool
    requires { k < 64 }
    ensures { result ≡ some (cond_reads summed (four_at objects.now k) numeric x) (tests_at rows.now at) }
{
    let mut i = at;
    for _ in 0..rows.len() {
        let Some(row) = taken::test_at(rows, objects, k, i) else {
            return false;
        };
        let v = row_reads(rows, objects, k, row, numeric, x);
        if v.what {
            return true;
        }
        i = v.next;
    }
    false
}

pub fn reads_fact<'a>(rows: &'a [u8], objects: &'a [u8; 256], k: usize, at: usize, x: usize) -> bool
    requires { k < 64 }
    ensures { result ≡ some (cond_reads summed (four_at objects.now k) false x) (tests_at rows.now at) }
{
    read(rows, objects, k, at, false, x)
}

pub fn reads_number<'a>(
    rows: &'a [u8],
    objects: &'a [u8; 256],
    k: usize,
    at: usize,
    x: usize,
) -> bool
    requires { k < 64 }
    ensures { result ≡ some (cond_reads summed (four_at objects.now k) true x) (tests_at rows.now at) }
{
    read(rows, objects, k, at, true, x)
}
