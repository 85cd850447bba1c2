// Conditions: the single ones as they are written, `and`s within each other as one list.
ghost use Rattle.std.specs.Prelude.{◌≡◌, [], ◌∷◌, ◌++◌, ◌+◌, ◌≤◌, ◌<◌, length};
ghost use Rattle.domain_rows.specs.Held.{byte_at};
ghost use Rattle.domain_stored_meaning.specs.Decode.{expression_at, single_at, conds_at, cond_at, conditions_at, when_of};
ghost use Rattle.domain_prepared_meaning.specs.Preparing.{parts_at, all_singles};
ghost use Rattle.domain_prepared_meaning.specs.Rows.{tests_bytes};
ghost use Rattle.domain_forms.specs.Stored.{Stored, count_in, predicates_in, functions_in};
ghost use Rattle.domain_preparing.specs.Written.{Copies, Room, Spent, expr_in, cond_in, conds_in, all_of};

use crate::expressions;
use domain_forms::forms::Copied;
use domain_forms::{cells, forms};

// An equality of objects, as it is written or under `not`.
fn put_same(code: &[u8], at: usize, tag: usize, rows: &mut [u8], used: usize) -> Copied
    requires { (at < length code.now) × (tag < 256) × (used < 18446744073709551609) }
    ensures { Stored rows.old used (tag ∷ byte_at code.now (at + 1) ∷ byte_at code.now (at + 2) ∷ []) rows.new
        result.free × (result.next ≡ at + 3) × (result.free ≡ used + 3) }
{
    domain_literals::put(rows, used, tag);
    domain_literals::put(rows, used + 1, cells::cell(code, at + 1));
    domain_literals::put(rows, used + 2, cells::cell(code, at + 2));
    Copied {
        next: at + 3,
        free: used + 3,
    }
}

// A comparison, as it is written or under `not`.
fn put_compare<'a>(
    code: &'a [u8],
    firsts: &'a [u16],
    at: usize,
    tag: usize,
    rows: &mut [u8],
    used: usize,
) -> Copied
    requires { (at < length code.now) × (tag < 256) × Room (length code.now) at used }
    ensures { Stored rows.old used (tag ∷ (expr_in firsts.now (expression_at code.now (at + 1)).tree
        ++ expr_in firsts.now (expression_at code.now (expression_at code.now (at + 1)).next).tree)) rows.new
        result.free × (result.next ≡ (expression_at code.now (expression_at code.now (at + 1)).next).next)
        × Spent 0 (length code.now) at used result.next result.free }
{
    domain_literals::put(rows, used, tag);
    let a = expressions::put_expr(code, firsts, at + 1, 16, rows, used + 1);
    expressions::put_expr(code, firsts, a.next, 16, rows, a.free)
}

// A condition without parts.
fn put_single<'a>(
    code: &'a [u8],
    firsts: &'a [u16],
    at: usize,
    tag: usize,
    rows: &mut [u8],
    used: usize,
) -> Copied
    requires { (at < length code.now) × (tag < 256) × Room (length code.now) at used }
    ensures { Copies (cond_in firsts.now) rows.old used (single_at code.now at tag) rows.new result.next result.free
        × Spent 0 (length code.now) at used result.next result.free }
{
    if tag < 2 {
        return Copied {
            next: at + 1,
            free: used,
        };
    }
    if tag < 4 {
        return put_same(code, at, tag, rows, used);
    }
    if tag < 8 {
        return forms::put_fact(code, firsts, at, 4, tag - 4, rows, used);
    }
    if tag < 12 {
        return forms::put_fact(code, firsts, at, 8, tag - 8, rows, used);
    }
    if tag < 22 {
        return put_compare(code, firsts, at, tag, rows, used);
    }
    Copied {
        next: at + 1,
        free: used,
    }
}

// The condition at a place, at most so many levels deep.
#[cycle(put_cond_put_conds)]
pub fn put_cond<'a>(
    code: &'a [u8],
    firsts: &'a [u16],
    at: usize,
    depth: usize,
    rows: &mut [u8],
    used: usize,
) -> Copied
    requires { Room (length code.now) at used }
    ensures { Copies (cond_in firsts.now) rows.old used (cond_at depth code.now at) rows.new result.next result.free
        × Spent 0 (length code.now) at used result.next result.free }
{
    if depth == 0 {
        return Copied {
            next: at,
            free: used,
        };
    }
    if code.len() <= at {
        return Copied {
            next: at,
            free: used,
        };
    }
    let tag = cells::cell(code, at);
    if tag == 1 {
        return put_conds(code, firsts, at + 1, depth - 1, rows, used);
    }
    put_single(code, firsts, at, tag, rows, used)
}

// The conditions from a place on, up to a 0.
#[cycle(put_cond_put_conds)]
fn put_conds<'a>(
    code: &'a [u8],
    firsts: &'a [u16],
    at: usize,
    depth: usize,
    rows: &mut [u8],
    used: usize,
) -> Copied
    requires { Room (length code.now) at used }
    ensures { Copies (conds_in firsts.now) rows.old used
        (conds_at (cond_at depth code.now) (length code.now) code.now at) rows.new result.next result.free
        × Spent 0 (length code.now) at used result.next result.free }
{
    let mut i = at;
    let mut u = used;
    let mut left = code.len();
    while 0 < left {
        if code.len() <= i {
            return Copied { next: i, free: u };
        }
        if cells::cell(code, i) == 0 {
            return Copied {
                next: i + 1,
                free: u,
            };
        }
        let c = put_cond(code, firsts, i, depth, rows, u);
        i = c.next;
        u = c.free;
        left -= 1;
    }
    Copied { next: i, free: u }
}

// The single conditions for a time, among the parts from a place on: the first place after them. A part for another time is copied past the
// end of the rows, where nothing is stored.
fn put_parts<'a>(
    code: &'a [u8],
    firsts: &'a [u16],
    at: usize,
    time: usize,
    rows: &mut [u8],
    used: usize,
) -> usize
    requires { (length code.now ≤ 32768) × (length rows.old ≤ 1000000000) × (used ≤ 1000000000) }
    ensures { Stored rows.old used
        (all_of (cond_in firsts.now) (parts_at (when_of time) (conditions_at code.now at).tree)) rows.new result
        × (result ≤ used + 196656) }
{
    let mut i = at;
    let mut u = used;
    let mut left = code.len();
    while 0 < left {
        if code.len() <= i {
            return u;
        }
        let tag = cells::cell(code, i);
        if tag == 0 {
            return u;
        }
        left -= 1;
        if cells::is_at(tag, time) {
            let c = put_cond(code, firsts, i + 1, 16, rows, u);
            i = c.next;
            u = c.free;
            continue;
        }
        let far = rows.len();
        let p = put_cond(code, firsts, i + 1, 16, rows, far);
        i = p.next;
    }
    u
}

// The list of the single conditions for a time: 1 at the start, 2 over all, else at the end.
pub fn put_tests<'a>(
    code: &'a [u8],
    firsts: &'a [u16],
    at: usize,
    time: usize,
    rows: &mut [u8],
    used: usize,
) -> usize
    requires { (length code.now ≤ 32768) × (length rows.old ≤ 1000000000) × (used ≤ 1000000000) }
    ensures { Stored rows.old used (tests_bytes (count_in firsts.now) (predicates_in firsts.now)
        (functions_in firsts.now) (all_singles (parts_at (when_of time) (conditions_at code.now at).tree))) rows.new result
        × (result ≤ used + 200000) }
{
    let u = put_parts(code, firsts, at, time, rows, used);
    domain_literals::put(rows, u, 0);
    u + 1
}
