// Effects: copied as they are written, and those for a time in one list.
ghost use Rattle.std.specs.Prelude.{◌≡◌, ◌++◌, true, ◌+◌, ◌≤◌, ◌<◌, length};
ghost use Rattle.domain_stored_meaning.specs.Decode.{ref_at, expression_at, begins, effect_at, effect_list_at, effect_parts_at, when_of};
ghost use Rattle.domain_prepared_meaning.specs.Preparing.{parts_at, all_effects};
ghost use Rattle.domain_prepared_meaning.specs.Rows.{effects_bytes};
ghost use Rattle.domain_forms.specs.Stored.{Stored};
ghost use Rattle.domain_preparing.specs.Written.{Copies, Room, Spent, all_of};
ghost use Rattle.domain_forms.specs.Stored.{count_in, predicates_in, functions_in, form_in};
ghost use Rattle.domain_preparing.specs.Written.{expr_in, effect_in, effects_in};

use crate::expressions;
use domain_forms::forms::Copied;
use domain_forms::{cells, forms};

// A number with k arguments that is assigned, raised or lowered, as the tag says, by the expression after it.
fn put_change<'a>(
    code: &'a [u8],
    firsts: &'a [u16],
    at: usize,
    tag: usize,
    k: usize,
    rows: &mut [u8],
    used: usize,
) -> Copied
    requires { (at < length code.now) × (k ≤ 2) × (tag ≤ 252) × Room (length code.now) at used }
    ensures { Stored rows.old used (form_in firsts.now tag true (ref_at code.now (at + 1) k)
        ++ expr_in firsts.now (expression_at code.now (at + 2 + k)).tree) rows.new result.free
        × (result.next ≡ (expression_at code.now (at + 2 + k)).next)
        × Spent 0 (length code.now) at used result.next result.free }
{
    let u = forms::put_form(code, firsts, true, tag, at + 1, k, rows, used);
    expressions::put_expr(code, firsts, at + 2 + k, 16, rows, u)
}

// The effect at a place.
fn put_effect<'a>(
    code: &'a [u8],
    firsts: &'a [u16],
    at: usize,
    tag: usize,
    rows: &mut [u8],
    used: usize,
) -> Copied
    requires { (at < length code.now) × (4 ≤ tag) × (tag < 21) × Room (length code.now) at used }
    ensures { Copies (effect_in firsts.now) rows.old used (effect_at code.now at tag) rows.new
        result.next result.free × Spent 0 (length code.now) at used result.next result.free }
{
    if tag < 8 {
        return forms::put_fact(code, firsts, at, 4, tag - 4, rows, used);
    }
    if tag < 12 {
        return forms::put_fact(code, firsts, at, 8, tag - 8, rows, used);
    }
    if tag < 15 {
        return put_change(code, firsts, at, 12, tag - 12, rows, used);
    }
    if tag < 18 {
        return put_change(code, firsts, at, 15, tag - 15, rows, used);
    }
    put_change(code, firsts, at, 18, tag - 18, rows, used)
}

fn begins_effect(tag: usize) -> bool
    ensures { result ≡ begins tag }
{
    if tag < 4 {
        return false;
    }
    tag < 21
}

// The effects from a place on, up to a cell that begins none.
fn put_part<'a>(
    code: &'a [u8],
    firsts: &'a [u16],
    at: usize,
    rows: &mut [u8],
    used: usize,
) -> Copied
    requires { Room (length code.now) at used }
    ensures { Copies (effects_in firsts.now) rows.old used (effect_list_at code.now at) rows.new
        result.next result.free × Spent 0 (length code.now) at used result.next result.free }
{
    let mut i = at;
    let mut u = used;
    let mut left = code.len();
    while 0 < left {
        if code.len() <= i {
            return Copied { next: i, free: u };
        }
        let tag = cells::cell(code, i);
        if !begins_effect(tag) {
            return Copied {
                next: i + 1,
                free: u,
            };
        }
        let e = put_effect(code, firsts, i, tag, rows, u);
        i = e.next;
        u = e.free;
        left -= 1;
    }
    Copied { next: i, free: u }
}

// The effects for a time, among the parts from a place on: the first place after them. A part for another time is copied past the end of the
// rows, where nothing is stored.
fn put_parts<'a>(
    code: &'a [u8],
    firsts: &'a [u16],
    at: usize,
    time: usize,
    rows: &mut [u8],
    used: usize,
) -> usize
    requires { (length code.now ≤ 32768) × (length rows.old ≤ 1000000000) × (used ≤ 1000000000) }
    ensures { Stored rows.old used
        (all_of (effects_in firsts.now) (parts_at (when_of time) (effect_parts_at code.now at).tree)) rows.new result
        × (result ≤ used + 196656) }
{
    let mut i = at;
    let mut u = used;
    let mut left = code.len();
    while 0 < left {
        if code.len() <= i {
            return u;
        }
        let tag = cells::cell(code, i);
        if tag == 0 {
            return u;
        }
        left -= 1;
        if cells::is_at(tag, time) {
            let c = put_part(code, firsts, i + 1, rows, u);
            i = c.next;
            u = c.free;
            continue;
        }
        let far = rows.len();
        let p = put_part(code, firsts, i + 1, rows, far);
        i = p.next;
    }
    u
}

// The list of the effects for a time: 1 at the start, 3 at the end.
pub fn put_effects<'a>(
    code: &'a [u8],
    firsts: &'a [u16],
    at: usize,
    time: usize,
    rows: &mut [u8],
    used: usize,
) -> usize
    requires { (length code.now ≤ 32768) × (length rows.old ≤ 1000000000) × (used ≤ 1000000000) }
    ensures { Stored rows.old used (effects_bytes (count_in firsts.now) (predicates_in firsts.now)
        (functions_in firsts.now) (all_effects (parts_at (when_of time) (effect_parts_at code.now at).tree))) rows.new result
        × (result ≤ used + 200000) }
{
    let u = put_parts(code, firsts, at, time, rows, used);
    domain_literals::put(rows, u, 0);
    u + 1
}
