// Expressions: copied in their order, every function by its form, every number in its shortest cells.
ghost use Rattle.std.specs.Prelude.{◌≡◌, ◌+◌, ◌<◌, length, pos};
ghost use Rattle.domain_literals.specs.Literal.{number_cells};
ghost use Rattle.domain_stored_meaning.specs.Decode.{leaf_at, expr_at};
ghost use Rattle.domain_forms.specs.Stored.{Stored};
ghost use Rattle.domain_preparing.specs.Written.{Copies, Room, Spent, expr_in};

use domain_forms::forms::Copied;
use domain_forms::{cells, forms, numbers};

// The number 0, where cells give none.
fn put_zero(rows: &mut [u8], used: usize, next: usize) -> Copied
    requires { used < 18446744073709551615 }
    ensures { Stored rows.old used (number_cells (pos 0)) rows.new result.free × (result.next ≡ next) × (result.free ≡ used + 1) }
{
    domain_literals::put(rows, used, 32);
    Copied {
        next,
        free: used + 1,
    }
}

// An expression without parts.
fn put_leaf<'a>(
    code: &'a [u8],
    firsts: &'a [u16],
    at: usize,
    tag: usize,
    rows: &mut [u8],
    used: usize,
) -> Copied
    requires { (at < length code.now) × Room (length code.now) at used }
    ensures { Copies (expr_in firsts.now) rows.old used (leaf_at code.now at tag) rows.new result.next result.free
        × Spent 1 (length code.now) at used result.next result.free }
{
    if tag < 5 {
        return put_zero(rows, used, at + 1);
    }
    if tag < 8 {
        let k = tag - 5;
        let free = forms::put_form(code, firsts, true, 5, at + 1, k, rows, used);
        return Copied {
            next: at + 2 + k,
            free,
        };
    }
    if tag < 16 {
        return put_zero(rows, used, at + 1);
    }
    let size = (tag - 16) % 8;
    if size < 6 {
        let free = numbers::put_number(code, at + 1, tag, rows, used);
        return Copied {
            next: at + 1 + size,
            free,
        };
    }
    put_zero(rows, used, at + 1)
}

// The expression at a place, at most so many levels deep.
pub fn put_expr<'a>(
    code: &'a [u8],
    firsts: &'a [u16],
    at: usize,
    depth: usize,
    rows: &mut [u8],
    used: usize,
) -> Copied
    requires { Room (length code.now) at used }
    ensures { Copies (expr_in firsts.now) rows.old used (expr_at depth code.now at) rows.new result.next result.free
        × Spent 1 (length code.now) at used result.next result.free }
{
    if depth == 0 {
        return put_zero(rows, used, at);
    }
    if code.len() <= at {
        return put_zero(rows, used, at);
    }
    let tag = cells::cell(code, at);
    if 2 < tag {
        return put_leaf(code, firsts, at, tag, rows, used);
    }
    domain_literals::put(rows, used, tag);
    let a = put_expr(code, firsts, at + 1, depth - 1, rows, used + 1);
    if tag == 0 {
        return a;
    }
    put_expr(code, firsts, a.next, depth - 1, rows, a.free)
}
