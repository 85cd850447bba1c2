// Actions: of each the six lists, one after the other, and the places where they begin.
ghost use Rattle.std.specs.Prelude.{◌≡◌, [], ◌∷◌, ◌+◌, ◌*◌, ◌≤◌, ◌<◌, length};
ghost use Rattle.std.proofs.lemmas.List.Edits.{sets};
ghost use Rattle.domain_meaning.specs.Tables.{Entry, Table};
ghost use Rattle.domain_stored_meaning.specs.Decode.{lasting_at, action_at, actions_at};
ghost use Rattle.domain_prepared_meaning.specs.Rows.{lasts_bytes, lists_at};
ghost use Rattle.domain_forms.specs.Stored.{Stored, count_in, predicates_in, functions_in};
ghost use Rattle.domain_preparing.specs.Written.{words_of, Acted, all_acted};

use crate::{conditions, effects, expressions};
use domain_forms::{cells, forms};

// The duration rule.
fn put_lasts<'a>(
    code: &'a [u8],
    firsts: &'a [u16],
    at: usize,
    rows: &mut [u8],
    used: usize,
) -> usize
    requires { (length code.now ≤ 32768) × (used ≤ 1000000000) }
    ensures { Stored rows.old used (lasts_bytes (count_in firsts.now) (predicates_in firsts.now)
        (functions_in firsts.now) (lasting_at code.now at).tree) rows.new result × (result ≤ used + 200000) }
{
    if code.len() <= at {
        domain_literals::put(rows, used, 0);
        return used + 1;
    }
    if cells::cell(code, at) == 0 {
        domain_literals::put(rows, used, 0);
        return used + 1;
    }
    domain_literals::put(rows, used, 1);
    let e = expressions::put_expr(code, firsts, at + 1, 16, rows, used + 1);
    e.free
}

// Six places, of two bytes each.
fn put_places(
    rows: &mut [u8],
    at: usize,
    a: usize,
    b: usize,
    c: usize,
    d: usize,
    e: usize,
    f: usize,
)
    requires { at < 1000 }
    ensures { rows.new ≡ sets rows.old at (words_of (a ∷ b ∷ c ∷ d ∷ e ∷ f ∷ [])) }
{
    forms::put_word(rows, at, a);
    forms::put_word(rows, at + 2, b);
    forms::put_word(rows, at + 4, c);
    forms::put_word(rows, at + 6, d);
    forms::put_word(rows, at + 8, e);
    forms::put_word(rows, at + 10, f);
}

// The lists of action j, from `used` on, and their places: the first place after the lists.
fn put_action<'a>(
    code: &'a [u8],
    starts: &'a [usize],
    firsts: &'a [u16],
    j: usize,
    rows: &mut [u8],
    used: usize,
) -> usize
    requires { (length code.now ≤ 32768) × (length rows.old ≤ 1000000000) × (j < 32) × (lists_at ≤ used) × (used ≤ 100000000) }
    ensures { ((e : Entry) → Acted (count_in firsts.now) (predicates_in firsts.now) (functions_in firsts.now)
        rows.old j used (action_at code.now starts.now j e)
        rows.new result) × (result ≤ used + 1200000) }
{
    let p = cells::place(starts, 3 * j);
    let q = cells::place(starts, 3 * j + 1);
    let r = cells::place(starts, 3 * j + 2);
    let a = put_lasts(code, firsts, p, rows, used);
    let b = conditions::put_tests(code, firsts, q, 1, rows, a);
    let c = conditions::put_tests(code, firsts, q, 2, rows, b);
    let d = conditions::put_tests(code, firsts, q, 3, rows, c);
    let e = effects::put_effects(code, firsts, r, 1, rows, d);
    let f = effects::put_effects(code, firsts, r, 3, rows, e);
    put_places(rows, 1 + 12 * j, used, a, b, c, d, e);
    f
}

// All actions.
pub fn put_actions<'a>(
    code: &'a [u8],
    starts: &'a [usize],
    firsts: &'a [u16],
    acting: usize,
    rows: &mut [u8],
)
    requires { (length code.now ≤ 32768) × (length rows.old ≤ 1000000000) × (acting ≤ 32) }
    ensures { (es : Table) → length es ≡ acting
        → rows.new ≡ all_acted (count_in firsts.now) (predicates_in firsts.now) (functions_in firsts.now)
        rows.old 0 lists_at (actions_at code.now starts.now 0 es) }
{
    let mut j = 0;
    let mut u = 385;
    while j < acting {
        u = put_action(code, starts, firsts, j, rows, u);
        j += 1;
    }
}
