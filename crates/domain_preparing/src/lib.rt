// What load has read, prepared for running: from the cells of the actions and of the goal to rows.
#![tactic(auto)]

pub mod actions;
pub mod conditions;
pub mod effects;
pub mod expressions;

ghost use Rattle.std.specs.Prelude.{◌≡◌, ◌≤◌, length, set, get_or, take, drop};
ghost use Rattle.std.proofs.lemmas.List.Edits.{sets};
ghost use Rattle.domain_meaning.specs.Tables.{Table};
ghost use Rattle.domain_stored_meaning.specs.Decode.{condition_at, actions_at};
ghost use Rattle.domain_prepared_meaning.specs.Preparing.{singles};
ghost use Rattle.domain_prepared_meaning.specs.Rows.{tests_bytes, all_places, actions_bytes, lists_at};

use domain_forms::cells;

// The actions, from their cells and the places where these begin; firsts are the first indexes of 32 predicates and of 16 functions, then the
// number of objects.
pub fn prepare<'a>(
    code: &'a [u8],
    starts: &'a [usize],
    firsts: &'a [u16],
    acting: usize,
    rows: &mut [u8],
)
    requires { (length code.now ≤ 32768) × (get_or firsts.now 48 0 ≤ 255) × (acting ≤ 32) × (length rows.old ≤ 1000000000) }
    ensures { (es : Table) → length es ≡ acting
        → rows.new ≡ sets (sets (set rows.old 0 (get_or firsts.now 48 0)) 1
        (all_places (get_or firsts.now 48 0) (take 32 firsts.now) (take 16 (drop 32 firsts.now)) lists_at
        (actions_at code.now starts.now 0 es))) lists_at
        (actions_bytes (get_or firsts.now 48 0) (take 32 firsts.now) (take 16 (drop 32 firsts.now))
        (actions_at code.now starts.now 0 es)) }
{
    domain_literals::put(rows, 0, cells::entry(firsts, 48));
    actions::put_actions(code, starts, firsts, acting, rows);
}

// The goal, from its cells.
pub fn prepare_goal<'a>(cells: &'a [u8], firsts: &'a [u16], goal: &mut [u8])
    requires { length cells.now ≤ 32768 }
    ensures { goal.new ≡ sets goal.old 0 (tests_bytes (get_or firsts.now 48 0) (take 32 firsts.now)
        (take 16 (drop 32 firsts.now)) (singles (condition_at cells.now 0).tree)) }
{
    let c = conditions::put_cond(cells, firsts, 0, 16, goal, 0);
    domain_literals::put(goal, c.free, 0);
}
