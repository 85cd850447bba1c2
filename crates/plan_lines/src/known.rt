// What a plan's names stand for, by the model's numbers; any numbers say something.
ghost use Rattle.std.specs.Prelude.{◌≡◌, ◌+◌, ◌*◌, ◌≤◌, ◌<◌, length, get_or};
ghost use Rattle.domain_meaning.specs.Tables.{lookup, is_below, type_of, entry_at, wanted_of};
ghost use Rattle.domain_stored_meaning.specs.Entries.{signed_in};
ghost use Rattle.domain_prepared_meaning.specs.Decode.{lasts_at, place_in};
ghost use Rattle.plan_lines.specs.Knowing.{Tabled, Headed, types_in, objects_in, lasts_of};

use domain_rows::layout;
use domain_terms::scope;
use domain_terms::scope::Counts;
use text_tokens::runs;
use text_words::names;

// The number of the object w.
pub fn object_of<'a>(tables: &'a [u8], counts: Counts, w: &'a [u8]) -> Option<usize>
    requires { Tabled tables.now counts }
    ensures { result ≡ lookup (objects_in tables.now counts) w.now }
{
    names::find(
        runs::part_of(tables, layout::OBJECTS_AT, layout::PREDICATES_AT),
        counts.objects,
        w,
    )
}

// Whether object i is of the wanted type, or below it.
pub fn is_fit(tables: &[u8], counts: Counts, i: usize, want: usize) -> bool
    requires { Tabled tables.now counts }
    ensures { result ≡ is_below (length (types_in tables.now counts)) (types_in tables.now counts)
        (type_of (entry_at (objects_in tables.now counts) i)) want }
{
    scope::is_below(
        tables,
        counts.types,
        scope::kept_in(tables, layout::OBJECTS_AT, counts.objects, i, 0),
        want,
    )
}

// The number of the action w.
pub fn action_of<'a>(heads: &'a [u8], acting: usize, w: &'a [u8]) -> Option<usize>
    requires { Headed heads.now acting }
    ensures { result ≡ lookup (signed_in heads.now acting) w.now }
{
    names::find(heads, acting, w)
}

// How many parameters action i has.
pub fn arity(heads: &[u8], acting: usize, i: usize) -> usize
    requires { Headed heads.now acting }
    ensures { (result ≡ length (wanted_of (entry_at (signed_in heads.now acting) i))) × (result ≤ 4) }
{
    scope::kept_in(heads, 0, acting, i, 0).min(4)
}

// The type of parameter j of action i.
pub fn wanted(heads: &[u8], acting: usize, i: usize, j: usize) -> usize
    requires { Headed heads.now acting × (j < length (wanted_of (entry_at (signed_in heads.now acting) i))) }
    ensures { result ≡ get_or (wanted_of (entry_at (signed_in heads.now acting) i)) j 0 }
{
    scope::kept_in(heads, 0, acting, i, j + 1)
}

// Whether action i is a durative one: the first byte of its duration rule says it, at the first of its six places.
pub fn is_lasting(rows: &[u8], i: usize) -> bool
    requires { i < 32 }
    ensures { result ≡ lasts_of (lasts_at rows.now (place_in rows.now i 0)) }
{
    let k = 1 + 12 * i;
    let at = happening_forms::cell(rows, k) + 256 * happening_forms::cell(rows, k + 1);
    0 < happening_forms::cell(rows, at)
}
