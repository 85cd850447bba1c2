// What a row of a model's tables says: a name, and how many arguments it has.
ghost use Rattle.std.specs.Prelude.{◌≡◌, ◌≤◌};
ghost use Rattle.program_naming.specs.Grounds.{row_at, arity_in};

use domain_rows::layout;
use program_records::output::Output;
use text_tokens::runs;
use text_words::names::{NAME_AT, ROW};

// Where row i of the table from `off` on begins. No table has more than 64 rows.
#[tactic(auto, unfolding(crate::specs::Grounds::row_at))]
fn row_at(off: usize, i: usize) -> usize
    ensures { (result ≡ row_at off i) × (result ≤ 10000) }
{
    if off < layout::TABLES_LENGTH && i < 64 {
        off + ROW * i
    } else {
        layout::TABLES_LENGTH
    }
}

// How many arguments a predicate or function has.
pub fn arity(tables: &[u8], off: usize, i: usize) -> usize
    ensures { result ≡ arity_in tables.now off i }
{
    domain_rows::byte(tables, row_at(off, i) + 1) as usize
}

// A name, as it was declared.
pub fn put_name(out: &mut Output, tables: &[u8], off: usize, i: usize) {
    let row = row_at(off, i);
    let from = row + NAME_AT;
    let size = domain_rows::byte(tables, row) as usize;
    out.word(runs::part_of(tables, from, from + size));
}
