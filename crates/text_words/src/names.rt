// Declared names, as rows of a lent table: one byte for the name's length, five numbers kept with it, the name in 32 bytes.
ghost use Rattle.std.specs.Prelude.{◌≡◌, min};
ghost use Rattle.text_words.specs.Names.{names_of};
ghost use Rattle.text_words.specs.Spelling.{place_from};

use crate::spelling;

// How long a row is.
pub const ROW: usize = 38;

// Where the name begins in it.
pub const NAME_AT: usize = 6;

// A name's length, as its row gives it: at most the 32 bytes that there are.
fn length_in(b: u8) -> usize
    ensures { result ≡ min b 32 }
{
    b.min(32) as usize
}

// The number of the first of the table's first n names that is w. Lengths first: most names of a table have another length,
// and no byte of theirs is read.
pub fn find(rows: &[u8], n: usize, w: &[u8]) -> Option<usize>
    ensures { result ≡ place_from 0 (names_of n rows.now) w.now }
{
    let mut at = 0;
    for i in 0..n {
        if rows.len() - at < ROW {
            return None;
        }
        let size = length_in(rows[at]);
        if size == w.len() {
            let start = at + NAME_AT;
            let end = start + size;
            if spelling::same_word(&rows[start..end], w) {
                return Some(i);
            }
        }
        at += ROW;
    }
    None
}
