// What is held of a domain or problem of any length in a lent block, so that it is read as the whole text is.
#![tactic(auto)]

ghost use Rattle.std.specs.Prelude.{◌≡◌, List, length, set, ℕ, ◌-◌};
ghost use Rattle.text_words.specs.Spelling.{name_byte};
ghost use Rattle.domain_holding.specs.Keeping.{kept_in, empty, next_of, go_on};

use text_words::{bytes, spelling};

#[derive(Clone, Copy)]
pub struct Held {
    // how many bytes of the block are in use
    pub used: usize,
    // whether the run at the block's end may go on in what comes
    pub going: bool,
}

// Before the first piece.
pub fn nothing() -> Held
    ensures { (block : List ℕ) → kept_in block result ≡ empty }
{
    Held {
        used: 0,
        going: false,
    }
}

// Whether a byte may stand in a name: after a letter it makes one.
fn is_name_byte(b: u8) -> bool
    ensures { result ≡ name_byte b }
{
    let word = [b'a', b];
    spelling::is_name(&word, 0)
}

// Another last byte.
fn put_last(block: &mut [u8], b: u8)
    ensures { block.new ≡ set block.old (length block.old - 1) b }
{
    if 0 < block.len() {
        let last = block.len() - 1;
        block[last] = b;
    }
}

// The next byte of the text.
fn take_byte(block: &mut [u8], held: Held, b: u8) -> Held
    ensures { kept_in block.new result ≡ next_of (length block.old) (kept_in block.old held) b }
{
    let used = held.used;
    let on = bytes::in_run(b';', b);
    if used < block.len() {
        block[used] = b;
        return Held {
            used: used + 1,
            going: on,
        };
    }
    if !held.going {
        return held;
    }
    if !on {
        return Held { used, going: false };
    }
    if is_name_byte(b) {
        return held;
    }
    put_last(block, b);
    Held { used, going: false }
}

// The next piece of the text.
pub fn take(block: &mut [u8], held: Held, piece: &[u8]) -> Held
    ensures { kept_in block.new result ≡ go_on (length block.old) (kept_in block.old held) piece.now }
{
    let mut kept = held;
    for b in piece {
        kept = take_byte(block, kept, *b);
    }
    kept
}
