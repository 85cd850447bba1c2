// Where white space and comments end, where a run of bytes ends, and a part of the text with no copy.
ghost use Rattle.std.specs.Prelude.{◌≡◌};
ghost use Rattle.text_tokens.specs.Runs.{gap_step, gap_end, run_end, part};
ghost use Rattle.text_tokens.specs.Figures.{is_over};

use text_words::bytes;

// How a byte goes on a gap between tokens: outside a comment, in one, or not at all.
#[derive(Clone, Copy, PartialEq, Eq)]
pub enum Gap {
    Plain,
    Comment,
    Token,
}

fn gap_step(comment: bool, b: u8) -> Gap
    ensures { result ≡ gap_step comment b }
{
    if comment {
        if b == b'\n' {
            return Gap::Plain;
        }
        if bytes::is_refused(b) {
            return Gap::Token;
        }
        return Gap::Comment;
    }
    if b == b';' {
        return Gap::Comment;
    }
    if bytes::is_white(b) {
        return Gap::Plain;
    }
    Gap::Token
}

// The place of the first byte at or after `from` that is neither white nor in a comment, or that isn't allowed.
pub fn gap_end(text: &[u8], from: usize) -> usize
    ensures { result ≡ gap_end text.now from }
{
    let mut comment = false;
    for at in from..text.len() {
        match gap_step(comment, text[at]) {
            Gap::Plain => comment = false,
            Gap::Comment => comment = true,
            Gap::Token => return at,
        }
    }
    from.max(text.len())
}

// The end of the run that goes on at `from`; `stop` ends it too.
pub fn run_end(text: &[u8], stop: u8, from: usize) -> usize
    ensures { result ≡ run_end text.now stop from }
{
    for at in from..text.len() {
        if !bytes::in_run(stop, text[at]) {
            return at;
        }
    }
    from.max(text.len())
}

// Whether no byte goes on a run at a place.
pub fn is_over(text: &[u8], stop: u8, at: usize) -> bool
    ensures { result ≡ is_over text.now stop at }
{
    text.len() <= at || !bytes::in_run(stop, text[at])
}

// The bytes of the text from a place to another, as far as there are any.
pub fn part_of(text: &[u8], from: usize, to: usize) -> &[u8]
    ensures { result.now ≡ part text.now from to }
{
    if text.len() < to {
        if text.len() < from {
            return &text[..0];
        }
        return &text[from..];
    }
    if to < from {
        return &text[..0];
    }
    &text[from..to]
}
