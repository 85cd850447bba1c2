// How words are spelled: equality without case, names, and the place of a word in a list of words.
ghost use Rattle.std.specs.Prelude.{◌≡◌, ◌+◌, ◌≤◌, length, drop};
ghost use Rattle.text_words.specs.Bytes.{between};
ghost use Rattle.text_words.specs.Spelling.{same_word, name_byte, is_name, space_from, word_in};
ghost use Rattle.text_words.specs.NameEnds.{name_end};

use crate::bytes;
use crate::bytes::Kind;

// Whether two words are the same. From the last byte to the first: names of a domain often begin alike, as `pump-1` and
// `pump-2`, and the last byte tells them apart.
pub fn same_word(a: &[u8], b: &[u8]) -> bool
    ensures { result ≡ same_word a.now b.now }
{
    if a.len() != b.len() {
        return false;
    }
    for i in (0..a.len()).rev() {
        if bytes::lower(a[i]) != bytes::lower(b[i]) {
            return false;
        }
    }
    true
}

fn is_small(b: u8) -> bool
    ensures { result ≡ between 97 b 122 }
{
    b.is_ascii_lowercase()
}

// Whether a byte may stand in a name, after its first letter. Most are small letters or digits: these are tested first.
fn is_name_byte(b: u8) -> bool
    ensures { result ≡ name_byte b }
{
    if is_small(b) || bytes::is_digit(b) {
        return true;
    }
    match bytes::kind_of(b) {
        Kind::Digit | Kind::Letter => true,
        Kind::Mark => b == b'-' || b == b'_',
        Kind::Bracket | Kind::White | Kind::Refused => false,
    }
}

// The end of the bytes from `from` on that may stand in a name.
pub fn name_end(w: &[u8], from: usize) -> usize
    ensures { result ≡ name_end w.now from }
{
    for at in from..w.len() {
        if !is_name_byte(w[at]) {
            return at;
        }
    }
    from.max(w.len())
}

// Whether the bytes from `from` on are a name: `from` is 1 after the mark of a variable or a keyword.
pub fn is_name(w: &[u8], from: usize) -> bool
    ensures { result ≡ is_name (drop from w.now) }
{
    if w.len() <= from {
        return false;
    }
    let Kind::Letter = bytes::kind_of(w[from]) else {
        return false;
    };
    w.len() <= name_end(w, from + 1)
}

// The place of the first space at or after `from`, or the list's end.
fn space_from(list: &[u8], from: usize) -> usize
    ensures { result ≡ space_from list.now from }
{
    for at in from..list.len() {
        if list[at] == b' ' {
            return at;
        }
    }
    from.max(list.len())
}

// Which word of a list it is. The list is written as docs/RULES.md writes it, with single spaces.
pub fn word_in(list: &[u8], w: &[u8]) -> Option<usize>
    ensures { result ≡ word_in list.now w.now }
{
    let mut i = 0;
    let mut at = 0;
    while at <= list.len() {
        let end = space_from(list, at);
        if same_word(&list[at..end], w) {
            return Some(i);
        }
        at = end + 1;
        i += 1;
    }
    None
}
