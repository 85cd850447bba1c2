// What a run of bytes is, by itself.
ghost use Rattle.std.specs.Prelude.{◌≡◌};
ghost use Rattle.text_tokens.specs.Classes.{begins_number, begun_by, is_marked, class_of};

use text_words::{bytes, fixed, spelling};

#[derive(Clone, Copy, PartialEq, Eq)]
pub enum Class {
    Number,
    Name,
    Variable,
    Keyword,
    Operator,
    Other,
}

fn begins_number(w: &[u8]) -> bool
    ensures { result ≡ begins_number w.now }
{
    if w.len() == 0 {
        return false;
    }
    if bytes::is_digit(w[0]) {
        return true;
    }
    if w[0] != b'-' {
        return false;
    }
    if w.len() == 1 {
        return false;
    }
    bytes::is_digit(w[1])
}

// Whether a run begins with a byte.
pub fn begins_with(w: &[u8], x: u8) -> bool
    ensures { result ≡ begun_by x w.now }
{
    0 < w.len() && w[0] == x
}

// A mark before a name.
fn is_marked(w: &[u8], mark: u8) -> bool
    ensures { result ≡ is_marked mark w.now }
{
    begins_with(w, mark) && spelling::is_name(w, 1)
}

pub fn class_of(w: &[u8]) -> Class
    ensures { result ≡ class_of w.now }
{
    if begins_number(w) {
        return Class::Number;
    }
    if spelling::is_name(w, 0) {
        return Class::Name;
    }
    if is_marked(w, b'?') {
        return Class::Variable;
    }
    if is_marked(w, b':') {
        return Class::Keyword;
    }
    if fixed::is_operator(w) {
        return Class::Operator;
    }
    Class::Other
}
