// What a byte is, and a letter without its case.
ghost use Rattle.std.specs.Prelude.{◌≡◌};
ghost use Rattle.text_words.specs.Bytes.{kind_of, lower_of, is_digit, is_white, is_refused, in_run};

#[derive(Clone, Copy, PartialEq, Eq)]
pub enum Kind {
    Digit,
    Letter,
    Bracket,
    White,
    Mark,
    Refused,
}

pub fn kind_of(b: u8) -> Kind
    ensures { result ≡ kind_of b }
{
    match b {
        b'0'..=b'9' => Kind::Digit,
        b'A'..=b'Z' | b'a'..=b'z' => Kind::Letter,
        b'(' | b')' | b'[' | b']' => Kind::Bracket,
        b'\t' | b'\n' | b'\r' | b' ' => Kind::White,
        b'!'..=b'~' => Kind::Mark,
        _ => Kind::Refused,
    }
}

pub fn is_digit(b: u8) -> bool
    ensures { result ≡ is_digit (kind_of b) }
{
    b.is_ascii_digit()
}

pub fn is_white(b: u8) -> bool
    ensures { result ≡ is_white (kind_of b) }
{
    kind_of(b) == Kind::White
}

pub fn is_refused(b: u8) -> bool
    ensures { result ≡ is_refused (kind_of b) }
{
    kind_of(b) == Kind::Refused
}

// Whether a byte goes on a run. A comment's `;` ends it, and so does `stop`: the `:` of plans.
pub fn in_run(stop: u8, b: u8) -> bool
    ensures { result ≡ in_run stop b }
{
    if b == b';' || b == stop {
        return false;
    }
    match kind_of(b) {
        Kind::Digit | Kind::Letter | Kind::Mark => true,
        Kind::Bracket | Kind::White | Kind::Refused => false,
    }
}

// A letter as a small one; any other byte as it is.
pub fn lower(b: u8) -> u8
    ensures { result ≡ lower_of b }
{
    b.to_ascii_lowercase()
}
