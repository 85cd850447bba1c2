// The fixed words (RULES 2, RULES 4, RULES 6): heads, flags, the words of refusal 11, and those that can't be declared.
ghost use Rattle.std.specs.Prelude.{◌≡◌};
ghost use Rattle.text_words.specs.Fixed.{head_of, is_flag, is_listed, is_reserved, is_operator};

use crate::spelling;

// What may open a condition, an expression or an effect, beside a declared name.
#[derive(Clone, Copy, PartialEq, Eq)]
pub enum HeadWord {
    And,
    Not,
    Equal,
    Less,
    AtMost,
    More,
    AtLeast,
    Plus,
    Minus,
    Assign,
    Increase,
    Decrease,
    Other,
}

pub fn head_of(w: &[u8]) -> HeadWord
    ensures { result ≡ head_of w.now }
{
    let Some(i) = spelling::word_in(b"and not = < <= > >= + - assign increase decrease", w) else {
        return HeadWord::Other;
    };
    match i {
        0 => HeadWord::And,
        1 => HeadWord::Not,
        2 => HeadWord::Equal,
        3 => HeadWord::Less,
        4 => HeadWord::AtMost,
        5 => HeadWord::More,
        6 => HeadWord::AtLeast,
        7 => HeadWord::Plus,
        8 => HeadWord::Minus,
        9 => HeadWord::Assign,
        10 => HeadWord::Increase,
        11 => HeadWord::Decrease,
        _ => HeadWord::Other,
    }
}

// The requirement flags that are carried.
pub fn is_flag(w: &[u8]) -> bool
    ensures { result ≡ is_flag w.now }
{
    spelling::word_in(
        b":strips :typing :equality :negative-preconditions :fluents :durative-actions",
        w,
    )
    .is_some()
}

// The words of refusal 11, `?duration` among them: the one place where it may stand asks for it by name.
pub fn is_listed(w: &[u8]) -> bool
    ensures { result ≡ is_listed w.now }
{
    spelling::word_in(
        b"or imply forall exists when either * / #t scale-up scale-down change :metric :axiom :derived ?duration",
        w,
    )
    .is_some()
}

// The names that can't be declared.
pub fn is_reserved(w: &[u8]) -> bool
    ensures { result ≡ is_reserved w.now }
{
    spelling::word_in(b"and not assign increase decrease", w).is_some()
}

// The words that are no names.
pub fn is_operator(w: &[u8]) -> bool
    ensures { result ≡ is_operator w.now }
{
    spelling::word_in(b"= < <= > >= + - * / #t", w).is_some()
}
