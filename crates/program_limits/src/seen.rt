// What the tokens before a place say of it: the last keyword, whether it lies within an expression, and what is declared.
use crate::tally::Tally;
use text_tokens::tokens::{Token, Word};
use text_tokens::{runs, tokens};
use text_words::fixed::HeadWord;
use text_words::{fixed, spelling};

// What the last keyword begins.
#[derive(Clone, Copy)]
pub enum Field {
    Types,
    Objects,
    Predicates,
    Functions,
    Action,
    Parameters,
    Condition,
    Effect,
    Goal,
    Other,
}

#[derive(Clone, Copy)]
pub struct Seen {
    pub field: Field,
    // how many brackets are open
    depth: usize,
    // the depth of the outermost bracket that is a comparison, an operation or a change of a number
    pub calculating: Option<usize>,
    // whether the last token opened a bracket
    opened: bool,
    pub tally: Tally,
}

fn field_of(w: &[u8]) -> Field {
    let f = spelling::word_in(
        b":types :constants :objects :predicates :functions :action :durative-action :parameters :precondition :condition :effect :goal",
        w,
    );
    let Some(i) = f else {
        return Field::Other;
    };
    match i {
        0 => Field::Types,
        1 | 2 => Field::Objects,
        3 => Field::Predicates,
        4 => Field::Functions,
        5 | 6 => Field::Action,
        7 => Field::Parameters,
        8 | 9 => Field::Condition,
        10 => Field::Effect,
        _ => Field::Goal,
    }
}

// Whether everything after a head is an expression, or the number that is changed.
fn is_calculating(w: &[u8]) -> bool {
    !matches!(
        fixed::head_of(w),
        HeadWord::And | HeadWord::Not | HeadWord::Other
    )
}

impl Seen {
    // Before the first token, with so many objects known from the other text.
    fn new(objects: usize) -> Seen {
        Seen {
            field: Field::Other,
            depth: 0,
            calculating: None,
            opened: false,
            tally: Tally::new(objects),
        }
    }

    // A bracket more. No place of a refusal lies deeper than 16.
    fn open(&mut self) {
        if self.depth < 16 {
            self.depth += 1;
        }
        self.opened = true;
    }

    // A bracket less.
    fn close(&mut self) {
        if self.calculating == Some(self.depth) {
            self.calculating = None;
        }
        self.depth = self.depth.saturating_sub(1);
        self.opened = false;
    }

    // A word that is no keyword, or a number, more.
    fn add_operand(&mut self, w: &[u8]) {
        if self.opened && self.calculating.is_none() && is_calculating(w) {
            self.calculating = Some(self.depth);
        }
        self.opened = false;
    }

    fn add_keyword(&mut self, w: &[u8]) {
        self.field = field_of(w);
        self.opened = false;
    }

    fn add_word(&mut self, kind: Word, w: &[u8]) {
        if matches!(kind, Word::Keyword) {
            self.add_keyword(w);
        } else {
            self.tally.add(kind, self.field, self.opened);
            self.add_operand(w);
        }
    }

    // A token more.
    fn add(&mut self, text: &[u8], t: Token) {
        match t {
            Token::Open(_, _) => self.open(),
            Token::Close(_, _) => self.close(),
            Token::Word(kind, _, _) => self.add_word(kind, tokens::word_of(text, t)),
            _ => self.add_operand(b""),
        }
    }
}

// Where a token ends. `?duration` is a token that is refused but for one place, so its end is that of its run.
fn end_of(text: &[u8], t: Token) -> usize {
    match t {
        Token::Open(_, e) | Token::Close(_, e) => e,
        Token::Word(_, _, e) | Token::Number(_, _, e) | Token::Mark(_, _, e) => e,
        Token::Refusal(_, p) => runs::run_end(text, b';', p),
        Token::End(p) => p,
    }
}

// What stands before a place, with so many objects known from the other text.
pub fn before(text: &[u8], place: usize, objects: usize) -> Seen {
    let mut seen = Seen::new(objects);
    let mut at = 0;
    while at < place {
        let t = tokens::token_at(text, at);
        let end = end_of(text, t);
        if end <= at || place < end {
            break;
        }
        seen.add(text, t);
        at = end;
    }
    seen
}
