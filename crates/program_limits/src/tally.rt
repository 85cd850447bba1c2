// What is declared that decides the two sums: the objects, and how many ground numbers the functions make with them.
use crate::seen::Field;
use text_tokens::tokens::Word;

#[derive(Clone, Copy, Default)]
pub struct Tally {
    pub objects: usize,
    // the ground numbers of all functions but the last, and those of the last
    numbers: usize,
    last: usize,
    // whether the next name is a type
    typed: bool,
}

impl Tally {
    // Before the first token, with so many objects known.
    pub fn new(objects: usize) -> Tally {
        Tally {
            objects,
            ..Tally::default()
        }
    }

    // A name that is an object, or the type of those before it.
    fn add_object(&mut self) {
        if self.typed {
            self.typed = false;
        } else if self.objects < 64 {
            self.objects += 1;
        }
    }

    // There are at most 16 functions, of at most 64 objects to the power 2 numbers each.
    fn add_function(&mut self) {
        if self.numbers <= 65536 && self.last <= 4096 {
            self.numbers += self.last;
        }
        self.last = 1;
    }

    fn add_argument(&mut self) {
        if self.last <= 64 && self.objects <= 64 {
            self.last *= self.objects;
        }
    }

    // A word more, in what a keyword begins; it heads a bracket or not.
    pub fn add(&mut self, word: Word, field: Field, heads: bool) {
        match (word, field) {
            (Word::Name, Field::Objects) => self.add_object(),
            (Word::Name, Field::Functions) if heads => self.add_function(),
            (Word::Variable, Field::Functions) => self.add_argument(),
            (Word::Operator, _) => self.typed = true,
            _ => {}
        }
    }

    // Whether there are too many ground numbers.
    pub fn is_over(self) -> bool {
        1024 < self.numbers.saturating_add(self.last)
    }
}
