// Words, numbers and quoted lines on standard error. What it doesn't take is lost.
use crate::location;
use std::fmt;
use std::fmt::{Display, Write};
use text_tokens::runs;

// The descriptor of standard error.
const STDERR: i32 = 2;

#[derive(Clone, Copy)]
struct Stderr;

impl fmt::Write for Stderr {
    fn write_str(&mut self, s: &str) -> fmt::Result {
        say_bytes(s.as_bytes());
        Ok(())
    }
}

pub fn say_bytes(bytes: &[u8]) {
    io::write_all(STDERR, bytes);
}

pub fn say(words: impl Display + Drop) {
    let _ = write!(Stderr, "{words}");
}

// A time of so many thousandths, with three decimals.
pub fn say_time(t: usize) {
    say(format_args!("{}.{:03}", t / 1000, t % 1000));
}

fn say_blanks(n: usize) {
    say(format_args!("{:n$}", ""));
}

// The margin of a quoted line: its number in five places, or as many as it takes.
fn say_margin(number: usize) {
    say(format_args!("{number:5} | "));
}

// The margin below it, as wide.
fn say_empty_margin(number: usize) {
    let width = number.checked_ilog10().map_or(1, |n| n as usize + 1);
    say_blanks(width.max(5));
    say(" | ");
}

// The bytes of a text from one place to another, 80 at most.
fn say_shown(text: &[u8], from: usize, to: usize) {
    let mut block = [0u8; 80];
    let part = runs::part_of(text, from, to);
    for (shown, b) in block.iter_mut().zip(part) {
        *shown = location::shown(*b);
    }
    say_bytes(runs::part_of(&block, 0, part.len()));
}

// Whether a line goes on before a place.
fn is_cut_before(text: &[u8], from: usize) -> bool {
    0 < from && from <= text.len() && text[from - 1] != b'\n'
}

// Whether a line goes on at a place.
fn is_cut_at(text: &[u8], to: usize) -> bool {
    to < text.len() && text[to] != b'\n'
}

// The line of a text in which a place lies, as far as it is quoted; `...` stands for what is left out.
pub fn quote(number: usize, text: &[u8], place: usize) {
    let from = location::quoted_from(text, place);
    let to = location::quoted_to(text, place);
    say_margin(number);
    if is_cut_before(text, from) {
        say("...");
    }
    say_shown(text, from, to);
    if is_cut_at(text, to) {
        say("...");
    }
    say("\n");
}

// The caret below the place.
pub fn point(number: usize, text: &[u8], place: usize) {
    let from = location::quoted_from(text, place);
    say_empty_margin(number);
    if is_cut_before(text, from) {
        say_blanks(3);
    }
    if from <= place {
        say_blanks(place - from);
    }
    say("^\n");
}
