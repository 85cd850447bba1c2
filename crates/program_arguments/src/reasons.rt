// Why a file can't be opened, on standard error.
use program_quotes::stderr;
use std::fmt;
use std::fmt::Write;
use text_tokens::runs;

// What an error is written as, or the first 128 bytes of it.
#[derive(Drop)]
struct Text {
    bytes: [u8; 128],
    used: usize,
}

impl fmt::Write for Text {
    fn write_str(&mut self, s: &str) -> fmt::Result {
        for b in s.as_bytes() {
            if self.used < 128 {
                self.bytes[self.used] = *b;
                self.used += 1;
            }
        }
        Ok(())
    }
}

// Where the system's number begins, which stands in brackets after the words; the end if there is none.
fn words_end(text: &[u8]) -> usize {
    match text.iter().rposition(|b| *b == b'(') {
        Some(i) if 0 < i => i - 1,
        _ => text.len(),
    }
}

// Says a path, and the system's words for what failed.
pub fn say(path: &[u8], error: std::io::Error) {
    let mut text = Text {
        bytes: [0; 128],
        used: 0,
    };
    // It takes all that is written.
    let _ = write!(text, "{error}");
    let written = runs::part_of(&text.bytes, 0, text.used);
    stderr::say_bytes(path);
    stderr::say(": ");
    stderr::say_bytes(runs::part_of(written, 0, words_end(written)));
    stderr::say("\n");
}

// Says a path that can't be the name of a file here.
pub fn say_unnamed(path: &[u8]) {
    stderr::say_bytes(path);
    stderr::say(": the name is not UTF-8\n");
}
