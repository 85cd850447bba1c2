// Makes the calls on a check in the orders that a script on standard input names, and writes what each answers and leaves as it was.
#![tactic(auto)]

mod calls;
mod command;
mod report;
mod script;

use program_records::input;
use text_tokens::runs;

// Reads the two texts, then the script, and goes through it: whether the input has as many bytes as its head says.
fn run() -> Option<()> {
    let mut head = [0u8; 12];
    let mut domain = [0u8; 1024];
    let mut problem = [0u8; 1024];
    let mut text = [0u8; 16384];
    input::read_text(&mut head, 12)?;
    input::read_text(&mut domain, input::decimal(&head[..5]))?;
    input::read_text(&mut problem, input::decimal(&head[6..11]))?;
    let n = io::read_full(0, &mut text);
    script::run(&domain, &problem, &text[..n]);
    Some(())
}

fn main() {
    if run().is_none() {
        io::write_all(1, b"malformed\n");
    }
}
