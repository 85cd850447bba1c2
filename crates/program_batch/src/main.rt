// Checks plans from standard input and writes what came of each, to be held beside `second --batch`.
#![tactic(auto)]

mod header;
mod plan;
mod reading;
mod replies;

// Reads the three texts of a record and answers it, if its header is one and they are there.
fn answer(line: &[u8]) -> Option<()> {
    let head = header::head_of(line)?;
    let mut domain = [0u8; 65536];
    let mut problem = [0u8; 65536];
    let domain = reading::read(&mut domain, head.domain)?;
    let problem = reading::read(&mut problem, head.problem)?;
    let mut opened = check_calls::load(domain, problem);
    plan::feed(&mut opened.check, head.plan, head.part)?;
    replies::write(opened.answer, &opened.check);
    Some(())
}

// Reads one record and answers it: whether to go on.
fn record() -> bool {
    let mut line = [0u8; 96];
    let line = header::read_line(&mut line);
    if line.is_empty() {
        return false;
    }
    if answer(line).is_some() {
        return true;
    }
    io::write_all(1, b"malformed\n");
    false
}

// A proved loop has to end, and nothing says that the input does: so many records at most.
fn main() {
    for _ in 0..1_000_000_000u64 {
        if !record() {
            break;
        }
    }
}
