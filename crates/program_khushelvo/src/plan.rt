// The plan, read and fed in parts: only one part is held at a time, and beside it the lines that the answer may name.
use check_calls::Check;
use program_arguments::files;
use program_messages::quotes::Lines;
use std::io::Read;

// Feeds a plan, `size` bytes at a time, and finishes.
pub fn feed(
    plan: &mut impl Read,
    size: usize,
    fresh: Check,
    lines: &mut Lines,
) -> std::io::Result<Check> {
    let mut block = [0u8; 65536];
    let mut check = fresh;
    // A proved loop has to end, and nothing says that a plan does.
    for _ in 0..u64::MAX {
        let used = files::fill(plan, &mut block, size)?;
        let part = &block[..used];
        check = check.feed(part).check;
        lines.keep(&check.progress, &check.queue, part);
        // after a refusal nothing changes the answer
        if used != size || check.progress.refused {
            break;
        }
    }
    Ok(check.finish().check)
}
