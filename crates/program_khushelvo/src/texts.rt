// Domain and problem, of any length: what is held of each answers as the whole would.
use program_arguments::files;
use std::io::Read;
use text_tokens::runs;

// Reads a text to its end: what of it is held, in a lent block.
pub fn read<'a>(file: &mut impl Read, block: &'a mut [u8]) -> std::io::Result<&'a [u8]> {
    let mut piece = [0u8; 4096];
    let mut held = domain_holding::nothing();
    // A proved loop has to end, and nothing says that a file does.
    for _ in 0..u64::MAX {
        let used = files::fill(file, &mut piece, 4096)?;
        held = domain_holding::take(block, held, &piece[..used]);
        if used < 4096 {
            break;
        }
    }
    Ok(runs::part_of(block, 0, held.used))
}
