// The domain or the problem of a record, of any length: read in pieces, of which a block holds what decides.
use program_records::input;
use text_tokens::runs;

// Reads a text of so many bytes into a block, if the input has so many: what is held of it. One of more than 32,850 bytes is enough
// for the answer (RULES 1; crates/domain_holding/proofs/Reading.antt).
pub fn read(block: &mut [u8], total: usize) -> Option<&[u8]> {
    let mut piece = [0u8; 65536];
    let mut held = domain_holding::nothing();
    let mut left = total;
    while 0 < left {
        let n = left.min(65536);
        held = domain_holding::take(block, held, input::read_text(&mut piece, n)?);
        left -= n;
    }
    Some(runs::part_of(block, 0, held.used))
}
