// A part that ends no line: its bytes are added to the line, and nothing else changes.
ghost use Rattle.std.specs.Prelude.{◌≡◌, true, length};
ghost use Rattle.check_calls.specs.Adding.{Adds};

use plan_bytes::bytes;
use plan_feeding::PlanProgress;

#[derive(Clone, Copy)]
pub struct Added {
    // how many bytes the line has then
    pub used: usize,
    // whether the whole part was added
    pub whole: bool,
}

// Adds the bytes of a part to a line, if none of them ends the line or is refused.
pub fn add_part(line: &mut [u8; 257], p: PlanProgress, part: &[u8]) -> Added
    requires { length line.old ≡ 257 }
    ensures { (length line.new ≡ 257)
        × (result.whole ≡ true → Adds p line.old part.now line.new result.used) }
{
    let used = p.used;
    let refused = p.refused;
    if refused || 1000000 < p.number {
        return Added { used, whole: false };
    }
    let end = bytes::line_end(part);
    if end < part.len() || 256 < used || 256 - used < end {
        return Added { used, whole: false };
    }
    domain_rows::copy(line, used, part);
    Added {
        used: used + part.len(),
        whole: true,
    }
}
