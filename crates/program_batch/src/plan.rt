// The plan of a record, fed in parts: only one part is held at a time.
ghost use Rattle.std.specs.Prelude.{◌<◌};

use check_calls::Check;
use program_records::input;

// Feeds a plan of so many bytes, `part` at a time but no more than 65,536, if the input has so many.
pub fn feed(check: &mut Check, total: usize, part: usize) -> Option<()>
    requires { 0 < part }
{
    let mut block = [0u8; 65536];
    let mut left = total;
    while 0 < left {
        let n = left.min(part).min(65536);
        *check = check.feed(input::read_text(&mut block, n)?).check;
        left -= n;
    }
    Some(())
}
