// Cells of the code, places and first indexes: read so that no place is out of bounds, whatever they hold.
ghost use Rattle.std.specs.Prelude.{◌≡◌, ◌+◌, ◌*◌, ◌≤◌, ◌<◌, length, get_or};
ghost use Rattle.domain_rows.specs.Held.{byte_at};
ghost use Rattle.domain_stored_meaning.specs.Decode.{when_of, little_at};
ghost use Rattle.domain_prepared_meaning.specs.Preparing.{is_at};
ghost use Rattle.domain_forms.specs.Stored.{firsts_in};

fn wide(x: u8) -> usize
    ensures { (result ≡ x) × (result < 256) }
{
    x as usize
}

// A cell of the code, 0 past its end.
pub fn cell(code: &[u8], at: usize) -> usize
    ensures { (result ≡ byte_at code.now at) × (result < 256) }
{
    wide(domain_rows::byte(code, at))
}

// A place where cells begin, 0 past the end.
pub fn place(starts: &[usize], i: usize) -> usize
    ensures { result ≡ byte_at starts.now i }
{
    if i < starts.len() { starts[i] } else { 0 }
}

pub fn entry(firsts: &[u16], i: usize) -> usize
    ensures { (result ≡ get_or firsts.now i 0) × (result < 65536) }
{
    if i < firsts.len() {
        return firsts[i] as usize;
    }
    0
}

// The first index of a predicate, or of a function.
pub fn first(firsts: &[u16], numeric: bool, head: usize) -> usize
    ensures { (result ≡ get_or (firsts_in numeric firsts.now) head 0) × (result < 65536) }
{
    if numeric {
        if head < 16 {
            return entry(firsts, 32 + head);
        }
        return 0;
    }
    if head < 32 {
        return entry(firsts, head);
    }
    0
}

// k cells as a number, the lowest first.
pub fn little_at(code: &[u8], at: usize, k: usize) -> usize
    requires { (at ≤ length code.now) × (k ≤ 5) }
    ensures { (result ≡ little_at code.now at k) × (result < 1099511627776) }
{
    let mut acc = 0;
    let mut i = k;
    while 0 < i {
        i -= 1;
        acc = acc * 256 + cell(code, at + i);
    }
    acc
}

// Whether a part whose first cell is `tag` is for a time: 1 at the start, 2 over all, else at the end.
pub fn is_at(tag: usize, time: usize) -> bool
    ensures { result ≡ is_at (when_of tag) (when_of time) }
{
    if time == 1 {
        return tag == 1;
    }
    if time == 2 {
        return tag == 2;
    }
    if tag == 1 {
        return false;
    }
    tag != 2
}
