// The number after its first byte, which says its size, its sign, and whether wholes are counted.
ghost use Rattle.std.specs.Prelude.{◌≡◌, ◌+◌, ◌-◌, ◌%◌, ◌≤◌, ◌<◌, length, pos};
ghost use Rattle.std.specs.Int.Signed.{mag};
ghost use Rattle.domain_stored_meaning.specs.Decode.{little_at, number_at};

// k bytes as a number, the lowest first.
fn little_at(rows: &[u8], at: usize, k: usize) -> usize
    requires { (at ≤ length rows.now) × (k ≤ 5) }
    ensures { (result ≡ little_at rows.now at k) × (result < 1099511627776) }
{
    let mut acc = 0;
    for i in (0..k).rev() {
        acc = acc * 256 + happening_forms::cell(rows, at + i);
    }
    acc
}

// The number after its first byte `tag`.
#[tactic(auto, unfolding(domain_stored_meaning::specs::Decode::number_at))]
pub fn literal_at(rows: &[u8], at: usize, tag: usize) -> i64
    requires { (at ≤ length rows.now) × ((tag - 16) % 8 ≤ 5) }
    ensures { result ≡ number_at rows.now at tag }
{
    // what the first byte says of the size, the sign, and whether wholes are counted
    let t = tag.saturating_sub(16);
    let mut m = little_at(rows, at, t % 8);
    if 15 < t {
        m *= 1000;
    }
    let z = m as i64;
    if t / 8 % 2 == 1 {
        happening_amounts::difference(0, z)
    } else {
        z
    }
}
