// The single condition at a place of the rows, taken apart for a point: the only reader of its bytes.
ghost use Rattle.std.specs.Prelude.{◌≡◌, ◌+◌, ◌<◌, ◌≤◌, Some, length};
ghost use Rattle.domain_prepared_meaning.specs.Decode.{same_at, atom_at};
ghost use Rattle.happening_forms.specs.Summed.{four_at};
ghost use Rattle.happening_tests.specs.Taken.{row_of, row_at};

// A fact that is wanted true or not, its index and the place after it; whether two objects are as wanted, and the place after it; a comparison that is
// wanted to hold or not, which one, and the place of its first side.
#[derive(Clone, Copy)]
pub enum Row {
    Fact(bool, usize, usize),
    Same(bool, usize),
    Compare(bool, usize, usize),
}

fn same<'a>(rows: &'a [u8], objects: &'a [u8; 256], k: usize, at: usize, w: bool) -> Row
    requires { (k < 64) × (at < length rows.now) }
    ensures { Some result ≡ row_of (four_at objects.now k) (at + 1) (same_at rows.now at w) }
{
    let x = happening_forms::argument(objects, k, happening_forms::cell(rows, at + 1));
    let y = happening_forms::argument(objects, k, happening_forms::cell(rows, at + 2));
    Row::Same(w == (x == y), at + 3)
}

fn fact<'a>(rows: &'a [u8], objects: &'a [u8; 256], k: usize, at: usize, w: bool, v: usize) -> Row
    requires { (k < 64) × (at < length rows.now) × (v ≤ 3) }
    ensures { Some result ≡ row_of (four_at objects.now k) (at + 1) (atom_at rows.now at w v) }
{
    let i = happening_forms::index(rows, objects, k, at + 1, v);
    Row::Fact(w, i, at + 3 + v)
}

// None where the list ends.
pub fn test_at<'a>(rows: &'a [u8], objects: &'a [u8; 256], k: usize, at: usize) -> Option<Row>
    requires { k < 64 }
    ensures { result ≡ row_at rows.now (four_at objects.now k) at }
{
    if rows.len() <= at {
        return None;
    }
    let tag = happening_forms::cell(rows, at);
    match tag {
        2..=3 => Some(same(rows, objects, k, at, tag == 2)),
        4..=7 => Some(fact(rows, objects, k, at, true, tag - 4)),
        8..=11 => Some(fact(rows, objects, k, at, false, tag - 8)),
        12..=16 => Some(Row::Compare(true, tag - 12, at + 1)),
        17..=21 => Some(Row::Compare(false, tag - 17, at + 1)),
        _ => None,
    }
}
