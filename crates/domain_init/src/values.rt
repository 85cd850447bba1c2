// The first numbers: whether one is given, and giving it.
ghost use Rattle.std.specs.Prelude.{◌≡◌, get_or, set};
ghost use Rattle.std.specs.Int.Signed.{lt_z};
ghost use Rattle.domain_meaning.specs.First.{undefined};

// Whether a number is defined; past the end none is.
pub fn is_defined(numbers: &[i64], i: usize) -> bool
    ensures { result ≡ lt_z undefined (get_or numbers.now i undefined) }
{
    if i < numbers.len() {
        return -1000000000001 < numbers[i];
    }
    false
}

// One number; past the end nothing is stored.
pub fn put(numbers: &mut [i64], i: usize, z: i64)
    ensures { numbers.new ≡ set numbers.old i z }
{
    if i < numbers.len() {
        numbers[i] = z;
    }
}
