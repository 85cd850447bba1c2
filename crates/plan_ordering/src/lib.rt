// Points that wait, in the order of their times, as one number each in a lent array: a window that moves up as points are taken from its front.
#![tactic(auto)]

ghost use Rattle.std.specs.Prelude.{◌≡◌, ℕ, ◌+◌, ◌<◌, ◌≤◌, length, get_or};
ghost use Rattle.plan_ordering.specs.Order.{insert, front};
ghost use Rattle.plan_ordering.specs.Keys.{time_of, keys_in, Inside};

// How many places there are. A key is a point's time by this number, and its place.
pub const PLACES: usize = 64;

// Where the keys may begin: the words before are others'.
pub const KEYS: usize = 449;

// A key more: those later than it move up by one.
fn put_in(words: &mut [usize; 640], begin: usize, n: usize, p: usize)
    requires { Inside words.old begin (n + 1) }
    ensures { (keys_in words.new begin (n + 1) ≡ insert time_of p (keys_in words.old begin n))
        × (length words.new ≡ 640) × ((k : ℕ) → k < 449 → get_or words.new k 0 ≡ get_or words.old k 0) }
{
    let t = p / PLACES;
    for i in (begin..begin + n).rev() {
        let x = words[i];
        if x / PLACES <= t {
            words[i + 1] = p;
            return;
        }
        words[i + 1] = x;
    }
    words[begin] = p;
}

// The window to its first place.
fn settle(words: &mut [usize; 640], begin: usize, n: usize)
    requires { Inside words.old begin n }
    ensures { (keys_in words.new 449 n ≡ keys_in words.old begin n) × (length words.new ≡ 640)
        × ((k : ℕ) → k < 449 → get_or words.new k 0 ≡ get_or words.old k 0) }
{
    words.copy_within(begin..begin + n, KEYS);
}

// A key more, with room made for it where there is none: where the window begins then.
pub fn enter(words: &mut [usize; 640], begin: usize, n: usize, p: usize) -> usize
    requires { Inside words.old begin n × (n < 191) }
    ensures { (keys_in words.new result (n + 1) ≡ insert time_of p (keys_in words.old begin n))
        × Inside words.new result (n + 1) × ((k : ℕ) → k < 449 → get_or words.new k 0 ≡ get_or words.old k 0) }
{
    if begin + n < words.len() {
        put_in(words, begin, n, p);
        return begin;
    }
    settle(words, begin, n);
    put_in(words, KEYS, n, p);
    KEYS
}

// How many keys in front have the time t.
pub fn front_of(words: &[usize; 640], begin: usize, n: usize, t: usize) -> usize
    requires { Inside words.now begin n }
    ensures { (result ≡ front time_of t (keys_in words.now begin n)) × (result ≤ n) }
{
    words[begin..begin + n]
        .iter()
        .take_while(|&&x| x / PLACES == t)
        .count()
}
