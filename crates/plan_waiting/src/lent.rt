// The points that wait, as numbers in lent arrays: within a call they change in place. Each lies in one of 64 places, six words (line, action, time in the
// action, duration, start, width) and four objects, and stays there. After the places' words stand the places as they came, the free ones, and the keys.
ghost use Rattle.std.specs.Prelude.{◌≡◌, Bool, true, ◌&&◌, List, [], ◌∷◌, ◌++◌, ℕ, suc, ◌+◌, ◌%◌, ◌≤◌, ◌<◌, ltb, length, get_or};
ghost use Rattle.plan_meaning.specs.Plan.{time, points_of, from, latest};
ghost use Rattle.plan_meaning.specs.Machine as Machine;
ghost use Rattle.plan_meaning.specs.Stored.{step_in, point_in};
ghost use Rattle.plan_ordering.specs.Keys.{Inside};
ghost use Rattle.plan_waiting.specs.Waiting.{used, waiting, queue_of, sound_step, Sound, Timed, TimedStep};
ghost use Rattle.plan_waiting.specs.Lent.{when_in, slot_in, queue_in, begin_in, place_at, Apart, Kept, Due, Put, TakenOut, Going, Sifted};
ghost use Rattle.plan_waiting.specs.Lent.{Left, Entered, Sized, TimedWords, TimedWord};

use crate::Queue;
use plan_meaning::{Slot, Step};
use plan_ordering::{KEYS, PLACES};

// The places as they came are listed from this word on.
const LISTED: usize = 384;

// The word that says where the keys begin.
const BEGIN: usize = 448;

// The time of a point in its action: its start, or its end.
const START: usize = 1;

const END: usize = 3;

// When the point at place p happens.
#[tactic(auto, using(crate::proofs::LentPlaces::point_times))]
pub fn time_at(words: &[usize; 640], p: usize) -> usize
    requires { (p < 64) × TimedWord words.now p }
    ensures { ((o : List ℕ) → result ≡ time (point_in (slot_in words.now o p))) × (result < 2000000000000) }
{
    let at = 6 * p;
    if words[at + 2] == END {
        return words[at + 4] + words[at + 3];
    }
    words[at + 4]
}

// The start of the step at place p.
#[tactic(auto, unfolding(crate::specs::Lent::slot_in))]
pub fn start_at(words: &[usize; 640], p: usize) -> usize
    requires { p < 64 }
    ensures { (o : List ℕ) → result ≡ (slot_in words.now o p).step.start }
{
    words[6 * p + 4]
}

// Its line.
#[tactic(auto, unfolding(crate::specs::Lent::slot_in))]
pub fn line_at(words: &[usize; 640], p: usize) -> usize
    requires { p < 64 }
    ensures { (o : List ℕ) → result ≡ (slot_in words.now o p).step.line }
{
    words[6 * p]
}

// Its action.
#[tactic(auto, unfolding(crate::specs::Lent::slot_in))]
pub fn action_at(words: &[usize; 640], p: usize) -> usize
    requires { p < 64 }
    ensures { (o : List ℕ) → result ≡ (slot_in words.now o p).step.action }
{
    words[6 * p + 1]
}

// Whether the point at place p is an end that lies after the time t.
#[tactic(auto, using(crate::proofs::LentPlaces::point_times))]
pub fn is_open(words: &[usize; 640], p: usize, t: usize) -> bool
    requires { (p < 64) × TimedWord words.now p }
    ensures { (o : List ℕ)
        → result ≡ ((slot_in words.now o p).ends && ltb t (time (point_in (slot_in words.now o p)))) }
{
    let at = 6 * p;
    words[at + 2] == END && t < words[at + 4] + words[at + 3]
}

// What stands at place p.
#[tactic(auto, unfolding(crate::specs::Lent::slot_in))]
pub fn slot_at<'a>(words: &'a [usize; 640], objects: &'a [u8; 256], p: usize) -> Slot
    requires { p < 64 }
    ensures { result ≡ slot_in words.now objects.now p }
{
    let at = 6 * p;
    let j = 4 * p;
    let step = Step {
        line: words[at],
        start: words[at + 4],
        duration: words[at + 3],
        action: words[at + 1],
        a: objects[j],
        b: objects[j + 1],
        c: objects[j + 2],
        d: objects[j + 3],
        width: words[at + 5],
    };
    Slot {
        step,
        ends: words[at + 2] == END,
    }
}

// The place of the point that came as number i.
pub fn place_at(words: &[usize; 640], i: usize) -> usize
    requires { i < 64 }
    ensures { (result ≡ place_at words.now i) × (result < 64) }
{
    words[LISTED + i] % PLACES
}

// The place of the point whose key is number i.
pub fn due_place(words: &[usize; 640], i: usize) -> usize
    requires { begin_in words.now + i < 640 }
    ensures { (result ≡ get_or words.now (begin_in words.now + i) 0 % 64) × (result < 64) }
{
    words[words[BEGIN] + i] % PLACES
}

// The least time below b of the n points, or b: that of the first key.
#[tactic(auto, using(crate::proofs::Keeping::next_first))]
pub fn soonest(words: &[usize; 640], n: usize, b: usize) -> usize
    requires { Inside words.now (begin_in words.now) n }
    ensures { (o : List ℕ) → Kept words.now o n → result ≡ Machine.soonest b (waiting (queue_in words.now o n)) }
{
    if n == 0 {
        return b;
    }
    b.min(words[words[BEGIN]] / PLACES)
}

// How many of the n points have the soonest time t: their keys are in front.
#[tactic(auto, using(crate::proofs::Keeping::due_keys))]
pub fn due(words: &[usize; 640], n: usize, t: usize) -> usize
    requires { Inside words.now (begin_in words.now) n }
    ensures { (result ≤ n) × ((o : List ℕ) (b : ℕ) → Kept words.now o n
        → t ≡ Machine.soonest b (waiting (queue_in words.now o n)) → Due words.now o n t result) }
{
    plan_ordering::front_of(words, words[BEGIN], n, t)
}

// The time of the last of the n points, 0 if there is none.
pub fn last(words: &[usize; 640], n: usize) -> usize
    requires { TimedWords words.now n }
    ensures { ((o : List ℕ) → result ≡ latest (waiting (queue_in words.now o n))) × (result < 2000000000000) }
{
    let mut best = 0;
    for i in 0..n {
        best = time_at(words, place_at(words, i)).max(best);
    }
    best
}

// The time in its action of a point.
pub fn when_of(ends: bool) -> usize
    ensures { result ≡ when_in ends }
{
    if ends { END } else { START }
}

// Another point to place p. The arrays come as slices: where an array is lent as a slice its length is known to the proof.
fn put(words: &mut [usize], objects: &mut [u8], p: usize, s: Slot)
    requires { (p < 64) × Sized words.old objects.old }
    ensures { Put words.old objects.old words.new objects.new p s }
{
    let x = s.step;
    let at = 6 * p;
    words[at] = x.line;
    words[at + 1] = x.action;
    words[at + 2] = when_of(s.ends);
    words[at + 3] = x.duration;
    words[at + 4] = x.start;
    words[at + 5] = x.width;
    let j = 4 * p;
    objects[j] = x.a;
    objects[j + 1] = x.b;
    objects[j + 2] = x.c;
    objects[j + 3] = x.d;
}

// Of the first n + 1 in the list place p goes after the others, which close up: each moves down by one, the last first, until p is met.
fn take_out(words: &mut [usize; 640], n: usize, p: usize)
    requires { (n < 64) × (p < 64) × (length words.old ≡ 640) }
    ensures { TakenOut words.old words.new n p }
{
    let mut carried = p;
    for i in (0..n + 1).rev() {
        let x = words[LISTED + i];
        words[LISTED + i] = carried;
        if x % PLACES == p {
            return;
        }
        carried = x;
    }
}

// The places of the first k keys go after the r others in the list. That of the last key goes first: where all go, each is found at once.
fn take_due(words: &mut [usize; 640], begin: usize, r: usize, k: usize)
    requires { (r + k ≤ 64) × Apart words.old × Inside words.old begin k }
    ensures { (f : ℕ → Bool) → Going f words.old begin (r + k) k → Sifted f words.old words.new (r + k) r }
{
    for m in (0..k).rev() {
        let p = words[begin + m] % PLACES;
        take_out(words, r + m, p);
    }
}

// The points of the soonest time t are taken out: how many are left.
pub fn later(words: &mut [usize; 640], n: usize, t: usize) -> usize
    requires { TimedWords words.old n × Apart words.old × Inside words.old (begin_in words.old) n }
    ensures { (o : List ℕ) (b : ℕ) → Kept words.old o n → t ≡ Machine.soonest b (waiting (queue_in words.old o n))
        → Kept words.new o result × (waiting (queue_in words.new o result) ≡ from (suc t) (waiting (queue_in words.old o n)))
        × ((m : ℕ) → Sound m (queue_in words.old o n) → Sound m (queue_in words.new o result))
        × Left words.old o n words.new result }
{
    let begin = words[BEGIN];
    let k = plan_ordering::front_of(words, begin, n, t);
    take_due(words, begin, n - k, k);
    words[BEGIN] = begin + k;
    n - k
}

// A point more, in a free place.
fn enter_point(words: &mut [usize; 640], objects: &mut [u8; 256], n: usize, s: Slot)
    requires { Kept words.old objects.old n × (n < 64) × TimedStep s.step }
    ensures { Kept words.new objects.new (n + 1)
        × (used (queue_in words.new objects.new (n + 1)) ≡ used (queue_in words.old objects.old n) ++ s ∷ [])
        × Entered words.old objects.old n words.new objects.new (n + 1) s.step }
{
    let p = place_at(words, n);
    put(words, objects, p, s);
    let key = time_at(words, p) * PLACES + p;
    let begin = words[BEGIN];
    words[BEGIN] = plan_ordering::enter(words, begin, n, key);
}

// The points of a step more: how many there are then.
pub fn enter(words: &mut [usize; 640], objects: &mut [u8; 256], n: usize, x: Step) -> usize
    requires { Kept words.old objects.old n × (n + length (points_of (step_in x)) ≤ 64) × TimedStep x }
    ensures { Kept words.new objects.new result
        × (waiting (queue_in words.new objects.new result) ≡ waiting (queue_in words.old objects.old n)
        ++ points_of (step_in x)) × ((m : ℕ) → Sound m (queue_in words.old objects.old n) → sound_step m x ≡ true
        → Sound m (queue_in words.new objects.new result))
        × Entered words.old objects.old n words.new objects.new result x }
{
    let start = Slot {
        step: x,
        ends: false,
    };
    enter_point(words, objects, n, start);
    if x.duration == 0 {
        return n + 1;
    }
    let end = Slot {
        step: x,
        ends: true,
    };
    enter_point(words, objects, n + 1, end);
    n + 2
}

// No point waits: all places are free. The arrays come as slices, as above.
fn clear(words: &mut [usize], objects: &[u8])
    requires { Sized words.old objects.now }
    ensures { Kept words.new objects.now 0 }
{
    for i in 0..PLACES {
        words[LISTED + i] = i;
    }
    words[BEGIN] = KEYS;
}

// The points of a queue, into the lent numbers.
#[tactic(auto, using(crate::proofs::Soundness::timed_at, crate::proofs::Places::length_mapped))]
pub fn lend(q: Queue, words: &mut [usize; 640], objects: &mut [u8; 256])
    requires { Timed q }
    ensures { Kept words.new objects.new q.count
        × (used (queue_in words.new objects.new q.count) ≡ used q) }
{
    clear(words, objects);
    for i in 0..q.count {
        enter_point(words, objects, i, q.slots[i]);
    }
}

// And back: the queue of the first n points.
pub fn back<'a>(words: &'a [usize; 640], objects: &'a [u8; 256], n: usize) -> Queue
    requires { n ≤ 64 }
    ensures { result ≡ queue_of (used (queue_in words.now objects.now n)) }
{
    let mut slots = crate::nobody().slots;
    for i in 0..n {
        slots[i] = slot_at(words, objects, place_at(words, i));
    }
    Queue { slots, count: n }
}
