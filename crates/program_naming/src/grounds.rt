// Which predicate or function an index belongs to, and which objects are its arguments: docs/RULES.md, section 8, the other way round.
ghost use Rattle.std.specs.Prelude.{◌≡◌, ◌+◌, ◌/◌, ◌%◌, ◌<◌};
ghost use Rattle.program_naming.specs.Grounds.{arity_in, count_of, first_in};

use crate::rows;
use domain_rows::layout;
use program_records::output::Output;

// The predicates or the functions: the table from `off` on, which has `count` names; and how many objects there are.
#[derive(Clone, Copy)]
pub struct Heads<'a> {
    pub tables: &'a [u8],
    pub off: usize,
    pub count: usize,
    pub objects: usize,
}

// A predicate or function, by its number, and an index among its own.
#[derive(Clone, Copy)]
pub struct Ground {
    pub head: usize,
    pub rest: usize,
}

// How many facts or numbers a name with k arguments has, with n objects: n to the power k, for at most 64 objects and 3 arguments.
#[tactic(auto, unfolding(crate::specs::Grounds::count_of))]
fn count_of(n: usize, k: usize) -> usize
    ensures { result ≡ count_of n k }
{
    if n <= 64 && k <= 3 {
        n.pow(k as u32)
    } else {
        0
    }
}

// The object that is the argument with `later` more after it: a digit in base n.
fn argument(rest: usize, n: usize, later: usize) -> usize
    ensures { 0 < n → 0 < count_of n later → result ≡ rest / count_of n later % n }
{
    let size = count_of(n, later);
    if 0 < size && 0 < n {
        rest / size % n
    } else {
        0
    }
}

impl Heads<'_> {
    fn arity(&self, head: usize) -> usize
        ensures { result ≡ arity_in self.now.tables.now self.now.off head }
    {
        rows::arity(self.tables, self.off, head)
    }

    // Index i among those of the table.
    #[tactic(auto, unfolding(crate::specs::Grounds::first_in))]
    fn ground_of(&self, i: usize) -> Ground
        ensures { (first_in self.now.tables.now self.now.off self.now.objects result.head + result.rest ≡ i)
            × (result.head < self.now.count → result.rest < count_of self.now.objects (arity_in self.now.tables.now self.now.off result.head)) }
    {
        let mut rest = i;
        for head in 0..self.count {
            let size = count_of(self.objects, self.arity(head));
            if rest < size {
                return Ground { head, rest };
            }
            rest -= size;
        }
        Ground {
            head: self.count,
            rest,
        }
    }

    // The ground fact or number at an index, as PDDL writes it.
    pub fn put_ground(&self, out: &mut Output, i: usize) {
        let ground = self.ground_of(i);
        out.put(b'(');
        rows::put_name(out, self.tables, self.off, ground.head);
        for later in (0..self.arity(ground.head)).rev() {
            let object = argument(ground.rest, self.objects, later);
            out.put(b' ');
            rows::put_name(out, self.tables, layout::OBJECTS_AT, object);
        }
        out.put(b')');
    }
}
