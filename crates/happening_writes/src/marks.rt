// What the effects of a list write, one after the other: all of it, or what a walk asks for.
ghost use Rattle.std.specs.Prelude.{◌≡◌, ◌<◌};

use crate::rows;
use happening_expressions::ends;
use happening_meaning::Mark;
use rows::Row;

// What a walk asks for. What it doesn't ask for has the index 0, which need not be computed.
#[derive(Clone, Copy)]
pub enum Asked {
    All,
    // facts that are added (true), or those that are deleted
    Facts(bool),
    Numbers,
}

// The effects from a place on, of point k.
#[derive(Clone, Copy)]
pub struct Marks<'a> {
    rows: &'a [u8],
    objects: &'a [u8; 256],
    k: usize,
    at: usize,
    ghost point: { k < 64 },
}

// The same effects; a fact or number that isn't asked for has the index 0.
#[derive(Clone, Copy)]
pub struct Walk<'a> {
    marks: Marks<'a>,
    asked: Asked,
}

impl Asked {
    ghost use Rattle.happening_writes.specs.Asking.{asks_fact, asks_number};

    fn asks_fact(self, added: bool) -> bool
        ensures { result ≡ asks_fact self added }
    {
        match self {
            Asked::All => true,
            Asked::Facts(adds) => added == adds,
            Asked::Numbers => false,
        }
    }

    fn asks_number(self) -> bool
        ensures { result ≡ asks_number self }
    {
        match self {
            Asked::All | Asked::Numbers => true,
            Asked::Facts(_) => false,
        }
    }
}

impl<'a> Marks<'a> {
    ghost use Rattle.std.specs.Prelude.{◌≤◌, cond, length};
    ghost use Rattle.std.specs.Iterator.{YieldsFirst};
    ghost use Rattle.happening_forms.specs.Summed.{four_at};
    ghost use Rattle.happening_writes.specs.Rows.{placed, marks_at};
    ghost use Rattle.happening_writes.specs.Asking.{shown_all};
    ghost use Rattle.happening_writes.specs.Left.{left};

    pub fn new(rows: &'a [u8], objects: &'a [u8; 256], k: usize, from: usize) -> Self
        requires { k < 64 }
        ensures { left result ≡ marks_at rows.now (four_at objects.now k) from }
    {
        Marks {
            rows,
            objects,
            k,
            at: from,
        }
    }

    // The index of the fact or number of the row at hand, if it is asked for.
    #[inline(always)]
    fn index(&self, params: usize, is_asked: bool) -> usize
        requires { (self.now.at < length self.now.rows.now) × (params ≤ 3) }
        ensures { result ≡ cond is_asked (placed self.now.rows.now (four_at self.now.objects.now self.now.k) self.now.at params) 0 }
    {
        if is_asked {
            happening_forms::index(self.rows, self.objects, self.k, self.at + 1, params)
        } else {
            0
        }
    }

    // The next effect, with the index 0 if it isn't asked for. Inlined, so that a walk has no code for an index that it never asks for.
    #[inline(always)]
    fn step(&mut self, asked: Asked) -> Option<Mark>
        ensures { YieldsFirst (λ w. shown_all asked (left w)) self.old result self.new }
    {
        let Marks { rows, at, .. } = *self;
        let row = rows::effect_at(rows, at)?;
        match row {
            Row::Fact {
                added,
                params,
                next,
            } => {
                let x = self.index(params, asked.asks_fact(added));
                self.at = next;
                Some(Mark::Fact(added, x))
            }
            Row::Number { how, params, right } => {
                let x = self.index(params, asked.asks_number());
                self.at = ends::expr_end(rows, right, 16);
                Some(Mark::Number(how.assigns(), x))
            }
        }
    }
}

impl Iterator for Marks<'_> {
    ghost use Rattle.std.specs.Iterator.{YieldsFirst, item_count};
    ghost use Rattle.happening_writes.specs.Left.{left};

    type Item = Mark;

    ghost next_gives = { YieldsFirst left };

    ghost remaining = { item_count left };

    #[inline(always)]
    fn next(&mut self) -> Option<Mark> {
        self.step(Asked::All)
    }
}

impl<'a> Walk<'a> {
    ghost use Rattle.happening_forms.specs.Summed.{four_at};
    ghost use Rattle.happening_writes.specs.Rows.{marks_at};
    ghost use Rattle.happening_writes.specs.Asking.{shown_all};
    ghost use Rattle.happening_writes.specs.Left.{shown_left};

    pub fn asking(
        rows: &'a [u8],
        objects: &'a [u8; 256],
        k: usize,
        from: usize,
        asked: Asked,
    ) -> Self
        requires { k < 64 }
        ensures { shown_left result ≡ shown_all asked (marks_at rows.now (four_at objects.now k) from) }
    {
        Walk {
            marks: Marks::new(rows, objects, k, from),
            asked,
        }
    }
}

impl Iterator for Walk<'_> {
    ghost use Rattle.std.specs.Iterator.{YieldsFirst, item_count};
    ghost use Rattle.happening_writes.specs.Left.{shown_left};

    type Item = Mark;

    ghost next_gives = { YieldsFirst shown_left };

    ghost remaining = { item_count shown_left };

    #[inline(always)]
    fn next(&mut self) -> Option<Mark> {
        self.marks.step(self.asked)
    }
}

#[cfg(test)]
mod tests {
    use super::*;
    use std::test::*;

    // Effects over three objects, for point 1, whose first parameter is object 2.
    const ROWS: [u8; 18] = [
        3, // objects
        5, 10, 0, 4, // fact 10 + 3 * the first parameter is added
        8, 20, 0, // fact 20 is deleted
        15, 7, 0, 16, // number 7 is raised by 0
        12, 9, 1, 17, 200, // number 9 + 256 becomes 0.2
        0, // the end
    ];

    fn objects() -> [u8; 256] {
        let mut objects = [0; 256];
        objects[4] = 2;
        objects
    }

    #[test]
    fn all_effects_are_given_in_turn(rt: HostRuntime) {
        let objects = objects();
        let mut marks = Marks::new(&ROWS, &objects, 1, 1);
        assert!(rt; matches!(marks.next(), Some(Mark::Fact(true, 16))));
        assert!(rt; matches!(marks.next(), Some(Mark::Fact(false, 20))));
        assert!(rt; matches!(marks.next(), Some(Mark::Number(false, 7))));
        assert!(rt; matches!(marks.next(), Some(Mark::Number(true, 265))));
        assert!(rt; marks.next().is_none());
    }

    #[test]
    fn an_effect_that_is_not_asked_for_has_index_0(rt: HostRuntime) {
        let objects = objects();
        let mut walk = Walk::asking(&ROWS, &objects, 1, 1, Asked::Facts(false));
        assert!(rt; matches!(walk.next(), Some(Mark::Fact(true, 0))));
        assert!(rt; matches!(walk.next(), Some(Mark::Fact(false, 20))));
        assert!(rt; matches!(walk.next(), Some(Mark::Number(false, 0))));
        assert!(rt; matches!(walk.next(), Some(Mark::Number(true, 0))));
        assert!(rt; walk.next().is_none());
    }
}
