// The points of a happening, laid for the layer of happenings: four numbers each (line, action, time in the action, duration) and four objects.
ghost use Rattle.std.specs.Prelude.{◌≡◌, List, [], ◌∷◌, ◌++◌, ℕ, ◌≤◌, ◌<◌, length};
ghost use Rattle.happening_placing.specs.Given.{points_in};
ghost use Rattle.plan_meaning.specs.Machine.{soonest};
ghost use Rattle.plan_meaning.specs.declared.Slot.{Slot};
ghost use Rattle.plan_waiting.specs.Waiting.{used, waiting};
ghost use Rattle.plan_waiting.specs.Lent.{Kept};
ghost use Rattle.plan_running.specs.Running.{queue_held};
ghost use Rattle.plan_running.specs.Lines.{points_on};
ghost use Rattle.plan_running.specs.Laid.{Laid};

use crate::Workspace;
use plan_meaning::Slot;
use plan_waiting::lent;

// Point j. The arrays come as slices: where an array is lent as a slice its length is known to the proof.
fn lay(points: &mut [usize], whos: &mut [u8], j: usize, s: Slot)
    requires { (j < 64) × (length points.old ≡ 256) × (length whos.old ≡ 256) }
    ensures { (l : List Slot) → length l ≡ j → Laid points.old whos.old 0 l
        → Laid points.new whos.new 0 (l ++ s ∷ []) }
{
    let x = s.step;
    let i = 4 * j;
    points[i] = x.line;
    points[i + 1] = x.action;
    points[i + 2] = lent::when_of(s.ends);
    points[i + 3] = x.duration;
    whos[i] = x.a;
    whos[i + 1] = x.b;
    whos[i + 2] = x.c;
    whos[i + 3] = x.d;
}

impl Workspace {
    // The points of the soonest time t, by line number: how many.
    pub fn lay_points(&mut self, t: usize) -> usize
        requires { Kept self.old.words self.old.objects self.old.count }
        ensures { (result ≤ 64) × (self.new ≡ record self.old { points = self.new.points; whos = self.new.whos })
            × ((b : ℕ) → t ≡ soonest b (waiting (queue_held self.old))
            → (result ≡ length (points_on [] t (used (queue_held self.old)))) × ((rows : List ℕ)
            → points_in rows self.new.points self.new.whos result 0
            ≡ points_on rows t (used (queue_held self.old)))) }
    {
        let k = lent::due(&self.words, self.count, t);
        for i in 0..k {
            let s = lent::slot_at(&self.words, &self.objects, lent::due_place(&self.words, i));
            lay(&mut self.points, &mut self.whos, i, s);
        }
        k
    }
}
