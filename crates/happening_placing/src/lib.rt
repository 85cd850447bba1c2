// The points given to a call, and where what each needs stands in the rows; and where a line under way finds its conditions.
#![tactic(auto)]

ghost use Rattle.std.specs.Prelude.{◌≡◌, cond, ◌+◌, ◌*◌, ◌%◌, ◌≤◌, ◌<◌, length, MatchOption};
ghost use Rattle.domain_meaning.specs.Actions.{moment, rule};
ghost use Rattle.domain_prepared_meaning.specs.Decode.{place_in, expression_at};
ghost use Rattle.happening_placing.specs.Given.{placed_in, rule_in};

// A point: its line, whether it is its step's start, how long the step lasts, and where its action's duration rule, and its single conditions and effects
// for this time stand.
#[derive(Clone, Copy)]
pub struct Placed {
    pub line: usize,
    pub begins: bool,
    pub duration: usize,
    pub rule: usize,
    pub tests: usize,
    pub effects: usize,
}

impl Placed {
    // Where the expression of its duration rule stands, for a start whose action has one.
    #[tactic(auto, unfolding(domain_prepared_meaning::specs::Decode::lasts_at))]
    pub fn rule_expression(self, rows: &[u8]) -> Option<usize>
        ensures { MatchOption result (rule_in rows.now self ≡ moment)
            (λ e. rule_in rows.now self ≡ rule (expression_at rows.now e).tree) }
    {
        if self.begins && self.rule < rows.len() && happening_forms::cell(rows, self.rule) != 0 {
            return Some(self.rule + 1);
        }
        None
    }
}

// Where list j of an action begins.
#[tactic(auto, unfolding(domain_prepared_meaning::specs::Decode::place_in))]
fn place(rows: &[u8], action: usize, j: usize) -> usize
    requires { (action < 32) × (j < 6) × (385 ≤ length rows.now) }
    ensures { result ≡ place_in rows.now action j }
{
    happening_forms::word(rows, 1 + 12 * action + 2 * j)
}

// Where the single conditions over all of one of 32 actions stand.
pub fn during(rows: &[u8], action: usize) -> usize
    requires { 385 ≤ length rows.now }
    ensures { result ≡ place_in rows.now (action % 32) 2 }
{
    place(rows, action % 32, 2)
}

// Point j.
#[tactic(auto, unfolding(crate::specs::Given::placed_in))]
pub fn point_at<'a>(rows: &'a [u8], points: &'a [usize; 256], j: usize) -> Placed
    requires { (j < 64) × (385 ≤ length rows.now) }
    ensures { result ≡ placed_in rows.now points.now j }
{
    let i = 4 * j;
    let action = points[i + 1] % 32;
    let begins = points[i + 2] == 1;
    let tests = if begins { 1 } else { 3 };
    let effects = if begins { 4 } else { 5 };
    Placed {
        line: points[i],
        begins,
        duration: points[i + 3],
        rule: place(rows, action, 0),
        tests: place(rows, action, tests),
        effects: place(rows, action, effects),
    }
}
