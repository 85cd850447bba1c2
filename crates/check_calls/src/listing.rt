// Whether what a check would answer stands in the tables of RULES 7 and RULES 12.
ghost use Rattle.std.specs.Prelude.{◌≡◌, true, cond};
ghost use Rattle.text_words.specs.Bytes.{is_one_of};
ghost use Rattle.plan_meaning.specs.Listed.{plan_rows, listed_column, listed_row};
ghost use Rattle.check_meaning.specs.Listed.{listed_in_plan, listed_verdict};
ghost use Rattle.check_calls.specs.Calls.{answers_fit};

use happening_meaning::Outcome;
use plan_feeding::PlanProgress;

// The rows that any place of a plan line can have.
fn is_row(k: u8) -> bool
    ensures { result ≡ is_one_of k plan_rows }
{
    if k < 2 {
        return false;
    }
    if k <= 6 {
        return true;
    }
    if k < 8 {
        return false;
    }
    if k <= 10 {
        return true;
    }
    if k < 16 {
        return false;
    }
    k <= 18
}

// "14 plan line too long: column 257"
fn is_row_at(k: u8, column: usize) -> bool
    ensures { result ≡ listed_row k column }
{
    if k == 14 {
        return column == 257;
    }
    is_row(k)
}

fn is_column(column: usize) -> bool
    ensures { result ≡ listed_column column }
{
    if 1 <= column {
        return column <= 257;
    }
    false
}

// A plan refusal.
fn is_refusal(k: u8, line: usize, column: usize) -> bool
    ensures { result ≡ listed_in_plan k line column }
{
    if k == 15 {
        if line == 1000001 {
            return column == 1;
        }
        return false;
    }
    if plan_waiting::is_line(line) {
        if is_column(column) {
            return is_row_at(k, column);
        }
    }
    false
}

// What came of a plan.
fn is_verdict(o: Outcome) -> bool
    ensures { result ≡ listed_verdict o }
{
    match o {
        Outcome::Done => true,
        Outcome::Duration(l) => plan_waiting::is_line(l),
        Outcome::Condition(l) => plan_waiting::is_line(l),
        Outcome::Undefined(l) => l <= 1000000,
        Outcome::Range(l) => l <= 1000000,
        Outcome::Itself(l) => plan_waiting::is_line(l),
        Outcome::Conflict(l, m) => {
            if plan_waiting::is_line(l) {
                return plan_waiting::is_line(m);
            }
            false
        }
        Outcome::Invariant(l) => plan_waiting::is_line(l),
        Outcome::Goal => true,
    }
}

// A plan refusal that stands is one of the table.
fn standing_fits(p: PlanProgress) -> bool
    ensures { result ≡ cond p.refused (listed_in_plan p.refusal p.at p.column) true }
{
    let refused = p.refused;
    if refused {
        return is_refusal(p.refusal, p.at, p.column);
    }
    true
}

pub fn answers_fit(p: PlanProgress) -> bool
    ensures { result ≡ answers_fit p }
{
    if standing_fits(p) {
        let past = p.past;
        let outcome = past.outcome;
        if is_verdict(outcome) {
            return past.time < 2000000000000;
        }
    }
    false
}
