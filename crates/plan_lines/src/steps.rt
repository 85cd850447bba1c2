// A plan line, whole: "One step a line: `start: (action objects) [duration]`, the bracket for durative actions only."
ghost use Rattle.std.specs.Prelude.{◌≡◌};
ghost use Rattle.domain_meaning.specs.Due.{after_of};
ghost use Rattle.plan_meaning.specs.Lines.{line_at};
ghost use Rattle.plan_lines.specs.Knowing.{Tabled, Headed, known_in};
ghost use Rattle.plan_lines.specs.Reading.{Small};
ghost use Rattle.plan_lines.specs.Steps.{step_from, Stepped, Lined};

use crate::{known, reading};
use domain_due::Refusal;
use domain_terms::scope::Counts;
use plan_meaning::{Line, Step};
use text_tokens::tokens;
use text_tokens::tokens::Token;

// The step of a line whose first token is t.
fn step_from<'a>(
    text: &'a [u8],
    t: Token,
    tables: &'a [u8],
    counts: Counts,
    heads: &'a [u8],
    acting: usize,
    rows: &'a [u8],
    number: usize,
    before: usize,
) -> Result<Step, Refusal>
    requires { Tabled tables.now counts × Headed heads.now acting × Small t }
    ensures { Stepped acting result (step_from text.now
        (known_in tables.now counts heads.now acting rows.now) number before t (after_of t)) }
{
    let (next, start) = reading::start_at(t, before)?;
    let (colon, _) = reading::mark_due(text, next, b':')?;
    let (open, _) = reading::opening_due(text, colon)?;
    let (named, action) = reading::action_at(text, open, heads, acting)?;
    let mut objects = [0u8; 4];
    let (given, _) = reading::objects_at(
        text,
        named,
        tables,
        counts,
        heads,
        acting,
        rows,
        action,
        &mut objects,
    )?;
    let (_, duration) = reading::span_at(text, given, known::is_lasting(rows, action))?;
    Ok(Step {
        line: number,
        start,
        duration,
        action,
        a: objects[0],
        b: objects[1],
        c: objects[2],
        d: objects[3],
        width: text.len(),
    })
}

// Line `number`, `before` being the previous step's start.
pub fn line_at<'a>(
    text: &'a [u8],
    tables: &'a [u8],
    counts: Counts,
    heads: &'a [u8],
    acting: usize,
    rows: &'a [u8],
    number: usize,
    before: usize,
) -> Line
    requires { Tabled tables.now counts × Headed heads.now acting }
    ensures { Lined acting result (line_at text.now
        (known_in tables.now counts heads.now acting rows.now) number before 0) }
{
    let t = tokens::plan_token_at(text, 0);
    if let Token::End(_) = t {
        return Line::Blank;
    }
    match step_from(text, t, tables, counts, heads, acting, rows, number, before) {
        Ok(x) => Line::Read(x),
        Err(Refusal(k, p)) => Line::Refused(k, p),
    }
}
