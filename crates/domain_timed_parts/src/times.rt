// When a part holds or happens: "`at start`, `over all` (conditions only) or `at end`".
ghost use Rattle.std.specs.Prelude.{◌≡◌, ◌≤◌, length};
ghost use Rattle.domain_due.specs.Answers.{Ahead};
ghost use Rattle.domain_meaning.specs.Actions.{time_of};
ghost use Rattle.domain_timed_parts.specs.Times.{when_answer, behind_at, behind_over};

use domain_due::{Parsed, Refusal};
use text_tokens::tokens::Token;
use text_tokens::{runs, tokens};
use text_words::spelling;

// After `at`: the cell of `start` or `end`.
fn behind_at(text: &[u8], from: usize, d: usize) -> Parsed
    requires { from ≤ length text.now }
    ensures { (result ≡ when_answer (behind_at text.now d from)) × Ahead (length text.now) from result }
{
    let t = tokens::token_at(text, from);
    let Token::Word(_, p, e) = t else {
        return Err(domain_due::not_due(t, d));
    };
    if spelling::same_word(tokens::word_of(text, t), b"start") {
        return Ok((e, 1));
    }
    if spelling::same_word(tokens::word_of(text, t), b"end") {
        return Ok((e, 3));
    }
    Err(Refusal(3, p))
}

// After `over`: the cell of `all`.
fn behind_over(text: &[u8], from: usize, d: usize) -> Parsed
    requires { from ≤ length text.now }
    ensures { (result ≡ when_answer (behind_over text.now d from)) × Ahead (length text.now) from result }
{
    let (after, _) = domain_due::word_due(text, from, d, b"all")?;
    Ok((after, 2))
}

// The cell of the time of a part whose first word stands from p to e.
pub fn time_of(text: &[u8], p: usize, e: usize, d: usize, over: bool) -> Parsed
    requires { e ≤ length text.now }
    ensures { (result ≡ when_answer (time_of text.now d over p e e)) × Ahead (length text.now) e result }
{
    if spelling::same_word(runs::part_of(text, p, e), b"at") {
        return behind_at(text, e, d);
    }
    if over {
        if spelling::same_word(runs::part_of(text, p, e), b"over") {
            return behind_over(text, e, d);
        }
    }
    Err(Refusal(3, p))
}
