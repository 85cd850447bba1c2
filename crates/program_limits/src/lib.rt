// Which limit refusal 12 is about, found from the text and the place that the checker gave. README.md says why these decide it.
#![tactic(auto)]

mod seen;
mod tally;

ghost use Rattle.std.specs.Prelude.{◌≡◌};
ghost use Rattle.program_limits.specs.Limits.{by_name, by_variable, by_head, by_sum, by_word, limit_at};

use crate::seen::Field;
use text_tokens::tokens;
use text_tokens::tokens::{Token, Word};

// The sizes that are refused by 12.
#[derive(Clone, Copy)]
pub enum Limit {
    Types,
    Objects,
    Predicates,
    PredicateArguments,
    Functions,
    FunctionArguments,
    Actions,
    Parameters,
    Conditions,
    Effects,
    GoalConditions,
    Expression,
    Brackets,
    Facts,
    Numbers,
}

// At a name or an operator that is in no expression.
fn by_name(field: Field) -> Option<Limit>
    ensures { result ≡ by_name field }
{
    match field {
        Field::Types => Some(Limit::Types),
        Field::Objects => Some(Limit::Objects),
        Field::Predicates => Some(Limit::Predicates),
        Field::Functions => Some(Limit::Functions),
        Field::Action => Some(Limit::Actions),
        Field::Condition => Some(Limit::Conditions),
        Field::Effect => Some(Limit::Effects),
        Field::Goal => Some(Limit::GoalConditions),
        Field::Parameters | Field::Other => None,
    }
}

fn by_variable(field: Field) -> Option<Limit>
    ensures { result ≡ by_variable field }
{
    match field {
        Field::Predicates => Some(Limit::PredicateArguments),
        Field::Functions => Some(Limit::FunctionArguments),
        Field::Parameters => Some(Limit::Parameters),
        _ => None,
    }
}

// At a name or an operator, within an expression or not.
fn by_head(field: Field, calculates: bool) -> Option<Limit>
    ensures { result ≡ by_head field calculates }
{
    if calculates {
        Some(Limit::Expression)
    } else {
        by_name(field)
    }
}

// At a keyword: facts and ground numbers are counted at the same one.
fn by_sum(numbers: bool) -> Limit
    ensures { result ≡ by_sum numbers }
{
    if numbers {
        Limit::Numbers
    } else {
        Limit::Facts
    }
}

fn by_word(word: Word, field: Field, calculates: bool, numbers: bool) -> Option<Limit>
    ensures { result ≡ by_word word field calculates numbers }
{
    match word {
        Word::Keyword => Some(by_sum(numbers)),
        Word::Variable => by_variable(field),
        Word::Name | Word::Operator => by_head(field, calculates),
    }
}

// At a token, after the last keyword `field`, within an expression if it `calculates`, with too many `numbers` or not; none where the checker never gives 12.
fn limit_at(t: Token, field: Field, calculates: bool, numbers: bool) -> Option<Limit>
    ensures { result ≡ limit_at t field calculates numbers }
{
    match t {
        Token::Open(_, _) => Some(Limit::Brackets),
        Token::Number(_, _, _) => Some(Limit::Expression),
        Token::Word(word, _, _) => by_word(word, field, calculates, numbers),
        _ => None,
    }
}

// The limit that a text passes which is refused by 12 at a place. The domain's text is given too, since the two sums are refused in the problem.
pub fn limit_of(domain: &[u8], text: &[u8], place: usize) -> Option<Limit> {
    let before = seen::before(text, place, 0);
    let whole = seen::before(domain, domain.len(), before.tally.objects);
    limit_at(
        tokens::token_at(text, place),
        before.field,
        before.calculating.is_some(),
        whole.tally.is_over(),
    )
}
