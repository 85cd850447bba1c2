// A type, where one is due: its number in a table of types.
ghost use Rattle.std.specs.Prelude.{◌≡◌, ℕ, ◌≤◌, length};
ghost use Rattle.text_tokens.specs.Tokens.{token_at};
ghost use Rattle.domain_meaning.specs.Due.{on_open, wrong};
ghost use Rattle.domain_meaning.specs.Tables.{Table};
ghost use Rattle.domain_meaning.specs.Lists.{type_of_other, type_due};
ghost use Rattle.domain_due.specs.Answers.{answer_of, Ahead};
ghost use Rattle.domain_rows.specs.Held.{Holds};
ghost use Rattle.domain_typed_lists.specs.Outcome.{Below};

use domain_due::{Parsed, Refusal};
use text_tokens::tokens;
use text_tokens::tokens::{Token, Word};
use text_words::names;

// The token at `from`, which is no word, is refused: there is no number to answer.
fn no_word(text: &[u8], from: usize) -> Parsed
    requires { from ≤ length text.now }
    ensures { ((at : ℕ)
        → result ≡ answer_of (on_open (token_at text.now from) (type_of_other text.now) (wrong 13 (token_at text.now from)) at))
        × Below 0 result }
{
    let t = tokens::token_at(text, from);
    let Token::Open(p, _) = t else {
        return Err(domain_due::not_due(t, 13));
    };
    let Some((q, _)) = tokens::spot_at(text, p + 1, b"either") else {
        return Err(Refusal(3, p));
    };
    Err(Refusal(11, q))
}

// The number of the type that is named next, one of the first b of the n in the table.
pub fn type_due(text: &[u8], from: usize, rows: &[u8], n: usize, b: usize) -> Parsed
    requires { from ≤ length text.now }
    ensures { ((m : ℕ) (t : Table) → Holds m rows.now n t → result ≡ answer_of (type_due text.now t b from))
        × Ahead (length text.now) from result × Below b result }
{
    let t = tokens::token_at(text, from);
    let Token::Word(k, p, e) = t else {
        return no_word(text, from);
    };
    let Word::Name = k else {
        return Err(Refusal(3, p));
    };
    let Some(i) = names::find(rows, n, tokens::word_of(text, t)) else {
        return Err(Refusal(8, p));
    };
    if b <= i {
        return Err(Refusal(8, p));
    }
    Ok((e, i))
}
