// The next thing of a typed list: its end, a dash, or a name to declare.
ghost use Rattle.std.specs.Prelude.{◌≡◌, List, ℕ, ◌≤◌, ◌<◌, length};
ghost use Rattle.text_tokens.specs.Runs.{part};
ghost use Rattle.domain_meaning.specs.Lists.{item_of, item};
ghost use Rattle.domain_typed_lists.specs.Items.{item_for};

use domain_due::Refusal;
use text_tokens::tokens;
use text_tokens::tokens::{Token, Word};
use text_words::{fixed, spelling};

#[derive(Clone, Copy)]
pub enum Item {
    // the place after the closing bracket
    Close(usize),
    // a dash's place and the place after it
    Dash(usize, usize),
    // where it stands, where the name begins (after a variable's mark) and ends
    Name(usize, usize, usize),
}

// A word w of a list, which stands from p to e; of a list of variables: `var`.
fn item_of(w: &[u8], var: bool, k: Word, p: usize, e: usize) -> Result<Item, Refusal>
    requires { p < e }
    ensures { (s : List ℕ) → w.now ≡ part s p e → result ≡ item_for var (item_of s var k p e e) }
{
    match k {
        Word::Name => {
            if var {
                return Err(Refusal(3, p));
            }
            if fixed::is_reserved(w) {
                return Err(Refusal(3, p));
            }
            Ok(Item::Name(p, p, e))
        }
        Word::Variable => {
            if var {
                return Ok(Item::Name(p, p + 1, e));
            }
            Err(Refusal(3, p))
        }
        Word::Keyword => Err(Refusal(3, p)),
        Word::Operator => {
            if spelling::same_word(w, b"-") {
                return Ok(Item::Dash(p, e));
            }
            Err(Refusal(3, p))
        }
    }
}

pub fn item_at(text: &[u8], from: usize, var: bool) -> Result<Item, Refusal>
    requires { from ≤ length text.now }
    ensures { result ≡ item_for var (item text.now var from) }
{
    let t = tokens::token_at(text, from);
    if let Token::Close(_, next) = t {
        return Ok(Item::Close(next));
    }
    let Token::Word(k, p, e) = t else {
        return Err(domain_due::not_due(t, 13));
    };
    item_of(tokens::word_of(text, t), var, k, p, e)
}
