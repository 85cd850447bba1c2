// How a condition begins: with a bracket and its head word, a comparison's counted where it stands.
ghost use Rattle.std.specs.Prelude.{ℕ, ◌-◌, ◌≤◌, ◌<◌, List, Bool, length};
ghost use Rattle.domain_meaning.specs.Read.{Reader, and_then};
ghost use Rattle.domain_meaning.specs.Terms.{Scope, Counted, counted, on_name};
ghost use Rattle.domain_meaning.specs.Conditions.{Cond, atom_at, operated};
ghost use Rattle.domain_conditions.specs.Begins.{comparison_of, compared, in_head, in_bracket, Begins, Inside, Placed};

use domain_due::Refusal;
use text_tokens::tokens;
use text_tokens::tokens::{Token, Word};
use text_words::fixed;
use text_words::fixed::HeadWord;

#[derive(Clone, Copy)]
pub enum ConditionHead {
    // `and`, `not`, or any other name: where it begins and where it ends
    And(usize, usize),
    Not(usize, usize),
    Atom(usize, usize),
    // a comparison: its number of five, where its word ends, and how many single conditions may follow
    Compared(usize, usize, usize),
}

// Comparison k, whose word stands from p to e.
fn comparison_of(k: usize, p: usize, e: usize, left: usize) -> Result<ConditionHead, Refusal>
    requires { (p < e) × (k ≤ 4) }
    ensures { ((s : List ℕ) (d : ℕ) (c : Scope) (yes : Bool) (f g : ℕ → ℕ → Reader (Counted Cond))
        → Begins s d c yes left f g result (and_then (counted p left e) (compared s d c yes (comparison_of k))))
        × Inside p e result }
{
    if left == 0 {
        return Err(Refusal(12, p));
    }
    Ok(ConditionHead::Compared(k, e, left - 1))
}

// What an operator begins, which stands from p to e.
fn operated_of(h: HeadWord, p: usize, e: usize, left: usize) -> Result<ConditionHead, Refusal>
    requires { p < e }
    ensures { ((s : List ℕ) (d : ℕ) (c : Scope) (yes : Bool) (f g : ℕ → ℕ → Reader (Counted Cond))
        → Begins s d c yes left f g result (operated s d c yes left h p e)) × Inside p e result }
{
    match h {
        HeadWord::Equal => comparison_of(0, p, e, left),
        HeadWord::Less => comparison_of(1, p, e, left),
        HeadWord::AtMost => comparison_of(2, p, e, left),
        HeadWord::More => comparison_of(3, p, e, left),
        HeadWord::AtLeast => comparison_of(4, p, e, left),
        _ => Err(Refusal(3, p)),
    }
}

// What a name begins, which stands from p to e.
fn named_of(h: HeadWord, p: usize, e: usize) -> Result<ConditionHead, Refusal>
    requires { p < e }
    ensures { ((s : List ℕ) (d : ℕ) (c : Scope) (yes : Bool) (n : ℕ) (f g : ℕ → ℕ → Reader (Counted Cond))
        → Begins s d c yes n f g result (on_name h (f p e) (g p e) (atom_at s d c yes n p e) e)) × Inside p e result }
{
    match h {
        HeadWord::And => Ok(ConditionHead::And(p, e)),
        HeadWord::Not => Ok(ConditionHead::Not(p, e)),
        _ => Ok(ConditionHead::Atom(p, e)),
    }
}

// What stands after a bracket.
fn head_at(text: &[u8], from: usize, d: usize, left: usize) -> Result<ConditionHead, Refusal>
    requires { from ≤ length text.now }
    ensures { ((c : Scope) (yes : Bool) (f g : ℕ → ℕ → Reader (Counted Cond))
        → Begins text.now d c yes left f g result (in_head text.now d c yes left f g from))
        × Inside from (length text.now) result }
{
    let t = tokens::token_at(text, from);
    let Token::Word(k, p, e) = t else {
        return Err(domain_due::not_due(t, d));
    };
    match k {
        Word::Name => named_of(fixed::head_of(tokens::word_of(text, t)), p, e),
        Word::Operator => operated_of(fixed::head_of(tokens::word_of(text, t)), p, e, left),
        Word::Variable | Word::Keyword => Err(Refusal(3, p)),
    }
}

// How a condition begins, where d levels of brackets are left.
pub fn begun_at(text: &[u8], from: usize, d: usize, left: usize) -> Result<ConditionHead, Refusal>
    requires { from ≤ length text.now }
    ensures { ((c : Scope) (yes : Bool) (f g : ℕ → ℕ → Reader (Counted Cond))
        → Begins text.now (d - 1) c yes left f g result (in_bracket text.now d c yes left f g from))
        × Placed from (length text.now) d result }
{
    let t = tokens::token_at(text, from);
    let Token::Open(_, next) = t else {
        return Err(domain_due::not_due(t, d));
    };
    if d == 0 {
        return Err(domain_due::not_due(t, d));
    }
    head_at(text, next, d - 1, left)
}
