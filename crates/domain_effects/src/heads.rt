// How an effect begins: a bracket, and what its head word says.
ghost use Rattle.std.specs.Prelude.{ℕ, ◌+◌, ◌-◌, ◌≤◌, ◌<◌, List, length};
ghost use Rattle.domain_meaning.specs.Read.{Reader};
ghost use Rattle.domain_meaning.specs.Terms.{Scope, Counted};
ghost use Rattle.domain_meaning.specs.Effects.{Effect, effect_head, effect};
ghost use Rattle.domain_effects.specs.Leads.{in_bracket, Leads, Inside};

use domain_due::Refusal;
use text_tokens::tokens;
use text_tokens::tokens::{Token, Word};
use text_words::fixed;
use text_words::fixed::HeadWord;

#[derive(Clone, Copy)]
pub enum EffectHead {
    // `and`: where it ends
    All(usize),
    // `not`: where it ends
    Not(usize),
    // a change of a number: its cell, where the word begins and where it ends
    Change(usize, usize, usize),
    // a fact: where its name begins and where it ends
    Fact(usize, usize),
}

// What a name as head word from p to e says.
fn led_by(h: HeadWord, p: usize, e: usize) -> Result<EffectHead, Refusal>
    requires { p < e }
    ensures { ((s : List ℕ) (d : ℕ) (c : Scope) (f : ℕ → Reader (Counted (List Effect))) (n : ℕ) → Leads s d c f n result (effect_head s d c f n h p e e))
        × Inside (p + 1) e 1 result }
{
    match h {
        HeadWord::And => Ok(EffectHead::All(e)),
        HeadWord::Not => Ok(EffectHead::Not(e)),
        HeadWord::Assign => Ok(EffectHead::Change(12, p, e)),
        HeadWord::Increase => Ok(EffectHead::Change(15, p, e)),
        HeadWord::Decrease => Ok(EffectHead::Change(18, p, e)),
        _ => Ok(EffectHead::Fact(p, e)),
    }
}

// What stands after a bracket.
fn head_at(text: &[u8], from: usize, d: usize) -> Result<EffectHead, Refusal>
    requires { from ≤ length text.now }
    ensures { ((c : Scope) (f : ℕ → Reader (Counted (List Effect))) (n : ℕ)
        → Leads text.now d c f n result (in_bracket text.now d c f n from))
        × Inside (from + 1) (length text.now) 1 result }
{
    let t = tokens::token_at(text, from);
    let Token::Word(k, p, e) = t else {
        return Err(domain_due::not_due(t, d));
    };
    let Word::Name = k else {
        return Err(Refusal(3, p));
    };
    led_by(fixed::head_of(tokens::word_of(text, t)), p, e)
}

// How an effect begins, where d levels of brackets are left.
pub fn begun_at(text: &[u8], from: usize, d: usize) -> Result<EffectHead, Refusal>
    requires { from ≤ length text.now }
    ensures { ((c : Scope) (n : ℕ)
        → Leads text.now (d - 1) c (effect (d - 1) text.now c) n result (effect d text.now c n from))
        × Inside (from + 2) (length text.now) d result }
{
    let t = tokens::token_at(text, from);
    let Token::Open(_, next) = t else {
        return Err(domain_due::not_due(t, d));
    };
    if d == 0 {
        return Err(domain_due::not_due(t, d));
    }
    head_at(text, next, d - 1)
}
