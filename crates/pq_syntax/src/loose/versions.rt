//! Whether a text is of another version of the language than proto3.
ghost use Rattle.std.specs.Prelude.{◌≡◌, IfOk};
ghost use Rattle.pq_syntax.specs.Loose.{is_at, is_other, is_versioned};
ghost use Rattle.pq_syntax.specs.Words.{accepts_class, word, words};
ghost use Rattle.pq_syntax.specs.Words.Class.{Valued};

use crate::Memory;
use crate::loose::sights::{begins_other, is_at, is_word_at};
use crate::terminal::{Terminal, same};
use pq_lex::{Kind, Token, text_value};
use std::alloc::Global;

/// Whether `token` is a string of the value `value`.
fn is_valued(alloc: Global, text: &str, token: Token, value: &[u8]) -> Result<bool, Memory>
    ensures { IfOk result (λ b. b ≡ accepts_class (Valued value.now) (word text.now token)) }
{
    if !matches!(token.kind, Kind::Text) {
        return Ok(false);
    }
    let spelled = text_value(alloc, text, &token)?;
    Ok(same(spelled.as_slice(), value))
}

/// Whether the token of the number `at` is a string of the value `value`.
fn is_valued_at(
    alloc: Global,
    text: &str,
    tokens: &[Token],
    at: usize,
    value: &[u8],
) -> Result<bool, Memory>
    ensures { IfOk result (λ b. b ≡ is_at (accepts_class (Valued value.now)) at (words text.now tokens.now)) }
{
    if at < tokens.len() {
        return is_valued(alloc, text, tokens[at], value);
    }
    Ok(false)
}

/// Whether `tokens` begin with `edition`, or with `syntax` and, in third place, a string of the
/// value proto2.
#[tactic(auto, unfolding(crate::specs::Loose::is_versioned))]
fn is_versioned(alloc: Global, text: &str, tokens: &[Token]) -> Result<bool, Memory>
    ensures { IfOk result (λ b. b ≡ is_versioned (words text.now tokens.now)) }
{
    if is_word_at(text, tokens, 0, b"edition") {
        return Ok(true);
    }
    if !is_at(text, tokens, 0, Terminal::SyntaxWord) {
        return Ok(false);
    }
    is_valued_at(alloc, text, tokens, 2, b"proto2")
}

/// Whether a text that begins with `tokens` is of another version than proto3.
#[tactic(auto, unfolding(crate::specs::Loose::is_other))]
pub(crate) fn is_other(alloc: Global, text: &str, tokens: &[Token]) -> Result<bool, Memory>
    ensures { IfOk result (λ b. b ≡ is_other (words text.now tokens.now)) }
{
    if begins_other(text, tokens) {
        return Ok(true);
    }
    if !is_at(text, tokens, 1, Terminal::Equals) || !is_at(text, tokens, 2, Terminal::AnyText) {
        return Ok(false);
    }
    is_versioned(alloc, text, tokens)
}
