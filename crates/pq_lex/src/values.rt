//! The values of tokens: the number that an integer writes, and the bytes that a string means.
//! Each takes time linear in the token's spelling.
ghost use Rattle.std.specs.Prelude.{◌≡◌, ◌++◌, ◌<◌, [], IfOk, None, length};
ghost use Rattle.pq_lex.specs.Escapes.{meaning_bytes};
ghost use Rattle.pq_lex.specs.Values.{spelling, integer_value_of, text_value_of};

use crate::Memory;
use crate::bytes::byte_at;
use crate::escapes::{Meaning, escape_at, number};
use crate::numbers::is_x;
use crate::strings::is_plain;
use crate::token::{Kind, Span, Token};
use std::alloc::Global;

/// The bytes of `text` in `span`: empty if `span` does not lie in `text`.
fn spelling(text: &str, span: Span) -> &[u8]
    ensures { result.now ≡ spelling text.now span }
{
    let bytes = text.as_bytes();
    if span.start <= span.end && span.end <= bytes.len() {
        &bytes[span.start..span.end]
    } else {
        &[]
    }
}

/// The value of an integer that is spelled `word`, or `None` past 64 bits.
#[tactic(auto, unfolding(crate::specs::Values::integer_value_of))]
fn integer_value_of(word: &[u8]) -> Option<u64>
    ensures { result ≡ integer_value_of word.now }
{
    if byte_at(word, 0) != b'0' {
        number(10, word, 0, word.len())
    } else if is_x(byte_at(word, 1)) {
        number(16, word, 2, word.len())
    } else {
        number(8, word, 1, word.len())
    }
}

/// Returns the value of `token`, an integer of `text`: `None` past 64 bits, and for a token of
/// another kind.
/// (proto3 language specification, "Integer literals".)
pub fn integer_value(text: &str, token: &Token) -> Option<u64>
    // `integer`, `other`: The number that an integer token spells, `None` past 64 bits and for
    // another kind.
    ensures integer { token.now.kind ≡ Kind.Integer → result ≡ integer_value_of (spelling text.now token.now.span) }
    ensures other { (token.now.kind ≡ Kind.Integer → ⊥) → result ≡ None }
{
    match token.kind {
        Kind::Integer => integer_value_of(spelling(text, token.span)),
        _ => None,
    }
}

/// Appends the bytes that `meaning` adds to a string.
fn push_meaning(value: &mut Vec<u8>, meaning: Meaning) -> Result<(), Memory>
    ensures { IfOk result (λ _. value.new.items ≡ value.old.items ++ meaning_bytes meaning) }
{
    match meaning {
        Meaning::Byte(b) => value.push(b)?,
        Meaning::Scalar(c) => {
            let Some(c) = char::from_u32(c) else {
                return Ok(())
            };
            let mut room = [0u8; 4];
            value.extend_from_slice(c.encode_utf8(&mut room).as_bytes())?;
        }
    }
    Ok(())
}

/// The bytes that the string spelled `word` means.
fn text_value_of(alloc: Global, word: &[u8]) -> Result<Vec<u8>, Memory>
    ensures { IfOk result (λ v. v.items ≡ text_value_of word.now) }
{
    let quote = byte_at(word, 0);
    let mut value = Vec::with_capacity(alloc, word.len())?;
    let mut at = 1;
    while at < word.len() {
        let b = word[at];
        if b == b'\\' {
            let Some(escape) = escape_at(word, at) else {
                return Ok(value)
            };
            push_meaning(&mut value, escape.meaning)?;
            at = escape.end;
        } else if is_plain(quote, b) {
            value.push(b)?;
            at += 1;
        } else {
            return Ok(value);
        }
    }
    Ok(value)
}

/// Returns the bytes that `token`, a string of `text`, means: empty for a token of another kind.
/// The one error is an allocation failure.
/// (proto3 language specification, "String literals".)
pub fn text_value(alloc: Global, text: &str, token: &Token) -> Result<Vec<u8>, Memory>
    // `string`, `other`: The bytes that a string token spells, its escapes decoded; empty for
    // another kind.
    ensures string { token.now.kind ≡ Kind.Text → IfOk result (λ v. v.items ≡ text_value_of (spelling text.now token.now.span)) }
    ensures other { (token.now.kind ≡ Kind.Text → ⊥) → IfOk result (λ v. v.items ≡ []) }
{
    match token.kind {
        Kind::Text => text_value_of(alloc, spelling(text, token.span)),
        _ => Ok(Vec::new(alloc)),
    }
}
