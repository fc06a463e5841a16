//! What the tokens taken stand for: their span, their text, their values. The tokens taken are
//! those of `tokens` before `rest`.

ghost use Rattle.std.specs.Prelude.{◌≡◌, ◌≤◌, ◌++◌, List, ℕ, Some, length, true, IfOk};
ghost use Rattle.std.specs.Str.Lossy.{utf8_lossy};
ghost use Rattle.pq_lex.specs.declared.token.Span.{Span};
ghost use Rattle.pq_lex.specs.Values.{spelling, text_value_of};
ghost use Rattle.pq_syntax.specs.Yield.{yield_of};
ghost use Rattle.pq_syntax.specs.Parts.{joined, name_of, number_of, spaced, span_across, strings_of, values};
ghost use Rattle.pq_syntax.specs.Rule.{Parse};
ghost use Rattle.pq_syntax.specs.Rule.Parse.{Leaf};
ghost use Rattle.pq_syntax.specs.Words.{Word, is_integer, word, words};

use crate::Memory;
use crate::parts::{Items, Name, Number, Strings};
use crate::terminal::spelling;
use pq_lex::{Kind, Span, Token, integer_value, text_value};
use pq_names::Text;
use std::alloc::Global;

/// The span from the first of the tokens taken to the last.
pub(crate) fn across(tokens: &[Token], rest: &[Token]) -> Span
    ensures { (text : List ℕ) (ws : List Word) → words text tokens.now ≡ ws ++ words text rest.now → result ≡ span_across ws }
{
    if tokens.len() <= rest.len() {
        return Span { start: 0, end: 0 };
    }
    let last = tokens[tokens.len() - rest.len() - 1];
    Span {
        start: tokens[0].span.start,
        end: last.span.end,
    }
}

/// The tokens taken.
fn taken<'a>(tokens: &'a [Token], rest: &[Token]) -> &'a [Token]
    ensures { (text : List ℕ) (ws : List Word) → words text tokens.now ≡ ws ++ words text rest.now → words text result.now ≡ ws }
{
    &tokens[..tokens.len().saturating_sub(rest.len())]
}

/// The spellings of the tokens, with nothing between them.
fn joined(alloc: Global, text: &str, tokens: &[Token]) -> Result<Vec<u8>, Memory>
    ensures { IfOk result (λ bytes. bytes.items ≡ joined (words text.now tokens.now)) }
{
    let mut bytes = Vec::new(alloc);
    for token in tokens {
        bytes.extend_from_slice(spelling(text, token.span))?;
    }
    Ok(bytes)
}

/// The spellings of the tokens, with one space between them.
fn spaced(alloc: Global, text: &str, tokens: &[Token]) -> Result<Vec<u8>, Memory>
    ensures { IfOk result (λ bytes. bytes.items ≡ spaced (words text.now tokens.now)) }
{
    let mut bytes = Vec::new(alloc);
    if tokens.is_empty() {
        return Ok(bytes);
    }
    bytes.extend_from_slice(spelling(text, tokens[0].span))?;
    for token in &tokens[1..] {
        bytes.push(b' ')?;
        bytes.extend_from_slice(spelling(text, token.span))?;
    }
    Ok(bytes)
}

/// The text of one token as written. A span that begins and ends between characters is copied
/// without a look at its bytes.
fn read_spelling(alloc: Global, text: &str, span: Span) -> Result<Text, Memory>
    ensures { IfOk result (λ t. t ≡ utf8_lossy (spelling text.now span)) }
{
    let start = span.start;
    let end = span.end;
    if start <= end && text.is_char_boundary(start) && text.is_char_boundary(end) {
        return Text::new(alloc, &text[start..end]);
    }
    Text::from_string(alloc, String::from_utf8_lossy(alloc, spelling(text, span))?)
}

/// The span of the tokens, if each begins where the one before it ends, in order. In that span a
/// text has their spellings with nothing between them.
fn side_by_side(tokens: &[Token]) -> Option<Span>
    ensures { (text : List ℕ) (whole : Span) → result ≡ Some whole → whole.end ≤ length text → joined (words text tokens.now) ≡ spelling text whole }
{
    if tokens.is_empty() {
        return None;
    }
    let start = tokens[0].span.start;
    let mut end = start;
    for token in tokens {
        if token.span.start != end || token.span.end < end {
            return None;
        }
        end = token.span.end;
    }
    Some(Span { start, end })
}

/// The text of the tokens taken as written, with nothing between them.
pub(crate) fn read_joined(
    alloc: Global,
    text: &str,
    tokens: &[Token],
    rest: &[Token],
) -> Result<Text, Memory>
    ensures { IfOk result (λ t. (ws : List Word) → words text.now tokens.now ≡ ws ++ words text.now rest.now → t ≡ utf8_lossy (joined ws)) }
{
    let taken = taken(tokens, rest);
    if let Some(whole) = side_by_side(taken) {
        if whole.end <= text.len() {
            return read_spelling(alloc, text, whole);
        }
    }
    let bytes = joined(alloc, text, taken)?;
    Text::from_string(alloc, String::from_utf8_lossy(alloc, bytes.as_slice())?)
}

/// The text of the tokens taken as written, with one space between them.
pub(crate) fn read_spaced(
    alloc: Global,
    text: &str,
    tokens: &[Token],
    rest: &[Token],
) -> Result<Text, Memory>
    ensures { IfOk result (λ t. (ws : List Word) → words text.now tokens.now ≡ ws ++ words text.now rest.now → t ≡ utf8_lossy (spaced ws)) }
{
    let taken = taken(tokens, rest);
    if taken.len() == 1 {
        return read_spelling(alloc, text, taken[0].span);
    }
    let bytes = spaced(alloc, text, taken)?;
    Text::from_string(alloc, String::from_utf8_lossy(alloc, bytes.as_slice())?)
}

/// The name that the tokens taken spell.
pub(crate) fn read_name(
    alloc: Global,
    text: &str,
    tokens: &[Token],
    rest: &[Token],
) -> Result<Name, Memory>
    ensures { IfOk result (λ n. (p : Parse Word) → words text.now tokens.now ≡ yield_of p ++ words text.now rest.now → n ≡ name_of p) }
{
    Ok(Name {
        text: read_joined(alloc, text, tokens, rest)?,
        span: across(tokens, rest),
    })
}

/// The value of the string that `span` spells.
fn value_of(alloc: Global, text: &str, span: Span) -> Result<Vec<u8>, Memory>
    ensures { IfOk result (λ bytes. bytes.items ≡ text_value_of (spelling text.now span)) }
{
    let string = Token {
        kind: Kind::Text,
        span,
    };
    text_value(alloc, text, &string)
}

/// The values of the tokens, joined.
fn joined_values(alloc: Global, text: &str, tokens: &[Token]) -> Result<Vec<u8>, Memory>
    ensures { IfOk result (λ bytes. bytes.items ≡ values (words text.now tokens.now)) }
{
    if tokens.len() == 1 {
        return value_of(alloc, text, tokens[0].span);
    }
    let mut bytes = Vec::new(alloc);
    for token in tokens {
        bytes.extend_from_slice(value_of(alloc, text, token.span)?.as_slice())?;
    }
    Ok(bytes)
}

/// The joined value of the strings taken, and their span.
pub(crate) fn read_strings(
    alloc: Global,
    text: &str,
    tokens: &[Token],
    rest: &[Token],
) -> Result<Strings, Memory>
    ensures { IfOk result (λ s. (p : Parse Word) → words text.now tokens.now ≡ yield_of p ++ words text.now rest.now → s ≡ strings_of p) }
{
    let value = joined_values(alloc, text, taken(tokens, rest))?;
    Ok(Strings {
        value: Items::new(value),
        span: across(tokens, rest),
    })
}

/// The integer that `token` spells.
pub(crate) fn read_number(text: &str, token: Token) -> Number
    requires { is_integer token.kind ≡ true }
    ensures { result ≡ number_of (Leaf (word text.now token)) }
{
    Number {
        negative: false,
        value: integer_value(text, &token),
        span: token.span,
    }
}
