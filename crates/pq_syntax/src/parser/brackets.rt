//! Balanced tokens: the bodies of aggregates and of extend blocks. Their tokens are skipped.
//!
//! `levels` counts how many levels of brackets may pair up within the outermost pair.

ghost use Rattle.std.specs.Prelude.{◌≡◌, IfErr, IfOk, IfSome, IfNone, false};
ghost use Rattle.pq_syntax.specs.Grammar.{balanced, block, nested, paired_by};
ghost use Rattle.pq_syntax.specs.aux.Steps.{Fails, FailsWithin, Passes, PassesFrom};
ghost use Rattle.pq_syntax.specs.aux.Takes.{starts_at};
ghost use Rattle.pq_syntax.specs.Words.{accepts, is_version, words};

use crate::failure::Failure;
use crate::parser::tokens::{expect, looks_at};
use crate::terminal::Terminal;
use crate::terminal::Terminal::{
    CloseBrace, CloseBracket, CloseParenthesis, OpenBrace, OpenBracket, OpenParenthesis, Plain,
};
use pq_lex::Token;

/// Skips `opening`, balanced tokens with `levels` levels of brackets, and `closing`.
#[cycle(brackets)]
fn skip_pair<'a>(
    text: &str,
    tokens: &'a [Token],
    opening: Terminal,
    closing: Terminal,
    levels: u8,
) -> Result<&'a [Token], Failure>
    requires opens { is_version opening ≡ false }
    requires closes { is_version closing ≡ false }
    ensures taken { IfOk result (λ rest. Passes text.now (paired_by opening closing levels) tokens.now rest.now) }
    ensures fault { IfErr result (λ e. Fails text.now (paired_by opening closing levels) tokens.now e) }
{
    let (_, rest) = expect(text, tokens, opening)?;
    let rest = skip_balanced(text, rest, levels)?;
    let (_, rest) = expect(text, rest, closing)?;
    Ok(rest)
}

/// Skips one item of balanced tokens: a token that is no bracket, or a pair of brackets with what
/// it holds. Returns `None` where neither begins. At zero levels no pair of brackets begins.
#[cycle(brackets)]
fn skip_nested<'a>(
    text: &str,
    tokens: &'a [Token],
    levels: u8,
) -> Result<Option<&'a [Token]>, Failure>
    ensures taken { IfOk result (λ found. IfSome found (λ rest. PassesFrom text.now (nested levels) tokens.now rest.now)) }
    ensures none { IfOk result (λ found. IfNone found (starts_at accepts (nested levels) (words text.now tokens.now) ≡ false)) }
    ensures fault { IfErr result (λ e. FailsWithin text.now (nested levels) tokens.now e) }
{
    if looks_at(text, tokens, Plain) {
        return Ok(Some(&tokens[1..]));
    }
    if levels == 0 {
        return Ok(None);
    }
    let within = levels - 1;
    if looks_at(text, tokens, OpenBrace) {
        let rest = skip_pair(text, tokens, OpenBrace, CloseBrace, within)?;
        return Ok(Some(rest));
    }
    if looks_at(text, tokens, OpenBracket) {
        let rest = skip_pair(text, tokens, OpenBracket, CloseBracket, within)?;
        return Ok(Some(rest));
    }
    if looks_at(text, tokens, OpenParenthesis) {
        let rest = skip_pair(text, tokens, OpenParenthesis, CloseParenthesis, within)?;
        return Ok(Some(rest));
    }
    Ok(None)
}

/// Skips balanced tokens with `levels` levels of brackets.
#[cycle(brackets)]
fn skip_balanced<'a>(text: &str, tokens: &'a [Token], levels: u8) -> Result<&'a [Token], Failure>
    ensures taken { IfOk result (λ rest. Passes text.now (balanced levels) tokens.now rest.now) }
    ensures fault { IfErr result (λ e. Fails text.now (balanced levels) tokens.now e) }
{
    let mut rest = tokens;
    while let Some(after) = skip_nested(text, rest, levels)? {
        rest = after;
    }
    Ok(rest)
}

/// Skips `"{" balanced "}"`, with `levels` levels of brackets within the braces.
pub(crate) fn skip_block<'a>(
    text: &str,
    tokens: &'a [Token],
    levels: u8,
) -> Result<&'a [Token], Failure>
    ensures taken { IfOk result (λ rest. Passes text.now (block levels) tokens.now rest.now) }
    ensures fault { IfErr result (λ e. Fails text.now (block levels) tokens.now e) }
{
    skip_pair(text, tokens, OpenBrace, CloseBrace, levels)
}
