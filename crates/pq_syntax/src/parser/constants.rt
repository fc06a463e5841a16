//! Constants of options (proto3 language specification, "Constant").

ghost use Rattle.std.specs.Prelude.{◌≡◌, IfErr, IfOk};
ghost use Rattle.pq_syntax.specs.Grammar.{constant, unsigned};
ghost use Rattle.pq_syntax.specs.Parts.{constant_of, is_spaced, kind_of, unsigned_kind};
ghost use Rattle.pq_syntax.specs.aux.Steps.{Fails, Reads};

use crate::failure::Failure;
use crate::parser::brackets::skip_block;
use crate::parser::context::Context;
use crate::parser::names::{skip_full, skip_strings};
use crate::parser::texts::{across, read_joined, read_spaced};
use crate::parser::tokens::{expect, looks_at};
use crate::parts::{Constant, ConstantKind};
use crate::terminal::Terminal;
use pq_lex::Token;

/// Skips what may follow a sign, `integer | float | "inf" | "nan"`, and returns its kind.
fn skip_unsigned<'a>(
    text: &str,
    tokens: &'a [Token],
) -> Result<(ConstantKind, &'a [Token]), Failure>
    ensures taken { IfOk result (λ x. Reads text.now unsigned unsigned_kind tokens.now x.1.now x.0) }
    ensures fault { IfErr result (λ e. Fails text.now unsigned tokens.now e) }
{
    if looks_at(text, tokens, Terminal::AnyInteger) {
        let (_, rest) = expect(text, tokens, Terminal::AnyInteger)?;
        return Ok((ConstantKind::Integer, rest));
    }
    if looks_at(text, tokens, Terminal::AnyFloat) {
        let (_, rest) = expect(text, tokens, Terminal::AnyFloat)?;
        return Ok((ConstantKind::Float, rest));
    }
    let (_, rest) = expect(text, tokens, Terminal::InfOrNan)?;
    Ok((ConstantKind::Float, rest))
}

/// Skips a constant, and returns its kind.
fn skip_constant<'a>(
    context: Context,
    tokens: &'a [Token],
) -> Result<(ConstantKind, &'a [Token]), Failure>
    ensures taken { IfOk result (λ x. Reads context.entry.text.now (constant context.entry.brackets) kind_of tokens.now x.1.now x.0) }
    ensures fault { IfErr result (λ e. Fails context.entry.text.now (constant context.entry.brackets) tokens.now e) }
{
    if looks_at(context.text, tokens, Terminal::AnyIdentifier) {
        return Ok((ConstantKind::Identifier, skip_full(context.text, tokens)?));
    }
    if looks_at(context.text, tokens, Terminal::Minus) {
        let (_, rest) = expect(context.text, tokens, Terminal::Minus)?;
        return skip_unsigned(context.text, rest);
    }
    if looks_at(context.text, tokens, Terminal::Plus) {
        let (_, rest) = expect(context.text, tokens, Terminal::Plus)?;
        return skip_unsigned(context.text, rest);
    }
    if looks_at(context.text, tokens, Terminal::AnyInteger) {
        let (_, rest) = expect(context.text, tokens, Terminal::AnyInteger)?;
        return Ok((ConstantKind::Integer, rest));
    }
    if looks_at(context.text, tokens, Terminal::AnyFloat) {
        let (_, rest) = expect(context.text, tokens, Terminal::AnyFloat)?;
        return Ok((ConstantKind::Float, rest));
    }
    if looks_at(context.text, tokens, Terminal::AnyText) {
        return Ok((ConstantKind::Text, skip_strings(context.text, tokens)?));
    }
    Ok((
        ConstantKind::Aggregate,
        skip_block(context.text, tokens, context.brackets)?,
    ))
}

/// Whether the text of a constant of this kind has a space between its tokens.
fn is_spaced(kind: ConstantKind) -> bool
    ensures { result ≡ is_spaced kind }
{
    matches!(kind, ConstantKind::Text | ConstantKind::Aggregate)
}

/// Parses a constant: its kind, its text and its span.
pub(crate) fn parse_constant<'a>(
    context: Context,
    tokens: &'a [Token],
) -> Result<(Constant, &'a [Token]), Failure>
    ensures taken { IfOk result (λ x. Reads context.entry.text.now (constant context.entry.brackets) constant_of tokens.now x.1.now x.0) }
    ensures fault { IfErr result (λ e. Fails context.entry.text.now (constant context.entry.brackets) tokens.now e) }
{
    let (kind, rest) = skip_constant(context, tokens)?;
    let said = if is_spaced(kind) {
        read_spaced(context.alloc, context.text, tokens, rest)?
    } else {
        read_joined(context.alloc, context.text, tokens, rest)?
    };
    let span = across(tokens, rest);
    Ok((
        Constant {
            kind,
            text: said,
            span,
        },
        rest,
    ))
}
