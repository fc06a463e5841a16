//! Names, dotted names, names of types, and strings.

ghost use Rattle.std.specs.Prelude.{◌≡◌, IfErr, IfOk, false};
ghost use Rattle.pq_syntax.specs.Grammar.{dotted, full, strs, type', type_from};
ghost use Rattle.pq_syntax.specs.Parts.{name_of, strings_of};
ghost use Rattle.pq_syntax.specs.Rule.Rule.{Single};
ghost use Rattle.pq_syntax.specs.aux.Steps.{Fails, Passes, Reads};
ghost use Rattle.pq_syntax.specs.Words.{is_version};

use crate::failure::Failure;
use crate::parser::context::Context;
use crate::parser::texts::{read_name, read_strings};
use crate::parser::tokens::{expect, looks_at, skip_if};
use crate::parts::{Name, Strings};
use crate::terminal::Terminal;
use pq_lex::Token;

/// Skips `{ "." ident }`.
pub(crate) fn skip_dotted<'a>(text: &str, tokens: &'a [Token]) -> Result<&'a [Token], Failure>
    ensures taken { IfOk result (λ rest. Passes text.now dotted tokens.now rest.now) }
    ensures fault { IfErr result (λ e. Fails text.now dotted tokens.now e) }
{
    let mut rest = tokens;
    while looks_at(text, rest, Terminal::Dot) {
        let (_, name) = expect(text, rest, Terminal::Dot)?;
        let (_, after) = expect(text, name, Terminal::AnyIdentifier)?;
        rest = after;
    }
    Ok(rest)
}

/// Skips a dotted name: `ident { "." ident }`.
pub(crate) fn skip_full<'a>(text: &str, tokens: &'a [Token]) -> Result<&'a [Token], Failure>
    ensures taken { IfOk result (λ rest. Passes text.now full tokens.now rest.now) }
    ensures fault { IfErr result (λ e. Fails text.now full tokens.now e) }
{
    let (_, rest) = expect(text, tokens, Terminal::AnyIdentifier)?;
    skip_dotted(text, rest)
}

/// Skips a type's name: `[ "." ] ident { "." ident }`.
pub(crate) fn skip_type<'a>(text: &str, tokens: &'a [Token]) -> Result<&'a [Token], Failure>
    ensures taken { IfOk result (λ rest. Passes text.now type' tokens.now rest.now) }
    ensures fault { IfErr result (λ e. Fails text.now type' tokens.now e) }
{
    skip_full(text, skip_if(text, tokens, Terminal::Dot))
}

/// Skips a type's name that begins with a dot or with a name that `terminal` accepts.
fn skip_type_from<'a>(
    text: &str,
    tokens: &'a [Token],
    terminal: Terminal,
) -> Result<&'a [Token], Failure>
    requires { is_version terminal ≡ false }
    ensures taken { IfOk result (λ rest. Passes text.now (type_from terminal) tokens.now rest.now) }
    ensures fault { IfErr result (λ e. Fails text.now (type_from terminal) tokens.now e) }
{
    if looks_at(text, tokens, Terminal::Dot) {
        let (_, rest) = expect(text, tokens, Terminal::Dot)?;
        return skip_full(text, rest);
    }
    let (_, rest) = expect(text, tokens, terminal)?;
    skip_dotted(text, rest)
}

/// Parses one name that `terminal` accepts.
pub(crate) fn parse_word<'a>(
    context: Context,
    tokens: &'a [Token],
    terminal: Terminal,
) -> Result<(Name, &'a [Token]), Failure>
    requires { is_version terminal ≡ false }
    ensures taken { IfOk result (λ x. Reads context.entry.text.now (Single terminal) name_of tokens.now x.1.now x.0) }
    ensures fault { IfErr result (λ e. Fails context.entry.text.now (Single terminal) tokens.now e) }
{
    let (_, rest) = expect(context.text, tokens, terminal)?;
    Ok((read_name(context.alloc, context.text, tokens, rest)?, rest))
}

/// Parses a dotted name: `ident { "." ident }`.
pub(crate) fn parse_full<'a>(
    context: Context,
    tokens: &'a [Token],
) -> Result<(Name, &'a [Token]), Failure>
    ensures taken { IfOk result (λ x. Reads context.entry.text.now full name_of tokens.now x.1.now x.0) }
    ensures fault { IfErr result (λ e. Fails context.entry.text.now full tokens.now e) }
{
    let rest = skip_full(context.text, tokens)?;
    Ok((read_name(context.alloc, context.text, tokens, rest)?, rest))
}

/// Parses a type's name: `[ "." ] ident { "." ident }`.
pub(crate) fn parse_type<'a>(
    context: Context,
    tokens: &'a [Token],
) -> Result<(Name, &'a [Token]), Failure>
    ensures taken { IfOk result (λ x. Reads context.entry.text.now type' name_of tokens.now x.1.now x.0) }
    ensures fault { IfErr result (λ e. Fails context.entry.text.now type' tokens.now e) }
{
    let rest = skip_type(context.text, tokens)?;
    Ok((read_name(context.alloc, context.text, tokens, rest)?, rest))
}

/// Parses a type's name that begins with a dot or with a name that `terminal` accepts.
#[inline(always)]
pub(crate) fn parse_type_from<'a>(
    context: Context,
    tokens: &'a [Token],
    terminal: Terminal,
) -> Result<(Name, &'a [Token]), Failure>
    requires { is_version terminal ≡ false }
    ensures taken { IfOk result (λ x. Reads context.entry.text.now (type_from terminal) name_of tokens.now x.1.now x.0) }
    ensures fault { IfErr result (λ e. Fails context.entry.text.now (type_from terminal) tokens.now e) }
{
    let rest = skip_type_from(context.text, tokens, terminal)?;
    Ok((read_name(context.alloc, context.text, tokens, rest)?, rest))
}

/// Skips strings side by side: `string { string }`.
pub(crate) fn skip_strings<'a>(text: &str, tokens: &'a [Token]) -> Result<&'a [Token], Failure>
    ensures taken { IfOk result (λ rest. Passes text.now strs tokens.now rest.now) }
    ensures fault { IfErr result (λ e. Fails text.now strs tokens.now e) }
{
    let (_, after) = expect(text, tokens, Terminal::AnyText)?;
    let mut rest = after;
    while looks_at(text, rest, Terminal::AnyText) {
        let (_, more) = expect(text, rest, Terminal::AnyText)?;
        rest = more;
    }
    Ok(rest)
}

/// Parses strings side by side, which are joined to one value.
pub(crate) fn parse_strings<'a>(
    context: Context,
    tokens: &'a [Token],
) -> Result<(Strings, &'a [Token]), Failure>
    ensures taken { IfOk result (λ x. Reads context.entry.text.now strs strings_of tokens.now x.1.now x.0) }
    ensures fault { IfErr result (λ e. Fails context.entry.text.now strs tokens.now e) }
{
    let rest = skip_strings(context.text, tokens)?;
    Ok((
        read_strings(context.alloc, context.text, tokens, rest)?,
        rest,
    ))
}
