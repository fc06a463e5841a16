//! One token: whether a terminal accepts it, and taking it.

ghost use Rattle.std.specs.Prelude.{◌≡◌, IfErr, IfOk, false};
ghost use Rattle.pq_syntax.specs.Grammar.{opt, type_from};
ghost use Rattle.pq_syntax.specs.Rule.Rule.{Single};
ghost use Rattle.pq_syntax.specs.aux.Steps.{Fails, Passes, TakesToken};
ghost use Rattle.pq_syntax.specs.aux.Takes.{starts_at};
ghost use Rattle.pq_syntax.specs.Words.{accepts, is_version, words};
ghost use Rattle.pq_syntax.specs.declared.terminal.Terminal.TheVariants.{Semicolon, Version};

use crate::Memory;
use crate::failure::Failure;
use crate::terminal::{Terminal, accepts, is_version};
use pq_lex::Token;
use std::alloc::Global;

/// Whether there is a first token and `terminal` accepts it.
#[inline(always)]
pub(crate) fn looks_at(text: &str, tokens: &[Token], terminal: Terminal) -> bool
    requires { is_version terminal ≡ false }
    ensures { result ≡ starts_at accepts (Single terminal) (words text.now tokens.now) }
{
    if tokens.is_empty() {
        false
    } else {
        accepts(text, tokens[0], terminal)
    }
}

/// Takes the first token if `terminal` accepts it, and fails otherwise.
#[inline(always)]
pub(crate) fn expect<'a>(
    text: &str,
    tokens: &'a [Token],
    terminal: Terminal,
) -> Result<(Token, &'a [Token]), Failure>
    requires { is_version terminal ≡ false }
    ensures taken { IfOk result (λ x. TakesToken text.now terminal tokens.now x.1.now x.0) }
    ensures fault { IfErr result (λ e. Fails text.now (Single terminal) tokens.now e) }
{
    if looks_at(text, tokens, terminal) {
        Ok((tokens[0], &tokens[1..]))
    } else {
        Err(Failure::Fault(tokens.len()))
    }
}

/// Takes the first token if there is one and `terminal` accepts it.
#[inline(always)]
pub(crate) fn skip_if<'a>(text: &str, tokens: &'a [Token], terminal: Terminal) -> &'a [Token]
    requires { is_version terminal ≡ false }
    ensures { Passes text.now (opt (Single terminal)) tokens.now result.now }
{
    if looks_at(text, tokens, terminal) {
        &tokens[1..]
    } else {
        tokens
    }
}

/// Takes an empty statement: `";"`.
#[inline(always)]
pub(crate) fn skip_empty<'a>(text: &str, tokens: &'a [Token]) -> Result<&'a [Token], Failure>
    ensures taken { IfOk result (λ rest. Passes text.now (Single Semicolon) tokens.now rest.now) }
    ensures fault { IfErr result (λ e. Fails text.now (Single Semicolon) tokens.now e) }
{
    let (_, rest) = expect(text, tokens, Terminal::Semicolon)?;
    Ok(rest)
}

/// Whether a type's name begins at `tokens`: with a dot, or with a name that `terminal` accepts.
#[inline(always)]
pub(crate) fn looks_at_type(text: &str, tokens: &[Token], terminal: Terminal) -> bool
    requires { is_version terminal ≡ false }
    ensures { result ≡ starts_at accepts (type_from terminal) (words text.now tokens.now) }
{
    looks_at(text, tokens, Terminal::Dot) || looks_at(text, tokens, terminal)
}

/// Whether there is a first token and it is the string `proto3`.
fn looks_at_version(alloc: Global, text: &str, tokens: &[Token]) -> Result<bool, Memory>
    ensures { IfOk result (λ b. b ≡ starts_at accepts (Single Version) (words text.now tokens.now)) }
{
    if tokens.is_empty() {
        Ok(false)
    } else {
        is_version(alloc, text, tokens[0])
    }
}

/// Takes the first token if it is the string `proto3`, and fails otherwise.
pub(crate) fn expect_version<'a>(
    alloc: Global,
    text: &str,
    tokens: &'a [Token],
) -> Result<&'a [Token], Failure>
    ensures taken { IfOk result (λ rest. Passes text.now (Single Version) tokens.now rest.now) }
    ensures fault { IfErr result (λ e. Fails text.now (Single Version) tokens.now e) }
{
    if looks_at_version(alloc, text, tokens)? {
        Ok(&tokens[1..])
    } else {
        Err(Failure::Fault(tokens.len()))
    }
}
