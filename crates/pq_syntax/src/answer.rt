//! The entry point: from a text to its tree or its first error.
//!
//! `parse` lexes the text and parses its tokens. On a syntax error it parses them once more with
//! each limit of nesting one higher, to recognise `TooDeep`. Both passes are linear in the number
//! of tokens.

ghost use Rattle.std.specs.List.{All};
ghost use Rattle.std.specs.Prelude.{◌≡◌, [], false, length, Err, IfOk};
ghost use Rattle.pq_lex.specs.Tokens.{span};
ghost use Rattle.pq_syntax.specs.FaultPlace.{FaultStands, IfFaulty, IfTree, IsTree, end_code, is_version_fault};
ghost use Rattle.pq_syntax.specs.Spans.{IsPlaced, Within};
ghost use Rattle.pq_syntax.specs.aux.Parsed.{answer, fault_of, parsed, token_code};
ghost use Rattle.pq_syntax.specs.aux.Reading.{passes, reading};

use crate::Memory;
use crate::failure::Failure;
use crate::fault::{Code, Parsed};
use crate::file::File;
use crate::laws::{each_parse, spans_within};
use crate::parser::parse_file;
use pq_lex::{Kind, Span, Token, lex};
use std::alloc::Global;

/// Messages and brackets nest 64 deep. The outermost is the first level, so 63 levels lie within
/// it.
const LEVELS: u8 = 63;

/// The raised limit. An error that the grammar with this limit does not have is `TooDeep`.
const DEEPER_LEVELS: u8 = 64;

/// Whether an error at a token of `kind` after `before` tokens is in the version: at the first
/// token, or at a string in third place.
fn is_version_fault(before: usize, kind: Kind) -> bool
    ensures { result ≡ is_version_fault before kind }
{
    before == 0 || (before == 2 && matches!(kind, Kind::Text))
}

/// The code of an error at a token of `kind` after `before` tokens. `deeper` says whether the
/// raised limits accept the token.
fn token_code(before: usize, kind: Kind, deeper: bool) -> Code
    ensures { result ≡ token_code before kind deeper }
{
    if is_version_fault(before, kind) {
        Code::OnlyProto3
    } else if deeper {
        Code::TooDeep
    } else {
        Code::UnexpectedToken
    }
}

/// The code of an error at the end of a text of `before` tokens.
fn end_code(before: usize) -> Code
    ensures { result ≡ end_code before }
{
    if before == 0 {
        Code::OnlyProto3
    } else {
        Code::UnexpectedEnd
    }
}

/// Whether the parser with raised limits gets past the token at which `left` tokens remain.
fn goes_deeper(alloc: Global, text: &str, tokens: &[Token], left: usize) -> Result<bool, Memory>
    ensures { IfOk result (λ b. b ≡ passes left (reading 64 64 text.now tokens.now)) }
{
    match parse_file(alloc, text, tokens, DEEPER_LEVELS, DEEPER_LEVELS) {
        Ok(_nodes) => Ok(true),
        Err(Failure::Memory) => Err(Memory),
        Err(Failure::Fault(n)) => Ok(n < left),
    }
}

/// The error after the last of `before` tokens: the lexical error `stop`, or else the end of the
/// text.
fn fault_at_end(text: &str, before: usize, stop: Option<(Span, pq_lex::Code)>) -> (Span, Code)
    ensures { result ≡ fault_of text.now before [] stop false }
{
    match stop {
        Some((span, code)) => (span, Code::Lexical(code)),
        None => (
            Span {
                start: text.len(),
                end: text.len(),
            },
            end_code(before),
        ),
    }
}

/// The error at which `left` tokens remain. Only an error at a token can be `TooDeep`.
fn fault_at(
    alloc: Global,
    text: &str,
    tokens: &[Token],
    left: usize,
    stop: Option<(Span, pq_lex::Code)>,
) -> Result<Parsed, Memory>
    ensures { let deeper = reading 64 64 text.now tokens.now in
        IfOk result (λ p. p ≡ answer text.now (record { tokens = tokens.now; fault = stop }) (Err left) deeper) }
{
    let before = tokens.len().saturating_sub(left);
    if before < tokens.len() {
        let token = tokens[before];
        let deeper = goes_deeper(alloc, text, tokens, left)?;
        Ok(Parsed::Fault {
            span: token.span,
            code: token_code(before, token.kind, deeper),
        })
    } else {
        let (span, code) = fault_at_end(text, before, stop);
        Ok(Parsed::Fault { span, code })
    }
}

/// The outcome of `text` as the function `parsed` computes it.
fn parse_exactly(alloc: Global, text: &str) -> Result<Parsed, Memory>
    ensures { IfOk result (λ p. p ≡ parsed text.now) }
{
    let lexed = lex(alloc, text)?;
    let tokens = lexed.tokens.as_slice();
    match parse_file(alloc, text, tokens, LEVELS, LEVELS) {
        Ok(nodes) => match lexed.fault {
            Some((span, code)) => Ok(Parsed::Fault {
                span,
                code: Code::Lexical(code),
            }),
            None => Ok(Parsed::Tree(File::new(nodes))),
        },
        Err(Failure::Memory) => Err(Memory),
        Err(Failure::Fault(left)) => fault_at(alloc, text, tokens, left, lexed.fault),
    }
}

/// Parses a proto3 text: its tree, or its first error (proto3 language specification, "Proto
/// file").
///
/// A syntax error is at the first token with which no sentence of the grammar continues. If the
/// tokens end before that, the error is the lexical error after them, or the empty span at the end
/// of the text. If the tokens before a lexical error are a whole sentence, the error is that
/// lexical error. The code is `TooDeep` if the token is accepted once each limit of nesting is
/// raised by one. `Memory` means that an allocation failed.
pub fn parse(alloc: Global, text: &str) -> Result<Parsed, Memory>
    // The result is the value of the total function `parsed` at the text.
    ensures exact { IfOk result (λ p. p ≡ parsed text.now) }
    // A tree is answered only if the text's tokens are a sentence of the grammar with no lexical
    // error after them, and it is that sentence's tree.
    ensures tree { IfOk result (IfTree (IsTree text.now)) }
    // An error is answered only at the error place, with its code: some sentence begins with the
    // tokens before it, and none with those up to and including it. `TooDeep` exactly if the
    // grammar with each nesting limit one higher goes on.
    ensures fault { IfOk result (IfFaulty (FaultStands text.now)) }
    // `within`, `fault_within`: Each span of a tree lies in the text and within its statement's
    // span. An error's span lies in the text.
    ensures within { IfOk result (IfTree (All (IsPlaced (length text.now)))) }
    ensures fault_within { IfOk result (IfFaulty (λ at code. Within at (span 0 (length text.now)))) }
{
    each_parse();
    spans_within();
    parse_exactly(alloc, text)
}
