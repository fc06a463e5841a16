//! Lexing that goes on after a lexical error, in the next line.
ghost use Rattle.std.specs.List.{All};
ghost use Rattle.std.specs.Prelude.{◌≡◌, ◌+◌, ◌≤◌, ◌<◌, ◌++◌, drop, length, map, IfOk, IfSome};
ghost use Rattle.std.specs.Str.{IsCharBoundary};
ghost use Rattle.pq_lex.specs.aux.Reading.{tokens_of};
ghost use Rattle.pq_syntax.specs.Loose.{moved, line_feed_from};
ghost use Rattle.pq_syntax.specs.aux.Loosely.{EndsBy, goes_on_from, tokens_on};

use crate::Memory;
use memchr::memchr;
use pq_lex::{Code, Span, Token, lex, tokens_in_order};
use std::alloc::Global;

/// Adds the tokens `found`, each `by` bytes later. Then none ends after offset `end`.
fn push_moved(tokens: &mut Vec<Token>, by: usize, found: &[Token], end: usize) -> Result<(), Memory>
    requires { All (EndsBy by end) found.now }
    ensures { IfOk result (λ u. tokens.new.items ≡ tokens.old.items ++ map (moved by) found.now) }
{
    for token in found {
        tokens.push(Token {
            kind: token.kind,
            span: Span {
                start: by + token.span.start,
                end: by + token.span.end,
            },
        })?;
    }
    Ok(())
}

/// The offset of the first LF from `from` on, or the end of `text`.
fn line_feed_from(text: &str, from: usize) -> usize
    requires { from ≤ length text.now }
    ensures is { result ≡ line_feed_from text.now from }
    ensures after { from ≤ result }
    ensures boundary { IsCharBoundary text.now result }
{
    let bytes = text.as_bytes();
    match memchr(b'\n', &bytes[from..]) {
        Some(n) => from + n,
        None => bytes.len(),
    }
}

/// The offset at which lexing goes on after `fault`, the first error of `text` from `from` on. It
/// is `None` at the end of the text, and after a comment that is not closed.
fn goes_on_at(text: &str, from: usize, fault: Option<(Span, Code)>) -> Option<usize>
    requires { IfSome fault (λ f. from + f.0.start < length text.now) }
    ensures is { result ≡ goes_on_from text.now from fault }
    ensures after { IfSome result (λ n. (from < n) × IsCharBoundary text.now n) }
{
    match fault {
        None => None,
        Some((_, Code::UnclosedComment)) => None,
        Some((span, _)) => Some(line_feed_from(text, from + span.start + 1)),
    }
}

/// Adds the tokens of `text` from `from` on up to the first error, and returns the offset at which
/// lexing goes on, if it does.
fn lex_part(
    alloc: Global,
    text: &str,
    from: usize,
    tokens: &mut Vec<Token>,
) -> Result<Option<usize>, Memory>
    requires { IsCharBoundary text.now from }
    ensures added { IfOk result (λ next. tokens.new.items ≡ tokens.old.items ++ map (moved from) (tokens_of (drop from text.now)).tokens) }
    ensures next { IfOk result (λ next. next ≡ goes_on_from text.now from (tokens_of (drop from text.now)).fault) }
    ensures after { IfOk result (λ next. IfSome next (λ n. (from < n) × IsCharBoundary text.now n)) }
{
    tokens_in_order();
    let lexed = lex(alloc, &text[from..])?;
    push_moved(tokens, from, lexed.tokens.as_slice(), text.len())?;
    Ok(goes_on_at(text, from, lexed.fault))
}

/// The tokens of `text`. At each lexical error the rest of its line is passed over; after a comment
/// that is not closed, all.
pub(crate) fn lex_on(alloc: Global, text: &str) -> Result<Vec<Token>, Memory>
    ensures { IfOk result (λ tokens. tokens.items ≡ tokens_on text.now) }
{
    let mut tokens: Vec<Token> = Vec::new(alloc);
    let mut from = 0;
    'parts: loop {
        match lex_part(alloc, text, from, &mut tokens)? {
            Some(next) => from = next,
            None => return Ok(tokens),
        }
    }
}
