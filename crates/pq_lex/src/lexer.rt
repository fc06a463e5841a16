//! The lexer: one pass over the bytes of a text, a separator or a token at a time.
//! It takes time linear in the text, and memory linear in the tokens.
ghost use Rattle.std.specs.Prelude.{◌≡◌, IfOk};
ghost use Rattle.pq_lex.specs.Tokens.{Lexes};
ghost use Rattle.pq_lex.specs.aux.Reading.{reading_of, tokens_of};

use crate::Memory;
use crate::steps::step_at;
use crate::token::{Lexed, Span, Step, Token};
use std::alloc::Global;

/// The bytes of a text for which room for one token is made at first.
const TOKEN: usize = 16;

/// Returns the tokens of `text` up to its end or its first lexical error, and that error.
/// (proto3 language specification, "Lexical elements".)
///
/// Each token is the longest at its offset. Blanks, comments and a byte order mark at the start
/// separate tokens. The one error of the call is an allocation failure.
pub fn lex(alloc: Global, text: &str) -> Result<Lexed, Memory>
    // The result is the tokens of the text. Each token is the longest piece that begins at its
    // offset, up to the end of the text or its first lexical error, with code and span.
    ensures lexes { IfOk result (λ l. Lexes 0 text.now l.tokens.items l.fault) }
    // The result is the value of the total function `tokens_of` at the text.
    ensures exact { IfOk result (λ l. reading_of l ≡ tokens_of text.now) }
{
    let bytes = text.as_bytes();
    let mut tokens = Vec::with_capacity(alloc, bytes.len() / TOKEN)?;
    let mut from = 0;
    while from < bytes.len() {
        match step_at(bytes, from) {
            Step::Pass(end) => from = end,
            Step::Take(kind, end) => {
                tokens.push(Token {
                    kind,
                    span: Span { start: from, end },
                })?;
                from = end;
            }
            Step::Stop(span, code) => return Ok(Lexed {
                tokens,
                fault: Some((span, code)),
            }),
        }
    }
    Ok(Lexed {
        tokens,
        fault: None,
    })
}
