//! Strings: where one ends, or its first error.
//! (proto3 language specification, "String literals".)
//! A string is read from left to right, a plain byte or an escape at a time, in linear time.
ghost use Rattle.std.specs.Prelude.{◌≡◌, ◌+◌, ◌<◌, length, true};
ghost use Rattle.pq_lex.specs.Classes.{byte, is_quote};
ghost use Rattle.pq_lex.specs.aux.Scan.{text_step};
ghost use Rattle.pq_lex.specs.Tokens.{is_plain};

use crate::bytes::{Set, run_end};
use crate::escapes::escape_at;
use crate::token::{Code, Kind, Span, Step};

/// Whether the byte `b` of a string with this `quote` means itself.
#[inline]
pub(crate) fn is_plain(quote: u8, b: u8) -> bool
    ensures { result ≡ is_plain quote b }
{
    !(b == quote || b == b'\\' || b == b'\n' || b == b'\0')
}

/// The string that opens at `start`, or its first error from the left.
pub(crate) fn text_step(bytes: &[u8], start: usize) -> Step
    requires inside { start < length bytes.now }
    requires quoted { is_quote (byte bytes.now start) ≡ true }
    ensures { result ≡ text_step (length bytes.now) (byte bytes.now start) start bytes.now (start + 1) }
{
    let quote = bytes[start];
    let open = Step::Stop(
        Span {
            start,
            end: start + 1,
        },
        Code::UnclosedString,
    );
    let mut at = start + 1;
    while at < bytes.len() {
        let b = bytes[at];
        if is_plain(quote, b) {
            at = run_end(Set::Words, bytes, at + 1);
        } else if b == quote {
            return Step::Take(Kind::Text, at + 1);
        } else if b == b'\\' {
            let Some(escape) = escape_at(bytes, at) else {
                return Step::Stop(
                    Span {
                        start: at,
                        end: at + 1,
                    },
                    Code::BadEscape,
                );
            };
            at = escape.end;
        } else {
            return open;
        }
    }
    open
}
