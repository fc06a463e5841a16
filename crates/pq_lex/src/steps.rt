//! What begins at an offset of a text: a separator, a token or an error.
//! The class of the first byte decides among them. A step takes time linear in the bytes up to its
//! end; an error, after which `lex` stops, up to the end of the text.
ghost use Rattle.std.specs.Prelude.{◌≡◌, ◌≤◌, ◌<◌, length};
ghost use Rattle.pq_lex.specs.declared.bytes.Set.TheVariants.{Lines};
ghost use Rattle.pq_lex.specs.Runs.{run_end};
ghost use Rattle.pq_lex.specs.Tokens.{runs_on, closes};
ghost use Rattle.pq_lex.specs.aux.Scan.{close_at, number_step, slash_step, other_step, step_at};

use crate::bytes::{Class, Set, byte_at, class_of, in_set, run_end};
use crate::numbers::{float_end, integer_end};
use crate::strings::text_step;
use crate::token::{Code, Kind, Span, Step};
use memchr::memchr;

/// The token of kind `kind` from `from` to `end`: an error if it is a number and a letter, digit or
/// `_` follows.
fn number_step(kind: Kind, bytes: &[u8], from: usize, end: usize) -> Step
    ensures { result ≡ number_step kind bytes.now from end }
{
    let is_number = matches!(kind, Kind::Integer | Kind::Float);
    if is_number && in_set(Set::Words, byte_at(bytes, end)) {
        Step::Stop(Span { start: from, end }, Code::NumberRunsOn)
    } else {
        Step::Take(kind, end)
    }
}

/// Whether `*/` is at `at`.
#[inline]
fn closes(bytes: &[u8], at: usize) -> bool
    requires { at < length bytes.now }
    ensures { result ≡ closes bytes.now at }
{
    bytes[at] == b'*' && byte_at(bytes, at + 1) == b'/'
}

/// The offset of the first `*/` from `from` on, or the end of `bytes`.
fn close_at(bytes: &[u8], from: usize) -> usize
    requires { from ≤ length bytes.now }
    ensures { result ≡ close_at bytes.now from }
{
    let mut at = from;
    while let Some(n) = memchr(b'*', &bytes[at..]) {
        let star = at + n;
        if closes(bytes, star) {
            return star;
        }
        at = star + 1;
    }
    bytes.len()
}

/// The end of the line comment whose text starts at `from`: the offset of the first LF from there
/// on, or the end of `bytes`.
fn line_comment_end(bytes: &[u8], from: usize) -> usize
    requires { from ≤ length bytes.now }
    ensures { result ≡ run_end Lines bytes.now from }
{
    match memchr(b'\n', &bytes[from..]) {
        Some(n) => from + n,
        None => bytes.len(),
    }
}

/// The comment or the symbol at the slash at `from`.
fn slash_step(bytes: &[u8], from: usize) -> Step
    requires { from < length bytes.now }
    ensures { result ≡ slash_step bytes.now from }
{
    match byte_at(bytes, from + 1) {
        b'/' => Step::Pass(line_comment_end(bytes, from + 2)),
        b'*' => {
            let close = close_at(bytes, from + 2);
            if close < bytes.len() {
                Step::Pass(close + 2)
            } else {
                Step::Stop(
                    Span {
                        start: from,
                        end: from + 2,
                    },
                    Code::UnclosedComment,
                )
            }
        }
        _ => Step::Take(Kind::Symbol, from + 1),
    }
}

/// The byte order mark at `from`, or the character there as an error.
fn other_step(bytes: &[u8], from: usize) -> Step
    requires { from < length bytes.now }
    ensures { result ≡ other_step bytes.now from }
{
    if from == 0 && bytes.starts_with(b"\xEF\xBB\xBF") {
        return Step::Pass(3);
    }
    let end = run_end(Set::Continuations, bytes, from + 1);
    Step::Stop(Span { start: from, end }, Code::OtherCharacter)
}

/// The longest separator or token at `from`, or the error there.
#[tactic(auto, unfolding(crate::specs::aux::Scan::step_at))]
pub(crate) fn step_at(bytes: &[u8], from: usize) -> Step
    requires { from < length bytes.now }
    ensures { result ≡ step_at bytes.now from }
{
    match class_of(bytes[from]) {
        Class::Letter => Step::Take(Kind::Identifier, run_end(Set::Words, bytes, from + 1)),
        Class::Digit => match float_end(bytes, from) {
            Some(end) => number_step(Kind::Float, bytes, from, end),
            None => number_step(Kind::Integer, bytes, from, integer_end(bytes, from)),
        },
        Class::Space => Step::Pass(run_end(Set::Spaces, bytes, from + 1)),
        Class::Quote => text_step(bytes, from),
        Class::Point => match float_end(bytes, from) {
            Some(end) => number_step(Kind::Float, bytes, from, end),
            None => Step::Take(Kind::Symbol, from + 1),
        },
        Class::Slash => slash_step(bytes, from),
        Class::Mark => Step::Take(Kind::Symbol, from + 1),
        Class::Other => other_step(bytes, from),
    }
}
