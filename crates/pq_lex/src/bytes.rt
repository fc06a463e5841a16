//! The classes of bytes, and runs of bytes of one set.
//! A byte's class is read from a table, and a run is read once.
ghost use Rattle.std.specs.Prelude.{◌≡◌, ◌≤◌, length};
ghost use Rattle.pq_lex.specs.Classes.{byte, is_between, is_digit, class_of, in_set};
ghost use Rattle.pq_lex.specs.Runs.{run_end};

use Class::{
    Digit as D, Letter as L, Mark as M, Other as O, Point as P, Quote as Q, Slash as H, Space as S,
};

/// What a byte may begin.
#[derive(Clone, Copy)]
pub(crate) enum Class {
    /// An ASCII letter or `_`: an identifier.
    Letter,
    /// An ASCII digit: a number.
    Digit,
    /// A space, tab or line terminator: blanks.
    Space,
    /// A quote: a string.
    Quote,
    /// A point: a float or a symbol.
    Point,
    /// A slash: a comment or a symbol.
    Slash,
    /// Any other byte of a symbol.
    Mark,
    /// A byte that begins no token.
    Other,
}

/// A set of bytes that may follow one another.
#[derive(Clone, Copy)]
pub(crate) enum Set {
    /// The blanks.
    Spaces,
    /// The bytes of an identifier after its first.
    Words,
    /// The decimal digits.
    Digits,
    /// The octal digits.
    Octals,
    /// The hexadecimal digits.
    Hexes,
    /// The bytes of a line comment: all but LF.
    Lines,
    /// The bytes of a character after its first, in UTF-8 (RFC 3629).
    Continuations,
}

/// The class of each byte.
#[rattlefmt::skip]
static CLASSES: [Class; 256] = [
    O, O, O, O, O, O, O, O, O, S, S, S, S, S, O, O,
    O, O, O, O, O, O, O, O, O, O, O, O, O, O, O, O,
    S, O, Q, O, O, O, O, Q, M, M, O, M, M, M, P, H,
    D, D, D, D, D, D, D, D, D, D, M, M, M, M, M, O,
    O, L, L, L, L, L, L, L, L, L, L, L, L, L, L, L,
    L, L, L, L, L, L, L, L, L, L, L, M, O, M, O, L,
    O, L, L, L, L, L, L, L, L, L, L, L, L, L, L, L,
    L, L, L, L, L, L, L, L, L, L, L, M, O, M, O, O,
    O, O, O, O, O, O, O, O, O, O, O, O, O, O, O, O,
    O, O, O, O, O, O, O, O, O, O, O, O, O, O, O, O,
    O, O, O, O, O, O, O, O, O, O, O, O, O, O, O, O,
    O, O, O, O, O, O, O, O, O, O, O, O, O, O, O, O,
    O, O, O, O, O, O, O, O, O, O, O, O, O, O, O, O,
    O, O, O, O, O, O, O, O, O, O, O, O, O, O, O, O,
    O, O, O, O, O, O, O, O, O, O, O, O, O, O, O, O,
    O, O, O, O, O, O, O, O, O, O, O, O, O, O, O, O,
];

/// The byte at the offset `at`, or 0 at the end of `bytes` and after it.
#[inline(always)]
pub(crate) fn byte_at(bytes: &[u8], at: usize) -> u8
    ensures { result ≡ byte bytes.now at }
{
    if at < bytes.len() { bytes[at] } else { 0 }
}

/// Whether `b` is at least `low` and at most `high`.
#[inline]
fn is_between(low: u8, high: u8, b: u8) -> bool
    ensures { result ≡ is_between low high b }
{
    low <= b && b <= high
}

/// Whether `b` is an ASCII digit.
#[inline]
fn is_digit(b: u8) -> bool
    ensures { result ≡ is_digit b }
{
    is_between(b'0', b'9', b)
}

/// The class of `b`.
#[inline]
pub(crate) fn class_of(b: u8) -> Class
    ensures { result ≡ class_of b }
{
    CLASSES[b as usize]
}

/// Whether `b` is in `set`.
#[inline(always)]
pub(crate) fn in_set(set: Set, b: u8) -> bool
    ensures { result ≡ in_set set b }
{
    match set {
        Set::Spaces => matches!(class_of(b), Class::Space),
        Set::Words => matches!(class_of(b), Class::Letter | Class::Digit),
        Set::Digits => is_digit(b),
        Set::Octals => is_between(b'0', b'7', b),
        Set::Hexes => is_digit(b) || is_between(b'a', b'f', b) || is_between(b'A', b'F', b),
        Set::Lines => b != b'\n',
        Set::Continuations => is_between(0x80, 0xBF, b),
    }
}

/// The first offset from `from` on whose byte is not in `set`, or the end of `bytes`.
#[inline(always)]
pub(crate) fn run_end(set: Set, bytes: &[u8], from: usize) -> usize
    requires { from ≤ length bytes.now }
    ensures end { result ≡ run_end set bytes.now from }
    ensures after { from ≤ result }
    ensures within { result ≤ length bytes.now }
{
    let mut at = from;
    while at < bytes.len() && in_set(set, bytes[at]) {
        at += 1;
    }
    at
}
