//! The escapes in strings: where each ends, and what it means.
//! (proto3 language specification, "String literals".)
//! A function answers `None` if the backslash begins no escape. The digits after a backslash are
//! read a fixed number of times, so all escapes of a string together take linear time.
ghost use Rattle.std.specs.Prelude.{◌≡◌, ◌≤◌, ◌<◌, ◌+◌, ◌*◌, ◌^◌, length, true};
ghost use Rattle.std.specs.Char.{digit_value};
ghost use Rattle.pq_lex.specs.Classes.{byte};
ghost use Rattle.pq_lex.specs.Escapes.{digits_end, number, in_64_bits, byte_escape, hex_digits, is_high, is_low, unit_at, pair_escape, scalar_escape, short_escape, long_escape, named_escape, named, escape_at};

use crate::bytes::{Set, byte_at, in_set, run_end};
use crate::numbers::is_x;

/// The ASCII codes (RFC 20) that `\a`, `\b`, `\v` and `\f` mean.
const BELL: u8 = 0x07;

const BACKSPACE: u8 = 0x08;

const VERTICAL_TAB: u8 = 0x0B;

const FORM_FEED: u8 = 0x0C;

/// What an escape means: a byte, or the UTF-8 of a scalar value.
#[derive(Clone, Copy)]
pub(crate) enum Meaning {
    Byte(u8),
    Scalar(u32),
}

/// An escape: the offset after it, and what it means.
#[derive(Clone, Copy)]
pub(crate) struct Escape {
    pub(crate) end: usize,
    pub(crate) meaning: Meaning,
}

/// The end of the digits of `set` at `from`, of which at most `most` count.
#[tactic(auto, unfolding(crate::specs::Escapes::digits_end))]
fn digits_end(set: Set, most: usize, bytes: &[u8], from: usize) -> usize
    requires inside { from ≤ length bytes.now }
    requires few { most ≤ 8 }
    ensures end { result ≡ digits_end set most bytes.now from }
    ensures after { from ≤ result }
    ensures within { result ≤ length bytes.now }
{
    let end = run_end(set, bytes, from);
    if end - from <= most { end } else { from + most }
}

/// The value of the digit `b` in a base up to 36, or 36 if it is not a digit.
fn digit_value(b: u8) -> u64
    ensures { result ≡ digit_value b }
{
    match b {
        b'0'..=b'9' => (b - b'0') as u64,
        b'A'..=b'Z' => (b - b'A' + 10) as u64,
        b'a'..=b'z' => (b - b'a' + 10) as u64,
        _ => 36,
    }
}

/// The number `value` with one more digit `b`, or `None` past 64 bits.
fn with_digit(value: u64, radix: u64, b: u8) -> Option<u64>
    ensures { result ≡ in_64_bits (value * radix + digit_value b) }
{
    value.checked_mul(radix)?.checked_add(digit_value(b))
}

/// The number that the digits from `from` to `end` write in the base `radix`, or `None` past 64
/// bits.
pub(crate) fn number(radix: u64, bytes: &[u8], from: usize, end: usize) -> Option<u64>
    requires ordered { from ≤ end }
    requires within { end ≤ length bytes.now }
    requires base { 1 ≤ radix }
    ensures { result ≡ in_64_bits (number radix bytes.now from end) }
{
    let digits = &bytes[from..end];
    let mut value = 0u64;
    for b in digits {
        value = with_digit(value, radix, *b)?;
    }
    Some(value)
}

/// The escape whose digits go from `from` to `end`: at least one, with a value of one byte.
fn byte_escape(radix: u64, bytes: &[u8], from: usize, end: usize) -> Option<Escape>
    requires ordered { from ≤ end }
    requires within { end ≤ length bytes.now }
    requires base { 1 ≤ radix }
    ensures { result ≡ byte_escape radix bytes.now from end }
{
    if from == end {
        return None;
    }
    match number(radix, bytes, from, end) {
        Some(value) if value <= 255 => Some(Escape {
            end,
            meaning: Meaning::Byte(value as u8),
        }),
        _ => None,
    }
}

/// The number that the `count` hexadecimal digits at `from` write, or `None` if there are fewer.
fn hex_digits(count: usize, bytes: &[u8], from: usize) -> Option<u64>
    requires inside { from ≤ length bytes.now }
    requires few { count ≤ 8 }
    ensures { result ≡ hex_digits count bytes.now from }
{
    let end = digits_end(Set::Hexes, count, bytes, from);
    if end - from == count {
        number(16, bytes, from, end)
    } else {
        None
    }
}

/// Whether `c` is a high surrogate.
fn is_high(c: u64) -> bool
    ensures { result ≡ is_high c }
{
    0xD800 <= c && c <= 0xDBFF
}

/// Whether `c` is a low surrogate.
fn is_low(c: u64) -> bool
    ensures { result ≡ is_low c }
{
    0xDC00 <= c && c <= 0xDFFF
}

/// The code unit that `\u` and four hexadecimal digits at `at` write.
fn unit_at(bytes: &[u8], at: usize) -> Option<u64>
    ensures { result ≡ unit_at bytes.now at }
{
    if byte_at(bytes, at) == b'\\' && byte_at(bytes, at + 1) == b'u' {
        hex_digits(4, bytes, at + 2)
    } else {
        None
    }
}

/// The escape of the high surrogate `high`, which ends at `end`, and of `low`, the code unit after
/// it.
fn pair_escape(end: usize, high: u64, low: Option<u64>) -> Option<Escape>
    requires high { is_high high ≡ true }
    requires near { end + 6 < 2 ^ 64 }
    ensures { result ≡ pair_escape end high low }
{
    let low = low?;
    if !is_low(low) {
        return None;
    }
    let scalar = 0x10000 + (high - 0xD800) * 1024 + (low - 0xDC00);
    Some(Escape {
        end: end + 6,
        meaning: Meaning::Scalar(scalar as u32),
    })
}

/// The escape that ends at `end` and means `c`, if `c` is a scalar value: at most 10FFFF, and not a
/// surrogate.
fn scalar_escape(end: usize, c: u64) -> Option<Escape>
    ensures { result ≡ scalar_escape end c }
{
    if c <= 0x10FFFF && !(0xD800 <= c && c <= 0xDFFF) {
        Some(Escape {
            end,
            meaning: Meaning::Scalar(c as u32),
        })
    } else {
        None
    }
}

/// The escape of a `\u` that ends at `end` with the code unit `unit`, or of a pair of such.
fn short_escape(bytes: &[u8], end: usize, unit: Option<u64>) -> Option<Escape>
    requires near { end + 6 < 2 ^ 64 }
    ensures { result ≡ short_escape bytes.now end unit }
{
    let c = unit?;
    if is_high(c) {
        pair_escape(end, c, unit_at(bytes, end))
    } else {
        scalar_escape(end, c)
    }
}

/// The byte that a backslash and the letter `b` mean.
fn named(b: u8) -> Option<u8>
    ensures { result ≡ named b }
{
    match b {
        b'a' => Some(BELL),
        b'b' => Some(BACKSPACE),
        b'f' => Some(FORM_FEED),
        b'n' => Some(b'\n'),
        b'r' => Some(b'\r'),
        b't' => Some(b'\t'),
        b'v' => Some(VERTICAL_TAB),
        b'\\' | b'\'' | b'"' => Some(b),
        _ => None,
    }
}

/// The escape whose backslash is at `at`, or `None` if the bytes after it write no escape.
#[tactic(auto, unfolding(crate::specs::Escapes::escape_at))]
pub(crate) fn escape_at(bytes: &[u8], at: usize) -> Option<Escape>
    requires { at < length bytes.now }
    ensures { result ≡ escape_at bytes.now at }
{
    let letter = byte_at(bytes, at + 1);
    if in_set(Set::Octals, letter) {
        byte_escape(8, bytes, at + 1, digits_end(Set::Octals, 3, bytes, at + 1))
    } else if is_x(letter) {
        byte_escape(16, bytes, at + 2, digits_end(Set::Hexes, 2, bytes, at + 2))
    } else if letter == b'u' {
        short_escape(bytes, at + 6, unit_at(bytes, at))
    } else if letter == b'U' {
        let c = hex_digits(8, bytes, at + 2)?;
        scalar_escape(at + 10, c)
    } else {
        let byte = named(letter)?;
        Some(Escape {
            end: at + 2,
            meaning: Meaning::Byte(byte),
        })
    }
}
