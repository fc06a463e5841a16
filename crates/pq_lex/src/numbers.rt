//! Where numbers end.
//! (proto3 language specification, "Integer literals" and "Floating-point literals".)
//! Each byte of a number is read a fixed number of times.
ghost use Rattle.std.specs.Prelude.{◌≡◌, ◌≤◌, ◌<◌, length};
ghost use Rattle.pq_lex.specs.aux.Scan.{integer_end, exponent_end, float_end};
ghost use Rattle.pq_lex.specs.Tokens.{is_x, is_e, is_sign, exponent_digits};

use crate::bytes::{Set, byte_at, run_end};

/// Whether `b`, after a 0, makes an integer hexadecimal.
#[inline]
pub(crate) fn is_x(b: u8) -> bool
    ensures { result ≡ is_x b }
{
    b == b'x' || b == b'X'
}

/// The end of the integer whose first digit is at `from`.
#[tactic(auto, unfolding(crate::specs::aux::Scan::integer_end))]
pub(crate) fn integer_end(bytes: &[u8], from: usize) -> usize
    requires { from < length bytes.now }
    ensures { result ≡ integer_end bytes.now from }
{
    if bytes[from] != b'0' {
        return run_end(Set::Digits, bytes, from + 1);
    }
    if is_x(byte_at(bytes, from + 1)) {
        let end = run_end(Set::Hexes, bytes, from + 2);
        if from + 2 < end {
            return end;
        }
    }
    run_end(Set::Octals, bytes, from + 1)
}

/// Whether `b` begins an exponent.
#[inline]
fn is_e(b: u8) -> bool
    ensures { result ≡ is_e b }
{
    b == b'e' || b == b'E'
}

/// Whether `b` is a sign.
#[inline]
fn is_sign(b: u8) -> bool
    ensures { result ≡ is_sign b }
{
    b == b'+' || b == b'-'
}

/// The end of the exponent at `from`, or `from` if there is none.
#[tactic(auto, unfolding(crate::specs::aux::Scan::exponent_end))]
fn exponent_end(bytes: &[u8], from: usize) -> usize
    requires { from ≤ length bytes.now }
    ensures { result ≡ exponent_end bytes.now from }
{
    if !is_e(byte_at(bytes, from)) {
        return from;
    }
    let digits = if is_sign(byte_at(bytes, from + 1)) {
        from + 2
    } else {
        from + 1
    };
    let end = run_end(Set::Digits, bytes, digits);
    if digits < end { end } else { from }
}

/// The end of the float at `from`, or `None` if there is none.
#[tactic(auto, unfolding(crate::specs::aux::Scan::float_end))]
pub(crate) fn float_end(bytes: &[u8], from: usize) -> Option<usize>
    requires { from < length bytes.now }
    ensures { result ≡ float_end bytes.now from }
{
    let point = run_end(Set::Digits, bytes, from);
    if byte_at(bytes, point) == b'.' {
        let digits = run_end(Set::Digits, bytes, point + 1);
        return if from + 1 < digits {
            Some(exponent_end(bytes, digits))
        } else {
            None
        };
    }
    let end = exponent_end(bytes, point);
    if from < point && point < end {
        Some(end)
    } else {
        None
    }
}
