//! The order of names in pieces: by their bytes from the last to the first.
//!
//! Pieces that end in the same bytes are compared many bytes at a time, and so are halves of pieces
//! that differ. Only the last few bytes are read one by one. Names known to begin alike are first
//! compared by the bytes after that.
ghost use Rattle.std.specs.Prelude.{◌≡◌, ◌⊎◌, ◌≤◌, ◌<◌, ◌++◌, IfErr, IfOk, IfSome, length, take, true};
ghost use Rattle.pq_schema.specs.aux.NameParts.{name_order};
ghost use Rattle.pq_schema.specs.aux.Fronts.{AreSameEnds, EndAlike, IsCommonEnd};

use crate::names::spelled::{Front, Rest, Spelled};
use std::cmp::Ordering;

/// The lesser of `a` and `b`.
pub(crate) fn lesser(a: usize, b: usize) -> usize
    ensures first { result ≤ a }
    ensures second { result ≤ b }
    ensures one { (result ≡ a) ⊎ (result ≡ b) }
{
    if a < b { a } else { b }
}

/// What is before `end` in `text`, if `text` ends in it.
fn before<'a>(text: &'a str, end: &str) -> Option<&'a str>
    ensures before { IfSome result (λ t. text.now ≡ t.now ++ end.now) }
{
    let start = text.len().checked_sub(end.len())?;
    let (before, after) = text.split_at_checked(start)?;
    if after == end { Some(before) } else { None }
}

/// The fewest bytes that are compared at once where neither of two pieces ends in the other.
const FEWEST: usize = 64;

/// How often a piece can be halved.
const HALVES: usize = 32;

/// What is before the last half of `piece`, or of this half, and so on, in `piece` and in `other`, if
/// `other` ends in it too. Each byte is compared at most once where it does.
fn before_common_end<'a, 'b>(piece: &'a str, other: &'b str) -> Option<(&'a str, &'b str)>
    ensures end { IfSome result (λ r. IsCommonEnd piece.now other.now r.0.now r.1.now) }
{
    let mut count = piece.len() / 2;
    'halves: for _ in 0..HALVES {
        if count < FEWEST {
            return None;
        }
        let (text, end) = piece.split_at_checked(piece.len() - count)?;
        if let Some(rest) = before(other, end) {
            return Some((text, rest));
        }
        count /= 2;
    }
    None
}

/// The names of `front` and `piece` and of `others` and `other`, without some bytes in which both end.
/// Pieces that differ far from their ends have such bytes.
fn cut_end<'a, 'b>(
    front: Front<'a>,
    piece: &'a str,
    others: Front<'b>,
    other: &'b str,
) -> Option<(Spelled<'a>, Spelled<'b>)>
    ensures order { IfSome result (λ r. name_order (front.entry ++ piece.now) (others.entry ++ other.now) ≡ name_order r.0 r.1) }
    ensures less { IfSome result (λ r. length r.0 < length (front.entry ++ piece.now)) }
{
    let (text, rest) = before_common_end(piece, other)?;
    let left = Spelled { front, text };
    let right = Spelled {
        front: others,
        text: rest,
    };
    Some((left, right))
}

/// The names of `front` and `piece` and of `others` and `other`, without the bytes in which both end,
/// if one of the two pieces ends in the other, or if both end in some half of one.
fn cut<'a, 'b>(
    front: Front<'a>,
    piece: &'a str,
    others: Front<'b>,
    other: &'b str,
) -> Option<(Spelled<'a>, Spelled<'b>)>
    requires some { (0 < length piece.now) × (0 < length other.now) }
    ensures order { IfSome result (λ r. name_order (front.entry ++ piece.now) (others.entry ++ other.now) ≡ name_order r.0 r.1) }
    ensures less { IfSome result (λ r. length r.0 < length (front.entry ++ piece.now)) }
{
    if let Some(text) = before(piece, other) {
        let left = Spelled { front, text };
        let right = Spelled {
            front: others,
            text: "",
        };
        return Some((left, right));
    }
    if let Some(text) = before(other, piece) {
        let left = Spelled { front, text: "" };
        let right = Spelled {
            front: others,
            text,
        };
        return Some((left, right));
    }
    cut_end(front, piece, others, other)
}

/// The order of `a` and `b`, or two shorter names of the same order.
fn step<'a, 'b>(a: &Spelled<'a>, b: &Spelled<'b>) -> Result<(Spelled<'a>, Spelled<'b>), Ordering>
    ensures left { IfOk result (λ r. name_order a.now b.now ≡ name_order r.0 r.1) }
    ensures less { IfOk result (λ r. length r.0 < length a.now) }
    ensures order { IfErr result (λ o. o ≡ name_order a.now b.now) }
{
    let last_a = a.split_last();
    let last_b = b.split_last();
    match last_a {
        Some((front, piece)) => match last_b {
            Some((others, other)) => match cut(front, piece, others, other) {
                Some(left) => Ok(left),
                None => {
                    let left_a = a.rest();
                    let left_b = b.rest();
                    Err(compare_bytes(left_a, left_b))
                }
            },
            None => Err(Ordering::Greater),
        },
        None => match last_b {
            Some(_) => Err(Ordering::Less),
            None => Err(Ordering::Equal),
        },
    }
}

/// Compares the bytes of `a` and of `b` from the last to the first.
pub(crate) fn compare(a: Spelled<'_>, b: Spelled<'_>) -> Ordering
    ensures order { result ≡ name_order a.entry b.entry }
{
    let mut a = a;
    let mut b = b;
    'pieces: loop {
        match step(&a, &b) {
            Ok((left, right)) => {
                a = left;
                b = right;
            }
            Err(order) => return order,
        }
    }
}

/// What is before the last `most` bytes in `piece` and in `other`, or before all bytes of the shorter
/// one, if these bytes are the same in both, and how many of `most` are left.
fn before_same_end<'a, 'b>(
    piece: &'a str,
    other: &'b str,
    most: usize,
) -> Option<(&'a str, &'b str, usize)>
    requires some { (0 < length piece.now) × (0 < length other.now) × (0 < most) }
    ensures end { IfSome result (λ r. AreSameEnds most r.2 piece.now other.now r.0.now r.1.now) }
    ensures less { IfSome result (λ r. r.2 < most) }
{
    let count = lesser(most, lesser(piece.len(), other.len()));
    let (text, end) = piece.split_at_checked(piece.len() - count)?;
    let rest = before(other, end)?;
    Some((text, rest, most - count))
}

/// The names `a` and `b` without the last bytes of a piece of each, `most` at most, if these bytes are
/// the same in both, and how many of `most` are left.
fn cut_same_end<'a, 'b>(
    a: &Spelled<'a>,
    b: &Spelled<'b>,
    most: usize,
) -> Option<(Spelled<'a>, Spelled<'b>, usize)>
    requires some { 0 < most }
    ensures end { IfSome result (λ r. AreSameEnds most r.2 a.now b.now r.0 r.1) }
    ensures less { IfSome result (λ r. r.2 < most) }
{
    let (front, piece) = a.split_last()?;
    let (others, other) = b.split_last()?;
    let (text, other_text, left) = before_same_end(piece, other, most)?;
    let first = Spelled { front, text };
    let second = Spelled {
        front: others,
        text: other_text,
    };
    Some((first, second, left))
}

/// Whether `a` and `b` end in the same `count` bytes. Of some that do, the answer is `false`.
fn end_alike(a: Spelled<'_>, b: Spelled<'_>, count: usize) -> bool
    ensures alike { result ≡ true → EndAlike count a.entry b.entry }
{
    let mut a = a;
    let mut b = b;
    let mut left = count;
    'pieces: while left > 0 {
        match cut_same_end(&a, &b, left) {
            Some((first, second, rest)) => {
                a = first;
                b = second;
                left = rest;
            }
            None => return false,
        }
    }
    true
}

/// Whether `a` and `b`, which begin with the same `count` bytes, are equal, by a comparison of the
/// bytes after these. Of some that are equal, the answer is `false`.
fn are_same_after(a: &Spelled<'_>, b: &Spelled<'_>, count: usize) -> bool
    requires alike { take count a.now ≡ take count b.now }
    ensures same { result ≡ true → a.now ≡ b.now }
{
    if count == 0 {
        return false;
    }
    match (a.count(), b.count()) {
        (Some(bytes), Some(others)) => {
            if bytes != others {
                return false;
            }
            end_alike(a.copy(), b.copy(), bytes.saturating_sub(count))
        }
        _ => false,
    }
}

/// Compares the bytes of `a` and of `b`, which begin with the same `count` bytes, from the last to
/// the first. Of equal names these first bytes are not read if a character ends there.
pub(crate) fn compare_alike(a: &Spelled<'_>, b: &Spelled<'_>, count: usize) -> Ordering
    requires alike { take count a.now ≡ take count b.now }
    ensures order { result ≡ name_order a.now b.now }
{
    if are_same_after(a, b, count) {
        return Ordering::Equal;
    }
    compare(a.copy(), b.copy())
}

/// Compares `a` and `b`, byte by byte from the last to the first.
pub(crate) fn compare_bytes(a: Rest<'_>, b: Rest<'_>) -> Ordering
    ensures order { result ≡ name_order a.entry b.entry }
{
    let mut a = a;
    let mut b = b;
    'bytes: loop {
        match (a.pop(), b.pop()) {
            (None, None) => return Ordering::Equal,
            (None, Some(_)) => return Ordering::Less,
            (Some(_), None) => return Ordering::Greater,
            (Some(x), Some(y)) => match x.cmp(&y) {
                Ordering::Equal => {}
                order => return order,
            },
        }
    }
}
