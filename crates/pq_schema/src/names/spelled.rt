//! Names in pieces: what they are made of, and their bytes from the last to the first.
//!
//! A name in pieces borrows them: no bytes are copied to search for a name in a scope. `name_order`
//! compares such names, and `name_codes` makes their codes.
ghost use Rattle.std.specs.Prelude.{◌≡◌, ◌≤◌, ◌<◌, ◌+◌, ◌-◌, ℕ, List, [], ◌∷◌, ◌++◌, ◌==◌, IfOk, IfSome, None, Some, bytes_eq, length, option_to_list, string_bytes, true};
ghost use Rattle.std.specs.List.{concat};
ghost use Rattle.pq_schema.specs.aux.NameCodes.{code_of};
ghost use Rattle.pq_schema.specs.aux.Spots.{IsPlain};

use crate::names::full_name::push_parts;
use crate::names::name_codes::{code_of_pieces, coded, count_of};
use crate::names::name_order::compare_bytes;
use pq_names::{Memory, Text};
use std::marker::Model;

/// The pieces of a name before its last: `head`, then each of `parts`. Contracts see their bytes.
#[derive(Drop)]
pub(crate) struct Front<'a> {
    pub(crate) head: &'a str,
    pub(crate) parts: &'a [Text],
}

impl<'a> Model for Front<'a> {
    ghost use Rattle.std.specs.Prelude.{List, ℕ, ◌++◌};
    ghost use Rattle.std.specs.List.{concat};

    ghost Value = { List ℕ };

    ghost view = { λ f. f.head.now ++ concat f.parts.now };
}

impl<'a> Front<'a> {
    /// The same pieces once more.
    fn copy(&self) -> Front<'a>
        ensures copy { result ≡ self.now }
    {
        Front {
            head: self.head,
            parts: self.parts,
        }
    }

    /// The last piece with bytes, after the pieces before it.
    fn split_last(&self) -> Option<(Front<'a>, &'a str)>
        ensures pieces { IfSome result (λ r. self.now ≡ r.0 ++ r.1.now) }
        ensures some { IfSome result (λ r. 0 < length r.1.now) }
        ensures end { result ≡ None → self.now ≡ [] }
    {
        let head = self.head;
        let mut parts = self.parts;
        'parts: loop {
            match parts.split_last() {
                Some((part, before)) => {
                    let text = part.as_str();
                    if !text.is_empty() {
                        let front = Front {
                            head,
                            parts: before,
                        };
                        return Some((front, text));
                    }
                    parts = before;
                }
                None => return head_alone(head),
            }
        }
    }

    /// What the pieces leave of `most` bytes, if they have no more.
    fn left_of(&self, most: usize) -> Option<usize>
        ensures within { IfSome result (λ n. n ≤ most) }
        ensures left { length self.now ≤ most → result ≡ Some (most - length self.now) }
        ensures sum { IfSome result (λ n. n + length self.now ≡ most) }
    {
        let left = most.checked_sub(self.head.len())?;
        left_after(self.parts, left)
    }
}

/// The piece `head` after no pieces, if it has bytes.
fn head_alone(head: &str) -> Option<(Front<'_>, &str)>
    ensures pieces { IfSome result (λ r. head.now ≡ r.0 ++ r.1.now) }
    ensures some { IfSome result (λ r. 0 < length r.1.now) }
    ensures end { result ≡ None → head.now ≡ [] }
{
    if head.is_empty() {
        return None;
    }
    let front = Front {
        head: "",
        parts: &[],
    };
    Some((front, head))
}

/// A name in pieces: those of `front`, then `text`. Contracts see its bytes.
#[derive(Drop)]
pub(crate) struct Spelled<'a> {
    pub(crate) front: Front<'a>,
    pub(crate) text: &'a str,
}

impl<'a> Model for Spelled<'a> {
    ghost use Rattle.std.specs.Prelude.{List, ℕ, ◌++◌};

    ghost Value = { List ℕ };

    ghost view = { λ s. s.front ++ s.text.now };
}

impl<'a> Spelled<'a> {
    /// The name of `parts` and then `text`.
    pub(crate) fn new(parts: &'a [Text], text: &'a str) -> Spelled<'a>
        ensures pieces { result ≡ concat parts.now ++ text.now }
    {
        let front = Front { head: "", parts };
        Spelled { front, text }
    }

    /// The name of `head` and then `text`.
    pub(crate) fn after(head: &'a str, text: &'a str) -> Spelled<'a>
        ensures pieces { result ≡ head.now ++ text.now }
    {
        let front = Front { head, parts: &[] };
        Spelled { front, text }
    }

    /// The same name once more.
    pub(crate) fn copy(&self) -> Spelled<'a>
        ensures copy { result ≡ self.now }
    {
        Spelled {
            front: self.front.copy(),
            text: self.text,
        }
    }

    /// The last piece with bytes, after the pieces before it.
    pub(crate) fn split_last(&self) -> Option<(Front<'a>, &'a str)>
        ensures pieces { IfSome result (λ r. self.now ≡ r.0 ++ r.1.now) }
        ensures some { IfSome result (λ r. 0 < length r.1.now) }
        ensures end { result ≡ None → self.now ≡ [] }
    {
        if !self.text.is_empty() {
            return Some((self.front.copy(), self.text));
        }
        self.front.split_last()
    }

    /// Whether the name has no bytes.
    pub(crate) fn is_empty(&self) -> bool
        ensures is { result ≡ (length self.now == 0) }
    {
        self.split_last().is_none()
    }

    /// Whether the name has more than `most` bytes.
    pub(crate) fn is_longer(&self, most: usize) -> bool
        ensures longer { result ≡ true → most < length self.now }
    {
        self.rest().count_within(most).is_none()
    }

    /// Writes the name to `text`, in place of what is there.
    pub(crate) fn write_to(&self, text: &mut String) -> Result<(), Memory>
        ensures bytes { IfOk result (λ _. string_bytes text.new ≡ self.now) }
    {
        text.clear();
        text.push_str(self.front.head)?;
        push_parts(text, self.front.parts)?;
        text.push_str(self.text)?;
        Ok(())
    }

    /// The code of the name, which is made of at most its last 128 bytes and of their number.
    #[tactic(auto, unfolding(crate::specs::aux::NameCodes::code_of))]
    pub(crate) fn code(&self) -> u64
        ensures code { result ≡ code_of self.now }
    {
        let front = &self.front;
        let code = code_of_pieces(front.head, front.parts, self.text.as_bytes());
        coded(code, count_of(front, self.text))
    }

    /// The bytes of the name before its last dot; without a dot it has none.
    pub(crate) fn scope(&self) -> Rest<'a>
        ensures dotted { (s n : List ℕ) → IsPlain n → self.now ≡ s ++ 46 ∷ n → result ≡ s }
        ensures plain { IsPlain self.now → result ≡ [] }
    {
        let mut rest = self.rest();
        'bytes: loop {
            match rest.pop() {
                Some(b'.') => return rest,
                Some(_) => {}
                None => return rest,
            }
        }
    }

    /// The number of bytes, if it is below 2^64.
    pub(crate) fn count(&self) -> Option<usize>
        ensures count { IfSome result (λ n. n ≡ length self.now) }
    {
        let left = self.front.left_of(usize::MAX)?;
        let left = left.checked_sub(self.text.len())?;
        Some(usize::MAX - left)
    }

    /// The bytes, to be read from the last to the first.
    pub(crate) fn rest(&self) -> Rest<'a>
        ensures all { result ≡ self.now }
    {
        Rest {
            front: self.front.copy(),
            text: self.text.as_bytes(),
        }
    }
}

/// The bytes of a text in parts that are left, to be read from the last to the first. Contracts see
/// the bytes.
#[derive(Drop)]
pub(crate) struct Rest<'a> {
    front: Front<'a>,
    text: &'a [u8],
}

impl<'a> Model for Rest<'a> {
    ghost use Rattle.std.specs.Prelude.{List, ℕ, ◌++◌};

    ghost Value = { List ℕ };

    ghost view = { λ r. r.front ++ r.text.now };
}

impl<'a> Rest<'a> {
    /// Takes the last byte that is left.
    pub(crate) fn pop(&mut self) -> Option<u8>
        ensures last { self.old ≡ self.new ++ option_to_list result }
        ensures end { result ≡ None → self.old ≡ [] }
    {
        'pieces: loop {
            match self.text.split_last() {
                Some((last, before)) => {
                    self.text = before;
                    return Some(*last);
                }
                None => match self.front.split_last() {
                    Some((front, piece)) => {
                        self.front = front;
                        self.text = piece.as_bytes();
                    }
                    None => return None,
                },
            }
        }
    }
}

impl<'a> Rest<'a> {
    /// The number of bytes, if it is at most `most`.
    pub(crate) fn count_within(&self, most: usize) -> Option<usize>
        ensures within { IfSome result (λ n. n ≤ most) }
        ensures count { length self.now ≤ most → result ≡ Some (length self.now) }
    {
        let left = self.front.left_of(most)?;
        let left = left.checked_sub(self.text.len())?;
        Some(most.saturating_sub(left))
    }

    /// Whether these are the bytes `bytes`.
    #[tactic(auto, using(crate::specs::aux::NameOrder::names_tie))]
    pub(crate) fn is(self, bytes: &[u8]) -> bool
        ensures is { result ≡ bytes_eq self.entry bytes.now }
    {
        let front = Front {
            head: "",
            parts: &[],
        };
        let other = Rest { front, text: bytes };
        compare_bytes(self, other).is_eq()
    }
}

/// What `parts` leave of `most` bytes, if they have no more.
fn left_after(parts: &[Text], most: usize) -> Option<usize>
    ensures within { IfSome result (λ n. n ≤ most) }
    ensures left { length (concat parts.now) ≤ most → result ≡ Some (most - length (concat parts.now)) }
    ensures sum { IfSome result (λ n. n + length (concat parts.now) ≡ most) }
{
    let mut left = most;
    'parts: for i in 0..parts.len() {
        let count = parts[i].as_str().len();
        if left < count {
            return None;
        }
        left -= count;
    }
    Some(left)
}
