//! A block of a text, with counts of its lines and its UTF-16 units.

ghost use Rattle.std.specs.Prelude.{◌≡◌, ◌+◌, ◌-◌, ◌<◌, ◌≤◌, ◌^◌, List, ◌∷◌, ◌++◌, [], drop, length, map, slice_index, sum, take, string_bytes, string_len};
ghost use Rattle.pq_lex.specs.Lines.{line_len, line_number, units, units_of};
ghost use Rattle.pq_lex.specs.aux.Blocks.{lines_in};

use crate::changes::{BLOCK, line_len, line_starts_in, starts_after};
use crate::lines::units_of;
use std::marker::Model;

/// The length in bytes of the parts whose units are counted together.
pub(crate) const PART: usize = 64;

/// A part of a text, with counts of it. A contract sees its bytes, and the byte after them.
#[derive(Drop)]
pub(crate) struct Block {
    text: String,
    /// The byte after the block, or 0 at the end of the text.
    next: u8,
    /// How many lines start after the block's first byte, up to its end.
    lines: usize,
    /// The UTF-16 units.
    units: usize,
    /// The bytes before the first LF or CR.
    head: usize,
}

impl Model for Block {
    ghost use Rattle.std.specs.Prelude.{string_bytes};
    ghost use Rattle.pq_lex.specs.aux.Blocks.{BlockView, HasCounts};

    ghost Value = { BlockView };

    ghost view = { λ b. record { bytes = string_bytes b.text; next = b.next } };

    ghost invariant = { λ b. HasCounts (string_bytes b.text) b.next b.lines b.units b.head };
}

/// The lines that start after the first of `bytes`, up to its last.
fn lines_before_last(bytes: &[u8]) -> usize
    requires { 0 < length bytes.now }
    ensures is { result ≡ line_number bytes.now (length bytes.now - 1) }
    ensures bound { result < length bytes.now }
{
    let mut at = 0;
    let mut count = 0;
    'parts: while bytes.len() - at > BLOCK {
        count += usize::from(line_starts_in(bytes, at));
        at += BLOCK;
    }
    'bytes: while bytes.len() - at > 1 {
        count += usize::from(starts_after(bytes[at], bytes[at + 1]));
        at += 1;
    }
    count
}

/// The lines that start after the first of `bytes`, up to their end, if `next` comes after them.
fn count_lines(bytes: &[u8], next: u8) -> usize
    ensures { result ≡ lines_in bytes.now next }
{
    if bytes.is_empty() {
        return 0;
    }
    lines_before_last(bytes) + usize::from(starts_after(bytes[bytes.len() - 1], next))
}

/// The UTF-16 units of the bytes from the offset `at`, up to `PART` bytes later.
pub(crate) fn units_in(bytes: &[u8], at: usize) -> u8
    requires { at + 64 ≤ length bytes.now }
    ensures { sum (take at (map units_of bytes.now)) + result ≡ sum (take (at + 64) (map units_of bytes.now)) }
{
    let mut count = 0u8;
    for i in at..at + PART {
        count += units_of(bytes[i]);
    }
    count
}

/// The UTF-16 units of `bytes`.
pub(crate) fn count_units(bytes: &[u8]) -> usize
    requires { length bytes.now < 2 ^ 63 }
    ensures { result ≡ units bytes.now }
{
    let mut at = 0;
    let mut count = 0;
    'parts: while bytes.len() - at >= PART {
        count += usize::from(units_in(bytes, at));
        at += PART;
    }
    'bytes: while at < bytes.len() {
        count += usize::from(units_of(bytes[at]));
        at += 1;
    }
    count
}

impl Block {
    /// The block of `text`, after which the byte `next` comes.
    pub(crate) fn new(text: String, next: u8) -> Block
        ensures { result ≡ record { bytes = string_bytes text; next = next } }
    {
        let bytes = text.as_bytes();
        let lines = count_lines(bytes, next);
        let units = count_units(bytes);
        let head = line_len(bytes);
        Block {
            text,
            next,
            lines,
            units,
            head,
        }
    }

    /// The text.
    pub(crate) fn text(&self) -> &str
        ensures { result.now ≡ self.now.bytes }
    {
        &self.text
    }

    /// The bytes of the text.
    pub(crate) fn bytes(&self) -> &[u8]
        ensures { result.now ≡ self.now.bytes }
    {
        self.text.as_bytes()
    }

    /// The length of the text.
    pub(crate) fn len(&self) -> usize
        ensures { result ≡ length self.now.bytes }
    {
        self.text.len()
    }

    /// The byte after the block, or 0 at the end of the text.
    pub(crate) fn next(&self) -> u8
        ensures { result ≡ self.now.next }
    {
        self.next
    }

    /// How many lines start after the block's first byte, up to its end.
    pub(crate) fn lines(&self) -> usize
        ensures { result ≡ lines_in self.now.bytes self.now.next }
    {
        self.lines
    }

    /// The UTF-16 units.
    pub(crate) fn units(&self) -> usize
        ensures { result ≡ units self.now.bytes }
    {
        self.units
    }

    /// The bytes before the first LF or CR.
    pub(crate) fn head(&self) -> usize
        ensures { result ≡ line_len self.now.bytes }
    {
        self.head
    }
}
