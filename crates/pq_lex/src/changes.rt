//! The text after ranged changes.
//! (Language Server Protocol 3.17, "DidChangeTextDocument Notification" and
//! "TextDocumentContentChangeEvent".)
//!
//! `apply` makes up to `FEW` changes in one buffer, with the text after the changes made so far. For
//! each ranged change it searches the lines of the start and of the end, from the start of the text
//! on. It counts the line starts of each part of 128 bytes up to the part of the line, and goes line
//! by line in that part. Then it replaces the bytes of the range, which moves the bytes after them.
//! The costs of a ranged change: linear in the bytes up to the end of its range, by a loop over
//! parts, and one move of the bytes after the range. No index of lines is made.
//! More changes are made in blocks, each with counts of it: see `blocks`.

ghost use Rattle.std.specs.Prelude.{◌≡◌, ◌<◌, ◌≤◌, ◌+◌, ◌==◌, ◌||◌, ◌&&◌, cond, not, ℕ, List, Option, Some, IfOk, length, map, option_copied, string_bytes, sum, take, true};
ghost use Rattle.std.specs.Option.{option_map};
ghost use Rattle.pq_lex.specs.Ascii.{carriage_return, line_feed};
ghost use Rattle.pq_lex.specs.Lines.{IsOffset, line_len, line_number, starts_line, units_of};
ghost use Rattle.pq_lex.specs.TextChanges.{after_change, apply, offset_of, replace_between};
ghost use Rattle.pq_lex.specs.aux.LineMarks.{IsByte};
ghost use Rattle.pq_lex.specs.aux.LineSearch.{AreBounds, IsLine, IsLineFound};

use crate::Memory;
use crate::block::{PART, units_in};
use crate::blocks::Blocks;
use crate::lines::{next_start, units_of};
use crate::position::Position;
use memchr::memchr2;
use std::alloc::Global;
use std::marker::Model;

/// The length in bytes of the blocks whose line starts are counted together.
pub(crate) const BLOCK: usize = 128;

/// The length in bytes of the lines that are tested for ASCII.
const SHORT: usize = 2 * PART;

/// The most changes that are made in one buffer.
const FEW: usize = 16;

/// A change of a text: new text in place of a range, or of the whole text.
/// (Language Server Protocol 3.17, "TextDocumentContentChangeEvent".)
///
/// Contracts see the new text as its UTF-8 bytes.
#[derive(Drop)]
pub struct TextChange {
    /// The start and the end of the range that `text` replaces, or `None` if it replaces the whole
    /// text. Lines and columns count from 0, columns in UTF-16 code units. The end is exclusive.
    pub range: Option<(Position, Position)>,
    /// The new text.
    pub text: String,
}

impl Model for TextChange {
    ghost use Rattle.std.specs.Prelude.{string_bytes};
    ghost use Rattle.pq_lex.specs.TextChanges.{TextChangeView};

    ghost Value = { TextChangeView };

    ghost view = { λ c. record { range = c.range; text = string_bytes c.text } };
}

/// The number of `bytes` before the first LF or CR.
pub(crate) fn line_len(bytes: &[u8]) -> usize
    ensures is { result ≡ line_len bytes.now }
    ensures within { result ≤ length bytes.now }
{
    match memchr2(b'\n', b'\r', bytes) {
        Some(end) => end,
        None => bytes.len(),
    }
}

/// The number of lines that start after the offset `at`, up to `BLOCK` bytes later.
pub(crate) fn line_starts_in(bytes: &[u8], at: usize) -> u8
    requires { at + 128 < length bytes.now }
    ensures { line_number bytes.now at + result ≡ line_number bytes.now (at + 128) }
{
    let mut count = 0u8;
    for i in at..at + BLOCK {
        count += starts_after(bytes[i], bytes[i + 1]);
    }
    count
}

/// 1 if a line starts between the bytes `b` and `next`, else 0: one starts after an LF, and after a
/// CR that no LF follows.
#[inline]
pub(crate) fn starts_after(b: u8, next: u8) -> u8
    ensures { result ≡ cond (b == line_feed || (b == carriage_return && not (next == line_feed))) 1 0 }
{
    if b == b'\n' || (b == b'\r' && next != b'\n') {
        1
    } else {
        0
    }
}

/// Skips the blocks before the line that is `count` lines after the line of the offset `from`.
/// Returns an offset, and the number of lines from the line of that offset to the line wanted.
fn skip_blocks(bytes: &[u8], from: usize, count: usize) -> (usize, usize)
    requires { from ≤ length bytes.now }
    ensures within { result.0 ≤ length bytes.now }
    ensures number { line_number bytes.now result.0 + result.1 ≡ line_number bytes.now from + count }
    ensures same { result.1 ≡ 0 → result.0 ≡ from }
{
    let mut at = from;
    let mut left = count;
    'blocks: while bytes.len() - at > BLOCK {
        let passed = usize::from(line_starts_in(bytes, at));
        if left <= passed {
            return (at, left);
        }
        at += BLOCK;
        left -= passed;
    }
    (at, left)
}

/// The offset of the start of the line that is `count` lines after the line that starts at `from`,
/// or `None` if the text has no such line.
pub(crate) fn line_after(bytes: &[u8], from: usize, count: usize) -> Option<usize>
    requires within { from ≤ length bytes.now }
    requires starts { starts_line bytes.now from ≡ true }
    ensures { IsLineFound bytes.now (line_number bytes.now from + count) result }
{
    let (at, left) = skip_blocks(bytes, from, count);
    let mut start = at;
    for _ in 0..left {
        let end = start + line_len(&bytes[start..]);
        if end == bytes.len() {
            return None;
        }
        start = next_start(bytes, end);
    }
    Some(start)
}

/// The offset of the start of the line number `wanted`, or `None` if the text has no such line.
/// The line number `number` starts at `known`: the search begins there if `wanted` is not less.
fn line_from(bytes: &[u8], known: usize, number: usize, wanted: usize) -> Option<usize>
    requires { IsLine bytes.now number known }
    ensures { IsLineFound bytes.now wanted result }
{
    if wanted < number {
        return line_after(bytes, 0, wanted);
    }
    line_after(bytes, known, wanted - number)
}

/// The byte of `line` at `column`, in UTF-16 code units: the last byte that starts a character at
/// or before `column`, or the length of the line if `column` is past its end.
pub(crate) fn byte_of_column(line: &[u8], column: usize) -> usize
    ensures { IsByte (map units_of line.now) column result }
{
    if line.len() < SHORT && line.is_ascii() {
        return column.min(line.len());
    }
    let (at, left) = skip_parts(line, column);
    at + scanned_byte(&line[at..], left)
}

/// Skips the parts of `line` before the column `column`. Returns a byte, and the UTF-16 units from
/// that byte to the column.
fn skip_parts(line: &[u8], column: usize) -> (usize, usize)
    ensures within { result.0 ≤ length line.now }
    ensures column { result.1 + sum (take result.0 (map units_of line.now)) ≡ column }
{
    let mut at = 0;
    let mut left = column;
    'parts: while line.len() - at >= PART {
        let passed = usize::from(units_in(line, at));
        if left < passed {
            return (at, left);
        }
        left -= passed;
        at += PART;
    }
    (at, left)
}

/// The byte of `line` at `column`, by a scan from its first byte on.
fn scanned_byte(line: &[u8], column: usize) -> usize
    ensures { IsByte (map units_of line.now) column result }
{
    let mut left = column;
    for (i, b) in line.iter().enumerate() {
        let width = usize::from(units_of(*b));
        if left < width {
            return i;
        }
        left -= width;
    }
    line.len()
}

/// The offset of the column `column`, in UTF-16 code units, of the line that starts at `start`.
fn offset_on(bytes: &[u8], start: usize, column: usize) -> usize
    requires within { start ≤ length bytes.now }
    requires starts { starts_line bytes.now start ≡ true }
    ensures { IsOffset bytes.now (record { line = line_number bytes.now start; character = column }) (Some result) }
{
    let rest = &bytes[start..];
    let len = line_len(rest);
    start + byte_of_column(&rest[..len], column)
}

/// The two offsets of a range, as `bounds` returns them. The line of `start` starts at `first`.
fn bounds_from(bytes: &[u8], first: usize, start: Position, end: Position) -> Option<(usize, usize)>
    requires { IsLine bytes.now start.line first }
    ensures { AreBounds bytes.now start end result }
{
    match line_from(bytes, first, start.line, end.line) {
        Some(last) => {
            let from = offset_on(bytes, first, start.character);
            let to = offset_on(bytes, last, end.character);
            if to < from {
                return None;
            }
            Some((from, to))
        }
        None => None,
    }
}

/// The offsets of the start and the end of a range. It is `None` if the text has no line of the
/// start or of the end, or if the end is before the start.
fn bounds(bytes: &[u8], start: Position, end: Position) -> Option<(usize, usize)>
    ensures { AreBounds bytes.now start end result }
{
    match line_from(bytes, 0, 0, start.line) {
        Some(first) => bounds_from(bytes, first, start, end),
        None => None,
    }
}

/// `text` with `new` in place of the characters from `start` to `end`. It is `None` if the text has
/// no line of the start or of the end, or if the end is before the start.
fn replace_between(
    mut text: String,
    start: Position,
    end: Position,
    new: &str,
) -> Result<Option<String>, Memory>
    ensures { IfOk result (λ t. option_map string_bytes t ≡ replace_between (string_bytes text) (offset_of (string_bytes text) start) (offset_of (string_bytes text) end) new.now) }
{
    match bounds(text.as_bytes(), start, end) {
        Some((from, to)) => {
            text.replace_range(from..to, new)?;
            Ok(Some(text))
        }
        None => Ok(None),
    }
}

/// The text after `change` of `text`. It is `None` if the change has a range, and there is no text,
/// no line of the start or of the end, or the end is before the start.
fn after_change(
    alloc: Global,
    text: Option<String>,
    change: &TextChange,
) -> Result<Option<String>, Memory>
    ensures { IfOk result (λ t. option_map string_bytes t ≡ after_change (option_map string_bytes text) change.now) }
{
    match change.range {
        Some((start, end)) => match text {
            Some(text) => replace_between(text, start, end, &change.text),
            None => Ok(None),
        },
        None => Ok(Some(String::from_str(alloc, &change.text)?)),
    }
}

/// The text on which the first of `changes` is made: a copy of `text`, or `None` if that change
/// replaces the whole text, so that nothing is copied in vain.
fn starting_text(
    alloc: Global,
    text: Option<&str>,
    changes: &[TextChange],
) -> Result<Option<String>, Memory>
    ensures { IfOk result (λ t. apply (option_map string_bytes t) changes.now ≡ apply (option_copied text.entry) changes.now) }
{
    if begins_with_whole_text(changes) {
        return Ok(None);
    }
    match text {
        Some(text) => Ok(Some(String::from_str(alloc, text)?)),
        None => Ok(None),
    }
}

/// Whether there is a first change, and it replaces the whole text.
fn begins_with_whole_text(changes: &[TextChange]) -> bool
    ensures { result ≡ true → (text other : Option (List ℕ)) → apply text changes.now ≡ apply other changes.now }
{
    if changes.is_empty() {
        return false;
    }
    let first = &changes[0];
    first.range.is_none()
}

/// The text after `changes` of `text`, in one buffer.
fn apply_few(
    alloc: Global,
    text: Option<&str>,
    changes: &[TextChange],
) -> Result<Option<String>, Memory>
    ensures { IfOk result (λ t. option_map string_bytes t ≡ apply (option_copied text.entry) changes.now) }
{
    let mut so_far = starting_text(alloc, text, changes)?;
    'changes: for k in 0..changes.len() {
        match after_change(alloc, so_far, &changes[k])? {
            Some(next) => so_far = Some(next),
            None => return Ok(None),
        }
    }
    Ok(so_far)
}

/// The text after `change` of a text in blocks. It is `None` if the text has no line of the start
/// or of the end of the range, or if the end is before the start.
fn after_change_of(
    alloc: Global,
    text: Blocks,
    change: &TextChange,
) -> Result<Option<Blocks>, Memory>
    ensures { IfOk result (λ t. t ≡ after_change (Some text) change.now) }
{
    match change.range {
        Some((start, end)) => text.replaced(alloc, start, end, &change.text),
        None => Ok(Some(Blocks::of(alloc, &change.text)?)),
    }
}

/// The text after `changes` of `text`, in blocks.
fn apply_to(alloc: Global, text: &str, changes: &[TextChange]) -> Result<Option<String>, Memory>
    ensures { IfOk result (λ t. option_map string_bytes t ≡ apply (Some text.now) changes.now) }
{
    let mut so_far = Blocks::of(alloc, text)?;
    'changes: for k in 0..changes.len() {
        match after_change_of(alloc, so_far, &changes[k])? {
            Some(next) => so_far = next,
            None => return Ok(None),
        }
    }
    Ok(Some(so_far.text(alloc)?))
}

/// The text after more than `FEW` changes of `text`.
fn apply_many(
    alloc: Global,
    text: Option<&str>,
    changes: &[TextChange],
) -> Result<Option<String>, Memory>
    ensures { IfOk result (λ t. option_map string_bytes t ≡ apply (option_copied text.entry) changes.now) }
{
    if begins_with_whole_text(changes) {
        return apply_to(alloc, "", changes);
    }
    match text {
        Some(text) => apply_to(alloc, text, changes),
        None => apply_few(alloc, None, changes),
    }
}

/// Returns the text after `changes` of `text`, made in their order, each on the text that the
/// change before it left. `text` is `None` if there is no text yet.
/// (Language Server Protocol 3.17, "DidChangeTextDocument Notification" and "Position".)
///
/// A column is in UTF-16 code units. A column past the end of its line is the line's end, before
/// the terminator, and a column inside a character is the character's start.
/// The result is `None` if a change with a range comes where there is no text, if the text before
/// it has no line of the range's start or end, or if the end is before the start. Changes after
/// such a change are not read. The result is also `None` if there is neither a text nor a change.
///
/// The only error is an allocation failure. `text` and `changes` are lent, and stay as they are.
pub fn apply(
    alloc: Global,
    text: Option<&str>,
    changes: &[TextChange],
) -> Result<Option<String>, Memory>
    // The text after a list of changes, each made on the text that the change before it left.
    // `None` if a change has a range and there is no text, or the text has no such line, or the end
    // is before the start; and for no change and no text.
    ensures { IfOk result (λ t. option_map string_bytes t ≡ apply (option_copied text.entry) changes.now) }
{
    if changes.len() <= FEW {
        return apply_few(alloc, text, changes);
    }
    apply_many(alloc, text, changes)
}
