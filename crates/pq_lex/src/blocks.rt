//! A text in blocks, for many ranged changes.
//!
//! Each block has counts of it: its line starts, its UTF-16 units, and the bytes before its first
//! line end. A line is sought by the counts of the blocks before it, and then in its block. A line
//! may go over many blocks: a column is sought by their units, up to the first block in which the
//! line ends. A change makes the blocks of its range anew. A text of `n` bytes has `n / SIZE` blocks
//! or more, and no more than a block for each `SIZE` bytes of the texts put in besides.
//! The costs of a ranged change: a step for each block up to the end of its range, a few reads of
//! blocks of at most `MOST` bytes, and the new text. Blocks after the range are moved only where
//! their number changes.
//! A line start between two blocks, as after CR, depends on the byte after it: each block keeps the
//! byte that comes after it. A change starts in a block after that block's first byte, or in the
//! first block, so no block before it gets another byte after it.

ghost use Rattle.std.specs.Prelude.{◌≡◌, ◌+◌, ◌-◌, ◌<◌, ◌≤◌, ◌^◌, List, ℕ, true, IfOk, [], ◌∷◌, ◌++◌, drop, length, map, slice_index, take, MatchOption, Option, sum, string_bytes};
ghost use Rattle.std.specs.List.{replace_range};
ghost use Rattle.std.specs.String.Boundary.{IsSplitPoint};
ghost use Rattle.pq_lex.specs.Lines.{units_of};
ghost use Rattle.pq_lex.specs.TextChanges.{offset_of, replace_between};
ghost use Rattle.pq_lex.specs.aux.LineMarks.{IsByte};
ghost use Rattle.pq_lex.specs.aux.LineSearch.{IsLine};
ghost use Rattle.pq_lex.specs.aux.Blocks.{AreBlocks, IsBlockOfLine, IsCut, IsHolder, IsPlaced, IsPut, IsReplaced, IsStartOfLine, ArePlaces, line_units, text_of};

use crate::Memory;
use crate::block::{Block, count_units};
use crate::changes::{byte_of_column, line_after, line_len};
use crate::position::Position;
use std::alloc::Global;
use std::marker::Model;

/// The length in bytes of the blocks into which a text is cut.
const SIZE: usize = 4096;

/// The length in bytes past which a text is cut into blocks.
const MOST: usize = 2 * SIZE;

/// The longest text in bytes.
const LONGEST: usize = 1 << 62;

/// A byte of a text in blocks: the index of a block, the offset of the block, and that of the byte.
#[derive(Clone, Copy, Drop)]
struct Place {
    index: usize,
    start: usize,
    offset: usize,
}

/// A text in blocks. A contract sees its bytes.
#[derive(Drop)]
pub(crate) struct Blocks {
    blocks: Vec<Block>,
    len: usize,
}

impl Model for Blocks {
    ghost use Rattle.std.specs.Prelude.{◌≡◌, ℕ, List, length};
    ghost use Rattle.pq_lex.specs.aux.Blocks.{AreBlocks, text_of};

    ghost Value = { List ℕ };

    ghost view = { λ b. text_of b.blocks.items };

    ghost invariant = { λ b. AreBlocks b.blocks.items × (b.len ≡ length (text_of b.blocks.items)) };
}

/// The block in which the line number `line` starts: its index and its offset, and how many lines
/// that line is after the line of the block's first byte. It is `None` if the text has no such line.
fn block_of_line(blocks: &[Block], line: usize) -> Option<(usize, usize, usize)>
    requires { AreBlocks blocks.now }
    ensures { IsBlockOfLine blocks.now line result }
{
    let mut index = 0;
    let mut start = 0;
    let mut left = line;
    'walk: while index < blocks.len() {
        let block = &blocks[index];
        if left <= block.lines() {
            return Some((index, start, left));
        }
        left -= block.lines();
        start += block.len();
        index += 1;
    }
    None
}

/// The start of the line number `line`, or `None` if the text has no such line.
fn line_start(blocks: &[Block], line: usize) -> Option<Place>
    requires { AreBlocks blocks.now }
    ensures { IsStartOfLine blocks.now line result }
{
    match block_of_line(blocks, line) {
        Some((index, start, left)) => match line_after(blocks[index].bytes(), 0, left) {
            Some(at) => Some(Place {
                index,
                start,
                offset: start + at,
            }),
            None => None,
        },
        None => None,
    }
}

/// The place of the column `column` of a line that goes on at the start `at` of the block `first`,
/// where `column` is counted from there on.
fn column_from(blocks: &[Block], first: usize, at: usize, column: usize) -> Place
    requires blocks { AreBlocks blocks.now }
    requires within { first ≤ length blocks.now }
    requires at { at ≡ length (text_of (take first blocks.now)) }
    ensures place { IsPlaced blocks.now result.index result.start result.offset }
    ensures after { at ≤ result.offset }
    ensures byte { IsByte (line_units (text_of blocks.now) at) column (result.offset - at) }
{
    let mut index = first;
    let mut start = at;
    let mut left = column;
    'walk: while index < blocks.len() {
        let block = &blocks[index];
        let head = block.head();
        if head < block.len() {
            let offset = start + byte_of_column(&block.bytes()[..head], left);
            return Place {
                index,
                start,
                offset,
            };
        }
        if left < block.units() {
            let offset = start + byte_of_column(block.bytes(), left);
            return Place {
                index,
                start,
                offset,
            };
        }
        left -= block.units();
        start += block.len();
        index += 1;
    }
    last_place(blocks, start)
}

/// The end of the text as a place in its last block.
fn last_place(blocks: &[Block], end: usize) -> Place
    requires blocks { AreBlocks blocks.now }
    requires end { end ≡ length (text_of blocks.now) }
    ensures place { IsPlaced blocks.now result.index result.start result.offset }
    ensures offset { result.offset ≡ end }
{
    let index = blocks.len() - 1;
    Place {
        index,
        start: end - blocks[index].len(),
        offset: end,
    }
}

/// The place of the column `column` of the line that starts at `line`.
fn place_on(blocks: &[Block], line: Place, column: usize) -> Place
    requires blocks { AreBlocks blocks.now }
    requires place { IsPlaced blocks.now line.index line.start line.offset }
    ensures place { IsPlaced blocks.now result.index result.start result.offset }
    ensures after { line.offset ≤ result.offset }
    ensures byte { IsByte (line_units (text_of blocks.now) line.offset) column (result.offset - line.offset) }
{
    let bytes = blocks[line.index].bytes();
    let rest = &bytes[line.offset - line.start..];
    let len = line_len(rest);
    if len < rest.len() {
        return Place {
            offset: line.offset + byte_of_column(&rest[..len], column),
            ..line
        };
    }
    let width = count_units(rest);
    if column < width {
        return Place {
            offset: line.offset + byte_of_column(rest, column),
            ..line
        };
    }
    column_from(
        blocks,
        line.index + 1,
        line.start + bytes.len(),
        column - width,
    )
}

/// `from` and `to`, or `None` if `to` is before `from`.
fn in_order(from: Place, to: Place) -> Option<(Place, Place)>
    ensures { MatchOption result (to.offset < from.offset) (λ r. (r.0 ≡ from) × (r.1 ≡ to) × (from.offset ≤ to.offset)) }
{
    if to.offset < from.offset {
        return None;
    }
    Some((from, to))
}

/// The places of the start and the end of a range. The line of `start` starts at `line`.
fn places_from(
    blocks: &[Block],
    line: Place,
    start: Position,
    end: Position,
) -> Option<(Place, Place)>
    requires blocks { AreBlocks blocks.now }
    requires place { IsPlaced blocks.now line.index line.start line.offset }
    requires line { IsLine (text_of blocks.now) start.line line.offset }
    ensures { ArePlaces blocks.now start end result }
{
    let from = place_on(blocks, line, start.character);
    if start.line == end.line {
        if start.character == end.character {
            return Some((from, from));
        }
        return in_order(from, place_on(blocks, line, end.character));
    }
    match line_start(blocks, end.line) {
        Some(last) => in_order(from, place_on(blocks, last, end.character)),
        None => None,
    }
}

/// The places of the start and the end of a range. It is `None` if the text has no line of the
/// start or of the end, or if the end is before the start.
fn places(blocks: &[Block], start: Position, end: Position) -> Option<(Place, Place)>
    requires { AreBlocks blocks.now }
    ensures { ArePlaces blocks.now start end result }
{
    match line_start(blocks, start.line) {
        Some(line) => places_from(blocks, line, start, end),
        None => None,
    }
}

/// The same byte as `place`, in the first block that ends there or later.
fn first_place(blocks: &[Block], place: Place) -> (usize, usize)
    requires blocks { AreBlocks blocks.now }
    requires place { IsPlaced blocks.now place.index place.start place.offset }
    ensures { IsHolder blocks.now place.offset result.0 result.1 }
{
    let mut index = place.index;
    let mut start = place.start;
    'walk: while index > 0 {
        if start < place.offset {
            return (index, start);
        }
        index -= 1;
        start -= blocks[index].len();
    }
    (index, start)
}

/// A copy of `text` with `new` in place of the bytes from `from` to `to`.
fn with_range(
    alloc: Global,
    text: &str,
    from: usize,
    to: usize,
    new: &str,
) -> Result<String, Memory>
    requires ordered { from ≤ to }
    requires start { IsSplitPoint text.now from }
    requires end { IsSplitPoint text.now to }
    ensures { IfOk result (λ t. string_bytes t ≡ replace_range text.now from to new.now) }
{
    let mut made = String::from_str(alloc, text)?;
    made.replace_range(from..to, new)?;
    Ok(made)
}

/// The text of `first` up to the byte `from`, then `new`, then the text of `last` from the byte
/// `to` on. `same` is whether they are one block.
fn joined(
    alloc: Global,
    first: &Block,
    from: usize,
    last: &Block,
    to: usize,
    same: bool,
    new: &str,
) -> Result<String, Memory>
    requires same { same ≡ true → (first.now ≡ last.now) × (from ≤ to) }
    requires start { IsSplitPoint first.now.bytes from }
    requires end { IsSplitPoint last.now.bytes to }
    ensures { IfOk result (λ t. string_bytes t ≡ take from first.now.bytes ++ new.now ++ drop to last.now.bytes) }
{
    if same {
        return with_range(alloc, first.text(), from, to, new);
    }
    let mut made = with_range(alloc, first.text(), from, first.len(), new)?;
    let rest = with_range(alloc, last.text(), 0, to, "")?;
    made.push_str(&rest)?;
    Ok(made)
}

/// `text` in blocks of `SIZE` bytes or more, but for a text that has less. The byte `next` comes
/// after them.
fn cut(alloc: Global, text: &str, next: u8) -> Result<Vec<Block>, Memory>
    ensures { IfOk result (λ v. IsCut v.items text.now next) }
{
    let mut blocks = Vec::new(alloc);
    let mut at = 0;
    'walk: while text.len() - at > MOST {
        let end = text.ceil_char_boundary(at + SIZE);
        if end == text.len() {
            break;
        }
        let part = String::from_str(alloc, &text[at..end])?;
        blocks.push(Block::new(part, text.as_bytes()[end]))?;
        at = end;
    }
    let part = String::from_str(alloc, &text[at..])?;
    blocks.push(Block::new(part, next))?;
    Ok(blocks)
}

/// `blocks` with `text` in place of the blocks from `first` to `last`. The byte `next` comes after
/// them.
fn put(
    alloc: Global,
    mut blocks: Vec<Block>,
    first: usize,
    last: usize,
    text: String,
    next: u8,
) -> Result<Vec<Block>, Memory>
    requires ordered { first ≤ last }
    requires within { last < length blocks.items }
    ensures { IfOk result (λ v. IsPut blocks.items first last (string_bytes text) next v.items) }
{
    if first == last && text.len() <= MOST {
        blocks[first] = Block::new(text, next);
        return Ok(blocks);
    }
    let mut rest = blocks.split_off(last + 1)?;
    blocks.truncate(first);
    blocks.append(&mut cut(alloc, &text, next)?)?;
    blocks.append(&mut rest)?;
    Ok(blocks)
}

/// `blocks` with `new` in place of the bytes from `from` to `to`.
fn with_places(
    alloc: Global,
    blocks: Vec<Block>,
    from: Place,
    to: Place,
    new: &str,
) -> Result<Vec<Block>, Memory>
    requires blocks { AreBlocks blocks.items }
    requires from { IsPlaced blocks.items from.index from.start from.offset }
    requires to { IsPlaced blocks.items to.index to.start to.offset }
    requires ordered { from.offset ≤ to.offset }
    requires start { IsSplitPoint (text_of blocks.items) from.offset }
    requires end { IsSplitPoint (text_of blocks.items) to.offset }
    ensures { IfOk result (λ v. IsReplaced blocks.items from.offset to.offset new.now v.items) }
{
    let (first, first_at) = first_place(&blocks, from);
    let (last, last_at) = first_place(&blocks, to);
    let text = joined(
        alloc,
        &blocks[first],
        from.offset - first_at,
        &blocks[last],
        to.offset - last_at,
        first == last,
        new,
    )?;
    let next = blocks[last].next();
    put(alloc, blocks, first, last, text, next)
}

impl Blocks {
    /// The blocks of `text`.
    pub(crate) fn of(alloc: Global, text: &str) -> Result<Blocks, Memory>
        ensures { IfOk result (λ b. b ≡ text.now) }
    {
        if text.len() > LONGEST {
            return Err(Memory);
        }
        Ok(Blocks {
            blocks: cut(alloc, text, 0)?,
            len: text.len(),
        })
    }

    /// The blocks of the text with `new` in place of the characters from `start` to `end`. It is
    /// `None` if the text has no line of the start or of the end, or if the end is before the start.
    pub(crate) fn replaced(
        self,
        alloc: Global,
        start: Position,
        end: Position,
        new: &str,
    ) -> Result<Option<Blocks>, Memory>
        ensures { IfOk result (λ b. b ≡ replace_between self (offset_of self start) (offset_of self end) new.now) }
    {
        let Blocks { blocks, len } = self;
        match places(&blocks, start, end) {
            Some((from, to)) => {
                let rest = len - (to.offset - from.offset);
                if new.len() > LONGEST - rest {
                    return Err(Memory);
                }
                let blocks = with_places(alloc, blocks, from, to, new)?;
                let len = rest + new.len();
                Ok(Some(Blocks { blocks, len }))
            }
            None => Ok(None),
        }
    }

    /// The text.
    pub(crate) fn text(&self, alloc: Global) -> Result<String, Memory>
        ensures { IfOk result (λ t. string_bytes t ≡ self.now) }
    {
        let mut text = String::with_capacity(alloc, self.len)?;
        'walk: for index in 0..self.blocks.len() {
            text.push_str(self.blocks[index].text())?;
        }
        Ok(text)
    }
}
