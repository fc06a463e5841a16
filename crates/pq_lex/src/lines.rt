//! Positions of byte offsets, and offsets of positions, without the text.
//! (Language Server Protocol 3.17, "Position" and "Text Documents".)
//!
//! An index keeps the start and the end of each line. Of a line that is not ASCII it also keeps the
//! UTF-16 units of each byte, and the units before every 64th byte. The costs:
//! - `LineIndex::new`: linear in the text.
//! - `position`: binary searches of the lines and of those that are not ASCII, and at most 63
//!   additions.
//! - `offset`: a look-up, a binary search of the lines that are not ASCII and one of the line's
//!   counts, and at most 64 steps.
//! - memory: eight bytes for each line of a text below 4 GiB. For a line that is not ASCII also a
//!   byte for each byte, and a number for every 64.

ghost use Rattle.std.specs.Prelude.{◌≡◌, ℕ, true, ◌+◌, ◌*◌, ◌<◌, ◌≤◌, ◌==◌, ◌&&◌, [], ◌∷◌, ◌++◌, ◌^◌, cond, length, List, drop, map, slice_index, slice_range, sum, take, IfOk};
ghost use Rattle.std.specs.Cmp.{partial_equiv_from_equiv};
ghost use Rattle.std.specs.Str.{IsAscii};
ghost use Rattle.pq_lex.specs.Lines.{IsOffset, position_of, units_of};
ghost use Rattle.pq_lex.specs.aux.LineMarks.{IsByte, byte_in, column_in, lead_index, kept_column, lines_of, offset_in, place_in, same_lines, same_lines_equiv};
ghost use Rattle.pq_lex.specs.aux.Kept.{IsCounted, IsIndexed, IsMarked, IsPlace, IsRising, WideMore, count_before, line_mark, mark_at, marks_of, numbers_of};

use crate::Memory;
use crate::kept_offsets::Offsets;
use crate::position::Position;
use memchr::memchr2_iter;
use std::alloc::Global;
use std::marker::Model;

/// The bytes of a line from one kept count of UTF-16 units to the next.
const INTERVAL: usize = 64;

/// The bytes of a text for which room for one line is made at first.
const LINE: usize = 64;

/// A line that is not ASCII.
#[derive(Drop)]
#[derive_where(PartialEq, Eq)]
struct WideLine {
    /// The number of the line, from 0.
    number: usize,
    /// The UTF-16 units of each byte.
    units: Vec<u8>,
    /// The UTF-16 units before each `INTERVAL`th byte; `units` determines them.
    #[derive_where(skip(EqHashOrd))]
    counts: Vec<usize>,
}

/// Lines of a text by number: their starts, and their ends before their terminators, in byte
/// offsets, and those that are not ASCII, in order.
#[derive(Drop)]
#[derive_where(PartialEq, Eq)]
struct Marks {
    starts: Offsets,
    ends: Offsets,
    wide: Vec<WideLine>,
}

/// The lines of a text, without the text: it converts byte offsets to positions, and positions to
/// offsets.
#[derive(Drop)]
pub struct LineIndex {
    marks: Marks,
}

impl Model for LineIndex {
    ghost use Rattle.std.specs.Prelude.{List};
    ghost use Rattle.pq_lex.specs.aux.LineMarks.{LineMark};

    ghost Value = { List LineMark };

    ghost use Rattle.pq_lex.specs.aux.Kept.{IsIndexed, marks_of};

    ghost view = { λ i. marks_of i.marks };

    ghost invariant = { λ i. IsIndexed i.marks };
}

/// Two indexes are equal exactly if they keep the same lines: the same starts, ends and UTF-16
/// units of characters.
impl PartialEq for LineIndex {
    ghost eq = { same_lines };

    ghost laws = { partial_equiv_from_equiv same_lines_equiv };

    fn eq(&self, other: &LineIndex) -> bool
        // Whether the two indexes keep the same lines (`same_lines`).
        ensures is { result ≡ same_lines self.now other.now }
        // `equal_are_same`, `same_are_equal`: `==` of two indexes holds exactly if their models are
        // equal.
        ensures equal_are_same { result ≡ true → self.now ≡ other.now }
        ensures same_are_equal { self.now ≡ other.now → result ≡ true }
    {
        self.marks == other.marks
    }
}

impl Eq for LineIndex {
    ghost laws = { same_lines_equiv };
}

/// The offset after the line terminator at `end`.
pub(crate) fn next_start(bytes: &[u8], end: usize) -> usize
    requires { end < length bytes.now }
    ensures is { result ≡ cond (slice_index bytes.now end == 13 && slice_index bytes.now (end + 1) == 10) (end + 2) (end + 1) }
    ensures within { result ≤ length bytes.now }
{
    if bytes[end] == b'\r' && end + 1 < bytes.len() && bytes[end + 1] == b'\n' {
        end + 2
    } else {
        end + 1
    }
}

/// The UTF-16 units of the character whose first byte is `b`, and 0 for a later byte of a
/// character.
pub(crate) fn units_of(b: u8) -> u8
    ensures { result ≡ units_of b }
{
    if b < 0x80 {
        1
    } else if b < 0xC0 {
        0
    } else if b < 0xF0 {
        1
    } else {
        2
    }
}

/// The units of each byte of `line`.
fn units_list(alloc: Global, line: &[u8]) -> Result<Vec<u8>, Memory>
    ensures { IfOk result (λ v. v.items ≡ map units_of line.now) }
{
    line.iter().map(|b| units_of(*b)).collect(alloc)
}

/// The sum of `units`.
fn total(units: &[u8]) -> usize
    requires { sum units.now < 2 ^ 64 }
    ensures { result ≡ sum units.now }
{
    let mut total = 0;
    for u in units {
        total += usize::from(*u);
    }
    total
}

/// The units before each `INTERVAL`th byte of a line with these `units`.
fn counts_kept(alloc: Global, units: &[u8]) -> Result<Vec<usize>, Memory>
    requires { sum units.now < 2 ^ 64 }
    ensures { IfOk result (λ v. IsCounted units.now v.items) }
{
    let mut counts = Vec::new(alloc);
    let mut count = 0;
    for block in 0..units.len() / INTERVAL {
        let start = block * INTERVAL;
        count += total(&units[start..start + INTERVAL]);
        counts.push(count)?;
    }
    Ok(counts)
}

/// Adds what is kept of the line number `number` with the bytes `line` beside its start and end:
/// nothing if all are ASCII. `plain` may be true only if they are.
fn add_wide(
    alloc: Global,
    wide: &mut Vec<WideLine>,
    number: usize,
    line: &[u8],
    plain: bool,
) -> Result<(), Memory>
    requires { plain ≡ true → IsAscii line.now }
    ensures { IfOk result (λ _. WideMore number line.now wide.old.items wide.new.items) }
{
    if plain {
        return Ok(());
    }
    if line.is_ascii() {
        return Ok(());
    }
    let units = units_list(alloc, line)?;
    let counts = counts_kept(alloc, &units)?;
    wide.push(WideLine {
        number,
        units,
        counts,
    })?;
    Ok(())
}

/// The line of `offset`, by a binary search: the last that starts at `offset` or before it.
fn line_of(starts: &Offsets, offset: usize) -> usize
    requires some { 0 < length starts.now }
    requires first { slice_index starts.now 0 ≤ offset }
    ensures within { result < length starts.now }
    ensures before { slice_index starts.now result ≤ offset }
    ensures last { result + 1 < length starts.now → offset < slice_index starts.now (result + 1) }
{
    let mut low = 0;
    let mut high = starts.len();
    while high - low > 1 {
        let middle = low + (high - low) / 2;
        if starts.at(middle) <= offset {
            low = middle;
        } else {
            high = middle;
        }
    }
    low
}

/// The index in `wide` of the line number `number`, by a binary search, or `None` if that line is
/// ASCII.
fn wide_of(wide: &[WideLine], number: usize) -> Option<usize>
    requires { IsRising (numbers_of wide.now) }
    ensures { IsPlace number (numbers_of wide.now) result }
{
    let mut low = 0;
    let mut high = wide.len();
    while low < high {
        let middle = low + (high - low) / 2;
        let here = wide[middle].number;
        if here == number {
            return Some(middle);
        }
        if here < number {
            low = middle + 1;
        } else {
            high = middle;
        }
    }
    None
}

/// The first byte of the character of the byte `at`: in UTF-8 at most three bytes before.
fn lead_index(units: &[u8], at: usize) -> usize
    ensures is { result ≡ lead_index units.now at }
    ensures within { result ≤ at }
{
    let mut first = at;
    while first > 0 && first < units.len() && units[first] == 0 {
        first -= 1;
    }
    first
}

/// The units before the block `block` of `INTERVAL` bytes.
fn count_before(counts: &[usize], block: usize) -> usize
    requires { block ≤ length counts.now }
    ensures { result ≡ count_before counts.now block }
{
    if block == 0 { 0 } else { counts[block - 1] }
}

/// The units before the byte `at`: a count, and fewer than `INTERVAL` additions.
fn units_before(units: &[u8], counts: &[usize], at: usize) -> usize
    requires within { at ≤ length units.now }
    requires counted { IsCounted units.now counts.now }
    requires small { sum units.now < 2 ^ 64 }
    ensures { result ≡ sum (take at units.now) }
{
    let block = at / INTERVAL;
    let start = block * INTERVAL;
    count_before(counts, block) + total(&units[start..at])
}

/// The column of the byte `at` of a line of which `units` and `counts` are kept.
fn column(units: &[u8], counts: &[usize], at: usize) -> usize
    requires within { 0 < length units.now → at ≤ length units.now }
    requires counted { IsCounted units.now counts.now }
    requires small { sum units.now < 2 ^ 64 }
    ensures { result ≡ kept_column units.now at }
{
    if units.is_empty() {
        return at;
    }
    units_before(units, counts, lead_index(units, at))
}

/// The last block whose count is at most `column`, by a binary search.
fn block_of(counts: &[usize], column: usize) -> usize
    ensures within { result ≤ length counts.now }
    ensures before { count_before counts.now result ≤ column }
    ensures last { result < length counts.now → column < slice_index counts.now result }
{
    let mut low = 0;
    let mut high = counts.len();
    while low < high {
        let middle = low + (high - low) / 2;
        if counts[middle] <= column {
            low = middle + 1;
        } else {
            high = middle;
        }
    }
    low
}

/// The byte at `column`, by a scan from the first byte on.
fn scanned_byte(units: &[u8], column: usize) -> usize
    ensures { IsByte units.now column result }
{
    let mut left = column;
    for (i, u) in units.iter().enumerate() {
        let width = usize::from(*u);
        if left < width {
            return i;
        }
        left -= width;
    }
    units.len()
}

/// The byte at `column`, by a scan from the last count that is at most `column`: at most `INTERVAL`
/// steps.
fn byte_at(units: &[u8], counts: &[usize], column: usize) -> usize
    requires { IsCounted units.now counts.now }
    ensures { IsByte units.now column result }
{
    let block = block_of(counts, column);
    let start = block * INTERVAL;
    start + scanned_byte(&units[start..], column - count_before(counts, block))
}

impl Marks {
    /// Adds the line of `bytes` from `start` to `end`. `plain` may be true only if all of `bytes`
    /// are ASCII.
    fn push(
        &mut self,
        alloc: Global,
        bytes: &[u8],
        start: usize,
        end: usize,
        plain: bool,
    ) -> Result<(), Memory>
        requires marked { IsMarked self.old }
        requires ordered { start ≤ end }
        requires within { end ≤ length bytes.now }
        requires ascii { plain ≡ true → IsAscii bytes.now }
        ensures marked { IfOk result (λ _. IsMarked self.new) }
        ensures added { IfOk result (λ _. marks_of self.new ≡ marks_of self.old ++ line_mark bytes.now start end ∷ []) }
    {
        let number = self.starts.len();
        add_wide(alloc, &mut self.wide, number, &bytes[start..end], plain)?;
        self.starts.push(start)?;
        self.ends.push(end)?;
        Ok(())
    }

    /// The column of `offset` in the line number `number`.
    fn column(&self, number: usize, offset: usize) -> usize
        requires indexed { IsIndexed self.now }
        requires within { number < length self.now.starts }
        requires after { slice_index self.now.starts number ≤ offset }
        ensures { result ≡ column_in (mark_at self.now number) offset }
    {
        let at = offset.min(self.ends.at(number)) - self.starts.at(number);
        match wide_of(&self.wide, number) {
            Some(k) => {
                let line = &self.wide[k];
                column(&line.units, &line.counts, at)
            }
            None => at,
        }
    }

    /// The byte of the line number `number` at `column`, counted from the line's start.
    fn byte(&self, number: usize, column: usize) -> usize
        requires indexed { IsIndexed self.now }
        requires within { number < length self.now.starts }
        ensures { result ≡ byte_in (mark_at self.now number) column }
    {
        match wide_of(&self.wide, number) {
            Some(k) => {
                let line = &self.wide[k];
                byte_at(&line.units, &line.counts, column)
            }
            None => column.min(self.ends.at(number) - self.starts.at(number)),
        }
    }
}

impl LineIndex {
    /// Returns the index of `text`, in time linear in `text`. The one error is an allocation
    /// failure.
    pub fn new(alloc: Global, text: &str) -> Result<LineIndex, Memory>
        // The index keeps the lines of the text (`lines_of`).
        ensures { IfOk result (λ i. i ≡ lines_of text.now) }
    {
        let bytes = text.as_bytes();
        let plain = bytes.is_ascii();
        let mut marks = Marks {
            starts: Offsets::with_capacity(alloc, bytes.len() / LINE)?,
            ends: Offsets::with_capacity(alloc, bytes.len() / LINE)?,
            wide: Vec::new(alloc),
        };
        let mut start = 0;
        let mut ends = memchr2_iter(b'\n', b'\r', bytes);
        'lines: while let Some(end) = ends.next() {
            // The LF of a CR LF is before the next line's start.
            if start <= end {
                marks.push(alloc, bytes, start, end, plain)?;
                start = next_start(bytes, end);
            }
        }
        marks.push(alloc, bytes, start, bytes.len(), plain)?;
        Ok(LineIndex { marks })
    }

    /// Returns the position of `offset`.
    /// An offset inside a character counts as the character's start, one inside a terminator as the
    /// terminator's, and one after the end of the text as that end.
    pub fn position(&self, offset: usize) -> Position
        // `of_text`, `exact`: Line and UTF-16 column of an offset of the text; a function of the
        // kept lines.
        ensures of_text { (text : List ℕ) → self.now ≡ lines_of text → offset ≤ length text → result ≡ position_of text offset }
        ensures exact { result ≡ place_in self.now offset }
    {
        let number = line_of(&self.marks.starts, offset);
        Position {
            line: number,
            character: self.marks.column(number, offset),
        }
    }

    /// Returns the largest offset at or before `position`, or `None` if the text has no such line.
    /// A column past the line's end gives that end, and a column inside a character the character's
    /// start.
    pub fn offset(&self, position: Position) -> Option<usize>
        // `of_text`, `exact`: The largest offset at or before a position; `None` if the line does
        // not exist; a function of the kept lines.
        ensures of_text { (text : List ℕ) → self.now ≡ lines_of text → IsOffset text position result }
        ensures exact { result ≡ offset_in self.now position }
    {
        if position.line >= self.marks.starts.len() {
            return None;
        }
        let start = self.marks.starts.at(position.line);
        Some(start + self.marks.byte(position.line, position.character))
    }
}
