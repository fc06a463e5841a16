//! The text after changes whose ranges are cut to the text.
//!
//! A range of the standard lies in the text (LSP 3.17, "TextDocumentContentChangeEvent"). Some
//! editors send a range that ends past the last line. Such a range is cut: a position past the last
//! line is the end of the text, and an end before its start is its start.
//!
//! Changes that all fit are made by `apply` of `pq_lex`, in time linear in the text and the changes.
//! Else they are made one after the other, and each costs a pass over the text. So an input may not
//! ask for more than `MOST` of these.
ghost use Rattle.std.specs.Prelude.{◌≡◌, ◌⊎◌, ◌<◌, length, Some, None, option_map, string_bytes, IfOk, IfErr};
ghost use Rattle.std.specs.String.Boundary.{IsSplitPoint};
ghost use Rattle.pq_core.specs.Bodies.{body_view};
ghost use Rattle.pq_lex.specs.TextChanges.{apply as applied};
ghost use Rattle.pq_lex.specs.aux.LineMarks.{lines_of};
ghost use Rattle.pq_session.specs.Cuts.{cut_offset, after_cut as text_after_cut, after_cuts, most_cut, body_after_cuts, AreTooMany};
ghost use Rattle.pq_session.specs.aux.Cutting.{IsCut};

use pq_core::Body;
use pq_lex::{LineIndex, Position, TextChange, apply};
use std::alloc::{AllocError, Global};
use thiserror::Error;

/// The most changes that are made of which one has to be cut.
const MOST: usize = 64;

/// The errors of changes whose ranges are cut.
#[derive(Clone, Copy, Debug, PartialEq, Eq, Error)]
pub enum CutFault {
    /// The changes do not all fit the text, and there are more than 64 of them.
    #[error("more than 64 changes, of which one does not fit the text")]
    TooMany,
    /// An allocation failed.
    #[error("out of memory")]
    Memory,
}

impl From<AllocError> for CutFault {
    ghost use Rattle.pq_session.specs.declared.editor.cuts.CutFault.TheVariants.{Memory};

    ghost from_gives = { λ _ e. e ≡ Memory };

    /// An allocation failure is `Memory`.
    fn from(_error: AllocError) -> CutFault {
        CutFault::Memory
    }
}

/// The offset of `position` in `text`, whose lines are `lines`, or the end of `text` if it has no
/// such line.
fn cut_offset(lines: &LineIndex, text: &str, position: Position) -> usize
    requires { lines.now ≡ lines_of text.now }
    ensures is { result ≡ cut_offset text.now position }
    ensures split { IsSplitPoint text.now result }
{
    match lines.offset(position) {
        Some(offset) => offset,
        None => text.len(),
    }
}

/// The offsets of `start` and `end` in `text`, cut to it. The second is not less than the first.
fn cut_bounds(
    alloc: Global,
    text: &str,
    start: Position,
    end: Position,
) -> Result<(usize, usize), AllocError>
    ensures { IfOk result (λ b. IsCut text.now start end b.0 b.1) }
{
    let lines = LineIndex::new(alloc, text)?;
    let from = cut_offset(&lines, text, start);
    let to = cut_offset(&lines, text, end);
    Ok((from, from.max(to)))
}

/// `text` with `new` in place of the characters from `start` to `end`, both cut to `text`.
fn cut_between(
    alloc: Global,
    mut text: String,
    start: Position,
    end: Position,
    new: &str,
) -> Result<String, AllocError>
    ensures { IfOk result (λ t. string_bytes t ≡ text_after_cut (string_bytes text) (record { range = Some (start, end); text = new.now })) }
{
    let (from, to) = cut_bounds(alloc, text.as_str(), start, end)?;
    text.replace_range(from..to, new)?;
    Ok(text)
}

/// `text` after `change`, cut to `text`.
fn after_cut(alloc: Global, text: String, change: &TextChange) -> Result<String, AllocError>
    ensures { IfOk result (λ t. string_bytes t ≡ text_after_cut (string_bytes text) change.now) }
{
    match change.range {
        Some((start, end)) => cut_between(alloc, text, start, end, change.text.as_str()),
        None => String::from_str(alloc, change.text.as_str()),
    }
}

/// `before` after each of `changes`, cut to the text that the change before it left.
fn after_each(alloc: Global, before: &str, changes: &[TextChange]) -> Result<String, AllocError>
    ensures { IfOk result (λ t. string_bytes t ≡ after_cuts before.now changes.now) }
{
    let mut text = String::from_str(alloc, before)?;
    'changes: for k in 0..changes.len() {
        text = after_cut(alloc, text, &changes[k])?;
    }
    Ok(text)
}

/// `before` after `changes`, whose ranges are cut.
fn after_changes(alloc: Global, before: &str, changes: &[TextChange]) -> Result<String, CutFault>
    ensures ok { IfOk result (λ t. string_bytes t ≡ after_cuts before.now changes.now) }
    ensures err { IfErr result (λ fault.
        ((fault ≡ CutFault.TooMany) × ((applied (Some before.now) changes.now ≡ None) × (most_cut < length changes.now)))
        ⊎ (fault ≡ CutFault.Memory)) }
{
    if let Some(text) = apply(alloc, Some(before), changes)? {
        return Ok(text);
    }
    if changes.len() > MOST {
        return Err(CutFault::TooMany);
    }
    Ok(after_each(alloc, before, changes)?)
}

/// The text that `body` makes of `before` (LSP 3.17, "TextDocumentContentChangeEvent"). The range of
/// each change is cut to the text that the change before it left: a position past the last line is
/// the end of the text, and an end before its start is its start. `None` is a file that is absent.
///
/// `TooMany` is more than 64 changes that do not all fit. `Memory` is an allocation failure. There is
/// no other error.
pub fn text_after_cuts(alloc: Global, before: &str, body: Body) -> Result<Option<String>, CutFault>
    // `ok`, `err`: The text that a body makes of a text, each range cut to the text. `TooMany` is
    // answered only to more than 64 changes that do not all fit, and any other error is `Memory`.
    ensures ok { IfOk result (λ text. option_map string_bytes text ≡ body_after_cuts before.now (body_view body)) }
    ensures err { IfErr result (λ fault.
        ((fault ≡ CutFault.TooMany) × AreTooMany before.now (body_view body))
        ⊎ (fault ≡ CutFault.Memory)) }
{
    match body {
        Body::Set(text) => Ok(text),
        Body::Ranged(changes) => Ok(Some(after_changes(alloc, before, &changes)?)),
    }
}
