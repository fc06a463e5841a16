//! The changes of `textDocument/didChange` (LSP 3.17, "DidChangeTextDocumentParams").
//!
//! Each member of the list is read before one of the changes is made. Texts are moved out of the
//! members, so the cost is linear in the list.
ghost use Rattle.std.specs.Prelude.{◌≡◌, codes, option_map, IfOk};
ghost use Rattle.serde_json.specs.Find.{get};
ghost use Rattle.serde_json.specs.View.{view, items_view};
ghost use Rattle.pq_session.specs.Session.{position_in, range_in, change_range, change_member, change_members, changed_members, changes_in};

use crate::protocol::params::coordinate;
use pq_lex::{Position, TextChange};
use serde_json::Value;
use std::alloc::{AllocError, Global};

/// The position in the member `name` of `range`, if it is readable.
fn position_in(range: &Value, name: &str) -> Option<Position>
    ensures { result ≡ position_in name.now (view range.now) }
{
    let position = range.get(name)?;
    let line = coordinate(position, "line")?;
    let character = coordinate(position, "character")?;
    Some(Position { line, character })
}

/// The start and the end of `range`, if both are readable.
fn range_in(range: &Value) -> Option<(Position, Position)>
    ensures { result ≡ range_in (view range.now) }
{
    let start = position_in(range, "start")?;
    let end = position_in(range, "end")?;
    Some((start, end))
}

/// The range of `change`, or `Some(None)` if it has no range. It is `None` if the range is not
/// readable.
fn range_of(change: &Value) -> Option<Option<(Position, Position)>>
    ensures { result ≡ change_range (get (codes "range") (view change.now)) }
{
    match change.get("range") {
        Some(range) => {
            if range.is_null() {
                return Some(None);
            }
            Some(Some(range_in(range)?))
        }
        None => Some(None),
    }
}

/// The change that `change` says, whose text is moved out of it, if it is readable.
fn take_change(mut change: Value) -> Option<TextChange>
    ensures { result ≡ change_member (view change) }
{
    let range = range_of(&change)?;
    match change.get_mut("text")?.take() {
        Value::String(text) => Some(TextChange { range, text }),
        _ => None,
    }
}

/// The changes that `changes` say, in their order, or `None` if one of them is not readable.
fn take_each(alloc: Global, changes: Vec<Value>) -> Result<Option<Vec<TextChange>>, AllocError>
    ensures { IfOk result (λ taken. option_map (λ taken. taken.items) taken ≡ change_members (items_view changes.items)) }
{
    let mut taken = Vec::new(alloc);
    'changes: for change in changes {
        match take_change(change) {
            Some(change) => taken.push(change)?,
            None => return Ok(None),
        }
    }
    Ok(Some(taken))
}

/// The list `params.contentChanges`, which is moved out of `params`, if it is a list.
fn take_list(params: Option<Value>) -> Option<Vec<Value>>
    ensures { option_map (λ changes. items_view changes.items) result ≡ changes_in (option_map view params) }
{
    let mut params = params?;
    match params.get_mut("contentChanges")?.take() {
        Value::Array(changes) => Some(changes),
        _ => None,
    }
}

/// The changes in the list `params.contentChanges`, in their order, moved out of `params`. It is
/// `None` if the parameters are unreadable: the member is not a list, or a change in it is not
/// readable.
pub(crate) fn take_changes(
    alloc: Global,
    params: Option<Value>,
) -> Result<Option<Vec<TextChange>>, AllocError>
    ensures { IfOk result (λ taken. option_map (λ taken. taken.items) taken ≡ changed_members (option_map view params)) }
{
    match take_list(params) {
        Some(changes) => take_each(alloc, changes),
        None => Ok(None),
    }
}
