//! What a notification asks for, by phase and method.
ghost use Rattle.std.specs.Prelude.{◌≡◌, codes, option_map, IfOk, None};
ghost use Rattle.serde_json.specs.View.{view};
ghost use Rattle.pq_core.specs.Bodies.{body_view};
ghost use Rattle.pq_frame.specs.Labels.{label_of};
ghost use Rattle.pq_session.specs.Session.{edit_meaning, members_meaning, open_meaning, change_meaning, remove_meaning, served_meaning, notification_meaning, cancelled_id, withdrawal_meaning, changed_members, document_text as document_text_of};
ghost use Rattle.pq_session.specs.aux.ItemOf.{IsItemOf};

use crate::protocol::changes::take_changes;
use crate::protocol::methods::NotificationMethod;
use crate::protocol::params::{document_text, take_document_text};
use crate::protocol::root::Root;
use crate::state::items::Item;
use crate::state::labels::core_label;
use crate::state::phase::Phase;
use pq_core::{Body, Change, Label};
use pq_frame::label_of;
use pq_inputs::Durability;
use pq_lex::TextChange;
use pq_names::Text;
use pq_proto::ProtoKey;
use serde_json::Value;
use std::alloc::{AllocError, Global};

/// The status of a session that an edit of unreadable parameters ends.
pub const UNREADABLE_PARAMETERS: u8 = 3;

/// The item of an edit of `file`: `body` says what becomes of its text. A URI that names no file is
/// ignored.
fn edit(file: Option<Text>, body: Body) -> Item<ProtoKey>
    ensures { IsItemOf (edit_meaning file (body_view body)) None result }
{
    match file {
        Some(file) => Item::Edit(Change {
            file,
            body,
            durability: Durability::Low,
        }),
        None => Item::Ignore,
    }
}

/// The item of `textDocument/didOpen`.
fn open(alloc: Global, root: &Root, params: Option<Value>) -> Result<Item<ProtoKey>, AllocError>
    ensures { IfOk result (IsItemOf (open_meaning root.now (document_text_of (codes "uri") (option_map view params)) (document_text_of (codes "text") (option_map view params))) None) }
{
    let Some(uri) = document_text(params.as_ref(), "uri") else {
        return Ok(Item::End(UNREADABLE_PARAMETERS));
    };
    let file = root.file_of(alloc, uri)?;
    let Some(text) = take_document_text(params, "text") else {
        return Ok(Item::End(UNREADABLE_PARAMETERS));
    };
    Ok(edit(file, Body::Set(Some(text))))
}

/// The item of an edit of `file` by `changes`. An edit without changes is ignored.
fn edit_by(file: Option<Text>, changes: Vec<TextChange>) -> Item<ProtoKey>
    ensures { IsItemOf (members_meaning file changes.items) None result }
{
    if changes.is_empty() {
        Item::Ignore
    } else {
        edit(file, Body::Ranged(changes))
    }
}

/// The item of `textDocument/didChange`.
fn change(alloc: Global, root: &Root, params: Option<Value>) -> Result<Item<ProtoKey>, AllocError>
    ensures { IfOk result (IsItemOf (change_meaning root.now (document_text_of (codes "uri") (option_map view params)) (changed_members (option_map view params))) None) }
{
    let Some(uri) = document_text(params.as_ref(), "uri") else {
        return Ok(Item::End(UNREADABLE_PARAMETERS));
    };
    let file = root.file_of(alloc, uri)?;
    match take_changes(alloc, params)? {
        Some(changes) => Ok(edit_by(file, changes)),
        None => Ok(Item::End(UNREADABLE_PARAMETERS)),
    }
}

/// The item of `proto/removeFile`.
fn remove(alloc: Global, root: &Root, params: Option<&Value>) -> Result<Item<ProtoKey>, AllocError>
    ensures { IfOk result (IsItemOf (remove_meaning root.now (document_text_of (codes "uri") (option_map (λ d. view d.now) params.entry))) None) }
{
    match document_text(params, "uri") {
        Some(uri) => Ok(edit(root.file_of(alloc, uri)?, Body::Set(None))),
        None => Ok(Item::End(UNREADABLE_PARAMETERS)),
    }
}

/// The item of `$/cancelRequest` (LSP 3.17, "Cancellation Support"). One whose `id` is neither an
/// integer of 64 bits nor a string is ignored.
fn withdraw(alloc: Global, params: Option<&Value>) -> Result<Item<ProtoKey>, AllocError>
    ensures { IfOk result (IsItemOf (withdrawal_meaning (label_of (cancelled_id (option_map (λ d. view d.now) params.entry)))) None) }
{
    let id = match params {
        Some(params) => params.get("id"),
        None => None,
    };
    match core_label(alloc, label_of(alloc, id)?)? {
        Label::None => Ok(Item::Ignore),
        label => Ok(Item::Withdraw(label)),
    }
}

/// What a notification asks for.
pub(crate) fn on_notification(
    alloc: Global,
    phase: &Phase,
    method: Option<NotificationMethod>,
    params: Option<Value>,
) -> Result<Item<ProtoKey>, AllocError>
    ensures { IfOk result (IsItemOf (notification_meaning phase.now method (option_map view params)) None) }
{
    match (phase, method) {
        (_, Some(NotificationMethod::Exit)) => Ok(Item::End(phase.exit_status())),
        (Phase::Serving(root), Some(NotificationMethod::DidOpen)) => open(alloc, root, params),
        (Phase::Serving(root), Some(NotificationMethod::DidChange)) => change(alloc, root, params),
        (Phase::Serving(root), Some(NotificationMethod::RemoveFile)) => {
            remove(alloc, root, params.as_ref())
        }
        (Phase::Serving(_), Some(NotificationMethod::CancelRequest)) => {
            withdraw(alloc, params.as_ref())
        }
        _ => Ok(Item::Ignore),
    }
}
