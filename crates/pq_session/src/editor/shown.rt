//! Replies as an editor is shown them, and the file that a definition is in.
ghost use Rattle.std.specs.Prelude.{◌≡◌, [], option_map, string_bytes, IfOk};
ghost use Rattle.pq_session.specs.Editor.{editor_reply_text, answered_location as location_answered, definition_file as file_of_definition};
ghost use Rattle.pq_session.specs.Replies.{reply_text as text_of_reply};

use crate::editor::lists::{answered_diagnostics, outcome_value};
use crate::protocol::answers::{diagnostics_text, located_text, reply_text};
use crate::protocol::root::Root;
use crate::protocol::severities::{Reader, has_unread};
use pq_core::Reply;
use pq_proto::{Location, ProtoKey, ProtoValue};
use std::alloc::{AllocError, Global};

/// The location of the definition that `reply` answers, if it answers one.
fn answered_location<M>(reply: &Reply<ProtoKey, ProtoValue, M>) -> Option<&Location>
    ensures { option_map (λ l. l.now) result ≡ location_answered reply.now }
{
    match outcome_value(reply.outcome())? {
        ProtoValue::Definition(Some(location)) => Some(location),
        _ => None,
    }
}

/// The text of a reply that has no URI: that of [`reply_text`], for the empty root.
fn text_without_uri<M>(
    alloc: Global,
    reply: &Reply<ProtoKey, ProtoValue, M>,
) -> Result<String, AllocError>
    ensures { IfOk result (λ s. string_bytes s ≡ text_of_reply [] reply.now) }
{
    let root = Root::of(alloc, None)?;
    reply_text(alloc, &root, reply)
}

/// The text of the reply to a request, as an editor is shown it. A report of diagnostics has those of
/// [`diagnostic_list`](crate::diagnostic_list), with its severities and messages. A location has the
/// URI `uri`: that of the file of the definition, as the editor is to see it. Any other reply has the
/// text of [`reply_text`], which has no URI, and neither `uri` nor `looked` is read.
///
/// Only `Memory` is an error, after an allocation failure.
pub fn editor_text<M>(
    alloc: Global,
    uri: &str,
    looked: &str,
    reply: &Reply<ProtoKey, ProtoValue, M>,
) -> Result<String, AllocError>
    // The text of a reply that answers diagnostics has them as `diagnostic_list` does; that of a
    // definition has the URI that is given and the range of the location; any other reply has its
    // text.
    ensures { IfOk result (λ s. string_bytes s ≡ editor_reply_text uri.now looked.now reply.now) }
{
    match (answered_diagnostics(reply), answered_location(reply)) {
        (Some(diagnosed), _) => {
            let unread = has_unread(diagnosed.diagnostics.as_slice());
            let label = &reply.request().label;
            let revision = reply.revision().number();
            let reader = Reader::Editor { unread };
            diagnostics_text(alloc, label, reader, looked, diagnosed, revision)
        }
        (None, Some(location)) => located_text(alloc, uri, &reply.request().label, location),
        (None, None) => text_without_uri(alloc, reply),
    }
}

/// The name of the file of the location that `reply` answers (LSP 3.17, "Goto Definition Request"),
/// if it answers one.
pub fn definition_file<M>(reply: &Reply<ProtoKey, ProtoValue, M>) -> Option<&str>
    // The file of the location that a reply answers.
    ensures { option_map (λ name. name.now) result ≡ file_of_definition reply.now }
{
    match outcome_value(reply.outcome())? {
        ProtoValue::Definition(Some(location)) => Some(location.file.as_str()),
        _ => None,
    }
}
