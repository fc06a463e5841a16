//! Messages with the plain URI of their document.
//!
//! A member of an object is changed in its place, so the other members and their order stay.
ghost use Rattle.std.specs.Prelude.{◌≡◌, codes, option_map, IfOk, OnOk};
ghost use Rattle.serde_json.specs.View.{view, members_view};
ghost use Rattle.pq_frame.specs.Messages.{message_model};
ghost use Rattle.pq_session.specs.Plain.{with_change, plain_string, plain_document, plain_params, plain_message};

use crate::protocol::uris::plain_uri;
use pq_frame::Message;
use serde_json::{Map, Value};
use std::alloc::{AllocError, Global};

/// Makes `value` its plain URI, if it is a string.
#[tactic(auto, using(crate::proofs::PlainLemmas::plain_of_text, crate::proofs::PlainLemmas::plain_of_other))]
fn make_plain(alloc: Global, value: &mut Value) -> Result<(), AllocError>
    ensures { OnOk result (view value.new ≡ plain_string (view value.old)) }
{
    let plain = match value.as_str() {
        Some(uri) => plain_uri(alloc, uri)?,
        None => return Ok(()),
    };
    *value = Value::String(plain);
    Ok(())
}

/// Makes the member `uri` plain.
fn make_uri_plain(alloc: Global, members: &mut Map<String, Value>) -> Result<(), AllocError>
    ensures { OnOk result (members_view members.new.entries
        ≡ with_change (codes "uri") plain_string (members_view members.old.entries)) }
{
    match members.get_mut("uri") {
        Some(uri) => make_plain(alloc, uri),
        None => Ok(()),
    }
}

/// Makes the member `uri` of `document` plain.
#[tactic(auto, using(crate::proofs::PlainLemmas::within_members, crate::proofs::PlainLemmas::within_other))]
fn make_document_plain(alloc: Global, document: &mut Value) -> Result<(), AllocError>
    ensures { OnOk result (view document.new ≡ plain_document (view document.old)) }
{
    match document.as_object_mut() {
        Some(members) => make_uri_plain(alloc, members),
        None => Ok(()),
    }
}

/// Makes the member `uri` of the member `textDocument` plain.
fn make_text_document_plain(
    alloc: Global,
    members: &mut Map<String, Value>,
) -> Result<(), AllocError>
    ensures { OnOk result (members_view members.new.entries
        ≡ with_change (codes "textDocument") plain_document (members_view members.old.entries)) }
{
    match members.get_mut("textDocument") {
        Some(document) => make_document_plain(alloc, document),
        None => Ok(()),
    }
}

/// Makes the member `uri` of the member `textDocument` of `params` plain.
#[tactic(auto, using(crate::proofs::PlainLemmas::within_members, crate::proofs::PlainLemmas::within_other))]
fn make_params_plain(alloc: Global, params: &mut Value) -> Result<(), AllocError>
    ensures { OnOk result (view params.new ≡ plain_params (view params.old)) }
{
    match params.as_object_mut() {
        Some(members) => make_text_document_plain(alloc, members),
        None => Ok(()),
    }
}

/// The parameters `params` with a plain URI, if there are some.
fn with_plain_params(alloc: Global, params: Option<Value>) -> Result<Option<Value>, AllocError>
    ensures { IfOk result (λ made. option_map view made ≡ option_map plain_params (option_map view params)) }
{
    match params {
        Some(mut params) => {
            make_params_plain(alloc, &mut params)?;
            Ok(Some(params))
        }
        None => Ok(None),
    }
}

/// `message` with the plain URI of the document that it names in `params.textDocument.uri` (LSP 3.17,
/// "TextDocumentIdentifier"). Where that is not a string, the message is as it was. Nothing else
/// changes.
///
/// Only `Memory` is an error, after an allocation failure.
pub fn with_plain_uri(alloc: Global, message: Message) -> Result<Message, AllocError>
    // The message with the URI of its document in the plain form, and all else as it was.
    ensures { IfOk result (λ made. message_model made ≡ plain_message (message_model message)) }
{
    match message {
        Message::Ask {
            label,
            method,
            params,
        } => {
            let params = with_plain_params(alloc, params)?;
            Ok(Message::Ask {
                label,
                method,
                params,
            })
        }
        Message::Notice { method, params } => {
            let params = with_plain_params(alloc, params)?;
            Ok(Message::Notice { method, params })
        }
        message => Ok(message),
    }
}
