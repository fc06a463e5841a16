//! What a request asks for, by phase and method.
ghost use Rattle.std.specs.Prelude.{◌≡◌, codes, option_map, IfOk, string_bytes};
ghost use Rattle.serde_json.specs.View.{view};
ghost use Rattle.pq_session.specs.Labels.{label_model};
ghost use Rattle.pq_session.specs.Reply.{refusal_text as text_of_refusal, initialized_text as text_of_initialized, null_text as text_of_null};
ghost use Rattle.pq_session.specs.Session.{says, request_meaning, query_meaning, key_named, query_key, place_named as place_of, document_text as document_text_of, file_named as file_of_uri};
ghost use Rattle.pq_session.specs.aux.ItemOf.{IsItemOf};

use crate::protocol::methods::{QueryMethod, RequestMethod};
use crate::protocol::params::{document_text, place_named};
use crate::protocol::refusals::Refusal;
use crate::protocol::replies::{initialized_text, null_text, refusal_text};
use crate::protocol::root::Root;
use crate::state::items::Item;
use crate::state::phase::Phase;
use pq_core::{Label, Request, Want};
use pq_names::Text;
use pq_proto::ProtoKey;
use serde_json::Value;
use std::alloc::{AllocError, Global};

/// The item of a request that is answered with `text`, whatever the sources are.
fn fixed(alloc: Global, label: Label, text: String) -> Result<Item<ProtoKey>, AllocError>
    ensures { IfOk result (IsItemOf (says (string_bytes text)) (Some label)) }
{
    let want = Want::Fixed(Text::from_string(alloc, text)?);
    Ok(Item::Say(Request { label, want }))
}

/// The item of a request, or of a body that is not a message, that is refused.
pub(crate) fn refused(
    alloc: Global,
    label: Label,
    refusal: Refusal,
) -> Result<Item<ProtoKey>, AllocError>
    ensures { IfOk result (IsItemOf (says (text_of_refusal (label_model label) refusal)) (Some label)) }
{
    let text = refusal_text(alloc, &label, refusal)?;
    fixed(alloc, label, text)
}

/// The item of `initialize`.
fn initialized(alloc: Global, label: Label) -> Result<Item<ProtoKey>, AllocError>
    ensures { IfOk result (IsItemOf (says (text_of_initialized (label_model label))) (Some label)) }
{
    let text = initialized_text(alloc, &label)?;
    fixed(alloc, label, text)
}

/// The item of `shutdown`.
fn shut_down(alloc: Global, label: Label) -> Result<Item<ProtoKey>, AllocError>
    ensures { IfOk result (IsItemOf (says (text_of_null (label_model label))) (Some label)) }
{
    let text = null_text(alloc, &label)?;
    fixed(alloc, label, text)
}

/// The name of the file of `uri`, if there is a `uri` that names one.
fn file_of(alloc: Global, root: &Root, uri: Option<&str>) -> Result<Option<Text>, AllocError>
    ensures { IfOk result (λ file. file ≡ file_of_uri root.now (option_map (λ text. text.now) uri.entry)) }
{
    match uri {
        Some(uri) => root.file_of(alloc, uri),
        None => Ok(None),
    }
}

/// The key that answers `query` about `file`, if the parameters have what it needs.
fn query_key(query: QueryMethod, file: Text, params: Option<&Value>) -> Option<ProtoKey>
    ensures { result ≡ query_key query file (place_of (option_map (λ d. view d.now) params.entry)) }
{
    match query {
        QueryMethod::DocumentDiagnostic => Some(ProtoKey::Diagnostics(file)),
        QueryMethod::DocumentSymbol => Some(ProtoKey::Symbols(file)),
        QueryMethod::Definition => match place_named(params) {
            Some(place) => Some(ProtoKey::Definition(file, place)),
            None => None,
        },
        QueryMethod::Descriptor => Some(ProtoKey::Descriptor(file)),
    }
}

/// The key that answers `query`, if its parameters are readable and their URI names a file.
fn key_named(
    alloc: Global,
    root: &Root,
    query: QueryMethod,
    params: Option<&Value>,
) -> Result<Option<ProtoKey>, AllocError>
    ensures { IfOk result (λ key. key ≡ key_named root.now query (option_map (λ d. view d.now) params.entry)) }
{
    match file_of(alloc, root, document_text(params, "uri"))? {
        Some(file) => Ok(query_key(query, file, params)),
        None => Ok(None),
    }
}

/// The item of a query.
fn query_request(
    alloc: Global,
    root: &Root,
    label: Label,
    query: QueryMethod,
    params: Option<&Value>,
) -> Result<Item<ProtoKey>, AllocError>
    ensures { IfOk result (IsItemOf (query_meaning (label_model label) (key_named root.now query (option_map (λ d. view d.now) params.entry))) (Some label)) }
{
    match key_named(alloc, root, query, params)? {
        Some(key) => Ok(Item::Ask(Request {
            label,
            want: Want::Demand(key),
        })),
        None => refused(alloc, label, Refusal::InvalidParams),
    }
}

/// What a request asks for.
pub(crate) fn on_request(
    alloc: Global,
    phase: &Phase,
    label: Label,
    method: Option<RequestMethod>,
    params: Option<&Value>,
) -> Result<Item<ProtoKey>, AllocError>
    ensures { IfOk result (IsItemOf (request_meaning phase.now (label_model label) method (option_map (λ d. view d.now) params.entry)) (Some label)) }
{
    match (phase, method) {
        (Phase::Fresh, Some(RequestMethod::Initialize)) => initialized(alloc, label),
        (Phase::Fresh, _) => refused(alloc, label, Refusal::NotInitialized),
        (Phase::Serving(_), Some(RequestMethod::Initialize)) => {
            refused(alloc, label, Refusal::InvalidRequest)
        }
        (Phase::Serving(_), Some(RequestMethod::Shutdown)) => shut_down(alloc, label),
        (Phase::Serving(root), Some(RequestMethod::Query(query))) => {
            query_request(alloc, root, label, query, params)
        }
        (Phase::Serving(_), None) => refused(alloc, label, Refusal::MethodNotFound),
        (Phase::Closing, _) => refused(alloc, label, Refusal::InvalidRequest),
    }
}
