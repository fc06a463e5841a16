//! The messages of JSON-RPC 2.0: what message a body is.
//!
//! A body is read as JSON once. Its strings are copied into the message, and `params` is moved.
ghost use Rattle.std.specs.Prelude.{◌≡◌, option_and_then, Option, Some, IfOk, option_map, codes};
ghost use Rattle.serde_json.specs.Data.{Data};
ghost use Rattle.serde_json.specs.View.{view};
ghost use Rattle.serde_json.specs.Find.{get, as_str};
ghost use Rattle.pq_frame.specs.Json.{IsJson};
ghost use Rattle.pq_frame.specs.Messages.{message_of, message_model, is_id as is_id_of, is_version as is_version_of, if_there, kind_of as kind, is_text as is_text_of};
ghost use Rattle.pq_frame.specs.Messages.{params_of, is_answer as is_answer_of, IsLabelled, HasOneLabel};

use crate::Memory;
use crate::labels::{Label, label_of};
use serde_json::Value;
use std::alloc::Global;

/// A message (JSON-RPC 2.0, "Request object", "Notification", "Response object"; LSP 3.17,
/// "Base Protocol").
///
/// `params` is the member of that name. It is `None` if the member is absent or `null`.
#[derive(Debug, Drop)]
pub enum Message {
    /// The body is not JSON in UTF-8. Nesting deeper than 127 and a number outside a double's range
    /// count as not JSON.
    BadJson,
    /// Valid JSON that is not a message: not an object, `jsonrpc` other than "2.0", a non-string
    /// `method`, an `id` other than an integer of 64 bits or a string, or an object without
    /// `method`, `result` and `error`. The label is the `id`, if it is an integer of 64 bits or a
    /// string, else `None`.
    Invalid(Label),
    /// A request. Its label is never `None`.
    Ask {
        label: Label,
        method: String,
        params: Option<Value>,
    },
    /// A notification: it has no `id`, and gets no response.
    Notice {
        method: String,
        params: Option<Value>,
    },
    /// The response to a request: it has a `result` or an `error`, also of `null`, and no `method`.
    Response,
}

impl Message {
    /// Reads the message that `body` is.
    ///
    /// Every body is a message, since `BadJson` and `Invalid` are. Of members of one name the last
    /// counts. The only error is `Memory`, after an allocation failure. `params` is moved out of
    /// the JSON value, not copied.
    pub fn read(alloc: Global, body: &[u8]) -> Result<Message, Memory>
        // `message`, `labelled`, `one_form`: The body is classified as JSON-RPC 2.0 prescribes, for
        // JSON as `serde_json` parses it.
        ensures message { IfOk result
            (λ m. (json : Option Data) × IsJson body.now json × (message_model m ≡ message_of json)) }
        ensures labelled { IfOk result (λ m. IsLabelled (message_model m)) }
        ensures one_form { IfOk result HasOneLabel }
    {
        match Value::from_slice(alloc, body) {
            Ok(value) => message_by_value(alloc, value),
            Err(error) => {
                if error.is_memory() {
                    Err(Memory)
                } else {
                    Ok(Message::BadJson)
                }
            }
        }
    }
}

/// Whether `value` is a label: an integer of 64 bits or a string.
fn is_id(value: &Value) -> bool
    ensures { result ≡ is_id_of (view value.now) }
{
    match value {
        Value::Number(number) => !number.is_f64(),
        Value::String(_) => true,
        _ => false,
    }
}

/// Whether the member `jsonrpc` is "2.0".
fn is_version(version: Option<&Value>) -> bool
    ensures { result ≡ is_version_of (option_map (λ d. view d.now) version.entry) }
{
    match version {
        Some(Value::String(text)) => text.as_str() == "2.0",
        _ => false,
    }
}

/// Whether the member `method` is absent or a string.
fn text_if_there(method: Option<&Value>) -> bool
    ensures { result ≡ if_there is_text_of (option_map (λ d. view d.now) method.entry) }
{
    match method {
        Some(method) => method.is_string(),
        None => true,
    }
}

/// Whether the member `id` is absent or a label.
fn id_if_there(id: Option<&Value>) -> bool
    ensures { result ≡ if_there is_id_of (option_map (λ d. view d.now) id.entry) }
{
    match id {
        Some(id) => is_id(id),
        None => true,
    }
}

/// Whether `value` has a result or an error.
fn is_answer(value: &Value) -> bool
    ensures { result ≡ is_answer_of (view value.now) }
{
    value.get("result").is_some() || value.get("error").is_some()
}

/// Moves `params` out of `value`. `null` counts as absent.
fn take_params(value: &mut Value) -> Option<Value>
    ensures { option_map view result ≡ params_of (view value.old) }
{
    match value.get_mut("params") {
        Some(params) => {
            if params.is_null() {
                None
            } else {
                Some(params.take())
            }
        }
        None => None,
    }
}

/// The message of an object whose `jsonrpc`, `method` and `id` are well formed.
fn well_formed(alloc: Global, mut value: Value) -> Result<Message, Memory>
    ensures message { IfOk result (λ m. message_model m
        ≡ kind (get (codes "id") (view value))
        (option_and_then as_str (get (codes "method") (view value)))
        (params_of (view value)) (is_answer_of (view value))) }
    ensures one_form { IfOk result HasOneLabel }
{
    let method = match value.get("method").and_then(Value::as_str) {
        Some(text) => String::from_str(alloc, text)?,
        None => {
            if is_answer(&value) {
                return Ok(Message::Response);
            }
            return Ok(Message::Invalid(label_of(alloc, value.get("id"))?));
        }
    };
    match value.get("id") {
        None => {
            let params = take_params(&mut value);
            Ok(Message::Notice { method, params })
        }
        Some(id) => {
            let label = label_of(alloc, Some(id))?;
            let params = take_params(&mut value);
            Ok(Message::Ask {
                label,
                method,
                params,
            })
        }
    }
}

/// The message that `value` is.
#[tactic(auto, unfolding(crate::specs::Messages::message_of))]
fn message_by_value(alloc: Global, value: Value) -> Result<Message, Memory>
    ensures message { IfOk result (λ m. message_model m ≡ message_of (Some (view value))) }
    ensures one_form { IfOk result HasOneLabel }
{
    if !value.is_object() {
        return Ok(Message::Invalid(Label::None));
    }
    let is_well_formed = is_version(value.get("jsonrpc"))
        && text_if_there(value.get("method"))
        && id_if_there(value.get("id"));
    if is_well_formed {
        well_formed(alloc, value)
    } else {
        Ok(Message::Invalid(label_of(alloc, value.get("id"))?))
    }
}
