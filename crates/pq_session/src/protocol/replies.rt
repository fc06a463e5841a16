//! The texts of responses that name no file: JSON values, written without white space.
ghost use Rattle.std.specs.Prelude.{◌≡◌, IfOk, false, string_bytes};
ghost use Rattle.serde_json.specs.View.{view};
ghost use Rattle.serde_json.specs.Written.{has_float};
ghost use Rattle.serde_json.specs.Data.{null};
ghost use Rattle.pq_frame.specs.Labels.{label_data};
ghost use Rattle.pq_session.specs.Labels.{label_model};
ghost use Rattle.pq_session.specs.Reply.{error_code, error_message, error_data, cancelled_data, reply_data, initialized_data, sync_data, folders_data, diagnostics_data, editor_capabilities_data, editor_initialized_data, refusal_text as text_of_refusal, out_of_memory_text as text_of_out_of_memory, cancelled_text as text_of_cancelled, initialized_text as text_of_initialized, editor_initialized_text as text_of_editor_initialized, null_text as text_of_null};

use crate::protocol::refusals::Refusal;
use pq_core::Label;
use serde_json::{Value, json};
use std::alloc::{AllocError, Global};

/// The member `id` of a response.
fn label_value(alloc: Global, label: &Label) -> Result<Value, AllocError>
    ensures { IfOk result (λ v. view v ≡ label_data (label_model label.now)) }
{
    match label {
        Label::None => Ok(Value::Null),
        Label::Unsigned(n) => Ok(Value::from(*n)),
        Label::Negative(n) => Ok(Value::from(*n)),
        Label::Text(text) => Value::try_from_str(alloc, text.as_str()),
    }
}

/// The response of an error.
fn error_value(alloc: Global, label: &Label, refusal: Refusal) -> Result<Value, AllocError>
    ensures { IfOk result (λ v. view v ≡ error_data (label_data (label_model label.now)) (error_code refusal) (error_message refusal)) }
{
    let id = label_value(alloc, label)?;
    let code = refusal.code();
    let message = refusal.message();
    json!(in alloc; {"error": {"code": code, "message": message}, "id": id, "jsonrpc": "2.0"})
}

/// The response of the result `answer`.
fn reply_value(alloc: Global, label: &Label, answer: Value) -> Result<Value, AllocError>
    ensures { IfOk result (λ v. view v ≡ reply_data (label_data (label_model label.now)) (view answer)) }
{
    let id = label_value(alloc, label)?;
    json!(in alloc; {"id": id, "jsonrpc": "2.0", "result": answer})
}

/// The result of `initialize`: the capabilities of the server.
fn initialized_value(alloc: Global) -> Result<Value, AllocError>
    ensures { IfOk result (λ v. view v ≡ initialized_data) }
{
    json!(in alloc; {
        "capabilities": {
            "definitionProvider": true,
            "diagnosticProvider": {
                "interFileDependencies": true,
                "workspaceDiagnostics": false
            },
            "documentSymbolProvider": true,
            "positionEncoding": "utf-16",
            "textDocumentSync": {
                "change": 2u64,
                "openClose": true
            }
        },
        "serverInfo": {"name": "pq_server"}
    })
}

/// Which notifications of documents an editor is to send.
fn sync_value(alloc: Global) -> Result<Value, AllocError>
    ensures { IfOk result (λ v. view v ≡ sync_data) }
{
    json!(in alloc; {"change": 2u64, "openClose": true, "save": true})
}

/// That folders of an editor may change.
fn folders_value(alloc: Global) -> Result<Value, AllocError>
    ensures { IfOk result (λ v. view v ≡ folders_data) }
{
    json!(in alloc; {"workspaceFolders": {"changeNotifications": true, "supported": true}})
}

/// That diagnostics of one file and of all files can be asked for.
fn diagnostics_value(alloc: Global) -> Result<Value, AllocError>
    ensures { IfOk result (λ v. view v ≡ diagnostics_data) }
{
    json!(in alloc; {"interFileDependencies": true, "workspaceDiagnostics": true})
}

/// The capabilities of the server for an editor.
fn capabilities_value(alloc: Global) -> Result<Value, AllocError>
    ensures { IfOk result (λ v. view v ≡ editor_capabilities_data) }
{
    let diagnostics = diagnostics_value(alloc)?;
    let sync = sync_value(alloc)?;
    let folders = folders_value(alloc)?;
    json!(in alloc; {
        "definitionProvider": true,
        "diagnosticProvider": diagnostics,
        "documentLinkProvider": {"resolveProvider": false},
        "documentSymbolProvider": true,
        "positionEncoding": "utf-16",
        "textDocumentSync": sync,
        "workspace": folders
    })
}

/// The result of `initialize` for an editor: the capabilities of the server.
fn editor_initialized_value(alloc: Global) -> Result<Value, AllocError>
    ensures { IfOk result (λ v. view v ≡ editor_initialized_data) }
{
    let capabilities = capabilities_value(alloc)?;
    json!(in alloc; {"capabilities": capabilities, "serverInfo": {"name": "pq_server"}})
}

/// The response to a request that was started at one revision and stopped at another.
fn cancelled_value(
    alloc: Global,
    label: &Label,
    started: u64,
    seen: u64,
) -> Result<Value, AllocError>
    ensures { IfOk result (λ v. view v ≡ cancelled_data (label_data (label_model label.now)) started seen) }
{
    let id = label_value(alloc, label)?;
    let code = Refusal::ContentModified.code();
    let message = Refusal::ContentModified.message();
    json!(in alloc; {
        "error": {
            "code": code,
            "data": {"seen": seen, "started": started},
            "message": message
        },
        "id": id,
        "jsonrpc": "2.0"
    })
}

/// The response that refuses a request.
#[tactic(auto, using(crate::proofs::ReplyLemmas::error_has_no_float), unfolding(crate::specs::Reply::refusal_text, crate::specs::Reply::error_text))]
pub(crate) fn refusal_text(
    alloc: Global,
    label: &Label,
    refusal: Refusal,
) -> Result<String, AllocError>
    ensures { IfOk result (λ s. string_bytes s ≡ text_of_refusal (label_model label.now) refusal) }
{
    error_value(alloc, label, refusal)?.to_string(alloc)
}

/// The response to a request after an allocation failure: the error -32603 (JSON-RPC 2.0, "Error
/// object"). Only `Memory` is an error, after an allocation failure of its own.
pub fn out_of_memory_text(alloc: Global, label: &Label) -> Result<String, AllocError>
    // The text of the error -32603 to a request with this label.
    ensures { IfOk result (λ s. string_bytes s ≡ text_of_out_of_memory (label_model label.now)) }
{
    refusal_text(alloc, label, Refusal::OutOfMemory)
}

/// The response to `initialize` (LSP 3.17, "InitializeResult").
#[tactic(auto, using(crate::proofs::ReplyLemmas::initialized_has_no_float), unfolding(crate::specs::Reply::initialized_text))]
pub(crate) fn initialized_text(alloc: Global, label: &Label) -> Result<String, AllocError>
    ensures { IfOk result (λ s. string_bytes s ≡ text_of_initialized (label_model label.now)) }
{
    reply_value(alloc, label, initialized_value(alloc)?)?.to_string(alloc)
}

/// The response to `initialize` for an editor (LSP 3.17, "InitializeResult"). Beside the capabilities
/// of other clients it has diagnostics of all files, links of documents, notifications of saved
/// documents, and folders that change.
///
/// Only `Memory` is an error, after an allocation failure.
#[tactic(auto, using(crate::proofs::ReplyLemmas::editor_initialized_has_no_float), unfolding(crate::specs::Reply::editor_initialized_text))]
pub fn editor_initialized_text(alloc: Global, label: &Label) -> Result<String, AllocError>
    // The text of the response with the capabilities for an editor.
    ensures { IfOk result (λ s. string_bytes s ≡ text_of_editor_initialized (label_model label.now)) }
{
    reply_value(alloc, label, editor_initialized_value(alloc)?)?.to_string(alloc)
}

/// The response of the result `null`, as to `shutdown`.
#[tactic(auto, using(crate::proofs::ReplyLemmas::null_has_no_float), unfolding(crate::specs::Reply::null_text))]
pub(crate) fn null_text(alloc: Global, label: &Label) -> Result<String, AllocError>
    ensures { IfOk result (λ s. string_bytes s ≡ text_of_null (label_model label.now)) }
{
    reply_value(alloc, label, Value::Null)?.to_string(alloc)
}

/// The response to a request that was started at one revision and stopped at another (LSP 3.17,
/// "ErrorCodes", `ContentModified`).
#[tactic(auto, using(crate::proofs::ReplyLemmas::cancelled_has_no_float), unfolding(crate::specs::Reply::cancelled_text))]
pub(crate) fn cancelled_text(
    alloc: Global,
    label: &Label,
    started: u64,
    seen: u64,
) -> Result<String, AllocError>
    ensures { IfOk result (λ s. string_bytes s ≡ text_of_cancelled (label_model label.now) started seen) }
{
    cancelled_value(alloc, label, started, seen)?.to_string(alloc)
}
