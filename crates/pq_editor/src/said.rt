//! What the server says of itself: lines of its log, messages to the user, and progress.
ghost use Rattle.std.specs.Prelude.{◌≡◌, IfOk, string_bytes};
ghost use Rattle.serde_json.specs.View.{view};
ghost use Rattle.serde_json.specs.Written.{compact_text};
ghost use Rattle.pq_editor.specs.Said.{kind_number, message_data, log_text, show_text, refresh_data, begin_progress_data, progress_data, begun_data, ended_data, begun_text, ended_text};

use crate::Memory;
use serde_json::{Value, json};
use std::alloc::Global;

/// The body of the request that asks an editor to ask again for all diagnostics (LSP 3.17, "Refresh
/// Diagnostics"). Its id is `pq_server:refresh`.
pub const REFRESH: &str =
    "{\"id\":\"pq_server:refresh\",\"jsonrpc\":\"2.0\",\"method\":\"workspace/diagnostic/refresh\"}";

/// The body of the request that creates the progress of reading (LSP 3.17, "Creating Work Done
/// Progress"). Its id and its token are `pq_server:read`.
pub const BEGIN_PROGRESS_REQUEST: &str =
    "{\"id\":\"pq_server:read\",\"jsonrpc\":\"2.0\",\"method\":\"window/workDoneProgress/create\",\"params\":{\"token\":\"pq_server:read\"}}";

/// The kind of a message (LSP 3.17, "MessageType").
#[derive(Clone, Copy, Debug, PartialEq, Eq)]
pub enum Kind {
    /// An error: the number 1.
    Error,
    /// A warning: the number 2.
    Warning,
    /// An information: the number 3.
    Info,
    /// A line of a log: the number 4.
    Log,
}

impl Kind {
    /// The number of the kind.
    fn number(self) -> u64
        ensures { result ≡ kind_number self }
    {
        match self {
            Kind::Error => 1,
            Kind::Warning => 2,
            Kind::Info => 3,
            Kind::Log => 4,
        }
    }
}

/// The notification of `method` that says `text`.
fn message_value(alloc: Global, method: &str, kind: Kind, text: &str) -> Result<Value, Memory>
    ensures { IfOk result (λ v. view v ≡ message_data method.now kind text.now) }
{
    let number = kind.number();
    json!(in alloc; {
        "jsonrpc": "2.0",
        "method": method,
        "params": {"message": text, "type": number}
    })
}

/// The notification that the progress of reading is `value`.
fn progress_value(alloc: Global, value: Value) -> Result<Value, Memory>
    ensures { IfOk result (λ v. view v ≡ progress_data (view value)) }
{
    json!(in alloc; {
        "jsonrpc": "2.0",
        "method": "$/progress",
        "params": {"token": "pq_server:read", "value": value}
    })
}

/// The notification that reading begins.
fn begun_value(alloc: Global, title: &str) -> Result<Value, Memory>
    ensures { IfOk result (λ v. view v ≡ begun_data title.now) }
{
    let value = json!(in alloc; {"cancellable": false, "kind": "begin", "title": title})?;
    progress_value(alloc, value)
}

/// The notification that reading is over.
fn ended_value(alloc: Global) -> Result<Value, Memory>
    ensures { IfOk result (λ v. view v ≡ ended_data) }
{
    let value = json!(in alloc; {"kind": "end"})?;
    progress_value(alloc, value)
}

/// The body of the notification that puts `text` into the log of the editor (LSP 3.17, "LogMessage
/// Notification").
///
/// Only `Memory` is an error, after an allocation failure.
pub fn log_message(alloc: Global, kind: Kind, text: &str) -> Result<String, Memory>
    // The notification `window/logMessage` with this text and the number of this kind.
    ensures { IfOk result (λ s. string_bytes s ≡ log_text kind text.now) }
{
    message_value(alloc, "window/logMessage", kind, text)?.to_string(alloc)
}

/// The body of the notification that shows `text` to the user of the editor (LSP 3.17, "ShowMessage
/// Notification").
///
/// Only `Memory` is an error, after an allocation failure.
pub fn show_message(alloc: Global, kind: Kind, text: &str) -> Result<String, Memory>
    // The notification `window/showMessage` with this text and the number of this kind.
    ensures { IfOk result (λ s. string_bytes s ≡ show_text kind text.now) }
{
    message_value(alloc, "window/showMessage", kind, text)?.to_string(alloc)
}

/// The text of [`REFRESH`].
pub fn refresh_request() -> &'static str
    // The request `workspace/diagnostic/refresh` with the id `pq_server:refresh`.
    ensures { result.now ≡ compact_text refresh_data }
{
    REFRESH
}

/// The text of [`BEGIN_PROGRESS_REQUEST`].
pub fn begin_progress_request() -> &'static str
    // The request `window/workDoneProgress/create`, whose id and token are `pq_server:read`.
    ensures { result.now ≡ compact_text begin_progress_data }
{
    BEGIN_PROGRESS_REQUEST
}

/// The body of the notification that the progress of reading begins, under this title (LSP 3.17,
/// "WorkDoneProgressBegin"). The user cannot cancel it.
///
/// Only `Memory` is an error, after an allocation failure.
pub fn progress_begun(alloc: Global, title: &str) -> Result<String, Memory>
    // The notification `$/progress` of the token `pq_server:read`, which begins with this title.
    ensures { IfOk result (λ s. string_bytes s ≡ begun_text title.now) }
{
    begun_value(alloc, title)?.to_string(alloc)
}

/// The body of the notification that the progress of reading is over (LSP 3.17,
/// "WorkDoneProgressEnd").
///
/// Only `Memory` is an error, after an allocation failure.
pub fn progress_ended(alloc: Global) -> Result<String, Memory>
    // The notification `$/progress` of the token `pq_server:read`, which ends it.
    ensures { IfOk result (λ s. string_bytes s ≡ ended_text) }
{
    ended_value(alloc)?.to_string(alloc)
}
