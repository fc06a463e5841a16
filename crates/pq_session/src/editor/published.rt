//! The messages that the server sends of itself.
ghost use Rattle.std.specs.Prelude.{◌≡◌, codes, string_bytes, IfOk};
ghost use Rattle.serde_json.specs.Data.{string};
ghost use Rattle.serde_json.specs.Written.{compact_text};
ghost use Rattle.pq_session.specs.Editor.{version_text as text_of_version, published_text as text_published};

use pq_proto::Printer;
use std::alloc::{AllocError, Global};

/// The body of the request that asks a client to say which files change on the disk (LSP 3.17,
/// "Register Capability", "DidChangeWatchedFilesRegistrationOptions"): those whose names end in
/// `.proto`, in each folder. The request and the registration have the id `pq_server:watch`.
pub const WATCH_FILES: &str =
    "{\"id\":\"pq_server:watch\",\"jsonrpc\":\"2.0\",\"method\":\"client/registerCapability\",\"params\":{\"registrations\":[{\"id\":\"pq_server:watch\",\"method\":\"workspace/didChangeWatchedFiles\",\"registerOptions\":{\"watchers\":[{\"globPattern\":\"**/*.proto\"}]}}]}}";

/// The list of a file without diagnostics.
pub fn empty_list() -> &'static str
    // The text `[]`.
    ensures { result.now ≡ codes "[]" }
{
    "[]"
}

/// `text` as a JSON string.
fn json_string(alloc: Global, text: &str) -> Result<String, AllocError>
    ensures { IfOk result (λ s. string_bytes s ≡ compact_text (string text.now)) }
{
    let mut out = Printer::new(alloc);
    out.text(text)?;
    Ok(out.into_string())
}

/// The member `version` of a notification, with the comma before it. It is empty without a version.
fn version_text(alloc: Global, version: Option<i64>) -> Result<String, AllocError>
    ensures { IfOk result (λ s. string_bytes s ≡ text_of_version version) }
{
    match version {
        Some(version) => format!(in alloc; ",\"version\":{version}"),
        None => String::from_str(alloc, ""),
    }
}

/// The body of the notification `textDocument/publishDiagnostics` for the document `uri` at `version`
/// (LSP 3.17, "PublishDiagnosticsParams"), without white space and with the members in the order of
/// their names. `list` is the JSON array of the diagnostics, as [`diagnostic_list`] gives it. It is
/// put in as it is, and not read.
///
/// Only `Memory` is an error, after an allocation failure.
///
/// [`diagnostic_list`]: crate::diagnostic_list
#[tactic(auto, unfolding(crate::specs::Editor::published_text))]
pub fn published_text(
    alloc: Global,
    uri: &str,
    version: Option<i64>,
    list: &str,
) -> Result<String, AllocError>
    // The notification into which a printed list is put.
    ensures { IfOk result (λ s. string_bytes s ≡ text_published uri.now version list.now) }
{
    let uri = json_string(alloc, uri)?;
    let version = version_text(alloc, version)?;
    format!(in alloc;
        "{{\"jsonrpc\":\"2.0\",\"method\":\"textDocument/publishDiagnostics\",\"params\":{{\"diagnostics\":{list},\"uri\":{uri}{version}}}}}"
    )
}
