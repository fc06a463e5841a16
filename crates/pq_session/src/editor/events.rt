//! What a message tells beside what it asks for.
//!
//! The session says what is asked for (`Session::on`). An editor's messages also say which documents
//! are open, which files changed on the disk, which folders are open, and what the editor can do (LSP
//! 3.17, "Text Document Synchronization", "DidChangeWatchedFiles Notification",
//! "DidChangeWorkspaceFolders Notification", "ClientCapabilities"). They also ask for what the sources
//! do not answer alone ("Document Link Request", "Workspace Diagnostics").

use crate::protocol::params::{document_text, text_member};
use crate::protocol::root::Root;
use crate::protocol::uris::{decoded_path, plain_uri};
use crate::state::labels::copied_label;
use pq_core::Label;
use pq_frame::Message;
use serde_json::Value;
use std::alloc::{AllocError, Global};

/// What a message tells.
#[derive(Drop)]
pub enum Event {
    /// The request `initialize` (LSP 3.17, "Initialize Request").
    Greets(Greeting),
    /// The request `shutdown` (LSP 3.17, "Shutdown Request").
    ShutsDown,
    /// The notification `initialized` (LSP 3.17, "Initialized Notification").
    Ready,
    /// A document is open from now on (LSP 3.17, "DidOpenTextDocument Notification").
    Opens {
        uri: String,
        version: Option<i64>,
    },
    /// A document changes (LSP 3.17, "DidChangeTextDocument Notification").
    Changes {
        uri: String,
        version: Option<i64>,
    },
    /// A document is open no longer (LSP 3.17, "DidCloseTextDocument Notification").
    Closes {
        uri: String,
    },
    /// A document was written to the disk (LSP 3.17, "DidSaveTextDocument Notification").
    Saves {
        uri: String,
    },
    /// A file is removed (`proto/removeFile`).
    Removes {
        uri: String,
    },
    /// The files of these URIs were made, changed or deleted on the disk (LSP 3.17,
    /// "DidChangeWatchedFiles Notification").
    Touches(Vec<String>),
    /// These folders are open from now on, and those are not any longer (LSP 3.17,
    /// "DidChangeWorkspaceFolders Notification").
    ChangesFolders {
        added: Vec<Root>,
        removed: Vec<Root>,
    },
    /// The request for the links of a document (LSP 3.17, "Document Link Request").
    AsksLinks {
        label: Label,
        uri: String,
    },
    /// The request for the diagnostics of all files (LSP 3.17, "Workspace Diagnostics"), with the
    /// lists that the client has.
    AsksWorkspace {
        label: Label,
        has: Vec<Previous>,
    },
    /// The response to a request of the server.
    Answers,
    /// Nothing of these, or a notification whose members are not readable.
    Other,
}

/// The list of diagnostics that a client has of a file (LSP 3.17, "PreviousResultId").
#[derive(Drop)]
pub struct Previous {
    /// The URI of the file.
    pub uri: String,
    /// The `resultId` of the list.
    pub result: String,
}

/// What a client says of itself in `initialize` (LSP 3.17, "InitializeParams").
#[derive(Drop)]
pub struct Greeting {
    /// The root folders: those of `workspaceFolders` that name paths, in their order, else that of
    /// `rootUri`. The URIs are read in their plain form.
    pub roots: Vec<Root>,
    /// Whether the client asks for diagnostics (LSP 3.17, "DiagnosticClientCapabilities").
    pub pulls: bool,
    /// Whether watchers of files can be registered at the client (LSP 3.17,
    /// "DidChangeWatchedFilesClientCapabilities").
    pub watches: bool,
    /// Whether the client can be told to ask for diagnostics again (LSP 3.17,
    /// "DiagnosticWorkspaceClientCapabilities").
    pub refreshes: bool,
    /// Whether the client shows the progress of the server's work (LSP 3.17, "Server Initiated
    /// Progress").
    pub reports_progress: bool,
}

/// What `message` tells. The message stays as it is, and its texts are copied.
///
/// A notification whose members are not readable is `Other`: where it is an edit, the session ends.
/// Only `Memory` is an error, after an allocation failure.
pub fn event_of(alloc: Global, message: &Message) -> Result<Event, AllocError> {
    match message {
        Message::Ask {
            label,
            method,
            params,
        } => asked(alloc, label, method.as_str(), params.as_ref()),
        Message::Notice { method, params } => told(alloc, method.as_str(), params.as_ref()),
        Message::Response => Ok(Event::Answers),
        _ => Ok(Event::Other),
    }
}

/// An `initialize` without its parameters, and any other message as it is. A session that reads it
/// has the root folder `/`.
pub fn without_root(message: Message) -> Message {
    match message {
        Message::Ask {
            label,
            method,
            params,
        } => {
            let params = if method.as_str() == INITIALIZE {
                None
            } else {
                params
            };
            Message::Ask {
                label,
                method,
                params,
            }
        }
        message => message,
    }
}

/// The method of the first request of a client.
const INITIALIZE: &str = "initialize";

/// What the request of this method tells.
fn asked(
    alloc: Global,
    label: &pq_frame::Label,
    method: &str,
    params: Option<&Value>,
) -> Result<Event, AllocError> {
    if method == INITIALIZE {
        return Ok(Event::Greets(greeting_in(alloc, params)?));
    }
    match method {
        "shutdown" => Ok(Event::ShutsDown),
        "textDocument/documentLink" => asks_links(alloc, label, params),
        "workspace/diagnostic" => Ok(Event::AsksWorkspace {
            label: copied_label(alloc, label)?,
            has: previous_in(alloc, params)?,
        }),
        _ => Ok(Event::Other),
    }
}

/// The request for the links of a document (LSP 3.17, "DocumentLinkParams").
fn asks_links(
    alloc: Global,
    label: &pq_frame::Label,
    params: Option<&Value>,
) -> Result<Event, AllocError> {
    match document_text(params, "uri") {
        Some(uri) => Ok(Event::AsksLinks {
            label: copied_label(alloc, label)?,
            uri: String::from_str(alloc, uri)?,
        }),
        None => Ok(Event::Other),
    }
}

/// The lists that a client has (LSP 3.17, "WorkspaceDiagnosticParams"). Members that are not readable
/// are passed over.
fn previous_in(alloc: Global, params: Option<&Value>) -> Result<Vec<Previous>, AllocError> {
    let mut has = Vec::new(alloc);
    let Some(list) = list_at(params, "/previousResultIds") else {
        return Ok(has);
    };
    'lists: for previous in list {
        push_previous(alloc, &mut has, previous)?;
    }
    Ok(has)
}

/// Appends the list that `previous` says to `has`, if it is readable.
fn push_previous(
    alloc: Global,
    has: &mut Vec<Previous>,
    previous: &Value,
) -> Result<(), AllocError> {
    let Some(uri) = text_member(Some(previous), "uri") else {
        return Ok(());
    };
    let Some(result) = text_member(Some(previous), "value") else {
        return Ok(());
    };
    has.push(Previous {
        uri: String::from_str(alloc, uri)?,
        result: String::from_str(alloc, result)?,
    })?;
    Ok(())
}

/// What the notification of this method tells.
fn told(alloc: Global, method: &str, params: Option<&Value>) -> Result<Event, AllocError> {
    match method {
        "initialized" => return Ok(Event::Ready),
        "workspace/didChangeWatchedFiles" => return touches(alloc, params),
        "workspace/didChangeWorkspaceFolders" => return changes_folders(alloc, params),
        _ => {}
    }
    match document_text(params, "uri") {
        Some(uri) => told_of(alloc, method, uri, version_of(params)),
        None => Ok(Event::Other),
    }
}

/// What the notification of this method tells of the document `uri`.
fn told_of(
    alloc: Global,
    method: &str,
    uri: &str,
    version: Option<i64>,
) -> Result<Event, AllocError> {
    let uri = String::from_str(alloc, uri)?;
    match method {
        "textDocument/didOpen" => Ok(Event::Opens { uri, version }),
        "textDocument/didChange" => Ok(Event::Changes { uri, version }),
        "textDocument/didClose" => Ok(Event::Closes { uri }),
        "textDocument/didSave" => Ok(Event::Saves { uri }),
        "proto/removeFile" => Ok(Event::Removes { uri }),
        _ => Ok(Event::Other),
    }
}

/// The value at `path` in `params`.
fn at<'a>(params: Option<&'a Value>, path: &str) -> Option<&'a Value> {
    match params {
        Some(params) => params.pointer(path),
        None => None,
    }
}

/// The member `version` of `params.textDocument` (LSP 3.17, "VersionedTextDocumentIdentifier").
fn version_of(params: Option<&Value>) -> Option<i64> {
    match at(params, "/textDocument/version") {
        Some(version) => version.as_i64(),
        None => None,
    }
}

/// The list at `path` in `params`.
fn list_at<'a>(params: Option<&'a Value>, path: &str) -> Option<&'a [Value]> {
    match at(params, path) {
        Some(Value::Array(list)) => Some(list.as_slice()),
        _ => None,
    }
}

/// The files of `workspace/didChangeWatchedFiles` (LSP 3.17, "DidChangeWatchedFilesParams").
fn touches(alloc: Global, params: Option<&Value>) -> Result<Event, AllocError> {
    let Some(changes) = list_at(params, "/changes") else {
        return Ok(Event::Other);
    };
    let mut uris = Vec::new(alloc);
    'changes: for change in changes {
        match text_member(Some(change), "uri") {
            Some(uri) => uris.push(String::from_str(alloc, uri)?)?,
            None => return Ok(Event::Other),
        }
    }
    Ok(Event::Touches(uris))
}

/// What `initialize` with these parameters says.
fn greeting_in(alloc: Global, params: Option<&Value>) -> Result<Greeting, AllocError> {
    Ok(Greeting {
        roots: roots(alloc, params)?,
        pulls: has_diagnostics(params),
        watches: has_watchers(params),
        refreshes: is_true(params, "/capabilities/workspace/diagnostics/refreshSupport"),
        reports_progress: is_true(params, "/capabilities/window/workDoneProgress"),
    })
}

/// The root folders of a client.
fn roots(alloc: Global, params: Option<&Value>) -> Result<Vec<Root>, AllocError> {
    let mut roots = folders_at(alloc, params, "/workspaceFolders")?;
    if !roots.is_empty() {
        return Ok(roots);
    }
    if let Some(uri) = text_member(params, "rootUri") {
        push_root(alloc, &mut roots, uri)?;
    }
    Ok(roots)
}

/// The folders in the list at `path` in `params` (LSP 3.17, "WorkspaceFolder"): those that name
/// paths.
fn folders_at(alloc: Global, params: Option<&Value>, path: &str) -> Result<Vec<Root>, AllocError> {
    let mut roots = Vec::new(alloc);
    let Some(folders) = list_at(params, path) else {
        return Ok(roots);
    };
    'folders: for folder in folders {
        if let Some(uri) = text_member(Some(folder), "uri") {
            push_root(alloc, &mut roots, uri)?;
        }
    }
    Ok(roots)
}

/// Appends the root folder of `uri` to `roots`, if the plain form of `uri` names a path.
fn push_root(alloc: Global, roots: &mut Vec<Root>, uri: &str) -> Result<(), AllocError> {
    let uri = plain_uri(alloc, uri)?;
    if let Some(path) = decoded_path(alloc, uri.as_str())? {
        roots.push(Root::at(alloc, path.as_str())?)?;
    }
    Ok(())
}

/// The folders of `workspace/didChangeWorkspaceFolders` (LSP 3.17, "WorkspaceFoldersChangeEvent").
fn changes_folders(alloc: Global, params: Option<&Value>) -> Result<Event, AllocError> {
    Ok(Event::ChangesFolders {
        added: folders_at(alloc, params, "/event/added")?,
        removed: folders_at(alloc, params, "/event/removed")?,
    })
}

/// Whether the client asks for diagnostics.
fn has_diagnostics(params: Option<&Value>) -> bool {
    matches!(
        at(params, "/capabilities/textDocument/diagnostic"),
        Some(Value::Object(_))
    )
}

/// Whether watchers of files can be registered at the client.
fn has_watchers(params: Option<&Value>) -> bool {
    is_true(
        params,
        "/capabilities/workspace/didChangeWatchedFiles/dynamicRegistration",
    )
}

/// Whether the value at `path` in `params` is `true`.
fn is_true(params: Option<&Value>, path: &str) -> bool {
    matches!(at(params, path), Some(Value::Bool(true)))
}
