//! What messages tell beside what they ask for.
//!
//! A row is `BODY => EVENT`, or `BODY => ROOT` for the root of a session after the body.
use crate::checks::{check_page, check_row_count, check_table, split_row};
use pq_core::Label;
use pq_frame::Message;
use pq_session::{
    Event, Greeting, Memory, Previous, Root, Session, event_of, plain_uri, scheme_of,
    with_plain_uri, without_root,
};
use std::alloc::Global;
use std::process::Abort;
use test_support::Page;

/// Writes what `initialize` says.
fn add_greeting(page: &mut Page, greeting: &Greeting) {
    page.add("Greets");
    if greeting.pulls {
        page.add(" pulls");
    }
    if greeting.watches {
        page.add(" watches");
    }
    if greeting.refreshes {
        page.add(" refreshes");
    }
    if greeting.reports_progress {
        page.add(" reports");
    }
    add_roots(page, &greeting.roots);
}

/// Writes folders.
fn add_roots(page: &mut Page, roots: &[Root]) {
    for root in roots {
        page.add(" ");
        page.add(root.path());
    }
}

/// Writes the label of a request.
fn add_label(page: &mut Page, label: &Label) {
    match label {
        Label::None => page.add("none"),
        Label::Unsigned(n) => page.number(*n as usize),
        Label::Negative(n) => page.signed(*n),
        Label::Text(text) => page.add(text.as_str()),
    }
}

/// Writes the request for the diagnostics of all files.
fn add_workspace(page: &mut Page, label: &Label, has: &[Previous]) {
    page.add("AsksWorkspace ");
    add_label(page, label);
    for previous in has {
        page.add(" ");
        page.add(previous.uri.as_str());
        page.add("@");
        page.add(previous.result.as_str());
    }
}

/// Writes what is told of a document.
fn add_document(page: &mut Page, told: &str, uri: &str, version: Option<i64>) {
    page.add(told);
    page.add(" ");
    page.add(uri);
    if let Some(version) = version {
        page.add(" ");
        page.signed(version);
    }
}

/// Writes the files that changed on the disk.
fn add_touched(page: &mut Page, uris: &[String]) {
    page.add("Touches");
    for uri in uris {
        page.add(" ");
        page.add(uri.as_str());
    }
}

/// Writes an event.
fn add_event(page: &mut Page, event: &Event) {
    match event {
        Event::Greets(greeting) => add_greeting(page, greeting),
        Event::ShutsDown => page.add("ShutsDown"),
        Event::Ready => page.add("Ready"),
        Event::Opens { uri, version } => add_document(page, "Opens", uri.as_str(), *version),
        Event::Changes { uri, version } => add_document(page, "Changes", uri.as_str(), *version),
        Event::Closes { uri } => add_document(page, "Closes", uri.as_str(), None),
        Event::Saves { uri } => add_document(page, "Saves", uri.as_str(), None),
        Event::Removes { uri } => add_document(page, "Removes", uri.as_str(), None),
        Event::Touches(uris) => add_touched(page, uris),
        Event::ChangesFolders { added, removed } => {
            page.add("ChangesFolders");
            add_roots(page, added);
            page.add(" -");
            add_roots(page, removed);
        }
        Event::AsksLinks { label, uri } => {
            page.add("AsksLinks ");
            add_label(page, label);
            page.add(" ");
            page.add(uri.as_str());
        }
        Event::AsksWorkspace { label, has } => add_workspace(page, label, has),
        Event::Answers => page.add("Answers"),
        Event::Other => page.add("Other"),
    }
}

/// The event of the message that `body` is.
fn event_in(alloc: Global, body: &str) -> Result<Event, Memory> {
    event_of(alloc, &Message::read(alloc, body.as_bytes())?)
}

/// Writes the event of the message that `body` is.
fn show_event(page: &mut Page, body: &str) {
    match event_in(page.alloc, body) {
        Ok(event) => add_event(page, &event),
        Err(_) => page.cut(),
    }
}

const EVENTS: &str = r#"{"id":0,"jsonrpc":"2.0","method":"initialize"} => Greets
{"id":0,"jsonrpc":"2.0","method":"initialize","params":{"rootUri":"file:///p//","capabilities":{"textDocument":{"diagnostic":{}},"workspace":{"didChangeWatchedFiles":{"dynamicRegistration":true}}}}} => Greets pulls watches /p
{"id":0,"jsonrpc":"2.0","method":"initialize","params":{"rootUri":"file:///p","workspaceFolders":[{"uri":"file:///a","name":"a"}],"capabilities":{"textDocument":{"diagnostic":null},"workspace":{"didChangeWatchedFiles":{"dynamicRegistration":false}}}}} => Greets /a
{"id":0,"jsonrpc":"2.0","method":"initialize","params":{"rootUri":"file:///p","workspaceFolders":[{"uri":"untitled:x"}],"capabilities":{"workspace":{"diagnostics":{"refreshSupport":true}},"window":{"workDoneProgress":true}}}} => Greets refreshes reports /p
{"id":0,"jsonrpc":"2.0","method":"initialize","params":{"rootUri":"FILE://localhost/p","workspaceFolders":[],"capabilities":{"workspace":{"diagnostics":{"refreshSupport":1}},"window":{}}}} => Greets /p
{"id":0,"jsonrpc":"2.0","method":"initialize","params":{"rootUri":null,"workspaceFolders":[{"uri":"file:///a%20b","name":"a"},{"uri":"untitled:x"},{"name":"y"},{"uri":"file:///b/"}],"capabilities":{"textDocument":{},"workspace":{}}}} => Greets /a b /b
{"id":0,"jsonrpc":"2.0","method":"initialize","params":{"rootUri":"https://host/p","workspaceFolders":[{"uri":"file:///b"}],"capabilities":{"textDocument":{"diagnostic":true}}}} => Greets /b
{"id":0,"jsonrpc":"2.0","method":"initialize","params":{"rootUri":7,"workspaceFolders":null,"capabilities":null}} => Greets
{"jsonrpc":"2.0","method":"initialized","params":{}} => Ready
{"jsonrpc":"2.0","method":"textDocument/didOpen","params":{"textDocument":{"uri":"file:///a.proto","languageId":"proto","version":3,"text":"hi"}}} => Opens file:///a.proto 3
{"jsonrpc":"2.0","method":"textDocument/didOpen","params":{"textDocument":{"uri":"file:///a.proto","text":"hi"}}} => Opens file:///a.proto
{"jsonrpc":"2.0","method":"textDocument/didOpen","params":{"textDocument":{"uri":7}}} => Other
{"jsonrpc":"2.0","method":"textDocument/didChange","params":{"textDocument":{"uri":"file:///a.proto","version":-4},"contentChanges":[]}} => Changes file:///a.proto -4
{"jsonrpc":"2.0","method":"textDocument/didChange","params":{"textDocument":{"uri":"file:///a.proto","version":null},"contentChanges":[]}} => Changes file:///a.proto
{"jsonrpc":"2.0","method":"textDocument/didClose","params":{"textDocument":{"uri":"file:///a.proto"}}} => Closes file:///a.proto
{"jsonrpc":"2.0","method":"textDocument/didSave","params":{"textDocument":{"uri":"file:///a.proto"},"text":"hi"}} => Saves file:///a.proto
{"jsonrpc":"2.0","method":"proto/removeFile","params":{"textDocument":{"uri":"file:///a.proto"}}} => Removes file:///a.proto
{"jsonrpc":"2.0","method":"workspace/didChangeWatchedFiles","params":{"changes":[{"uri":"file:///a.proto","type":1},{"uri":"file:///b.proto","type":3}]}} => Touches file:///a.proto file:///b.proto
{"jsonrpc":"2.0","method":"workspace/didChangeWatchedFiles","params":{"changes":[]}} => Touches
{"jsonrpc":"2.0","method":"workspace/didChangeWatchedFiles","params":{"changes":[{"type":1}]}} => Other
{"jsonrpc":"2.0","method":"workspace/didChangeWatchedFiles"} => Other
{"jsonrpc":"2.0","method":"textDocument/didClose"} => Other
{"jsonrpc":"2.0","method":"$/cancelRequest","params":{"id":1}} => Other
{"jsonrpc":"2.0","method":"initialize","params":{"textDocument":{"uri":"file:///a.proto"}}} => Other
{"id":1,"jsonrpc":"2.0","method":"textDocument/didOpen","params":{"textDocument":{"uri":"file:///a.proto"}}} => Other
{"id":1,"jsonrpc":"2.0","method":"shutdown"} => ShutsDown
{"jsonrpc":"2.0","method":"shutdown"} => Other
{"jsonrpc":"2.0","method":"workspace/didChangeWorkspaceFolders","params":{"event":{"added":[{"uri":"file:/a","name":"a"},{"uri":"untitled:x","name":"x"}],"removed":[{"uri":"file:///b/","name":"b"},{"name":"c"}]}}} => ChangesFolders /a - /b
{"jsonrpc":"2.0","method":"workspace/didChangeWorkspaceFolders","params":{}} => ChangesFolders -
{"id":3,"jsonrpc":"2.0","method":"textDocument/documentLink","params":{"textDocument":{"uri":"file:///a.proto"}}} => AsksLinks 3 file:///a.proto
{"id":"x","jsonrpc":"2.0","method":"textDocument/documentLink","params":{"textDocument":{"uri":"file:/a.proto"}}} => AsksLinks x file:/a.proto
{"id":3,"jsonrpc":"2.0","method":"textDocument/documentLink","params":{}} => Other
{"jsonrpc":"2.0","method":"textDocument/documentLink","params":{"textDocument":{"uri":"file:///a.proto"}}} => Other
{"id":-1,"jsonrpc":"2.0","method":"workspace/diagnostic","params":{"previousResultIds":[{"uri":"file:///a","value":"4"},{"uri":"file:///b"},{"value":"5"},7,{"uri":"file:///c","value":"6"}]}} => AsksWorkspace -1 file:///a@4 file:///c@6
{"id":1,"jsonrpc":"2.0","method":"workspace/diagnostic"} => AsksWorkspace 1
{"id":"pq_server:watch","jsonrpc":"2.0","result":null} => Answers
{"id":7,"jsonrpc":"2.0","error":{}} => Answers
{} => Other
hi => Other"#;

#[test]
fn what_messages_tell(rt: HostRuntime) {
    check_table(&rt, 39, EVENTS, show_event);
}

/// Writes the root of a session that has read `body` without its root.
fn add_root(page: &mut Page, session: &Session) {
    match session.root() {
        Some(root) => {
            page.add("a root of the path ");
            page.add(root.path());
            page.add(".");
        }
        None => page.add("before a root"),
    }
}

/// A session that has read `body`, without its root where it is an `initialize`.
fn session_after(alloc: Global, body: &str) -> Result<Session, Memory> {
    let mut session = Session::new();
    let message = without_root(Message::read(alloc, body.as_bytes())?);
    session.on(alloc, message)?;
    Ok(session)
}

/// Writes the root of a session that has read `body`.
fn show_root(page: &mut Page, body: &str) {
    match session_after(page.alloc, body) {
        Ok(session) => add_root(page, &session),
        Err(_) => page.cut(),
    }
}

const ROOTS: &str =
    r#"{"id":0,"jsonrpc":"2.0","method":"initialize","params":{"rootUri":"file:///p"}} => a root of the path .
{"id":0,"jsonrpc":"2.0","method":"initialize"} => a root of the path .
{"id":0,"jsonrpc":"2.0","method":"shutdown"} => before a root
{"jsonrpc":"2.0","method":"initialize","params":{"rootUri":"file:///p"}} => before a root"#;

#[test]
fn a_session_without_a_root(rt: HostRuntime) {
    check_table(&rt, 4, ROOTS, show_root);
}

/// Writes the name of the file at `path` below the root.
fn add_below(page: &mut Page, root: &Root, path: &str) {
    match root.name_below(path) {
        Some(name) => page.add(name),
        None => page.add("-"),
    }
}

const BELOW: &str = "/p/ /p/a/b.proto => a/b.proto
/p /p//b.proto => b.proto
/p /p/ => -
/p /q/b.proto => -
/p /pq/b.proto => -
/ /b.proto => b.proto";

#[test]
fn names_below_roots(rt: HostRuntime) {
    check_row_count(&rt, 6, BELOW);
    for row in BELOW.lines() {
        let (asked, want) = split_row(&rt, row, " => ");
        let (folder, path) = split_row(&rt, asked, " ");
        let root = Root::at(rt.alloc(), folder).expect(&rt, "memory");
        let mut page = Page::new(rt.alloc());
        add_below(&mut page, &root, path);
        check_page(&rt, &page, want, row);
    }
}

/// Writes the plain form of a URI, and its scheme.
fn show_plain(page: &mut Page, uri: &str) {
    match plain_uri(page.alloc, uri) {
        Ok(plain) => page.add(plain.as_str()),
        Err(_) => page.cut(),
    }
    page.add(" ");
    page.add(scheme_of(uri));
}

const PLAIN: &str = "file:///a%20b => file:///a%20b file
FILE:///a => file:///a FILE
File:/a:b => file:///a:b File
file:/ => file:/// file
file://LocalHost/a//b => file:///a//b file
file:////a => file:////a file
file://localhost => file://localhost file
file://host/a => file://host/a file
file://localhost:80/a => file://localhost:80/a file
file:a => file:a file
file: => file: file
files:///a => files:///a files
untitled:/a => untitled:/a untitled
/a => /a ";

#[test]
fn plain_forms_of_uris(rt: HostRuntime) {
    check_table(&rt, 14, PLAIN, show_plain);
}

/// The event of the message that `body` is, with a plain URI.
fn plain_event_in(alloc: Global, body: &str) -> Result<Event, Memory> {
    let message = with_plain_uri(alloc, Message::read(alloc, body.as_bytes())?)?;
    event_of(alloc, &message)
}

/// Writes the event of the message that `body` is, with a plain URI.
fn show_plain_event(page: &mut Page, body: &str) {
    match plain_event_in(page.alloc, body) {
        Ok(event) => add_event(page, &event),
        Err(_) => page.cut(),
    }
}

const PLAIN_EVENTS: &str =
    r#"{"jsonrpc":"2.0","method":"textDocument/didOpen","params":{"textDocument":{"uri":"File:/a.proto","version":3,"text":"hi"}}} => Opens file:///a.proto 3
{"id":1,"jsonrpc":"2.0","method":"textDocument/documentLink","params":{"textDocument":{"uri":"file://localhost/a"}}} => AsksLinks 1 file:///a
{"jsonrpc":"2.0","method":"textDocument/didSave","params":{"textDocument":{"uri":"untitled:a"}}} => Saves untitled:a
{"jsonrpc":"2.0","method":"textDocument/didSave","params":{"textDocument":{"uri":7}}} => Other
{"jsonrpc":"2.0","method":"textDocument/didSave","params":{"textDocument":"file:/a"}} => Other
{"jsonrpc":"2.0","method":"workspace/didChangeWatchedFiles","params":{"changes":[{"uri":"file:/a"}]}} => Touches file:/a
{"jsonrpc":"2.0","method":"initialized"} => Ready
hi => Other"#;

#[test]
fn messages_with_plain_uris(rt: HostRuntime) {
    check_table(&rt, 8, PLAIN_EVENTS, show_plain_event);
}
