//! Scripts that open the longest text, and one that is longer by a byte.
use super::check_outcome;
use crate::checks::{check_pages, text_of};
use pq_frame::frame;
use pq_session::{Counted, ScriptFault, script};
use std::alloc::Global;
use std::process::Abort;
use test_support::Page;

const INITIALIZE: &str = r#"{"id":0,"jsonrpc":"2.0","method":"initialize","params":{}}"#;

const INITIALIZED: &str =
    r#"{"id":0,"jsonrpc":"2.0","result":{"capabilities":{"definitionProvider":true,"diagnosticProvider":{"interFileDependencies":true,"workspaceDiagnostics":false},"documentSymbolProvider":true,"positionEncoding":"utf-16","textDocumentSync":{"change":2,"openClose":true}},"serverInfo":{"name":"pq_server"}}}"#;

const DIAGNOSTIC: &str =
    r#"{"id":1,"jsonrpc":"2.0","method":"textDocument/diagnostic","params":{"textDocument":{"uri":"file:///a.proto"}}}"#;

const SHUTDOWN: &str = r#"{"id":2,"jsonrpc":"2.0","method":"shutdown"}"#;

const SHUT_DOWN: &str = r#"{"id":2,"jsonrpc":"2.0","result":null}"#;

/// The reply of no diagnostics at revision 0.
const REPORT: &str =
    r#"{"id":1,"jsonrpc":"2.0","result":{"items":[],"kind":"full","resultId":"0"}}"#;

/// A notification that opens `a.proto`, up to its text.
const OPEN: &str =
    r#"{"jsonrpc":"2.0","method":"textDocument/didOpen","params":{"textDocument":{"uri":"file:///a.proto","text":""#;

/// Writes the frame of `body`.
pub(super) fn add_frame(page: &mut Page, body: &str) {
    match frame(page.alloc, body.as_bytes()) {
        Ok(bytes) => page.bytes(bytes.as_slice()),
        Err(_) => page.cut(),
    }
}

/// Writes the frames of `bodies`.
fn add_frames(page: &mut Page, bodies: &[&str]) {
    for body in bodies {
        add_frame(page, body);
    }
}

/// Writes the frame of a notification that opens `a.proto` with `length` blanks.
fn add_open(input: &mut Page, length: usize) {
    let mut body = Page::new(input.alloc);
    body.add(OPEN);
    body.repeat(" ", length);
    body.add(r#""}}}"#);
    let text = input.rest_on(&body);
    add_frame(input, text);
}

/// Runs a script over `input`: what it writes, and its outcome.
fn run(alloc: Global, input: &[u8]) -> (Vec<u8>, Result<u8, ScriptFault>) {
    let mut output = Vec::new(alloc);
    let mut reader = Counted::new(input);
    let mut writer = Counted::new(&mut output);
    let result = script(alloc, &mut reader, &mut writer);
    (output, result)
}

/// Checks that a script over `input` writes `want`, and has the outcome `end`.
fn check_script(rt: &(impl Abort + AllocGlobal), input: &Page, want: &Page, end: &str, row: &str) {
    let (output, outcome) = run(rt.alloc(), text_of(rt, input).as_bytes());
    check_outcome(rt, &outcome, end, row);
    let mut found = Page::new(rt.alloc());
    found.bytes(output.as_slice());
    check_pages(rt, &found, want, row);
}

/// Checks that a script that opens a text of `length` blanks after a request of diagnostics writes
/// `replies`, and has the outcome `end`.
fn check_length(
    rt: &(impl Abort + AllocGlobal),
    length: usize,
    replies: &[&str],
    end: &str,
    row: &str,
) {
    let mut input = Page::new(rt.alloc());
    add_frame(&mut input, INITIALIZE);
    add_frame(&mut input, DIAGNOSTIC);
    add_open(&mut input, length);
    add_frame(&mut input, SHUTDOWN);
    let mut want = Page::new(rt.alloc());
    add_frames(&mut want, replies);
    check_script(rt, &input, &want, end, row);
}

#[test]
fn the_longest_text(rt: HostRuntime) {
    let replies = [INITIALIZED, REPORT, SHUT_DOWN];
    check_length(&rt, 1_048_576, &replies, "1", "1,048,576 bytes");
    let replies = [INITIALIZED, REPORT];
    check_length(&rt, 1_048_577, &replies, "TextTooLong", "1,048,577 bytes");
}
