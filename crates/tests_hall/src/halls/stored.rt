//! The stored session through a hall: its texts are those that `script` writes.
use crate::checks::{check_text, split_row};
use crate::halls::check_calls;
use pq_frame::frame;
use pq_session::{Counted, script};
use std::process::Abort;

/// The stored session, call by call.
const STORED: &str = r#"say 0 {"id":0,"jsonrpc":"2.0","method":"initialize","params":{}} => 0
say 0 {"jsonrpc":"2.0","method":"textDocument/didOpen","params":{"textDocument":{"uri":"file:///a.proto","text":"syntax = \"proto3\";\nmessage M { int32 x = 1; }"}}} => 1
say 0 {"id":1,"jsonrpc":"2.0","method":"textDocument/diagnostic","params":{"textDocument":{"uri":"file:///a.proto"}}} => 1
say 0 {"id":2,"jsonrpc":"2.0","method":"shutdown"} => 2
say 0 {"jsonrpc":"2.0","method":"exit"} => 3
carry 0 - => accepted 0
carry 0 - => edited 1
carry 0 - => accepted 1
carry 0 - => accepted 2
carry 0 - => ended
text 0 - => {"id":0,"jsonrpc":"2.0","result":{"capabilities":{"definitionProvider":true,"diagnosticProvider":{"interFileDependencies":true,"workspaceDiagnostics":false},"documentSymbolProvider":true,"positionEncoding":"utf-16","textDocumentSync":{"change":2,"openClose":true}},"serverInfo":{"name":"pq_server"}}}
text 0 - => {"id":1,"jsonrpc":"2.0","result":{"items":[],"kind":"full","resultId":"1"}}
text 0 - => {"id":2,"jsonrpc":"2.0","result":null}"#;

/// The frames of what the calls `word` of `rows` have on one side, which is that of the answers or not.
fn frames_of(rt: &(impl Abort + AllocGlobal), rows: &str, word: &str, is_answer: bool) -> Vec<u8> {
    let mut bytes = Vec::new(rt.alloc());
    for row in rows.lines() {
        let (call, answer) = split_row(rt, row, " => ");
        let (found, rest) = split_row(rt, call, " 0 ");
        if found == word {
            let body = if is_answer { answer } else { rest };
            let frame = frame(rt.alloc(), body.as_bytes()).expect(rt, "memory");
            bytes
                .extend_from_slice(frame.as_slice())
                .expect(rt, "memory");
        }
    }
    bytes
}

// The texts of the stored session are those that `script` writes.
#[test]
fn the_stored_session(rt: HostRuntime) {
    check_calls(&rt, 13, 1, STORED);
    let sent = frames_of(&rt, STORED, "say", false);
    let wanted = frames_of(&rt, STORED, "text", true);
    let mut written = Vec::new(rt.alloc());
    let mut reader = Counted::new(sent.as_slice());
    let mut writer = Counted::new(&mut written);
    let ended = script(rt.alloc(), &mut reader, &mut writer);
    assert_eq!(rt; ended.ok(), Some(0));
    let wanted = String::from_utf8_lossy(rt.alloc(), wanted.as_slice()).expect(&rt, "memory");
    let found = String::from_utf8_lossy(rt.alloc(), written.as_slice()).expect(&rt, "memory");
    check_text(&rt, found.as_str(), wanted.as_str(), "script");
}
