//! Sessions over a library: what the program writes, byte for byte.
use super::scratch::{make, path_of};
use super::support::{check_text, split_row};
use crate::library::{read_library, run_library_script};
use pq_frame::{Memory, frame};
use pq_proto::ProtoRules;
use pq_session::Counted;
use std::fs;
use std::process::Abort;
use std::rt::Files;
use std::test::Fail;

/// The library of each session. It makes the revisions 1 and 2, since `notes.txt` is not read.
const LIBRARY: &str =
    r#"common/kind.proto = syntax = "proto3"; package common; enum Kind { NONE = 0; }
piece.proto = syntax = "proto3"; import "common/kind.proto"; message Piece { common.Kind kind = 1; }
notes.txt = syntax = "proto3"; message Note {}"#;

/// How each session begins. `> BODY` is a frame of the client, and `< BODY` one of the server.
pub(super) const BEGIN: &str = r#"> {"id":0,"jsonrpc":"2.0","method":"initialize","params":{}}
< {"id":0,"jsonrpc":"2.0","result":{"capabilities":{"definitionProvider":true,"diagnosticProvider":{"interFileDependencies":true,"workspaceDiagnostics":false},"documentSymbolProvider":true,"positionEncoding":"utf-16","textDocumentSync":{"change":2,"openClose":true}},"serverInfo":{"name":"pq_server"}}}"#;

/// An import of a file of the library.
const FOUND: &str =
    r#"> {"jsonrpc":"2.0","method":"textDocument/didOpen","params":{"textDocument":{"uri":"file:///a.proto","text":"syntax = \"proto3\";\nimport \"common/kind.proto\";\nmessage M { common.Kind kind = 1; }"}}}
> {"id":1,"jsonrpc":"2.0","method":"textDocument/diagnostic","params":{"textDocument":{"uri":"file:///a.proto"}}}
< {"id":1,"jsonrpc":"2.0","result":{"items":[],"kind":"full","resultId":"3"}}
> {"id":2,"jsonrpc":"2.0","method":"shutdown"}
< {"id":2,"jsonrpc":"2.0","result":null}
> {"jsonrpc":"2.0","method":"exit"}"#;

/// What an editor opens takes the place of the file of the library, for an importer in the library
/// too.
const REPLACED: &str =
    r#"> {"id":1,"jsonrpc":"2.0","method":"textDocument/diagnostic","params":{"textDocument":{"uri":"file:///piece.proto"}}}
< {"id":1,"jsonrpc":"2.0","result":{"items":[],"kind":"full","resultId":"2"}}
> {"jsonrpc":"2.0","method":"textDocument/didOpen","params":{"textDocument":{"uri":"file:///common/kind.proto","text":"syntax = \"proto3\";"}}}
> {"id":1,"jsonrpc":"2.0","method":"textDocument/diagnostic","params":{"textDocument":{"uri":"file:///piece.proto"}}}
< {"id":1,"jsonrpc":"2.0","result":{"items":[{"code":"P150","message":"type \"common.Kind\" is not found","range":{"end":{"character":74,"line":0},"start":{"character":63,"line":0}},"severity":1,"source":"proto"}],"kind":"full","resultId":"3"}}"#;

/// A file whose name does not end in `.proto` is not read.
const OTHER_NAMES: &str =
    r#"> {"jsonrpc":"2.0","method":"textDocument/didOpen","params":{"textDocument":{"uri":"file:///a.proto","text":"syntax = \"proto3\";\nimport \"notes.txt\";"}}}
> {"id":1,"jsonrpc":"2.0","method":"textDocument/diagnostic","params":{"textDocument":{"uri":"file:///a.proto"}}}
< {"id":1,"jsonrpc":"2.0","result":{"items":[{"code":"P102","message":"import \"notes.txt\" is not found","range":{"end":{"character":18,"line":1},"start":{"character":7,"line":1}},"severity":1,"source":"proto"}],"kind":"full","resultId":"3"}}"#;

/// The frames of the rows of `side`, which is `<` or `>`.
pub(super) fn frames_of(
    rt: &(impl Abort + AllocGlobal),
    rows: &str,
    side: &str,
) -> Result<Vec<u8>, Memory> {
    let mut bytes = Vec::new(rt.alloc());
    for row in rows.lines() {
        let (mark, body) = split_row(rt, row, " ");
        if mark == side {
            bytes.extend_from_slice(&frame(rt.alloc(), body.as_bytes())?)?;
        }
    }
    Ok(bytes)
}

/// The status of a script over the folder `dir`. What it writes is added to `written`.
fn status_over(
    rt: &(impl AllocGlobal + Files + Eprint + Clone + Drop),
    dir: &str,
    sent: &[u8],
    written: &mut Vec<u8>,
) -> u8 {
    let library = read_library(rt, dir);
    let mut reader = Counted::new(sent);
    let mut writer = Counted::new(written);
    let mut errors = Counted::new(Vec::new(rt.alloc()));
    let rules = ProtoRules { loose: false };
    run_library_script(
        rt.alloc(),
        rules,
        library,
        &mut reader,
        &mut writer,
        &mut errors,
    )
}

/// Checks that `found` is `wanted`; `rows` names the session.
fn check_bytes(
    rt: &(impl Abort + AllocGlobal),
    found: &[u8],
    wanted: &[u8],
    rows: &str,
) -> Result<(), Fail> {
    let found = String::from_utf8_lossy(rt.alloc(), found)?;
    let wanted = String::from_utf8_lossy(rt.alloc(), wanted)?;
    check_text(rt, found.as_str(), wanted.as_str(), rows);
    Ok(())
}

/// Checks what the program writes in a session of `rows` over the folder `dir`, and the status.
fn check_session(
    rt: &(impl Abort + AllocGlobal + Files + Eprint + Clone + Drop),
    dir: &str,
    rows: &str,
    status: u8,
) -> Result<(), Fail> {
    let rows = format!(in rt.alloc(); "{BEGIN}\n{rows}")?;
    let sent = frames_of(rt, rows.as_str(), ">")?;
    let mut written = Vec::new(rt.alloc());
    let found = status_over(rt, dir, sent.as_slice(), &mut written);
    assert_eq!(rt; found, status, "{rows}");
    let wanted = frames_of(rt, rows.as_str(), "<")?;
    check_bytes(rt, written.as_slice(), wanted.as_slice(), rows.as_str())
}

#[test]
fn sessions(rt: HostRuntime) -> Result<(), Fail> {
    let base = path_of(&rt, rt.process(), "sessions")?;
    make(&rt, base.as_str(), LIBRARY)?;
    check_session(&rt, base.as_str(), FOUND, 0)?;
    check_session(&rt, base.as_str(), REPLACED, 1)?;
    check_session(&rt, base.as_str(), OTHER_NAMES, 1)?;
    fs::remove_dir_all(&rt, base.as_str())?;
    Ok(())
}
