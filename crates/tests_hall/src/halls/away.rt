//! A client that goes away after each line of its script, while another one stays.
//!
//! Client 0 makes the first lines of its script, and goes away. Client 1 makes its lines then. They
//! are one text for all rows: its replies are those of a run in which client 0 stays. In this text
//! `%` is the revision, which counts the edits that were carried.
use crate::checks::text_of;
use crate::halls::check_both;
use std::process::Abort;
use std::sync::Wait;
use std::thread::Threads;
use std::time::Clock;
use test_support::Page;

/// The lines of client 0: a reply at once, an edit, a run, and a run whose work is held, with two
/// more requests of its key behind it. An edit overtakes the run, and a withdrawal ends it.
const GOES: &str = r#"say 0 {"id":0,"jsonrpc":"2.0","method":"initialize","params":{}} => 0
carry 0 - => accepted 0
take 0 - => 0 at 0 plain
edit 0 held.proto=x => 1
carry 0 - => edited 1
ask 0 c.proto => 1
carry 0 - => accepted 1
take 0 - => 1 at 1 answered
ask 0 held.proto => 2
carry 0 - => accepted 2
held 0 => yes
asks 0 2 held.proto => 4
carries 0 2 => accepted 4
edit 0 c.proto=y => 5
carry 0 - => edited 2
withdraw 0 held.proto => 5
carry 0 - => withdrew
end 0 - => 5
carry 0 - => ended"#;

/// How client 0 goes away: each line is a way, in which `|` is a line feed. By the first it stays.
/// By the next ones it gives up the end whose posts are carried, gives up the end that takes, and
/// is closed. By the last it does all three. 64 clients can be open, and three joined before.
const WAYS: &str = "\
    crowd 70 => 61|\n\
    drop 0 - => dropped|ask 0 b.proto => nobody carries the posts|\n\
    deaf 0 - => dropped|\n\
    close 0 - => closed|crowd 70 => 62|\n\
    drop 0 - => dropped|deaf 0 - => dropped|close 0 - => closed|crowd 70 => 62|";

/// The lines of client 1. The gate is opened before, so that a worker is free.
const STAYS: &str = r#"free 0 => in time
say 1 {"id":0,"jsonrpc":"2.0","method":"initialize","params":{}} => 0
carry 1 - => accepted 0
text 1 - => {"id":0,"jsonrpc":"2.0","result":{"capabilities":{"definitionProvider":true,"diagnosticProvider":{"interFileDependencies":true,"workspaceDiagnostics":false},"documentSymbolProvider":true,"positionEncoding":"utf-16","textDocumentSync":{"change":2,"openClose":true}},"serverInfo":{"name":"pq_server"}}}
edit 1 b.proto=syntax = "proto3"; message B { int32 x = 0; } => 1
carry 1 - => edited %
say 1 {"id":1,"jsonrpc":"2.0","method":"textDocument/diagnostic","params":{"textDocument":{"uri":"file:///b.proto"}}} => 1
asks 1 2 held.proto => 3
ask 1 c.proto => 4
carries 1 4 => accepted 4
text 1 - => {"id":1,"jsonrpc":"2.0","result":{"items":[{"code":"P120","message":"field number must be from 1 to 536870911","range":{"end":{"character":42,"line":0},"start":{"character":41,"line":0}},"severity":1,"source":"proto"}],"kind":"full","resultId":"%"}}
takes 1 3 => 2 at % answered to 4
mark % => yes
end 1 - => 5
carry 1 - => ended"#;

/// Writes `text` with `new` for each `mark`.
fn add_replaced(page: &mut Page, text: &str, mark: &str, new: &str) {
    match text.replace(page.alloc, mark, new) {
        Ok(text) => page.add(text.as_str()),
        Err(_) => page.cut(),
    }
}

/// Checks the lines of client 1 after the lines `before` of client 0, which goes away by `way`.
fn check_away<R>(rt: &R, before: &str, way: &str)
where
    R: Abort + AllocGlobal + Clock + Threads + Wait + Copy + Drop + Send + Sync + 'static,
{
    let edits = before.matches(" => edited ").count();
    let mut revision = Page::new(rt.alloc());
    revision.number(edits.saturating_add(1));
    let mut script = Page::new(rt.alloc());
    script.add(before);
    add_replaced(&mut script, way, "|", "\n");
    add_replaced(&mut script, STAYS, "%", text_of(rt, &revision));
    let rows = text_of(rt, &script);
    check_both(rt, rows.lines().count(), rows);
}

/// Checks each way in which client 0 goes away after its lines `before`.
fn check_ways<R>(rt: &R, before: &str)
where
    R: Abort + AllocGlobal + Clock + Threads + Wait + Copy + Drop + Send + Sync + 'static,
{
    for way in WAYS.lines() {
        check_away(rt, before, way);
    }
}

// With one worker and with two. A client that goes away is closed, and nothing else changes.
#[test]
fn a_client_goes_away_at_each_line(rt: HostRuntime) {
    let mut before = Page::new(rt.alloc());
    check_ways(&rt, text_of(&rt, &before));
    for line in GOES.lines() {
        before.add(line);
        before.add("\n");
        check_ways(&rt, text_of(&rt, &before));
    }
}
