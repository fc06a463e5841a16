//! Scripts over the stored session that is cut at each place, read as it comes and byte by byte.
//!
//! The session is `examples/first_session.in`, byte for byte. A row is `BODY => REPLY`, `-` if
//! there is none. Written are the replies to the messages that are whole before the cut.
use super::check_outcome;
use super::longest::add_frame;
use crate::checks::{check_number, check_pages, text_of};
use pq_session::{Counted, ScriptFault, script};
use std::alloc::Global;
use std::io;
use std::io::Read;
use std::process::Abort;
use test_support::Page;

/// The messages of the stored session, and the replies of the server.
const SESSION: &str =
    r#"{"id":0,"jsonrpc":"2.0","method":"initialize","params":{}} => {"id":0,"jsonrpc":"2.0","result":{"capabilities":{"definitionProvider":true,"diagnosticProvider":{"interFileDependencies":true,"workspaceDiagnostics":false},"documentSymbolProvider":true,"positionEncoding":"utf-16","textDocumentSync":{"change":2,"openClose":true}},"serverInfo":{"name":"pq_server"}}}
{"jsonrpc":"2.0","method":"textDocument/didOpen","params":{"textDocument":{"uri":"file:///a.proto","languageId":"proto","version":1,"text":"syntax = \"proto3\";\nmessage M { int32 x = 1; }"}}} => -
{"id":1,"jsonrpc":"2.0","method":"textDocument/diagnostic","params":{"textDocument":{"uri":"file:///a.proto"}}} => {"id":1,"jsonrpc":"2.0","result":{"items":[],"kind":"full","resultId":"1"}}
{"id":2,"jsonrpc":"2.0","method":"shutdown"} => {"id":2,"jsonrpc":"2.0","result":null}
{"jsonrpc":"2.0","method":"exit"} => -"#;

/// Gives at most `most` bytes at each read.
#[derive(Drop)]
struct Bits<'a> {
    left: &'a [u8],
    most: usize,
}

impl<'a> Read for Bits<'a> {
    fn read(&mut self, buf: &mut [u8]) -> io::Result<usize> {
        let count = self.left.len().min(buf.len()).min(self.most);
        let (piece, left) = self.left.split_at(count);
        buf[..count].copy_from_slice(piece);
        self.left = left;
        Ok(count)
    }
}

/// Writes what the client sends.
fn add_session(page: &mut Page) {
    for row in SESSION.lines() {
        let (body, _reply) = row.split_once(" => ").unwrap_or((row, ""));
        add_frame(page, body);
    }
}

/// Writes the replies to the messages that are whole in the first `cut` bytes. Returns how a script
/// over these bytes ends.
fn add_replies(page: &mut Page, cut: usize) -> &'static str {
    let mut sent = Page::new(page.alloc);
    for row in SESSION.lines() {
        if sent.len() == cut {
            return "1";
        }
        let (body, reply) = row.split_once(" => ").unwrap_or((row, ""));
        add_frame(&mut sent, body);
        if sent.len() > cut {
            return "Cut";
        }
        if reply != "-" {
            add_frame(page, reply);
        }
    }
    "0"
}

/// Runs a script over `sent`, of which a read gives at most `most` bytes: what it writes, and its
/// outcome.
fn run(alloc: Global, sent: &[u8], most: usize) -> (Vec<u8>, Result<u8, ScriptFault>) {
    let mut output = Vec::new(alloc);
    let mut reader = Counted::new(Bits { left: sent, most });
    let mut writer = Counted::new(&mut output);
    let result = script(alloc, &mut reader, &mut writer);
    (output, result)
}

/// Checks a script over the first bytes `sent` of the session.
fn check_cut(rt: &(impl Abort + AllocGlobal), sent: &[u8], most: usize) {
    let mut row = Page::new(rt.alloc());
    row.number(sent.len());
    row.add(" bytes, at most ");
    row.number(most);
    row.add(" at each read");
    let mut want = Page::new(rt.alloc());
    let end = add_replies(&mut want, sent.len());
    let (output, outcome) = run(rt.alloc(), sent, most);
    check_outcome(rt, &outcome, end, text_of(rt, &row));
    let mut found = Page::new(rt.alloc());
    found.bytes(output.as_slice());
    check_pages(rt, &found, &want, text_of(rt, &row));
}

/// Checks scripts over the first bytes of the session, from none to all of them.
fn check_cuts(rt: &(impl Abort + AllocGlobal), most: usize) {
    let mut session = Page::new(rt.alloc());
    add_session(&mut session);
    check_number(rt, session.len(), 550, "the length of the session");
    let bytes = text_of(rt, &session).as_bytes();
    for cut in 0..bytes.len() {
        let (sent, _rest) = bytes.split_at(cut);
        check_cut(rt, sent, most);
    }
    check_cut(rt, bytes, most);
}

// Where a cut is between two frames, the script ends as a client ends that sends no `exit`.
#[test]
fn a_cut_session_is_answered_up_to_its_cut(rt: HostRuntime) {
    check_cuts(&rt, usize::MAX);
    check_cuts(&rt, 1);
}
