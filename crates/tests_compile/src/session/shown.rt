//! What an editor is shown: lists of diagnostics, replies, and notifications.
//!
//! Where an import is not read, P104 is not shown, and the severity of P150 is 3. P020, P021 and P022
//! are not shown. The folders follow the message of P102.
use crate::checks::{check_table, check_text, check_that};
use crate::sets::inputs_of;
use pq_core::{Body, ClientId, Number, Outcome, Reply, Request, Want};
use pq_inputs::{Durability, Inputs};
use pq_names::Text;
use pq_proto::{Place, ProtoKey, ProtoValue, compile};
use pq_rules::Shared;
use pq_session::{
    CutFault, LastSent, ScriptFault, asked_file, change_to, definition_file, diagnostic_list,
    diagnostics_of, editor_text, empty_list, looked_in, published_text, renamed, text_after,
    text_after_cuts,
};
use std::alloc::Global;
use std::process::Abort;
use test_support::{Page, changes_of, text_of_word};

/// A reply without a stamp.
type BareReply = Reply<ProtoKey, ProtoValue, ()>;

/// The reply to `request` for `key`, at the sources of `inputs`.
fn answered(
    rt: &(impl Abort + AllocGlobal),
    inputs: &Inputs,
    request: Request<ProtoKey>,
    key: &ProtoKey,
) -> BareReply {
    let answer = compile(rt.alloc(), inputs, key).expect(rt, "memory");
    let answer = Shared::new(rt.alloc(), answer).expect(rt, "memory");
    let outcome = Outcome::Answered(answer, ());
    Reply::new(
        ClientId::new(0),
        Number::new(1),
        request,
        inputs.now(),
        outcome,
    )
}

/// The name of a file.
fn text(rt: &(impl Abort + AllocGlobal), name: &str) -> Text {
    Text::new(rt.alloc(), name).expect(rt, "memory")
}

/// The reply to a request for the diagnostics of `name`.
fn reply_of(rt: &(impl Abort + AllocGlobal), inputs: &Inputs, name: &str) -> BareReply {
    let key = ProtoKey::Diagnostics(text(rt, name));
    let request = diagnostics_of(rt.alloc(), name).expect(rt, "memory");
    answered(rt, inputs, request, &key)
}

/// The text that follows the message of P102.
const LOOKED: &str = " (looked for in \"/p\")";

/// Checks the list of the diagnostics of `name`.
fn check_list(rt: &(impl Abort + AllocGlobal), inputs: &Inputs, name: &str, want: &str) {
    let reply = reply_of(rt, inputs, name);
    let list = diagnostic_list(rt.alloc(), LOOKED, &reply).expect(rt, "memory");
    let list = list.expect(rt, "a list");
    check_text(rt, list.text(), want, name);
    check_that(rt, list.revision() == inputs.now().number(), name);
}

const FILES: &str = r#"bad= hi
a: import "bad"; message M { N n = 1; M m = 1; }
b: message M { N n = 1; }
c: message M { M m = 1; }"#;

/// The list of `a`: the type may be defined in `bad`, and the number is wrong in any case.
const OF_A: &str =
    r#"[{"code":"P150","message":"type \"N\" is not found","range":{"end":{"character":27,"line":1},"start":{"character":26,"line":1}},"severity":3,"source":"proto"},{"code":"P122","message":"field number 1 is used twice","range":{"end":{"character":42,"line":1},"start":{"character":41,"line":1}},"severity":1,"source":"proto"}]"#;

/// The list of `b`, whose imports are read.
const OF_B: &str =
    r#"[{"code":"P150","message":"type \"N\" is not found","range":{"end":{"character":13,"line":1},"start":{"character":12,"line":1}},"severity":1,"source":"proto"}]"#;

#[test]
fn errors_after_an_unread_import_are_information(rt: HostRuntime) {
    let inputs = inputs_of(&rt, FILES);
    check_list(&rt, &inputs, "a", OF_A);
    check_list(&rt, &inputs, "b", OF_B);
    check_list(&rt, &inputs, "c", empty_list());
}

/// What no editor is told: a value of a message, a value with a fraction, and a block of `extend`.
/// Beside them an import is not found.
const HALF_READ: &str =
    r#"d: option (a) = { b: 1 }; option c = 0.5; extend D { } import "e"; message D {}"#;

/// The list of `d`: the message of P102 names the folders.
const OF_D: &str =
    r#"[{"code":"P102","message":"import \"e\" is not found (looked for in \"/p\")","range":{"end":{"character":62,"line":1},"start":{"character":59,"line":1}},"severity":1,"source":"proto"}]"#;

#[test]
fn parts_that_are_not_read_are_not_told(rt: HostRuntime) {
    let inputs = inputs_of(&rt, HALF_READ);
    check_list(&rt, &inputs, "d", OF_D);
}

/// Writes the text of the folders of a row, with blanks between.
fn show_looked(page: &mut Page, row: &str) {
    let mut folders = Vec::new(page.alloc);
    for path in row.split(' ') {
        if path == "-" {
            continue;
        }
        let pushed = match Text::new(page.alloc, path) {
            Ok(folder) => folders.push(folder).is_ok(),
            Err(_) => false,
        };
        if !pushed {
            page.cut();
        }
    }
    match looked_in(page.alloc, &folders) {
        Ok(text) => page.add(text.as_str()),
        Err(_) => page.cut(),
    }
}

const FOLDERS: &str = r#"- => 
/p =>  (looked for in /p)
/p /usr/include =>  (looked for in /p, /usr/include)
a b c d e f g h =>  (looked for in a, b, c, d, e, f, g, h)
a b c d e f g h i =>  (looked for in a, b, c, d, e, f, g, h and 1 more folder)
a b c d e f g h i j k =>  (looked for in a, b, c, d, e, f, g, h and 3 more folders)"#;

#[test]
fn folders_of_an_import_that_is_missing(rt: HostRuntime) {
    check_table(&rt, 6, FOLDERS, show_looked);
}

/// The text of `reply` that an editor is shown, with the URI `file:///p/"b`.
fn check_reply(rt: &(impl Abort + AllocGlobal), reply: &BareReply, want: &str) {
    let found = editor_text(rt.alloc(), "file:///p/\"b", LOOKED, reply).expect(rt, "memory");
    check_text(rt, found.as_str(), want, want);
}

/// Checks that `reply` answers no diagnostics.
fn check_no_list(rt: &(impl Abort + AllocGlobal), reply: &BareReply) {
    let list = diagnostic_list(rt.alloc(), "", reply).expect(rt, "memory");
    check_that(rt, list.is_none(), "a list");
}

#[test]
fn replies_for_an_editor(rt: HostRuntime) {
    let inputs = inputs_of(&rt, "bad= hi\na: import \"bad\";");
    let reply = reply_of(&rt, &inputs, "a");
    check_reply(
        &rt,
        &reply,
        r#"{"id":null,"jsonrpc":"2.0","result":{"items":[],"kind":"full","resultId":"2"}}"#,
    );
    check_that(&rt, definition_file(&reply).is_none(), "no definition");
    let inputs = inputs_of(&rt, HALF_READ);
    let reply = reply_of(&rt, &inputs, "d");
    check_reply(&rt, &reply, REPLY_OF_D);
}

/// The reply for `d`: its items are those of the list.
const REPLY_OF_D: &str =
    r#"{"id":null,"jsonrpc":"2.0","result":{"items":[{"code":"P102","message":"import \"e\" is not found (looked for in \"/p\")","range":{"end":{"character":62,"line":1},"start":{"character":59,"line":1}},"severity":1,"source":"proto"}],"kind":"full","resultId":"1"}}"#;

#[test]
fn the_file_of_a_definition(rt: HostRuntime) {
    let inputs = inputs_of(
        &rt,
        "b: message B {}\na: import \"b\"; message M { B b = 1; }",
    );
    let place = Place {
        line: 1,
        character: 24,
    };
    let key = ProtoKey::Definition(text(&rt, "a"), place);
    let request = diagnostics_of(rt.alloc(), "a").expect(&rt, "memory");
    let reply = answered(&rt, &inputs, request, &key);
    check_text(&rt, definition_file(&reply).unwrap_or("-"), "b", "the file");
    check_no_list(&rt, &reply);
    check_reply(
        &rt,
        &reply,
        r#"{"id":null,"jsonrpc":"2.0","result":{"range":{"end":{"character":9,"line":1},"start":{"character":8,"line":1}},"uri":"file:///p/\"b"}}"#,
    );
}

/// Gives the list of `a` at this version to `last`: whether it is sent.
fn is_sent(
    rt: &(impl Abort + AllocGlobal),
    last: &mut LastSent,
    inputs: &Inputs,
    version: Option<i64>,
) -> bool {
    let reply = reply_of(rt, inputs, "a");
    let list = diagnostic_list(rt.alloc(), "", &reply).expect(rt, "memory");
    last.replace(list.expect(rt, "a list"), version)
}

#[test]
fn lists_are_sent_where_they_differ(rt: HostRuntime) {
    let empty = inputs_of(&rt, "b: message B {}");
    let good = inputs_of(&rt, "b: message B {}\na: import \"b\";");
    let bad = inputs_of(
        &rt,
        "b: message B {}\na: import \"b\";\na: import \"b\"; enum E {}",
    );
    let mut last = LastSent::new();
    check_text(&rt, last.text(), "", "before the first");
    check_that(&rt, is_sent(&rt, &mut last, &empty, None), "the first");
    check_that(&rt, !is_sent(&rt, &mut last, &good, None), "the same");
    check_that(&rt, is_sent(&rt, &mut last, &good, Some(1)), "a version");
    check_text(&rt, last.text(), empty_list(), "no diagnostics");
    check_that(&rt, is_sent(&rt, &mut last, &bad, Some(1)), "another");
    check_that(
        &rt,
        !is_sent(&rt, &mut last, &good, Some(2)),
        "an older one",
    );
    check_that(
        &rt,
        !is_sent(&rt, &mut last, &bad, Some(1)),
        "the version before",
    );
    check_that(
        &rt,
        is_sent(&rt, &mut last, &bad, Some(2)),
        "the next version",
    );
    check_that(&rt, last.text() != empty_list(), "the later one");
}

/// Checks the notification of a document.
fn check_published(
    rt: &(impl Abort + AllocGlobal),
    uri: &str,
    version: Option<i64>,
    list: &str,
    want: &str,
) {
    let found = published_text(rt.alloc(), uri, version, list).expect(rt, "memory");
    check_text(rt, found.as_str(), want, want);
}

#[test]
fn notifications_of_diagnostics(rt: HostRuntime) {
    check_published(
        &rt,
        "file:///a.proto",
        Some(-7),
        empty_list(),
        r#"{"jsonrpc":"2.0","method":"textDocument/publishDiagnostics","params":{"diagnostics":[],"uri":"file:///a.proto","version":-7}}"#,
    );
    check_published(
        &rt,
        "a\"b",
        None,
        "[{}]",
        r#"{"jsonrpc":"2.0","method":"textDocument/publishDiagnostics","params":{"diagnostics":[{}],"uri":"a\"b"}}"#,
    );
}

/// Checks that the request for the diagnostics of `a` is one about `b` after it was renamed.
fn check_renamed(rt: &(impl Abort + AllocGlobal)) {
    let request = diagnostics_of(rt.alloc(), "a").expect(rt, "memory");
    check_text(rt, asked_file(&request).unwrap_or("-"), "a", "the file");
    let request = renamed(rt.alloc(), request, "b").expect(rt, "memory");
    check_text(
        rt,
        asked_file(&request).unwrap_or("-"),
        "b",
        "the other file",
    );
}

#[test]
fn requests_about_other_files(rt: HostRuntime) {
    check_renamed(&rt);
    let request = diagnostics_of(rt.alloc(), "a").expect(&rt, "memory");
    let label = request.label;
    let want = Want::Fixed(text(&rt, "{}"));
    let request = renamed(rt.alloc(), Request { label, want }, "b").expect(&rt, "memory");
    check_that(&rt, asked_file(&request).is_none(), "no file");
}

#[test]
fn texts_after_edits(rt: HostRuntime) {
    let changes = changes_of(rt.alloc(), "0:1-0:2 i").expect(&rt, "memory");
    let after = text_after(rt.alloc(), Some("ho"), Body::Ranged(changes)).ok();
    let after = after.expect(&rt, "a text").expect(&rt, "a text");
    check_text(&rt, after.as_str(), "hi", "a change");
    let changes = changes_of(rt.alloc(), "0:1-0:2 i").expect(&rt, "memory");
    let after = text_after(rt.alloc(), None, Body::Ranged(changes));
    check_that(&rt, after == Err(ScriptFault::BadRange), "no text");
    let change = change_to(rt.alloc(), "a", None, Durability::High).expect(&rt, "memory");
    check_text(&rt, change.file.as_str(), "a", "the file of a change");
}

/// The text after changes of a text, `TEXT | CHANGE | ..`, whose ranges are cut.
fn cut_in(alloc: Global, row: &str) -> Result<Option<String>, CutFault> {
    let (text, changes) = row.split_once(" | ").unwrap_or((row, ""));
    let text = text_of_word(alloc, text)?;
    let changes = changes_of(alloc, changes)?;
    text_after_cuts(alloc, text.as_str(), Body::Ranged(changes))
}

/// Writes a text, with `\n` for each LF.
fn add_lines(page: &mut Page, text: &str) {
    match text.replace(page.alloc, "\n", "\\n") {
        Ok(text) => page.add(text.as_str()),
        Err(_) => page.cut(),
    }
}

/// Writes the text after changes of a text, whose ranges are cut.
fn show_cut(page: &mut Page, row: &str) {
    match cut_in(page.alloc, row) {
        Ok(Some(text)) => add_lines(page, text.as_str()),
        Ok(None) => page.add("no file"),
        Err(CutFault::TooMany) => page.add("too many"),
        Err(CutFault::Memory) => page.cut(),
    }
}

const CUTS: &str = r#"ab\ncd\n | 0:0-3:0 x => x
ab\ncd | 1:1-9:0 x => ab\ncx
ab\ncd\n | 9:5-9:9 x => ab\ncd\nx
ab\ncd | 1:1-0:1 x => ab\ncxd
ab\ncd | 9:0-0:0 x => ab\ncdx
abc | 0:2-0:1 x | 0:3-7:0 yz => abxyz
ab | 0:1-9:0 '' | all cde | 0:1-9:0 x => cx
aé\r\nb | 0:2-1:0 x | 0:0-1:0 y => y
ab | 0:0-0:1 x => xb
ab | 64 of 9:0-9:0 '' => ab
ab | 65 of 9:0-9:0 '' => too many
ab | 65 of 0:0-0:1 x => xb"#;

#[test]
fn ranges_past_the_end(rt: HostRuntime) {
    check_table(&rt, 12, CUTS, show_cut);
    let kept = text_after_cuts(rt.alloc(), "ab", Body::Set(None));
    check_that(&rt, kept == Ok(None), "a file that is removed");
}
