//! pq_frame: messages of each kind, and bodies that are none.
use crate::checks::{check_page, check_row_count, check_that, split_row, text_of};
use pq_frame::{Label, Message, equal_labels};
use serde_json::Value;
use std::process::Abort;
use test_support::Page;

/// Writes a label: `none`, a number, or a text between quotes.
fn add_label(page: &mut Page, label: &Label) {
    match label {
        Label::None => page.add("none"),
        Label::Unsigned(number) => {
            page.add("+");
            page.wide(*number);
        }
        Label::Negative(number) => page.signed(*number),
        Label::Text(text) => {
            page.add("'");
            page.add(text.as_str());
            page.add("'");
        }
    }
}

/// Writes a value as JSON.
fn add_value(page: &mut Page, value: &Value) {
    match format!(in page.alloc; "{value}") {
        Ok(text) => page.add(text.as_str()),
        Err(_) => page.cut(),
    }
}

/// Writes parameters as JSON, `-` if there are none.
fn add_params(page: &mut Page, params: Option<&Value>) {
    match params {
        None => page.add("-"),
        Some(value) => add_value(page, value),
    }
}

/// Writes a message: its kind, its label, its method and its parameters.
fn add_message(page: &mut Page, message: &Message) {
    match message {
        Message::BadJson => page.add("bad JSON"),
        Message::Response => page.add("response"),
        Message::Invalid(label) => {
            page.add("invalid ");
            add_label(page, label);
        }
        Message::Ask {
            label,
            method,
            params,
        } => {
            page.add("request ");
            add_label(page, label);
            page.add(" ");
            page.add(method.as_str());
            page.add(" ");
            add_params(page, params.as_ref());
        }
        Message::Notice { method, params } => {
            page.add("notification ");
            page.add(method.as_str());
            page.add(" ");
            add_params(page, params.as_ref());
        }
    }
}

/// Writes what `body` is read as.
fn show_body(page: &mut Page, body: &[u8]) {
    match Message::read(page.alloc, body) {
        Ok(message) => add_message(page, &message),
        Err(_) => page.cut(),
    }
}

/// Checks that `body` is read as `want`.
fn check_message(rt: &(impl Abort + AllocGlobal), body: &[u8], want: &str) {
    let mut page = Page::new(rt.alloc());
    show_body(&mut page, body);
    check_page(rt, &page, want, want);
}

/// Checks the `count` rows `BODY => MESSAGE`.
fn check_messages(rt: &(impl Abort + AllocGlobal), count: usize, rows: &str) {
    check_row_count(rt, count, rows);
    for row in rows.lines() {
        let (body, want) = split_row(rt, row, " => ");
        check_message(rt, body.as_bytes(), want);
    }
}

const KINDS: &str = r#"{"id":7,"jsonrpc":"2.0","method":"m","params":[true]} => request +7 m [true]
{"jsonrpc":"2.0","method":"exit"} => notification exit -
{"id":7,"jsonrpc":"2.0","result":null} => response
{"error":null,"jsonrpc":"2.0"} => response
{"id":7,"jsonrpc":"2.0"} => invalid +7
{ => bad JSON"#;

const LABELS: &str = r#"{"id":-1,"jsonrpc":"2.0","method":"m"} => request -1 m -
{"id":18446744073709551615,"jsonrpc":"2.0","method":"m"} => request +18446744073709551615 m -
{"id":-9223372036854775808,"jsonrpc":"2.0","method":"m"} => request -9223372036854775808 m -
{"id":"x","jsonrpc":"2.0","method":"m"} => request 'x' m -
{"id":18446744073709551616,"jsonrpc":"2.0","method":"m"} => invalid none
{"id":1.0,"jsonrpc":"2.0","method":"m"} => invalid none
{"id":null,"jsonrpc":"2.0","method":"m"} => invalid none
{"id":null,"jsonrpc":"2.0","result":1} => invalid none"#;

const INVALID: &str = r#"{"id":7,"method":"m"} => invalid +7
{"id":"x","jsonrpc":"1.0","method":"m"} => invalid 'x'
{"id":7,"jsonrpc":"2.0","method":null} => invalid +7
[] => invalid none
7 => invalid none"#;

const MEMBERS: &str = r#"{"id":7,"jsonrpc":"2.0","method":"m","params":null} => request +7 m -
{"jsonrpc":"2.0","method":"m","params":null} => notification m -
{"id":7,"id":8,"jsonrpc":"2.0","method":"m","method":"n"} => request +8 n -
{"id":7,"jsonrpc":"2.0","method":"m","params":1e999} => bad JSON"#;

#[test]
fn each_body_is_read(rt: HostRuntime) {
    check_messages(&rt, 6, KINDS);
    check_messages(&rt, 8, LABELS);
    check_messages(&rt, 5, INVALID);
    check_messages(&rt, 4, MEMBERS);
}

/// Checks that `depth` arrays, each in the one before, are read as `want`.
fn check_nested(rt: &(impl Abort + AllocGlobal), depth: usize, want: &str) {
    let mut body = Page::new(rt.alloc());
    body.repeat("[", depth);
    body.repeat("]", depth);
    check_message(rt, text_of(rt, &body).as_bytes(), want);
}

#[test]
fn arrays_nest_127_deep(rt: HostRuntime) {
    check_nested(&rt, 127, "invalid none");
    check_nested(&rt, 128, "bad JSON");
}

#[test]
fn a_body_is_utf_8(rt: HostRuntime) {
    check_message(&rt, b"\"\xff\"", "bad JSON");
}

/// Checks that `label` equals the label numbered `own` of `labels` alone.
fn check_label(rt: &impl Abort, labels: &[Label], own: usize, label: &Label) {
    for (i, other) in labels.iter().enumerate() {
        check_that(rt, equal_labels(label, other) == (i == own), "labels");
    }
}

/// Checks that `label` equals its copy.
fn check_copy(rt: &impl Abort, label: &Label) {
    let copy = label.clone().expect(rt, "memory");
    check_that(rt, copy == *label, "a copy");
}

/// Checks that each of `labels` equals its copy, and no other of them.
fn check_labels(rt: &impl Abort, labels: &[Label]) {
    for (own, label) in labels.iter().enumerate() {
        check_label(rt, labels, own, label);
        check_copy(rt, label);
    }
}

#[test]
fn labels_are_compared(rt: HostRuntime) {
    let alloc = rt.alloc();
    let empty = String::from_str(alloc, "").expect(&rt, "memory");
    let digit = String::from_str(alloc, "1").expect(&rt, "memory");
    let labels = [
        Label::None,
        Label::Unsigned(0),
        Label::Unsigned(1),
        Label::Negative(-1),
        Label::Text(empty),
        Label::Text(digit),
    ];
    check_labels(&rt, &labels);
}
