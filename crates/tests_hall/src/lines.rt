//! Requests, changes and replies as text.
//!
//! A request is `LABEL QUERY NAME` or, for a fixed text, `LABEL say TEXT`; its label is an integer or
//! `none`. A change is `NAME=TEXT`. A reply to a fixed text is `NUMBER REQUEST @REVISION plain`.
use crate::checks::split_row;
use pq_core::{Body, Change, Label, Outcome, Reply, Request, Stamp, Want};
use pq_inputs::Durability;
use pq_names::Text;
use pq_rules::{SumsKey, SumsValue};
use std::process::Abort;
use test_support::{Page, add_key, sums_key};

/// The number that `word` writes.
pub(crate) fn number_of(rt: &impl Abort, word: &str) -> u64 {
    word.parse::<u64>().ok().expect(rt, word)
}

/// The text that `text` copies.
fn text_of(rt: &(impl Abort + AllocGlobal), text: &str) -> Text {
    Text::new(rt.alloc(), text).expect(rt, "memory")
}

/// The change that `text` writes.
pub(crate) fn change_of(rt: &(impl Abort + AllocGlobal), text: &str) -> Change {
    let (name, text) = split_row(rt, text, "=");
    let text = String::from_str(rt.alloc(), text).expect(rt, "memory");
    Change {
        file: text_of(rt, name),
        body: Body::Set(Some(text)),
        durability: Durability::Low,
    }
}

/// The label that `word` writes.
pub(crate) fn label_of(rt: &impl Abort, word: &str) -> Label {
    if word == "none" {
        return Label::None;
    }
    Label::Unsigned(number_of(rt, word))
}

/// What answers a request.
fn want_of(rt: &(impl Abort + AllocGlobal), text: &str) -> Want<SumsKey> {
    match split_row(rt, text, " ") {
        ("say", text) => Want::Fixed(text_of(rt, text)),
        (query, name) => Want::Demand(sums_key(query, text_of(rt, name))),
    }
}

/// The request that `text` writes.
pub(crate) fn request_of(rt: &(impl Abort + AllocGlobal), text: &str) -> Request<SumsKey> {
    let (label, want) = split_row(rt, text, " ");
    Request {
        label: label_of(rt, label),
        want: want_of(rt, want),
    }
}

/// Writes a label as a line has it.
pub(crate) fn add_label(page: &mut Page, label: &Label) {
    match label {
        Label::Unsigned(number) => page.wide(*number),
        _ => page.add("none"),
    }
}

/// Writes a request as a line has it.
pub(crate) fn add_request(page: &mut Page, request: &Request<SumsKey>) {
    add_label(page, &request.label);
    page.add(" ");
    match &request.want {
        Want::Demand(key) => add_key(page, key),
        Want::Fixed(text) => {
            page.add("say ");
            page.add(text.as_str());
        }
    }
}

/// Writes a reply as a line has it.
pub(crate) fn add_reply<M: Stamp>(page: &mut Page, reply: &Reply<SumsKey, SumsValue, M>) {
    page.wide(reply.number().number());
    page.add(" ");
    add_request(page, reply.request());
    page.add(" @");
    page.wide(reply.revision().number());
    page.add(match reply.outcome() {
        Outcome::Plain => " plain",
        _ => " not plain",
    });
}
