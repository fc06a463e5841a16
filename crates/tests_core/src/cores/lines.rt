//! Requests, changes and replies as text.
//!
//! A request is `LABEL KEY` or, for a fixed text, `LABEL say TEXT`. A change is
//! `DURABILITY NAME=TEXT`, `DURABILITY NAME` where the file becomes absent, or `DURABILITY NAME~LIST`
//! for a list of changes; `changes` of `test_support` says how lists and texts are written. A reply is
//! `NUMBER REQUEST @REVISION OUTCOME`.
use crate::checks::split_row;
use pq_core::{Body, Change, ClientId, Label, Outcome, PlainStamp, Reply, Request, Stamp, Want};
use pq_inputs::{Inputs, Revision};
use pq_rules::{Answer, Memory, Text};
use std::alloc::Global;
use std::process::Abort;
use test_support::{Page, changes_of, durability_of, text_of_word};

/// Keys of a rule set that lines can write, and their answers.
pub(crate) trait Sample: Drop + Sized {
    /// The values of the keys.
    type Value: Drop;

    /// The key that `text` writes.
    fn written(rt: &(impl Abort + AllocGlobal), text: &str) -> Self;

    /// Writes the key.
    fn show(&self, page: &mut Page);

    /// Writes an answer.
    fn show_answer(page: &mut Page, answer: &Answer<Self, Self::Value>);

    /// The answer of the key from scratch.
    fn scratch(&self, alloc: Global, inputs: &Inputs) -> Result<Answer<Self, Self::Value>, Memory>;
}

/// The number that `word` writes.
pub(crate) fn number_of(rt: &impl Abort, word: &str) -> u64 {
    word.parse::<u64>().ok().expect(rt, word)
}

/// The client that `word` numbers.
pub(crate) fn client_of(rt: &impl Abort, word: &str) -> ClientId {
    ClientId::new(number_of(rt, word))
}

/// The label that `word` writes: `none`, an integer, or else a text.
pub(crate) fn label_of(rt: &(impl Abort + AllocGlobal), word: &str) -> Label {
    if word == "none" {
        return Label::None;
    }
    if let Ok(number) = word.parse::<u64>() {
        return Label::Unsigned(number);
    }
    if let Ok(number) = word.parse::<i64>() {
        return Label::Negative(number);
    }
    Label::Text(Text::new(rt.alloc(), word).expect(rt, "memory"))
}

/// What answers a request: `say TEXT`, or a key.
fn want_of<K: Sample>(rt: &(impl Abort + AllocGlobal), text: &str) -> Want<K> {
    match text.strip_prefix("say ") {
        Some(text) => Want::Fixed(Text::new(rt.alloc(), text).expect(rt, "memory")),
        None => Want::Demand(K::written(rt, text)),
    }
}

/// The request that `text` writes.
pub(crate) fn request_of<K: Sample>(rt: &(impl Abort + AllocGlobal), text: &str) -> Request<K> {
    let (label, want) = split_row(rt, text, " ");
    let label = label_of(rt, label);
    let want = want_of(rt, want);
    Request { label, want }
}

/// The name and the body that `text` writes.
fn named_body<'a>(rt: &(impl Abort + AllocGlobal), text: &'a str) -> (&'a str, Body) {
    if let Some((name, list)) = text.split_once("~") {
        return (
            name,
            Body::Ranged(changes_of(rt.alloc(), list).expect(rt, "memory")),
        );
    }
    match text.split_once("=") {
        Some((name, text)) => {
            let text = text_of_word(rt.alloc(), text).expect(rt, "memory");
            (name, Body::Set(Some(text)))
        }
        None => (text, Body::Set(None)),
    }
}

/// The change that `text` writes.
pub(crate) fn change_of(rt: &(impl Abort + AllocGlobal), text: &str) -> Change {
    let (durability, file) = split_row(rt, text, " ");
    let durability = durability_of(durability);
    let (name, body) = named_body(rt, file);
    let file = Text::new(rt.alloc(), name).expect(rt, "memory");
    Change {
        file,
        body,
        durability,
    }
}

/// Writes a label as a line has it.
fn add_label(page: &mut Page, label: &Label) {
    match label {
        Label::None => page.add("none"),
        Label::Unsigned(number) => page.wide(*number),
        Label::Negative(number) => page.signed(*number),
        Label::Text(text) => page.add(text.as_str()),
    }
}

/// Writes what answers a request, as a line has it.
fn add_want<K: Sample>(page: &mut Page, want: &Want<K>) {
    match want {
        Want::Demand(key) => key.show(page),
        Want::Fixed(text) => {
            page.add("say ");
            page.add(text.as_str());
        }
    }
}

/// Writes a request as a line has it.
pub(crate) fn add_request<K: Sample>(page: &mut Page, request: &Request<K>) {
    add_label(page, &request.label);
    page.add(" ");
    add_want(page, &request.want);
}

/// Writes two numbers with a blank between.
pub(super) fn add_two(page: &mut Page, first: u64, second: u64) {
    page.wide(first);
    page.add(" ");
    page.wide(second);
}

/// Writes how a request ended: `answered ANSWER`, `plain`, `cancelled STARTED SEEN` or `starved`.
/// Where the stamp of an answer is of another revision than `now`, it writes `stamped REVISION`.
fn add_outcome<K: Sample>(
    page: &mut Page,
    now: Revision,
    outcome: &Outcome<K, K::Value, PlainStamp>,
) {
    match outcome {
        Outcome::Answered(answer, stamp) => {
            page.add("answered ");
            K::show_answer(page, answer.get());
            if stamp.revision() != now {
                page.add(" stamped ");
                page.wide(stamp.revision().number());
            }
        }
        Outcome::Plain => page.add("plain"),
        Outcome::Cancelled { started, seen } => {
            page.add("cancelled ");
            add_two(page, started.number(), seen.number());
        }
        Outcome::Starved => page.add("starved"),
        Outcome::Withdrawn => page.add("withdrawn"),
    }
}

/// Writes a reply as a line.
pub(crate) fn add_reply<K: Sample>(page: &mut Page, reply: &Reply<K, K::Value, PlainStamp>) {
    page.wide(reply.number().number());
    page.add(" ");
    add_request(page, reply.request());
    page.add(" @");
    page.wide(reply.revision().number());
    page.add(" ");
    add_outcome::<K>(page, reply.revision(), reply.outcome());
}

/// Writes replies as lines, each with a bar after it.
pub(crate) fn add_replies<K: Sample>(page: &mut Page, replies: &[Reply<K, K::Value, PlainStamp>]) {
    for reply in replies {
        add_reply::<K>(page, reply);
        page.add("|");
    }
}
