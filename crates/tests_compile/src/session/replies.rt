//! The texts of replies whose requests were cancelled or starved, or asked for a fixed text.
//!
//! Those of answered requests are in the stored sessions.
use crate::checks::{check_text, check_that};
use pq_core::{ClientId, Label, Number, Outcome, PlainStamp, Reply, Request, Want};
use pq_inputs::{Inputs, Revision};
use pq_names::Text;
use pq_proto::{ProtoKey, ProtoValue};
use pq_session::{Root, reply_text};
use std::process::Abort;
use test_support::is_set;

/// The client of each reply.
fn client() -> ClientId {
    ClientId::new(0)
}

/// A reply with a plain stamp.
type PlainReply = Reply<ProtoKey, ProtoValue, PlainStamp>;

/// The number of each request.
fn number() -> Number {
    Number::new(1)
}

/// No files.
fn no_files(rt: &(impl Abort + AllocGlobal)) -> Inputs {
    Inputs::new(rt.alloc()).expect(rt, "memory")
}

/// Sets `a.proto`, and returns the revision after that.
fn set(rt: &(impl Abort + AllocGlobal), inputs: &mut Inputs) -> Revision {
    let text = String::from_str(rt.alloc(), "syntax='proto3';message M{M m=1;}");
    check_that(rt, is_set(inputs, "a.proto", text), "a.proto");
    inputs.now()
}

/// A copy of the root `/p`.
fn root_of(rt: &(impl Abort + AllocGlobal)) -> Root {
    let root = Root::of(rt.alloc(), Some("file:///p")).expect(rt, "memory");
    root.copy().expect(rt, "memory")
}

/// Checks the text of a reply to a client whose root is `/p`.
fn check_reply(rt: &(impl Abort + AllocGlobal), reply: &PlainReply, want: &str) {
    let root = root_of(rt);
    let found = reply_text(rt.alloc(), &root, reply).expect(rt, "memory");
    check_text(rt, found.as_str(), want, want);
}

/// A name, or a text of a label.
fn text(rt: &(impl Abort + AllocGlobal), name: &str) -> Text {
    Text::new(rt.alloc(), name).expect(rt, "memory")
}

/// The request 7 for the diagnostics of `a.proto`.
fn diagnostics(rt: &(impl Abort + AllocGlobal)) -> Request<ProtoKey> {
    let key = ProtoKey::Diagnostics(text(rt, "a.proto"));
    Request {
        label: Label::Unsigned(7),
        want: Want::Demand(key),
    }
}

/// The reply to a request that was stopped, if `seen` is after `started`.
fn cancelled(request: Request<ProtoKey>, started: Revision, seen: Revision) -> Option<PlainReply> {
    if started < seen {
        let outcome = Outcome::Cancelled { started, seen };
        Some(Reply::new(client(), number(), request, seen, outcome))
    } else {
        None
    }
}

#[test]
fn a_cancelled_request(rt: HostRuntime) {
    let mut inputs = no_files(&rt);
    set(&rt, &mut inputs);
    set(&rt, &mut inputs);
    let started = set(&rt, &mut inputs);
    let seen = set(&rt, &mut inputs);
    let reply = cancelled(diagnostics(&rt), started, seen).expect(&rt, "revisions rise");
    check_reply(
        &rt,
        &reply,
        r#"{"error":{"code":-32801,"data":{"seen":4,"started":3},"message":"content modified"},"id":7,"jsonrpc":"2.0"}"#,
    );
}

#[test]
fn a_starved_request(rt: HostRuntime) {
    let inputs = no_files(&rt);
    let request = diagnostics(&rt);
    let reply: PlainReply = Reply::new(client(), number(), request, inputs.now(), Outcome::Starved);
    check_reply(
        &rt,
        &reply,
        r#"{"error":{"code":-32603,"message":"out of memory"},"id":7,"jsonrpc":"2.0"}"#,
    );
}

#[test]
fn a_fixed_text(rt: HostRuntime) {
    let inputs = no_files(&rt);
    let want = Want::Fixed(text(&rt, "{}"));
    let label = Label::None;
    let request = Request { label, want };
    let reply: PlainReply = Reply::plain(client(), number(), request, inputs.now());
    check_reply(&rt, &reply, "{}");
}
