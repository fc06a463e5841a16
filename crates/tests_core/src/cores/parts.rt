//! A store and a lane apart, call by call: replies that are collected in one order and filled in
//! another.
//!
//! A script has a line `CALL => ANSWER`.
//!
//! - `open`, `next`, `accept CLIENT REQUEST`, `edit CLIENT CHANGE`, `start`, `look RUN`, `give RUN`,
//!   `starve RUN`, `made`, `more CLIENT`, `collect CLIENT`, `seen CLIENT NUMBER`, `owes CLIENT`,
//!   `close CLIENT`, `waiting`, `there KEY` and `idle` are calls of the store. The work that a look hands out is lost. `give` takes a step,
//!   carries its work out and gives the result. A reply that is collected is kept.
//! - `late CLIENT CHANGE ; OTHER` prepares a change, makes the edit `OTHER`, and makes the edit that was
//!   prepared. Where its text is not current, it writes `stale` and prepares the change again. `text
//!   FILE` is the text of a file, and `long CHANGE` says whether the change is worth preparing.
//! - `fill CLIENT NUMBER` fills that kept reply into the lane, and keeps it where it comes back.
//!   `release`, `take` and `shut` are calls of the lane, which is of client 0 and has room for two
//!   replies that were not taken.
//! - The line `new store` goes on with another store.
//!
//! Modules: `calls` (of a store and of a lane). Of rows: `lanes`, `stores`, `prepared` (edits).
ghost use Rattle.std.specs.Prelude.{IfSome, ◌<◌, length};

mod calls;
mod lanes;
mod prepared;
mod stores;

use super::lines::{Sample, change_of, client_of, number_of, request_of};
use super::shown::{add_fault, add_released, add_run, yes_or_no};
use crate::checks::{check_page, check_row_count, split_row};
use calls::{Laying, List, Storing};
use pq_core::{
    Change, ClientId, Lane, Number, OpenFault, Outcome, PlainStamp, Ready, RunId, Store,
};
use pq_inputs::Inputs;
use pq_rules::{Sums, SumsKey};
use std::process::Abort;
use test_support::Page;

/// The room of the lane's outbox.
const ROOM: usize = 2;

/// The replies that were collected and are in no lane.
type Kept = Vec<Ready<Sums, PlainStamp>>;

/// The place of the reply `number` to `client` among `kept`.
fn place_of(kept: &Kept, client: ClientId, number: u64) -> Option<usize>
    ensures { IfSome result (λ at. at < length kept.now.items) }
{
    for at in 0..kept.len() {
        if kept[at].client() == client && kept[at].number().number() == number {
            return Some(at);
        }
    }
    None
}

/// Writes how a request ended.
fn add_end(page: &mut Page, ready: &Ready<Sums, PlainStamp>) {
    page.wide(ready.number().number());
    match ready.outcome() {
        Outcome::Answered(..) => page.add(" answered"),
        Outcome::Plain => page.add(" plain"),
        Outcome::Cancelled { .. } => page.add(" cancelled"),
        Outcome::Starved => page.add(" starved"),
        Outcome::Withdrawn => page.add(" withdrawn"),
    }
}

/// Collects a reply to `client`, and keeps it.
fn collect<S: Storing>(page: &mut Page, store: &mut S, kept: &mut Kept, client: ClientId) {
    match store.collected(client) {
        None => page.add("none"),
        Some(ready) => {
            add_end(page, &ready);
            if kept.push(ready).is_err() {
                page.cut();
            }
        }
    }
}

/// Fills the kept reply `number` to `client` into the lane. It is kept where it comes back.
fn fill<L: Laying>(page: &mut Page, lane: &mut L, kept: &mut Kept, client: ClientId, number: u64) {
    match place_of(kept, client, number) {
        None => page.add("no reply"),
        Some(at) => match lane.filled(kept.remove(at)) {
            None => page.add("yes"),
            Some(back) => {
                page.add("no");
                if kept.push(back).is_err() {
                    page.cut();
                }
            }
        },
    }
}

/// Writes the number of a client, or `none`.
fn add_client(page: &mut Page, client: Option<ClientId>) {
    match client {
        Some(client) => page.wide(client.number()),
        None => page.add("none"),
    }
}

/// Writes a client that was opened, as its number, or why not.
fn add_opened(page: &mut Page, answer: Result<ClientId, OpenFault>) {
    match answer {
        Ok(client) => page.wide(client.number()),
        Err(fault) => add_fault(page, fault),
    }
}

/// Makes a call of the store that names no client and no run.
fn plain_answer<S: Storing>(page: &mut Page, store: &mut S, call: &str) {
    match call {
        "open" => add_opened(page, store.opened()),
        "next" => add_client(page, store.next()),
        "start" => add_run(page, store.started()),
        "made" => add_client(page, store.next_with_made()),
        "waiting" => page.add(yes_or_no(store.is_waiting())),
        _ => page.add(yes_or_no(store.idles())),
    }
}

/// Makes a call of the store for the run `run`.
fn run_answer<S: Storing>(page: &mut Page, store: &mut S, call: &str, run: RunId) {
    match call {
        "look" => store.looked(page, run),
        "give" => store.given(page, run),
        _ => page.add(yes_or_no(store.starved(run))),
    }
}

/// Prepares `change`, makes the edit `between`, and makes the edit of `change`.
fn edit_late<S: Storing>(
    page: &mut Page,
    store: &mut S,
    client: ClientId,
    change: Change,
    between: Change,
) {
    let mut waiting = store.prepared(page.alloc, change);
    store.edited(page, client, between);
    for _ in 0..2u8 {
        page.add(", ");
        match waiting {
            Some(prepared) => match store.committed(page, client, prepared) {
                Some(back) => {
                    page.add("stale");
                    waiting = store.prepared(page.alloc, back);
                }
                None => return,
            },
            None => return page.cut(),
        }
    }
}

/// Makes a call of the store for `client`.
fn client_answer<S: Storing>(
    rt: &(impl Abort + AllocGlobal),
    page: &mut Page,
    store: &mut S,
    kept: &mut Kept,
    call: &str,
    client: ClientId,
    rest: &str,
) {
    match call {
        "accept" => store.accepted(page, client, request_of::<SumsKey>(rt, rest)),
        "edit" => store.edited(page, client, change_of(rt, rest)),
        "late" => {
            let (change, between) = split_row(rt, rest, " ; ");
            let (change, between) = (change_of(rt, change), change_of(rt, between));
            edit_late(page, store, client, change, between);
        }
        "more" => page.add(yes_or_no(store.is_made(client))),
        "owes" => page.add(yes_or_no(store.is_owed(client))),
        "collect" => collect(page, store, kept, client),
        "seen" => store.acknowledged(client, Number::new(number_of(rt, rest))),
        _ => page.add(yes_or_no(store.closed(client))),
    }
}

/// Makes a call of the lane.
fn lane_answer<L: Laying>(
    rt: &impl Abort,
    page: &mut Page,
    lane: &mut L,
    kept: &mut Kept,
    call: &str,
    first: &str,
    more: &str,
) {
    match call {
        "fill" => fill(page, lane, kept, client_of(rt, first), number_of(rt, more)),
        "release" => add_released(page, lane.released()),
        "take" => page.add(yes_or_no(lane.taken().expect(rt, "memory"))),
        _ => page.add(yes_or_no(lane.is_shut())),
    }
}

/// Makes the call that `line` writes, and checks what it answers.
fn check_line<S: Storing, L: Laying>(
    rt: &(impl Abort + AllocGlobal),
    store: &mut S,
    lane: &mut L,
    kept: &mut Kept,
    line: &str,
) {
    let (asked, want) = split_row(rt, line, " => ");
    let (call, rest) = asked.split_once(" ").unwrap_or((asked, ""));
    let (first, more) = rest.split_once(" ").unwrap_or((rest, ""));
    let mut page = Page::new(rt.alloc());
    match call {
        "open" | "next" | "start" | "made" | "waiting" | "idle" => {
            plain_answer(&mut page, store, call);
        }
        "there" => {
            let key = SumsKey::written(rt, rest);
            page.add(yes_or_no(store.is_there(rt.alloc(), &key)));
        }
        "look" | "give" | "starve" => {
            run_answer(&mut page, store, call, RunId::new(number_of(rt, first)));
        }
        "fill" | "release" | "take" | "shut" => {
            lane_answer(rt, &mut page, lane, kept, call, first, more);
        }
        "text" => store.text(&mut page, rest),
        "long" => page.add(yes_or_no(change_of(rt, rest).is_long())),
        _ => {
            let client = client_of(rt, first);
            client_answer(rt, &mut page, store, kept, call, client, more);
        }
    }
    check_page(rt, &page, want, line);
}

/// Runs a script on a store and a lane, over the replies that were collected before.
fn check_lines<S: Storing, L: Laying>(
    rt: &(impl Abort + AllocGlobal),
    store: &mut S,
    lane: &mut L,
    kept: &mut Kept,
    script: &str,
) {
    for line in script.lines() {
        check_line(rt, store, lane, kept, line);
    }
}

/// Runs a script on a new store and the lane `lane`.
fn check_store<L: Laying>(
    rt: &(impl Abort + AllocGlobal),
    lane: &mut L,
    kept: &mut Kept,
    script: &str,
) {
    let inputs = Inputs::new(rt.alloc()).expect(rt, "memory");
    let stamp = PlainStamp::of(rt.alloc(), &inputs).expect(rt, "memory");
    let mut store: Store<Sums, PlainStamp> = Store::new(rt.alloc(), Sums, inputs, stamp);
    check_lines(rt, &mut store, lane, kept, script);
}

/// Runs the script `rows` of `count` lines on a new lane of client 0, and on a new store for each
/// part of it.
fn check_parts(rt: &(impl Abort + AllocGlobal), count: usize, rows: &str) {
    check_row_count(rt, count, rows);
    let outbox = List::new(rt.alloc(), ROOM).expect(rt, "memory");
    let mut lane: Lane<Sums, PlainStamp, List> = Lane::new(
        rt.alloc(),
        ClientId::new(0),
        outbox,
    ).expect(rt, "memory");
    let mut kept: Kept = Vec::new(rt.alloc());
    for script in rows.split("new store\n") {
        check_store(rt, &mut lane, &mut kept, script);
    }
}
