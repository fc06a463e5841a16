//! pq_play: lists of events, what is accepted in them and what is taken.
//!
//! An event is a line: `open`, `accept CLIENT REQUEST`, `edit CLIENT CHANGE`, `withdraw CLIENT LABEL`,
//! `start`, `step RUN`, `give RUN`, `starve RUN`, `release CLIENT`, `take CLIENT` or `close CLIENT`.
//! The line `run RUN` stands for `step RUN` and `give RUN` often enough for a run over small files to
//! end, and `edits COUNT CLIENT CHANGE` for that many edits.
mod windows;

use super::cores::lines::{
    Sample, add_replies, add_request, change_of, client_of, label_of, number_of, request_of,
};
use crate::checks::check_page;
use pq_core::{PlainStamp, Reply, Request, RunId};
use pq_play::{Event, Played, play};
use pq_rules::{Sums, SumsKey, SumsValue};
use std::process::Abort;
use test_support::Page;

/// The number of steps after which a run over small files is over.
const STEPS: u32 = 60;

/// The event of the client `client`.
fn client_event<K: Sample>(rt: &(impl Abort + AllocGlobal), name: &str, rest: &str) -> Event<K> {
    let (client, posted) = rest.split_once(" ").unwrap_or((rest, ""));
    let client = client_of(rt, client);
    match name {
        "accept" => Event::Accept(client, request_of(rt, posted)),
        "edit" => Event::Edit(client, change_of(rt, posted)),
        "withdraw" => Event::Withdraw(client, label_of(rt, posted)),
        "release" => Event::Release(client),
        "take" => Event::Take(client),
        _ => Event::Close(client),
    }
}

/// The event that `line` writes.
fn event_of<K: Sample>(rt: &(impl Abort + AllocGlobal), line: &str) -> Event<K> {
    let (name, rest) = line.split_once(" ").unwrap_or((line, ""));
    match name {
        "open" => Event::Open,
        "start" => Event::Start,
        "step" => Event::Step(RunId::new(number_of(rt, rest))),
        "give" => Event::Give(RunId::new(number_of(rt, rest))),
        "starve" => Event::Starve(RunId::new(number_of(rt, rest))),
        _ => client_event(rt, name, rest),
    }
}

/// Adds an event.
fn add_event<K: Sample>(rt: &impl Abort, events: &mut Vec<Event<K>>, event: Event<K>) {
    events.push(event).expect(rt, "memory");
}

/// Adds the steps of a run.
fn add_steps<K: Sample>(rt: &impl Abort, events: &mut Vec<Event<K>>, run: RunId) {
    for _ in 0..STEPS {
        add_event(rt, events, Event::Step(run));
        add_event(rt, events, Event::Give(run));
    }
}

/// Adds the edits that `words` writes, `COUNT CLIENT CHANGE`.
fn add_edits<K: Sample>(rt: &(impl Abort + AllocGlobal), events: &mut Vec<Event<K>>, words: &str) {
    let (count, edit) = words.split_once(" ").unwrap_or((words, ""));
    for _ in 0..number_of(rt, count) {
        add_event(rt, events, client_event(rt, "edit", edit));
    }
}

/// The events that the lines of `script` write.
fn events_of<K: Sample>(rt: &(impl Abort + AllocGlobal), script: &str) -> Vec<Event<K>> {
    let mut events = Vec::new(rt.alloc());
    for line in script.lines() {
        match line.split_once(" ") {
            Some(("run", run)) => add_steps(rt, &mut events, RunId::new(number_of(rt, run))),
            Some(("edits", words)) => add_edits(rt, &mut events, words),
            _ => add_event(rt, &mut events, event_of(rt, line)),
        }
    }
    events
}

/// Writes requests as lines, each with a bar after it.
fn add_requests<K: Sample>(page: &mut Page, requests: &[Request<K>]) {
    for request in requests {
        add_request(page, request);
        page.add("|");
    }
}

/// Writes the requests that each client posted.
fn add_accepted<K: Sample>(page: &mut Page, accepted: &[Vec<Request<K>>]) {
    for requests in accepted {
        page.add("accepted ");
        add_requests(page, requests.as_slice());
        page.add("\n");
    }
}

/// Writes the replies that each client took.
fn add_taken<K: Sample>(page: &mut Page, taken: &[Vec<Reply<K, K::Value, PlainStamp>>]) {
    for replies in taken {
        page.add("taken ");
        add_replies::<K>(page, replies.as_slice());
        page.add("\n");
    }
}

/// Writes what playing a list of events gave: a line for the requests of each client, one for the
/// replies of each, and the revision.
fn add_played<K: Sample>(page: &mut Page, played: &Played<K, K::Value>) {
    add_accepted(page, played.accepted.as_slice());
    add_taken::<K>(page, played.taken.as_slice());
    page.add("revision ");
    page.wide(played.revision.number());
    page.add("\n");
}

/// What the events of `script` give over sums, with outboxes for `room` replies.
fn played_of(
    rt: &(impl Abort + AllocGlobal),
    room: usize,
    script: &str,
) -> Played<SumsKey, SumsValue> {
    let events = events_of::<SumsKey>(rt, script);
    play(rt.alloc(), Sums, room, events.as_slice()).expect(rt, "memory")
}

/// Checks what the events of `script` give over sums, with outboxes for `room` replies.
fn check_play(rt: &(impl Abort + AllocGlobal), room: usize, script: &str, want: &str) {
    let played = played_of(rt, room, script);
    let mut found = Page::new(rt.alloc());
    add_played::<SumsKey>(&mut found, &played);
    check_page(rt, &found, want, script);
}

// Replies are taken in the order of their numbers, whichever run ends first.
#[test]
fn replies_in_order(rt: HostRuntime) {
    check_play(
        &rt,
        4,
        "\
        open\n\
        edit 0 low a=b\n\
        accept 0 7 Sum a\n\
        accept 0 8 Sum b\n\
        start\n\
        start\n\
        run 1\n\
        release 0\n\
        take 0\n\
        run 0\n\
        release 0\n\
        release 0\n\
        release 0\n\
        take 0\n\
        take 0\n\
        take 0\n\
        ",
        "\
        accepted 7 Sum a|8 Sum b|\n\
        taken 0 7 Sum a @1 answered 2|1 8 Sum b @1 answered 1|\n\
        revision 1\n\
        ",
    );
}

// An edit cancels the run that was started before it, with its result given or not.
#[test]
fn cancelled_by_an_edit(rt: HostRuntime) {
    check_play(
        &rt,
        4,
        "\
        open\n\
        edit 0 low a=b\n\
        edit 0 low b=\n\
        edit 0 low c=\n\
        accept 0 7 Sum a\n\
        accept 0 8 Sum a\n\
        accept 0 9 Sum a\n\
        start\n\
        start\n\
        step 1\n\
        edit 0 low b=c\n\
        step 0\n\
        give 1\n\
        start\n\
        run 2\n\
        release 0\n\
        release 0\n\
        release 0\n\
        take 0\n\
        take 0\n\
        take 0\n\
        ",
        "\
        accepted 7 Sum a|8 Sum a|9 Sum a|\n\
        taken 0 7 Sum a @4 cancelled 3 4|1 8 Sum a @4 cancelled 3 4|2 9 Sum a @4 answered 3|\n\
        revision 4\n\
        ",
    );
}

// A client that closes takes what was put before, and posts nothing more.
#[test]
fn full_and_closed(rt: HostRuntime) {
    check_play(
        &rt,
        1,
        "\
        open\n\
        accept 0 7 Sum a\n\
        accept 0 8 Sum a\n\
        accept 0 9 Sum a\n\
        start\n\
        run 0\n\
        start\n\
        run 1\n\
        release 0\n\
        release 0\n\
        start\n\
        close 0\n\
        step 2\n\
        release 0\n\
        close 0\n\
        accept 0 6 Sum a\n\
        edit 0 low a=b\n\
        take 0\n\
        take 0\n\
        ",
        "\
        accepted 7 Sum a|8 Sum a|9 Sum a|\n\
        taken 0 7 Sum a @0 answered 1|\n\
        revision 0\n\
        ",
    );
}

// A starved request is answered so, and events on nothing are passed over.
#[test]
fn starved(rt: HostRuntime) {
    check_play(
        &rt,
        2,
        "\
        accept 0 6 Sum a\n\
        edit 0 low a=b\n\
        release 0\n\
        take 0\n\
        close 0\n\
        start\n\
        step 0\n\
        give 0\n\
        starve 0\n\
        open\n\
        accept 0 7 Sum a\n\
        accept 1 7 Sum a\n\
        start\n\
        step 0\n\
        step 0\n\
        give 1\n\
        starve 0\n\
        starve 0\n\
        give 0\n\
        release 0\n\
        take 0\n\
        ",
        "\
        accepted 7 Sum a|\n\
        taken 0 7 Sum a @0 starved|\n\
        revision 0\n\
        ",
    );
}

// A list of changes whose range is bad is passed over: it makes no revision, and stops no run. One that
// is accepted is seen by the next request.
#[test]
fn ranged_edits(rt: HostRuntime) {
    check_play(
        &rt,
        4,
        "\
        open\n\
        edit 0 low c~0:0-0:0 x\n\
        edit 0 low a~all b\n\
        accept 0 7 Sum a\n\
        start\n\
        edit 0 low a~0:0-0:1 x | 1:0-1:0 y\n\
        run 0\n\
        edit 0 low a~0:1-0:1  c | 0:0-0:0 d\n\
        accept 0 8 Sum a\n\
        start\n\
        run 1\n\
        release 0\n\
        release 0\n\
        take 0\n\
        take 0\n\
        ",
        "\
        accepted 7 Sum a|8 Sum a|\n\
        taken 0 7 Sum a @1 answered 2|1 8 Sum a @2 answered 3|\n\
        revision 2\n\
        ",
    );
}

// Requests with one label are withdrawn: one in a run, one that waits, and none whose reply is ready.
// The result of a run that is over is given to nobody.
#[test]
fn withdrawn(rt: HostRuntime) {
    check_play(
        &rt,
        4,
        "\
        open\n\
        accept 0 7 Sum a\n\
        accept 0 8 Sum a\n\
        accept 0 8 say hello\n\
        start\n\
        step 0\n\
        edit 0 low a=b\n\
        withdraw 0 8\n\
        withdraw 0 9\n\
        withdraw 1 7\n\
        withdraw 0 7\n\
        give 0\n\
        step 0\n\
        start\n\
        release 0\n\
        release 0\n\
        release 0\n\
        take 0\n\
        take 0\n\
        take 0\n\
        close 0\n\
        withdraw 0 7\n\
        ",
        "\
        accepted 7 Sum a|8 Sum a|8 say hello|\n\
        taken 0 7 Sum a @1 withdrawn|1 8 Sum a @1 withdrawn|2 8 say hello @0 plain|\n\
        revision 1\n\
        ",
    );
}

// The edit that makes revision 1024 ends every run: that of an open client is cancelled, and its result
// is given to nobody. A request that waits is answered afterwards.
#[test]
fn turned(rt: HostRuntime) {
    check_play(
        &rt,
        4,
        "\
        open\n\
        open\n\
        edits 1023 0 low c=\n\
        accept 0 7 Sum a\n\
        accept 1 7 Sum a\n\
        accept 0 8 Sum a\n\
        start\n\
        start\n\
        step 0\n\
        close 1\n\
        edit 0 low a=b\n\
        give 0\n\
        step 0\n\
        step 1\n\
        start\n\
        run 2\n\
        release 0\n\
        release 0\n\
        take 0\n\
        take 0\n\
        ",
        "\
        accepted 7 Sum a|8 Sum a|\n\
        accepted 7 Sum a|\n\
        taken 0 7 Sum a @1024 cancelled 1023 1024|1 8 Sum a @1024 answered 2|\n\
        taken \n\
        revision 1024\n\
        ",
    );
}
