//! Calls of a core, each written as a line of text.
//!
//! - `open ROOM`, `accept CLIENT REQUEST`, `edit CLIENT CHANGE`, `release CLIENT`, `take CLIENT`
//!   and `close CLIENT` are calls of a client. A close answers the replies that were put, and the
//!   count of those that were taken. `mute LEFT` opens a client whose taking end is gone after
//!   `LEFT` puts.
//! - `posts CLIENT COUNT REQUEST` accepts that many such requests. `starts COUNT` starts that many
//!   runs, and answers the request of each.
//! - `withdraw CLIENT LABEL` withdraws the requests of a client with that label.
//! - `start`, `look RUN`, `starve RUN` and `request RUN` are calls of a run. The work that a look
//!   hands out is lost.
//! - `step RUN` takes one step: it looks, carries work out and gives the result.
//! - `finish RUN` takes steps until the run is over: it carries work out and gives the result. It
//!   answers the rules that were started, and the run's end. `turns RUN OTHER` takes steps of both.
//! - `swap RUN OTHER` gives the result of the work of `RUN` to `OTHER`, and then to `RUN`.
//! - `late RUN CHANGE` makes a change of client 0 before it gives the result of the work of `RUN`.
//! - `now` is the revision now.
use super::calls::Calls;
use super::lines::{change_of, client_of, label_of, number_of, request_of};
use super::shown::{add_released, yes_or_no};
use crate::checks::{check_that, split_row, text_of};
use pq_core::{ClientId, RunId};
use pq_rules::SumsKey;
use std::process::Abort;
use test_support::Page;

/// The number of steps after which a run that goes on has failed.
const MOST_STEPS: u32 = 1_000;

/// Whether a run is over after a step.
fn is_over(step: &str) -> bool {
    step == "answered" || step == "stopped" || step == "no such run"
}

/// Takes a step of `run`, and writes what it came to on a page of its own. Returns whether the run
/// is over.
fn step<C: Calls>(
    rt: &impl Abort,
    page: &mut Page,
    core: &mut C,
    log: &mut Page,
    run: RunId,
) -> bool {
    core.stepped(page, log, run);
    is_over(text_of(rt, page))
}

/// Takes steps of `run` until it is over. Writes the rules that it started, and its end.
fn finish<C: Calls>(rt: &impl Abort, page: &mut Page, core: &mut C, log: &mut Page, run: RunId) {
    for _ in 0..MOST_STEPS {
        let mut found = Page::new(page.alloc);
        if step(rt, &mut found, core, log, run) {
            page.add(text_of(rt, log));
            page.add(text_of(rt, &found));
            return;
        }
    }
    check_that(rt, false, "a run goes on and on");
}

/// Takes steps of `run` and `other` in turns until both are over.
fn turns<C: Calls>(
    rt: &impl Abort,
    page: &mut Page,
    core: &mut C,
    log: &mut Page,
    run: RunId,
    other: RunId,
) {
    for _ in 0..MOST_STEPS {
        let mut one = Page::new(page.alloc);
        let mut two = Page::new(page.alloc);
        let is_one_over = step(rt, &mut one, core, log, run);
        let is_two_over = step(rt, &mut two, core, log, other);
        if is_one_over && is_two_over {
            page.add("over");
            return;
        }
    }
    check_that(rt, false, "two runs go on and on");
}

/// Accepts requests of `client`: `text` is their count and one of them. Writes the answer to each.
fn post_each<C: Calls>(
    rt: &(impl Abort + AllocGlobal),
    page: &mut Page,
    core: &mut C,
    client: ClientId,
    text: &str,
) {
    let (count, request) = split_row(rt, text, " ");
    for _ in 0..number_of(rt, count) {
        core.accepted(page, client, request_of::<SumsKey>(rt, request));
        page.add("|");
    }
}

/// Starts `count` runs. Writes the request of each.
fn start_each<C: Calls>(page: &mut Page, core: &mut C, count: u64) {
    for _ in 0..count {
        core.begun(page);
        page.add("|");
    }
}

/// Makes a call of the client `client`.
fn client_answer<C: Calls>(
    rt: &(impl Abort + AllocGlobal),
    page: &mut Page,
    core: &mut C,
    call: &str,
    client: ClientId,
    rest: &str,
) {
    match call {
        "accept" => core.accepted(page, client, request_of::<SumsKey>(rt, rest)),
        "posts" => post_each(rt, page, core, client, rest),
        "edit" => core.edited(page, client, change_of(rt, rest)),
        "withdraw" => core.withdrawn(page, client, &label_of(rt, rest)),
        "release" => add_released(page, core.released(client)),
        "take" => page.add(yes_or_no(core.taken(client).expect(rt, "memory"))),
        _ => core.closed(page, client),
    }
}

/// Makes a call of the run `run` that hands no work out.
fn run_answer<C: Calls>(page: &mut Page, core: &mut C, call: &str, run: RunId) {
    match call {
        "look" => core.looked(page, run),
        "starve" => page.add(yes_or_no(core.starved(run))),
        _ => core.owner(page, run),
    }
}

/// Makes a call that gives results of the run `run`.
fn work_answer<C: Calls>(
    rt: &(impl Abort + AllocGlobal),
    page: &mut Page,
    core: &mut C,
    log: &mut Page,
    call: &str,
    run: RunId,
    rest: &str,
) {
    match call {
        "step" => core.stepped(page, log, run),
        "finish" => finish(rt, page, core, log, run),
        "pull" => core.given_withdrawn(page, log, run, &label_of(rt, rest)),
        "late" => core.given_late(page, log, run, change_of(rt, rest)),
        "turns" => turns(rt, page, core, log, run, RunId::new(number_of(rt, rest))),
        _ => core.swapped(page, log, run, RunId::new(number_of(rt, rest))),
    }
}

/// Makes a call that names no client and no run.
fn plain_answer<C: Calls>(rt: &impl Abort, page: &mut Page, core: &mut C, call: &str, rest: &str) {
    match call {
        "open" => core.opened(page, number_of(rt, rest) as usize, usize::MAX),
        "mute" => {
            let left = number_of(rt, rest) as usize;
            core.opened(page, left, left);
        }
        "start" => core.started(page),
        "starts" => start_each(page, core, number_of(rt, rest)),
        _ => page.wide(core.now()),
    }
}

/// Makes the call that `line` writes, and writes what it answers.
pub(super) fn answer<C: Calls>(
    rt: &(impl Abort + AllocGlobal),
    page: &mut Page,
    core: &mut C,
    log: &mut Page,
    line: &str,
) {
    let (call, rest) = line.split_once(" ").unwrap_or((line, ""));
    let (first, more) = rest.split_once(" ").unwrap_or((rest, ""));
    match call {
        "open" | "mute" | "start" | "starts" | "now" => {
            plain_answer(rt, page, core, call, rest);
        }
        "look" | "starve" | "request" => {
            run_answer(page, core, call, RunId::new(number_of(rt, first)));
        }
        "step" | "finish" | "turns" | "late" | "pull" | "swap" => {
            let run = RunId::new(number_of(rt, first));
            work_answer(rt, page, core, log, call, run, more);
        }
        _ => client_answer(rt, page, core, call, client_of(rt, first), more),
    }
}
