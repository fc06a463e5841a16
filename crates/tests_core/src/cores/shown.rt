//! What calls of a core answer, as text.
use super::lines::{Sample, add_replies, add_two};
use super::post::Post;
use pq_core::{
    AcceptRefused, Body, ClientId, Done, EditRefused, GiveFault, GiveRefused, LookFault, Move,
    Number, OpenRefused, PlainStamp, Released, RunId, Work,
};
use pq_inputs::Revision;
use pq_memo::Why;
use pq_rules::{Rules, SumsKey, SumsValue};
use std::fmt::Display;
use test_support::Page;

/// The length above which a text is written as its length.
const LONG: usize = 40;

/// Writes why a call was refused.
pub(super) fn add_fault(page: &mut Page, fault: impl Display + Drop) {
    match format!(in page.alloc; "{fault}") {
        Ok(text) => page.add(text.as_str()),
        Err(_) => page.cut(),
    }
}

/// Writes a client that was opened, as its number, or why not.
pub(super) fn add_opened(page: &mut Page, answer: Result<ClientId, OpenRefused<Post>>) {
    match answer {
        Ok(client) => page.wide(client.number()),
        Err(refused) => add_fault(page, refused.fault),
    }
}

/// Writes a request that was accepted, as its number, or why not.
pub(super) fn add_accepted(page: &mut Page, answer: Result<Number, AcceptRefused<SumsKey>>) {
    match answer {
        Ok(number) => page.wide(number.number()),
        Err(refused) => add_fault(page, refused.fault),
    }
}

/// Writes the texts of the changes that come back, each with a bar before it. A long text is written
/// as its length.
fn add_back(page: &mut Page, body: &Body) {
    if let Body::Ranged(changes) = body {
        page.add("; back ");
        page.number(changes.len());
        for change in changes {
            page.add("|");
            if change.text.len() > LONG {
                page.number(change.text.len());
            } else {
                page.add(change.text.as_str());
            }
        }
    }
}

/// Writes an edit that was made, as its revision, or why not. Of a list of changes it writes what comes
/// back.
pub(super) fn add_edited(page: &mut Page, answer: Result<Revision, EditRefused>) {
    match answer {
        Ok(revision) => page.wide(revision.number()),
        Err(refused) => {
            add_fault(page, refused.fault);
            add_back(page, &refused.change.body);
        }
    }
}

/// Writes a release.
pub(super) fn add_released(page: &mut Page, released: Released) {
    match released {
        Released::Put(number) => {
            page.add("put ");
            page.wide(number.number());
        }
        Released::Full => page.add("full"),
        Released::Gone => page.add("gone"),
        Released::Nothing => page.add("nothing"),
    }
}

/// Writes the outbox of a client that was closed, or `none`.
pub(super) fn add_closed(page: &mut Page, answer: Option<Post>) {
    match answer {
        Some(post) => {
            let (replies, taken) = post.into_parts();
            add_replies::<SumsKey>(page, replies.as_slice());
            page.number(taken);
        }
        None => page.add("none"),
    }
}

/// Writes a run that was started, as its number, or `none`.
pub(super) fn add_run(page: &mut Page, run: Option<RunId>) {
    match run {
        Some(run) => page.wide(run.number()),
        None => page.add("none"),
    }
}

/// Writes the request of a run as `CLIENT NUMBER`, or `none`.
pub(super) fn add_owner(page: &mut Page, owner: Option<(ClientId, Number)>) {
    match owner {
        Some((client, number)) => add_two(page, client.number(), number.number()),
        None => page.add("none"),
    }
}

/// Writes why a rule is started: `fresh`, `ring`, or the read that changed; `on` where it goes on.
fn add_why(page: &mut Page, why: &Option<Why<SumsKey>>) {
    match why {
        None => page.add("on"),
        Some(Why::Fresh) => page.add("fresh"),
        Some(Why::Changed(key)) => key.show(page),
        Some(Why::Ring) => page.add("ring"),
    }
}

/// Writes work as `KEY WHY`.
fn add_work<R: Rules<Key = SumsKey, Value = SumsValue>>(
    page: &mut Page,
    work: &Work<R, PlainStamp>,
) {
    work.key().show(page);
    page.add(" ");
    add_why(page, work.why());
}

/// Adds `KEY WHY;` to `log` where work starts a rule.
pub(super) fn add_start<R: Rules<Key = SumsKey, Value = SumsValue>>(
    log: &mut Page,
    work: &Work<R, PlainStamp>,
) {
    if work.why().is_some() {
        add_work(log, work);
        log.add(";");
    }
}

/// What a step came to, but for its work or run.
fn move_word<W>(step: &Move<W>) -> &'static str {
    match step {
        Move::Carry(_) => "carry",
        Move::Blocked(_) => "blocked",
        Move::Stepped => "stepped",
        Move::Answered => "answered",
        Move::Stopped => "stopped",
    }
}

/// Writes what a step came to. Work is as [`add_work`] writes it.
fn add_move<R: Rules<Key = SumsKey, Value = SumsValue>>(
    page: &mut Page,
    step: &Move<Work<R, PlainStamp>>,
) {
    match step {
        Move::Carry(work) => add_work(page, work),
        Move::Blocked(run) => {
            page.add("blocked ");
            page.wide(run.number());
        }
        _ => page.add(move_word(step)),
    }
}

/// Writes what a look came to. Work is lost.
pub(super) fn add_look<R: Rules<Key = SumsKey, Value = SumsValue>>(
    page: &mut Page,
    answer: Result<Move<Work<R, PlainStamp>>, LookFault>,
) {
    match answer {
        Ok(step) => add_move(page, &step),
        Err(fault) => add_fault(page, fault),
    }
}

/// Writes what the giving of a result came to.
pub(super) fn add_give<R: Rules<Key = SumsKey, Value = SumsValue>>(
    page: &mut Page,
    answer: Result<Move<Work<R, PlainStamp>>, GiveRefused<Done<R, PlainStamp>>>,
) {
    match answer {
        Ok(step) => add_move(page, &step),
        Err(refused) => add_fault(page, refused.fault),
    }
}

/// Writes what the giving of a result came to that was refused before because of `fault`.
pub(super) fn add_again<R: Rules<Key = SumsKey, Value = SumsValue>>(
    page: &mut Page,
    fault: GiveFault,
    answer: Result<Move<Work<R, PlainStamp>>, GiveRefused<Done<R, PlainStamp>>>,
) {
    add_fault(page, fault);
    page.add("; ");
    add_give(page, answer);
}

/// `yes` or `no`.
pub(super) fn yes_or_no(holds: bool) -> &'static str {
    if holds { "yes" } else { "no" }
}
