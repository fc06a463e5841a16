//! The clients of a script, and the calls that each makes.
use crate::checks::{split_row, text_of as text_on};
use crate::halls::gate::Latch;
use crate::halls::stage::{Ends, Stage};
use pq_core::{Body, Change, Label, Request, Want};
use pq_frame::Message;
use pq_hall::Client;
use pq_inputs::Durability;
use pq_mail::Post;
use pq_names::Text;
use pq_proto::ProtoKey;
use pq_session::{Item, Session};
use std::collections::VecDeque;
use std::process::Abort;
use std::sync::atomic::Ordering;
use std::thread::{JoinHandle, Scope, Threads};
use test_support::{Page, changes_of, page_of, text_of_word};

/// A client, and the receipts whose replies it has not taken.
#[derive(Drop)]
pub(crate) struct Guest<P, C, T, Q> {
    client: Client,
    post: P,
    porter: Option<C>,
    take: Option<T>,
    receipts: VecDeque<Q>,
    session: Session,
    /// The thread that carries the next post, if one was begun.
    away: Option<JoinHandle<Returned<C>>>,
}

/// What a thread that carried a post comes back with: the porter, and what became of the post.
#[derive(Drop)]
struct Returned<C> {
    porter: C,
    page: Page,
}

/// A client of the hall `F`.
pub(crate) type GuestOf<F, R> = Guest<
    <F as Stage<R>>::Post,
    <F as Stage<R>>::Porter,
    <F as Stage<R>>::Take,
    <F as Stage<R>>::Receipt,
>;

/// A client that joins `hall`.
pub(crate) fn joined<F, R>(rt: &R, hall: &F) -> GuestOf<F, R>
where
    F: Stage<R>,
    R: Abort + AllocGlobal,
{
    let Ends {
        client,
        post,
        porter,
        take,
    } = hall.join(rt).expect(rt, "a client");
    Guest {
        client,
        post,
        porter: Some(porter),
        take: Some(take),
        receipts: VecDeque::new(rt.alloc()),
        session: Session::new(),
        away: None,
    }
}

/// The text that `text` is, in a block of its own.
fn text_of(rt: &(impl Abort + AllocGlobal), text: &str) -> Text {
    Text::new(rt.alloc(), text).expect(rt, "memory")
}

/// A request with the label `label` of the diagnostics of the file `name`.
fn ask(rt: &(impl Abort + AllocGlobal), label: &str, name: &str) -> Post<ProtoKey> {
    Post::Ask(Request {
        label: Label::Text(text_of(rt, label)),
        want: Want::Demand(ProtoKey::Diagnostics(text_of(rt, name))),
    })
}

/// The edit that `words` writes as `NAME=TEXT`, or as `NAME~LIST` for a list of changes.
fn edit(rt: &(impl Abort + AllocGlobal), words: &str) -> Post<ProtoKey> {
    let (name, body) = match words.split_once("~") {
        Some((name, list)) => {
            let changes = changes_of(rt.alloc(), list).expect(rt, "memory");
            (name, Body::Ranged(changes))
        }
        None => {
            let (name, text) = split_row(rt, words, "=");
            let text = text_of_word(rt.alloc(), text).expect(rt, "memory");
            (name, Body::Set(Some(text)))
        }
    };
    Post::Edit(Change {
        file: text_of(rt, name),
        body,
        durability: Durability::Low,
    })
}

/// Posts `post`, and writes the number of its receipt.
fn add_post<F, R>(
    rt: &R,
    page: &mut Page,
    hall: &F,
    guest: &mut GuestOf<F, R>,
    post: Post<ProtoKey>,
)
where
    F: Stage<R>,
    R: Abort,
{
    match hall.post(rt, &mut guest.post, post) {
        Ok((number, receipt)) => {
            page.wide(number);
            if let Some(receipt) = receipt {
                guest.receipts.push_back(receipt).expect(rt, "memory");
            }
        }
        Err(fault) => match format!(in page.alloc; "{fault}") {
            Ok(text) => page.add(text.as_str()),
            Err(_) => page.cut(),
        },
    }
}

/// Takes the reply of the next receipt, and writes it, or its text.
fn add_taken<F, R>(rt: &R, page: &mut Page, hall: &F, guest: &mut GuestOf<F, R>, is_text: bool)
where
    F: Stage<R>,
    R: Abort,
{
    let receipt = guest.receipts.pop_front().expect(rt, "a receipt");
    match &mut guest.take {
        Some(take) => hall.take(rt, page, guest.client, take, &receipt, is_text),
        None => page.add("no end"),
    }
}

/// What the message of this body asks for, as a post. A message that asks for nothing ends the posts.
fn said(rt: &(impl Abort + AllocGlobal), session: &mut Session, body: &str) -> Post<ProtoKey> {
    let message = Message::read(rt.alloc(), body.as_bytes()).expect(rt, "memory");
    match session.on(rt.alloc(), message).expect(rt, "memory") {
        Item::Ask(request) => Post::Ask(request),
        Item::Say(request) => Post::Ask(request),
        Item::Edit(change) => Post::Edit(change),
        Item::Withdraw(label) => Post::Withdraw(label),
        Item::Ignore => Post::End,
        Item::End(_) => Post::End,
    }
}

/// Carries the next post of a client, and writes what became of it.
fn add_carried<F, R>(rt: &R, page: &mut Page, hall: &F, guest: &mut GuestOf<F, R>)
where
    F: Stage<R>,
{
    match &mut guest.porter {
        Some(porter) => hall.carry(rt, page, guest.client, porter),
        None => page.add("no porter"),
    }
}

/// The number that `word` writes.
fn count_of(rt: &impl Abort, word: &str) -> u64 {
    word.parse::<u64>().ok().expect(rt, word)
}

/// Posts and carries as many edits as `word` numbers, which set one text, and writes what became of the
/// last.
fn add_edits<F, R>(rt: &R, page: &mut Page, hall: &F, guest: &mut GuestOf<F, R>, word: &str)
where
    F: Stage<R>,
    R: Abort + AllocGlobal,
{
    let mut last = Page::new(page.alloc);
    for _ in 0..count_of(rt, word) {
        let mut posted = Page::new(page.alloc);
        add_post(rt, &mut posted, hall, guest, edit(rt, "c.proto=x"));
        last = Page::new(page.alloc);
        add_carried(rt, &mut last, hall, guest);
    }
    page.add(text_on(rt, &last));
}

/// Posts requests by `words`, which are `COUNT NAME`, and writes the number of the last receipt.
fn add_asked<F, R>(rt: &R, page: &mut Page, hall: &F, guest: &mut GuestOf<F, R>, words: &str)
where
    F: Stage<R>,
    R: Abort + AllocGlobal,
{
    let (word, name) = split_row(rt, words, " ");
    let mut last = Page::new(page.alloc);
    for _ in 0..count_of(rt, word) {
        last = Page::new(page.alloc);
        add_post(rt, &mut last, hall, guest, ask(rt, name, name));
    }
    page.add(text_on(rt, &last));
}

/// Carries as many posts as `word` numbers, and writes what became of the last.
fn add_all_carried<F, R>(rt: &R, page: &mut Page, hall: &F, guest: &mut GuestOf<F, R>, word: &str)
where
    F: Stage<R>,
    R: Abort,
{
    let mut last = Page::new(page.alloc);
    for _ in 0..count_of(rt, word) {
        last = Page::new(page.alloc);
        add_carried(rt, &mut last, hall, guest);
    }
    page.add(text_on(rt, &last));
}

/// Takes as many replies as `word` numbers. Writes those whose part after the number is not that of the
/// reply before, and the number of the last.
fn add_all_taken<F, R>(rt: &R, page: &mut Page, hall: &F, guest: &mut GuestOf<F, R>, word: &str)
where
    F: Stage<R>,
    R: Abort,
{
    let mut last = page_of(page.alloc, "none", " ", "none");
    for _ in 0..count_of(rt, word) {
        let mut taken = Page::new(page.alloc);
        add_taken(rt, &mut taken, hall, guest, false);
        add_change(rt, page, text_on(rt, &last), text_on(rt, &taken));
        last = taken;
    }
    page.add(split_row(rt, text_on(rt, &last), " ").0);
}

/// Writes the line `line`, if its part after the first word is not that of the line `before`.
fn add_change(rt: &impl Abort, page: &mut Page, before: &str, line: &str) {
    let (_, old) = split_row(rt, before, " ");
    let (_, new) = split_row(rt, line, " ");
    if old != new {
        page.add(line);
        page.add(" to ");
    }
}

/// Carries the next post of `client`, and notes that this has returned.
fn carry_away<F, R>(
    rt: &R,
    hall: &F,
    latch: &Latch,
    client: Client,
    porter: F::Porter,
) -> Returned<F::Porter>
where
    F: Stage<R>,
    R: AllocGlobal,
{
    let mut porter = porter;
    let mut page = Page::new(rt.alloc());
    hall.carry(rt, &mut page, client, &mut porter);
    latch.has_returned.store(true, Ordering::SeqCst);
    Returned { porter, page }
}

/// Begins to carry the next post of a client, on a thread of `scope`.
pub(crate) fn begin<'s, E, F, R>(
    scope: &Scope<'s, E>,
    rt: &'s R,
    hall: &'s F,
    latch: &'s Latch,
    guest: &mut GuestOf<F, R>,
)
where
    F: Stage<R>,
    F::Post: 's,
    F::Porter: 's,
    F::Take: 's,
    R: Abort + AllocGlobal + Threads + Sync,
{
    let porter = guest.porter.take().expect(rt, "a porter");
    let client = guest.client;
    latch.has_returned.store(false, Ordering::SeqCst);
    let away = scope
        .spawn(move || carry_away(rt, hall, latch, client, porter))
        .ok()
        .expect(rt, "a thread");
    guest.away = Some(away);
}

/// Waits for the post whose carry was begun, and writes what became of it.
pub(crate) fn add_returned<F, R>(rt: &R, page: &mut Page, guest: &mut GuestOf<F, R>)
where
    F: Stage<R>,
    R: Abort + Threads,
{
    let away = guest.away.take().expect(rt, "a carry");
    let Returned { porter, page: told } = away.join(rt);
    guest.porter = Some(porter);
    page.add(text_on(rt, &told));
}

/// Joins as many clients as `word` numbers, writes how many could join, and closes them.
pub(crate) fn add_crowd<F, R>(rt: &R, page: &mut Page, hall: &F, word: &str)
where
    F: Stage<R>,
    R: Abort + AllocGlobal,
{
    let mut clients = Vec::new(page.alloc);
    for _ in 0..count_of(rt, word) {
        if let Ok(ends) = hall.join(rt) {
            clients.push(ends.client).expect(rt, "memory");
        }
    }
    page.number(clients.len());
    for client in &clients {
        hall.close(rt, *client);
    }
}

/// Closes a client, joins another one in its place, and closes the first one once more.
fn join_again<F, R>(rt: &R, hall: &F, guest: &mut GuestOf<F, R>)
where
    F: Stage<R>,
    R: Abort + AllocGlobal,
{
    let client = guest.client;
    hall.close(rt, client);
    *guest = joined(rt, hall);
    hall.close(rt, client);
}

/// Makes the call `word` of a client, and writes its answer.
pub(crate) fn answer<F, R>(
    rt: &R,
    page: &mut Page,
    hall: &F,
    guest: &mut GuestOf<F, R>,
    word: &str,
    rest: &str,
)
where
    F: Stage<R>,
    R: Abort + AllocGlobal,
{
    match word {
        "ask" => add_post(rt, page, hall, guest, ask(rt, rest, rest)),
        "asks" => add_asked(rt, page, hall, guest, rest),
        "call" => {
            let (label, name) = split_row(rt, rest, " ");
            add_post(rt, page, hall, guest, ask(rt, label, name));
        }
        "edit" => add_post(rt, page, hall, guest, edit(rt, rest)),
        "edits" => add_edits(rt, page, hall, guest, rest),
        "withdraw" => {
            let label = Label::Text(text_of(rt, rest));
            add_post(rt, page, hall, guest, Post::Withdraw(label));
        }
        "end" => add_post(rt, page, hall, guest, Post::End),
        "say" => {
            let post = said(rt, &mut guest.session, rest);
            add_post(rt, page, hall, guest, post);
        }
        "text" => add_taken(rt, page, hall, guest, true),
        "take" => add_taken(rt, page, hall, guest, false),
        "takes" => add_all_taken(rt, page, hall, guest, rest),
        "carry" => add_carried(rt, page, hall, guest),
        "carries" => add_all_carried(rt, page, hall, guest, rest),
        "close" => {
            hall.close(rt, guest.client);
            page.add("closed");
        }
        "again" => {
            join_again(rt, hall, guest);
            page.add("joined");
        }
        "deaf" => {
            guest.take = None;
            page.add("dropped");
        }
        _ => {
            guest.porter = None;
            page.add("dropped");
        }
    }
}
