//! The calls of a store and of a lane, each a short method: the proof of a function that holds one is
//! dear.
use crate::cores::calls::carried;
use crate::cores::shown::{add_accepted, add_edited, add_give, add_look};
use pq_core::{
    Change, ClientId, Lane, ListOutbox, Move, Number, OpenFault, PlainStamp, Prepared, Ready,
    Released, Request, RunId, Store,
};
use pq_rules::{Memory, Sums, SumsKey, SumsValue};
use std::alloc::Global;
use test_support::Page;

/// A list of replies to requests for sums.
pub(super) type List = ListOutbox<SumsKey, SumsValue, PlainStamp>;

/// The calls of a store. Only the short methods of this trait hold one.
pub(super) trait Storing {
    /// Opens a client.
    fn opened(&mut self) -> Result<ClientId, OpenFault>;

    /// The client that is opened next.
    fn next(&self) -> Option<ClientId>;

    /// Accepts a request.
    fn accepted(&mut self, page: &mut Page, client: ClientId, request: Request<SumsKey>);

    /// Makes an edit.
    fn edited(&mut self, page: &mut Page, client: ClientId, change: Change);

    /// Prepares a change from the text that its file has. `None` where memory runs out.
    fn prepared(&self, alloc: Global, change: Change) -> Option<Prepared>;

    /// Makes the edit of a change that was prepared. The change comes back where its file has another
    /// text.
    fn committed(
        &mut self,
        page: &mut Page,
        client: ClientId,
        prepared: Prepared,
    ) -> Option<Change>;

    /// Writes the text of a file, or `absent`.
    fn text(&self, page: &mut Page, name: &str);

    /// Starts a run.
    fn started(&mut self) -> Option<RunId>;

    /// Takes a step of a run. Work is lost.
    fn looked(&mut self, page: &mut Page, run: RunId);

    /// Takes a step of a run, and gives it the result of its work.
    fn given(&mut self, page: &mut Page, run: RunId);

    /// Starves a run.
    fn starved(&mut self, run: RunId) -> bool;

    /// A client with a reply that is made.
    fn next_with_made(&self) -> Option<ClientId>;

    /// Whether a reply to a client is made.
    fn is_made(&self, client: ClientId) -> bool;

    /// Collects a reply.
    fn collected(&mut self, client: ClientId) -> Option<Ready<Sums, PlainStamp>>;

    /// Acknowledges that the replies below a number were put.
    fn acknowledged(&mut self, client: ClientId, number: Number);

    /// Closes a client.
    fn closed(&mut self, client: ClientId) -> bool;

    /// Whether nothing waits and no run exists.
    fn idles(&self) -> bool;

    /// Whether a request waits for a run.
    fn is_waiting(&self) -> bool;

    /// Whether a reply to a client was not acknowledged.
    fn is_owed(&self, client: ClientId) -> bool;

    /// Whether the answer of a key is there.
    fn is_there(&self, alloc: Global, key: &SumsKey) -> bool;
}

/// A copy of `text`.
fn copied(alloc: Global, text: Option<&str>) -> Result<Option<String>, Memory> {
    match text {
        Some(text) => Ok(Some(String::from_str(alloc, text)?)),
        None => Ok(None),
    }
}

impl Storing for Store<Sums, PlainStamp> {
    fn opened(&mut self) -> Result<ClientId, OpenFault> {
        self.open_client()
    }

    fn next(&self) -> Option<ClientId> {
        self.next_client()
    }

    fn accepted(&mut self, page: &mut Page, client: ClientId, request: Request<SumsKey>) {
        add_accepted(page, self.accept(client, request));
    }

    fn edited(&mut self, page: &mut Page, client: ClientId, change: Change) {
        match PlainStamp::after(page.alloc, self.inputs(), &change) {
            Ok(stamp) => add_edited(page, self.edit(client, change, stamp)),
            Err(_) => page.cut(),
        }
    }

    fn prepared(&self, alloc: Global, change: Change) -> Option<Prepared> {
        match copied(alloc, self.inputs().get(change.file.as_str())) {
            Ok(before) => Prepared::of(alloc, change, before).ok(),
            Err(_) => None,
        }
    }

    fn committed(
        &mut self,
        page: &mut Page,
        client: ClientId,
        prepared: Prepared,
    ) -> Option<Change> {
        if !prepared.is_current(self.inputs()) {
            return Some(prepared.into_change());
        }
        match PlainStamp::after(page.alloc, self.inputs(), prepared.change()) {
            Ok(stamp) => match self.edit_prepared(client, prepared, stamp) {
                Ok((revision, _body)) => add_edited(page, Ok(revision)),
                Err(refused) => add_edited(page, Err(refused)),
            },
            Err(_) => page.cut(),
        }
        None
    }

    fn text(&self, page: &mut Page, name: &str) {
        page.add(self.inputs().get(name).unwrap_or("absent"));
    }

    fn started(&mut self) -> Option<RunId> {
        self.start()
    }

    fn looked(&mut self, page: &mut Page, run: RunId) {
        add_look(page, self.look(page.alloc, run));
    }

    fn given(&mut self, page: &mut Page, run: RunId) {
        match self.look(page.alloc, run) {
            Ok(Move::Carry(work)) => {
                let mut log = Page::new(page.alloc);
                match carried(page.alloc, &mut log, work) {
                    Ok(done) => add_give(page, self.give(page.alloc, run, done)),
                    Err(_) => page.cut(),
                }
            }
            other => add_look(page, other),
        }
    }

    fn starved(&mut self, run: RunId) -> bool {
        self.starve(run)
    }

    fn next_with_made(&self) -> Option<ClientId> {
        self.next_made()
    }

    fn is_made(&self, client: ClientId) -> bool {
        self.has_made(client)
    }

    fn collected(&mut self, client: ClientId) -> Option<Ready<Sums, PlainStamp>> {
        self.collect(client)
    }

    fn acknowledged(&mut self, client: ClientId, number: Number) {
        self.put_seen(client, number);
    }

    fn closed(&mut self, client: ClientId) -> bool {
        self.close_client(client)
    }

    fn idles(&self) -> bool {
        self.is_idle()
    }

    fn is_waiting(&self) -> bool {
        self.has_waiting()
    }

    fn is_owed(&self, client: ClientId) -> bool {
        self.owes(client)
    }

    fn is_there(&self, alloc: Global, key: &SumsKey) -> bool {
        self.has_answer(alloc, key)
    }
}

/// The calls of a lane.
pub(super) trait Laying {
    /// Fills a reply, and returns it where it comes back.
    fn filled(&mut self, ready: Ready<Sums, PlainStamp>) -> Option<Ready<Sums, PlainStamp>>;

    /// Releases the next reply.
    fn released(&mut self) -> Released;

    /// Takes the next reply.
    fn taken(&mut self) -> Result<bool, Memory>;

    /// Closes the lane, and returns whether its outbox came back.
    fn is_shut(&mut self) -> bool;
}

impl Laying for Lane<Sums, PlainStamp, List> {
    fn filled(&mut self, ready: Ready<Sums, PlainStamp>) -> Option<Ready<Sums, PlainStamp>> {
        self.fill(ready).err()
    }

    fn released(&mut self) -> Released {
        self.release()
    }

    fn taken(&mut self) -> Result<bool, Memory> {
        self.take()
    }

    fn is_shut(&mut self) -> bool {
        self.close().is_some()
    }
}
