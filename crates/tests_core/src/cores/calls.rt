//! The calls of a core, each of which writes what it answers.
//!
//! The proof of a function that holds a core is dear, since the core's type has an invariant of many
//! parts. So only the short methods here hold one, and tests know a core by [`Calls`] alone.
ghost use Rattle.std.specs.Prelude.{◌≡◌, IfOk};

use super::post::Post;
use super::shown::{
    add_accepted, add_again, add_closed, add_edited, add_fault, add_give, add_look, add_opened,
    add_owner, add_run, add_start, yes_or_no,
};
use pq_core::{
    Change, ClientId, Core, Done, Label, Move, PlainStamp, Released, Request, RunId, Work,
};
use pq_rules::{Memory, Rules, SumsKey, SumsValue};
use std::alloc::Global;
use test_support::{Counted, Page};

/// The calls of a core. Each rule that a call starts is added to its `log` as `KEY WHY;`.
pub(super) trait Calls {
    /// Opens a client with room for `room` replies, of which `left` can be put.
    fn opened(&mut self, page: &mut Page, room: usize, left: usize);

    /// Accepts a request.
    fn accepted(&mut self, page: &mut Page, client: ClientId, request: Request<SumsKey>);

    /// Makes an edit.
    fn edited(&mut self, page: &mut Page, client: ClientId, change: Change);

    /// Starts a run.
    fn started(&mut self, page: &mut Page);

    /// Starts a run, and writes its request.
    fn begun(&mut self, page: &mut Page);

    /// Looks at a run. Work is lost.
    fn looked(&mut self, page: &mut Page, run: RunId);

    /// Takes a step of a run, and gives it the result of its work.
    fn stepped(&mut self, page: &mut Page, log: &mut Page, run: RunId);

    /// Gives the result of the work of `run` to `other`, and where it is refused to `run`.
    fn swapped(&mut self, page: &mut Page, log: &mut Page, run: RunId, other: RunId);

    /// Makes a change of client 0 before it gives the result of the work of a run.
    fn given_late(&mut self, page: &mut Page, log: &mut Page, run: RunId, change: Change);

    /// Withdraws the requests of client 0 with a label before it gives the result of the work of a run.
    fn given_withdrawn(&mut self, page: &mut Page, log: &mut Page, run: RunId, label: &Label);

    /// Starves a run.
    fn starved(&mut self, run: RunId) -> bool;

    /// Withdraws the requests of a client with a label.
    fn withdrawn(&mut self, page: &mut Page, client: ClientId, label: &Label);

    /// The request of a run.
    fn owner(&self, page: &mut Page, run: RunId);

    /// Releases the next reply to a client.
    fn released(&mut self, client: ClientId) -> Released;

    /// Takes the next reply to a client.
    fn taken(&mut self, client: ClientId) -> Result<bool, Memory>;

    /// Closes a client.
    fn closed(&mut self, page: &mut Page, client: ClientId);

    /// The revision now.
    fn now(&self) -> u64;

    /// Whether nothing is to be done.
    fn rests(&self) -> bool;
}

/// Carries work out. A rule that is started is added to `log` as `KEY WHY;`.
pub(super) fn carried<R: Rules<Key = SumsKey, Value = SumsValue>>(
    alloc: Global,
    log: &mut Page,
    work: Work<R, PlainStamp>,
) -> Result<Done<R, PlainStamp>, Memory>
    ensures { IfOk result (λ done. done ≡ work.done) }
{
    add_start(log, &work);
    match work.carry_out(alloc) {
        Ok(done) => Ok(done),
        Err(_) => Err(Memory),
    }
}

impl<'a> Calls for Core<Counted<'a>, PlainStamp, Post> {
    fn opened(&mut self, page: &mut Page, room: usize, left: usize) {
        match Post::new(page.alloc, room, left) {
            Ok(outbox) => add_opened(page, self.open_client(page.alloc, outbox)),
            Err(_) => page.cut(),
        }
    }

    fn accepted(&mut self, page: &mut Page, client: ClientId, request: Request<SumsKey>) {
        add_accepted(page, self.accept(client, request));
    }

    fn edited(&mut self, page: &mut Page, client: ClientId, change: Change) {
        match PlainStamp::after(page.alloc, self.inputs(), &change) {
            Ok(stamp) => add_edited(page, self.edit(client, change, stamp)),
            Err(_) => page.cut(),
        }
    }

    fn started(&mut self, page: &mut Page) {
        add_run(page, self.start());
    }

    fn begun(&mut self, page: &mut Page) {
        match self.start() {
            Some(run) => add_owner(page, self.request_of(run)),
            None => page.add("none"),
        }
    }

    fn looked(&mut self, page: &mut Page, run: RunId) {
        add_look(page, self.look(page.alloc, run));
    }

    fn stepped(&mut self, page: &mut Page, log: &mut Page, run: RunId) {
        match self.look(page.alloc, run) {
            Ok(Move::Carry(work)) => match carried(page.alloc, log, work) {
                Ok(done) => add_give(page, self.give(page.alloc, run, done)),
                Err(_) => page.cut(),
            },
            other => add_look(page, other),
        }
    }

    fn swapped(&mut self, page: &mut Page, log: &mut Page, run: RunId, other: RunId) {
        match self.look(page.alloc, run) {
            Ok(Move::Carry(work)) => match carried(page.alloc, log, work) {
                Ok(done) => match self.give(page.alloc, other, done) {
                    Err(refused) => {
                        let fault = refused.fault;
                        add_again(page, fault, self.give(page.alloc, run, refused.done));
                    }
                    taken => add_give(page, taken),
                },
                Err(_) => page.cut(),
            },
            other => add_look(page, other),
        }
    }

    fn given_late(&mut self, page: &mut Page, log: &mut Page, run: RunId, change: Change) {
        match self.look(page.alloc, run) {
            Ok(Move::Carry(work)) => match carried(page.alloc, log, work) {
                Ok(done) => match PlainStamp::after(page.alloc, self.inputs(), &change) {
                    Ok(stamp) => match self.edit(ClientId::new(0), change, stamp) {
                        Ok(_) => add_give(page, self.give(page.alloc, run, done)),
                        refused => add_edited(page, refused),
                    },
                    Err(_) => page.cut(),
                },
                Err(_) => page.cut(),
            },
            other => add_look(page, other),
        }
    }

    fn given_withdrawn(&mut self, page: &mut Page, log: &mut Page, run: RunId, label: &Label) {
        match self.look(page.alloc, run) {
            Ok(Move::Carry(work)) => match carried(page.alloc, log, work) {
                Ok(done) => match self.withdraw(ClientId::new(0), label) {
                    Ok(some) => {
                        page.add(yes_or_no(some));
                        page.add("; ");
                        add_give(page, self.give(page.alloc, run, done));
                    }
                    Err(fault) => add_fault(page, fault),
                },
                Err(_) => page.cut(),
            },
            other => add_look(page, other),
        }
    }

    fn starved(&mut self, run: RunId) -> bool {
        self.starve(run)
    }

    fn withdrawn(&mut self, page: &mut Page, client: ClientId, label: &Label) {
        match self.withdraw(client, label) {
            Ok(some) => page.add(yes_or_no(some)),
            Err(fault) => add_fault(page, fault),
        }
    }

    fn owner(&self, page: &mut Page, run: RunId) {
        add_owner(page, self.request_of(run));
    }

    fn released(&mut self, client: ClientId) -> Released {
        self.release(client)
    }

    fn taken(&mut self, client: ClientId) -> Result<bool, Memory> {
        self.take(client)
    }

    fn closed(&mut self, page: &mut Page, client: ClientId) {
        add_closed(page, self.close_client(client));
    }

    fn now(&self) -> u64 {
        self.inputs().now().number()
    }

    fn rests(&self) -> bool {
        self.is_at_rest()
    }
}
