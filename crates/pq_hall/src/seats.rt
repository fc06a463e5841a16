//! What lies under the lock of a lane: a seat, which the lane of one open client has, or none.
ghost use Rattle.std.specs.Prelude.{◌≡◌, ◌≢◌, ◌↔◌, [], IfNone, IfOk, IfSome, IsTrue, None, Some, true};
ghost use Rattle.std.specs.Option.{option_map};
ghost use Rattle.pq_core.specs.Lanes.{HasNext, empty_tray};
ghost use Rattle.pq_core.specs.Ledger.{Ledger};
ghost use Rattle.pq_core.specs.Moves.{Reaches};
ghost use Rattle.pq_core.specs.Starts.{IsCountedIn, Log};
ghost use Rattle.pq_core.specs.Stores.{Hears, StandsFor};
ghost use Rattle.pq_core.specs.Told.{Told};
ghost use Rattle.pq_hall.specs.Marks.{MarkView};
ghost use Rattle.pq_hall.specs.Sending.{Empties, Filled, IsLast, LaneView, Says, SaysPut, Sends};
ghost use Rattle.pq_hall.specs.aux.Vacant.{VacantFrom};
ghost use Rattle.pq_hall.specs.declared.seats.Sent.TheVariants.{Nothing};

use crate::mark::{BoardName, Mark};
use pq_core::{
    ClientId, Lane, MAX_CLIENTS, Memory, Number, Ready, Released, Stamp, Store, WINDOW,
    lane_is_kept,
};
use pq_mail::LaneEnd;
use pq_rules::Rules;
use std::alloc::Global;
use std::sync::{Mutex, Wait};

/// The outgoing side of an open client. The lane is that of the client.
#[derive(Drop)]
pub(crate) struct Seat<R: Rules, J: BoardName, H: Wait + Drop> {
    client: u64,
    lane: Lane<R, Mark<J>, LaneEnd<R, Mark<J>, H>>,
    ghost own: { lane.client ≡ client },
}

/// That all replies to a client below a number were put. A seat alone makes it, of its lane's client
/// and of the lane's count of puts.
#[derive(Drop)]
pub(crate) struct Acknowledgement {
    client: u64,
    below: Number,
}

impl Acknowledgement {
    /// Tells `store` what was put.
    pub(crate) fn tell<R: Rules, M: Stamp>(self, store: &mut Store<R, M>)
        ensures rules { store.new.rules ≡ store.old.rules }
        ensures inputs { store.new.inputs ≡ store.old.inputs }
        ensures places { store.new.places ≡ store.old.places }
        // The store hears the lane's client and its count of puts.
        ensures moved { (l : Ledger R.Key R.Value M (Told R.Key R.Value M)) → StandsFor R.Key.cmp (R.machine store.old.rules) M.point store.old l
            → Reaches (Hears store.old self.client self.below) l (StandsFor R.Key.cmp (R.machine store.old.rules) M.point store.new) }
        ensures counted { (log : Log R.Key) → IsCountedIn R.Key.cmp (R.machine store.old.rules) store.old log → IsCountedIn R.Key.cmp (R.machine store.old.rules) store.new log }
    {
        store.put_seen(ClientId::new(self.client), self.below);
    }
}

/// What a release came to.
#[derive(Drop)]
pub(crate) enum Sent {
    /// No reply was put.
    Nothing,
    /// Replies were put.
    Put(Acknowledgement),
    /// The end that takes the replies is gone.
    Gone,
}

impl<R: Rules, J: BoardName, H: Wait + Drop> Seat<R, J, H> {
    /// The seat of `client`, whose replies go to `outbox`.
    ///
    /// # Errors
    ///
    /// `Memory`. Then the outbox is dropped.
    pub(crate) fn new(
        alloc: Global,
        client: u64,
        outbox: LaneEnd<R, Mark<J>, H>,
    ) -> Result<Seat<R, J, H>, Memory>
        requires { outbox.items ≡ [] }
        ensures { IfOk result (λ seat. seat.lane ≡ empty_tray client outbox) }
    {
        let lane = Lane::new(alloc, ClientId::new(client), outbox)?;
        Ok(Seat { client, lane })
    }

    /// Fills `ready` into the lane, if it is there. A reply for which the lane has no place is dropped.
    fn fill(&mut self, ready: Option<Ready<R, Mark<J>>>)
        // `Filled`: The reply gets its place, or the lane has no place for it.
        ensures { Filled ready self.old.lane self.new.lane }
    {
        if let Some(ready) = ready {
            let _back = self.lane.fill(ready);
        }
    }

    /// Puts the next replies, until the outbox refuses one or none is next. Returns what the last release
    /// came to. The lane has replies in its first `left` places alone.
    fn release(&mut self, left: usize) -> Released
        requires { VacantFrom left self.old.lane }
        // `Empties`: The next replies are put, until the outbox refuses one or none is next.
        ensures { Empties result self.old.lane self.new.lane }
    {
        if left == 0 {
            return Released::Nothing;
        }
        match self.lane.release() {
            Released::Put(_) => return self.release(left - 1),
            Released::Full => return Released::Full,
            Released::Gone => return Released::Gone,
            Released::Nothing => return Released::Nothing,
        }
    }

    /// Fills `ready` into the lane, if it is there, and puts the next replies, until the outbox refuses
    /// one or none is next.
    fn send(&mut self, ready: Option<Ready<R, Mark<J>>>) -> Sent
        // `Sends`: What `fill` and `release` do, and the result: that the end that takes is gone,
        // or how far the lane has put.
        ensures sent { Sends ready result self.old.lane self.new.lane }
        // No reply is next afterwards, unless the last release was refused.
        ensures rest { HasNext self.new.lane → self.new.lane.refused ≡ true }
    {
        let before = self.lane.put();
        self.fill(ready);
        lane_is_kept(&self.lane);
        let last = self.release(WINDOW);
        outcome_of(last, before, self.acknowledgement())
    }

    /// That all replies below the count of puts were put.
    fn acknowledgement(&self) -> Acknowledgement
        ensures client { result.client ≡ self.now.lane.client }
        ensures below { result.below ≡ self.now.lane.put }
    {
        Acknowledgement {
            client: self.client,
            below: self.lane.put(),
        }
    }

    /// Closes the lane, and drops its outbox.
    pub(crate) fn close(&mut self)
        ensures { self.new.lane.outbox ≡ None }
    {
        let _outbox = self.lane.close();
    }
}

/// Whether `seat` is that of `client`.
pub(crate) fn has_seat<R: Rules, J: BoardName, H: Wait + Drop>(
    seat: &Option<Seat<R, J, H>>,
    client: u64,
) -> bool
    ensures { IsTrue result ↔ (option_map (λ s. s.client) seat.now ≡ Some client) }
{
    match seat {
        Some(seat) => seat.client == client,
        None => false,
    }
}

/// What sending came to: the end that takes is gone, where the last release said so, or what was put,
/// of which `before` were put before.
fn outcome_of(last: Released, before: Number, seen: Acknowledgement) -> Sent
    requires { IsLast last }
    ensures { Says result last before seen.client seen.below }
{
    match last {
        Released::Put(_) => unreachable!(),
        Released::Full => return said(before, seen),
        Released::Gone => return Sent::Gone,
        Released::Nothing => return said(before, seen),
    }
}

/// What was put, of which `before` were put before.
fn said(before: Number, seen: Acknowledgement) -> Sent
    ensures { SaysPut result before seen.client seen.below }
{
    if seen.below == before {
        return Sent::Nothing;
    }
    Sent::Put(seen)
}

/// Fills `ready` into the lane of `seat` and releases, if the seat is that of `client`.
pub(crate) fn send_in<R: Rules, J: BoardName, H: Wait + Drop>(
    seat: &mut Option<Seat<R, J, H>>,
    client: u64,
    ready: Option<Ready<R, Mark<J>>>,
) -> Sent
    // `own`, `other`, `none`: The seat of the client sends; the seat of another client, or none,
    // stays as it is.
    ensures own { IfSome seat.old (λ own. own.client ≡ client → (lane : LaneView R.Key R.Value (MarkView)) × (option_map (λ s. s.lane) seat.new ≡ Some lane) × Sends ready result own.lane lane) }
    ensures other { IfSome seat.old (λ own. own.client ≢ client → (result ≡ Nothing) × (seat.new ≡ seat.old)) }
    ensures none { IfNone seat.old ((result ≡ Nothing) × (seat.new ≡ seat.old)) }
{
    match seat {
        Some(seat) => {
            if seat.client != client {
                return Sent::Nothing;
            }
            return seat.send(ready);
        }
        None => return Sent::Nothing,
    }
}

/// Free seats for `MAX_CLIENTS` clients.
pub(crate) fn free_seats<R: Rules, J: BoardName, H: Wait + Drop>(
    alloc: Global,
) -> Result<Vec<Mutex<Option<Seat<R, J, H>>>>, Memory> {
    let mut seats = Vec::new(alloc);
    for _ in 0..MAX_CLIENTS {
        seats.push(Mutex::new(None))?;
    }
    Ok(seats)
}
