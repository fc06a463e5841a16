//! A lane: the outbox of a client, and the replies that wait for their turn.
//!
//! The requests of a client are numbered from 0, and replies leave in this order. A lane has a place
//! for each of the `WINDOW` numbers after those put. `fill` puts a reply into its place, in any
//! order; `release` hands the first one to the outbox. Each call takes constant time, and only `new`
//! allocates.
ghost use Rattle.std.specs.Prelude.{◌≡◌, ◌+◌, ◌-◌, ◌≤◌, ◌↔◌, [], length, drop, replicate, slice_get, Some, None, IsTrue, IfOk};
ghost use Rattle.pq_core.specs.Truth.{IsTrueReply};
ghost use Rattle.pq_core.specs.Moves.{window};
ghost use Rattle.pq_core.specs.Lanes.{ReadyView, ReadyKept, empty_tray, HasPlace, HasNext, Fills, LetsOutOf, TakesOutOf, ClosesLane, TrayKept, after_next};
ghost use Rattle.pq_core.specs.aux.Trays.{LetsOut};

use crate::lanes::outbox::{Outbox, PutFault, Taking};
use crate::values::fault::Memory;
use crate::values::ids::{ClientId, Number};
use crate::values::limits::WINDOW;
use crate::values::moves::Released;
use crate::values::ready::{Ready, ready_is_right};
use crate::values::reply::Reply;
use crate::values::stamp::Stamp;
use pq_inputs::Revision;
use pq_rules::Rules;
use std::alloc::Global;
use std::collections::VecDeque;
use std::marker::Model;

/// The lane of a client, which is open or closed.
#[derive(Drop)]
pub struct Lane<R: Rules, M: Stamp, O: Outbox<R, M>> {
    client: ClientId,
    outbox: Option<O>,
    put: u64,
    places: VecDeque<Option<Ready<R, M>>>,
    refused: bool,
}

impl<R: Rules, M: Stamp, O: Outbox<R, M>> Model for Lane<R, M, O> {
    ghost use Rattle.pq_core.specs.Lanes.{Tray, TrayKept};
    ghost use Rattle.pq_core.specs.Truth.{IsTrueReply};

    ghost Value = { Tray R.Key R.Value M O };

    ghost view = { λ l. record { client = l.client; outbox = l.outbox; put = l.put; places = l.places.items; refused = l.refused } };

    ghost invariant = { λ l. TrayKept (IsTrueReply R.Key.cmp R.machine M.point) O.puts (record { client = l.client; outbox = l.outbox; put = l.put; places = l.places.items; refused = l.refused }) };
}

/// The places of a lane, before its client is known.
#[derive(Drop)]
pub(crate) struct Places<R: Rules, M: Stamp> {
    places: VecDeque<Option<Ready<R, M>>>,
}

impl<R: Rules, M: Stamp> Model for Places<R, M> {
    ghost use Rattle.std.specs.Prelude.{◌≡◌, List, Option, None, replicate};
    ghost use Rattle.pq_core.specs.Moves.{window};
    ghost use Rattle.pq_core.specs.Lanes.{ReadyView};

    ghost Value = { List (Option (ReadyView R.Key R.Value M)) };

    ghost view = { λ p. p.places.items };

    ghost invariant = { λ p. p.places.items ≡ replicate window None };
}

impl<R: Rules, M: Stamp> Places<R, M> {
    /// Vacant places.
    pub(crate) fn new(alloc: Global) -> Result<Self, Memory> {
        let mut places = VecDeque::with_capacity(alloc, WINDOW)?;
        'places: while places.len() < WINDOW {
            places.push_back_reserved(None);
        }
        Ok(Places { places })
    }
}

impl<R: Rules, M: Stamp, O: Outbox<R, M> + Drop> Lane<R, M, O> {
    /// The lane of `client`, before its first reply. Its replies go to `outbox`.
    ///
    /// # Errors
    ///
    /// `Memory` where the places cannot be allocated. The outbox is dropped then.
    pub fn new(alloc: Global, client: ClientId, outbox: O) -> Result<Self, Memory>
        // Nothing was put into the outbox that is handed in.
        requires { O.puts outbox ≡ [] }
        // A new lane has 32 vacant places, and nothing was put.
        ensures { IfOk result (λ lane. lane ≡ empty_tray client outbox) }
    {
        let places = Places::new(alloc)?;
        Ok(Lane::with_places(client, outbox, places))
    }

    /// The lane of `client`, before its first reply, with `places`.
    pub(crate) fn with_places(client: ClientId, outbox: O, places: Places<R, M>) -> Self
        requires { O.puts outbox ≡ [] }
        ensures { result ≡ empty_tray client outbox }
    {
        let Places { places } = places;
        Lane {
            client,
            outbox: Some(outbox),
            put: 0,
            places,
            refused: false,
        }
    }

    /// Puts `ready` into its place. It comes back where the lane is closed, where it is of another
    /// client, where its number was put or is `WINDOW` or more above the next one, and where its
    /// place is filled.
    pub fn fill(&mut self, ready: Ready<R, M>) -> Result<(), Ready<R, M>>
        // The reply gets its place exactly where the lane is open, the reply is of its client, its
        // number was not put and is fewer than 32 above the next, and its place is vacant; else it
        // comes back.
        ensures { Fills ready result self.old self.new }
    {
        if !self.has_place(&ready) {
            return Err(ready);
        }
        ready_is_right(&ready);
        let place = (ready.number().number() - self.put) as usize;
        put_in(&mut self.places[place], ready);
        Ok(())
    }

    /// Whether the lane takes `ready`.
    fn has_place(&self, ready: &Ready<R, M>) -> bool
        ensures { IsTrue result ↔ HasPlace self.now ready.now }
    {
        if !self.is_open() || ready.client() != self.client {
            return false;
        }
        let number = ready.number().number();
        if number < self.put || number - self.put >= WINDOW as u64 {
            return false;
        }
        !holds(&self.places[(number - self.put) as usize])
    }

    /// Puts the next reply into the outbox, if it is there and the lane is open.
    pub fn release(&mut self) -> Released
        // The next reply enters the outbox if it is there; or it stays, as `Full` only where the
        // outbox was full, and as `Gone` only where its other end was gone; or nothing changes.
        ensures { LetsOutOf O.puts O.takes O.was_full O.was_gone result self.old self.new }
    {
        let put = self.put;
        match &mut self.outbox {
            None => return Released::Nothing,
            Some(outbox) => match let_out(&mut self.places, outbox, put) {
                Released::Put(number) => {
                    self.put = put + 1;
                    self.refused = false;
                    return Released::Put(number);
                }
                Released::Full => {
                    self.refused = true;
                    return Released::Full;
                }
                Released::Gone => {
                    self.refused = true;
                    return Released::Gone;
                }
                Released::Nothing => return Released::Nothing,
            },
        }
    }

    /// Closes the lane. Returns its outbox the first time. The replies that have places are dropped.
    pub fn close(&mut self) -> Option<O>
        // The outbox comes back the first time, and the places are given up.
        ensures { ClosesLane result self.old self.new }
    {
        match self.outbox.take() {
            None => return None,
            Some(outbox) => {
                self.places.clear();
                return Some(outbox);
            }
        }
    }

    /// Whether the lane is open and its next reply is there.
    pub fn is_ready(&self) -> bool
        // `HasNext`: Whether the lane is open and its next reply is there, both ways.
        ensures { IsTrue result ↔ HasNext self.now }
    {
        match &self.outbox {
            None => return false,
            Some(_) => return holds(&self.places[0]),
        }
    }

    /// The count of the replies put, which is the number of the next one.
    pub fn put(&self) -> Number
        // The count of the replies put.
        ensures { result ≡ self.now.put }
    {
        Number::new(self.put)
    }

    /// Whether the last release was refused.
    pub fn is_refused(&self) -> bool
        // Whether the last release was refused.
        ensures { result ≡ self.now.refused }
    {
        self.refused
    }

    /// Whether the lane is open.
    pub fn is_open(&self) -> bool
        // Whether the lane is open, both ways.
        ensures { IsTrue result ↔ ((outbox : O) × (self.now.outbox ≡ Some outbox)) }
    {
        match &self.outbox {
            None => return false,
            Some(_) => return true,
        }
    }
}

impl<R: Rules, M: Stamp, O: Taking<R, M> + Drop> Lane<R, M, O> {
    /// Takes the first reply that was put and not taken, if the lane is open. Returns whether there
    /// was one.
    pub fn take(&mut self) -> Result<bool, Memory>
        // The first reply put and not taken is taken.
        ensures { TakesOutOf O.puts O.takes result self.old self.new }
    {
        match &mut self.outbox {
            None => return Ok(false),
            Some(outbox) => match outbox.take() {
                Ok(true) => return Ok(true),
                Ok(false) => return Ok(false),
                Err(failure) => return Err(failure),
            },
        }
    }
}

/// The replies put are of the lane's client, numbered from 0 on in order, and right at their stamps,
/// as are those that have places.
pub fn lane_is_kept<R: Rules, M: Stamp, O: Outbox<R, M>>(lane: &Lane<R, M, O>)
    // `TrayKept`: An open lane counts its replies put and has 32 places. The replies put are of its
    // client, numbered from 0 on in order, and right; so is each in a place, at its number.
    ensures { TrayKept (IsTrueReply R.Key.cmp R.machine M.point) O.puts lane.now }
{
    let _client = &lane.client;
}

/// Whether `place` is filled.
fn holds<R: Rules, M: Stamp>(place: &Option<Ready<R, M>>) -> bool
    ensures { IsTrue result ↔ ((ready : ReadyView R.Key R.Value M) × (place.now ≡ Some ready)) }
{
    match place {
        None => return false,
        Some(_) => return true,
    }
}

/// Puts `ready` into `place`.
fn put_in<R: Rules, M: Stamp>(place: &mut Option<Ready<R, M>>, ready: Ready<R, M>)
    ensures { place.new ≡ Some ready }
{
    *place = Some(ready);
}

/// Puts the parts of a reply back into its place.
fn restore<R: Rules, M: Stamp>(
    place: &mut Option<Ready<R, M>>,
    reply: Reply<R::Key, R::Value, M>,
    accepted: Revision,
)
    requires { ReadyKept R.Key.cmp R.machine M.point (record { reply = reply; accepted = accepted }) }
    ensures { place.new ≡ Some (record { reply = reply; accepted = accepted }) }
{
    put_in(place, Ready::new(reply, accepted));
}

/// Removes the first of `places`, and adds a vacant one.
fn shift<R: Rules, M: Stamp>(places: &mut VecDeque<Option<Ready<R, M>>>)
    requires { length places.old.items ≡ window }
    ensures { places.new.items ≡ after_next places.old.items }
{
    let _first = places.pop_front();
    places.push_back_reserved(None);
}

/// Puts the first of `places`, which has the number `put`, into `outbox` if it is there.
fn let_out<R: Rules, M: Stamp, O: Outbox<R, M>>(
    places: &mut VecDeque<Option<Ready<R, M>>>,
    outbox: &mut O,
    put: u64,
) -> Released
    requires room { length places.old.items ≡ window }
    requires put { put ≡ length (O.puts outbox.old) }
    requires numbered { (ready : ReadyView R.Key R.Value M) → slice_get places.old.items 0 ≡ Some (Some ready) → ready.reply.number ≡ put }
    ensures { LetsOut R.Key.cmp R.machine M.point O.puts O.takes O.was_full O.was_gone result put places.old.items places.new.items outbox.old outbox.new }
{
    let place = &mut places[0];
    match place.take() {
        None => return Released::Nothing,
        Some(ready) => {
            let (reply, accepted) = ready.into_parts();
            match outbox.put(reply) {
                Ok(()) => {
                    shift(places);
                    return Released::Put(Number::new(put));
                }
                Err(PutFault::Full(reply)) => {
                    restore(place, reply, accepted);
                    return Released::Full;
                }
                Err(PutFault::Gone(reply)) => {
                    restore(place, reply, accepted);
                    return Released::Gone;
                }
            }
        }
    }
}
