//! What is kept of a client while events are played.
ghost use Rattle.std.specs.Prelude.{◌≡◌, ◌<◌, true, false, IfOk, OnOk, length, Some};
ghost use Rattle.pq_core.specs.Outboxes.{taken_front};
ghost use Rattle.pq_play.specs.aux.Seats.{free_seat, with_request, with_left, seat_taken, SeatTakes, SeatLeaves, SetsSeat, TakesLeft, LeavesNone};

use pq_core::{ClientId, ListOutbox, Memory, PlainStamp, Reply, Request, Taking, copy_request};
use pq_rules::Rules;
use std::alloc::Global;
use std::marker::Model;

/// The requests that were accepted from a client, and the outbox that came back at its close.
#[derive(Drop)]
pub(crate) struct Seat<K, V> {
    pub(crate) accepted: Vec<Request<K>>,
    pub(crate) left: Option<ListOutbox<K, V, PlainStamp>>,
}

impl<K, V> Model for Seat<K, V> {
    ghost use Rattle.pq_play.specs.aux.Seats.{SeatView};

    ghost Value = { SeatView K V };

    ghost view = { λ s. record { accepted = s.accepted.items; left = s.left } };
}

impl<K: Drop, V: Drop> Seat<K, V> {
    /// The seat of a client that was just opened.
    pub(crate) fn new(alloc: Global) -> Self
        ensures { result ≡ free_seat }
    {
        Seat {
            accepted: Vec::new(alloc),
            left: None,
        }
    }

    /// Keeps a request that was accepted.
    pub(crate) fn keep(&mut self, request: Request<K>) -> Result<(), Memory>
        ensures { OnOk result (self.new ≡ with_request self.old request) }
    {
        self.accepted.push(request)?;
        Ok(())
    }

    /// Keeps the outbox that came back.
    pub(crate) fn leave(&mut self, outbox: ListOutbox<K, V, PlainStamp>)
        ensures { self.new ≡ with_left self.old outbox }
    {
        self.left = Some(outbox);
    }

    /// The requests, and the replies that were taken out of the outbox that is kept.
    pub(crate) fn into_lists(self, alloc: Global) -> (Vec<Request<K>>, Vec<Reply<K, V, PlainStamp>>)
        ensures { (result.0.items ≡ self.accepted) × (result.1.items ≡ seat_taken self) }
    {
        let Seat { accepted, left } = self;
        match left {
            Some(outbox) => (accepted, taken_of(outbox)),
            None => (accepted, Vec::new(alloc)),
        }
    }
}

/// Takes the next reply out of the outbox that is kept in `seat`. Returns whether there was one.
fn take_kept<R: Rules>(seat: &mut Seat<R::Key, R::Value>) -> Result<bool, Memory>
    ensures taken { IfOk result (λ there. there ≡ true → SeatTakes seat.old seat.new) }
    ensures none { IfOk result (λ there. there ≡ false → SeatLeaves seat.old seat.new) }
{
    match &mut seat.left {
        Some(outbox) => Taking::<R, PlainStamp>::take(outbox),
        None => Ok(false),
    }
}

/// The replies that were taken out of `outbox`.
fn taken_of<K: Drop, V: Drop>(outbox: ListOutbox<K, V, PlainStamp>) -> Vec<Reply<K, V, PlainStamp>>
    ensures { result.items ≡ taken_front outbox }
{
    let (mut replies, taken) = outbox.into_parts();
    replies.truncate(taken);
    replies
}

/// Keeps a copy of `request`, which was accepted from `client`.
pub(crate) fn keep_request<R: Rules>(
    alloc: Global,
    rules: &R,
    seats: &mut Vec<Seat<R::Key, R::Value>>,
    client: ClientId,
    request: &Request<R::Key>,
) -> Result<(), Memory>
    requires { client < length seats.old.items }
    ensures { OnOk result (SetsSeat seats.old.items seats.new.items client (λ seat. with_request seat request.now)) }
{
    let copy = copy_request(alloc, rules, request)?;
    seats[client.number() as usize].keep(copy)
}

/// Keeps the outbox that came back at the close of `client`.
pub(crate) fn keep_outbox<K: Drop, V: Drop>(
    seats: &mut Vec<Seat<K, V>>,
    client: ClientId,
    outbox: ListOutbox<K, V, PlainStamp>,
)
    requires { client < length seats.old.items }
    ensures { SetsSeat seats.old.items seats.new.items client (λ seat. with_left seat outbox) }
{
    seats[client.number() as usize].leave(outbox);
}

/// Takes the next reply out of the outbox that is kept of `client`. Returns whether there was one.
pub(crate) fn take_left<R: Rules>(
    seats: &mut Vec<Seat<R::Key, R::Value>>,
    client: ClientId,
) -> Result<bool, Memory>
    ensures taken { IfOk result (λ there. there ≡ true → TakesLeft seats.old.items seats.new.items client) }
    ensures none { IfOk result (λ there. there ≡ false → LeavesNone seats.old.items seats.new.items client) }
{
    let place = client.number() as usize;
    if place >= seats.len() {
        return Ok(false);
    }
    take_kept::<R>(&mut seats[place])
}
