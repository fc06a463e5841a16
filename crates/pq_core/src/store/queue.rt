//! The queue of the requests that wait: clients in turn, each client's own requests in their order.
//!
//! A turn is a client with the numbers of its requests that wait. `pop` takes the first number of the
//! first turn, and moves that turn behind all others (round robin). A client that comes to wait goes
//! behind all others too. So before the k-th request of a client that waits, at most k of each other
//! client are started.
//!
//! `pop` takes constant time, apart from turns without numbers: it drops those that come first, each
//! once. The other calls are linear in the turns, of which a client has at most one, or in the numbers
//! of one client. Only `reserve` allocates.
ghost use Rattle.std.specs.List.{remove};
ghost use Rattle.std.specs.Prelude.{◌≡◌, ◌+◌, ◌<◌, ◌==◌, ◌^◌, ℕ, List, ◌∷◌, ◌++◌, [], length, filter, drop, slice_get, not, eqb, Some, IfSome, IfNone, IfOk, OnOk, IsTrue};
ghost use Rattle.std.specs.VecDeque.{deque_len, deque_capacity};
ghost use Rattle.pq_core.specs.aux.Queue.{is_of_other, is_other_seat};
ghost use Rattle.pq_core.specs.aux.Turns.{Pops, Pushes, seats_in, seats_of, AreApart, IsTurnOf, IsSettledAt, HasRoomAt, FirstWaits};

use crate::values::fault::Memory;
use std::alloc::Global;
use std::collections::VecDeque;
use std::marker::Model;

/// A client and the numbers of its requests that wait, in their order.
#[derive(Drop)]
pub(crate) struct ClientTurn {
    client: u64,
    numbers: VecDeque<u64>,
}

/// The requests that wait, in turns of clients. `count` is how many there are. If the queue is ready
/// for a client, `place` is that of its turn.
#[derive(Drop)]
pub(crate) struct Queue {
    alloc: Global,
    turns: VecDeque<ClientTurn>,
    count: usize,
    ready: Option<u64>,
    place: usize,
}

impl Model for Queue {
    ghost use Rattle.pq_core.specs.aux.Turns.{QueueView, IsKept, seats_of};

    ghost Value = { QueueView };

    ghost view = { λ q. record { seats = seats_of q.turns.items; ready = q.ready } };

    ghost invariant = { λ q. IsKept q.turns.items q.count q.ready q.place };
}

impl ClientTurn {
    /// Makes room for one more number.
    fn reserve(&mut self) -> Result<(), Memory>
        ensures client { self.new.client ≡ self.old.client }
        ensures numbers { self.new.numbers.items ≡ self.old.numbers.items }
        ensures room { OnOk result (length self.new.numbers.items < deque_capacity self.new.numbers) }
    {
        self.numbers.reserve(1)?;
        Ok(())
    }

    /// Adds `number` behind the others.
    fn push(&mut self, number: u64)
        requires { length self.old.numbers.items < deque_capacity self.old.numbers }
        ensures client { self.new.client ≡ self.old.client }
        ensures numbers { self.new.numbers.items ≡ self.old.numbers.items ++ number ∷ [] }
    {
        self.numbers.push_back_reserved(number);
    }

    /// Takes out the first request.
    fn take(&mut self) -> (u64, u64)
        requires { 0 < length self.old.numbers.items }
        ensures client { self.new.client ≡ self.old.client }
        ensures seats { seats_in self.old ≡ result ∷ seats_in self.new }
    {
        match self.numbers.pop_front() {
            Some(number) => (self.client, number),
            None => unreachable!(),
        }
    }

    /// Drops the request `number`, if the turn is of `client`.
    fn leave_out(&mut self, client: u64, number: u64)
        ensures client { self.new.client ≡ self.old.client }
        ensures seats { seats_in self.new ≡ filter (λ seat. is_other_seat client number seat) (seats_in self.old) }
    {
        if self.client != client {
            return;
        }
        self.numbers.retain(
            |other: &u64| -> bool
                ensures { result ≡ not (eqb other.now number) }
            { *other != number },
        );
    }
}

/// The place of the turn of `client`.
fn place_of(turns: &VecDeque<ClientTurn>, client: u64) -> Option<usize>
    ensures here { IfSome result (λ place. IsTurnOf turns.now.items place client) }
    ensures none { IfNone result ((place : ℕ) → IsTurnOf turns.now.items place client → ⊥) }
{
    for place in 0..turns.len() {
        if turns[place].client == client {
            return Some(place);
        }
    }
    None
}

/// Moves the turn at `place` behind the others.
fn move_last(turns: &mut VecDeque<ClientTurn>, place: usize)
    requires { place < deque_len turns.old }
    ensures { (turn : ClientTurn) → slice_get turns.old.items place ≡ Some turn → turns.new.items ≡ remove turns.old.items place ++ turn ∷ [] }
{
    if let Some(turn) = turns.remove(place) {
        turns.push_back_reserved(turn);
    }
}

/// The place of the turn of `client`, which is at `place`. Without a number it goes behind the others.
fn settle(turns: &mut VecDeque<ClientTurn>, place: usize, client: u64) -> usize
    requires { IsTurnOf turns.old.items place client }
    ensures seats { seats_of turns.new.items ≡ seats_of turns.old.items }
    ensures apart { AreApart turns.old.items → AreApart turns.new.items }
    ensures here { IsSettledAt turns.new.items result client }
{
    if !turns[place].numbers.is_empty() {
        return place;
    }
    move_last(turns, place);
    turns.len() - 1
}

/// The place of the turn of `client`. A client without a request gets its turn behind the others.
fn turn_of(turns: &mut VecDeque<ClientTurn>, alloc: Global, client: u64) -> Result<usize, Memory>
    ensures seats { seats_of turns.new.items ≡ seats_of turns.old.items }
    ensures apart { AreApart turns.old.items → AreApart turns.new.items }
    ensures here { IfOk result (λ place. IsSettledAt turns.new.items place client) }
{
    match place_of(turns, client) {
        Some(place) => return Ok(settle(turns, place, client)),
        None => {
            turns.reserve(1)?;
            let place = turns.len();
            turns.push_back_reserved(ClientTurn {
                client,
                numbers: VecDeque::new(alloc),
            });
            return Ok(place);
        }
    }
}

/// Makes room for one more number in the turn of `client`, which is at `place`.
fn make_room(turns: &mut VecDeque<ClientTurn>, place: usize, client: u64) -> Result<(), Memory>
    requires { IsSettledAt turns.old.items place client }
    ensures seats { seats_of turns.new.items ≡ seats_of turns.old.items }
    ensures apart { AreApart turns.old.items → AreApart turns.new.items }
    ensures here { OnOk result (HasRoomAt turns.new.items place client) }
{
    turns[place].reserve()
}

/// Whether there is a first turn, and it has no number.
fn is_first_empty(turns: &VecDeque<ClientTurn>) -> bool
    ensures empty { IsTrue result → (first : ClientTurn) × (rest : List ClientTurn) × (turns.now.items ≡ first ∷ rest) × (first.numbers.items ≡ []) }
    ensures waits { (IsTrue result → ⊥) → FirstWaits turns.now.items }
{
    match turns.front() {
        Some(first) => first.numbers.is_empty(),
        None => false,
    }
}

/// Drops the turns without numbers that come first.
fn drop_empty(turns: &mut VecDeque<ClientTurn>)
    ensures seats { seats_of turns.new.items ≡ seats_of turns.old.items }
    ensures apart { AreApart turns.old.items → AreApart turns.new.items }
    ensures first { FirstWaits turns.new.items }
{
    'turns: while is_first_empty(turns) {
        drop_front(turns);
    }
}

/// Drops the first turn, if there is one.
fn drop_front(turns: &mut VecDeque<ClientTurn>)
    ensures items { turns.new.items ≡ drop 1 turns.old.items }
{
    let _first = turns.pop_front();
}

/// Takes out the first request of the first turn. What is left of that turn goes behind the others.
fn take_first(turns: &mut VecDeque<ClientTurn>) -> (u64, u64)
    requires some { 0 < deque_len turns.old }
    requires first { FirstWaits turns.old.items }
    requires apart { AreApart turns.old.items }
    ensures apart { AreApart turns.new.items }
    ensures pops { Pops result (seats_of turns.old.items) (seats_of turns.new.items) }
{
    let seat = turns[0].take();
    turns.rotate_left(1);
    seat
}

/// Drops the turns of `client`.
fn drop_turns(turns: &mut VecDeque<ClientTurn>, client: u64)
    ensures apart { AreApart turns.old.items → AreApart turns.new.items }
    ensures seats { seats_of turns.new.items ≡ filter (λ seat. is_of_other client seat) (seats_of turns.old.items) }
{
    turns.retain(
        |turn: &ClientTurn| -> bool
            ensures { result ≡ is_of_other client (turn.now.client, 0) }
        { turn.client != client },
    );
}

/// Drops the request `number` of `client`.
fn drop_number(turns: &mut VecDeque<ClientTurn>, client: u64, number: u64)
    ensures apart { AreApart turns.old.items → AreApart turns.new.items }
    ensures seats { seats_of turns.new.items ≡ filter (λ seat. is_other_seat client number seat) (seats_of turns.old.items) }
{
    for place in 0..turns.len() {
        turns[place].leave_out(client, number);
    }
}

/// The number of requests in `turns`.
fn count_of(turns: &VecDeque<ClientTurn>) -> usize
    requires { length (seats_of turns.now.items) < 2 ^ 64 }
    ensures { result ≡ length (seats_of turns.now.items) }
{
    let mut total = 0;
    for place in 0..turns.len() {
        total += turns[place].numbers.len();
    }
    total
}

impl Queue {
    /// A queue without requests.
    pub(crate) fn new(alloc: Global) -> Self
        ensures { result.seats ≡ [] }
    {
        Queue {
            alloc,
            turns: VecDeque::new(alloc),
            count: 0,
            ready: None,
            place: 0,
        }
    }

    /// The number of requests.
    pub(crate) fn len(&self) -> usize
        ensures { result ≡ length self.now.seats }
    {
        self.count
    }

    /// Whether no request waits.
    pub(crate) fn is_empty(&self) -> bool
        ensures { result ≡ (length self.now.seats == 0) }
    {
        self.count == 0
    }

    /// Makes room for one more request of `client`.
    pub(crate) fn reserve(&mut self, client: u64) -> Result<(), Memory>
        ensures seats { self.new.seats ≡ self.old.seats }
        ensures ready { OnOk result (self.new.ready ≡ Some client) }
        ensures count { OnOk result (length self.new.seats + 1 < 2 ^ 64) }
    {
        self.ready = None;
        if self.count == usize::MAX {
            return Err(Memory);
        }
        let place = turn_of(&mut self.turns, self.alloc, client)?;
        make_room(&mut self.turns, place, client)?;
        self.place = place;
        self.ready = Some(client);
        Ok(())
    }

    /// Adds the request `number` of `client` behind the others of `client`. There is room for it.
    pub(crate) fn push_reserved(&mut self, client: u64, number: u64)
        requires { self.old.ready ≡ Some client }
        ensures { Pushes client number self.old.seats self.new.seats }
    {
        self.ready = None;
        self.turns[self.place].push(number);
        self.count += 1;
    }

    /// Takes out the first request of the client whose turn it is. The others of that client go behind
    /// those of all other clients.
    pub(crate) fn pop(&mut self) -> Option<(u64, u64)>
        ensures some { IfSome result (λ seat. Pops seat self.old.seats self.new.seats) }
        ensures none { IfNone result ((self.old.seats ≡ []) × (self.new.seats ≡ [])) }
    {
        self.ready = None;
        drop_empty(&mut self.turns);
        if self.turns.is_empty() {
            return None;
        }
        self.count -= 1;
        Some(take_first(&mut self.turns))
    }

    /// Drops the requests of `client`.
    pub(crate) fn drop_client(&mut self, client: u64)
        ensures { self.new.seats ≡ filter (λ seat. is_of_other client seat) self.old.seats }
    {
        self.ready = None;
        drop_turns(&mut self.turns, client);
        self.count = count_of(&self.turns);
    }

    /// Drops the request `number` of `client`.
    pub(crate) fn drop_one(&mut self, client: u64, number: u64)
        ensures { self.new.seats ≡ filter (λ seat. is_other_seat client number seat) self.old.seats }
    {
        self.ready = None;
        drop_number(&mut self.turns, client, number);
        self.count = count_of(&self.turns);
    }
}
