//! What lies under the store's lock: the store, and what the threads of a hall tell each other.
ghost use Rattle.std.specs.Prelude.{ℕ, ◌≡◌, ◌↔◌, ◌++◌, ◌∷◌, [], IsTrue, false};
ghost use Rattle.pq_core.specs.Lanes.{ReadyView};
ghost use Rattle.pq_core.specs.Stores.{Collects, IsMadeIn};
ghost use Rattle.pq_hall.specs.Marks.{MarkView};
ghost use Rattle.pq_hall.specs.declared.state.Parked.{Parked};

use crate::mark::{BoardName, Mark};
use crate::working::Turn;
use pq_core::{ClientId, MAX_CLIENTS, Memory, Ready, Store};
use pq_rules::Rules;
use std::alloc::Global;
use std::collections::VecDeque;

/// A client of a hall: its number, and the index of its seat.
#[derive(Clone, Copy, Debug, PartialEq, Eq)]
pub struct Client {
    pub(crate) id: u64,
    pub(crate) seat: usize,
}

impl Client {
    /// The number of the client.
    pub fn id(&self) -> ClientId
        // The number of the client.
        ensures { result ≡ self.now.id }
    {
        ClientId::new(self.id)
    }
}

/// A run of a client.
#[derive(Clone, Copy)]
pub(crate) struct Task {
    pub(crate) run: u64,
    pub(crate) client: Client,
}

/// A reply to a client that was collected, if one was made, and whether more are made.
#[derive(Drop)]
pub(crate) struct Collected<R: Rules, J: BoardName> {
    pub(crate) ready: Option<Ready<R, Mark<J>>>,
    pub(crate) more: bool,
}

/// A run that no worker has in hand, since another run held a key that it needs.
#[derive(Clone, Copy)]
struct Parked {
    task: Task,
    /// The count of moves at its last look.
    seen: u64,
}

/// The moves after which a parked run is looked at before a request is started.
const PATIENCE: u64 = 64;

/// The locked state.
#[derive(Drop)]
pub(crate) struct State<R: Rules, J: BoardName> {
    pub(crate) store: Store<R, Mark<J>>,
    /// The client of each seat.
    seats: Vec<Option<u64>>,
    parked: VecDeque<Parked>,
    /// What a porter has left to a worker.
    pub(crate) left: Option<Turn<R, J>>,
    /// How many workers wait for work.
    pub(crate) idle: u64,
    /// The count of moves so far: it tells a parked run that something has changed.
    pub(crate) moves: u64,
    pub(crate) is_shut: bool,
}

impl<R: Rules, J: BoardName> State<R, J> {
    /// The state at the start.
    pub(crate) fn new(alloc: Global, store: Store<R, Mark<J>>) -> Result<State<R, J>, Memory> {
        let mut seats = Vec::new(alloc);
        for _ in 0..MAX_CLIENTS {
            seats.push(None)?;
        }
        Ok(State {
            store,
            seats,
            parked: VecDeque::new(alloc),
            left: None,
            idle: 0,
            moves: 0,
            is_shut: false,
        })
    }

    /// Counts a move.
    pub(crate) fn moved(&mut self) {
        self.moves = self.moves.wrapping_add(1);
    }

    /// Gives a free seat to the client `id`, if there is one.
    pub(crate) fn seat(&mut self, id: u64) -> Option<Client> {
        for seat in 0..self.seats.len() {
            if self.seats[seat].is_none() {
                self.seats[seat] = Some(id);
                return Some(Client { id, seat });
            }
        }
        None
    }

    /// Frees the seat of `client`, if it has it.
    pub(crate) fn leave(&mut self, client: Client) {
        if let Some(seat) = self.seats.get_mut(client.seat) {
            if *seat == Some(client.id) {
                *seat = None;
            }
        }
    }

    /// The client that has the seat `seat`, if one has.
    pub(crate) fn client_at(&self, seat: usize) -> Option<Client> {
        match self.seats.get(seat) {
            Some(Some(id)) => Some(Client { id: *id, seat }),
            _ => None,
        }
    }

    /// The client `id` and its seat. A client that was closed has the number of no seat.
    fn client_of(&self, id: u64) -> Client {
        for seat in 0..self.seats.len() {
            if self.seats[seat] == Some(id) {
                return Client { id, seat };
            }
        }
        Client {
            id,
            seat: self.seats.len(),
        }
    }

    /// Collects a reply to `client`, if one is made.
    pub(crate) fn collect(&mut self, client: Client) -> Collected<R, J>
        // `collects`, `more`: A reply to the client is collected, and `more` says whether one more
        // is made.
        ensures collects { Collects client.id result.ready self.old.store self.new.store }
        ensures more { IsTrue result.more ↔ ((n : ℕ) × (ready : ReadyView R.Key R.Value (MarkView)) × IsMadeIn self.new.store client.id n ready) }
    {
        let ready = self.store.collect(client.id());
        let more = self.store.has_made(client.id());
        Collected { ready, more }
    }

    /// A run to go on with: one that was parked long ago, one for a request that waits, or else one
    /// that was parked, if something has moved since its last look.
    pub(crate) fn pick(&mut self) -> Option<Task> {
        if self.is_due(PATIENCE) {
            return self.unpark();
        }
        if let Some(task) = self.start() {
            return Some(task);
        }
        if self.is_due(1) {
            return self.unpark();
        }
        None
    }

    /// Starts a run for a request that waits.
    pub(crate) fn start(&mut self) -> Option<Task> {
        let run = self.store.start()?;
        let (id, _) = self.store.request_of(run)?;
        let client = self.client_of(id.number());
        let run = run.number();
        Some(Task { run, client })
    }

    /// Whether at least `moves` moves were made since the run parked longest was looked at.
    fn is_due(&self, moves: u64) -> bool {
        match self.parked.front() {
            Some(parked) => self.moves.wrapping_sub(parked.seen) >= moves,
            None => false,
        }
    }

    /// The run parked longest.
    fn unpark(&mut self) -> Option<Task> {
        let parked = self.parked.pop_front()?;
        Some(parked.task)
    }

    /// Parks `task`. Returns whether there was memory for it.
    pub(crate) fn park(&mut self, task: Task) -> bool
        ensures parked { let parked : Parked = record { task = task; seen = self.old.moves } in
            IsTrue result → self.new.parked.items ≡ self.old.parked.items ++ parked ∷ [] }
        ensures others { result ≡ false → self.new.parked.items ≡ self.old.parked.items }
    {
        let seen = self.moves;
        self.parked.push_back(Parked { task, seen }).is_ok()
    }

    /// Whether a run is parked.
    pub(crate) fn has_parked(&self) -> bool {
        !self.parked.is_empty()
    }
}
