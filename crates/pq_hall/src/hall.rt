//! The hall: the store behind one lock, each lane behind its own, and the vector of marks.
ghost use Rattle.std.specs.Prelude.{◌≡◌, IfSome};

use crate::board::{Board, NewBoard};
use crate::mark::{BoardName, Mark};
use crate::one_value::OneValue;
use crate::seats::{Acknowledgement, Seat, Sent, free_seats, has_seat, send_in};
use crate::state::{Client, Collected, State};
use pq_core::{Memory, Ready, Store, WINDOW};
use pq_inputs::{Inputs, Revision};
use pq_rules::Rules;
use std::alloc::Global;
use std::sync::{Condvar, Mutex, Wait};

/// A hall of at most `MAX_CLIENTS` clients and any number of workers. Threads share it by reference.
#[derive(Drop)]
pub struct Hall<R: Rules, J: BoardName, H: Wait + Drop> {
    pub(crate) alloc: Global,
    pub(crate) rules: R,
    pub(crate) board: Board<J>,
    pub(crate) state: Mutex<State<R, J>>,
    pub(crate) seats: Vec<Mutex<Option<Seat<R, J, H>>>>,
    /// What workers wait at for work.
    pub(crate) work_came: Condvar,
    /// What porters wait at for room in a window.
    pub(crate) room_came: Condvar,
}

impl<R: Rules + OneValue, J: BoardName, H: Wait + Copy + Drop> Hall<R, J, H> {
    /// A hall without clients, of `rules` over `inputs`. `board` is the vector of its marks, which `J` names.
    ///
    /// # Errors
    ///
    /// `Memory`. Then the inputs are dropped.
    pub fn new(
        rt: &H,
        alloc: Global,
        rules: R,
        board: NewBoard,
        inputs: Inputs,
    ) -> Result<Hall<R, J, H>, Memory>
        // The vector is the one that `J` names.
        requires { board ≡ J.vector }
    {
        let (board, mark) = board.named::<J>(rt, &inputs)?;
        let seats = free_seats(alloc)?;
        let store = Store::new(alloc, rules, inputs, mark);
        let state = State::new(alloc, store)?;
        Ok(Hall {
            alloc,
            rules,
            board,
            state: Mutex::new(state),
            seats,
            work_came: Condvar::new(),
            room_came: Condvar::new(),
        })
    }

    /// The mark of `revision`. `None` where it is past the last revision or before the one at the
    /// start.
    pub fn mark(&self, rt: &H, revision: Revision) -> Option<Mark<J>>
        // A mark that is answered is of the revision that was asked for.
        ensures { IfSome result (λ mark. mark.point.revision ≡ revision) }
    {
        let last = self.state.lock(rt).store.stamp().copy();
        self.board.mark(revision, &last)
    }

    /// Ends the workers: each returns from `work` at its next turn.
    pub fn shut(&self, rt: &H) {
        let mut state = self.state.lock(rt);
        state.is_shut = true;
        state.moved();
        self.work_came.notify_all();
        self.room_came.notify_all();
    }

    /// Closes `client`: its requests are dropped, no reply of it is put any more, and what was put
    /// can still be taken. It changes nothing where the client was closed before.
    pub fn close(&self, rt: &H, client: Client) {
        let seat = self.end_client(rt, client);
        if let Some(seat) = seat {
            let mut seat = seat;
            seat.close();
        }
    }

    /// Counts a move, after which a parked run may go on, and wakes all workers if one is parked:
    /// the worker that is woken alone could take a request in its place.
    pub(crate) fn wake_parked(&self, state: &mut State<R, J>) {
        state.moved();
        if state.has_parked() {
            self.work_came.notify_all();
        }
    }

    /// Ends `client` in the store and in its lane. Returns its seat.
    fn end_client(&self, rt: &H, client: Client) -> Option<Seat<R, J, H>> {
        let mut state = self.state.lock(rt);
        if !state.store.close_client(client.id()) {
            return None;
        }
        state.leave(client);
        self.wake_parked(&mut state);
        self.room_came.notify_all();
        self.take_seat(rt, client)
    }

    /// Takes the lane of `client` out of its seat.
    fn take_seat(&self, rt: &H, client: Client) -> Option<Seat<R, J, H>> {
        let mut seat = self.seats.get(client.seat)?.lock(rt);
        if !has_seat(&seat, client.id) {
            return None;
        }
        seat.take()
    }

    /// Delivers what is made to `client`, of which `first` was collected. Where no more was made,
    /// the store's lock is taken for the acknowledgement alone.
    pub(crate) fn deliver_all(&self, rt: &H, client: Client, first: Collected<R, J>) {
        let Collected { ready, more } = first;
        if ready.is_some() {
            self.deliver(rt, client, ready);
        }
        if more {
            self.deliver_rest(rt, client);
        }
    }

    /// Delivers what is made to each client.
    pub(crate) fn deliver_each(&self, rt: &H) {
        for seat in 0..self.seats.len() {
            if let Some((client, collected)) = self.collect_at(rt, seat) {
                self.deliver_all(rt, client, collected);
            }
        }
    }

    /// The client of the seat `seat`, if it has one, and what was collected for it under the lock of
    /// the store.
    fn collect_at(&self, rt: &H, seat: usize) -> Option<(Client, Collected<R, J>)> {
        let mut state = self.state.lock(rt);
        let client = state.client_at(seat)?;
        Some((client, state.collect(client)))
    }

    /// Delivers the replies to `client` that are made. A client has at most `WINDOW` of them, and
    /// those made first are collected first.
    fn deliver_rest(&self, rt: &H, client: Client) {
        for _ in 0..WINDOW {
            if !self.deliver_next(rt, client) {
                return;
            }
        }
    }

    /// Collects a reply to `client`, and delivers it. Returns whether more are made.
    fn deliver_next(&self, rt: &H, client: Client) -> bool {
        let Collected { ready, more } = self.collect(rt, client);
        self.deliver(rt, client, ready);
        more
    }

    /// Collects under the lock of the store.
    fn collect(&self, rt: &H, client: Client) -> Collected<R, J> {
        let mut state = self.state.lock(rt);
        state.collect(client)
    }

    /// Fills `ready` into the lane of `client`, if it is there, puts what has room, and acknowledges
    /// it. A client whose taking end is gone is closed.
    pub(crate) fn deliver(&self, rt: &H, client: Client, ready: Option<Ready<R, Mark<J>>>) {
        match self.send(rt, client, ready) {
            Sent::Nothing => {}
            Sent::Put(seen) => self.acknowledge(rt, seen),
            Sent::Gone => self.close(rt, client),
        }
    }

    /// Fills and releases under the lock of the lane.
    fn send(&self, rt: &H, client: Client, ready: Option<Ready<R, Mark<J>>>) -> Sent {
        let Some(lock) = self.seats.get(client.seat) else {
            return Sent::Nothing;
        };
        let mut seat = lock.lock(rt);
        send_in(&mut seat, client.id, ready)
    }

    /// Tells the store what was put. Porters that wait for room are woken when the lock is free.
    fn acknowledge(&self, rt: &H, seen: Acknowledgement) {
        self.tell(rt, seen);
        self.room_came.notify_all();
    }

    /// Tells the store what was put.
    fn tell(&self, rt: &H, seen: Acknowledgement) {
        let mut state = self.state.lock(rt);
        seen.tell(&mut state.store);
    }
}
