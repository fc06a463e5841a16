//! Clients that join.
ghost use Rattle.std.specs.Prelude.{◌≡◌, [], IfOk};

use crate::hall::Hall;
use crate::mark::{BoardName, Mark};
use crate::one_value::OneValue;
use crate::seats::Seat;
use crate::state::Client;
use pq_core::OpenFault;
use pq_mail::{LaneEnd, PorterEnd, PostEnd, TakeEnd, inbox, outbox};
use pq_rules::Rules;
use std::sync::Wait;

/// What a client of a hall holds: its number, and the ends of its mailboxes.
#[derive(Drop)]
pub struct ClientEnds<R: Rules, J: BoardName> {
    /// The client.
    pub client: Client,
    /// The end that posts.
    pub post: PostEnd<R>,
    /// The end whose posts `carry_one` carries.
    pub porter: PorterEnd<R::Key>,
    /// The end from which `take_one` takes.
    pub take: TakeEnd<R, Mark<J>>,
}

impl<R: Rules + OneValue, J: BoardName, H: Wait + Copy + Drop> Hall<R, J, H> {
    /// Opens a client, with empty mailboxes.
    ///
    /// # Errors
    ///
    /// `TooManyClients` where `MAX_CLIENTS` clients are open or their numbers are used up, and
    /// `Memory`. No client is open more than before.
    pub fn join_client(&self, rt: &H) -> Result<ClientEnds<R, J>, OpenFault>
        // `posts`, `carried`, `taken`: Nothing was posted, carried or taken yet.
        ensures posts { IfOk result (λ ends. ends.post.items ≡ []) }
        ensures carried { IfOk result (λ ends. ends.porter.items ≡ []) }
        ensures taken { IfOk result (λ ends. ends.take.items ≡ []) }
        // The end that posts and the end that carries are of one inbox.
        ensures same { IfOk result (λ ends. (ends.post.table ≡ ends.porter.table) × (ends.post.key ≡ ends.porter.key)) }
    {
        let Ok((post, porter)) = inbox(self.alloc, self.rules) else {
            return Err(OpenFault::Memory);
        };
        let Ok((lane, take)) = outbox(self.alloc, self.rules, *rt) else {
            return Err(OpenFault::Memory);
        };
        let client = self.open(rt)?;
        if !self.sit(rt, client, lane) {
            self.close(rt, client);
            return Err(OpenFault::Memory);
        }
        Ok(ClientEnds {
            client,
            post,
            porter,
            take,
        })
    }

    /// Opens a client in the store, and gives it a seat.
    fn open(&self, rt: &H) -> Result<Client, OpenFault> {
        let mut state = self.state.lock(rt);
        let id = state.store.open_client()?;
        match state.seat(id.number()) {
            Some(client) => Ok(client),
            None => {
                state.store.close_client(id);
                Err(OpenFault::TooManyClients)
            }
        }
    }

    /// Puts the lane of `client` into its seat. Returns whether there was memory for it.
    fn sit(&self, rt: &H, client: Client, outbox: LaneEnd<R, Mark<J>, H>) -> bool
        requires { outbox.items ≡ [] }
    {
        let Ok(made) = Seat::new(self.alloc, client.id, outbox) else {
            return false;
        };
        match self.seats.get(client.seat) {
            Some(lock) => {
                let mut seat = lock.lock(rt);
                *seat = Some(made);
                true
            }
            None => false,
        }
    }
}
