//! An outbox that is a list of limited room.
ghost use Rattle.std.specs.Prelude.{◌≡◌, ◌≤◌, [], length, IfOk};

use crate::lanes::outbox::{Outbox, PutFault, Taking};
use crate::values::fault::Memory;
use crate::values::reply::Reply;
use crate::values::stamp::Stamp;
use pq_rules::Rules;
use std::alloc::Global;
use std::marker::Model;

/// An outbox that is a list, with room for a number of replies that were not taken. Its room is
/// allocated from the start, so it refuses a reply only where it is full.
#[derive(Drop)]
pub struct ListOutbox<K, V, M> {
    replies: Vec<Reply<K, V, M>>,
    taken: usize,
    room: usize,
}

impl<K, V, M> Model for ListOutbox<K, V, M> {
    ghost use Rattle.pq_core.specs.Outboxes.{Listed};
    ghost use Rattle.std.specs.Prelude.{length, vec_capacity};
    ghost use Rattle.pq_core.specs.aux.Rooms.{HasRoom};

    ghost Value = { Listed K V M };

    ghost view = { λ o. record { replies = o.replies.items; taken = o.taken; room = o.room } };

    ghost invariant = { λ o. HasRoom (length o.replies.items) o.taken o.room (vec_capacity o.replies) };
}

impl<K: Drop, V: Drop, M: Drop> ListOutbox<K, V, M> {
    /// An outbox without replies, with room for `room` replies that were not taken.
    pub fn new(alloc: Global, room: usize) -> Result<Self, Memory>
        // A new list outbox has no reply, and room for the number of replies that was handed in.
        ensures { IfOk result (λ o. o ≡ record { replies = []; taken = 0; room = room }) }
    {
        let mut replies = Vec::new(alloc);
        replies.reserve(room)?;
        Ok(ListOutbox {
            replies,
            taken: 0,
            room,
        })
    }

    /// The replies that were put, and the count of those that were taken.
    pub fn into_parts(self) -> (Vec<Reply<K, V, M>>, usize)
        // The replies that were put, and the count of those taken, which is at most their count.
        ensures { (result.0.items ≡ self.replies) × (result.1 ≡ self.taken) × (result.1 ≤ length result.0.items) }
    {
        let ListOutbox { replies, taken, .. } = self;
        (replies, taken)
    }
}

impl<R: Rules, M: Stamp> Outbox<R, M> for ListOutbox<R::Key, R::Value, M> {
    ghost use Rattle.std.specs.Prelude.{◌≡◌, ◌++◌, ◌∷◌, [], OnOk, OnErr, IfErr};
    ghost use Rattle.pq_core.specs.Outboxes.{handed_back, IsFull, IsGone, taken_front, HasNoRoom, HasLostEnd};

    ghost puts = { λ o. o.replies };

    ghost takes = { taken_front };

    ghost was_full = { HasNoRoom };

    ghost was_gone = { HasLostEnd };

    fn put(
        &mut self,
        reply: Reply<R::Key, R::Value, M>,
    ) -> Result<(), PutFault<R::Key, R::Value, M>>
        // `put`, `refused`, `back`: A reply enters at the end, or comes back.
        ensures put { OnOk result (self.new.replies ≡ self.old.replies ++ reply ∷ []) }
        ensures refused { OnErr result (self.new.replies ≡ self.old.replies) }
        // The replies that were taken stay the same.
        ensures takes { taken_front self.new ≡ taken_front self.old }
        // `Full` is said only where the outbox is full.
        ensures full { IfErr result (λ fault. IsFull fault → HasNoRoom self.new) }
        // A list outbox is never gone.
        ensures gone { IfErr result (λ fault. IsGone fault → HasLostEnd self.new) }
        ensures back { IfErr result (λ fault. handed_back fault ≡ reply) }
    {
        if self.replies.len() - self.taken >= self.room {
            return Err(PutFault::Full(reply));
        }
        self.replies.push_reserved(reply);
        Ok(())
    }
}

impl<R: Rules, M: Stamp> Taking<R, M> for ListOutbox<R::Key, R::Value, M> {
    fn take(&mut self) -> Result<bool, Memory> {
        if self.taken >= self.replies.len() {
            return Ok(false);
        }
        self.replies.reserve(self.room)?;
        self.taken += 1;
        Ok(true)
    }
}
