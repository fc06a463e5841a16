//! An outbox whose taking end can go away.
ghost use Rattle.std.specs.Prelude.{◌≡◌, [], IfOk};

use pq_core::{ListOutbox, Memory, Outbox, PlainStamp, PutFault, Reply, Taking};
use pq_rules::{Rules, SumsKey, SumsValue};
use std::alloc::Global;

/// A list of limited room. Its taking end is gone after a number of puts.
#[derive(Drop)]
pub(super) struct Post {
    list: ListOutbox<SumsKey, SumsValue, PlainStamp>,
    left: usize,
}

impl Post {
    /// An outbox with room for `room` replies that were not taken, of which `left` can be put.
    pub(super) fn new(alloc: Global, room: usize, left: usize) -> Result<Post, Memory>
        ensures { IfOk result (λ post. post.list.replies ≡ []) }
    {
        let list = ListOutbox::new(alloc, room)?;
        Ok(Post { list, left })
    }

    /// The replies that were put, and the count of those that were taken.
    pub(super) fn into_parts(self) -> (Vec<Reply<SumsKey, SumsValue, PlainStamp>>, usize) {
        let Post { list, .. } = self;
        list.into_parts()
    }
}

impl<R: Rules<Key = SumsKey, Value = SumsValue>> Outbox<R, PlainStamp> for Post {
    ghost use Rattle.std.specs.Prelude.{◌≡◌, ◌++◌, ◌∷◌, [], OnOk, OnErr, IfErr};
    ghost use Rattle.pq_core.specs.Outboxes.{handed_back, IsFull, IsGone, taken_front, HasNoRoom};

    ghost puts = { λ post. post.list.replies };

    ghost takes = { λ post. taken_front post.list };

    ghost was_full = { λ post. HasNoRoom post.list };

    ghost was_gone = { λ post. post.left ≡ 0 };

    fn put(
        &mut self,
        reply: Reply<SumsKey, SumsValue, PlainStamp>,
    ) -> Result<(), PutFault<SumsKey, SumsValue, PlainStamp>>
        ensures put { OnOk result (self.new.list.replies ≡ self.old.list.replies ++ reply ∷ []) }
        ensures refused { OnErr result (self.new.list.replies ≡ self.old.list.replies) }
        ensures takes { taken_front self.new.list ≡ taken_front self.old.list }
        ensures full { IfErr result (λ fault. IsFull fault → HasNoRoom self.new.list) }
        ensures gone { IfErr result (λ fault. IsGone fault → self.new.left ≡ 0) }
        ensures back { IfErr result (λ fault. handed_back fault ≡ reply) }
    {
        if self.left == 0 {
            return Err(PutFault::Gone(reply));
        }
        Outbox::<R, PlainStamp>::put(&mut self.list, reply)?;
        self.left -= 1;
        Ok(())
    }
}

impl<R: Rules<Key = SumsKey, Value = SumsValue>> Taking<R, PlainStamp> for Post {
    fn take(&mut self) -> Result<bool, Memory> {
        Taking::<R, PlainStamp>::take(&mut self.list)
    }
}
