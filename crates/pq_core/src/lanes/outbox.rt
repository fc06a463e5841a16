//! Where the replies to a client go.
ghost use Rattle.std.specs.Prelude.{◌≡◌, ◌++◌, ◌∷◌, List, [], true, false, length, OnOk, OnErr, IfOk, IfErr};
ghost use Rattle.pq_core.specs.Replies.{ReplyView};
ghost use Rattle.pq_core.specs.Truth.{IsTrueReply};
ghost use Rattle.pq_core.specs.Outboxes.{handed_back, IsFull, IsGone, TakesNext};

use crate::values::fault::Memory;
use crate::values::reply::Reply;
use crate::values::stamp::Stamp;
use pq_rules::Rules;

/// Why a reply did not enter an outbox. The reply comes back.
#[derive(Drop)]
pub enum PutFault<K, V, M> {
    /// The outbox is full.
    Full(Reply<K, V, M>),
    /// The end that takes the replies is gone.
    Gone(Reply<K, V, M>),
}

/// Where the replies to a client go, in order.
pub trait Outbox<R: Rules, M: Stamp> {
    /// The replies that entered it, in order.
    ghost puts: { Self → List (ReplyView R.Key R.Value M) };

    /// Those of them that its owner took out. It is empty where another end takes them.
    ghost takes: { Self → List (ReplyView R.Key R.Value M) };

    /// Whether the outbox was found full, as it knows itself.
    ghost was_full: { Self → Type 0 };

    /// Whether the end that takes the replies was found gone, as the outbox knows itself.
    ghost was_gone: { Self → Type 0 };

    /// Puts `reply` after those put before. Its number is their count, and its answer is right. A
    /// refusal leaves the replies as they were.
    fn put(
        &mut self,
        reply: Reply<R::Key, R::Value, M>,
    ) -> Result<(), PutFault<R::Key, R::Value, M>>
        // The number of the reply is the count of the replies put before.
        requires number { reply.number ≡ length (puts self.old) }
        // What is put is true (`IsTrueReply`): an answer is that of the key of its request over the
        // sources of its stamp, and the reply names the revision of the stamp.
        requires right { IsTrueReply R.Key.cmp R.machine M.point reply }
        // `put`, `refused`, `back`: A reply enters at the end, or comes back.
        ensures put { OnOk result (puts self.new ≡ puts self.old ++ reply ∷ []) }
        ensures refused { OnErr result (puts self.new ≡ puts self.old) }
        // The replies that were taken stay the same.
        ensures takes { takes self.new ≡ takes self.old }
        // `Full` is said only where the outbox is full.
        ensures full { IfErr result (λ fault. IsFull fault → was_full self.new) }
        // `Gone` is said only where the other end of the outbox is gone.
        ensures gone { IfErr result (λ fault. IsGone fault → was_gone self.new) }
        ensures back { IfErr result (λ fault. handed_back fault ≡ reply) };
}

/// An outbox out of which its owner takes replies.
pub trait Taking<R: Rules, M: Stamp>: Outbox<R, M> {
    /// Takes the first reply that was put and not taken. Returns whether there was one. After an
    /// allocation failure nothing has changed.
    fn take(&mut self) -> Result<bool, Memory>
        // The replies that were put stay the same.
        ensures puts { Self.puts self.new ≡ Self.puts self.old }
        // `TakesNext`: Where it returns `true`, the first reply put and not taken is taken.
        ensures taken { IfOk result (λ there. there ≡ true → TakesNext (Self.puts self.old) (Self.takes self.old) (Self.takes self.new)) }
        // Where it returns `false`, as many replies were taken as put, and nothing changes.
        ensures none { IfOk result (λ there. there ≡ false → (length (Self.puts self.old) ≡ length (Self.takes self.old)) × (self.new ≡ self.old)) }
        // After an allocation failure nothing changes.
        ensures refused { OnErr result (self.new ≡ self.old) };
}
