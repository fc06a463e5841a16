//! Replies whose type keeps that they are right.
ghost use Rattle.std.specs.Prelude.{◌≡◌};
ghost use Rattle.pq_core.specs.Truth.{IsTrueReply};

use crate::line::Item;
use pq_core::{Reply, Stamp};
use pq_rules::Rules;
use std::marker::Model;

/// A reply whose answer, if it has one, is that of the key of its request at the sources of its
/// stamp. The type keeps this.
#[derive(Drop)]
pub struct RightReply<R: Rules, M: Stamp> {
    reply: Reply<R::Key, R::Value, M>,
}

impl<R: Rules, M: Stamp> Model for RightReply<R, M> {
    ghost use Rattle.pq_core.specs.Replies.{ReplyView};
    ghost use Rattle.pq_core.specs.Truth.{IsTrueReply};

    ghost Value = { ReplyView R.Key R.Value M };

    ghost view = { λ r. r.reply };

    ghost invariant = { λ r. IsTrueReply R.Key.cmp R.machine M.point r.reply };
}

impl<R: Rules, M: Stamp> Item for RightReply<R, M> {
    ghost use Rattle.std.specs.Prelude.{◌≡◌};

    ghost fits = { λ n reply. reply.number ≡ n };
}

impl<R: Rules, M: Stamp> RightReply<R, M> {
    /// `reply`, which is right.
    pub fn new(reply: Reply<R::Key, R::Value, M>) -> Self
        // The reply is true (`IsTrueReply`): an answer is that of the key of its request over the
        // sources of its stamp, and the reply names the revision of the stamp.
        requires { IsTrueReply R.Key.cmp R.machine M.point reply }
        // The reply is the one that was handed in.
        ensures { result ≡ reply }
    {
        RightReply { reply }
    }

    /// The reply.
    pub fn reply(&self) -> &Reply<R::Key, R::Value, M>
        // The reply that is kept.
        ensures same { result.now ≡ self.now }
        // A reply that was taken is true: its type keeps the condition of `put` through the
        // mailbox.
        ensures right { IsTrueReply R.Key.cmp R.machine M.point self.now }
    {
        &self.reply
    }

    /// The reply.
    pub fn into_reply(self) -> Reply<R::Key, R::Value, M>
        // The reply that is kept.
        ensures same { result ≡ self }
        // A reply that was taken is true: its type keeps the condition of `put` through the
        // mailbox.
        ensures right { IsTrueReply R.Key.cmp R.machine M.point self }
    {
        let RightReply { reply } = self;
        reply
    }
}
