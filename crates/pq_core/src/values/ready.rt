//! A reply on its way from the store to the lane of its client.
ghost use Rattle.std.specs.Prelude.{◌≡◌, ◌+◌, ◌<◌, ◌^◌};
ghost use Rattle.pq_core.specs.Truth.{IsTrueReply};
ghost use Rattle.pq_core.specs.Lanes.{ReadyKept};

use crate::values::ids::{ClientId, Number};
use crate::values::outcome::Outcome;
use crate::values::reply::Reply;
use crate::values::request::Request;
use crate::values::stamp::Stamp;
use pq_inputs::Revision;
use pq_rules::Rules;
use std::marker::Model;

/// A reply that was collected from the store, and the revision at the acceptance of its request.
///
/// Its type keeps that the reply is right at its stamp, and that its number is not the last one.
#[derive(Drop)]
pub struct Ready<R: Rules, M: Stamp> {
    reply: Reply<R::Key, R::Value, M>,
    accepted: Revision,
}

impl<R: Rules, M: Stamp> Model for Ready<R, M> {
    ghost use Rattle.pq_core.specs.Lanes.{ReadyView, ReadyKept};

    ghost Value = { ReadyView R.Key R.Value M };

    ghost view = { λ r. record { reply = r.reply; accepted = r.accepted } };

    ghost invariant = { λ r. ReadyKept R.Key.cmp R.machine M.point (record { reply = r.reply; accepted = r.accepted }) };
}

impl<R: Rules, M: Stamp> Ready<R, M> {
    /// `reply`, to a request that was accepted at the revision `accepted`.
    pub(crate) fn new(reply: Reply<R::Key, R::Value, M>, accepted: Revision) -> Self
        requires right { IsTrueReply R.Key.cmp R.machine M.point reply }
        requires below { reply.number + 1 < 2 ^ 64 }
        ensures { result ≡ record { reply = reply; accepted = accepted } }
    {
        Ready { reply, accepted }
    }

    /// The client of the request.
    pub fn client(&self) -> ClientId
        // The client of the reply.
        ensures { result ≡ self.now.reply.client }
    {
        self.reply.client()
    }

    /// The number of the request.
    pub fn number(&self) -> Number
        // The number of the reply.
        ensures { result ≡ self.now.reply.number }
    {
        self.reply.number()
    }

    /// The request.
    pub fn request(&self) -> &Request<R::Key>
        // The request of the reply.
        ensures { result.now ≡ self.now.reply.request }
    {
        self.reply.request()
    }

    /// The revision at which the request was accepted.
    pub fn accepted(&self) -> Revision
        // The revision at the acceptance of the request.
        ensures { result ≡ self.now.accepted }
    {
        self.accepted
    }

    /// The revision at which the request ended.
    pub fn revision(&self) -> Revision
        // The revision of the reply.
        ensures { result ≡ self.now.reply.revision }
    {
        self.reply.revision()
    }

    /// How the request ended.
    pub fn outcome(&self) -> &Outcome<R::Key, R::Value, M>
        // The outcome of the reply.
        ensures { result.now ≡ self.now.reply.outcome }
    {
        self.reply.outcome()
    }

    /// The reply, and the revision at which its request was accepted.
    pub(crate) fn into_parts(self) -> (Reply<R::Key, R::Value, M>, Revision)
        ensures reply { result.0 ≡ self.reply }
        ensures accepted { result.1 ≡ self.accepted }
        ensures kept { ReadyKept R.Key.cmp R.machine M.point self }
    {
        let Ready { reply, accepted } = self;
        (reply, accepted)
    }
}

/// The reply of each `Ready` is right at its stamp, and its number is not the last one.
pub fn ready_is_right<R: Rules, M: Stamp>(ready: &Ready<R, M>)
    // A reply on its way from a store to a lane is right at its stamp.
    ensures { ReadyKept R.Key.cmp R.machine M.point ready.now }
{
    let _reply = &ready.reply;
}
