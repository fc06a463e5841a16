//! The reply to a request.
ghost use Rattle.std.specs.Prelude.{◌≡◌};
ghost use Rattle.pq_core.specs.Replies.{IsFair};
ghost use Rattle.pq_core.specs.declared.values.outcome.Outcome.TheVariants.{Plain};

use crate::values::ids::{ClientId, Number};
use crate::values::outcome::Outcome;
use crate::values::request::Request;
use pq_inputs::Revision;
use std::marker::Model;

/// The reply to a request: its client, its number, the request, and how it ended at which revision.
///
/// A cancelled reply names the revision at which the edit was seen, later than that of the start.
/// The type keeps this.
#[derive(Drop)]
pub struct Reply<K, V, M> {
    client: ClientId,
    number: Number,
    request: Request<K>,
    revision: Revision,
    outcome: Outcome<K, V, M>,
}

impl<K, V, M> Model for Reply<K, V, M> {
    ghost use Rattle.pq_core.specs.Replies.{ReplyView, IsFair};

    ghost Value = { ReplyView K V M };

    ghost view = { λ r. record { client = r.client; number = r.number; request = r.request; revision = r.revision; outcome = r.outcome } };

    ghost invariant = { λ r. IsFair r.revision r.outcome };
}

impl<K, V, M> Reply<K, V, M> {
    /// A reply of this outcome.
    pub fn new(
        client: ClientId,
        number: Number,
        request: Request<K>,
        revision: Revision,
        outcome: Outcome<K, V, M>,
    ) -> Self
        // `IsFair`: A cancelled outcome names the revision of the start and a later one at which
        // the edit was seen, which is the revision of the reply.
        requires { IsFair revision outcome }
        // The reply has the client, number, request, revision and outcome that were handed in.
        ensures { result ≡ record { client = client; number = number; request = request; revision = revision; outcome = outcome } }
    {
        Reply {
            client,
            number,
            request,
            revision,
            outcome,
        }
    }

    /// The reply with the request's fixed text, at the revision of its acceptance.
    pub fn plain(client: ClientId, number: Number, request: Request<K>, revision: Revision) -> Self
        // The reply has the client, number, request and revision that were handed in, and the
        // outcome `Plain`.
        ensures { result ≡ record { client = client; number = number; request = request; revision = revision; outcome = Plain } }
    {
        Reply {
            client,
            number,
            request,
            revision,
            outcome: Outcome::Plain,
        }
    }

    /// The client of the request.
    pub fn client(&self) -> ClientId
        // The client of the reply.
        ensures { result ≡ self.now.client }
    {
        self.client
    }

    /// The number of the request.
    pub fn number(&self) -> Number
        // The number of the reply.
        ensures { result ≡ self.now.number }
    {
        self.number
    }

    /// The request.
    pub fn request(&self) -> &Request<K>
        // The request of the reply.
        ensures { result.now ≡ self.now.request }
    {
        &self.request
    }

    /// The revision at which the request ended.
    pub fn revision(&self) -> Revision
        // The revision of the reply.
        ensures { result ≡ self.now.revision }
    {
        self.revision
    }

    /// How the request ended.
    pub fn outcome(&self) -> &Outcome<K, V, M>
        // The outcome of the reply.
        ensures { result.now ≡ self.now.outcome }
    {
        &self.outcome
    }
}
