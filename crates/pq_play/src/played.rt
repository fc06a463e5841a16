//! What playing a list of events gives.
use pq_core::{PlainStamp, Reply, Request};
use pq_inputs::Revision;
use std::marker::Model;

/// What playing a list of events gives: of each client, by its number, the requests that were
/// accepted from it and the replies that it has taken, in order; and the last revision.
#[derive(Drop)]
pub struct Played<K, V> {
    /// The requests that were accepted from each client.
    pub accepted: Vec<Vec<Request<K>>>,
    /// The replies that each client has taken.
    pub taken: Vec<Vec<Reply<K, V, PlainStamp>>>,
    /// The last revision.
    pub revision: Revision,
}

impl<K, V> Model for Played<K, V> {
    ghost use Rattle.std.specs.Prelude.{map};
    ghost use Rattle.pq_play.specs.Results.{PlayedView};

    ghost Value = { PlayedView K V };

    ghost view = { λ p. record { accepted = map (λ v. v.items) p.accepted.items; taken = map (λ v. v.items) p.taken.items; revision = p.revision } };
}
