//! Events of a core.
use pq_core::{Change, ClientId, Label, Request, RunId};

/// A call of a core, a step of a run, or a take.
#[derive(Drop)]
pub enum Event<K> {
    /// A client is opened.
    Open,
    /// The client posts the request.
    Accept(ClientId, Request<K>),
    /// The client makes the change.
    Edit(ClientId, Change),
    /// The client withdraws its requests with the label.
    Withdraw(ClientId, Label),
    /// A request that waits is started.
    Start,
    /// The run takes a step. Work that it hands out is carried out, and its result is kept.
    Step(RunId),
    /// The result of the work that is out of the run is given to it.
    Give(RunId),
    /// The run is starved.
    Starve(RunId),
    /// The next reply to the client enters its outbox.
    Release(ClientId),
    /// The client takes the next reply out of its outbox.
    Take(ClientId),
    /// The client is closed.
    Close(ClientId),
}
