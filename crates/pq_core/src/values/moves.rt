//! What calls of a core answer.
use crate::values::ids::Number;
use pq_claims::RunId;

/// What a step of a run comes to. `W` is the work that it may hand out.
#[derive(Drop)]
pub enum Move<W> {
    /// A rule is to be started or to go on. The run waits until its result is given.
    Carry(W),
    /// The run waits for this run: for itself where its work is out, else for another run that holds
    /// the key that it needs.
    Blocked(RunId),
    /// The run went on.
    Stepped,
    /// The request is ready with its answer, and the run is over.
    Answered,
    /// An edit was accepted since the run started, or its client was closed. The run is over.
    Stopped,
}

/// What a release comes to.
#[derive(Clone, Copy, Debug, PartialEq, Eq)]
pub enum Released {
    /// The reply of this number entered the outbox.
    Put(Number),
    /// It was ready, and the outbox was full.
    Full,
    /// It was ready, and the end that takes from the outbox is gone.
    Gone,
    /// It was not ready, or the client is not open.
    Nothing,
}
