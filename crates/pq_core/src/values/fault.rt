//! Why a call of a core is refused. What was handed in comes back, and nothing has changed.
use crate::values::request::{Change, Request};
use pq_inputs::InputFault;
pub use std::alloc::AllocError as Memory;
use thiserror::Error;

/// Why no client was opened.
#[derive(Clone, Copy, Debug, PartialEq, Eq, Error)]
pub enum OpenFault {
    /// `MAX_CLIENTS` clients are open, or their numbers are used up.
    #[error("too many clients are open")]
    TooManyClients,
    /// An allocation failed.
    #[error("out of memory")]
    Memory,
}

/// A client that was not opened.
#[derive(Drop)]
pub struct OpenRefused<O> {
    pub fault: OpenFault,
    pub outbox: O,
}

/// Why a request was not accepted.
#[derive(Clone, Copy, Debug, PartialEq, Eq, Error)]
pub enum AcceptFault {
    /// No client of this number was ever opened.
    #[error("no such client")]
    NoClient,
    /// The client was closed.
    #[error("the client was closed")]
    Closed,
    /// `WINDOW` requests of the client are accepted and not yet put, or its numbers are used up.
    #[error("too many requests of the client are owed a reply")]
    WindowFull,
    /// An allocation failed.
    #[error("out of memory")]
    Memory,
}

/// A request that was not accepted.
#[derive(Drop)]
pub struct AcceptRefused<K> {
    pub fault: AcceptFault,
    pub request: Request<K>,
}

/// Why an edit was not accepted.
#[derive(Clone, Copy, Debug, PartialEq, Eq, Error)]
pub enum EditFault {
    /// No client of this number was ever opened.
    #[error("no such client")]
    NoClient,
    /// The client was closed.
    #[error("the client was closed")]
    Closed,
    /// A change with a range has no text before it, or that text has no such range.
    #[error("the range is bad")]
    BadRange,
    /// The inputs refused the change, or an allocation failed while its text was made.
    #[error("the edit was refused: {0}")]
    Input(InputFault),
}

/// An edit that was not accepted.
#[derive(Drop)]
pub struct EditRefused {
    pub fault: EditFault,
    pub change: Change,
}

/// Why no request was withdrawn.
#[derive(Clone, Copy, Debug, PartialEq, Eq, Error)]
pub enum WithdrawFault {
    /// No client of this number was ever opened.
    #[error("no such client")]
    NoClient,
    /// The client was closed.
    #[error("the client was closed")]
    Closed,
}

/// Why a run made no step.
#[derive(Clone, Copy, Debug, PartialEq, Eq, Error)]
pub enum LookFault {
    /// No run has this number, or it is over.
    #[error("no such run")]
    NoRun,
    /// An allocation failed.
    #[error("out of memory")]
    Memory,
}

/// Why a result was not taken.
#[derive(Clone, Copy, Debug, PartialEq, Eq, Error)]
pub enum GiveFault {
    /// The run is over or has no work out, or the result is that of other work.
    #[error("the result is not that of the run's work")]
    NotThisRun,
    /// An allocation failed.
    #[error("out of memory")]
    Memory,
}

/// A result that was not taken.
#[derive(Drop)]
pub struct GiveRefused<D> {
    pub fault: GiveFault,
    pub done: D,
}
