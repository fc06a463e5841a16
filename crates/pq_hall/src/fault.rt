//! Why a post was not carried into the store.
use pq_core::EditFault;
use thiserror::Error;

/// Why a post was not carried. After each of them the client is closed.
#[derive(Clone, Copy, Debug, PartialEq, Eq, Error)]
pub enum HallFault {
    /// The client was closed, or was never opened.
    #[error("the client was closed")]
    Closed,
    /// The inputs refused the edit, and not for want of memory.
    #[error("{0}")]
    Edit(EditFault),
    /// An allocation failed.
    #[error("out of memory")]
    Memory,
}
