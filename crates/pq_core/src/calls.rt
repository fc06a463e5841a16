//! The other calls of a store: clients, their requests and edits, and replies that leave.
//!
//! The folder uses `values`, `runs`, `store` and `steps`. Read in this order:
//!
//! - `opening`, `accepting`: clients, and their requests.
//! - `editing`: edits; `turning`: those that end every run.
//! - `withdrawing`: requests that a client withdraws.
//! - `collecting`: replies that leave the store, clients that close, and rest.

pub(crate) mod accepting;
pub(crate) mod collecting;
pub(crate) mod editing;
pub(crate) mod opening;
pub(crate) mod turning;
pub(crate) mod withdrawing;
