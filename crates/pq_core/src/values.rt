//! What calls of a core take and answer.
//!
//! The folder uses no other. Read in this order:
//!
//! - `ids`, `limits`: numbers of clients and requests, and how much a core takes.
//! - `label`, `request`: what clients ask for, and what they change.
//! - `prepared`: the text of a change, made before its edit.
//! - `stamp`: what names a revision.
//! - `outcome`, `reply`: how a request ends.
//! - `ready`: a reply on its way from the store to a lane.
//! - `fault`: why a call is refused; `moves`: what runs and releases come to.

pub(crate) mod fault;
pub(crate) mod ids;
pub(crate) mod label;
pub(crate) mod limits;
pub(crate) mod moves;
pub(crate) mod outcome;
pub(crate) mod prepared;
pub(crate) mod ready;
pub(crate) mod reply;
pub(crate) mod request;
pub(crate) mod stamp;
