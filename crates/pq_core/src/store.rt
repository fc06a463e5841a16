//! The store: what a core knows of clients, requests and runs. Its calls are in `steps` and
//! `calls`.
//!
//! The folder uses `values` and `runs`, and the answer `Owed` of `withdrawing`. Read in this order:
//!
//! - `store`: the store, and what holds of it.
//! - `rising`: a map from rising numbers.
//! - `queue`: the requests that wait, clients in turn.
//! - `account`: what is known of an open client.
//! - `in_accounts`: changes of the account of one client.

pub(crate) mod account;
pub(crate) mod in_accounts;
pub(crate) mod queue;
pub(crate) mod rising;
pub(crate) mod store;
