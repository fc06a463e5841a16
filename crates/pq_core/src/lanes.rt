//! The core: a store, and a lane for each open client.
//!
//! The folder uses all others. Read in this order:
//!
//! - `outbox`: where the replies to a client go; `list_outbox`: an outbox that is a list.
//! - `lane`: the replies to a client, in the order of its requests.
//! - `cores`: the core.
//! - `passing`: replies that go from the store to the lanes.
//! - `serving`: the calls of a core that end with its store.
//! - `releasing`: replies that leave a core, clients that close, and rest.

pub(crate) mod cores;
pub(crate) mod lane;
pub(crate) mod list_outbox;
pub(crate) mod outbox;
pub(crate) mod passing;
pub(crate) mod releasing;
pub(crate) mod serving;
