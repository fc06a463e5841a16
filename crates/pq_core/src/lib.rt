//! The core of the server: clients, the runs of their requests, and the replies, in order.
//!
//! The core is a machine of calls. Clients post requests and edits; workers start runs and take
//! their steps; replies leave in the order of the requests of a client. No call waits. What a call
//! may answer, and what it changes, is a relation on the ledger (`specs/Moves`): the sources at each
//! revision, and of each client its requests, each in one place.
//!
//! A core is a store and a lane for each open client. The store knows all but the outboxes. A lane
//! has the outbox of a client, and the replies to it that are ready.
//!
//! Definitions: `specs/Ledger` (the world: clients, requests and their places), `specs/Moves` (one
//! relation for each call), `specs/Points` (a revision and its sources), `specs/RightReply` (when a
//! reply is right), `specs/Truth` (when it is so at its stamp), `specs/Outboxes`, `specs/Kept` (what
//! holds of each ledger that is reached), `specs/Works` (work that is out), `specs/Starts` (how often
//! a rule is started), `specs/Told` (the ledger of a store), `specs/Stores`, `specs/Accounts` (what a
//! store knows of a client), `specs/Lanes`, `specs/Cores`.
//!
//! Folders, each over those before it:
//!
//! - `values`: what calls take and answer.
//! - `runs`: one run, and its step.
//! - `store`: what a core knows of clients, requests and runs.
//! - `steps`: the calls of a store for one run.
//! - `calls`: the other calls of a store.
//! - `lanes`: the lanes, and the core.
//!
//! `laws` has what each move keeps.
#![tactic(auto)]

mod calls;
mod lanes;
mod laws;
mod runs;
mod steps;
mod store;
mod values;

pub use calls::turning::is_turn;
pub use lanes::cores::Core;
pub use lanes::lane::{Lane, lane_is_kept};
pub use lanes::list_outbox::ListOutbox;
pub use lanes::outbox::{Outbox, PutFault, Taking};
pub use laws::{
    closed_for_good, core_is_sound, moves_keep, runs_hold_their_keys, starts_are_counted,
    store_counts_starts, store_holds_keys, store_is_sound,
};
pub use pq_claims::RunId;
pub use runs::work::{Done, Work};
pub use store::store::Store;
pub use values::fault::{
    AcceptFault, AcceptRefused, EditFault, EditRefused, GiveFault, GiveRefused, LookFault, Memory,
    OpenFault, OpenRefused, WithdrawFault,
};
pub use values::ids::{ClientId, Number};
pub use values::label::Label;
pub use values::limits::{MAX_CLIENTS, TURN, WINDOW};
pub use values::moves::{Move, Released};
pub use values::outcome::Outcome;
pub use values::prepared::Prepared;
pub use values::ready::{Ready, ready_is_right};
pub use values::reply::Reply;
pub use values::request::{
    Body, Change, Request, Want, copy_change, copy_request, is_same_request,
};
pub use values::stamp::{PlainStamp, Stamp};
