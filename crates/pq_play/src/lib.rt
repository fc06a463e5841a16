//! A core under a list of events, and the headline of the server.
//!
//! `play` carries a list of events out on a fresh core: clients are opened and closed, post requests
//! and edits, and take replies; runs start, take steps and are given the results of their work. Its
//! contract says that the events lead, one step each, from the beginning to a world whose accepted
//! requests and taken replies are those that it answers, and that the headline holds after each.
//!
//! Definitions: `specs/World` (the ledger, and what the clients have taken), `specs/Headline` (each
//! reply that is taken is the right one, in order), `specs/Steps` (one relation for each event, and
//! where a list of them leads), `specs/Results` (the lists). Modules: `event`, `played`, `carry`
//! (one event), `seat` and `dones` (what is kept), `answered` (allocation failures), `run`,
//! `laws`.
#![tactic(auto)]

mod answered;
mod carry;
mod dones;
mod event;
mod laws;
mod played;
mod run;
mod seat;

pub use event::Event;
pub use laws::closed_along;
pub use played::Played;
pub use run::play;
