//! The state of the server, and what each message asks of it.
//!
//! `sessions` finds what a message asks for: `requests` by the phase and method of a request,
//! `notifications` by those of a notification. `phase` has the phases and what changes them,
//! `items` what can be asked for, `labels` the labels of requests. `server_state` carries items out
//! over the sources.

pub(crate) mod items;
pub(crate) mod labels;
pub(crate) mod notifications;
pub(crate) mod phase;
pub(crate) mod requests;
pub(crate) mod server_state;
pub(crate) mod sessions;
