//! Marking the valid memos below a frame, without frames of their own.
//!
//! The folder uses `table`, `writing` and `stepping`. Read in this order:
//!
//! - `trail`: where the walk is.
//! - `confirm`: its steps, and the whole walk.

pub(crate) mod confirm;
pub(crate) mod trail;
