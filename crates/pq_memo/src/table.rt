//! The table of memos: what it keeps of each key, and what is read of it.
//!
//! The folder uses no other. Read in this order:
//!
//! - `hint`: where to look for a key first; `places`: a map from keys to places.
//! - `recorded`: a read of a memo; `entry`: what is kept of a key.
//! - `numbers`: the numbers of keys; `slots`: keys by number, each with its entry.
//! - `memos`: the table, and the state of a key. `state` has what that test answers, and `look`
//!   what `Memos::look` does.
//! - `member`, `unpublished`: what is handed in to be published, and what comes back.
//! - `usable`: the answer of a key, for callers that keep frames.

pub(crate) mod entry;
pub(crate) mod hint;
pub(crate) mod look;
pub(crate) mod member;
pub(crate) mod memos;
pub(crate) mod numbers;
pub(crate) mod places;
pub(crate) mod recorded;
pub(crate) mod slots;
pub(crate) mod state;
pub(crate) mod unpublished;
pub(crate) mod usable;
