//! What writes memos: marking one as verified, publishing an answer, and publishing a ring.
//!
//! The folder uses `table`. Read in this order:
//!
//! - `writes`: one memo.
//! - `ring`: the memos of all keys of a ring, written together.
//! - `placed`: a key of a ring, with its reads as the table keeps them.
//! - `compared`: the old answers of the keys of a ring, and the ring.

pub(crate) mod compared;
pub(crate) mod placed;
pub(crate) mod ring;
pub(crate) mod writes;
