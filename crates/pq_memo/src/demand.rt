//! Bringing a key up to date on one thread.
//!
//! The folder uses all others, and the laws of the table. Read in this order:
//!
//! - `demanded`: what a demand answers.
//! - `demand`: the loop over one stack of frames.
//! - `engine`: inputs and a table of memos.

pub(crate) mod demand;
pub(crate) mod demanded;
pub(crate) mod engine;
