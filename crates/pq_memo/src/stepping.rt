//! Frames: keys that are being brought up to date, and one step of a frame.
//!
//! The folder uses `table` and `writing`. Read in this order:
//!
//! - `frame`: a frame, and its step.
//! - `restored`: a frame after an allocation failure.
//! - `hand`: reads of a rule that need no frame.
//! - `stack`: frames of which each waits for the key of the next.
//! - `round`: frames that wait for each other, whose keys are published as a ring.

pub(crate) mod frame;
pub(crate) mod hand;
pub(crate) mod restored;
pub(crate) mod round;
pub(crate) mod stack;
