//! One run: what it brings up to date, and the step that it takes next.
//!
//! The folder uses `values`. Read in this order:
//!
//! - `job`: a rule that is carried out without the core; `work`: a job with a stamp.
//! - `frames`: the frames of a run, and its step.
//! - `confirming`: memos that are marked before a frame walks.
//! - `entering`: keys that are claimed and released.
//! - `run`: the frames, with the request that they are for.

pub(crate) mod confirming;
pub(crate) mod entering;
pub(crate) mod frames;
pub(crate) mod job;
pub(crate) mod run;
pub(crate) mod work;
