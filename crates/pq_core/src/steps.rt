//! Calls of a store for one run, from its start to its end.
//!
//! The folder uses `values`, `runs` and `store`. Read in this order:
//!
//! - `starting`: the start of a run.
//! - `run_state`: what a run is at.
//! - `run_step`: a step of a run.
//! - `closing`: a ring of keys, in one run or in several.
//! - `run_end`: the one end of a run.
//! - `running`: the calls that are made of these.

pub(crate) mod closing;
pub(crate) mod run_end;
pub(crate) mod run_state;
pub(crate) mod run_step;
pub(crate) mod running;
pub(crate) mod starting;
