//! Claims: which run computes which key, and which run waits for which.
//!
//! A run claims a key before it brings the key up to date, and releases it afterwards. A key has
//! one holder at most. A run that claims a key of another run waits for it, until that key is
//! released or the run claims again. Waits form no ring: a claim that would close one is answered
//! with the keys of the ring, and its caller publishes them.
//!
//! Runs and keys are found in search trees, in logarithmic time. A claim of a free key takes a
//! constant number of searches, and so does a release: it looks at no wait. A claim of a key that
//! is held takes a constant number for each run on the way of waits, and copies the keys of a ring.
//! `release_all` takes two for each key of the run.
//!
//! Definitions: `specs/Claims`. Modules: `run_id`, `claim` (what a claim comes to), `claims` (the
//! calls), `claiming` (a claim of a free key, and of a held one), `search` (whether waits lead from
//! a run to another), `ring` (the keys of a ring), `held` (what is kept of a run), `runs` and
//! `holders` (the search trees), `laws`.
#![tactic(auto)]

mod claim;
mod claiming;
mod claims;
mod held;
mod holders;
mod laws;
mod ring;
mod run_id;
mod runs;
mod search;

pub use claim::Claim;
pub use claims::Claims;
pub use laws::{claims_are_sound, waits_end};
pub use pq_rules::Memory;
pub use run_id::RunId;
