//! Inputs of an incremental computation: the texts of files, by name, and the revisions at which
//! they changed.
//! (The Salsa book, "The red-green algorithm", "Durability".)
//!
//! - A *revision* is the number of a state of the inputs: 0 at first, and one more after each
//!   accepted change.
//! - A *durability* says how rarely a file is expected to change. `last_changed(d)` is the last
//!   revision at which a file changed whose durability was `d` or more. Whoever read files of such
//!   durabilities alone, at that revision or later, need not test them one by one.
//! - The *history* is the list of the sources at each revision. Contracts alone see it, and it
//!   takes no memory.
//!
//! `now` and `last_changed` take constant time. `get`, `durability` and `changed_at` search the
//! names of n files once: log n comparisons. `set` does so too, compares the text with the one
//! before, and copies the name where the file is new. `number_of` and `change_of` take one comparison
//! where they are given the number of the file.
//!
//! Modules: `inputs`, `files` (records by name), `record`, `last_changed`, `past` (the history),
//! `revision`, `durability`, `fault` (errors), `limits`, `laws`.
#![tactic(auto)]

mod durability;
mod fault;
mod files;
mod inputs;
mod last_changed;
mod laws;
mod limits;
mod past;
mod record;
mod revision;

pub use durability::Durability;
pub use fault::{InputFault, Memory, SetRefused};
pub use inputs::{Change, Inputs};
pub use laws::one_last_change;
pub use limits::{LAST_REVISION, MAX_FILES, MAX_TEXT, MOST_FILES};
pub use revision::Revision;
