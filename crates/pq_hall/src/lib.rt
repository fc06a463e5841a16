//! The hall of the server: many clients and workers over one store, on threads.
//!
//! A hall has the store behind one lock and the lane of each open client behind its own. Porters
//! carry posts into the store (`carry_one`), workers take the steps of runs and carry their work out
//! (`work`), and writers take replies (`take_one`; or many from their end, and then `refill`). What a
//! post and what a worker do to the store are functions without a handle, `post_step` and `run_step`:
//! each is one call of the store, answers as that call, and waits for nobody. `prepared_step` is
//! `post_step` of an edit whose text was made before, under no lock. `docs/ARCHITECTURE.md`, "Threads
//! and locks", says who takes which lock, and what is never done while it is held.
//!
//! A mark is an entry of one vector that only grows, which threads share without a lock. An entry is
//! a revision and, for contracts alone, the sources at it. The first entry is that of the inputs at
//! the start. An entry is pushed before each edit, as the stamp of the revision that the edit makes.
//! Two marks of one vector and one index name the same revision and the same sources (`agrees`). So
//! a worker that brings a result compares two indexes, and knows that the sources have not changed.
//!
//! The vector is named by a type parameter, and so are its marks (`BoardName`). A caller picks the name
//! where it makes the vector, so marks of two vectors have two types.
//!
//! Definitions: `specs/Marks` (what contracts see of a mark), `specs/Steps` (what a post and a step of
//! a run do to the store), `specs/Sending` (what a seat does with a reply), `specs/Carried` (what was
//! carried of an inbox).
//! Modules: `entry` (of the vector), `mark` (its name and its marks), `board` (the vector), `posting`
//! and `running` (what posts and workers do to the store), `fault`, `one_value` (the rule sets of
//! halls), `state` (what lies under the store's lock), `seats` (what lies under a lane's lock), `hall`,
//! `joining`, `carrying`, `preparing`, `working` and `taking` (its calls).
#![tactic(auto)]

mod board;
mod carrying;
mod entry;
mod fault;
mod hall;
mod joining;
mod mark;
mod one_value;
mod posting;
mod preparing;
mod running;
mod seats;
mod state;
mod taking;
mod working;

pub use board::{Board, NewBoard};
pub use fault::HallFault;
pub use hall::Hall;
pub use joining::ClientEnds;
pub use mark::{BoardName, Mark};
pub use one_value::{Braces, HallRules, Loose, OneValue, Strict};
pub use posting::{Moved, post_step, prepared_step};
pub use running::{Hand, Next, run_step};
pub use state::Client;
pub use std::alloc::AllocError as Memory;
pub use working::Gate;
