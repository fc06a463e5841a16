//! The table of memos of an incremental query engine. It keeps answers between edits and validates
//! them, so that a rule runs again only where a read of it changed.
//!
//! `look` is the red-green algorithm (the Salsa book): a memo is valid where no input as durable as
//! it changed, or where each of its reads is up to date and unchanged. `look` takes one search of
//! the table, and where durability does not decide a comparison of keys a read; it takes no memory.
//!
//! A frame is a key that is being brought up to date. One `step` takes it as far as it goes without
//! the answer of another key; `publish_round` publishes the ring of frames that wait for each
//! other. A caller keeps the frames, on one stack or on many, and starts and advances the rules.
//!
//! `Engine` is such a caller, on one thread: inputs, and the memos of what was demanded. A demand
//! keeps one stack. It starts each rule once at most, and only for a cause.
//!
//! Definitions: `specs/Sound` (memos, soundness), `specs/Kept` (the invariant), `specs/Look` and
//! `specs/Looks` (what `look` answers), `specs/Cause`, `specs/Table` and `specs/Writes` (what calls
//! write), `specs/Frames` and `specs/Steps`, `specs/Demand` and `specs/EngineView` (what a demand
//! answers and leaves).
//!
//! Folders, each over those before it:
//!
//! - `table`: what is kept of each key, and what is read of it.
//! - `writing`: marking a memo as verified, and publishing.
//! - `stepping`: frames, and one step of a frame.
//! - `marking`: the valid memos below a frame.
//! - `demand`: bringing a key up to date, and the engine.
//!
//! `laws` has the laws of the table.
#![tactic(auto)]

mod demand;
mod laws;
mod marking;
mod stepping;
mod table;
mod writing;

pub use demand::demanded::{Carried, Demanded};
pub use demand::engine::{Engine, engine_is_sound};
pub use laws::{kept_is_sound, look_is_right, turns_are_right};
pub use marking::trail::Trail;
pub use stepping::frame::{Frame, Stage, Step};
pub use stepping::stack::Stack;
pub use table::look::{Look, Why};
pub use table::member::Member;
pub use table::memos::Memos;
pub use table::unpublished::{Unpublished, UnpublishedRing};
