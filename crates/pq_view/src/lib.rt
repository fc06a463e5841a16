//! Which text each file has for one editor: that of the open document, else that on the disk.
//!
//! Files are found below root folders, in their order, as with the option `-I` of `protoc`. The
//! names of a file are what is left of its path below the roots. The sources are the texts by name:
//! of the first root below which there is a file of that name. A document that is the file of none
//! of its names is a source by its path. The definitions are in `specs/Views`.
//!
//! A change of a document, of the disk or of the roots gives the edits of the sources that follow
//! from it: `AreEdits` of `specs/Edits`. With R roots, N paths and K names of a path, a question
//! about a path takes at most K R look-ups of log N comparisons, and one about a name R. A change at
//! the path takes some 5 K R, and as many again for each document that is open at another path of
//! one of these names. New roots take a walk over all files.
//!
//! `View::owed` says which lists of diagnostics are owed to the editor: one to each open document.
//! `Looks` says which files to read again after a look at the disk: those of which the file system
//! tells anything new, and those that had changed too shortly before the last look. `shown_path` is
//! the path by which the editor knows a file, where roots are known by other paths than their own.
//!
//! `Tails` finds the root that a missing import shows: the folder below which the nearest file of
//! that name lies. `named_folders` reads which roots a file of the build tool names.
//!
//! Modules: `names` (names below roots), `sight` (the questions, also of a view after a change),
//! `touched` and `known` (the names that a change can touch), `edits` (the edits of names), `view`,
//! `owed`, `looks`, `shown`, `tails`, `reversed` (the keys of `tails`), `buf`, `laws`.
#![tactic(auto)]

mod buf;
mod edits;
mod known;
mod laws;
mod looks;
mod names;
mod owed;
mod reversed;
mod shown;
mod sight;
mod tails;
#[cfg(test)]
mod tests;
mod touched;
mod view;

pub use buf::{BufFile, named_folders};
pub use edits::Edit;
pub use laws::{names_lead_back, what_was_looked_at_is_enough};
pub use looks::{Looks, Stamp};
pub use owed::Owed;
pub use pq_names::{Memory, Text};
pub use shown::shown_path;
pub use tails::Tails;
pub use view::View;
