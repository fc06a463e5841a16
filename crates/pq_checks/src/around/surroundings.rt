//! What the checks of a file know of the files that it imports, each with its state.
ghost use Rattle.std.specs.Prelude.{◌≡◌};
ghost use Rattle.pq_checks.specs.Surroundings.{state_of};

use pq_links::FileItems;
use pq_names::Text;

/// What there is of an imported file.
#[derive(Clone, Copy, Debug, PartialEq, Eq)]
pub enum FileState {
    /// It has no text.
    Missing,
    /// Its text has a syntax error.
    Unreadable,
    /// Its text has a tree, or is of another version of the language and its braces are read.
    Readable,
}

/// A file that is imported, with its state.
#[derive(Drop)]
pub struct Imported {
    /// The name of the file.
    pub file: Text,
    /// What there is of it.
    pub state: FileState,
}

/// The state of a file that is `items` without spans.
pub(crate) fn state_of(items: &FileItems) -> FileState
    ensures state { result ≡ state_of items.now }
{
    match items {
        FileItems::Absent => FileState::Missing,
        FileItems::Fault(_) => FileState::Unreadable,
        FileItems::Other(_) | FileItems::Tree(_) => FileState::Readable,
    }
}
