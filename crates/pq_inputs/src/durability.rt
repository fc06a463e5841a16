//! Durabilities: how rarely files are expected to change.

/// How rarely a file is expected to change. (The Salsa book, "Durability".)
#[derive(Clone, Copy, Debug, PartialEq, Eq, PartialOrd, Ord)]
pub enum Durability {
    /// A file that is being edited.
    Low,
    /// A file that changes from time to time.
    Medium,
    /// A file that rarely changes, such as one of a library.
    High,
}
