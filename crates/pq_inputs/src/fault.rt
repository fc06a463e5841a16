//! Errors of a change of the inputs.
pub use std::alloc::AllocError as Memory;
use thiserror::Error;

/// Why a change of a file was refused. A refusal leaves the inputs unchanged.
#[derive(Clone, Copy, Debug, PartialEq, Eq, Error)]
pub enum InputFault {
    /// The text has more than `MAX_TEXT` bytes.
    #[error("the text is too long")]
    TextTooLong,
    /// The file was never set, and `MAX_FILES` files were.
    #[error("too many files")]
    TooManyFiles,
    /// The revision is `LAST_REVISION`.
    #[error("the revisions are used up")]
    RevisionsUsedUp,
    /// An allocation failed.
    #[error("out of memory")]
    Memory,
}

/// A refused change: the error, and the text that was passed in.
#[derive(Debug, Drop)]
pub struct SetRefused {
    /// The error.
    pub fault: InputFault,
    /// The text that was passed in, or `None` where the file was to be absent.
    pub text: Option<String>,
}
