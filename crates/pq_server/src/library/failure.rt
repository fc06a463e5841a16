//! Why a folder or a file was not taken, with its line on standard error.
use crate::library::fault::LibraryFault;
use pq_inputs::{MAX_FILES, MAX_TEXT, MOST_FILES};
use std::alloc::{AllocError, AllocFailed};
use std::io;
use std::io::ErrorKind;
use thiserror::Error;

/// Why a folder or a file was not taken. Its text is the reason in the line on standard error.
#[derive(Debug, Drop, Error)]
pub(crate) enum Failure {
    /// The system's reason.
    #[error("{0}")]
    System(io::Error),
    /// An entry of the folder has a name that is not UTF-8.
    #[error("a name in this folder is not UTF-8")]
    NameNotUtf8,
    /// The text of the file is not UTF-8.
    #[error("the text is not UTF-8")]
    TextNotUtf8,
    /// The text of the file has more than `MAX_TEXT` bytes.
    #[error("the text has more than {most} bytes", most = MAX_TEXT)]
    TextTooLong,
    /// The file does not open: a pipe, or what hangs.
    #[error("the file does not open")]
    Hangs,
    /// A change is of a document that is not open.
    #[error("a document that is not open was changed")]
    NotOpen,
    /// A document has other text than the editor takes it to have.
    #[error("the ranges of a change do not fit the text; the document is taken as closed")]
    BadRanges,
    /// A walk met one of its limits.
    #[error("not all files below the folders are found: there are too many, they lie too deep, or the walk takes too long")]
    WalkCut,
    /// Documents reach more than `MOST_FILES` files.
    #[error("more than {most} files are open or imported", most = MOST_FILES)]
    TooManyNames,
    /// Below the folder are more than `MAX_FILES` files.
    #[error("there are more than {most} files whose names end in .proto", most = MAX_FILES)]
    TooManyFiles,
}

impl From<io::Error> for Failure {
    /// The system's reason.
    fn from(error: io::Error) -> Failure {
        Failure::System(error)
    }
}

impl From<AllocError> for Failure {
    /// An allocation failure, as the system's.
    fn from(error: AllocError) -> Failure {
        Failure::System(io::Error::from(error))
    }
}

impl<T: Drop> From<AllocFailed<T>> for Failure {
    /// A value that was not stored for want of memory is dropped.
    fn from(error: AllocFailed<T>) -> Failure {
        Failure::from(AllocError::from(error))
    }
}

impl Failure {
    /// The failure of an entry that was not listed. The listing gives a name that is not UTF-8 as an
    /// error of its own, without the system's number.
    pub(crate) fn of_entry(error: io::Error) -> Failure {
        if error.kind() == ErrorKind::InvalidFilename && error.raw_os_error().is_none() {
            Failure::NameNotUtf8
        } else {
            Failure::System(error)
        }
    }

    /// Whether an allocation failed.
    pub(crate) fn is_memory(&self) -> bool {
        match self {
            Failure::System(error) => error.kind() == ErrorKind::OutOfMemory,
            _ => false,
        }
    }

    /// The fault of a library that ends by this failure.
    pub(crate) fn fault(self) -> LibraryFault {
        match self {
            Failure::System(error) => LibraryFault::from(error),
            _ => LibraryFault::Unreadable,
        }
    }
}

/// Writes the line of a failure at `path` to standard error: `pq_server: PATH: REASON`. A failed
/// write is ignored.
///
/// An allocation failure has no line here: the line of the whole program says it.
pub(crate) fn say(rt: &impl Eprint, path: &str, failure: &Failure) {
    if failure.is_memory() {
        return;
    }
    let shown = match path.strip_suffix('/') {
        Some(folder) if !folder.is_empty() => folder,
        _ => path,
    };
    let _ = eprintln!(rt; "pq_server: {shown}: {failure}");
}
