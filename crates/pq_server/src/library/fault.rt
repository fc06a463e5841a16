//! Why a library was not taken.
ghost use Rattle.std.specs.Prelude.{◌≡◌};

use pq_inputs::InputFault;
use std::alloc::{AllocError, AllocFailed};
use std::io;
use std::io::ErrorKind;
use thiserror::Error;

/// Why a library was not taken.
#[derive(Clone, Copy, Debug, PartialEq, Eq, Error)]
pub enum LibraryFault {
    /// A folder or a file could not be read, a name or a text is not UTF-8, or a file was refused.
    #[error("the library could not be read")]
    Unreadable,
    /// An allocation failed.
    #[error("out of memory")]
    Memory,
}

impl From<AllocError> for LibraryFault {
    ghost use Rattle.pq_server.specs.declared.library.fault.LibraryFault.TheVariants.{Memory};

    ghost from_gives = { λ _ e. e ≡ Memory };

    /// An allocation failure is `Memory`.
    fn from(_error: AllocError) -> LibraryFault {
        LibraryFault::Memory
    }
}

impl<T: Drop> From<AllocFailed<T>> for LibraryFault {
    ghost use Rattle.pq_server.specs.declared.library.fault.LibraryFault.TheVariants.{Memory};

    ghost from_gives = { λ _ e. e ≡ Memory };

    /// A value that was not stored for want of memory is dropped: `Memory`.
    fn from(_error: AllocFailed<T>) -> LibraryFault {
        LibraryFault::Memory
    }
}

impl From<InputFault> for LibraryFault {
    ghost use Rattle.pq_server.specs.Library.{fault_of};

    ghost from_gives = { λ fault e. e ≡ fault_of fault };

    /// An allocation failure is `Memory`, a refusal is `Unreadable`.
    fn from(fault: InputFault) -> LibraryFault {
        match fault {
            InputFault::Memory => LibraryFault::Memory,
            _ => LibraryFault::Unreadable,
        }
    }
}

impl From<io::Error> for LibraryFault {
    ghost use Rattle.std.specs.IoError.{error_kind};
    ghost use Rattle.pq_server.specs.Library.{fault_of_kind};

    ghost from_gives = { λ error e. e ≡ fault_of_kind (error_kind error) };

    /// An error for want of memory is `Memory`, any other is `Unreadable`.
    fn from(error: io::Error) -> LibraryFault {
        match error.kind() {
            ErrorKind::OutOfMemory => LibraryFault::Memory,
            _ => LibraryFault::Unreadable,
        }
    }
}
