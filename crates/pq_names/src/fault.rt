//! Errors of a table of names.
ghost use Rattle.std.specs.Prelude.{◌≡◌};
ghost use Rattle.pq_names.specs.declared.fault.NamesFault.TheVariants.{Memory as OutOfMemory};

pub use std::alloc::AllocError as Memory;
use std::alloc::AllocError;
use thiserror::Error;

/// Why a table of names refused a text. A refusal leaves the table unchanged.
#[derive(Clone, Copy, Debug, PartialEq, Eq, Error)]
pub enum NamesFault {
    /// The text is new, and the table has `MAX_NAMES` names.
    #[error("the table of names is full")]
    Full,
    /// The text is new, and an allocation failed.
    #[error("out of memory")]
    Memory,
}

impl From<AllocError> for NamesFault {
    ghost from_gives = { λ _ fault. fault ≡ OutOfMemory };

    fn from(_refused: AllocError) -> NamesFault {
        NamesFault::Memory
    }
}
