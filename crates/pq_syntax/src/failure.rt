//! How a function of the parser fails.

ghost use Rattle.pq_syntax.specs.declared.failure.Failure.TheVariants.{Memory};
ghost use Rattle.std.specs.Prelude.{◌≡◌};

use std::alloc::{AllocError, AllocFailed};

/// An allocation failure, or a syntax error.
#[derive(Clone, Copy)]
pub(crate) enum Failure {
    /// An allocation failed.
    Memory,
    /// A syntax error at which this number of tokens remains.
    Fault(usize),
}

impl From<AllocError> for Failure {
    ghost from_gives = { λ _ e. e ≡ Memory };

    /// The failure of an allocation.
    fn from(_error: AllocError) -> Failure {
        Failure::Memory
    }
}

impl<T: Drop> From<AllocFailed<T>> for Failure {
    ghost from_gives = { λ _ e. e ≡ Memory };

    /// The failure of an allocation, without the value that it hands back.
    fn from(_error: AllocFailed<T>) -> Failure {
        Failure::Memory
    }
}
