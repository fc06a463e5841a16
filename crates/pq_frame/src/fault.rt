//! The errors of a stream of frames.
ghost use Rattle.std.specs.Prelude.{◌≡◌};
ghost use Rattle.pq_frame.specs.declared.fault.FrameFault.TheVariants.{Memory};

use std::alloc::AllocError;
use thiserror::Error;

/// The errors of `FrameReader::feed` (LSP 3.17, "Base Protocol", "Header Part").
///
/// All but `Memory` are errors of the stream. A reader that met one returns it for good. `Memory`
/// leaves the reader as it was.
#[derive(Clone, Copy, Debug, PartialEq, Eq, Error)]
pub enum FrameFault {
    /// No empty line ends the header part within its first 4,096 bytes.
    #[error("the header part has no end in its first 4096 bytes")]
    HeaderTooLong,
    /// The header part has no line that is named Content-Length.
    #[error("the header part has no Content-Length")]
    NoLength,
    /// More than one line is named Content-Length, or the value is empty or not all digits.
    /// A second line is this error also if one of the values is too large.
    #[error("the header part has no single Content-Length in digits")]
    BadLength,
    /// The only Content-Length is in digits and exceeds 16,777,216 bytes.
    #[error("the body is longer than 16777216 bytes")]
    TooLong,
    /// An allocation failed. The piece was not taken and can be fed again.
    #[error("out of memory")]
    Memory,
}

impl From<AllocError> for FrameFault {
    ghost from_gives = { λ _ e. e ≡ Memory };

    /// An allocation failure is `Memory`.
    fn from(_error: AllocError) -> FrameFault {
        FrameFault::Memory
    }
}
