//! The errors of a script.
ghost use Rattle.std.specs.Prelude.{◌≡◌};

use pq_frame::FrameFault;
use pq_inputs::InputFault;
use std::alloc::AllocError;
use thiserror::Error;

/// The errors of a script: it stopped before the end of its input, and before `exit`.
#[derive(Clone, Copy, Debug, PartialEq, Eq, Error)]
pub enum ScriptFault {
    /// The input has this error after its last whole frame. All messages before it were answered.
    #[error("{0}")]
    Frame(FrameFault),
    /// The input ends inside a frame. All messages before it were answered.
    #[error("the input ends inside a frame")]
    Cut,
    /// An edit was refused with this error. All messages before it were answered.
    #[error("{0}")]
    Edit(InputFault),
    /// A change with a range has no text before it, or that text has no such range. All messages
    /// before the edit were answered.
    #[error("the range is bad")]
    BadRange,
    /// A read failed. All messages that had been read were answered.
    #[error("a read failed")]
    Read,
    /// The script made its last read. All messages that had been read were answered.
    #[error("too many reads")]
    TooManyReads,
    /// A write or a flush failed. A prefix of an output was written.
    #[error("a write failed")]
    Write,
    /// An allocation failed, and not for the response to a query. A prefix of an output was written.
    #[error("out of memory")]
    Memory,
}

impl From<FrameFault> for ScriptFault {
    ghost use Rattle.pq_session.specs.Faults.{fault_of};

    ghost from_gives = { λ fault e. e ≡ fault_of fault };

    /// An allocation failure is `Memory`, any other error of the frames is `Frame`.
    fn from(fault: FrameFault) -> ScriptFault {
        match fault {
            FrameFault::Memory => ScriptFault::Memory,
            _ => ScriptFault::Frame(fault),
        }
    }
}

impl From<AllocError> for ScriptFault {
    ghost use Rattle.pq_session.specs.declared.fault.ScriptFault.TheVariants.{Memory};

    ghost from_gives = { λ _ e. e ≡ Memory };

    /// An allocation failure is `Memory`.
    fn from(_error: AllocError) -> ScriptFault {
        ScriptFault::Memory
    }
}
