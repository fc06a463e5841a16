//! The word for the outcome of a script: its status, or the name of its error.
use pq_frame::FrameFault;
use pq_inputs::InputFault;
use pq_session::ScriptFault;

/// The name of a frame error.
fn frame_word(fault: FrameFault) -> &'static str {
    match fault {
        FrameFault::HeaderTooLong => "HeaderTooLong",
        FrameFault::NoLength => "NoLength",
        FrameFault::BadLength => "BadLength",
        FrameFault::TooLong => "TooLong",
        FrameFault::Memory => "Frame(Memory)",
    }
}

/// The name of the error of a refused edit.
fn edit_word(fault: InputFault) -> &'static str {
    match fault {
        InputFault::TextTooLong => "TextTooLong",
        InputFault::TooManyFiles => "TooManyFiles",
        InputFault::RevisionsUsedUp => "RevisionsUsedUp",
        InputFault::Memory => "Edit(Memory)",
    }
}

/// The word for a status.
fn status_word(status: u8) -> &'static str {
    match status {
        0 => "0",
        1 => "1",
        3 => "3",
        _ => "another",
    }
}

/// The word for the outcome of a script.
pub(crate) fn word_of(outcome: Result<u8, ScriptFault>) -> &'static str {
    match outcome {
        Ok(status) => status_word(status),
        Err(ScriptFault::Frame(fault)) => frame_word(fault),
        Err(ScriptFault::Cut) => "Cut",
        Err(ScriptFault::Edit(fault)) => edit_word(fault),
        Err(ScriptFault::BadRange) => "BadRange",
        Err(ScriptFault::Read) => "Read",
        Err(ScriptFault::TooManyReads) => "TooManyReads",
        Err(ScriptFault::Write) => "Write",
        Err(ScriptFault::Memory) => "Memory",
    }
}
