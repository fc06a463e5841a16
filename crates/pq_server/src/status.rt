//! The exit status of `pq_server script`, and its line of standard error.
//!
//! | Status | Cause |
//! |---|---|
//! | 0 | `exit` after `shutdown` |
//! | 1 | `exit` without it; the input ends between frames |
//! | 2 | a frame error; the input ends inside a frame |
//! | 3 | an edit was refused, or has a bad range, or its parameters were unreadable |
//! | 4 | a read or a write failed, or there were too many reads; the library was not read |
//! | 5 | out of memory outside a reply |
//! | 64 | the command line |
//!
//! `specs/Status` has this table for the outcomes of a script and for the faults of a library, with
//! the lines. [`run_script`] and `run_library_script` are proved to follow it.
ghost use Rattle.std.specs.Prelude.{◌≡◌, ◌+◌, ◌<◌, ◌^◌, ℕ, List, Result, Err, option_map};
ghost use Rattle.std.specs.Io.KnownBytes.{Appends, Consumes, IsAtEnd};
ghost use Rattle.pq_session.specs.Counts.{inner_of, failed_of, reads_of};
ghost use Rattle.pq_session.specs.Responses.{fresh};
ghost use Rattle.pq_session.specs.Script.{Scripts, IsMemoryAlone, FailsToRead, FailsToWrite};
ghost use Rattle.pq_session.specs.declared.fault.ScriptFault.{ScriptFault};
ghost use Rattle.pq_session.specs.declared.fault.ScriptFault.TheVariants.{Write};
ghost use Rattle.pq_server.specs.Status.{status_of, line_of, frame_line, edit_line, unread_status, unread_line, refused_status, refused_line, start_status, start_line, server_line};

use crate::library::LibraryFault;
use clap::error;
use pq_frame::FrameFault;
use pq_inputs::InputFault;
use pq_session::{Counted, ScriptFault, UNREADABLE_PARAMETERS, script, write_all};
use std::alloc::Global;
use std::io::{ErrorKind, Read, Write};

/// The status of a refused command line: `EX_USAGE` of BSD's sysexits.
pub(crate) const COMMAND_LINE: u8 = 64;

/// The status when memory ran out outside a reply.
pub(crate) const OUT_OF_MEMORY: u8 = 5;

/// The status when the library was not read, and when the port fails.
pub(crate) const START_FAILED: u8 = 4;

/// The status when a write failed.
const WRITE_FAILED: u8 = 4;

/// The status when an edit was refused, or has a bad range.
const EDIT_REFUSED: u8 = 3;

/// The exit status and the line of standard error if the words of the command line could not be
/// read: memory ran out, or one is not UTF-8.
pub(crate) fn unread(kind: ErrorKind) -> (u8, &'static str)
    ensures status { result.0 ≡ unread_status kind }
    ensures line { result.1.now ≡ unread_line kind }
{
    match kind {
        ErrorKind::OutOfMemory => (OUT_OF_MEMORY, "pq_server: out of memory\n"),
        _ => (COMMAND_LINE, "pq_server: the command line is not UTF-8\n"),
    }
}

/// The exit status if `clap` refuses the words of the command line by an error of this kind, and the
/// line of standard error: memory ran out, or `None` for the text of that error.
pub(crate) fn refused(kind: error::ErrorKind) -> (u8, Option<&'static str>)
    // `status`, `line`: The status and the line for words that are no command line are those of the
    // table: 5 and its line after an allocation failure, else 64 and the text of `clap`.
    ensures status { result.0 ≡ refused_status kind }
    ensures line { option_map (λ line. line.now) result.1 ≡ refused_line kind }
{
    match kind {
        error::ErrorKind::OutOfMemory => (OUT_OF_MEMORY, Some("pq_server: out of memory\n")),
        _ => (COMMAND_LINE, None),
    }
}

/// The exit status and the line of standard error if the library was not taken.
pub(crate) fn not_started(fault: LibraryFault) -> (u8, &'static str)
    ensures status { result.0 ≡ start_status fault }
    ensures line { result.1.now ≡ start_line fault }
{
    match fault {
        LibraryFault::Unreadable => (START_FAILED, "pq_server: start failed\n"),
        LibraryFault::Memory => (OUT_OF_MEMORY, "pq_server: out of memory\n"),
    }
}

/// The exit status and the line of standard error of a server whose port could not be announced.
pub(crate) fn unannounced() -> (u8, &'static str)
    ensures { (result.0 ≡ status_of (Err Write)) × (result.1.now ≡ line_of (Err Write)) }
{
    (WRITE_FAILED, "pq_server: write failed\n")
}

/// The exit status of a server, and its line of standard error: `start failed` for a port or a library
/// that failed.
pub(crate) fn served(status: u8) -> (u8, &'static str)
    ensures status { result.0 ≡ status }
    ensures line { result.1.now ≡ server_line status }
{
    match status {
        START_FAILED => (status, "pq_server: start failed\n"),
        OUT_OF_MEMORY => (status, "pq_server: out of memory\n"),
        _ => (status, ""),
    }
}

/// The line for a frame error.
fn frame_line(fault: FrameFault) -> &'static str
    ensures { result.now ≡ frame_line fault }
{
    match fault {
        FrameFault::HeaderTooLong => "pq_server: frame fault 1\n",
        FrameFault::NoLength => "pq_server: frame fault 2\n",
        FrameFault::BadLength => "pq_server: frame fault 3\n",
        FrameFault::TooLong => "pq_server: frame fault 4\n",
        FrameFault::Memory => "pq_server: out of memory\n",
    }
}

/// The line for a refused edit.
fn edit_line(fault: InputFault) -> &'static str
    ensures { result.now ≡ edit_line fault }
{
    match fault {
        InputFault::TextTooLong => "pq_server: edit refused 1\n",
        InputFault::TooManyFiles => "pq_server: edit refused 2\n",
        InputFault::RevisionsUsedUp => "pq_server: edit refused 3\n",
        InputFault::Memory => "pq_server: out of memory\n",
    }
}

/// The line of standard error after a script with this outcome, or an empty text.
pub(crate) fn line_of(outcome: Result<u8, ScriptFault>) -> &'static str
    ensures { result.now ≡ line_of outcome }
{
    match outcome {
        Ok(status) if status == UNREADABLE_PARAMETERS => "pq_server: edit refused 0\n",
        Ok(_) => "",
        Err(ScriptFault::Frame(fault)) => frame_line(fault),
        Err(ScriptFault::Cut) => "pq_server: input ends inside a frame\n",
        Err(ScriptFault::Edit(fault)) => edit_line(fault),
        Err(ScriptFault::BadRange) => "pq_server: bad range\n",
        Err(ScriptFault::Read) => "pq_server: read failed\n",
        Err(ScriptFault::TooManyReads) => "pq_server: read failed\n",
        Err(ScriptFault::Write) => "pq_server: write failed\n",
        Err(ScriptFault::Memory) => "pq_server: out of memory\n",
    }
}

/// The exit status after a script with this outcome.
pub(crate) fn status_of(outcome: Result<u8, ScriptFault>) -> u8
    ensures { result ≡ status_of outcome }
{
    match outcome {
        Ok(status) => status,
        Err(ScriptFault::Frame(FrameFault::Memory)) => OUT_OF_MEMORY,
        Err(ScriptFault::Frame(_)) => 2,
        Err(ScriptFault::Cut) => 2,
        Err(ScriptFault::Edit(InputFault::Memory)) => OUT_OF_MEMORY,
        Err(ScriptFault::Edit(_)) => EDIT_REFUSED,
        Err(ScriptFault::BadRange) => EDIT_REFUSED,
        Err(ScriptFault::Read) => 4,
        Err(ScriptFault::TooManyReads) => 4,
        Err(ScriptFault::Write) => 4,
        Err(ScriptFault::Memory) => OUT_OF_MEMORY,
    }
}

/// Writes `line`, up to the first call that fails.
pub(crate) fn write_line<E: Write>(errors: &mut Counted<E>, line: &[u8])
    requires { failed_of errors.old < 2 ^ 63 }
    ensures { failed_of errors.new ≡ failed_of errors.old → Appends (E.contents (inner_of errors.old)) (E.contents (inner_of errors.new)) line.now }
{
    match write_all(errors, line) {
        Ok(()) => return,
        Err(_) => {}
    }
}

/// Serves one client from `reader` to `writer`, writes the line of the outcome to `errors`, and
/// returns the exit status. A failed write of the line is ignored.
pub fn run_script<R: Read, W: Write, E: Write>(
    alloc: Global,
    reader: &mut Counted<R>,
    writer: &mut Counted<W>,
    errors: &mut Counted<E>,
) -> u8
    requires reads_left { reads_of reader.old < 2 ^ 63 }
    requires reader_left { failed_of reader.old < 2 ^ 63 }
    requires writer_left { failed_of writer.old < 2 ^ 63 }
    requires errors_left { failed_of errors.old < 2 ^ 63 }
    // The clauses `writes`, `read_failed`, `write_failed` and `memory_alone` of `script`, for one
    // outcome of which the result is the exit status. The line of that outcome was written to
    // standard error, unless a write of it failed.
    ensures serves { (bytes : List ℕ) × (out : List ℕ) × (outcome : Result ℕ ScriptFault)
        × Scripts fresh (IsAtEnd (R.remaining (inner_of reader.new))) (reads_of reader.new ≡ reads_of reader.old + 4294967296) bytes out outcome
        × Consumes (R.remaining (inner_of reader.old)) (R.remaining (inner_of reader.new)) bytes
        × Appends (W.contents (inner_of writer.old)) (W.contents (inner_of writer.new)) out
        × FailsToRead outcome (failed_of reader.old) (failed_of reader.new)
        × FailsToWrite outcome (failed_of writer.old) (failed_of writer.new)
        × IsMemoryAlone outcome
        × (result ≡ status_of outcome)
        × (failed_of errors.new ≡ failed_of errors.old → Appends (E.contents (inner_of errors.old)) (E.contents (inner_of errors.new)) (line_of outcome)) }
{
    let outcome = script(alloc, reader, writer);
    write_line(errors, line_of(outcome).as_bytes());
    status_of(outcome)
}
