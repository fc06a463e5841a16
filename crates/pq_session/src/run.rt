//! The script: one client, served from a reader to a writer on one thread.
//!
//! It reads pieces of at most 16,384 bytes, splits them into frames, and answers the bodies of each
//! piece before it reads the next. It keeps the sources and at most one unfinished frame. The sources
//! at its start are none, or inputs that its caller has filled.
ghost use Rattle.std.specs.Prelude.{◌≡◌, ◌≢◌, ◌+◌, ◌<◌, ◌≤◌, ◌^◌, ◌++◌, ◌⊎◌, ◌∷◌, [], ℕ, List, Option, Some, None, length, take, IfOk, IfErr, OnOk, MatchResult};
ghost use Rattle.std.specs.Io.KnownBytes.{Appends, Consumes, IsAtEnd};
ghost use Rattle.pq_frame.specs.Frames.{Frames, Feeds, State, Reading, Failed};
ghost use Rattle.pq_session.specs.Counts.{inner_of, failed_of, reads_of};
ghost use Rattle.pq_session.specs.Responses.{started, fresh};
ghost use Rattle.pq_session.specs.Script.{Scripts, IsMemoryAlone, FailsToWrite, FailsToRead, max_reads};
ghost use Rattle.pq_session.specs.aux.ServerState.{state_of};
ghost use Rattle.pq_session.specs.aux.Steps.{Takes};

use crate::bodies::answer_bodies;
use crate::counted::Counted;
use crate::fault::ScriptFault;
use crate::state::server_state::ServerState;
use pq_frame::FrameReader;
use pq_inputs::Inputs;
use pq_proto::ProtoRules;
use std::alloc::Global;
use std::io::{Read, Write};

/// Answers the bodies that `piece` completes. Returns the status, if one of them ends the session.
fn take_piece<W: Write>(
    alloc: Global,
    frames: &mut FrameReader,
    server: &mut ServerState,
    writer: &mut Counted<W>,
    piece: &[u8],
) -> Result<Option<u8>, ScriptFault>
    requires { failed_of writer.old < 2 ^ 63 }
    ensures takes { (rest : List ℕ) → frames.old ≡ Reading rest → (out : List ℕ)
        × Takes (rest ++ piece.now) (state_of server.old) out result frames.new (state_of server.new)
        × Appends (W.contents (inner_of writer.old)) (W.contents (inner_of writer.new)) out }
    ensures counts { FailsToWrite result (failed_of writer.old) (failed_of writer.new) }
{
    let bodies = frames.feed(piece)?;
    if bodies.is_empty() {
        return Ok(None);
    }
    if let Some(status) = answer_bodies(alloc, server, writer, &bodies)? {
        return Ok(Some(status));
    }
    // An error after the bodies comes with the next call.
    frames.feed(&[])?;
    Ok(None)
}

/// The result where the input ends: 1 if it ends between two frames, and `Cut` inside a frame.
pub fn at_end(frames: &FrameReader) -> Result<u8, ScriptFault>
    // Of a reader that met no error: 1 exactly where it keeps no byte of an unfinished frame, and
    // else the error `Cut`.
    ensures { (rest : List ℕ) → frames.now ≡ Reading rest → MatchResult result
        (λ status. (status ≡ 1) × (rest ≡ []))
        (λ e. (e ≡ ScriptFault.Cut) × (rest ≢ [])) }
{
    if frames.at_rest() {
        Ok(1)
    } else {
        Err(ScriptFault::Cut)
    }
}

/// The largest number of reads of one script: 2^32.
pub const MAX_READS: u64 = 4_294_967_296;

/// Serves one client from the sources of `inputs` on, by these rules: reads frames to the end of the
/// input, and writes and flushes the response to each request before the next read (LSP 3.17, "Base
/// Protocol", "Server lifecycle").
///
/// Returns the status with which `exit` ended the session, or 1 if the input ends between two
/// frames. An edit of unreadable parameters ends the session with `UNREADABLE_PARAMETERS`. A query is
/// answered by the sources that the edits before it made of those of `inputs`. If an allocation fails
/// for it, its response says so.
///
/// `Frame`, `Edit` and `BadRange` are errors of the input, and `Cut` is an end inside a frame. They
/// are returned after the responses to all messages before. `Read` is a failed read, also an
/// interrupted one. `TooManyReads` comes after `MAX_READS` reads. `Write` is a write or a flush that
/// failed, or a write that took no bytes. `Memory` is an allocation failure outside of the answer to a
/// query. After `Write` and `Memory` a prefix of an output was written.
///
/// The end of the message that ended the session, and the byte that shows an error of the input, are
/// among the last 16,384 bytes that were read. `Read` and `Write` are answered if exactly one call
/// failed.
pub fn script_over<R: Read, W: Write>(
    alloc: Global,
    rules: ProtoRules,
    inputs: Inputs,
    reader: &mut Counted<R>,
    writer: &mut Counted<W>,
) -> Result<u8, ScriptFault>
    // `requires reads_left`, `requires reader_left`, `requires writer_left`: Fewer than 2^63 reads
    // were made before, and fewer than 2^63 calls failed.
    requires reads_left { reads_of reader.old < 2 ^ 63 }
    requires reader_left { failed_of reader.old < 2 ^ 63 }
    requires writer_left { failed_of writer.old < 2 ^ 63 }
    // The bytes that were written are what a session over the sources of `inputs` may respond to the
    // bytes that were read, and the bytes that were read show the result.
    ensures writes { (bytes : List ℕ) × (out : List ℕ)
        × Scripts (started rules.loose inputs) (IsAtEnd (R.remaining (inner_of reader.new)))
        (reads_of reader.new ≡ reads_of reader.old + max_reads) bytes out result
        × Consumes (R.remaining (inner_of reader.old)) (R.remaining (inner_of reader.new)) bytes
        × Appends (W.contents (inner_of writer.old)) (W.contents (inner_of writer.new)) out }
    // Exactly one read failed if the result is `Read`, and none otherwise.
    ensures read_failed { FailsToRead result (failed_of reader.old) (failed_of reader.new) }
    // Exactly one write or flush failed if the result is `Write`, and none otherwise.
    ensures write_failed { FailsToWrite result (failed_of writer.old) (failed_of writer.new) }
    // An allocation failure is `Memory`, never within `Frame` or `Edit`.
    ensures memory_alone { IsMemoryAlone result }
    // At most 4,294,967,296 reads are made.
    ensures bound { reads_of reader.new ≤ reads_of reader.old + max_reads }
{
    let mut buffer = [0u8; 16384];
    let mut frames = FrameReader::new(alloc);
    let mut server = ServerState::new(alloc, rules, inputs);
    'reads: for _turn in 0..MAX_READS {
        let count = match reader.read(&mut buffer) {
            Ok(count) => count,
            Err(_) => return Err(ScriptFault::Read),
        };
        if count == 0 {
            return at_end(&frames);
        }
        let ending = take_piece(alloc, &mut frames, &mut server, writer, &buffer[..count])?;
        if let Some(status) = ending {
            return Ok(status);
        }
    }
    Err(ScriptFault::TooManyReads)
}

/// Serves one client, as [`script_over`] does, without files at its start. Braces are not read: a text
/// with an error has no definitions.
pub fn script<R: Read, W: Write>(
    alloc: Global,
    reader: &mut Counted<R>,
    writer: &mut Counted<W>,
) -> Result<u8, ScriptFault>
    // `requires reads_left`, `requires reader_left`, `requires writer_left`: Fewer than 2^63 reads
    // were made before, and fewer than 2^63 calls failed.
    requires reads_left { reads_of reader.old < 2 ^ 63 }
    requires reader_left { failed_of reader.old < 2 ^ 63 }
    requires writer_left { failed_of writer.old < 2 ^ 63 }
    // The bytes that were written are what the session may respond to the bytes that were read,
    // and the bytes that were read show the result.
    ensures writes { (bytes : List ℕ) × (out : List ℕ)
        × Scripts fresh (IsAtEnd (R.remaining (inner_of reader.new)))
        (reads_of reader.new ≡ reads_of reader.old + max_reads) bytes out result
        × Consumes (R.remaining (inner_of reader.old)) (R.remaining (inner_of reader.new)) bytes
        × Appends (W.contents (inner_of writer.old)) (W.contents (inner_of writer.new)) out }
    // Exactly one read failed if the result is `Read`, and none otherwise.
    ensures read_failed { FailsToRead result (failed_of reader.old) (failed_of reader.new) }
    // Exactly one write or flush failed if the result is `Write`, and none otherwise.
    ensures write_failed { FailsToWrite result (failed_of writer.old) (failed_of writer.new) }
    // An allocation failure is `Memory`, never within `Frame` or `Edit`.
    ensures memory_alone { IsMemoryAlone result }
    // At most 4,294,967,296 reads are made.
    ensures bound { reads_of reader.new ≤ reads_of reader.old + max_reads }
{
    let inputs = Inputs::new(alloc)?;
    script_over(alloc, ProtoRules { loose: false }, inputs, reader, writer)
}
