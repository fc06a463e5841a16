//! Writes bytes in full, and frames.
//!
//! A long body is not copied to be framed: its frame takes two writes at least.
ghost use Rattle.std.specs.Prelude.{◌≡◌, ◌+◌, ◌<◌, ◌≤◌, ◌^◌, ℕ, List, length, take, MatchResult, OnOk, IfErr};
ghost use Rattle.std.specs.Io.{StartsWith};
ghost use Rattle.std.specs.Io.KnownBytes.{Appends};
ghost use Rattle.pq_frame.specs.Written.{written};
ghost use Rattle.pq_session.specs.Counts.{inner_of, failed_of};
ghost use Rattle.pq_session.specs.Script.{StopsWriting, FailsToWrite};

use crate::counted::Counted;
use crate::fault::ScriptFault;
use pq_frame::{frame, frame_header};
use std::alloc::Global;
use std::io::Write;

/// Writes all of `bytes`. The first call that fails is the last one: the error is `Write`, also for
/// a write that takes no bytes, and a prefix of `bytes` was written before it.
pub fn write_all<W: Write>(writer: &mut Counted<W>, bytes: &[u8]) -> Result<(), ScriptFault>
    // Fewer than 2^63 calls failed before.
    requires { failed_of writer.old < 2 ^ 63 }
    // All bytes are appended and no call failed; or the error is `Write`, one call failed, and a
    // prefix was appended.
    ensures { MatchResult result
        (λ _. Appends (W.contents (inner_of writer.old)) (W.contents (inner_of writer.new)) bytes.now × (failed_of writer.new ≡ failed_of writer.old))
        (λ e. (e ≡ ScriptFault.Write) × (failed_of writer.new ≡ failed_of writer.old + 1)
        × ((out : List ℕ) × StartsWith bytes.now out × Appends (W.contents (inner_of writer.old)) (W.contents (inner_of writer.new)) out)) }
{
    let mut rest = bytes;
    'bytes: while !rest.is_empty() {
        match writer.write(rest) {
            Ok(count) if count > 0 => rest = &rest[count..],
            _ => return Err(ScriptFault::Write),
        }
    }
    Ok(())
}

/// The number of bytes from which on a body is not copied to be framed.
const LONG: usize = 16_384;

/// Writes the frame of a long body: its header part, and then `body` as it is.
fn write_long<W: Write>(
    alloc: Global,
    writer: &mut Counted<W>,
    body: &[u8],
) -> Result<(), ScriptFault>
    requires { failed_of writer.old < 2 ^ 63 }
    ensures ok { OnOk result (Appends (W.contents (inner_of writer.old)) (W.contents (inner_of writer.new)) (written body.now)) }
    ensures err { IfErr result (λ e. (out : List ℕ)
        × StopsWriting (written body.now) out e
        × Appends (W.contents (inner_of writer.old)) (W.contents (inner_of writer.new)) out) }
    ensures counts { FailsToWrite result (failed_of writer.old) (failed_of writer.new) }
{
    let header = match frame_header(alloc, body.len()) {
        Ok(header) => header,
        Err(_) => return Err(ScriptFault::Memory),
    };
    match write_all(writer, header.as_bytes()) {
        Ok(()) => write_all(writer, body),
        Err(fault) => Err(fault),
    }
}

/// Writes the frame of a short body, in one piece.
fn write_short<W: Write>(
    alloc: Global,
    writer: &mut Counted<W>,
    body: &[u8],
) -> Result<(), ScriptFault>
    requires { failed_of writer.old < 2 ^ 63 }
    ensures ok { OnOk result (Appends (W.contents (inner_of writer.old)) (W.contents (inner_of writer.new)) (written body.now)) }
    ensures err { IfErr result (λ e. (out : List ℕ)
        × StopsWriting (written body.now) out e
        × Appends (W.contents (inner_of writer.old)) (W.contents (inner_of writer.new)) out) }
    ensures counts { FailsToWrite result (failed_of writer.old) (failed_of writer.new) }
{
    match frame(alloc, body) {
        Ok(bytes) => write_all(writer, &bytes),
        Err(_) => Err(ScriptFault::Memory),
    }
}

/// Writes the frame of `body` (LSP 3.17, "Base Protocol"). A body of 16,384 bytes or more is not
/// copied: its header part is written apart.
///
/// `Memory` is an allocation failure, before the first write. `Write` is a write that failed, or that
/// took no bytes. It is the last one, and a prefix of the frame was written before it.
pub fn write_frame<W: Write>(
    alloc: Global,
    writer: &mut Counted<W>,
    body: &[u8],
) -> Result<(), ScriptFault>
    // Fewer than 2^63 calls failed before.
    requires { failed_of writer.old < 2 ^ 63 }
    // `ok`, `err`, `counts`: The frame of the body is appended and no call failed; or the error is
    // `Memory`, and nothing was written; or it is `Write`, one call failed, and a prefix of the
    // frame was appended.
    ensures ok { OnOk result (Appends (W.contents (inner_of writer.old)) (W.contents (inner_of writer.new)) (written body.now)) }
    ensures err { IfErr result (λ e. (out : List ℕ)
        × StopsWriting (written body.now) out e
        × Appends (W.contents (inner_of writer.old)) (W.contents (inner_of writer.new)) out) }
    ensures counts { FailsToWrite result (failed_of writer.old) (failed_of writer.new) }
{
    if body.len() < LONG {
        write_short(alloc, writer, body)
    } else {
        write_long(alloc, writer, body)
    }
}

/// Writes the frame of `body`, as [`write_frame`] does, and flushes. A flush that fails is `Write`.
pub(crate) fn send_frame<W: Write>(
    alloc: Global,
    writer: &mut Counted<W>,
    body: &[u8],
) -> Result<(), ScriptFault>
    requires { failed_of writer.old < 2 ^ 63 }
    ensures ok { OnOk result (Appends (W.contents (inner_of writer.old)) (W.contents (inner_of writer.new)) (written body.now)) }
    ensures err { IfErr result (λ e. (out : List ℕ)
        × StopsWriting (written body.now) out e
        × Appends (W.contents (inner_of writer.old)) (W.contents (inner_of writer.new)) out) }
    ensures counts { FailsToWrite result (failed_of writer.old) (failed_of writer.new) }
{
    match write_frame(alloc, writer, body) {
        Ok(()) => {}
        Err(fault) => return Err(fault),
    }
    match writer.flush() {
        Ok(()) => Ok(()),
        Err(_) => Err(ScriptFault::Write),
    }
}
