//! Writes a frame.
ghost use Rattle.std.specs.Prelude.{◌≡◌, ◌++◌, length, string_bytes, IfOk, OnOk, OnErr};
ghost use Rattle.pq_frame.specs.Written.{written, header_text};

use crate::Memory;
use std::alloc::Global;

/// The header part of a body of `len` bytes: `Content-Length: N` and an empty line. With the body
/// after it, it is the frame of that body: see `frame`. The only error is `Memory`, after an
/// allocation failure.
pub fn frame_header(alloc: Global, len: usize) -> Result<String, Memory>
    // The header part of a body of a given length in bytes.
    ensures { IfOk result (λ text. string_bytes text ≡ header_text len) }
{
    format!(in alloc; "Content-Length: {len}\r\n\r\n")
}

/// The frame of `body`: `Content-Length: N`, an empty line and `body`, where N is its length in
/// bytes (LSP 3.17, "Base Protocol").
///
/// A `FrameReader` reads a body of at most 16,777,216 bytes back from its frame (`written_reads`).
/// It answers `TooLong` to the frame of a longer one. The only error is `Memory`, after an
/// allocation failure.
#[tactic(auto, unfolding(crate::specs::Written::written))]
pub fn frame(alloc: Global, body: &[u8]) -> Result<Vec<u8>, Memory>
    // The frame of a body, which is its header part and the body.
    ensures { IfOk result (λ bytes. bytes.items ≡ written body.now) }
{
    let header = frame_header(alloc, body.len())?;
    let mut bytes = Vec::with_capacity(alloc, header.len().saturating_add(body.len()))?;
    bytes.extend_from_slice(header.as_bytes())?;
    bytes.extend_from_slice(body)?;
    Ok(bytes)
}

/// Appends the frame of `body` to `bytes`. The only error is `Memory`, after an allocation failure;
/// then nothing was appended.
#[tactic(auto, unfolding(crate::specs::Written::written))]
pub fn append_frame(alloc: Global, bytes: &mut Vec<u8>, body: &[u8]) -> Result<(), Memory>
    // The frame of `body` is appended.
    ensures appended { OnOk result (bytes.new.items ≡ bytes.old.items ++ written body.now) }
    // A refusal appends nothing.
    ensures refused { OnErr result (bytes.new.items ≡ bytes.old.items) }
{
    let header = frame_header(alloc, body.len())?;
    let before = bytes.len();
    bytes.extend_from_slice(header.as_bytes())?;
    match bytes.extend_from_slice(body) {
        Ok(()) => Ok(()),
        Err(_) => {
            bytes.truncate(before);
            Err(Memory)
        }
    }
}
