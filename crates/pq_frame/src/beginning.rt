//! How a stream begins: with a frame, a prefix of a frame, or an error.
//!
//! `read_beginning` looks for the end of the header part in at most 4,096 bytes and splits the
//! stream there and at the end of the body, without a copy.
ghost use Rattle.pq_frame.specs.aux.Beginning.{IsBeginning};

use crate::fault::FrameFault;
use crate::header::{MAX_HEADER, body_len, header_at};

/// How a stream begins. The parts are slices of the stream, in its order.
#[derive(Clone, Copy)]
pub(crate) enum Beginning<'a> {
    /// A whole frame, and the bytes after it.
    Frame {
        body: &'a [u8],
        others: &'a [u8],
    },
    /// A header part, and fewer bytes than the `needed` ones of its body.
    CutBody {
        header: &'a [u8],
        body: &'a [u8],
        needed: usize,
    },
    /// Fewer than 4,096 bytes, without the end of a header part.
    CutHeader,
    /// No frame begins the stream.
    Fault(FrameFault),
}

/// Returns how `bytes` begin.
pub(crate) fn read_beginning(bytes: &[u8]) -> Beginning<'_>
    ensures { IsBeginning bytes.now result }
{
    match header_at(bytes) {
        None => {
            if bytes.len() < MAX_HEADER {
                Beginning::CutHeader
            } else {
                Beginning::Fault(FrameFault::HeaderTooLong)
            }
        }
        Some(end) => {
            let (header, after) = bytes.split_at(end);
            match body_len(header) {
                Err(fault) => Beginning::Fault(fault),
                Ok(needed) => {
                    if after.len() < needed {
                        Beginning::CutBody {
                            header,
                            body: after,
                            needed,
                        }
                    } else {
                        let (body, others) = after.split_at(needed);
                        Beginning::Frame { body, others }
                    }
                }
            }
        }
    }
}
