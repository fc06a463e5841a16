//! Frames and messages of the Language Server Protocol (LSP 3.17, "Base Protocol"; JSON-RPC 2.0).
//!
//! `FrameReader` splits a stream that comes in pieces into bodies, however the stream is cut.
//! `Message::read` classifies a body. `frame` writes the frame of a body that is sent.
//!
//! `specs/Frames` says what a stream is, `specs/Header` what a header part is, and `specs/Messages`
//! what message a body is. `laws` has the theorems about all streams.
#![tactic(auto)]

mod beginning;
mod fault;
mod header;
mod labels;
mod laws;
mod messages;
mod reader;
mod write;

pub use fault::FrameFault;
pub use labels::{Label, equal_labels, label_of};
pub use laws::{
    any_pieces, each_stream, empty_stream, frames_of_prefix, one_reading, written_reads,
};
pub use messages::Message;
pub use reader::FrameReader;
/// An allocation failed.
pub use std::alloc::AllocError as Memory;
pub use write::{append_frame, frame, frame_header};
