//! A reader of frames that come in pieces.
//!
//! The reader keeps the bytes of an unfinished frame, or the error that it met. A piece inside a
//! body is appended to the body. Any other piece is split into frames, after the kept bytes of the
//! header part. A call takes time linear in its piece and the at most 4,096 bytes kept of a header
//! part. A byte of a body is copied at most twice.
ghost use Rattle.std.specs.Prelude.{◌≡◌, ◌↔◌, ◌+◌, ◌<◌, ◌++◌, [], ◌∷◌, List, ℕ, length, take, drop, ◌≤◌, IfOk, OnErr, IsTrue, Result, Ok, Err};

use crate::beginning::{Beginning, read_beginning};
use crate::fault::FrameFault;
use std::alloc::{AllocError, Global};
use std::marker::Model;
use std::mem;

/// A reader of the frames of a stream that comes in pieces of any lengths (LSP 3.17, "Base
/// Protocol").
///
/// Contracts see its state: `Reading` with the bytes of an unfinished frame, or `Failed` with the
/// error that it met.
#[derive(Drop)]
pub struct FrameReader {
    alloc: Global,
    header: Vec<u8>,
    body: Vec<u8>,
    needed: Option<usize>,
    fault: Option<FrameFault>,
}

impl Model for FrameReader {
    ghost use Rattle.std.specs.Prelude.{◌++◌};
    ghost use Rattle.pq_frame.specs.Frames.{State};

    ghost Value = { State };

    ghost use Rattle.pq_frame.specs.aux.Reader.{state_of, IsKept};

    ghost view = { λ a. state_of a.fault (a.header.items ++ a.body.items) };

    ghost invariant = { λ a. IsKept a.fault a.needed a.header.items a.body.items };
}

ghost use Rattle.pq_frame.specs.Frames.{Frames, Feeds, Reading, Failed};
ghost use Rattle.pq_frame.specs.Header.{IsHeader, NoHeaderBelow, body_length, max_header};
ghost use Rattle.pq_frame.specs.Bodies.{bodies_of, answer_of};

impl FrameReader {
    /// A reader at the start of a stream. It allocates nothing until it is fed.
    pub fn new(alloc: Global) -> FrameReader
        // A new reader keeps no byte and met no error.
        ensures { result ≡ Reading [] }
    {
        FrameReader {
            alloc,
            header: Vec::new(alloc),
            body: Vec::new(alloc),
            needed: None,
            fault: None,
        }
    }

    /// A reader after the bytes `header` of an unfinished header part.
    fn in_header(alloc: Global, header: &[u8]) -> Result<FrameReader, AllocError>
        requires short { length header.now < max_header }
        requires none_ends { NoHeaderBelow header.now (length header.now + 1) }
        ensures { IfOk result (λ r. r ≡ Reading header.now) }
    {
        Ok(FrameReader {
            alloc,
            header: Vec::from_slice(alloc, header)?,
            body: Vec::new(alloc),
            needed: None,
            fault: None,
        })
    }

    /// A reader after `header` and the bytes `body` of a body of `needed` bytes, for all of which it
    /// has room.
    fn in_body(
        alloc: Global,
        header: &[u8],
        body: &[u8],
        needed: usize,
    ) -> Result<FrameReader, AllocError>
        requires is_header { IsHeader header.now }
        requires gives { body_length header.now ≡ Ok needed }
        requires cut { length body.now < needed }
        ensures { IfOk result (λ r. r ≡ Reading (header.now ++ body.now)) }
    {
        let mut kept = Vec::with_capacity(alloc, needed)?;
        kept.extend_from_slice(body)?;
        Ok(FrameReader {
            alloc,
            header: Vec::from_slice(alloc, header)?,
            body: kept,
            needed: Some(needed),
            fault: None,
        })
    }

    /// A reader that met `fault`.
    fn failed(alloc: Global, fault: FrameFault) -> FrameReader
        ensures { result ≡ Failed fault }
    {
        FrameReader {
            alloc,
            header: Vec::new(alloc),
            body: Vec::new(alloc),
            needed: None,
            fault: Some(fault),
        }
    }

    /// Whether the stream may end here: the reader keeps no bytes and met no error.
    pub fn at_rest(&self) -> bool
        // True exactly if no byte of an unfinished frame is kept.
        ensures { IsTrue result ↔ (self.now ≡ Reading []) }
    {
        self.fault.is_none() && self.header.is_empty()
    }

    /// Takes `piece`, the next bytes of the stream, and returns the bodies that it completes, in
    /// order. It reserves room for a whole body when the header part of that body is complete.
    ///
    /// An error of the stream is returned as soon as the bytes show it. If the piece completes
    /// bodies before the error, this call returns them and the next call returns the error, also
    /// for an empty piece. Every later call returns the same error. `Memory` is an allocation
    /// failure: the piece was not taken, and the reader is as it was.
    pub fn feed(&mut self, piece: &[u8]) -> Result<Vec<Vec<u8>>, FrameFault>
        // The bodies that are complete with this piece, and the error if one comes next. Errors
        // other than `Memory` are final; after `Memory` the reader is as it was.
        ensures { Feeds self.old piece.now (answer_of result) self.new }
    {
        if let Some(fault) = self.fault {
            return Err(fault);
        }
        match self.needed {
            None => {
                let (bodies, next) = split_after(self.alloc, &self.header, piece)?;
                let waiting = if bodies.is_empty() { next.fault } else { None };
                *self = next;
                match waiting {
                    Some(fault) => Err(fault),
                    None => Ok(bodies),
                }
            }
            Some(needed) => {
                let missing = needed - self.body.len();
                if piece.len() < missing {
                    self.body.extend_from_slice(piece)?;
                    return Ok(Vec::new(self.alloc));
                }
                let (bodies, next) = finish_body(self.alloc, &mut self.body, missing, piece)?;
                *self = next;
                Ok(bodies)
            }
        }
    }
}

/// The bodies of `header` and then `piece`, and a reader of the rest. `header` is unfinished.
fn split_after(
    alloc: Global,
    header: &[u8],
    piece: &[u8],
) -> Result<(Vec<Vec<u8>>, FrameReader), AllocError>
    ensures { IfOk result (λ r. Frames (header.now ++ piece.now) (bodies_of r.0.items) r.1) }
{
    if header.is_empty() {
        return split(alloc, piece);
    }
    let mut bytes = Vec::from_slice(alloc, header)?;
    bytes.extend_from_slice(piece)?;
    split(alloc, &bytes)
}

/// The bodies of `piece` after the unfinished `body`, and a reader of the rest. The first `missing`
/// bytes of `piece` complete `body`.
fn finish_body(
    alloc: Global,
    body: &mut Vec<u8>,
    missing: usize,
    piece: &[u8],
) -> Result<(Vec<Vec<u8>>, FrameReader), AllocError>
    requires { missing ≤ length piece.now }
    ensures ok { IfOk result (λ r. (bodies : List (List ℕ))
        × (bodies_of r.0.items ≡ (body.old.items ++ take missing piece.now) ∷ bodies)
        × Frames (drop missing piece.now) bodies r.1) }
    ensures err { OnErr result (body.new.items ≡ body.old.items) }
{
    let (first, others) = piece.split_at(missing);
    let (mut bodies, next) = split(alloc, others)?;
    bodies.insert(0, Vec::new(alloc))?;
    body.extend_from_slice(first)?;
    mem::swap(&mut bodies[0], body);
    Ok((bodies, next))
}

/// The bodies of `bytes`, and a reader of the rest.
fn split(alloc: Global, bytes: &[u8]) -> Result<(Vec<Vec<u8>>, FrameReader), AllocError>
    ensures { IfOk result (λ r. Frames bytes.now (bodies_of r.0.items) r.1) }
{
    let mut bodies = Vec::new(alloc);
    let mut rest = bytes;
    'frames: loop {
        match read_beginning(rest) {
            Beginning::Frame { body, others } => {
                bodies.push(Vec::from_slice(alloc, body)?)?;
                rest = others;
            }
            Beginning::CutBody {
                header,
                body,
                needed,
            } => {
                let reader = FrameReader::in_body(alloc, header, body, needed)?;
                return Ok((bodies, reader));
            }
            Beginning::CutHeader => {
                let reader = FrameReader::in_header(alloc, rest)?;
                return Ok((bodies, reader));
            }
            Beginning::Fault(fault) => return Ok((bodies, FrameReader::failed(alloc, fault))),
        }
    }
}
