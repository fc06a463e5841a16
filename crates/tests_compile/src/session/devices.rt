//! Scripts between a reader and a writer of one log, which fail at a call that the test chooses.
use super::check_outcome;
use crate::checks::{check_number, check_page, check_that};
use pq_frame::frame;
use pq_session::{Counted, Memory, ScriptFault, script};
use std::alloc::Global;
use std::cell::RefCell;
use std::io;
use std::io::{Read, Write};
use std::process::Abort;
use test_support::Page;

/// The calls so far: `r` for a read, `w` for a write, `f` for a flush.
#[derive(Drop)]
struct Log {
    calls: RefCell<Vec<u8>>,
}

impl Log {
    /// A log of no calls.
    fn new(alloc: Global) -> Log {
        Log {
            calls: RefCell::new(Vec::new(alloc)),
        }
    }

    /// Adds a call.
    fn note(&self, call: u8) -> io::Result<()> {
        if let Ok(mut calls) = self.calls.try_borrow_mut() {
            calls.push(call)?;
        }
        Ok(())
    }

    /// Writes the calls.
    fn show(&self, page: &mut Page) {
        match self.calls.try_borrow() {
            Ok(calls) => page.bytes(calls.as_slice()),
            Err(_) => page.add("borrowed"),
        }
    }
}

/// Gives a piece at each read, and fails at the read `bad_read`.
#[derive(Drop)]
struct Pieces<'a> {
    log: &'a Log,
    pieces: &'a [Vec<u8>],
    reads: usize,
    bad_read: Option<usize>,
}

impl<'a> Read for Pieces<'a> {
    fn read(&mut self, buf: &mut [u8]) -> io::Result<usize> {
        self.log.note(b'r')?;
        let read = self.reads;
        self.reads = self.reads.saturating_add(1);
        if self.bad_read == Some(read) {
            return Err(io::Error::from(io::ErrorKind::Interrupted));
        }
        let Some(piece) = self.pieces.get(read) else {
            return Ok(0);
        };
        let count = piece.len().min(buf.len());
        buf[..count].copy_from_slice(&piece[..count]);
        Ok(count)
    }
}

/// The call at which a writer fails, numbered from 0, and how.
#[derive(Clone, Copy, PartialEq, Eq)]
enum Bad {
    Never,
    FailedWrite(usize),
    EmptyWrite(usize),
    FailedFlush(usize),
}

/// Takes at most `most` bytes at each write, and fails at one call.
#[derive(Drop)]
struct Sink<'a> {
    log: &'a Log,
    got: Vec<u8>,
    most: usize,
    writes: usize,
    flushes: usize,
    bad: Bad,
}

impl<'a> Write for Sink<'a> {
    fn write(&mut self, buf: &[u8]) -> io::Result<usize> {
        self.log.note(b'w')?;
        let write = self.writes;
        self.writes = self.writes.saturating_add(1);
        if self.bad == Bad::FailedWrite(write) {
            return Err(io::Error::from(io::ErrorKind::BrokenPipe));
        }
        if self.bad == Bad::EmptyWrite(write) {
            return Ok(0);
        }
        let count = buf.len().min(self.most);
        self.got.extend_from_slice(&buf[..count])?;
        Ok(count)
    }

    fn flush(&mut self) -> io::Result<()> {
        self.log.note(b'f')?;
        let flush = self.flushes;
        self.flushes = self.flushes.saturating_add(1);
        if self.bad == Bad::FailedFlush(flush) {
            return Err(io::Error::from(io::ErrorKind::BrokenPipe));
        }
        Ok(())
    }
}

/// The most bytes of a write where no write is to be split.
const MOST: usize = 1_000_000;

/// The frames of a session with three replies, each the only one of its piece.
fn session_pieces(alloc: Global) -> Result<Vec<Vec<u8>>, Memory> {
    let mut pieces = Vec::new(alloc);
    for body in [
        r#"{"id":0,"jsonrpc":"2.0","method":"initialize"}"#,
        r#"{"jsonrpc":"2.0","method":"initialized"}"#,
        r#"{"id":1,"jsonrpc":"2.0","method":"textDocument/diagnostic","params":{"textDocument":{"uri":"file:///a.proto"}}}"#,
        r#"{"id":2,"jsonrpc":"2.0","method":"shutdown"}"#,
        r#"{"jsonrpc":"2.0","method":"exit"}"#,
    ] {
        pieces.push(frame(alloc, body.as_bytes())?)?;
    }
    Ok(pieces)
}

/// Runs a script over `pieces`: what is written, and the outcome.
fn run(
    alloc: Global,
    log: &Log,
    pieces: &[Vec<u8>],
    bad_read: Option<usize>,
    most: usize,
    bad: Bad,
) -> (Vec<u8>, Result<u8, ScriptFault>) {
    let mut reader = Counted::new(Pieces {
        log,
        pieces,
        reads: 0,
        bad_read,
    });
    let mut sink = Sink {
        log,
        got: Vec::new(alloc),
        most,
        writes: 0,
        flushes: 0,
        bad,
    };
    let mut writer = Counted::new(&mut sink);
    let result = script(alloc, &mut reader, &mut writer);
    (sink.got, result)
}

/// Checks that the calls of a log are `want`; `row` names the row.
fn check_calls(rt: &(impl Abort + AllocGlobal), log: &Log, want: &str, row: &str) {
    let mut page = Page::new(rt.alloc());
    log.show(&mut page);
    check_page(rt, &page, want, row);
}

/// Runs a script over `pieces`, the devices failing as said, and checks its outcome and its calls.
///
/// The answer is how many bytes were written.
fn check_run(
    rt: &(impl Abort + AllocGlobal),
    pieces: &[Vec<u8>],
    bad_read: Option<usize>,
    bad: Bad,
    want: &str,
    calls: &str,
) -> usize {
    let log = Log::new(rt.alloc());
    let (output, outcome) = run(rt.alloc(), &log, pieces, bad_read, MOST, bad);
    check_outcome(rt, &outcome, want, calls);
    check_calls(rt, &log, calls, want);
    output.len()
}

/// The pieces of that session.
fn pieces_of(rt: &(impl Abort + AllocGlobal)) -> Vec<Vec<u8>> {
    session_pieces(rt.alloc()).expect(rt, "memory")
}

#[test]
fn each_reply_is_flushed_before_the_next_read(rt: HostRuntime) {
    let pieces = pieces_of(&rt);
    let _length = check_run(&rt, &pieces, None, Bad::Never, "0", "rwfrrwfrwfr");
}

/// A piece with a frame, and then what is no header.
fn frame_and_error(alloc: Global) -> Result<Vec<Vec<u8>>, Memory> {
    let mut piece = frame(alloc, br#"{"id":0,"jsonrpc":"2.0","method":"initialize"}"#)?;
    piece.extend_from_slice(b"\r\n")?;
    let mut pieces = Vec::new(alloc);
    pieces.push(piece)?;
    Ok(pieces)
}

#[test]
fn an_error_after_a_reply_needs_no_read(rt: HostRuntime) {
    let pieces = frame_and_error(rt.alloc()).expect(&rt, "memory");
    let _length = check_run(&rt, &pieces, None, Bad::Never, "NoLength", "rwf");
}

#[test]
fn a_failed_read_keeps_the_replies_before_it(rt: HostRuntime) {
    let pieces = pieces_of(&rt);
    let logs = "r\nrwfr\nrwfrr\nrwfrrwfr\nrwfrrwfrwfr";
    for (read, calls) in logs.lines().enumerate() {
        let _length = check_run(&rt, &pieces, Some(read), Bad::Never, "Read", calls);
    }
}

/// Checks that a script whose writer fails as `bad` says has written the first `length` bytes of
/// `whole`.
fn check_prefix(
    rt: &(impl Abort + AllocGlobal),
    pieces: &[Vec<u8>],
    whole: &[u8],
    bad: Bad,
    length: usize,
) {
    let log = Log::new(rt.alloc());
    let (output, outcome) = run(rt.alloc(), &log, pieces, None, 100, bad);
    check_outcome(rt, &outcome, "Write", "a failed write");
    check_that(rt, whole.starts_with(output.as_slice()), "a prefix");
    check_number(rt, output.len(), length, "a failed write");
}

// 323, 97 and 60 bytes are taken in 4, 1 and 1 writes of at most 100 bytes.
#[test]
fn a_failed_write_leaves_a_prefix(rt: HostRuntime) {
    let pieces = pieces_of(&rt);
    let log = Log::new(rt.alloc());
    let (whole, _outcome) = run(rt.alloc(), &log, &pieces, None, 100, Bad::Never);
    for (write, length) in [0, 100, 200, 300, 323, 420].into_iter().enumerate() {
        check_prefix(&rt, &pieces, &whole, Bad::FailedWrite(write), length);
        check_prefix(&rt, &pieces, &whole, Bad::EmptyWrite(write), length);
    }
}

/// Checks that a script whose flush `flush` fails makes `calls`, and has written `length` bytes.
fn check_flush(
    rt: &(impl Abort + AllocGlobal),
    pieces: &[Vec<u8>],
    flush: usize,
    calls: &str,
    length: usize,
) {
    let found = check_run(rt, pieces, None, Bad::FailedFlush(flush), "Write", calls);
    check_number(rt, found, length, calls);
}

#[test]
fn a_failed_flush_leaves_a_prefix(rt: HostRuntime) {
    let pieces = pieces_of(&rt);
    check_flush(&rt, &pieces, 0, "rwf", 323);
    check_flush(&rt, &pieces, 1, "rwfrrwf", 420);
    check_flush(&rt, &pieces, 2, "rwfrrwfrwf", 480);
}
