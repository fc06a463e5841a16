//! Readers and writers that count their calls, so that a contract can name the calls that failed.
ghost use Rattle.std.specs.Prelude.{◌≡◌, ◌+◌, ◌<◌, ◌≤◌, ℕ, length, IfOk};
ghost use Rattle.std.specs.Io.{ReadsAtMost, WritesAtMost};
ghost use Rattle.std.specs.Io.KnownBytes.{Keeps, ReadConsumes, WriteAppends};
ghost use Rattle.pq_session.specs.Counts.{one_more, failed_after_read, failed_after_write, failed_after_flush, inner_of, reads_of, failed_of};

use std::io;
use std::io::{Read, Write};

/// A reader or a writer whose reads and failed calls are counted, each from 0. A count stays at the
/// largest number of 64 bits.
///
/// A write that takes no bytes counts as a failed call.
#[derive(Drop)]
pub struct Counted<T> {
    inner: T,
    reads: u64,
    failed: u64,
}

impl<T> Counted<T> {
    /// Counts the calls of `inner` from now on.
    pub fn new(inner: T) -> Counted<T>
        // `inner`, `reads`, `failed`: The counts of reads and failed calls start at 0.
        ensures inner { inner_of result ≡ inner }
        ensures reads { reads_of result ≡ 0 }
        ensures failed { failed_of result ≡ 0 }
    {
        Counted {
            inner,
            reads: 0,
            failed: 0,
        }
    }

    /// The number of reads.
    pub fn reads(&self) -> u64
        // The count of reads.
        ensures { result ≡ reads_of self.now }
    {
        self.reads
    }

    /// The number of failed calls.
    pub fn failed(&self) -> u64
        // The count of failed calls.
        ensures { result ≡ failed_of self.now }
    {
        self.failed
    }
}

impl<R: Read> Read for Counted<R> {
    ghost remaining = { λ c. R.remaining c.inner };

    /// Reads, and counts the read.
    fn read(&mut self, buf: &mut [u8]) -> io::Result<usize>
        // The count of the bytes read is at most the length of the buffer.
        ensures bound { ReadsAtMost result buf.new }
        // Of the bytes that the inner reader has left, where they are known, the read takes those
        // that it gives: none only at their end or for an empty buffer. After an error they stay.
        ensures bytes { ReadConsumes (R.remaining (inner_of self.old)) (R.remaining (inner_of self.new)) result buf.new }
        // The count of reads rises by one; at 2^64 - 1 it stays.
        ensures reads { reads_of self.new ≡ one_more (reads_of self.old) }
        // A read that fails is a failed call.
        ensures failed { failed_of self.new ≡ failed_after_read (failed_of self.old) result }
    {
        self.reads = self.reads.saturating_add(1);
        let result = self.inner.read(buf);
        if result.is_err() {
            self.failed = self.failed.saturating_add(1);
        }
        result
    }
}

impl<W: Write> Write for Counted<W> {
    ghost contents = { λ c. W.contents c.inner };

    /// Writes, and counts a failed write.
    fn write(&mut self, buf: &[u8]) -> io::Result<usize>
        // The count of the bytes written is at most the length of the buffer.
        ensures bound { WritesAtMost result buf.now }
        // The bytes that the write takes, the first of the buffer, are appended to those of the
        // inner writer, where these are known. After an error these stay.
        ensures bytes { WriteAppends (W.contents (inner_of self.old)) (W.contents (inner_of self.new)) result buf.now }
        // A write that fails is a failed call, and so is one that takes no bytes.
        ensures failed { failed_of self.new ≡ failed_after_write (failed_of self.old) result }
    {
        let result = self.inner.write(buf);
        let has_failed = match &result {
            Ok(count) => *count == 0,
            Err(_) => true,
        };
        if has_failed {
            self.failed = self.failed.saturating_add(1);
        }
        result
    }

    /// Flushes, and counts a failed flush.
    fn flush(&mut self) -> io::Result<()>
        // The bytes of the inner writer, where they are known, stay.
        ensures bytes { Keeps (W.contents (inner_of self.old)) (W.contents (inner_of self.new)) }
        // A flush that fails is a failed call.
        ensures failed { failed_of self.new ≡ failed_after_flush (failed_of self.old) result }
    {
        let result = self.inner.flush();
        if result.is_err() {
            self.failed = self.failed.saturating_add(1);
        }
        result
    }
}
