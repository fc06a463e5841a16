//! The standard output of a session, which several threads write.
use pq_session::{Counted, ScriptFault, write_frame};
use std::alloc::Global;
use std::io::Write;
use std::sync::{Mutex, Wait};

/// A stream to which frames are written, one at a time.
#[derive(Drop)]
pub(crate) struct Output<W> {
    alloc: Global,
    stream: Mutex<W>,
    /// Whether the client has asked for the end, so that no list and no line of the log is sent any more.
    /// It has a lock of its own, so that nobody waits for a write to set it.
    is_ending: Mutex<bool>,
}

impl<W: Write + Copy> Output<W> {
    /// The output to `stream`.
    pub(crate) fn new(alloc: Global, stream: W) -> Output<W> {
        Output {
            alloc,
            stream: Mutex::new(stream),
            is_ending: Mutex::new(false),
        }
    }

    /// The allocator.
    pub(crate) fn alloc(&self) -> Global {
        self.alloc
    }

    /// Writes the frame of `body`. No other frame comes between its bytes.
    ///
    /// The errors are those of `write_frame`.
    pub(crate) fn send<H: Wait>(&self, rt: &H, body: &str) -> Result<(), ScriptFault> {
        let stream = self.stream.lock(rt);
        let mut counted = Counted::new(*stream);
        write_frame(self.alloc, &mut counted, body.as_bytes())
    }

    /// Writes the frame of `body`, a list of diagnostics or a line of the log, unless the client has asked
    /// for the end.
    pub(crate) fn send_list<H: Wait>(&self, rt: &H, body: &str) -> Result<(), ScriptFault> {
        let stream = self.stream.lock(rt);
        // Asked under the lock of the stream: what is written after it was set is neither.
        if *self.is_ending.lock(rt) {
            return Ok(());
        }
        let mut counted = Counted::new(*stream);
        write_frame(self.alloc, &mut counted, body.as_bytes())
    }

    /// Writes no list and no line of the log from now on, but for one that is being written.
    pub(crate) fn end_lists<H: Wait>(&self, rt: &H) {
        *self.is_ending.lock(rt) = true;
    }
}
