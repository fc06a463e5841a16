//! The writer of a session: it writes a reply for each receipt.
//!
//! It waits for the next reply alone, and takes with it those that are there. The frames of short ones
//! are gathered, so that one write serves them all. The receipt of a reply was handed on before, or is
//! about to be: the reader does not wait for this thread while no receipt is there.
//!
//! It finds an end where the client was closed: by the porter after the last reply, or after a refusal,
//! or by the session where a thread could not be started. The reader ends then without it.
use crate::serving::floor::{Floor, NoText, Owed, TAKES};
use crossbeam_channel::Receiver;
use pq_frame::append_frame;
use pq_hall::Client;
use pq_session::{Counted, ScriptFault, write_all, write_frame};
use std::alloc::Global;
use std::net::{Shutdown, TcpStream};
use std::sync::Wait;

/// The bytes from which on the frames that were gathered are written.
const FULL: usize = 65_536;

/// The bytes from which on a text is not copied to be written.
const LONG: usize = 16_384;

/// Why a reply was not written.
#[derive(Drop)]
enum Unwritten {
    /// The client was closed.
    Closed,
    /// There was an error.
    Fault(ScriptFault),
}

impl From<NoText> for Unwritten {
    /// A receipt without its reply says that the client was closed.
    fn from(end: NoText) -> Unwritten {
        match end {
            NoText::Closed => Unwritten::Closed,
            NoText::Memory => Unwritten::Fault(ScriptFault::Memory),
        }
    }
}

impl From<ScriptFault> for Unwritten {
    /// The error.
    fn from(fault: ScriptFault) -> Unwritten {
        Unwritten::Fault(fault)
    }
}

/// What the writer of a session holds.
#[derive(Drop)]
struct Outlet<'a, F: Floor<H>, H> {
    rt: &'a H,
    alloc: Global,
    floor: &'a F,
    client: Client,
    take: F::Take,
    owed: Receiver<Owed<F::Receipt>>,
    stream: &'a TcpStream,
    /// The frames that were gathered.
    frames: Vec<u8>,
    /// How many replies were taken since the last refill.
    taken: usize,
}

impl<'a, F: Floor<H>, H: Wait> Outlet<'a, F, H> {
    /// Writes the next reply, for which it waits, and those that are there after it. Returns whether
    /// there was one.
    fn write_some(&mut self) -> Result<bool, Unwritten> {
        let gathered = self.gather();
        self.flush()?;
        gathered
    }

    /// Gathers the next reply, for which it waits, and those that are there after it. Returns whether
    /// there was one.
    fn gather(&mut self) -> Result<bool, Unwritten> {
        if !self.gather_next()? {
            return Ok(false);
        }
        for _ in 1..TAKES {
            if self.frames.len() >= FULL || !self.gather_ready()? {
                return Ok(true);
            }
        }
        Ok(true)
    }

    /// Gathers the next reply, for which it waits. Returns whether there was one.
    fn gather_next(&mut self) -> Result<bool, Unwritten> {
        let text = self
            .floor
            .next_text(self.rt, self.alloc, &mut self.take, &self.owed)?;
        self.add(text)
    }

    /// Gathers the next reply, if it is there. Returns whether it is.
    fn gather_ready(&mut self) -> Result<bool, Unwritten> {
        let text = self
            .floor
            .ready_text(self.rt, self.alloc, &mut self.take, &self.owed)?;
        self.add(text)
    }

    /// Gathers the frame of a reply that was taken, if there is one. Returns whether there is.
    fn add(&mut self, text: Option<String>) -> Result<bool, Unwritten> {
        let Some(text) = text else {
            return Ok(false);
        };
        self.count();
        self.add_frame(text.as_bytes())?;
        Ok(true)
    }

    /// Counts a reply that was taken. After each `TAKES` of them those that have room are put.
    fn count(&mut self) {
        self.taken = self.taken.saturating_add(1);
        if self.taken >= TAKES {
            self.taken = 0;
            self.floor.refill(self.rt, self.client);
        }
    }

    /// Gathers the frame of `text`. A long one is written at once, after those that were gathered.
    fn add_frame(&mut self, text: &[u8]) -> Result<(), ScriptFault> {
        if text.len() < LONG {
            return match append_frame(self.alloc, &mut self.frames, text) {
                Ok(()) => Ok(()),
                Err(_) => Err(ScriptFault::Memory),
            };
        }
        self.flush()?;
        let mut output = Counted::new(self.stream);
        write_frame(self.alloc, &mut output, text)
    }

    /// Writes the frames that were gathered.
    fn flush(&mut self) -> Result<(), ScriptFault> {
        let mut output = Counted::new(self.stream);
        write_all(&mut output, self.frames.as_slice())?;
        self.frames.clear();
        Ok(())
    }
}

/// Writes the replies of `client` to `stream`, one for each receipt, until the client was closed and no
/// reply is left. The porter closes it after the last reply.
///
/// A failed write or allocation ends it, and a reply without its receipt. The client is closed then, and
/// the stream is shut down, so that the reader ends too. After the close of the client it is no error.
pub(crate) fn write_replies<F: Floor<H>, H: Wait>(
    rt: &H,
    alloc: Global,
    floor: &F,
    client: Client,
    take: F::Take,
    owed: Receiver<Owed<F::Receipt>>,
    stream: &TcpStream,
) -> Result<(), ScriptFault> {
    let mut outlet = Outlet {
        rt,
        alloc,
        floor,
        client,
        take,
        owed,
        stream,
        frames: Vec::new(alloc),
        taken: 0,
    };
    for _ in rt.forever() {
        match outlet.write_some() {
            Ok(true) => {}
            Ok(false) => return Ok(()),
            Err(end) => {
                floor.close(rt, client);
                let _ = stream.shutdown(Shutdown::Both);
                return ended_by(end);
            }
        }
    }
    unreachable!()
}

/// The outcome of a session whose reply was not written.
fn ended_by(end: Unwritten) -> Result<(), ScriptFault> {
    match end {
        Unwritten::Closed => Ok(()),
        Unwritten::Fault(fault) => Err(fault),
    }
}
