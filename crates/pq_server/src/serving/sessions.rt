//! What the sessions of a server share: the folder of its library, how many of them run, and which of
//! them linger.
//!
//! A session that has ended lingers for a while, so that its client can read what was written last. At
//! most 64 linger at once: when one more begins to, the stream of the oldest is shut down, so that the
//! read of its thread returns. A lock is held for the change of the list alone.
use std::alloc::{AllocError, Global};
use std::collections::VecDeque;
use std::net::{Shutdown, TcpStream};
use std::sync::atomic::{AtomicU32, Ordering};
use std::sync::{Arc, Mutex, Wait};

/// How many sessions may linger at once.
const MOST_LINGERING: usize = 64;

/// A stream that the thread of its session and the list of lingering sessions hold.
pub(crate) type SharedStream = Arc<TcpStream, Global>;

/// A session that lingers.
#[derive(Drop)]
struct Leaver {
    number: u64,
    stream: SharedStream,
}

/// The sessions that linger, the oldest first.
#[derive(Drop)]
struct Leavers {
    list: VecDeque<Leaver>,
    /// The number of the next one.
    next: u64,
}

impl Leavers {
    /// Adds the session of `stream`. Returns its number, and the oldest session if there are too many
    /// with it. Returns `None` if an allocation fails.
    fn add(&mut self, stream: SharedStream) -> Option<(u64, Option<Leaver>)> {
        let number = self.next;
        self.next = number.wrapping_add(1);
        let oldest = if self.list.len() < MOST_LINGERING {
            None
        } else {
            self.list.pop_front()
        };
        match self.list.push_back(Leaver { number, stream }) {
            Ok(()) => Some((number, oldest)),
            Err(_) => None,
        }
    }

    /// Takes out the session with this number, if it is there.
    fn take(&mut self, number: u64) -> Option<Leaver> {
        let place = self.list.iter().position(|it| it.number == number)?;
        self.list.remove(place)
    }
}

/// The sessions of a server, from which its threads take no more than this folder, these counts and
/// streams.
#[derive(Drop)]
pub(crate) struct Sessions {
    /// The absolute path of the folder of the library.
    folder: Option<String>,
    running: AtomicU32,
    leavers: Mutex<Leavers>,
}

impl Sessions {
    /// No sessions, with room for those that may linger. `folder` is the absolute path of the folder
    /// of the library, if there is one.
    pub(crate) fn new(alloc: Global, folder: Option<&str>) -> Result<Sessions, AllocError> {
        let folder = match folder {
            Some(folder) => Some(String::from_str(alloc, folder)?),
            None => None,
        };
        Ok(Sessions {
            folder,
            running: AtomicU32::new(0),
            leavers: Mutex::new(Leavers {
                list: VecDeque::with_capacity(alloc, MOST_LINGERING)?,
                next: 0,
            }),
        })
    }

    /// The absolute path of the folder of the library, if there is one.
    pub(crate) fn folder(&self) -> Option<&str> {
        match &self.folder {
            Some(folder) => Some(folder.as_str()),
            None => None,
        }
    }

    /// A session begins.
    pub(crate) fn begin(&self) {
        self.running.fetch_add(1, Ordering::SeqCst);
    }

    /// A session has ended, and lingers no longer.
    pub(crate) fn end(&self) {
        self.running.fetch_sub(1, Ordering::SeqCst);
    }

    /// How many sessions run. Those that linger are among them.
    pub(crate) fn running(&self) -> u32 {
        self.running.load(Ordering::SeqCst)
    }

    /// A session begins to linger. Returns its number, or `None` if an allocation fails. If there are
    /// too many with it, the stream of the oldest is shut down.
    pub(crate) fn begin_to_linger<H: Wait>(&self, rt: &H, stream: &SharedStream) -> Option<u64> {
        let stream = Arc::try_clone(stream).ok()?;
        let (number, oldest) = self.add(rt, stream)?;
        if let Some(oldest) = oldest {
            let _ = oldest.stream.shutdown(Shutdown::Both);
        }
        Some(number)
    }

    /// Adds a session to those that linger, as [`Leavers::add`] does.
    fn add<H: Wait>(&self, rt: &H, stream: SharedStream) -> Option<(u64, Option<Leaver>)> {
        let mut leavers = self.leavers.lock(rt);
        leavers.add(stream)
    }

    /// The session with this number lingers no longer.
    pub(crate) fn end_to_linger<H: Wait>(&self, rt: &H, number: u64) {
        let mut leavers = self.leavers.lock(rt);
        let _leaver = leavers.take(number);
    }
}
