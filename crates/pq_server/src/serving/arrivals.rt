//! Connections that were accepted: each becomes a session, or is closed with a line in the log.
use crate::serving::floor::Floor;
use crate::serving::session::run_session;
use crate::serving::sessions::Sessions;
use log::{Log, warn};
use pq_core::OpenFault;
use std::alloc::Global;
use std::net::TcpStream;
use std::sync::{Arc, Wait};
use std::thread::{Scope, Threads};
use std::time::{Clock, Duration, Instant};

/// The shortest time between two lines of connections that were turned away, in seconds.
const SECONDS_BETWEEN_LINES: u64 = 1;

/// Why a connection is no session.
#[derive(Clone, Copy, Debug, PartialEq, Eq)]
enum Unserved {
    /// As many clients are open as may be.
    TurnedAway,
    /// An allocation failed.
    Memory,
    /// No thread could be started.
    NoThread,
}

impl From<OpenFault> for Unserved {
    /// Too many clients, or an allocation failure.
    fn from(fault: OpenFault) -> Unserved {
        match fault {
            OpenFault::TooManyClients => Unserved::TurnedAway,
            OpenFault::Memory => Unserved::Memory,
        }
    }
}

/// What the listener remembers of the connections that it accepted.
#[derive(Clone, Copy, Debug)]
pub(crate) struct Arrivals {
    accepted: u32,
    last_line: Option<Instant>,
}

impl Arrivals {
    /// No connection.
    pub(crate) fn new() -> Arrivals {
        Arrivals {
            accepted: 0,
            last_line: None,
        }
    }

    /// How many of them became sessions.
    pub(crate) fn accepted(&self) -> u32 {
        self.accepted
    }

    /// Begins the session of `stream` or, where it can be none, closes `stream` unanswered and leaves a
    /// line. Of connections that are turned away at most one a second leaves its line.
    pub(crate) fn receive<'s, E, F, R>(
        &mut self,
        scope: &Scope<'s, E>,
        rt: &'s R,
        alloc: Global,
        floor: &'s F,
        sessions: &'s Sessions,
        stream: TcpStream,
    )
    where
        F: Floor<R>,
        F::Post: 's,
        F::Porter: 's,
        F::Take: 's,
        R: Threads + Wait + Clock + Log + Sync,
    {
        match begin(scope, rt, alloc, floor, sessions, stream) {
            Ok(()) => self.accepted = self.accepted.saturating_add(1),
            Err(Unserved::TurnedAway) => {
                if self.is_line_due(rt) {
                    warn!(rt; target: "pq_server", "a connection was turned away: 64 clients are open");
                }
            }
            Err(Unserved::Memory) => {
                warn!(rt; target: "pq_server", "a connection was closed: out of memory")
            }
            Err(Unserved::NoThread) => {
                warn!(rt; target: "pq_server", "a connection was closed: no thread could be started")
            }
        }
    }

    /// Whether a connection that is turned away now leaves its line. It does not if the clock cannot be
    /// read.
    fn is_line_due(&mut self, rt: &impl Clock) -> bool {
        let Ok(now) = Instant::now(rt) else {
            return false;
        };
        if let Some(last) = self.last_line {
            if now.duration_since(last) < Duration::from_secs(SECONDS_BETWEEN_LINES) {
                return false;
            }
        }
        self.last_line = Some(now);
        true
    }
}

/// Opens a client for `stream`, and starts the thread of its session. If there is none, `stream` is
/// closed unanswered.
fn begin<'s, E, F, R>(
    scope: &Scope<'s, E>,
    rt: &'s R,
    alloc: Global,
    floor: &'s F,
    sessions: &'s Sessions,
    stream: TcpStream,
) -> Result<(), Unserved>
where
    F: Floor<R>,
    F::Post: 's,
    F::Porter: 's,
    F::Take: 's,
    R: Threads + Wait + Clock + Log + Sync,
{
    let Ok(stream) = Arc::new(alloc, stream) else {
        return Err(Unserved::Memory);
    };
    let (client, ends) = floor.join(rt)?;
    sessions.begin();
    if scope
        .spawn(move || run_session(rt, alloc, floor, sessions, client, ends, stream))
        .is_ok()
    {
        return Ok(());
    }
    sessions.end();
    floor.close(rt, client);
    Err(Unserved::NoThread)
}
