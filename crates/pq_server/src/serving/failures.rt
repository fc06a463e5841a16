//! What the listener does after a connection that could not be accepted.
//!
//! A connection that its client has ended, and an interrupted call, are passed over at once. Where
//! descriptors or memory are lacking, the listener pauses and tries again: a session that ends gives
//! some back. While no session runs, ten such failures in a row are an error of the port. Any other
//! failure is one. `specs/Accepts` has this as a table.
ghost use Rattle.std.specs.Prelude.{◌≡◌};
ghost use Rattle.pq_server.specs.Accepts.{cause_of, cause_of_code, verdict_on};

use log::{Log, warn};
use std::io::{Error, ErrorKind};
use std::thread;
use std::time::{Clock, Duration};

/// The pause after which an accept is tried again, in milliseconds.
const PAUSE: u64 = 100;

/// How often an accept fails in a row, while no session runs, before the port has failed.
const MOST_FAILURES: u32 = 10;

/// Linux's number for a table of files that is full, of the whole system.
const ENFILE: i32 = 23;

/// Linux's number for a process that has no descriptor left.
const EMFILE: i32 = 24;

/// Linux's number for a system that has no buffer left.
const ENOBUFS: i32 = 105;

/// Why a connection was not accepted.
#[derive(Clone, Copy, Debug, PartialEq, Eq)]
pub(crate) enum Cause {
    /// The client ended the connection before.
    Aborted,
    /// A signal interrupted the call.
    Interrupted,
    /// No descriptor is left.
    NoDescriptor,
    /// No memory is left.
    NoMemory,
    /// Any other cause. It does not pass.
    Lasting,
}

/// What the listener does after a failure.
#[derive(Clone, Copy, Debug, PartialEq, Eq)]
pub(crate) enum Verdict {
    /// It accepts the next connection at once.
    GoOn,
    /// It pauses, and tries again.
    TryAgain,
    /// It ends: the port has failed.
    End,
}

/// The cause of a failed accept, by the system's number of its error.
fn cause_of_code(code: i32) -> Cause
    ensures { result ≡ cause_of_code code }
{
    if code == ENFILE || code == EMFILE {
        return Cause::NoDescriptor;
    }
    if code == ENOBUFS {
        return Cause::NoMemory;
    }
    Cause::Lasting
}

/// The cause of a failed accept, by the kind of its error and the system's number of it, if there is
/// one.
pub(crate) fn cause_of(kind: ErrorKind, code: Option<i32>) -> Cause
    // The cause of a failed accept is that of the table of `Accepts`, by the kind of the error and
    // the system's number of it.
    ensures { result ≡ cause_of kind code }
{
    match kind {
        ErrorKind::ConnectionAborted => Cause::Aborted,
        ErrorKind::Interrupted => Cause::Interrupted,
        ErrorKind::OutOfMemory => Cause::NoMemory,
        _ => match code {
            Some(code) => cause_of_code(code),
            None => Cause::Lasting,
        },
    }
}

/// What the listener does after a failure of this cause. `running` sessions run. The accept has
/// failed `failures` times in a row, with this one, while none ran.
pub(crate) fn after_failure(cause: Cause, running: u32, failures: u32) -> Verdict
    // What the listener does after a failed accept is what the table of `Accepts` says, by the
    // cause, the sessions that run, and the failures in a row.
    ensures { result ≡ verdict_on cause running failures }
{
    match cause {
        Cause::Aborted => Verdict::GoOn,
        Cause::Interrupted => Verdict::GoOn,
        Cause::Lasting => Verdict::End,
        _ => {
            if running > 0 || failures < MOST_FAILURES {
                Verdict::TryAgain
            } else {
                Verdict::End
            }
        }
    }
}

/// What the listener remembers of the failures of its port.
#[derive(Clone, Copy, Debug)]
pub(crate) struct Failures {
    /// How often the accept has failed in a row while no session ran.
    in_a_row: u32,
    /// Which of the causes that pass have left their lines.
    said_aborted: bool,
    said_interrupted: bool,
    said_no_descriptor: bool,
    said_no_memory: bool,
}

impl Failures {
    /// No failure.
    pub(crate) fn new() -> Failures {
        Failures {
            in_a_row: 0,
            said_aborted: false,
            said_interrupted: false,
            said_no_descriptor: false,
            said_no_memory: false,
        }
    }

    /// A connection was accepted.
    pub(crate) fn end_row(&mut self) {
        self.in_a_row = 0;
    }

    /// Returns whether the listener goes on after a failed accept, while `running` sessions run. It
    /// has paused where it is to pause.
    ///
    /// The first failure of each cause leaves a line, and so does the one that ends the server.
    pub(crate) fn is_passed<H: Clock + Log>(
        &mut self,
        rt: &H,
        error: &Error,
        running: u32,
    ) -> bool {
        let cause = cause_of(error.kind(), error.raw_os_error());
        self.in_a_row = match running {
            0 => self.in_a_row.saturating_add(1),
            _ => 0,
        };
        match after_failure(cause, running, self.in_a_row) {
            Verdict::GoOn => {
                self.in_a_row = 0;
                self.say(rt, cause, error);
                true
            }
            Verdict::TryAgain => {
                self.say(rt, cause, error);
                thread::sleep(rt, Duration::from_millis(PAUSE));
                true
            }
            Verdict::End => {
                warn!(rt; target: "pq_server", "no more connections are accepted: {error}");
                false
            }
        }
    }

    /// Leaves a line for a failure, if it is the first of its cause.
    fn say<H: Log>(&mut self, rt: &H, cause: Cause, error: &Error) {
        let said = self.said(cause);
        if !*said {
            *said = true;
            warn!(rt; target: "pq_server", "a connection was not accepted: {error}");
        }
    }

    /// Whether a failure of this cause has left its line. One that ends the server leaves another.
    fn said(&mut self, cause: Cause) -> &mut bool {
        match cause {
            Cause::Aborted => &mut self.said_aborted,
            Cause::Interrupted => &mut self.said_interrupted,
            Cause::NoDescriptor => &mut self.said_no_descriptor,
            _ => &mut self.said_no_memory,
        }
    }
}
