//! The listener: it accepts connections, and starts workers and sessions.
//!
//! Its port is open while it accepts. It is closed once the last session was accepted, and when the
//! port has failed, though sessions still run then.
ghost use Rattle.std.specs.Prelude.{◌≡◌};

use crate::library::LibraryFault;
use crate::serving::arrivals::Arrivals;
use crate::serving::failures::Failures;
use crate::serving::floor::{Floor, Texts, Works};
use crate::serving::sessions::Sessions;
use crate::status::{OUT_OF_MEMORY, START_FAILED, not_started};
use log::Log;
use pq_core::{Stamp, Work};
use pq_hall::{BoardName, Gate, Hall, NewBoard, OneValue};
use pq_inputs::Inputs;
use pq_rules::Rules;
use std::alloc::Global;
use std::marker::Brand;
use std::net::TcpListener;
use std::sync::Wait;
use std::thread;
use std::thread::{Scope, Threads};
use std::time::Clock;

/// A gate that holds nothing back.
#[derive(Clone, Copy, Debug)]
pub(crate) struct OpenGate;

impl<S: Rules> Gate<S> for OpenGate {
    fn pass<M: Stamp>(&self, _work: &Work<S, M>) {}
}

/// How much a server serves.
#[derive(Clone, Copy, Debug)]
pub(crate) struct Size {
    /// The number of workers, from 1 to 32.
    pub(crate) workers: u8,
    /// The number of sessions after which it ends, at least 1, or `None` if it does not end.
    pub(crate) sessions: Option<u32>,
}

/// Serves the connections of `listener` over the sources of `library`, by `rules`, with the workers and
/// for the sessions of `size`. Each work passes `gate` before it is carried out. `folder` is the absolute path
/// of the folder of the library, if there is one.
///
/// A connection beyond the clients that may be open is closed unanswered, and is no session. The port
/// is closed once the last session was accepted.
///
/// Returns 0 when so many sessions have ended. Returns 4 if no library was read, and if the port has
/// failed; then the sessions that run have ended. Returns 5 if an allocation failed for the hall, or
/// no thread could be started for a worker.
pub(crate) fn serve<S, R, G>(
    rt: &R,
    alloc: Global,
    rules: S,
    listener: TcpListener,
    library: Result<Inputs, LibraryFault>,
    folder: Option<&str>,
    size: Size,
    gate: &G,
) -> u8
where
    S: Texts + OneValue + Send + Sync + 'static,
    S::Key: Send + Sync,
    S::Value: Send + Sync,
    S::Part: Send,
    R: Threads + Wait + Clock + Log + Copy + Drop + Send + Sync + 'static,
    G: Gate<S> + Sync,
{
    let inputs = match library {
        Ok(inputs) => inputs,
        Err(fault) => return not_started(fault).0,
    };
    match NewBoard::new(alloc) {
        Ok(board) => serve_in::<S, Brand, R, G>(
            rt, alloc, rules, board, listener, inputs, folder, size, gate,
        ),
        Err(_) => OUT_OF_MEMORY,
    }
}

/// Serves over a hall of `rules` whose marks are those of `board`, which `J` names.
fn serve_in<S, J, R, G>(
    rt: &R,
    alloc: Global,
    rules: S,
    board: NewBoard,
    listener: TcpListener,
    inputs: Inputs,
    folder: Option<&str>,
    size: Size,
    gate: &G,
) -> u8
where
    S: Texts + OneValue + Send + Sync + 'static,
    S::Key: Send + Sync,
    S::Value: Send + Sync,
    S::Part: Send,
    J: BoardName + Send + Sync + 'static,
    R: Threads + Wait + Clock + Log + Copy + Drop + Send + Sync + 'static,
    G: Gate<S> + Sync,
    requires { board ≡ J.vector }
{
    let made: Result<Hall<S, J, R>, _> = Hall::new(rt, alloc, rules, board, inputs);
    match made {
        Ok(hall) => run(rt, alloc, &hall, listener, folder, size, gate),
        Err(_) => OUT_OF_MEMORY,
    }
}

/// Starts the workers, serves the sessions, and ends the workers.
fn run<F, R, G>(
    rt: &R,
    alloc: Global,
    floor: &F,
    listener: TcpListener,
    folder: Option<&str>,
    size: Size,
    gate: &G,
) -> u8
where
    F: Floor<R> + Works<G, R>,
    R: Threads + Wait + Clock + Log + Sync,
    G: Sync,
{
    thread::scope(thread::scope_env(), rt, move |scope| {
        let mut status = 0;
        for _ in 0..size.workers {
            if scope.spawn(move || floor.work_with(rt, gate)).is_err() {
                status = OUT_OF_MEMORY;
            }
        }
        if status == 0 {
            status = accept_all(rt, alloc, floor, listener, folder, size.sessions);
        }
        floor.shut(rt);
        status
    })
}

/// Accepts the connections of `count` sessions. Returns when these have ended.
fn accept_all<F, R>(
    rt: &R,
    alloc: Global,
    floor: &F,
    listener: TcpListener,
    folder: Option<&str>,
    count: Option<u32>,
) -> u8
where
    F: Floor<R>,
    R: Threads + Wait + Clock + Log + Sync,
{
    let Ok(sessions) = Sessions::new(alloc, folder) else {
        return OUT_OF_MEMORY;
    };
    let sessions = &sessions;
    thread::scope(thread::scope_env(), rt, move |scope| {
        accept_in(scope, rt, alloc, floor, listener, sessions, count)
    })
}

/// Accepts the connections of `count` sessions, each with a thread of `scope`. The port is closed when
/// it returns.
fn accept_in<'s, E, F, R>(
    scope: &Scope<'s, E>,
    rt: &'s R,
    alloc: Global,
    floor: &'s F,
    listener: TcpListener,
    sessions: &'s Sessions,
    count: Option<u32>,
) -> u8
where
    F: Floor<R>,
    F::Post: 's,
    F::Porter: 's,
    F::Take: 's,
    R: Threads + Wait + Clock + Log + Sync,
{
    let mut failures = Failures::new();
    let mut arrivals = Arrivals::new();
    for stream in listener.incoming() {
        match stream {
            Ok(stream) => {
                failures.end_row();
                arrivals.receive(scope, rt, alloc, floor, sessions, stream);
                if Some(arrivals.accepted()) == count {
                    break;
                }
            }
            Err(error) => {
                if !failures.is_passed(rt, &error, sessions.running()) {
                    return START_FAILED;
                }
            }
        }
    }
    0
}
