//! A session: one client on one connection, served by three threads. Each of them ends the others:
//!
//! - The reader drops its end that posts. The porter carries what is left, waits until each reply was
//!   put, and closes the client. The writer takes what was put, and finds the end.
//! - After a refusal the porter has closed the client, and shuts the stream down. The writer takes what
//!   was put, finds the end, and drops the receipts. The reader finds the end of its input; where it
//!   waits for room, its post comes back, since the porter's end is gone, or its receipt is refused.
//! - After an error the writer closes the client, shuts the stream down and drops the receipts. The
//!   reader ends as above. The porter's next post is refused, or it finds that there is none.
//!
//! After its end it lingers: it ends the output, and takes in what its client still sends, for two
//! seconds at most. `sessions` bounds how many do.
use crate::serving::floor::{Ends, Floor};
use crate::serving::porter::carry_all;
use crate::serving::reader::{Intake, read_all};
use crate::serving::roots::RootCheck;
use crate::serving::sessions::{Sessions, SharedStream};
use crate::serving::writer::write_replies;
use log::{Log, warn};
use pq_hall::Client;
use pq_session::{ScriptFault, UNREADABLE_PARAMETERS};
use std::alloc::Global;
use std::io::Read;
use std::net::{Shutdown, TcpStream};
use std::sync::Wait;
use std::thread;
use std::thread::Threads;
use std::time::{Clock, Duration, Instant};

/// The receipts that may wait for the writer of a session.
const RECEIPTS: usize = 32;

/// How long a session lingers at most, in seconds.
const LINGERING: u64 = 2;

/// The shortest wait of a read for what the client still sends, in milliseconds.
const SHORTEST_WAIT: u64 = 1;

/// Serves `client` on `stream` until its session ends. The client is closed then, and the session
/// lingers. A session that ends by an error gives one line to the log. `sessions` counts it.
pub(crate) fn run_session<F, H>(
    rt: &H,
    alloc: Global,
    floor: &F,
    sessions: &Sessions,
    client: Client,
    ends: Ends<F::Post, F::Porter, F::Take>,
    stream: SharedStream,
)
where
    F: Floor<H>,
    H: Threads + Wait + Clock + Log + Sync,
{
    // A reply is not to wait for the next one.
    let _ = stream.set_nodelay(true);
    let roots = RootCheck::new(client, sessions.folder());
    let outcome = run_threads(rt, alloc, floor, client, ends, roots, &stream);
    floor.close(rt, client);
    report(rt, client, outcome);
    take_leave(rt, sessions, &stream);
    sessions.end();
}

/// Reads on this thread, and carries and writes on two others. Returns when all three have ended.
fn run_threads<F, H>(
    rt: &H,
    alloc: Global,
    floor: &F,
    client: Client,
    ends: Ends<F::Post, F::Porter, F::Take>,
    roots: RootCheck<'_>,
    stream: &TcpStream,
) -> Result<Option<u8>, ScriptFault>
where
    F: Floor<H>,
    H: Threads + Wait + Log + Sync,
{
    let Ends { post, porter, take } = ends;
    let (receipts, owed) = crossbeam_channel::bounded(alloc, RECEIPTS)?;
    let intake = Intake::new(post, receipts, roots);
    thread::scope(thread::scope_env(), rt, |scope| {
        let carries = scope.spawn(move || carry_all(rt, floor, client, porter, stream));
        let writes = scope.spawn(move || write_replies(
            rt, alloc, floor, client, take, owed, stream,
        ));
        match (carries, writes) {
            (Ok(carries), Ok(writes)) => {
                let read = read_all(rt, alloc, floor, intake, stream);
                let carried = carries.join(rt);
                let written = writes.join(rt);
                outcome_of(carried, written, read)
            }
            _ => {
                // A writer without a porter would wait for a reply.
                drop(intake);
                floor.close(rt, client);
                Err(ScriptFault::Memory)
            }
        }
    })
}

/// How a session ended: by the error of the porter or of the writer, which end the reader too, or as
/// the reader says.
fn outcome_of(
    carried: Result<(), ScriptFault>,
    written: Result<(), ScriptFault>,
    read: Result<Option<u8>, ScriptFault>,
) -> Result<Option<u8>, ScriptFault> {
    carried?;
    written?;
    read
}

/// Ends the output, and takes in what the client still sends: a stream that is closed before loses
/// the replies that the client has not read. If the clock cannot be read, or an allocation fails, the
/// stream is closed at once.
fn take_leave<H: Wait + Clock>(rt: &H, sessions: &Sessions, stream: &SharedStream) {
    let _ = stream.shutdown(Shutdown::Write);
    let Ok(start) = Instant::now(rt) else {
        return;
    };
    let Some(number) = sessions.begin_to_linger(rt, stream) else {
        return;
    };
    linger(rt, stream, start);
    sessions.end_to_linger(rt, number);
}

/// Takes in what the client sends, until the input has ended, or the time since `start` is over.
fn linger<H: Wait + Clock>(rt: &H, stream: &TcpStream, start: Instant) {
    let mut input = stream;
    let mut buffer = [0u8; 16384];
    for _ in rt.forever() {
        let Some(left) = time_left(rt, start) else {
            return;
        };
        if stream.set_read_timeout(Some(left)).is_err() {
            return;
        }
        match input.read(&mut buffer) {
            Ok(count) if count > 0 => {}
            _ => return,
        }
    }
}

/// How much longer a session may linger that began to at `start`. `None` if its time is over, and if
/// the clock cannot be read.
fn time_left(rt: &impl Clock, start: Instant) -> Option<Duration> {
    let now = Instant::now(rt).ok()?;
    let left = Duration::from_secs(LINGERING).checked_sub(now.duration_since(start))?;
    if left < Duration::from_millis(SHORTEST_WAIT) {
        return None;
    }
    Some(left)
}

/// Writes the line of a session that ended by an error.
fn report<H: Log>(rt: &H, client: Client, outcome: Result<Option<u8>, ScriptFault>) {
    let number = client.id().number();
    match outcome {
        Err(fault) => warn!(rt; target: "pq_server", "client {number}: {fault}"),
        Ok(Some(status)) if status == UNREADABLE_PARAMETERS => {
            warn!(rt; target: "pq_server", "client {number}: an edit has unreadable parameters")
        }
        Ok(_) => {}
    }
}
