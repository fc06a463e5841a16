//! The session of an editor: its hall, its workers, and its threads.
//!
//! All of it runs beside the thread that calls `serve_editor`. That thread returns soon after the end of
//! the session, whatever the others are at: the program ends then, and nothing is owed to the client.
ghost use Rattle.std.specs.Prelude.{◌≡◌};

use crate::editor::desk::{Desk, Ways};
use crate::editor::disk::Disk;
use crate::editor::files::Files;
use crate::editor::line::Line;
use crate::editor::lines::Lines;
use crate::editor::logger::log_all;
use crate::editor::looker::look_all;
use crate::editor::output::Output;
use crate::editor::pusher::push_all;
use crate::editor::reader::read_all_messages;
use crate::editor::roots::{Roots, place_of};
use crate::editor::rounds::Rounds;
use crate::editor::surveyor::{Survey, survey_all};
use crate::editor::walker::{Walk, walk_all};
use crate::editor::writer::write_all_replies;
use crate::serving::floor::{Floor, Texts, Works};
use crossbeam_channel::{Receiver, Sender};
use pq_hall::{BoardName, Client, Gate, Hall, HallRules, Loose, NewBoard, OneValue};
use pq_inputs::{Inputs, MOST_FILES};
use pq_session::{Memory, ScriptFault};
use std::alloc::Global;
use std::io::{Read, Write};
use std::marker::Brand;
use std::sync::{Mutex, Wait};
use std::thread;
use std::thread::{JoinHandle, Scope, Threads};
use std::time::{Clock, Duration};

/// The receipts that may wait for the writer.
const RECEIPTS: usize = 32;

/// The requests about all files that may wait for the surveyor.
const SURVEYS: usize = 16;

/// How long the replies that are owed at the end of a session are waited for, in milliseconds.
const PATIENCE: u64 = 50;

/// What is known of the end of a session.
#[derive(Clone, Copy, Debug)]
enum End {
    /// It will end so.
    Soon(Result<u8, ScriptFault>),
    /// All threads have ended.
    Whole(Result<u8, ScriptFault>),
}

/// The way on which a thread says that the session is to end.
type Ends = Sender<End>;

/// How a session is set up.
#[derive(Drop)]
pub(crate) struct Setup {
    /// The number of workers, from 1 to 32.
    pub(crate) workers: u8,
    /// The roots that the command line names, as it writes them.
    pub(crate) roots: Vec<String>,
    /// Whether these are all roots but the last.
    pub(crate) only_roots: bool,
    /// The folder that is the last root, if there is one.
    pub(crate) include: Option<String>,
    /// Where the session says what it passes over.
    pub(crate) lines: Lines,
    /// The lines that it said, for the log of the editor.
    pub(crate) said: Receiver<String>,
}

/// Serves one editor from `input` to `output`. Braces are read: a text with an error has the
/// definitions that they show. Each work passes `gate` before it is carried out.
///
/// Returns the status with which the session ended. What is owed to the client at its end is waited for
/// 50 milliseconds; then threads may still run, and the program is to end. `Memory` also says that a
/// thread could not be started.
pub(crate) fn serve_editor<R, I, W, G>(
    rt: &R,
    alloc: Global,
    input: I,
    output: W,
    setup: Setup,
    gate: G,
) -> Result<u8, ScriptFault>
where
    R: Threads + Wait + Clock + Disk + AllocGlobal + Copy + Drop + Send + Sync + 'static,
    I: Read + Drop + Send + 'static,
    W: Write + Copy + Drop + Send + Sync + 'static,
    G: Gate<HallRules<Loose>> + Copy + Drop + Send + Sync + 'static,
{
    let (ends, ended) = crossbeam_channel::bounded(alloc, 8)?;
    let host = *rt;
    match thread::spawn(
        rt,
        move || serve_beside(&host, alloc, input, output, setup, &gate, ends),
    ) {
        Ok(_) => {}
        Err(_) => return Err(ScriptFault::Memory),
    }
    let Ok(first) = ended.recv(rt) else {
        return Err(ScriptFault::Memory);
    };
    Ok(last_of(rt, ended, first)?)
}

/// How the session ended, of which `first` is known: what `ended` says within the time of patience, else
/// `first`.
fn last_of<R: Wait + Clock>(rt: &R, ended: Receiver<End>, first: End) -> Result<u8, ScriptFault> {
    let soon = match first {
        End::Whole(outcome) => return outcome,
        End::Soon(outcome) => outcome,
    };
    for _ in 0..8 {
        match ended.recv_timeout(rt, Duration::from_millis(PATIENCE)) {
            Ok(End::Whole(outcome)) => return outcome,
            Ok(End::Soon(_)) => {}
            Err(_) => return soon,
        }
    }
    soon
}

/// Serves the editor, and says on `ends` how it ended.
fn serve_beside<R, I, W, G>(
    rt: &R,
    alloc: Global,
    input: I,
    output: W,
    setup: Setup,
    gate: &G,
    ends: Ends,
)
where
    R: Threads + Wait + Clock + Disk + AllocGlobal + Copy + Drop + Send + Sync + 'static,
    I: Read + Drop,
    W: Write + Copy + Send + Sync,
    G: Gate<HallRules<Loose>> + Sync,
{
    let outcome = serve_all(rt, alloc, input, output, setup, gate, &ends);
    let _ = ends.send(rt, End::Whole(outcome));
}

/// Serves the editor over a hall of its own.
fn serve_all<R, I, W, G>(
    rt: &R,
    alloc: Global,
    input: I,
    output: W,
    setup: Setup,
    gate: &G,
    ends: &Ends,
) -> Result<u8, ScriptFault>
where
    R: Threads + Wait + Clock + Disk + AllocGlobal + Copy + Drop + Send + Sync + 'static,
    I: Read + Drop,
    W: Write + Copy + Send + Sync,
    G: Gate<HallRules<Loose>> + Sync,
{
    let inputs = Inputs::with_limit(alloc, MOST_FILES)?;
    match NewBoard::new(alloc) {
        Ok(board) => serve_in::<HallRules<Loose>, Brand, R, I, W, G>(
            rt,
            alloc,
            HallRules::new(),
            board,
            inputs,
            input,
            output,
            setup,
            gate,
            ends,
        ),
        Err(_) => Err(ScriptFault::Memory),
    }
}

/// Serves over a hall of `rules` whose marks are those of `board`, which `J` names.
fn serve_in<S, J, R, I, W, G>(
    rt: &R,
    alloc: Global,
    rules: S,
    board: NewBoard,
    inputs: Inputs,
    input: I,
    output: W,
    setup: Setup,
    gate: &G,
    ends: &Ends,
) -> Result<u8, ScriptFault>
where
    S: Texts + OneValue + Send + Sync + 'static,
    S::Key: Send + Sync,
    S::Value: Send + Sync,
    S::Part: Send,
    J: BoardName + Send + Sync + 'static,
    R: Threads + Wait + Clock + Disk + AllocGlobal + Copy + Drop + Send + Sync + 'static,
    I: Read + Drop,
    W: Write + Copy + Send + Sync,
    G: Gate<S> + Sync,
    requires { board ≡ J.vector }
{
    let made: Result<Hall<S, J, R>, _> = Hall::new(rt, alloc, rules, board, inputs);
    match made {
        Ok(hall) => run(rt, alloc, &hall, input, output, setup, gate, ends),
        Err(_) => Err(ScriptFault::Memory),
    }
}

/// Starts the workers, serves the session, and ends the workers.
fn run<F, R, I, W, G>(
    rt: &R,
    alloc: Global,
    floor: &F,
    input: I,
    output: W,
    setup: Setup,
    gate: &G,
    ends: &Ends,
) -> Result<u8, ScriptFault>
where
    F: Floor<R> + Works<G, R>,
    R: Threads + Wait + Clock + Disk + AllocGlobal + Copy + Drop + Send + Sync + 'static,
    I: Read + Drop,
    W: Write + Copy + Send + Sync,
    G: Sync,
{
    let workers = setup.workers;
    thread::scope(thread::scope_env(), rt, move |scope| {
        let mut has_all = true;
        for _ in 0..workers {
            if scope.spawn(move || floor.work_with(rt, gate)).is_err() {
                has_all = false;
            }
        }
        let outcome = if has_all {
            run_clients(rt, alloc, floor, input, output, setup, ends)
        } else {
            Err(ScriptFault::Memory)
        };
        floor.shut(rt);
        outcome
    })
}

/// Serves the session over three clients of the hall: the editor, the pusher and the surveyor. All are
/// closed when it returns, but where an allocation failed before the threads were started: then the end of the hall ends
/// them.
fn run_clients<F, R, I, W>(
    rt: &R,
    alloc: Global,
    floor: &F,
    input: I,
    output: W,
    setup: Setup,
    ends: &Ends,
) -> Result<u8, ScriptFault>
where
    F: Floor<R>,
    R: Threads + Wait + Clock + Disk + AllocGlobal + Copy + Drop + Send + Sync + 'static,
    I: Read + Drop,
    W: Write + Copy + Send + Sync,
{
    let roots = roots_of(rt, alloc, &setup)?;
    let Setup { lines, said, .. } = setup;
    let output = Output::new(alloc, output);
    let rounds = Rounds::new();
    let files = Mutex::new(Files::new(alloc));
    let Ok((editor, editor_ends)) = floor.join(rt) else {
        return Err(ScriptFault::Memory);
    };
    let Ok((pushing, pushing_ends)) = floor.join(rt) else {
        floor.close(rt, editor);
        return Err(ScriptFault::Memory);
    };
    let Ok((surveying, surveying_ends)) = floor.join(rt) else {
        floor.close(rt, editor);
        floor.close(rt, pushing);
        return Err(ScriptFault::Memory);
    };
    let (line, take) = Line::new(rt, floor, editor, editor_ends);
    let (pushing_line, pushing_take) = Line::new(rt, floor, pushing, pushing_ends);
    let (surveying_line, surveying_take) = Line::new(rt, floor, surveying, surveying_ends);
    let (receipts, owed) = crossbeam_channel::bounded(alloc, RECEIPTS)?;
    let (bell, bell_heard) = crossbeam_channel::bounded(alloc, 1)?;
    let (calls, calls_heard) = crossbeam_channel::bounded(alloc, 1)?;
    let (walks, walks_heard) = crossbeam_channel::bounded(alloc, 1)?;
    let (surveys, surveys_heard) = crossbeam_channel::bounded(alloc, SURVEYS)?;
    let (log, log_heard) = crossbeam_channel::bounded(alloc, 1)?;
    let ways = Ways {
        receipts,
        bell,
        calls,
        walks,
        surveys,
        log,
    };
    let heard = Heard {
        take,
        owed,
        pushing_line,
        pushing_take,
        bell: bell_heard,
        surveying_line,
        surveying_take,
        surveys: surveys_heard,
        calls: calls_heard,
        lines: lines.copy()?,
        walks: walks_heard,
        walking_lines: lines.copy()?,
        log: log_heard,
        said,
    };
    let desk = Desk::new(
        rt, alloc, line, ways, &rounds, &output, &files, lines, roots,
    )?;
    let desk = Mutex::new(desk);
    let clients = Clients {
        editor,
        pushing,
        surveying,
    };
    run_threads(
        rt, alloc, floor, clients, &desk, heard, &rounds, &output, &files, input, ends,
    )
}

/// The roots of the command line that `setup` has.
fn roots_of<D: Disk>(disk: &D, alloc: Global, setup: &Setup) -> Result<Roots, Memory> {
    let mut roots = Roots::new(alloc, setup.only_roots);
    for face in &setup.roots {
        roots.add_given(place_of(disk, alloc, face.as_str())?)?;
    }
    if let Some(include) = &setup.include {
        roots.set_last(place_of(disk, alloc, include.as_str())?);
    }
    Ok(roots)
}

/// The clients of a session.
#[derive(Clone, Copy)]
struct Clients {
    editor: Client,
    pushing: Client,
    surveying: Client,
}

/// What the threads beside the reader get.
#[derive(Drop)]
struct Heard<'a, F: Floor<H>, H> {
    /// For the writer.
    take: F::Take,
    owed: Receiver<F::Receipt>,
    /// For the pusher.
    pushing_line: Line<'a, F, H>,
    pushing_take: F::Take,
    bell: Receiver<()>,
    /// For the surveyor.
    surveying_line: Line<'a, F, H>,
    surveying_take: F::Take,
    surveys: Receiver<Survey>,
    /// For the looker.
    calls: Receiver<()>,
    lines: Lines,
    /// For the walker.
    walks: Receiver<Walk>,
    walking_lines: Lines,
    /// For the logger.
    log: Receiver<()>,
    said: Receiver<String>,
}

/// Runs the threads of the session. Returns when they have ended.
fn run_threads<F, R, I, W>(
    rt: &R,
    alloc: Global,
    floor: &F,
    clients: Clients,
    desk: &Mutex<Desk<'_, F, R, W>>,
    heard: Heard<'_, F, R>,
    rounds: &Rounds,
    output: &Output<W>,
    files: &Mutex<Files>,
    input: I,
    ends: &Ends,
) -> Result<u8, ScriptFault>
where
    F: Floor<R>,
    R: Threads + Wait + Clock + Disk + AllocGlobal + Copy + Drop + Send + Sync + 'static,
    I: Read + Drop,
    W: Write + Copy + Send + Sync,
{
    thread::scope(thread::scope_env(), rt, move |scope| {
        run_in(
            scope, rt, alloc, floor, clients, desk, heard, rounds, output, files, input, ends,
        )
    })
}

/// Runs the threads of the session: it reads on this thread. Replies, lists, looks at the disk, walks,
/// surveys and the log have six others of `scope`.
fn run_in<'s, 'b: 's, E, F, R, I, W>(
    scope: &Scope<'s, E>,
    rt: &'s R,
    alloc: Global,
    floor: &'s F,
    clients: Clients,
    desk: &'s Mutex<Desk<'b, F, R, W>>,
    heard: Heard<'s, F, R>,
    rounds: &'s Rounds,
    output: &'s Output<W>,
    files: &'s Mutex<Files>,
    input: I,
    ends: &'s Ends,
) -> Result<u8, ScriptFault>
where
    F: Floor<R>,
    F::Post: 's,
    F::Porter: 's,
    F::Take: 's,
    F::Receipt: 's,
    R: Threads + Wait + Clock + Disk + AllocGlobal + Copy + Drop + Send + Sync + 'static,
    I: Read + Drop,
    W: Write + Copy + Send + Sync + 's,
{
    let Clients {
        editor,
        pushing,
        surveying,
    } = clients;
    let Heard {
        take,
        owed,
        pushing_line,
        pushing_take,
        bell,
        surveying_line,
        surveying_take,
        surveys,
        calls,
        lines,
        walks,
        walking_lines,
        log,
        said,
    } = heard;
    let writes = scope
        .spawn(move || {
            let written = write_all_replies(rt, alloc, floor, editor, take, owed, files, output);
            warned(rt, ends, written)
        })
        .ok();
    let pushes = scope
        .spawn(move || {
            let pushed = push_all(
                rt,
                alloc,
                floor,
                editor,
                pushing_line,
                pushing_take,
                rounds,
                output,
                files,
                bell,
            );
            warned(rt, ends, pushed)
        })
        .ok();
    let looks = scope
        .spawn(move || {
            let looked = look_all(rt, alloc, desk, files, lines, calls);
            warned(rt, ends, looked)
        })
        .ok();
    let walked = scope
        .spawn(move || {
            let walked = walk_all(rt, alloc, desk, walking_lines, walks);
            warned(rt, ends, walked)
        })
        .ok();
    let surveyed = scope
        .spawn(move || {
            let surveyed = survey_all(
                rt,
                alloc,
                floor,
                desk,
                files,
                surveying_line,
                surveying_take,
                surveys,
            );
            warned(rt, ends, surveyed)
        })
        .ok();
    let logged = scope
        .spawn(move || {
            let logged = log_all(rt, alloc, log, said, output);
            warned(rt, ends, logged)
        })
        .ok();
    let has_all = writes.is_some()
        && pushes.is_some()
        && looks.is_some()
        && walked.is_some()
        && surveyed.is_some()
        && logged.is_some();
    let read = if has_all {
        read_all_messages(rt, desk, input)
    } else {
        Err(ScriptFault::Memory)
    };
    let _ = ends.try_send(rt, End::Soon(status_of(read)));
    desk.lock(rt).end();
    floor.close(rt, pushing);
    floor.close(rt, surveying);
    let written = outcome_of(rt, writes);
    floor.close(rt, editor);
    let pushed = outcome_of(rt, pushes);
    let looked = outcome_of(rt, looks);
    let walked = outcome_of(rt, walked);
    let surveyed = outcome_of(rt, surveyed);
    let logged = outcome_of(rt, logged);
    written?;
    pushed?;
    looked?;
    walked?;
    surveyed?;
    logged?;
    status_of(read)
}

/// What the thread of `handle` came to. It is `Memory` if it could not be started.
fn outcome_of<R: Threads>(
    rt: &R,
    handle: Option<JoinHandle<Result<(), ScriptFault>>>,
) -> Result<(), ScriptFault> {
    match handle {
        Some(handle) => handle.join(rt),
        None => Err(ScriptFault::Memory),
    }
}

/// What a thread came to: an error is said on `ends`, since the reader may wait for its input.
fn warned<R: Wait>(rt: &R, ends: &Ends, done: Result<(), ScriptFault>) -> Result<(), ScriptFault> {
    if let Err(fault) = done {
        let _ = ends.try_send(rt, End::Soon(Err(fault)));
    }
    done
}

/// How a session ended whose reader came to `read`. A session that another thread ended without an error
/// was out of memory.
fn status_of(read: Result<Option<u8>, ScriptFault>) -> Result<u8, ScriptFault> {
    match read? {
        Some(status) => Ok(status),
        None => Err(ScriptFault::Memory),
    }
}
