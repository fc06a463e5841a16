//! pq_server: a compile server for proto3 that speaks the Language Server Protocol.
//! Here are the words of the command line, the library that they may name, the standard streams, and
//! the port.
//! `command` reads the words, `library` reads the library before the first message, `serving` serves
//! many clients over TCP, `editor` serves one editor with what editors need beside the protocol, and
//! `status` maps the outcome of a script to the exit status and the line of standard error.
#![tactic(auto)]

mod command;
mod editor;
mod library;
mod serving;
mod status;
#[cfg(test)]
mod tests;

use clap::Error;
use command::{Task, task_of};
use editor::{Disk, Lines, Setup, serve_editor};
use library::{
    Failure, LibraryFault, absolute_of, last_root, no_library, read_library, run_library_script,
    say,
};
use log::Log;
use pq_hall::{HallRules, Loose, Strict};
use pq_proto::ProtoRules;
use pq_session::Counted;
use serving::{OpenGate, Size, serve};
use status::{
    START_FAILED, line_of, not_started, refused, run_script, served, status_of, unannounced, unread,
};
use std::io::{Read, Write};
use std::net::{Ipv4Addr, Net, SocketAddr, TcpListener, TcpStream};
use std::process::ExitCode;
use std::rt::{Clock, Env, Files};
use std::sync::Wait;
use std::thread::Threads;
use std::{env, io};

/// The words of the command line, from the program's name on; `InvalidData` if one is not UTF-8.
fn words(rt: &(impl Env + AllocGlobal)) -> io::Result<Vec<String>> {
    Ok(env::args(rt)?.collect(rt.alloc())?)
}

/// Serves one client on the standard streams, and reads braces if `loose` is true. Returns the exit
/// status.
fn run_on_streams(rt: HostRuntime, library: Option<&str>, loose: bool) -> u8 {
    let alloc = rt.alloc();
    let rules = ProtoRules { loose };
    let mut input = Counted::new(rt.stdin());
    let mut output = Counted::new(rt.stdout());
    let mut errors = Counted::new(rt.stderr());
    let library = match library {
        None if !loose => return run_script(alloc, &mut input, &mut output, &mut errors),
        None => no_library(alloc),
        Some(dir) => read_library(&rt, dir),
    };
    run_library_script(alloc, rules, library, &mut input, &mut output, &mut errors)
}

/// A listener on `address`, and the address that it has: for the port 0 the system chooses one.
fn listener_on<R>(rt: &R, address: SocketAddr) -> io::Result<(TcpListener, SocketAddr)>
where
    R: Net<Listener = TcpListener, Stream = TcpStream>,
{
    let listener = TcpListener::bind(rt, address)?;
    let address = listener.local_addr()?;
    Ok((listener, address))
}

/// Serves many clients on a port of 127.0.0.1, and reads braces if `loose` is true. Returns the exit
/// status and the line of standard error.
///
/// The line of the port is written before the library is read, and the library is read before the
/// first connection is accepted. A port that fails leaves a line on standard error that says why.
fn run_on_port<R>(
    rt: &R,
    port: u16,
    dir: Option<&str>,
    size: Size,
    loose: bool,
) -> (u8, &'static str)
where
    R: Net<Listener = TcpListener, Stream = TcpStream> + Files + Env + Print + Eprint + AllocGlobal,
    R: Threads + Wait + Clock + Log + Copy + Drop + Send + Sync + 'static,
{
    let address = SocketAddr::from((Ipv4Addr::LOCALHOST, port));
    let (listener, address) = match listener_on(rt, address) {
        Ok(bound) => bound,
        Err(error) => {
            let _ = eprintln!(rt; "pq_server: {address}: {error}");
            return served(START_FAILED);
        }
    };
    if println!(rt; "listening on {address}").is_err() {
        return unannounced();
    }
    let library = match dir {
        None => no_library(rt.alloc()),
        Some(dir) => read_library(rt, dir),
    };
    // Without this path, sessions with another root leave no line.
    let folder = dir.and_then(|dir| absolute_of(rt, dir).ok());
    let folder = folder.as_ref().map(|folder| folder.as_str());
    let status = if loose {
        let rules = HallRules::<Loose>::new();
        serve(
            rt,
            rt.alloc(),
            rules,
            listener,
            library,
            folder,
            size,
            &OpenGate,
        )
    } else {
        let rules = HallRules::<Strict>::new();
        serve(
            rt,
            rt.alloc(),
            rules,
            listener,
            library,
            folder,
            size,
            &OpenGate,
        )
    };
    served(status)
}

/// The folders, as whole paths. If one is not known, a line says why.
fn roots_of<R: Env + Files + AllocGlobal + Eprint>(
    rt: &R,
    folders: &[&str],
) -> Result<Vec<String>, LibraryFault> {
    let mut roots = Vec::new(rt.alloc());
    for folder in folders {
        match absolute_of(rt, folder) {
            Ok(path) => roots.push(path)?,
            Err(error) => {
                let failure = Failure::System(error);
                say(rt, folder, &failure);
                return Err(failure.fault());
            }
        }
    }
    Ok(roots)
}

/// How the session of an editor is set up, with the root folders `folders`. If one is not known, a line
/// says why. With `only_roots` no other folder is searched but the one that comes with the program, which
/// `no_include` leaves out.
fn setup_of<R>(
    rt: &R,
    workers: u8,
    folders: &[&str],
    only_roots: bool,
    no_include: bool,
) -> Result<Setup, LibraryFault>
where
    R: Threads
        + Wait
        + Env
        + Files
        + Disk
        + Eprint
        + AllocGlobal
        + Copy
        + Drop
        + Send
        + Sync
        + 'static,
{
    let roots = roots_of(rt, folders)?;
    let include = if no_include { None } else { last_root(rt)? };
    let (lines, said) = Lines::start(rt)?;
    Ok(Setup {
        workers,
        roots,
        only_roots,
        include,
        lines,
        said,
    })
}

/// Says on standard error why no session was started. Returns the exit status.
fn say_not_started(rt: &impl Eprint, fault: LibraryFault) -> u8 {
    let (status, line) = not_started(fault);
    let _ = eprint!(rt; "{line}");
    status
}

/// Serves one editor from `input` to `output`, as `setup` says. Its lines say how it ended. Returns the
/// exit status.
fn run_for_editor<R, I, W>(rt: &R, input: I, output: W, setup: Result<Setup, LibraryFault>) -> u8
where
    R: Threads + Wait + Clock + Disk + Eprint + AllocGlobal + Copy + Drop + Send + Sync + 'static,
    I: Read + Drop + Send + 'static,
    W: Write + Copy + Drop + Send + Sync + 'static,
{
    let setup = match setup {
        Ok(setup) => setup,
        Err(fault) => return say_not_started(rt, fault),
    };
    match setup.lines.copy() {
        Ok(lines) => serve_with(rt, input, output, setup, lines),
        Err(_) => say_not_started(rt, LibraryFault::Memory),
    }
}

/// Serves one editor, and says on `lines` how it ended. Returns the exit status.
fn serve_with<R, I, W>(rt: &R, input: I, output: W, setup: Setup, lines: Lines) -> u8
where
    R: Threads + Wait + Clock + Disk + AllocGlobal + Copy + Drop + Send + Sync + 'static,
    I: Read + Drop + Send + 'static,
    W: Write + Copy + Drop + Send + Sync + 'static,
{
    let outcome = serve_editor(rt, rt.alloc(), input, output, setup, OpenGate);
    let line = line_of(outcome).trim_end();
    if !line.is_empty() {
        lines.say(rt, line);
    }
    lines.finish(rt);
    status_of(outcome)
}

/// Says on standard error why `clap` refuses the words of the command line. Returns the exit status.
fn say_refused(rt: &impl Eprint, error: &Error) -> u8 {
    let (status, line) = refused(error.kind());
    let _ = match line {
        Some(line) => eprint!(rt; "{line}"),
        None => eprint!(rt; "{error}"),
    };
    status
}

/// Runs the command line. A failed write to standard error is ignored, since the status says it.
fn main(rt: HostRuntime) -> ExitCode {
    let alloc = rt.alloc();
    let words = match words(&rt) {
        Ok(words) => words,
        Err(error) => {
            let (status, line) = unread(error.kind());
            let _ = eprint!(rt; "{line}");
            return ExitCode::from(status);
        }
    };
    let task = match task_of(words.as_slice(), alloc) {
        Ok(task) => task,
        Err(error) => {
            return ExitCode::from(say_refused(&rt, &error));
        }
    };
    let status = match task {
        Task::Script { library, loose } => run_on_streams(rt, library, loose),
        Task::Listen {
            port,
            workers,
            library,
            sessions,
            loose,
        } => {
            let size = Size { workers, sessions };
            let (status, line) = run_on_port(&rt, port, library, size, loose);
            let _ = eprint!(rt; "{line}");
            status
        }
        Task::Stdio {
            workers,
            roots,
            only_roots,
            no_include,
        } => {
            let setup = setup_of(&rt, workers, roots.as_slice(), only_roots, no_include);
            run_for_editor(&rt, rt.stdin(), rt.stdout(), setup)
        }
    };
    ExitCode::from(status)
}
