//! The command line. Its subcommands are `script`, `listen` and `stdio`.
use clap::{Arg, ArgAction, ArgMatches, Command, Error, value_parser};
use std::alloc::Global;

/// The workers of `stdio`, if the command line does not say how many.
const STDIO_WORKERS: u8 = 4;

/// What the command line asks for.
#[derive(Drop)]
pub(crate) enum Task<'a> {
    /// One client on the standard streams.
    Script {
        /// The folder of the library, if there is one.
        library: Option<&'a str>,
        /// Whether braces are read.
        loose: bool,
    },
    /// Many clients, each on its own connection.
    Listen {
        /// The port of 127.0.0.1. The system chooses one for 0.
        port: u16,
        /// The number of workers, from 1 to 32.
        workers: u8,
        /// The folder of the library, if there is one.
        library: Option<&'a str>,
        /// The number of sessions after which the server ends, at least 1. `None` if it does not end.
        sessions: Option<u32>,
        /// Whether braces are read.
        loose: bool,
    },
    /// One editor on the standard streams.
    Stdio {
        /// The number of workers, from 1 to 32.
        workers: u8,
        /// The root folders. They come before those that the editor names.
        roots: Vec<&'a str>,
        /// Whether no other folder is searched, but for the one that comes with the program.
        only_roots: bool,
        /// Whether the folder that comes with the program is left out.
        no_include: bool,
    },
}

/// The option that names the folder of a library.
fn library<'a>(alloc: Global) -> Arg<'a> {
    Arg::new(alloc, "lib")
        .long("lib")
        .value_name("DIR")
        .help("reads the .proto files under DIR before the first frame, so that imports find them")
        .action(ArgAction::Set)
}

/// The option that has braces read.
fn loose<'a>(alloc: Global) -> Arg<'a> {
    Arg::new(alloc, "loose")
        .long("loose")
        .help("shows the definitions of files with an error, and of other versions, as stdio does")
        .action(ArgAction::SetTrue)
}

/// The subcommand `script`, as `clap` describes it.
fn script<'a>(alloc: Global) -> Result<Command<'a>, Error> {
    let script = Command::new(alloc, "script")
        .about("answers the frames of standard input on standard output")
        .arg(library(alloc))?
        .arg(loose(alloc))?;
    Ok(script)
}

/// The subcommand `listen`, as `clap` describes it.
fn listen<'a>(alloc: Global) -> Result<Command<'a>, Error> {
    let port = Arg::new(alloc, "port")
        .long("port")
        .value_name("N")
        .help("the port of 127.0.0.1 to listen on, or 0 for one that the system chooses")
        .required(true)
        .value_parser(value_parser!(u16));
    let workers = Arg::new(alloc, "workers")
        .long("workers")
        .value_name("N")
        .help("the number of threads that compile, from 1 to 32")
        .required(true)
        .value_parser(value_parser!(u8).range(1..=32));
    let sessions = Arg::new(alloc, "sessions")
        .long("sessions")
        .value_name("N")
        .help("ends when N sessions have ended")
        .value_parser(value_parser!(u32).range(1..=4_294_967_295));
    let listen = Command::new(alloc, "listen")
        .about("answers the frames of many connections")
        .arg(port)?
        .arg(workers)?
        .arg(library(alloc))?
        .arg(sessions)?
        .arg(loose(alloc))?;
    Ok(listen)
}

/// The subcommand `stdio`, as `clap` describes it.
fn stdio<'a>(alloc: Global) -> Result<Command<'a>, Error> {
    let workers = Arg::new(alloc, "workers")
        .long("workers")
        .value_name("N")
        .help("the number of threads that compile, from 1 to 32; 4 if it is not given")
        .value_parser(value_parser!(u8).range(1..=32));
    let root = Arg::new(alloc, "root")
        .long("root")
        .value_name("DIR")
        .help(
            "a folder from which imports are written, as -I of protoc; it may be given several times",
        )
        .action(ArgAction::Append);
    let only_roots = Arg::new(alloc, "only-roots")
        .long("only-roots")
        .help("searches the folders of --root alone: none of the editor, none that imports show")
        .action(ArgAction::SetTrue);
    let no_include = Arg::new(alloc, "no-include")
        .long("no-include")
        .help("leaves out the folder with google/protobuf that comes with the program")
        .action(ArgAction::SetTrue);
    let stdio = Arg::new(alloc, "stdio")
        .long("stdio")
        .help("changes nothing: some editors give it to each server")
        .action(ArgAction::SetTrue);
    let command = Command::new(alloc, "stdio")
        .about("serves one editor on the standard streams, and pushes diagnostics")
        .arg(workers)?
        .arg(root)?
        .arg(only_roots)?
        .arg(no_include)?
        .arg(stdio)?;
    Ok(command)
}

/// The command line of the program, as `clap` describes it.
fn command<'a>(alloc: Global) -> Result<Command<'a>, Error> {
    let whole = Command::new(alloc, "pq_server")
        .about("a compile server for proto3")
        .subcommand_required(true)
        .subcommand(script(alloc)?)?
        .subcommand(listen(alloc)?)?
        .subcommand(stdio(alloc)?)?;
    Ok(whole)
}

/// The task that the options of `listen` name. `clap` has seen that the port and the workers are
/// there and are in their ranges.
fn listen_task<'a>(given: &ArgMatches<'a>) -> Task<'a> {
    Task::Listen {
        port: given.get_one("port").unwrap_or(0),
        workers: given.get_one("workers").unwrap_or(1),
        library: given.get_str("lib"),
        sessions: given.get_one("sessions"),
        loose: given.get_flag("loose"),
    }
}

/// The task that the options of `stdio` name.
fn stdio_task<'a>(alloc: Global, given: &ArgMatches<'a>) -> Result<Task<'a>, Error> {
    let mut roots = Vec::new(alloc);
    if let Some(names) = given.get_strs("root") {
        roots.extend_from_slice(names)?;
    }
    Ok(Task::Stdio {
        workers: given.get_one("workers").unwrap_or(STDIO_WORKERS),
        roots,
        only_roots: given.get_flag("only-roots"),
        no_include: given.get_flag("no-include"),
    })
}

/// The task that the command line `words` names. The first word is the program's name.
///
/// The error of `clap` says that `words` is not a command line of the program, or asks for help.
pub(crate) fn task_of<'a>(words: &'a [String], alloc: Global) -> Result<Task<'a>, Error> {
    let matches = command(alloc)?.try_get_matches_from(words)?;
    match matches.subcommand() {
        Some(("listen", given)) => Ok(listen_task(given)),
        Some(("stdio", given)) => stdio_task(alloc, given),
        Some((_, given)) => Ok(Task::Script {
            library: given.get_str("lib"),
            loose: given.get_flag("loose"),
        }),
        None => Ok(Task::Script {
            library: None,
            loose: false,
        }),
    }
}
