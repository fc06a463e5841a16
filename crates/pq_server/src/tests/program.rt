//! The program: its exit statuses, its lines of standard error, and its command lines.
use super::support::{check_row_count, check_text, frames, split_row};
use crate::command::{Task, task_of};
use crate::library::{LibraryFault, read_library, run_library_script};
use crate::status::{COMMAND_LINE, line_of, not_started, refused, run_script, status_of, unread};
use clap::error;
use pq_frame::FrameFault;
use pq_inputs::InputFault;
use pq_proto::ProtoRules;
use pq_session::{Counted, Memory, ScriptFault};
use std::alloc::Global;
use std::io;
use std::io::{Read, Write};
use std::process::Abort;
use std::test::Fail;

const INITIALIZE: &str = r#"{"id":0,"jsonrpc":"2.0","method":"initialize"}"#;

const SHUTDOWN: &str = r#"{"id":1,"jsonrpc":"2.0","method":"shutdown"}"#;

const EXIT: &str = r#"{"jsonrpc":"2.0","method":"exit"}"#;

/// A notification that opens a file with a number for a text.
const UNREADABLE: &str =
    r#"{"jsonrpc":"2.0","method":"textDocument/didOpen","params":{"textDocument":{"uri":"file:///a","text":1}}}"#;

/// A notification that changes a range of a file that was not opened.
const BAD_RANGE: &str =
    r#"{"jsonrpc":"2.0","method":"textDocument/didChange","params":{"textDocument":{"uri":"file:///a"},"contentChanges":[{"range":{"start":{"line":0,"character":0},"end":{"line":0,"character":0}},"text":""}]}}"#;

/// A notification that opens the file `name` with a text of `length` spaces.
fn open_of(alloc: Global, name: &str, length: usize) -> Result<String, Memory> {
    let spaces = " ".repeat(alloc, length)?;
    format!(in alloc;
        r#"{{"jsonrpc":"2.0","method":"textDocument/didOpen","params":{{"textDocument":{{"uri":"file:///{name}","text":"{spaces}"}}}}}}"#
    )
}

/// A reader and a writer that fail at each call.
#[derive(Drop)]
struct Broken;

impl Read for Broken {
    fn read(&mut self, _buf: &mut [u8]) -> io::Result<usize> {
        Err(io::Error::from(io::ErrorKind::BrokenPipe))
    }
}

impl Write for Broken {
    fn write(&mut self, _buf: &[u8]) -> io::Result<usize> {
        Err(io::Error::from(io::ErrorKind::BrokenPipe))
    }

    fn flush(&mut self) -> io::Result<()> {
        Err(io::Error::from(io::ErrorKind::BrokenPipe))
    }
}

/// A status and a line, without its line feed, as text.
fn shown_end(alloc: Global, status: u8, line: &[u8]) -> Result<String, Memory> {
    let line = String::from_utf8_lossy(alloc, line)?;
    format!(in alloc; "{status} {}", line.as_str().trim_end())
}

/// Runs a script: its status, and its line, as text.
fn shown_run<R: Read + Drop, W: Write + Drop>(
    alloc: Global,
    reader: R,
    writer: W,
) -> Result<String, Memory> {
    let mut reader = Counted::new(reader);
    let mut writer = Counted::new(writer);
    let mut line = Vec::new(alloc);
    let mut errors = Counted::new(&mut line);
    let status = run_script(alloc, &mut reader, &mut writer, &mut errors);
    shown_end(alloc, status, line.as_slice())
}

/// Checks that a script over `input` ends with the status and the line `want`.
fn check_end(rt: &(impl Abort + AllocGlobal), input: &[u8], want: &str) -> Result<(), Fail> {
    let output = Vec::new(rt.alloc());
    let found = shown_run(rt.alloc(), input, output)?;
    check_text(rt, found.as_str(), want, want);
    Ok(())
}

/// Checks that a script over the frames of `bodies` ends with the status and the line `want`.
fn check_bodies(rt: &(impl Abort + AllocGlobal), bodies: &[&str], want: &str) -> Result<(), Fail> {
    let input = frames(rt.alloc(), bodies)?;
    check_end(rt, input.as_slice(), want)
}

#[test]
fn statuses_of_sessions(rt: HostRuntime) -> Result<(), Fail> {
    check_bodies(&rt, &[INITIALIZE, SHUTDOWN, EXIT], "0 ")?;
    check_bodies(&rt, &[INITIALIZE, EXIT], "1 ")?;
    check_bodies(&rt, &[], "1 ")?;
    check_bodies(
        &rt,
        &[INITIALIZE, UNREADABLE],
        "3 pq_server: edit refused 0",
    )?;
    check_bodies(&rt, &[INITIALIZE, BAD_RANGE], "3 pq_server: bad range")?;
    let long = open_of(rt.alloc(), "a", 1_048_577)?;
    check_bodies(
        &rt,
        &[INITIALIZE, long.as_str()],
        "3 pq_server: edit refused 1",
    )
}

// `|` is CR LF.
#[test]
fn statuses_of_frames(rt: HostRuntime) -> Result<(), Fail> {
    let rows = "\
        | => 2 pq_server: frame fault 2\n\
        Content-Length: x|| => 2 pq_server: frame fault 3\n\
        Content-Length: 16777217|| => 2 pq_server: frame fault 4\n\
        Content-Length: 10||{} => 2 pq_server: input ends inside a frame\n\
        ";
    check_row_count(&rt, 4, rows);
    for row in rows.lines() {
        let (input, want) = split_row(&rt, row, " => ");
        let input = input.replace(rt.alloc(), "|", "\r\n")?;
        check_end(&rt, input.as_bytes(), want)?;
    }
    let long = "x".repeat(rt.alloc(), 4096)?;
    check_end(&rt, long.as_bytes(), "2 pq_server: frame fault 1")
}

/// Frames that initialize, and then open `count` files of no bytes, named by their numbers.
fn opened_files(alloc: Global, count: usize) -> Result<Vec<u8>, Memory> {
    let mut input = frames(alloc, &[INITIALIZE])?;
    for number in 0..count {
        let name = format!(in alloc; "{number}")?;
        let opened = open_of(alloc, name.as_str(), 0)?;
        input.extend_from_slice(&frames(alloc, &[opened.as_str()])?)?;
    }
    Ok(input)
}

#[test]
fn one_file_too_many(rt: HostRuntime) -> Result<(), Fail> {
    let input = opened_files(rt.alloc(), 4096)?;
    check_end(&rt, input.as_slice(), "1 ")?;
    let input = opened_files(rt.alloc(), 4097)?;
    check_end(&rt, input.as_slice(), "3 pq_server: edit refused 2")
}

/// A request of the diagnostics of the file `a`.
const DIAGNOSTIC: &str =
    r#"{"id":1,"jsonrpc":"2.0","method":"textDocument/diagnostic","params":{"textDocument":{"uri":"file:///a"}}}"#;

/// Frames that initialize, open the file `a` with one text `count` times, and ask for its
/// diagnostics.
fn opened_often(alloc: Global, count: usize) -> Result<Vec<u8>, Memory> {
    let mut input = frames(alloc, &[INITIALIZE])?;
    let opened = open_of(alloc, "a", 0)?;
    let opened = frames(alloc, &[opened.as_str()])?;
    for _ in 0..count {
        input.extend_from_slice(&opened)?;
    }
    input.extend_from_slice(&frames(alloc, &[DIAGNOSTIC])?)?;
    Ok(input)
}

// An edit makes a revision, also past 65,536.
#[test]
fn many_revisions(rt: HostRuntime) -> Result<(), Fail> {
    let input = opened_often(rt.alloc(), 65_537)?;
    let mut output = Vec::new(rt.alloc());
    let found = shown_run(rt.alloc(), input.as_slice(), &mut output)?;
    check_text(&rt, found.as_str(), "1 ", "the end of the script");
    let written = String::from_utf8_lossy(rt.alloc(), output.as_slice())?;
    let is_named = written.as_str().ends_with("\"resultId\":\"65537\"}}");
    assert!(rt; is_named, "the revision of the diagnostics");
    Ok(())
}

#[test]
fn devices_that_fail(rt: HostRuntime) -> Result<(), Fail> {
    let alloc = rt.alloc();
    let found = shown_run(alloc, Broken, Vec::new(alloc))?;
    check_text(&rt, found.as_str(), "4 pq_server: read failed", "a read");
    let input = frames(alloc, &[INITIALIZE])?;
    let found = shown_run(alloc, input.as_slice(), Broken)?;
    check_text(&rt, found.as_str(), "4 pq_server: write failed", "a write");
    Ok(())
}

// The status is that of the failed read.
#[test]
fn a_line_that_cannot_be_written(rt: HostRuntime) {
    let mut reader = Counted::new(Broken);
    let mut writer = Counted::new(Broken);
    let mut errors = Counted::new(Broken);
    let status = run_script(rt.alloc(), &mut reader, &mut writer, &mut errors);
    assert_eq!(rt; status, 4);
}

/// Checks the status and the line of an outcome that no test can bring about.
fn check_outcome(
    rt: &(impl Abort + AllocGlobal),
    fault: ScriptFault,
    want: &str,
) -> Result<(), Fail> {
    let outcome = Err(fault);
    let line = line_of(outcome).as_bytes();
    let found = shown_end(rt.alloc(), status_of(outcome), line)?;
    check_text(rt, found.as_str(), want, want);
    Ok(())
}

#[test]
fn outcomes_out_of_reach(rt: HostRuntime) -> Result<(), Fail> {
    let starved = "5 pq_server: out of memory";
    check_outcome(&rt, ScriptFault::Memory, starved)?;
    check_outcome(&rt, ScriptFault::Frame(FrameFault::Memory), starved)?;
    check_outcome(&rt, ScriptFault::Edit(InputFault::Memory), starved)?;
    let used_up = ScriptFault::Edit(InputFault::RevisionsUsedUp);
    check_outcome(&rt, used_up, "3 pq_server: edit refused 3")?;
    check_outcome(&rt, ScriptFault::TooManyReads, "4 pq_server: read failed")
}

/// What is written of a task that reads braces or not.
fn loose_word(loose: bool) -> &'static str {
    if loose {
        return " loose";
    }
    ""
}

/// What the command line `words`, which are separated by blanks, asks for, as text: `refused` if
/// `clap` refuses it.
fn shown_words(alloc: Global, words: &str) -> Result<String, Memory> {
    let mut given = Vec::new(alloc);
    for word in words.split_whitespace() {
        given.push(String::from_str(alloc, word)?)?;
    }
    match task_of(given.as_slice(), alloc) {
        Ok(Task::Script { library, loose }) => {
            let library = library.unwrap_or("-");
            let loose = loose_word(loose);
            format!(in alloc; "script {library}{loose}")
        }
        Ok(
            Task::Listen {
                port,
                workers,
                library,
                sessions,
                loose,
            },
        ) => {
            let library = library.unwrap_or("-");
            let sessions = sessions.unwrap_or(0);
            let loose = loose_word(loose);
            format!(in alloc; "listen {port} {workers} {library} {sessions}{loose}")
        }
        Ok(
            Task::Stdio {
                workers,
                roots,
                only_roots,
                no_include,
            },
        ) => {
            let count = roots.len();
            let first = roots.first().copied().unwrap_or("-");
            format!(in alloc; "stdio {workers} {count} {first} {only_roots} {no_include}")
        }
        Err(_) => String::from_str(alloc, "refused"),
    }
}

/// Checks rows `WORDS => TASK`.
fn check_words(rt: &(impl Abort + AllocGlobal), count: usize, rows: &str) -> Result<(), Fail> {
    check_row_count(rt, count, rows);
    for row in rows.lines() {
        let (words, want) = split_row(rt, row, " => ");
        let found = shown_words(rt.alloc(), words)?;
        check_text(rt, found.as_str(), want, row);
    }
    Ok(())
}

#[test]
fn command_lines(rt: HostRuntime) -> Result<(), Fail> {
    assert_eq!(rt; COMMAND_LINE, 64);
    check_words(
        &rt,
        11,
        "\
        pq_server => refused\n\
        pq_server --help => refused\n\
        pq_server script more => refused\n\
        pq_server --lib a script => refused\n\
        pq_server script --lib => refused\n\
        pq_server script --lib a --lib b => refused\n\
        pq_server script => script -\n\
        pq_server script --lib a/b => script a/b\n\
        pq_server script --lib=a/b => script a/b\n\
        pq_server script --loose --lib a => script a loose\n\
        pq_server script --loose --loose => refused\
        ",
    )
}

// `-` is no library, and 0 no number of sessions.
#[test]
fn command_lines_of_listen(rt: HostRuntime) -> Result<(), Fail> {
    check_words(
        &rt,
        15,
        "\
        pq_server listen => refused\n\
        pq_server listen --port 1 => refused\n\
        pq_server listen --workers 1 => refused\n\
        pq_server listen --port 65536 --workers 1 => refused\n\
        pq_server listen --port -1 --workers 1 => refused\n\
        pq_server listen --port a --workers 1 => refused\n\
        pq_server listen --port 1 --workers 0 => refused\n\
        pq_server listen --port 1 --workers 33 => refused\n\
        pq_server listen --port 1 --workers 1 --sessions 0 => refused\n\
        pq_server listen --port 1 --workers 1 --sessions 4294967296 => refused\n\
        pq_server listen --port 0 --workers 1 => listen 0 1 - 0\n\
        pq_server listen --port 65535 --workers 32 => listen 65535 32 - 0\n\
        pq_server listen --port 1 --workers 2 --lib a/b --sessions 1 => listen 1 2 a/b 1\n\
        pq_server listen --sessions 4294967295 --workers=2 --port=1 => listen 1 2 - 4294967295\n\
        pq_server listen --port 1 --workers 2 --loose => listen 1 2 - 0 loose\
        ",
    )
}

// The number of the roots, the first, whether no others are searched, and whether the folder that comes
// with the program is left out.
#[test]
fn command_lines_of_stdio(rt: HostRuntime) -> Result<(), Fail> {
    check_words(
        &rt,
        9,
        "\
        pq_server stdio => stdio 4 0 - false false\n\
        pq_server stdio --stdio --workers 32 => stdio 32 0 - false false\n\
        pq_server stdio --workers 33 => refused\n\
        pq_server stdio --root a/b --root=c => stdio 4 2 a/b false false\n\
        pq_server stdio --root => refused\n\
        pq_server stdio --only-roots => stdio 4 0 - true false\n\
        pq_server stdio --no-include --root a => stdio 4 1 a false true\n\
        pq_server stdio --only-roots --no-include => stdio 4 0 - true true\n\
        pq_server stdio --only-roots=a => refused\
        ",
    )
}

/// Checks the status and the line if a library was not taken.
fn check_not_started(
    rt: &(impl Abort + AllocGlobal),
    fault: LibraryFault,
    want: &str,
) -> Result<(), Fail> {
    let (status, line) = not_started(fault);
    let found = shown_end(rt.alloc(), status, line.as_bytes())?;
    check_text(rt, found.as_str(), want, want);
    Ok(())
}

#[test]
fn libraries_that_are_not_taken(rt: HostRuntime) -> Result<(), Fail> {
    check_not_started(&rt, LibraryFault::Unreadable, "4 pq_server: start failed")?;
    check_not_started(&rt, LibraryFault::Memory, "5 pq_server: out of memory")?;
    let mut reader = Counted::new(Broken);
    let mut writer = Counted::new(Broken);
    let mut line = Vec::new(rt.alloc());
    let mut errors = Counted::new(&mut line);
    let library = read_library(&rt, "");
    let status = run_library_script(
        rt.alloc(),
        ProtoRules { loose: false },
        library,
        &mut reader,
        &mut writer,
        &mut errors,
    );
    assert_eq!(rt; reader.reads(), 0);
    let found = shown_end(rt.alloc(), status, line.as_slice())?;
    check_text(
        &rt,
        found.as_str(),
        "4 pq_server: start failed",
        "a library",
    );
    Ok(())
}

/// Checks the status and the line if the words could not be read for `kind`.
fn check_unread(
    rt: &(impl Abort + AllocGlobal),
    kind: io::ErrorKind,
    want: &str,
) -> Result<(), Fail> {
    let (status, line) = unread(kind);
    let found = shown_end(rt.alloc(), status, line.as_bytes())?;
    check_text(rt, found.as_str(), want, want);
    Ok(())
}

#[test]
fn words_that_are_not_utf_8(rt: HostRuntime) -> Result<(), Fail> {
    let kind = io::ErrorKind::InvalidData;
    check_unread(&rt, kind, "64 pq_server: the command line is not UTF-8")?;
    check_unread(
        &rt,
        io::ErrorKind::OutOfMemory,
        "5 pq_server: out of memory",
    )
}

/// Checks the status and the line if `clap` refused the words by an error of `kind`. A dash is the
/// text of that error.
fn check_refused(
    rt: &(impl Abort + AllocGlobal),
    kind: error::ErrorKind,
    want: &str,
) -> Result<(), Fail> {
    let (status, line) = refused(kind);
    let found = shown_end(rt.alloc(), status, line.unwrap_or("-").as_bytes())?;
    check_text(rt, found.as_str(), want, want);
    Ok(())
}

#[test]
fn words_that_are_refused(rt: HostRuntime) -> Result<(), Fail> {
    let memory = error::ErrorKind::OutOfMemory;
    check_refused(&rt, memory, "5 pq_server: out of memory")?;
    check_refused(&rt, error::ErrorKind::UnknownArgument, "64 -")?;
    check_refused(&rt, error::ErrorKind::DisplayHelp, "64 -")
}
