//! Libraries that are read from folders: which files are found, their names, and their order.
use super::scratch::{make, path_of};
use super::support::{check_row_count, check_text, split_row};
use crate::library::{Failure, LibraryFault, MAX_DEPTH, read_library, say};
use pq_inputs::{Inputs, MAX_FILES, MAX_TEXT};
use std::alloc::{AllocError, Global};
use std::fmt::Display;
use std::process::Abort;
use std::rt::Files;
use std::sync::atomic::{AtomicU32, Ordering};
use std::test::Fail;
use std::{fs, io};

/// What is shown of a library that was not read.
const UNREAD: &str = "the library could not be read";

/// What was read, as text: the number of the files, and for each of `names` the revision at which it
/// was set, or 0. Files are set one a revision, so these numbers are their order.
fn shown(
    alloc: Global,
    read: &Result<Inputs, LibraryFault>,
    names: &str,
) -> Result<String, AllocError> {
    let inputs = match read {
        Ok(inputs) => inputs,
        Err(fault) => return format!(in alloc; "{fault}"),
    };
    let mut text = format!(in alloc; "{}:", inputs.now().number())?;
    for name in names.split_whitespace() {
        let place = format!(in alloc; " {}", inputs.changed_at(name).number())?;
        text.push_str(place.as_str())?;
    }
    Ok(text)
}

/// Checks what is read of the folder `dir`.
fn check_read(
    rt: &(impl Abort + AllocGlobal + Files + Eprint + Clone + Drop),
    dir: &str,
    names: &str,
    want: &str,
) -> Result<(), Fail> {
    let found = shown(rt.alloc(), &read_library(rt, dir), names)?;
    assert_eq!(rt; found.as_str(), want, "{dir}");
    Ok(())
}

/// Checks what is read of the folder `dir` with what `rows` name. The folder is removed afterwards.
fn check(
    rt: &(impl Abort + AllocGlobal + Files + Eprint + Clone + Drop),
    dir: &str,
    rows: &str,
    names: &str,
    want: &str,
) -> Result<(), Fail> {
    make(rt, dir, rows)?;
    check_read(rt, dir, names, want)?;
    fs::remove_dir_all(rt, dir)?;
    Ok(())
}

/// Checks a row `ENTRIES => NAMES => WANT`. The entries are separated by commas.
fn check_row(
    rt: &(impl Abort + AllocGlobal + Files + Eprint + Clone + Drop),
    dir: &str,
    row: &str,
) -> Result<(), Fail> {
    let (entries, reading) = split_row(rt, row, " => ");
    let (names, want) = split_row(rt, reading, " => ");
    let rows = entries.replace(rt.alloc(), ", ", "\n")?;
    check(rt, dir, rows.as_str(), names, want)
}

// What a folder has, some names, and what is read. In byte order `-` is less than `.`, and `.` less
// than `/`. The lock of an editor is a link that leads nowhere.
#[test]
fn folders(rt: HostRuntime) -> Result<(), Fail> {
    let table = "\
        b.proto, a/b.proto, a-b.proto, \u{e9}.proto, a.proto, B.proto => B.proto a-b.proto a.proto a/b.proto b.proto \u{e9}.proto => 6: 1 2 3 4 5 6\n\
        a/notes.txt, a/proto, x.protos, x.PROTO, x.proto => a/notes.txt a/proto x.PROTO x.proto => 1: 0 0 0 1\n\
        c/e.proto, .proto, c/.d.proto, .b/f.proto, .a.proto => .a.proto .b/f.proto .proto c/.d.proto c/e.proto => 5: 1 2 3 4 5\n\
        x.proto/y.proto, x.proto/z => x.proto x.proto/y.proto => 1: 0 1\n\
        a/b.proto, c.proto -> a/b.proto => a/b.proto c.proto => 2: 1 2\n\
        a/b.proto, a/up -> .., c -> a, c.proto -> a => a/b.proto a/up/a/b.proto c/b.proto => 1: 1 0 0\n\
        a.proto, .#a.proto -> user@host, b.proto -> b.proto => a.proto .#a.proto b.proto => 1: 1 0 0\
        ";
    check_row_count(&rt, 7, table);
    let dir = path_of(&rt, rt.process(), "folders")?;
    for row in table.lines() {
        check_row(&rt, dir.as_str(), row)?;
    }
    Ok(())
}

#[test]
fn folders_that_are_too_deep(rt: HostRuntime) -> Result<(), Fail> {
    let dir = path_of(&rt, rt.process(), "deep")?;
    let way = "d/".repeat(rt.alloc(), MAX_DEPTH)?;
    let rows = format!(in rt.alloc(); "{way}in.proto\n{way}d/out.proto")?;
    let names = format!(in rt.alloc(); "{way}in.proto {way}d/out.proto")?;
    check(&rt, dir.as_str(), rows.as_str(), names.as_str(), "1: 1 0")
}

#[test]
fn one_file_too_many(rt: HostRuntime) -> Result<(), Fail> {
    let dir = path_of(&rt, rt.process(), "many")?;
    let mut rows = String::new(rt.alloc());
    for number in 0..MAX_FILES {
        let row = format!(in rt.alloc(); "{number}.proto\n")?;
        rows.push_str(row.as_str())?;
    }
    make(&rt, dir.as_str(), rows.as_str())?;
    check_read(&rt, dir.as_str(), "0.proto 999.proto", "4096: 1 4096")?;
    check(&rt, dir.as_str(), "more.proto", "", UNREAD)
}

/// Checks what is read of the folder `dir` when its file `a.proto` has these bytes.
fn check_bytes(
    rt: &(impl Abort + AllocGlobal + Files + Eprint + Clone + Drop),
    dir: &str,
    bytes: &[u8],
    want: &str,
) -> Result<(), Fail> {
    let path = format!(in rt.alloc(); "{dir}/a.proto")?;
    fs::write(rt, path.as_str(), bytes)?;
    check_read(rt, dir, "a.proto", want)
}

#[test]
fn texts_that_cannot_be_taken(rt: HostRuntime) -> Result<(), Fail> {
    let dir = path_of(&rt, rt.process(), "texts")?;
    make(&rt, dir.as_str(), "a.proto")?;
    check_bytes(&rt, dir.as_str(), b"\xff".as_slice(), UNREAD)?;
    let longest = " ".repeat(rt.alloc(), MAX_TEXT)?;
    check_bytes(&rt, dir.as_str(), longest.as_bytes(), "1: 1")?;
    let longer = " ".repeat(rt.alloc(), MAX_TEXT + 1)?;
    check_bytes(&rt, dir.as_str(), longer.as_bytes(), UNREAD)?;
    fs::remove_dir_all(&rt, dir.as_str())?;
    Ok(())
}

#[test]
fn folders_that_are_not_there(rt: HostRuntime) -> Result<(), Fail> {
    check_read(&rt, "", "", UNREAD)?;
    let dir = path_of(&rt, rt.process(), "there")?;
    check_read(&rt, dir.as_str(), "", UNREAD)?;
    make(&rt, dir.as_str(), "a.txt")?;
    check_read(&rt, dir.as_str(), "", "0:")?;
    let file = format!(in rt.alloc(); "{dir}/a.txt")?;
    check_read(&rt, file.as_str(), "", UNREAD)?;
    fs::remove_dir_all(&rt, dir.as_str())?;
    Ok(())
}

/// A standard error that must get one line, and counts those that it gets.
#[derive(Drop)]
struct OneLine<'a, R> {
    rt: &'a R,
    line: &'a str,
    count: &'a AtomicU32,
}

impl<R: Abort + AllocGlobal> Eprint for OneLine<'_, R> {
    fn eprint<D: Display + Drop>(&self, _value: D) -> io::Result<()> {
        panic!(self.rt; "no line feed")
    }

    fn eprintln<D: Display + Drop>(&self, value: D) -> io::Result<()> {
        let found = format!(in self.rt.alloc(); "{value}").expect(self.rt, "memory");
        check_text(self.rt, found.as_str(), self.line, self.line);
        self.count.fetch_add(1, Ordering::SeqCst);
        Ok(())
    }
}

/// Checks that a failure at `path` leaves `line`, and no line if that is empty.
fn check_line(rt: &(impl Abort + AllocGlobal), path: &str, failure: Failure, line: &str) {
    let count = AtomicU32::new(0);
    let errors = OneLine {
        rt,
        line,
        count: &count,
    };
    say(&errors, path, &failure);
    let wanted = if line.is_empty() { 0 } else { 1 };
    assert_eq!(rt; count.load(Ordering::SeqCst), wanted, "{line}");
}

// The slash of a folder is not shown. 12 is Linux's number of an allocation failure.
#[test]
fn lines_of_failures(rt: HostRuntime) {
    let system = Failure::System(io::Error::from_raw_os_error(2));
    let line = "pq_server: a/b: No such file or directory (os error 2)";
    check_line(&rt, "a/b/", system, line);
    let line = "pq_server: /: a name in this folder is not UTF-8";
    check_line(&rt, "/", Failure::NameNotUtf8, line);
    let line = "pq_server: a.proto: the text is not UTF-8";
    check_line(&rt, "a.proto", Failure::TextNotUtf8, line);
    let line = "pq_server: a.proto: the text has more than 1048576 bytes";
    check_line(&rt, "a.proto", Failure::TextTooLong, line);
    let line = "pq_server: a: there are more than 4096 files whose names end in .proto";
    check_line(&rt, "a/", Failure::TooManyFiles, line);
    let memory = Failure::System(io::Error::from_raw_os_error(12));
    check_line(&rt, "a", memory, "");
}
