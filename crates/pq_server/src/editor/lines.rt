//! Lines on standard error that nobody has to read.
//!
//! A thread of its own writes them, so that no other thread waits where nobody reads. A line for which
//! there is no room is dropped. Why a file on the disk was passed over is said again only where the reason
//! is another one. Each line that is written goes to the log of the editor, too, by the `logger`.
use crate::library::Failure;
use crossbeam_channel::{Receiver, Sender};
use pq_session::Memory;
use std::alloc::Global;
use std::collections::BTreeMap;
use std::sync::Wait;
use std::thread;
use std::thread::Threads;
use std::time::{Clock, Duration};

/// The lines that may wait to be written, and those that may wait for the log.
const ROOM: usize = 256;

/// What is in front of each line, and not in the log.
const PROGRAM: &str = "pq_server: ";

/// The most bytes of a line, without its end.
const LONGEST: usize = 1000;

/// How long the program waits at its end for the lines, in milliseconds.
const PATIENCE: u64 = 50;

/// What is sent to the thread that writes.
#[derive(Drop)]
enum Said {
    /// A line, with its end.
    Line(String),
    /// A line, with its end, that is not said where it is the last that was said under its key.
    News { key: String, line: String },
    /// No line goes to the log any more.
    EndLog,
    /// Something waits for all lines before this.
    Flush(Sender<()>),
}

/// The way to the thread that writes lines. Copies lead to the same thread.
#[derive(Drop)]
pub(crate) struct Lines {
    alloc: Global,
    sender: Sender<Said>,
}

/// The way to the log of the editor.
#[derive(Drop)]
struct Log {
    alloc: Global,
    /// It is there until the end of the log.
    sender: Option<Sender<String>>,
}

impl Log {
    /// Puts the text of `line` into the log. Without room or memory for it, it is dropped.
    fn put<R: Wait>(&self, rt: &R, line: &str) {
        let Some(sender) = &self.sender else {
            return;
        };
        if let Ok(text) = String::from_str(self.alloc, text_of(line)) {
            let _ = sender.try_send(rt, text);
        }
    }

    /// Ends the log: its reader takes what was put into it, and then finds the end.
    fn end(&mut self) {
        self.sender = None;
    }
}

impl Lines {
    /// Starts the thread that writes lines. Returns the way to it, and what goes to the log of the editor:
    /// the text of each line that is written, without its end and without the name of the program in
    /// front. `Memory` also says that the thread could not be started.
    pub(crate) fn start<R>(rt: &R) -> Result<(Lines, Receiver<String>), Memory>
    where
        R: Threads + Wait + Eprint + AllocGlobal + Copy + Drop + Send + Sync + 'static,
    {
        let alloc = rt.alloc();
        let (sender, receiver) = crossbeam_channel::bounded(alloc, ROOM)?;
        let (log, heard) = crossbeam_channel::bounded(alloc, ROOM)?;
        let log = Log {
            alloc,
            sender: Some(log),
        };
        let host = *rt;
        match thread::spawn(rt, move || write_lines(&host, receiver, log)) {
            Ok(_) => Ok((Lines { alloc, sender }, heard)),
            Err(_) => Err(Memory),
        }
    }

    /// Another way to the same thread.
    pub(crate) fn copy(&self) -> Result<Lines, Memory> {
        Ok(Lines {
            alloc: self.alloc,
            sender: self.sender.clone()?,
        })
    }

    /// Says of the document at `path` what failed: `pq_server: PATH: REASON`. An allocation failure has no
    /// line here: the line of the whole program says it.
    pub(crate) fn say_failure<H: Wait>(&self, rt: &H, path: &str, failure: &Failure) {
        if failure.is_memory() {
            return;
        }
        if let Ok(line) = line_of(self.alloc, path, failure) {
            self.say(rt, line.as_str());
        }
    }

    /// Says why the file or folder at `path` was passed over, unless this was said of it last.
    pub(crate) fn say_passed_over<H: Wait>(&self, rt: &H, path: &str, failure: &Failure) {
        if failure.is_memory() {
            return;
        }
        if let Ok(line) = line_of(self.alloc, path, failure) {
            self.say_once(rt, path, line.as_str());
        }
    }

    /// Says `line`, cleaned, unless it was said under `key` last. A line for which there is no room or no
    /// memory is dropped.
    pub(crate) fn say_once<H: Wait>(&self, rt: &H, key: &str, line: &str) {
        if let Ok(said) = news_of(self.alloc, key, line) {
            let _ = self.sender.try_send(rt, said);
        }
    }

    /// Says `line`, cleaned. A line for which there is no room or no memory is dropped.
    pub(crate) fn say<H: Wait>(&self, rt: &H, line: &str) {
        if let Ok(line) = cleaned(self.alloc, line) {
            let _ = self.sender.try_send(rt, Said::Line(line));
        }
    }

    /// Ends the log of the editor. The lines before this go to it.
    pub(crate) fn end_log<H: Wait>(&self, rt: &H) {
        let _ = self.sender.try_send(rt, Said::EndLog);
    }

    /// Waits until the lines are written, and not for long.
    pub(crate) fn finish<H: Wait + Clock>(&self, rt: &H) {
        let Ok((done, heard)) = crossbeam_channel::bounded(self.alloc, 1) else {
            return;
        };
        if self.sender.try_send(rt, Said::Flush(done)).is_ok() {
            let _: Result<(), _> = heard.recv_timeout(rt, Duration::from_millis(PATIENCE));
        }
    }
}

/// The line of what failed at `path`.
fn line_of(alloc: Global, path: &str, failure: &Failure) -> Result<String, Memory> {
    format!(in alloc; "pq_server: {path}: {failure}")
}

/// `line`, cleaned, under `key`.
fn news_of(alloc: Global, key: &str, line: &str) -> Result<Said, Memory> {
    Ok(Said::News {
        key: String::from_str(alloc, key)?,
        line: cleaned(alloc, line)?,
    })
}

/// `line` with an end, with a question mark in the place of each control character, and cut after
/// `LONGEST` bytes.
fn cleaned(alloc: Global, line: &str) -> Result<String, Memory> {
    let mut text = String::new(alloc);
    for letter in line.chars() {
        if text.len() + letter.len_utf8() > LONGEST {
            break;
        }
        text.push(if letter.is_control() { '?' } else { letter })?;
    }
    text.push('\n')?;
    Ok(text)
}

/// The text of `line`, without its end and without the name of the program in front.
fn text_of(line: &str) -> &str {
    let line = line.trim_end_matches('\n');
    match line.strip_prefix(PROGRAM) {
        Some(text) => text,
        None => line,
    }
}

/// Writes the lines that come, and puts them into `log`, until nobody can say one any more.
fn write_lines<R: Wait + Eprint + AllocGlobal>(rt: &R, receiver: Receiver<Said>, log: Log) {
    let mut log = log;
    let mut last = BTreeMap::new(rt.alloc());
    for _ in rt.forever() {
        match receiver.recv(rt) {
            Ok(Said::Line(line)) => write_line(rt, &log, line.as_str()),
            Ok(Said::News { key, line }) => write_news(rt, &log, &mut last, key, line),
            Ok(Said::EndLog) => log.end(),
            Ok(Said::Flush(done)) => {
                let _ = done.try_send(rt, ());
            }
            Err(_) => return,
        }
    }
}

/// Puts `line` into `log`, and writes it. The write comes last: it waits where nobody reads.
fn write_line<R: Wait + Eprint>(rt: &R, log: &Log, line: &str) {
    log.put(rt, line);
    let _ = eprint!(rt; "{line}");
}

/// Writes `line`, unless `last` has it under `key`, and puts it there.
fn write_news<R: Wait + Eprint>(
    rt: &R,
    log: &Log,
    last: &mut BTreeMap<String, String>,
    key: String,
    line: String,
) {
    if let Some(before) = last.get(key.as_str()) {
        if *before == line {
            return;
        }
    }
    write_line(rt, log, line.as_str());
    let _ = last.insert(key, line);
}
