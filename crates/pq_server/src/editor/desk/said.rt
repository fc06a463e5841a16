//! What the user and the client are told beside replies and lists: roots that imports show, files that
//! are not read, progress, and requests to the client.
use crate::editor::desk::Desk;
use crate::editor::disk::Disk;
use crate::serving::floor::Floor;
use pq_editor::{
    BEGIN_PROGRESS_REQUEST, FileFault, Kind, REFRESH, progress_begun, progress_ended, show_message,
};
use pq_session::{Memory, ScriptFault, WATCH_FILES};
use std::alloc::Global;
use std::io::Write;
use std::sync::Wait;
use std::thread::Threads;
use std::time::Clock;

/// How far the progress of the first walk is shown.
#[derive(Clone, Copy, PartialEq, Eq)]
enum Progress {
    /// It is not shown.
    Hidden,
    /// The client was asked whether it is shown.
    Asked,
    /// It is shown.
    Shown,
}

/// What was said once, and is not said again.
#[derive(Clone, Copy)]
pub(super) struct Said {
    too_long: bool,
    not_utf8: bool,
    too_many: bool,
    progress: Progress,
}

impl Said {
    /// Nothing was said.
    pub(super) fn new() -> Said {
        Said {
            too_long: false,
            not_utf8: false,
            too_many: false,
            progress: Progress::Hidden,
        }
    }

    /// Whether the user was told of too many files.
    pub(super) fn is_full(&self) -> bool {
        self.too_many
    }

    /// Whether the user was not told of `fault`. The user is told then.
    fn is_first(&mut self, fault: FileFault) -> bool {
        match fault {
            FileFault::TooLong => {
                let is_first = !self.too_long;
                self.too_long = true;
                is_first
            }
            FileFault::NotUtf8 => {
                let is_first = !self.not_utf8;
                self.not_utf8 = true;
                is_first
            }
            FileFault::TooMany => {
                let is_first = !self.too_many;
                self.too_many = true;
                is_first
            }
        }
    }
}

impl<F, H, W> Desk<'_, F, H, W>
where
    F: Floor<H>,
    H: Threads + Wait + Clock + Disk + AllocGlobal + Copy + Drop + Send + Sync + 'static,
    W: Write + Copy,
{
    /// Says that imports are looked for below `root` from now on, where the file `name` was found.
    pub(super) fn say_found(&self, root: &str, name: &str) {
        if let Ok(line) = found_line(self.alloc, root, name) {
            self.lines.say(self.rt, line.as_str());
        }
    }

    /// Tells the user that the file at `path` is not read. Of one kind of fault it is told once.
    pub(super) fn tell_of(&mut self, path: &str, fault: FileFault) -> Result<(), ScriptFault> {
        if !self.said.is_first(fault) {
            return Ok(());
        }
        let text = fault_line(self.alloc, path, fault)?;
        let body = show_message(self.alloc, Kind::Warning, text.as_str())?;
        self.output.send_list(self.rt, body.as_str())
    }

    /// Asks the client whether it shows the progress of the walk, if it said that it can.
    pub(super) fn ask_for_progress(&mut self) -> Result<(), ScriptFault> {
        let is_hidden = self.said.progress == Progress::Hidden;
        if !self.takes.progress || !self.takes.is_ready || !is_hidden {
            return Ok(());
        }
        self.said.progress = Progress::Asked;
        self.unanswered = self.unanswered.saturating_add(1);
        self.output.send_list(self.rt, BEGIN_PROGRESS_REQUEST)
    }

    /// Shows that the walk has begun, once the client has answered, if it is still under way.
    pub(super) fn go_on_with_progress(&mut self) -> Result<(), ScriptFault> {
        if self.said.progress != Progress::Asked || self.unanswered > 0 {
            return Ok(());
        }
        if !self.search.is_walking() {
            self.said.progress = Progress::Hidden;
            return Ok(());
        }
        self.said.progress = Progress::Shown;
        let body = progress_begun(self.alloc, "pq_server: looking for .proto files")?;
        self.output.send_list(self.rt, body.as_str())
    }

    /// Shows that the walk has ended, if it was shown that it has begun.
    pub(super) fn end_progress(&mut self) -> Result<(), ScriptFault> {
        if self.said.progress != Progress::Shown {
            return Ok(());
        }
        self.said.progress = Progress::Hidden;
        let body = progress_ended(self.alloc)?;
        self.output.send_list(self.rt, body.as_str())
    }

    /// Asks the client for what is due: to watch files, and to ask again for all diagnostics. It is asked
    /// the second only where it has answered all requests before.
    pub(super) fn ask_client(&mut self) -> Result<(), ScriptFault> {
        if !self.takes.is_ready {
            return Ok(());
        }
        if self.takes.watch {
            self.takes.watch = false;
            self.unanswered = self.unanswered.saturating_add(1);
            self.output.send(self.rt, WATCH_FILES)?;
        }
        if !self.is_refresh_due || !self.takes.refresh || self.unanswered > 0 {
            return Ok(());
        }
        self.is_refresh_due = false;
        self.unanswered = 1;
        self.output.send_list(self.rt, REFRESH)
    }
}

/// The line that says that imports are looked for below `root`.
fn found_line(alloc: Global, root: &str, name: &str) -> Result<String, Memory> {
    format!(in alloc; "pq_server: imports are looked for in {root}/ too, which has {name}")
}

/// What the user is told of the file at `path` that is not read.
fn fault_line(alloc: Global, path: &str, fault: FileFault) -> Result<String, Memory> {
    let message = fault.message();
    format!(in alloc; "{path}: {message}")
}
