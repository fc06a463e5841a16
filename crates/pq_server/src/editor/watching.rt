//! The paths that a session has read or looked for, and what a look at the disk finds new of them.
//!
//! A look asks for the times of each watched path. A path where no file is is watched, too. Which files
//! are to be read again is a question of `pq_view::Looks`.
use crate::editor::disk::Disk;
use crate::editor::fetching::each_once;
use pq_session::Memory;
use pq_view::{Looks, Stamp, Text};
use std::alloc::Global;
use std::collections::BTreeSet;
use std::mem;

/// A path as it was when it was read.
#[derive(Drop)]
pub(crate) struct Watched {
    pub(crate) path: Text,
    /// What the file system told before the file was read. `None` where no file is.
    pub(crate) stamp: Option<Stamp>,
    /// The second of the clock before that.
    pub(crate) now: i64,
}

/// The watched paths, and what was seen of them last.
#[derive(Drop)]
pub(crate) struct Watch {
    alloc: Global,
    paths: BTreeSet<Text>,
    /// The files that were there.
    files: Looks,
    /// The paths that were added since the last look.
    added: BTreeSet<Text>,
    /// Paths that the next look returns, whatever it sees.
    again: Vec<Text>,
}

impl Watch {
    /// A watch of no path.
    pub(crate) fn new(alloc: Global) -> Watch {
        Watch {
            alloc,
            paths: BTreeSet::new(alloc),
            files: Looks::new(alloc),
            added: BTreeSet::new(alloc),
            again: Vec::new(alloc),
        }
    }

    /// Watches the path of `watched` from now on. A path that is watched counts as seen so.
    pub(crate) fn add(&mut self, watched: Watched) -> Result<(), Memory> {
        let Watched { path, stamp, now } = watched;
        match stamp {
            Some(stamp) => self.files.see(path.as_str(), stamp, now)?,
            None => self.lose(&path)?,
        }
        self.added.insert(path.copy()?)?;
        self.paths.insert(path)?;
        Ok(())
    }

    /// No file was at `path`. Where the last look saw one, a later file may have its times, as after a
    /// folder could not be entered for a while: so the path is returned by the next look.
    fn lose(&mut self, path: &Text) -> Result<(), Memory> {
        if self.files.stamp(path.as_str()).is_some() {
            self.again.push(path.copy()?)?;
        }
        Ok(())
    }

    /// Watches each path of `list`, as `add` does.
    pub(crate) fn add_all(&mut self, list: Vec<Watched>) -> Result<(), Memory> {
        for watched in list {
            self.add(watched)?;
        }
        Ok(())
    }

    /// Whether `path` was added since the last look.
    pub(crate) fn is_added(&self, path: &Text) -> bool {
        self.added.contains(path)
    }

    /// Asks for the times of each watched path. Returns those that are new, changed or gone since they
    /// were seen last, each once, in byte order.
    pub(crate) fn look<D: Disk>(&mut self, disk: &D) -> Result<Vec<Text>, Memory> {
        let seen = self.seen(disk)?;
        let mut news = seen.news(&self.files)?;
        let mut again = mem::replace(&mut self.again, Vec::new(self.alloc));
        news.append(&mut again)?;
        self.files = seen;
        self.added.clear();
        each_once(news)
    }

    /// The files that are at the watched paths now.
    fn seen<D: Disk>(&self, disk: &D) -> Result<Looks, Memory> {
        let now = disk.seconds();
        let mut seen = Looks::new(self.alloc);
        for path in self.paths.iter() {
            if let Some(stamp) = disk.file_at(path.as_str()) {
                seen.see(path.as_str(), stamp, now)?;
            }
        }
        Ok(seen)
    }
}
