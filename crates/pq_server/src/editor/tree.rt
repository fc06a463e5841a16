//! The `.proto` files below folders, found by a walk within limits.
//!
//! The walk goes over all folders level by level, so that a limit cuts off what lies deepest. It lists
//! each folder once. Links to folders are not followed, and what a name hides that begins with a dot is
//! passed over. Of N folders and files it takes N log N comparisons.
use crate::editor::disk::{Disk, Listing};
use crate::editor::lines::Lines;
use crate::library::Failure;
use pq_session::Memory;
use pq_view::Text;
use std::alloc::Global;
use std::collections::BTreeSet;
use std::mem;
use std::sync::Wait;
use std::time::{Clock, Duration, Instant};

/// The most folders on the way from a top to a file.
const MAX_DEPTH: usize = 32;

/// The most files that a walk returns.
const MOST_FILES: usize = 65_536;

/// The most folders that a walk lists.
const MOST_FOLDERS: usize = 65_536;

/// How long a walk takes at most, in seconds, but for the folder that it lists then.
const MOST_SECONDS: u64 = 10;

/// What a walk found.
#[derive(Drop)]
pub(crate) struct Tree {
    /// The paths of the files whose names end in `.proto`, in the order of the walk: level by level.
    pub(crate) paths: Vec<Text>,
    /// Whether no limit was met. A folder that cannot be listed is no limit.
    pub(crate) is_whole: bool,
}

/// A walk that is under way.
#[derive(Drop)]
struct Found {
    alloc: Global,
    paths: Vec<Text>,
    /// The folders that were or are to be listed.
    folders: BTreeSet<String>,
    /// Those of the next level.
    deeper: Vec<String>,
    is_whole: bool,
}

/// The files below the folders `tops`, which have all links followed. What cannot be listed leaves a line
/// on `lines`, and a limit that is met leaves one, too. The root of the file system is not walked.
pub(crate) fn walk<D: Disk + Clock + Wait>(
    disk: &D,
    alloc: Global,
    tops: &[Text],
    lines: &Lines,
) -> Result<Tree, Memory> {
    let start = Instant::now(disk).ok();
    let mut found = Found::new(alloc);
    for top in tops {
        found.add_folder(top.as_str())?;
    }
    for _ in 0..=MAX_DEPTH {
        walk_level(disk, lines, start, &mut found)?;
    }
    let tree = found.end();
    if !tree.is_whole {
        say_cut(disk, lines, tops);
    }
    Ok(tree)
}

/// Lists the folders of the next level of `found`, unless a limit is met.
fn walk_level<D: Disk + Clock + Wait>(
    disk: &D,
    lines: &Lines,
    start: Option<Instant>,
    found: &mut Found,
) -> Result<(), Memory> {
    for folder in found.next_level() {
        if found.is_full() || is_late(disk, start) {
            found.is_whole = false;
            return Ok(());
        }
        list(disk, lines, folder.as_str(), found)?;
    }
    Ok(())
}

/// Whether the time of a walk is over that began at `start`. It is not if the clock cannot be read.
fn is_late<D: Clock>(clock: &D, start: Option<Instant>) -> bool {
    let Some(start) = start else {
        return false;
    };
    match start.elapsed(clock) {
        Ok(passed) => passed >= Duration::from_secs(MOST_SECONDS),
        Err(_) => false,
    }
}

/// Adds what `folder` has to `found`. What cannot be listed leaves a line.
fn list<D: Disk + Wait>(
    disk: &D,
    lines: &Lines,
    folder: &str,
    found: &mut Found,
) -> Result<(), Memory> {
    match disk.list(folder) {
        Ok(listing) => found.add(disk, lines, folder, listing),
        Err(failure) => pass_over(disk, lines, folder, failure),
    }
}

/// Says why what is at `path` is passed over. An allocation failure ends the walk.
fn pass_over<D: Wait>(disk: &D, lines: &Lines, path: &str, failure: Failure) -> Result<(), Memory> {
    if failure.is_memory() {
        return Err(Memory);
    }
    lines.say_passed_over(disk, path, &failure);
    Ok(())
}

/// Says that a limit cut off the walk of `tops`, by the first of them.
fn say_cut<D: Wait>(disk: &D, lines: &Lines, tops: &[Text]) {
    if let Some(top) = tops.first() {
        lines.say_passed_over(disk, top.as_str(), &Failure::WalkCut);
    }
}

impl Found {
    /// A walk that has found nothing.
    fn new(alloc: Global) -> Found {
        Found {
            alloc,
            paths: Vec::new(alloc),
            folders: BTreeSet::new(alloc),
            deeper: Vec::new(alloc),
            is_whole: true,
        }
    }

    /// Whether there is no room for a file.
    fn is_full(&self) -> bool {
        self.paths.len() >= MOST_FILES
    }

    /// The folders of the next level, which are no longer those of it.
    fn next_level(&mut self) -> Vec<String> {
        mem::replace(&mut self.deeper, Vec::new(self.alloc))
    }

    /// Adds `folder` to the next level, if it is new and there is room for it.
    fn add_folder(&mut self, folder: &str) -> Result<(), Memory> {
        if folder.is_empty() || self.folders.contains(folder) {
            return Ok(());
        }
        if self.folders.len() >= MOST_FOLDERS {
            self.is_whole = false;
            return Ok(());
        }
        self.deeper.push(String::from_str(self.alloc, folder)?)?;
        self.folders.insert(String::from_str(self.alloc, folder)?)?;
        Ok(())
    }

    /// Adds `files`, as far as there is room for them.
    fn add_files(&mut self, files: Vec<String>) -> Result<(), Memory> {
        for path in files {
            if self.is_full() {
                self.is_whole = false;
                return Ok(());
            }
            self.paths.push(Text::from_string(self.alloc, path)?)?;
        }
        Ok(())
    }

    /// Adds `listing`, what `folder` has. The first entry that could not be looked at leaves a line.
    fn add<D: Wait>(
        &mut self,
        disk: &D,
        lines: &Lines,
        folder: &str,
        listing: Listing,
    ) -> Result<(), Memory> {
        let Listing {
            files,
            folders,
            failure,
        } = listing;
        self.add_files(files)?;
        for path in &folders {
            self.add_folder(path.as_str())?;
        }
        match failure {
            Some(failure) => pass_over(disk, lines, folder, failure),
            None => Ok(()),
        }
    }

    /// What was found. Folders that are left lie too deep, or came too late.
    fn end(self) -> Tree {
        let Found {
            paths,
            deeper,
            is_whole,
            ..
        } = self;
        Tree {
            paths,
            is_whole: is_whole && deeper.is_empty(),
        }
    }
}
