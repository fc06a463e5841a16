//! What a session asks of the disk.
//!
//! The threads see the disk through a trait that has no types of its own: what a closure hands to a
//! thread may rest on no bound that has some, as `Files` has.
use crate::library::{Failure, is_folder, joined};
use pq_inputs::MAX_TEXT;
use pq_view::Stamp;
use std::alloc::Global;
use std::fs::{Metadata, OpenFile};
use std::io::{ErrorKind, Read};
use std::os::unix::fs::MetadataExt;
use std::rt::{Clock, Env, Files};
use std::time::{CpuClock, Duration, SystemTime};
use std::{fs, io, path};

/// What a folder has, but for what a name hides that begins with a dot.
#[derive(Drop)]
pub(crate) struct Listing {
    /// The paths of the files whose names end in `.proto`, and of links to such files, in byte order.
    pub(crate) files: Vec<String>,
    /// The paths of the folders, in byte order. A link to a folder is none.
    pub(crate) folders: Vec<String>,
    /// Why an entry was passed over, if one was: the first.
    pub(crate) failure: Option<Failure>,
}

/// A disk with files and folders.
pub(crate) trait Disk {
    /// The path `path` with all links followed, from the root of the file system on, without `.`, `..`
    /// and doubled slashes. `None` if nothing is there.
    fn real_path(&self, path: &str) -> Option<String>;

    /// The folder `path` as a whole path, without `.` and doubled slashes, and without `..`.
    fn whole_path(&self, path: &str) -> Option<String>;

    /// What the file system tells of the file at `path`, or of the file to which a link leads from
    /// there. `None` if no file is there.
    fn file_at(&self, path: &str) -> Option<Stamp>;

    /// What the folder `path` has.
    fn list(&self, path: &str) -> Result<Listing, Failure>;

    /// The text of the file at `path`, where `file_at` has found one. `None` if it is gone since. It waits
    /// where a pipe has taken its place.
    fn text_at(&self, path: &str) -> Result<Option<String>, Failure>;

    /// The seconds since 1970, by the clock of the system.
    fn seconds(&self) -> i64;

    /// The time that a processor has worked for this thread. It is none if the system does not tell it.
    fn work(&self) -> Duration;
}

impl<R: Files + Env + Clock + CpuClock + AllocGlobal + Clone + Drop> Disk for R {
    fn real_path(&self, path: &str) -> Option<String> {
        match fs::canonicalize(self, path) {
            Ok(path) => Some(path.into_string()),
            Err(_) => None,
        }
    }

    fn whole_path(&self, path: &str) -> Option<String> {
        if path.split('/').any(|part| part == "..") {
            return self.real_path(path);
        }
        match path::absolute(self, path) {
            Ok(path) => Some(path.into_string()),
            Err(_) => None,
        }
    }

    fn file_at(&self, path: &str) -> Option<Stamp> {
        match fs::metadata(self, path) {
            Ok(metadata) if metadata.is_file() => Some(stamp_of(&metadata)),
            _ => None,
        }
    }

    fn list(&self, path: &str) -> Result<Listing, Failure> {
        listing_of(self, path)
    }

    fn text_at(&self, path: &str) -> Result<Option<String>, Failure> {
        match text_of(self, path) {
            // It was deleted since.
            Err(Failure::System(error)) if error.kind() == ErrorKind::NotFound => Ok(None),
            read => read,
        }
    }

    fn seconds(&self) -> i64 {
        match SystemTime::now(self) {
            Ok(now) => seconds_of(now),
            Err(_) => 0,
        }
    }

    fn work(&self) -> Duration {
        self.thread_cpu_time().unwrap_or(Duration::ZERO)
    }
}

/// The seconds from 1970 to `now`.
fn seconds_of(now: SystemTime) -> i64 {
    match now.duration_since(SystemTime::UNIX_EPOCH) {
        Ok(since) => i64::try_from(since.as_secs()).unwrap_or(i64::MAX),
        Err(_) => 0,
    }
}

/// What `metadata` tells.
fn stamp_of(metadata: &Metadata) -> Stamp {
    Stamp {
        device: metadata.dev(),
        inode: metadata.ino(),
        size: metadata.size(),
        modified_seconds: metadata.mtime(),
        modified_nanos: metadata.mtime_nsec(),
        changed_seconds: metadata.ctime(),
        changed_nanos: metadata.ctime_nsec(),
    }
}

/// What the folder `path` has. An entry that cannot be looked at is passed over.
fn listing_of<R: Files + AllocGlobal + Clone + Drop>(
    rt: &R,
    path: &str,
) -> Result<Listing, Failure> {
    let alloc = rt.alloc();
    let mut listing = Listing {
        files: Vec::new(alloc),
        folders: Vec::new(alloc),
        failure: None,
    };
    let base = joined(alloc, path, "/")?;
    for entry in fs::read_dir(rt, path)? {
        match entry {
            Ok(entry) => add_entry(rt, &mut listing, base.as_str(), entry.file_name())?,
            Err(error) => listing.pass_over(Failure::of_entry(error)),
        }
    }
    listing.files.sort()?;
    listing.folders.sort()?;
    Ok(listing)
}

/// Adds the entry `name` to `listing`, what the folder has that `base` names with its slash.
fn add_entry<R: Files + AllocGlobal>(
    rt: &R,
    listing: &mut Listing,
    base: &str,
    name: &str,
) -> Result<(), Failure> {
    if name.starts_with('.') {
        return Ok(());
    }
    let path = joined(rt.alloc(), base, name)?;
    match is_folder(rt, path.as_str()) {
        Ok(true) => listing.folders.push(path)?,
        Ok(false) => {
            if name.ends_with(".proto") && is_file(rt, path.as_str()) {
                listing.files.push(path)?;
            }
        }
        Err(error) => listing.pass_over(Failure::System(error)),
    }
    Ok(())
}

/// Whether a file is at `path`, or a link leads to one from there.
fn is_file<R: Files>(rt: &R, path: &str) -> bool {
    match fs::metadata(rt, path) {
        Ok(metadata) => metadata.is_file(),
        Err(_) => false,
    }
}

impl Listing {
    /// Keeps `failure`, if it is the first.
    fn pass_over(&mut self, failure: Failure) {
        if self.failure.is_none() {
            self.failure = Some(failure);
        }
    }
}

/// The text of the file at `path`. `None` if something else is there, once it was opened.
fn text_of<R: Files + AllocGlobal>(rt: &R, path: &str) -> Result<Option<String>, Failure> {
    let mut bytes = Vec::new(rt.alloc());
    let file = fs::open(rt, path)?;
    if !file.metadata()?.is_file() {
        return Ok(None);
    }
    let mut file = file.take(MAX_TEXT as u64 + 1);
    file.read_to_end(&mut bytes)?;
    if bytes.len() > MAX_TEXT {
        return Err(Failure::TextTooLong);
    }
    match String::from_utf8(bytes) {
        Ok(text) => Ok(Some(text)),
        Err(_) => Err(Failure::TextNotUtf8),
    }
}
