//! The names of the files below a folder, level by level.
//!
//! A symbolic link to a file is followed. One to a folder is not, so each folder is listed once.
//! Entries that are neither a folder nor a file are passed over: pipes, and links that lead nowhere.
use crate::library::failure::Failure;
use crate::library::paths::joined;
use crate::library::reading::{Reading, pass_over};
use pq_inputs::MAX_FILES;
use std::alloc::{AllocError, Global};
use std::fs::Metadata;
use std::io::ErrorKind;
use std::rt::Files;
use std::{fs, io};

/// The largest number of folders on the way from the folder of a library to a file.
pub(crate) const MAX_DEPTH: usize = 32;

/// What an entry of a folder is to a walk.
#[derive(Clone, Copy, Debug, PartialEq, Eq)]
enum Entry {
    Folder,
    ProtoFile,
    Other,
}

/// What a walk has found. A name is relative to the folder of the library.
#[derive(Drop)]
struct Found {
    names: Vec<String>,
    /// Folders one level deeper, each with a slash at its end.
    deeper: Vec<String>,
    /// Whether there was a file more than `MAX_FILES`. Then the walk is over.
    is_over: bool,
}

impl Found {
    /// Nothing but the folder of the library, which is still to be listed.
    fn new(alloc: Global) -> Result<Found, AllocError> {
        let mut deeper = Vec::new(alloc);
        deeper.push(String::new(alloc))?;
        Ok(Found {
            names: Vec::new(alloc),
            deeper,
            is_over: false,
        })
    }

    /// Adds the file `name`. Returns whether there was room for it.
    fn add_file(&mut self, name: String) -> Result<bool, AllocError> {
        if self.names.len() >= MAX_FILES {
            self.is_over = true;
            return Ok(false);
        }
        self.names.push(name)?;
        Ok(true)
    }

    /// Adds the folder `name`.
    fn add_folder(&mut self, alloc: Global, name: &str) -> Result<(), AllocError> {
        self.deeper.push(joined(alloc, name, "/")?)?;
        Ok(())
    }
}

/// The metadata that was asked for, or `None` if nothing is there.
fn there(asked: io::Result<Metadata>) -> io::Result<Option<Metadata>> {
    match asked {
        Ok(metadata) => Ok(Some(metadata)),
        Err(error) => match error.kind() {
            ErrorKind::NotFound | ErrorKind::NotADirectory | ErrorKind::FilesystemLoop => Ok(None),
            _ => Err(error),
        },
    }
}

/// Whether a file is at `path`, or a link leads to one from there.
fn is_file<R: Files>(rt: &R, path: &str) -> io::Result<bool> {
    match there(fs::metadata(rt, path))? {
        Some(metadata) => Ok(metadata.is_file()),
        None => Ok(false),
    }
}

/// Whether a folder is at `path`, and not a link to one.
pub(crate) fn is_folder<R: Files>(rt: &R, path: &str) -> io::Result<bool> {
    match there(fs::symlink_metadata(rt, path))? {
        Some(metadata) => Ok(metadata.is_dir()),
        None => Ok(false),
    }
}

/// What the entry at `path` is.
fn entry_at<R: Files>(rt: &R, path: &str) -> io::Result<Entry> {
    if is_folder(rt, path)? {
        return Ok(Entry::Folder);
    }
    if path.ends_with(".proto") && is_file(rt, path)? {
        return Ok(Entry::ProtoFile);
    }
    Ok(Entry::Other)
}

/// Adds the entry `name` to what was found.
fn add_entry<R: Files + Eprint + AllocGlobal, T: Reading>(
    rt: &R,
    reading: &T,
    base: &str,
    name: String,
    found: &mut Found,
) -> Result<(), T::Fault> {
    let path = joined(rt.alloc(), base, name.as_str())?;
    match entry_at(rt, path.as_str()) {
        Ok(Entry::Folder) => found.add_folder(rt.alloc(), name.as_str())?,
        Ok(Entry::ProtoFile) => {
            if !found.add_file(name)? {
                pass_over(rt, reading, base, Failure::TooManyFiles)?;
            }
        }
        Ok(Entry::Other) => {}
        Err(error) => pass_over(rt, reading, path.as_str(), Failure::System(error))?,
    }
    Ok(())
}

/// Adds the entries of `folder` to what was found.
fn list<R: Files + Eprint + AllocGlobal + Clone + Drop, T: Reading>(
    rt: &R,
    reading: &T,
    base: &str,
    folder: &str,
    found: &mut Found,
) -> Result<(), T::Fault> {
    let path = joined(rt.alloc(), base, folder)?;
    let entries = match fs::read_dir(rt, path.as_str()) {
        Ok(entries) => entries,
        Err(error) => return pass_over(rt, reading, path.as_str(), Failure::System(error)),
    };
    for entry in entries {
        if found.is_over {
            break;
        }
        match entry {
            Ok(entry) => {
                let name = joined(rt.alloc(), folder, entry.file_name())?;
                add_entry(rt, reading, base, name, found)?;
            }
            Err(error) => pass_over(rt, reading, path.as_str(), Failure::of_entry(error))?,
        }
    }
    Ok(())
}

/// The names of the `.proto` files below the folder that `base` names with its slash, relative to
/// it. They come in no order.
///
/// At most `MAX_DEPTH` folders are on the way to each; what is deeper is passed over. After a folder
/// or an entry that cannot be read, and after `MAX_FILES` files where there is one more, `reading`
/// says whether the walk ends by an error. If it does not, what cannot be read is passed over, and so
/// are all files past the first `MAX_FILES`.
pub(crate) fn names_below<R: Files + Eprint + AllocGlobal + Clone + Drop, T: Reading>(
    rt: &R,
    reading: &T,
    base: &str,
) -> Result<Vec<String>, T::Fault> {
    let alloc = rt.alloc();
    let mut found = Found::new(alloc)?;
    for _depth in 0..=MAX_DEPTH {
        let level = found.deeper;
        found.deeper = Vec::new(alloc);
        for folder in &level {
            if !found.is_over {
                list(rt, reading, base, folder.as_str(), &mut found)?;
            }
        }
    }
    Ok(found.names)
}
