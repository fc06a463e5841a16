//! The folder with the well-known types, such as `google/protobuf/descriptor.proto`.
//!
//! It comes with the program, or with the `protoc` that is installed. It is looked for beside the program,
//! and then beside the first `protoc` of `PATH`, where `protoc` itself looks for it.
use crate::editor::Disk;
use crate::library::paths::joined;
use std::alloc::{AllocError, Global};
use std::env;
use std::env::VarError;
use std::io::ErrorKind;
use std::rt::{Env, Files};

/// The file by which such a folder is known.
const MARK: &str = "/google/protobuf/descriptor.proto";

/// The folder with the well-known types, if there is one. With the folders D of the program and E of the
/// first `protoc` of `PATH`, it is the first that has them of D, D/include, D/../include,
/// D/../../../include, E, E/include and E/../include. The third is that of a program in a folder `bin`,
/// the fourth that of a program which a crate of a copy of the sources has made.
pub(crate) fn last_root<R: Env + Files + Disk + AllocGlobal>(
    rt: &R,
) -> Result<Option<String>, AllocError> {
    if let Some(folder) = folder_of_program(rt)? {
        let steps = &["", "/include", "/../include", "/../../../include"];
        if let Some(found) = first_include(rt, rt.alloc(), folder.as_str(), steps)? {
            return Ok(Some(found));
        }
    }
    match folder_of_protoc(rt)? {
        Some(folder) => first_include(
            rt,
            rt.alloc(),
            folder.as_str(),
            &["", "/include", "/../include"],
        ),
        None => Ok(None),
    }
}

/// The first folder with the well-known types of those at `steps` from `folder`.
fn first_include<D: Disk>(
    disk: &D,
    alloc: Global,
    folder: &str,
    steps: &[&str],
) -> Result<Option<String>, AllocError> {
    for step in steps {
        let path = joined(alloc, folder, step)?;
        if is_include(disk, alloc, path.as_str())? {
            return Ok(Some(path));
        }
    }
    Ok(None)
}

/// Whether `folder` has the well-known types.
fn is_include<D: Disk>(disk: &D, alloc: Global, folder: &str) -> Result<bool, AllocError> {
    let path = joined(alloc, folder, MARK)?;
    Ok(disk.file_at(path.as_str()).is_some())
}

/// The folder of the program that runs, with all links followed, if the system tells it.
fn folder_of_program<R: Files + AllocGlobal>(rt: &R) -> Result<Option<String>, AllocError> {
    match env::current_exe(rt) {
        Ok(path) => folder_of(rt.alloc(), path.into_string().as_str()),
        Err(error) => match error.kind() {
            ErrorKind::OutOfMemory => Err(AllocError),
            _ => Ok(None),
        },
    }
}

/// The folder of the first `protoc` of `PATH`, with all links followed.
fn folder_of_protoc<R: Env + Disk + AllocGlobal>(rt: &R) -> Result<Option<String>, AllocError> {
    match env::var(rt, "PATH") {
        Ok(path) => folder_of_protoc_in(rt, rt.alloc(), path.as_str()),
        Err(VarError::OutOfMemory) => Err(AllocError),
        Err(_) => Ok(None),
    }
}

/// The folder of the first `protoc` in the folders of `path`, which are separated by colons. One that is
/// not written from the root of the file system on is passed over.
fn folder_of_protoc_in<D: Disk>(
    disk: &D,
    alloc: Global,
    path: &str,
) -> Result<Option<String>, AllocError> {
    for folder in path.split(':') {
        if folder.starts_with('/') {
            let program = joined(alloc, folder, "/protoc")?;
            if disk.file_at(program.as_str()).is_some() {
                return folder_of_file(disk, alloc, program.as_str());
            }
        }
    }
    Ok(None)
}

/// The folder of the file `path`, with all links to the file followed.
fn folder_of_file<D: Disk>(
    disk: &D,
    alloc: Global,
    path: &str,
) -> Result<Option<String>, AllocError> {
    match disk.real_path(path) {
        Some(real) => folder_of(alloc, real.as_str()),
        None => folder_of(alloc, path),
    }
}

/// What is before the last slash of `path`.
fn folder_of(alloc: Global, path: &str) -> Result<Option<String>, AllocError> {
    match path.rsplit_once('/') {
        Some((folder, _)) => Ok(Some(String::from_str(alloc, folder)?)),
        None => Ok(None),
    }
}
