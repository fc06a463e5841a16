//! Paths, as texts with `/`.
ghost use Rattle.std.specs.Prelude.{◌≡◌, ◌++◌, string_bytes, IfOk};

use std::alloc::{AllocError, Global};
use std::rt::{Env, Files};
use std::{fs, io, path};

/// The text `before` and then `after`.
pub(crate) fn joined(alloc: Global, before: &str, after: &str) -> Result<String, AllocError>
    ensures { IfOk result (λ text. string_bytes text ≡ before.now ++ after.now) }
{
    let mut text = String::from_str(alloc, before)?;
    text.push_str(after)?;
    Ok(text)
}

/// What stands before the names in the folder `dir`: it and a slash. Of an empty text it is empty,
/// which names no folder.
pub(crate) fn base_of(alloc: Global, dir: &str) -> Result<String, AllocError> {
    if dir.is_empty() || dir.ends_with('/') {
        String::from_str(alloc, dir)
    } else {
        joined(alloc, dir, "/")
    }
}

/// The folder `dir` as an absolute path, as an editor names it: without `.` and doubled slashes.
///
/// Links stay as they are, since the editor may have opened the folder by one. Only where `dir` has
/// `..` among its parts are all links of it followed, since they decide which folder that is. A
/// slash at the end stays.
///
/// It is an error if `dir` is empty, and if the current folder is not known and `dir` begins in it.
/// Of a path with `..` it is one too if no folder is there.
pub(crate) fn absolute_of<R: Env + Files + AllocGlobal>(rt: &R, dir: &str) -> io::Result<String> {
    let path = if dir.split('/').any(|part| part == "..") {
        fs::canonicalize(rt, dir)?
    } else {
        path::absolute(rt, dir)?
    };
    Ok(path.into_string())
}
