//! The texts of files.
ghost use Rattle.std.specs.Prelude.{◌≡◌, map, string_bytes, IfOk};

use crate::library::failure::{Failure, say};
use crate::library::fault::LibraryFault;
use crate::library::filling::LibraryFile;
use crate::library::paths::joined;
use pq_inputs::MAX_TEXT;
use std::fs;
use std::io::Read;
use std::rt::Files;

/// The text of the file at `path`.
pub(crate) fn text_of<R: Files + AllocGlobal>(rt: &R, path: &str) -> Result<String, Failure> {
    let mut bytes = Vec::new(rt.alloc());
    let mut file = fs::open(rt, path)?.take(MAX_TEXT as u64 + 1);
    file.read_to_end(&mut bytes)?;
    if bytes.len() > MAX_TEXT {
        return Err(Failure::TextTooLong);
    }
    match String::from_utf8(bytes) {
        Ok(text) => Ok(text),
        Err(_) => Err(Failure::TextNotUtf8),
    }
}

/// The text of the file at `path`, which a library has. A failure leaves its line.
fn text_at<R: Files + Eprint + AllocGlobal>(rt: &R, path: &str) -> Result<String, LibraryFault> {
    match text_of(rt, path) {
        Ok(text) => Ok(text),
        Err(failure) => {
            say(rt, path, &failure);
            Err(failure.fault())
        }
    }
}

/// The files of these names, in their order, read below the folder that `base` names with its slash.
pub(crate) fn files_of<R: Files + Eprint + AllocGlobal>(
    rt: &R,
    base: &str,
    names: Vec<String>,
) -> Result<Vec<LibraryFile>, LibraryFault>
    ensures { IfOk result (λ files. map (λ f. f.0) files.items ≡ map string_bytes names.items) }
{
    let mut files = Vec::new(rt.alloc());
    'names: for name in names {
        let path = joined(rt.alloc(), base, name.as_str())?;
        let text = text_at(rt, path.as_str())?;
        files.push(LibraryFile::new(name, text))?;
    }
    Ok(files)
}
