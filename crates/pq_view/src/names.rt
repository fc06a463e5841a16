//! Names of files below root folders.
ghost use Rattle.std.specs.Prelude.{◌≡◌, IfOk, option_copied, string_bytes};
ghost use Rattle.pq_view.specs.Views.{below, is_path, name_below};
ghost use Rattle.pq_view.specs.aux.Rests.{IsRest};

use pq_names::Memory;
use std::alloc::Global;

/// Whether `name` is a path: it begins with a slash.
pub(crate) fn is_path(name: &str) -> bool
    ensures { result ≡ is_path name.now }
{
    match name.as_bytes().first() {
        Some(byte) => *byte == b'/',
        None => false,
    }
}

/// The path of the file `name` below the folder `root`.
pub(crate) fn below(alloc: Global, root: &str, name: &str) -> Result<String, Memory>
    ensures path { IfOk result (λ path. string_bytes path ≡ below root.now name.now) }
{
    let mut path = String::from_str(alloc, root)?;
    path.push_str("/")?;
    path.push_str(name)?;
    Ok(path)
}

/// What is left of `path` after the folder `root` and a slash.
fn rest_below<'a>(path: &'a str, root: &str) -> Option<&'a str>
    ensures rest { IsRest path.now root.now (option_copied result) }
{
    match path.strip_prefix(root) {
        Some(rest) => rest.strip_prefix('/'),
        None => None,
    }
}

/// The name of the file at `path` below the folder `root`, if it is there.
pub(crate) fn name_below<'a>(path: &'a str, root: &str) -> Option<&'a str>
    ensures name { option_copied result ≡ name_below path.now root.now }
{
    match rest_below(path, root) {
        Some(name) => { if is_path(name) { None } else { Some(name) } }
        None => None,
    }
}
