//! The path by which an editor knows a file.
//!
//! Roots are paths with all links followed, and so are the paths of files below them. An editor
//! knows a file by the path that it or the user wrote.
ghost use Rattle.std.specs.Prelude.{◌≡◌, IfOk, option_copied, option_map, string_bytes};
ghost use Rattle.pq_view.specs.Shown.{shown_path};
ghost use Rattle.pq_view.specs.aux.Faces.{shown_below};

use crate::names::{below, name_below};
use pq_names::{Memory, Text};
use std::alloc::Global;

/// The path below `face` of the file at `path`, if that lies below `root` and there is a face.
fn shown_below(
    alloc: Global,
    root: &str,
    face: Option<&Text>,
    path: &str,
) -> Result<Option<String>, Memory>
    ensures shown { IfOk result (λ shown. option_map string_bytes shown
        ≡ shown_below root.now (option_copied face.entry) path.now) }
{
    if let Some(face) = face {
        if let Some(name) = name_below(path, root) {
            return Ok(Some(below(alloc, face.as_str(), name)?));
        }
    }
    Ok(None)
}

/// The path by which the editor knows the file at `path`. The root at each index of `roots` is known
/// by the face at that index of `faces`. Below a root without a face, and outside all roots, the
/// path is shown as it is.
///
/// With R roots it takes R comparisons. `Memory` comes if an allocation fails.
pub fn shown_path(
    alloc: Global,
    roots: &[Text],
    faces: &[Text],
    path: &str,
) -> Result<String, Memory>
    // The first root below which the path lies is replaced by its face.
    ensures shown { IfOk result (λ shown. string_bytes shown ≡ shown_path roots.now faces.now path.now) }
{
    'roots: for (index, root) in roots.iter().enumerate() {
        match shown_below(alloc, root.as_str(), faces.get(index), path)? {
            Some(shown) => return Ok(shown),
            None => {}
        }
    }
    String::from_str(alloc, path)
}
