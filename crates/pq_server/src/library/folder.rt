//! A library, read from a folder.
ghost use Rattle.std.specs.Prelude.{◌≡◌, [], map, string_bytes, IfOk};
ghost use Rattle.pq_server.specs.Library.{IsLibrary, IsLibraryOf};

use crate::library::fault::LibraryFault;
use crate::library::filling::filled;
use crate::library::names::in_order;
use crate::library::paths::base_of;
use crate::library::reading::Strict;
use crate::library::texts::files_of;
use crate::library::walk::names_below;
use pq_inputs::Inputs;
use std::alloc::Global;
use std::rt::Files;

/// The inputs that have the files of these names, and no other file. The names are relative to the
/// folder that `base` names with its slash.
pub fn library_of<R: Files + Eprint + AllocGlobal>(
    rt: &R,
    base: &str,
    names: Vec<String>,
) -> Result<Inputs, LibraryFault>
    // The inputs have a file of some text for each of the names that were listed, and no other;
    // they were set in byte order of the names.
    ensures { IfOk result (λ inputs. IsLibraryOf (map string_bytes names.items) inputs) }
{
    let ordered = in_order(names)?;
    let files = files_of(rt, base, ordered)?;
    let inputs = filled(rt.alloc(), files)?;
    Ok(inputs)
}

/// The inputs that have the `.proto` files below the folder `dir`, and no other file.
///
/// The name of a file is its path relative to `dir`, with `/`. The files are set in byte order of
/// their names, each with High durability. The documentation of the module `walk` says which files
/// are found.
///
/// `Unreadable` says that a folder or a file could not be read, that a name or a text is not UTF-8,
/// or that the limits of the inputs refuse a file. Then a line on standard error says the path and
/// the reason.
pub fn read_library<R: Files + Eprint + AllocGlobal + Clone + Drop>(
    rt: &R,
    dir: &str,
) -> Result<Inputs, LibraryFault>
    // The inputs are those of some names, as `library_of` says. Which names the file system
    // delivers is not known.
    ensures { IfOk result (λ inputs. IsLibrary inputs) }
{
    let base = base_of(rt.alloc(), dir)?;
    let names = names_below(rt, &Strict, base.as_str())?;
    let inputs = library_of(rt, base.as_str(), names)?;
    Ok(inputs)
}

/// The inputs without any file: those of a server that has no library.
pub fn no_library(alloc: Global) -> Result<Inputs, LibraryFault>
    ensures { IfOk result (λ inputs. (inputs.files ≡ []) × (inputs.revision ≡ 0)) }
{
    match Inputs::new(alloc) {
        Ok(inputs) => Ok(inputs),
        Err(_) => Err(LibraryFault::Memory),
    }
}
