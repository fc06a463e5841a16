//! The inputs that have the files of a library.
ghost use Rattle.std.specs.Prelude.{◌≡◌, ◌+◌, ◌⊎◌, [], length, string_bytes, Some, unwrap_or, IfOk, OnOk, IfErr};
ghost use Rattle.pq_inputs.specs.Sources.{with_file};
ghost use Rattle.pq_inputs.specs.Refusal.{max_files, refusal};
ghost use Rattle.pq_server.specs.Library.{lasting, with_library, IsRefused};
ghost use Rattle.pq_inputs.specs.declared.fault.InputFault.TheVariants.{Memory};

use pq_inputs::{Durability, InputFault, Inputs};
use std::alloc::Global;
use std::marker::Model;

/// A file of a library. Contracts see its name and its text.
#[derive(Drop)]
pub struct LibraryFile {
    name: String,
    text: String,
}

impl Model for LibraryFile {
    ghost use Rattle.std.specs.Prelude.{ℕ, List, string_bytes};

    ghost Value = { List ℕ × List ℕ };

    ghost view = { λ f. (string_bytes f.name, string_bytes f.text) };
}

impl LibraryFile {
    /// The file `name` with this text.
    pub fn new(name: String, text: String) -> LibraryFile
        ensures { result ≡ (string_bytes name, string_bytes text) }
    {
        LibraryFile { name, text }
    }
}

/// Sets one file of a library. A refused file leaves the inputs as they were.
fn set_file(inputs: &mut Inputs, file: LibraryFile) -> Result<(), InputFault>
    ensures files { OnOk result (inputs.new.files ≡ with_file inputs.old.files file.0 (lasting file.1)) }
    ensures revision { OnOk result (inputs.new.revision ≡ inputs.old.revision + 1) }
    ensures limit { OnOk result (inputs.new.limit ≡ inputs.old.limit) }
    ensures fault { IfErr result (λ fault.
        fault ≡ unwrap_or (refusal inputs.old file.0 (Some file.1)) InputFault.Memory) }
{
    let LibraryFile { name, text } = file;
    match inputs.set(name.as_str(), Some(text), Durability::High) {
        Ok(_) => Ok(()),
        Err(refused) => Err(refused.fault),
    }
}

/// The inputs that have `files`, each set in order with High durability, and no other file.
///
/// `Memory` says that an allocation failed. Any other fault is the refusal of the first file that
/// the limits of the inputs refuse.
pub fn filled(alloc: Global, files: Vec<LibraryFile>) -> Result<Inputs, InputFault>
    // `files`, `revision`, `limit`: The inputs have the files of the list, set in order with High
    // durability, no other change, and room for as many files as `max_files` says.
    ensures files { IfOk result (λ inputs. inputs.files ≡ with_library [] files.items) }
    ensures revision { IfOk result (λ inputs. inputs.revision ≡ length files.items) }
    ensures limit { IfOk result (λ inputs. inputs.limit ≡ max_files) }
    // `Memory`, or the limits of the inputs refuse one file of the list after those before it were
    // set.
    ensures refused { IfErr result (λ fault. (fault ≡ Memory) ⊎ IsRefused files.items fault) }
{
    let Ok(mut inputs) = Inputs::new(alloc) else {
        return Err(InputFault::Memory);
    };
    'files: for file in files {
        set_file(&mut inputs, file)?;
    }
    Ok(inputs)
}
