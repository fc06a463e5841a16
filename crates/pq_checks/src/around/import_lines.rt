//! The errors of imports: files that are absent or have a syntax error, names that are listed twice
//! or are not UTF-8, and the ring of imports into which a bad file leads.
//!
//! The states of the imported files lie in a map by name, and the names so far in a set, so a file
//! with N imports takes N log N comparisons. Both are ordered and nothing is hashed: whoever writes
//! the names could make them collide.
ghost use Rattle.std.specs.Prelude.{◌≡◌, ◌++◌, [], List, cond, IfOk, map, Some, None, string_bytes};
ghost use Rattle.std.specs.Option.{option_copied};
ghost use Rattle.std.specs.Str.{is_utf8};
ghost use Rattle.pq_links.specs.declared.places.Part.TheVariants.{Name};
ghost use Rattle.pq_checks.specs.Earlier.{of_each_after};
ghost use Rattle.pq_checks.specs.Faults.{import_faults, import_faults_by, listed_faults, named_faults, ring_faults, ring_text, state_faults};
ghost use Rattle.pq_checks.specs.Members.{imports};
ghost use Rattle.pq_checks.specs.Surroundings.{state_in};
ghost use Rattle.pq_checks.specs.aux.Imports.{IsStateMap, by_imports, first_name};
ghost use Rattle.pq_checks.specs.aux.Seen.{import_seen};
ghost use Rattle.pq_checks.specs.aux.Spots.{sited_in};
ghost use Rattle.pq_checks.specs.declared.around.surroundings.Imported.{Imported};

use crate::Memory;
use crate::around::surroundings::{FileState, Imported};
use crate::errors::code::Code;
use crate::errors::fault::Fault;
use crate::errors::said::{At, push, say_name, tell};
use crate::errors::tell::tell_name;
use crate::tree::members::{ImportName, imports};
use crate::tree::spots::Spot;
use pq_links::Part;
use pq_names::Text;
use std::alloc::Global;
use std::collections::{BTreeMap, BTreeSet};

/// The states of imported files by their names.
type States<'a> = BTreeMap<&'a [u8], FileState>;

/// The states of the files `imported` by their names. The first of two files of one name counts.
fn states_of<'a>(alloc: Global, imported: &'a [Imported]) -> Result<States<'a>, Memory>
    ensures states { IfOk result (λ m. IsStateMap m imported.now) }
{
    let mut states = BTreeMap::new(alloc);
    let mut left = imported.len();
    'files: while left > 0 {
        left -= 1;
        let file = &imported[left];
        states.insert(file.file.as_str().as_bytes(), file.state)?;
    }
    Ok(states)
}

/// The state of the file named `name` among those of `states`.
fn state_named<'a>(states: &States<'a>, name: &'a [u8]) -> FileState
    ensures state { (imported : List Imported) → IsStateMap states.now imported → result ≡ state_in imported name.now }
{
    match states.get(&name) {
        Some(state) => *state,
        None => FileState::Readable,
    }
}

/// The text of `bytes`, if they are UTF-8.
fn as_text(bytes: &[u8]) -> Option<&str>
    ensures text { option_copied result ≡ cond (is_utf8 bytes.now) (Some bytes.now) None }
{
    match str::from_utf8(bytes) {
        Ok(text) => Some(text),
        Err(_) => None,
    }
}

/// Adds the first name of `ring` to `text`, if there is one.
fn push_first(text: &mut String, ring: &[Text]) -> Result<(), Memory>
    ensures first { IfOk result (λ _. string_bytes text.new ≡ string_bytes text.old ++ first_name ring.now) }
{
    if let Some(first) = ring.first() {
        text.push_str(first.as_str())?;
    }
    Ok(())
}

/// The message about the ring of imports `ring`.
fn ring_text(alloc: Global, ring: &[Text]) -> Result<Text, Memory>
    ensures text { IfOk result (λ t. t ≡ ring_text ring.now) }
{
    let mut text = String::from_str(alloc, "import cycle: ")?;
    'files: for file in ring {
        text.push_str(file.as_str())?;
        text.push_str(" -> ")?;
    }
    push_first(&mut text, ring)?;
    Text::from_string(alloc, text)
}

/// The place of the name of the import `import`.
fn name_of(import: ImportName<'_>) -> At
    ensures { result ≡ record { item = import.entry.item; part = Name } }
{
    At {
        item: import.item,
        part: Part::Name,
    }
}

/// Adds the errors of the import `import` of a file in the state `state`, whose name is `name`.
fn push_state(
    alloc: Global,
    faults: &mut Vec<Fault>,
    state: FileState,
    import: ImportName<'_>,
    name: &str,
) -> Result<(), Memory>
    requires named { name.now ≡ import.name.now.value }
    ensures said { IfOk result
        (λ _. faults.new.items ≡ faults.old.items ++ state_faults state (import_seen import.entry)) }
{
    match state {
        FileState::Missing => {
            let code = Code::ImportNotFound;
            say_name(
                alloc,
                faults,
                name_of(import),
                code,
                "import ",
                name,
                " is not found",
            )
        }
        FileState::Unreadable => {
            let code = Code::ImportWithError;
            say_name(
                alloc,
                faults,
                name_of(import),
                code,
                "import ",
                name,
                " has a syntax fault",
            )
        }
        FileState::Readable => Ok(()),
    }
}

/// Adds the error of the import `import` with the name `name` if the name is `repeated`.
fn push_listed(
    alloc: Global,
    faults: &mut Vec<Fault>,
    repeated: bool,
    import: ImportName<'_>,
    name: &str,
) -> Result<(), Memory>
    requires named { name.now ≡ import.name.now.value }
    ensures said { IfOk result
        (λ _. faults.new.items ≡ faults.old.items ++ listed_faults repeated (import_seen import.entry)) }
{
    let code = Code::ImportTwice;
    tell_name(
        alloc,
        faults,
        repeated,
        name_of(import),
        code,
        "import ",
        name,
        " is listed twice",
    )
}

/// Adds the error of the import `import` with the name `name`, which is `repeated` or not, if it is
/// the first of the next file on the way into the ring `ring`.
fn push_ring(
    alloc: Global,
    faults: &mut Vec<Fault>,
    ring: Option<&[Text]>,
    next: Option<&Text>,
    repeated: bool,
    import: ImportName<'_>,
    name: &str,
) -> Result<(), Memory>
    requires named { name.now ≡ import.name.now.value }
    ensures said { IfOk result (λ _. faults.new.items ≡ faults.old.items
        ++ ring_faults (option_copied ring.entry) (option_copied next.entry) repeated (import_seen import.entry)) }
{
    let Some(ring) = ring else {
        return Ok(());
    };
    let Some(next) = next else {
        return Ok(());
    };
    if name == next.as_str() && !repeated {
        let text = ring_text(alloc, ring)?;
        return push(faults, name_of(import), Code::ImportCycle, text);
    }
    Ok(())
}

/// Adds the errors of the import `import`, whose name is `name`.
fn push_named(
    alloc: Global,
    faults: &mut Vec<Fault>,
    state: FileState,
    ring: Option<&[Text]>,
    next: Option<&Text>,
    repeated: bool,
    import: ImportName<'_>,
    name: &str,
) -> Result<(), Memory>
    requires named { name.now ≡ import.name.now.value }
    ensures said { IfOk result (λ _. faults.new.items ≡ faults.old.items
        ++ named_faults state (option_copied ring.entry) (option_copied next.entry) repeated (import_seen import.entry)) }
{
    push_state(alloc, faults, state, import, name)?;
    push_listed(alloc, faults, repeated, import, name)?;
    push_ring(alloc, faults, ring, next, repeated, import, name)
}

/// Adds the errors of the import `import` of a file in the state `state`, where its name is
/// `repeated` or not.
fn push_import(
    alloc: Global,
    faults: &mut Vec<Fault>,
    state: FileState,
    ring: Option<&[Text]>,
    next: Option<&Text>,
    repeated: bool,
    import: ImportName<'_>,
) -> Result<(), Memory>
    ensures said { IfOk result (λ _. faults.new.items ≡ faults.old.items
        ++ import_faults_by state (option_copied ring.entry) (option_copied next.entry) repeated (import_seen import.entry)) }
{
    match as_text(import.name.value.as_slice()) {
        Some(name) => push_named(alloc, faults, state, ring, next, repeated, import, name),
        None => {
            let place = At {
                item: import.item,
                part: Part::Name,
            };
            let text = "import name is not UTF-8";
            tell(alloc, faults, place, Code::ImportNotText, text)
        }
    }
}

/// Adds the errors of the imports `imports`, where the files of `states` have these states.
fn push_each<'a>(
    alloc: Global,
    faults: &mut Vec<Fault>,
    states: &States<'a>,
    ring: Option<&[Text]>,
    next: Option<&Text>,
    imports: &[ImportName<'a>],
) -> Result<(), Memory>
    ensures said { (imported : List Imported) → IsStateMap states.now imported → IfOk result (λ _. faults.new.items
        ≡ faults.old.items ++ of_each_after (import_faults (by_imports imported (option_copied ring.entry) (option_copied next.entry))) [] (map import_seen imports.now)) }
{
    let mut seen = BTreeSet::new(alloc);
    'imports: for i in 0..imports.len() {
        let import = &imports[i];
        let is_new = seen.insert(import.name.value.as_slice())?;
        let state = state_named(states, import.name.value.as_slice());
        push_import(alloc, faults, state, ring, next, !is_new, *import)?;
    }
    Ok(())
}

/// Adds the errors of the imports among the statements `spots` of a file that imports the files
/// `imported`. A bad file leads into the ring `ring`, and its first bad import is `next`.
pub(crate) fn push_import_faults(
    alloc: Global,
    faults: &mut Vec<Fault>,
    spots: &[Spot<'_>],
    imported: &[Imported],
    ring: Option<&[Text]>,
    next: Option<&Text>,
) -> Result<(), Memory>
    ensures said { IfOk result (λ _. faults.new.items ≡ faults.old.items
        ++ of_each_after (import_faults (by_imports imported.now (option_copied ring.entry) (option_copied next.entry))) [] (imports (sited_in spots.now))) }
{
    let states = states_of(alloc, imported)?;
    let imports = imports(alloc, spots)?;
    push_each(alloc, faults, &states, ring, next, imports.as_slice())
}
