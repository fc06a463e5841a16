//! The index of some files by the codes of the full names that they define.
//!
//! An entry is the code of a name and the place of a file that defines it. The entries are sorted by
//! code, then by place. A file defines a name only where it has an entry of its code, so a look-up asks
//! the files of these entries in order. For N definitions the index takes N log N comparisons of
//! numbers, and 16 bytes an entry. No names are compared to make it.
ghost use Rattle.std.specs.Prelude.{◌≡◌, ℕ, List, ◌+◌, ◌-◌, ◌<◌, [], true, get_or, length, nat_lt, IfOk, OnOk};
ghost use Rattle.std.specs.List.Sorted.{IsPartitionPoint, IsSorted};
ghost use Rattle.pq_schema.specs.aux.NameCodes.{code_of};
ghost use Rattle.pq_schema.specs.aux.NearNames.{Adds, AddsEntries, AreNames, IsFrom, IsNamesOf, named_order};

use crate::names::coded::Coded;
use crate::scope::scope::FileDefs;
use pq_names::Memory;
use std::alloc::Global;

/// The code of a full name, and the place of a file that defines one of this code.
pub(crate) type Named = (u64, usize);

/// Whether the entry at `at` of `index` has the code of the one before it.
fn is_repeated(index: &[(Coded, usize)], at: usize) -> bool
    requires { at < length index.now }
    ensures same { result ≡ true → (0 < at) × (code_of (get_or index.now at ([], 0)).0 ≡ code_of (get_or index.now (at - 1) ([], 0)).0) }
{
    at > 0 && index[at].0.code() == index[at - 1].0.code()
}

/// Adds the codes of the names of `index` to `names`, each with the place `place`.
fn add_names(names: &mut Vec<Named>, index: &[(Coded, usize)], place: usize) -> Result<(), Memory>
    ensures added { OnOk result (AddsEntries names.old.items names.new.items index.now place) }
{
    'entries: for at in 0..index.len() {
        if is_repeated(index, at) {
            continue;
        }
        names.push((index[at].0.code(), place))?;
    }
    Ok(())
}

/// Adds the codes of the names that the file at `place` defines to `names`.
fn add_file(names: &mut Vec<Named>, files: &[FileDefs], place: usize) -> Result<(), Memory>
    ensures added { OnOk result (Adds names.old.items names.new.items files.now place) }
{
    match files.get(place) {
        Some(file) => add_names(names, file.defs.get().index(), place),
        None => Ok(()),
    }
}

/// The number of definitions in the file at `place`.
fn count_at(files: &[FileDefs], place: usize) -> usize {
    match files.get(place) {
        Some(file) => file.defs.get().definitions().len(),
        None => 0,
    }
}

/// The number of definitions in the files at `places`.
pub(crate) fn count_of(files: &[FileDefs], places: &[usize]) -> usize {
    let mut count = 0usize;
    'places: for place in places {
        count = count.saturating_add(count_at(files, *place));
    }
    count
}

/// The index of the files at `places`, which have `count` definitions.
pub(crate) fn names_of(
    alloc: Global,
    files: &[FileDefs],
    places: &[usize],
    count: usize,
) -> Result<Vec<Named>, Memory>
    ensures names { IfOk result (λ v. IsNamesOf v.items files.now places.now) }
{
    let mut names = Vec::with_capacity(alloc, count)?;
    'places: for place in places {
        add_file(&mut names, files, *place)?;
    }
    names.sort_unstable();
    Ok(names)
}

/// The most files that are asked one after the other, however many look-ups come.
const FEW: usize = 8;

/// The index of the files at `places`, where making it costs no more than `lookups` look-ups of
/// names that ask each of the files.
pub(crate) fn names_for(
    alloc: Global,
    files: &[FileDefs],
    places: &[usize],
    lookups: usize,
) -> Result<Option<Vec<Named>>, Memory>
    ensures names { IfOk result (λ o. AreNames o files.now places.now) }
{
    if places.len() <= FEW {
        return Ok(None);
    }
    let count = count_of(files, places);
    if lookups.saturating_mul(places.len()) < count {
        return Ok(None);
    }
    Ok(Some(names_of(alloc, files, places, count)?))
}

/// The place of the first entry of `names`, if they are sorted, whose code is not below `code`.
pub(crate) fn first_from(names: &[Named], code: u64) -> usize
    ensures from { IsSorted named_order names.now → IsFrom names.now code result }
{
    names.partition_point(
        |entry: &Named| -> bool
            ensures { result ≡ nat_lt entry.now.0 code }
        { entry.0 < code },
    )
}

/// Whether a name of the index has the code `code`.
pub(crate) fn has_code(names: &[Named], code: u64) -> bool {
    match names.get(first_from(names, code)) {
        Some(entry) => entry.0 == code,
        None => false,
    }
}

/// Whether a name of the index of a file has the code `code`.
fn index_has_code(index: &[(Coded, usize)], code: u64) -> bool {
    let first = index.partition_point(|entry: &(Coded, usize)| -> bool { entry.0.code() < code });
    match index.get(first) {
        Some(entry) => entry.0.code() == code,
        None => false,
    }
}

/// Whether a name that one of the files at `places` defines has the code `code`.
pub(crate) fn has_code_near(files: &[FileDefs], places: &[usize], code: u64) -> bool {
    'places: for place in places {
        if let Some(file) = files.get(*place) {
            if index_has_code(file.defs.get().index(), code) {
                return true;
            }
        }
    }
    false
}
