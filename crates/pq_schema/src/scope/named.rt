//! The first of some files that defines a full name.
//!
//! The files are given by their places. They are asked in their order, each by one binary search, up
//! to the first that has the name. With an index of them (`near_names`) those are asked that have a
//! name of its code. The names of a file are compared after what `fronts` says that they have in
//! common with the name, and a file whose package leaves the way of the name is not asked.
ghost use Rattle.std.specs.Prelude.{◌≡◌, Some, option_map, slice_get};
ghost use Rattle.std.specs.Option.{option_copied};
ghost use Rattle.pq_schema.specs.aux.FirstOf.{answer_at, definition_in, first_near};
ghost use Rattle.pq_schema.specs.aux.Fronts.{BeginAlike, Guides};
ghost use Rattle.pq_schema.specs.aux.Hits.{placed};
ghost use Rattle.pq_schema.specs.aux.NameCodes.{code_of};
ghost use Rattle.pq_schema.specs.aux.NearNames.{AreNames, IsNamesOf, Rises};
ghost use Rattle.pq_schema.specs.declared.scope.scope.FileDefs.{FileDefs};

use crate::define::definitions::Definition;
use crate::names::spelled::Spelled;
use crate::scope::fronts::{Common, alike_at, is_apart_at};
use crate::scope::near_names::{Named, first_from};
use crate::scope::scope::FileDefs;
use pq_names::Text;

/// A definition, and the name of the file that has it.
#[derive(Clone, Copy)]
pub(crate) struct Place<'a> {
    pub(crate) file: &'a Text,
    pub(crate) definition: &'a Definition,
}

/// The first definition with the full name `name`, whose code is `code`, in the file at `place`. The
/// names of the file begin with the first `count` bytes of `name`.
fn definition_alike<'a>(
    files: &'a [FileDefs],
    place: usize,
    name: &Spelled<'_>,
    code: u64,
    count: usize,
) -> Option<Place<'a>>
    requires code { code ≡ code_of name.now }
    requires alike { (f : FileDefs) → slice_get files.now place ≡ Some f
        → BeginAlike count name.now f.defs.definitions }
    ensures is { placed result ≡ answer_at (definition_in name.now) files.now place }
{
    let f = files.get(place)?;
    let definition = f.defs.get().find_alike(name, code, count)?;
    Some(Place {
        file: f.file.get(),
        definition,
    })
}

/// The first definition with the full name `name` in the file at `place`. The name has the code `code`,
/// and goes `start` bytes along the way of `fronts`.
fn definition_at<'a>(
    files: &'a [FileDefs],
    fronts: &[Common],
    start: usize,
    place: usize,
    name: &Spelled<'_>,
    code: u64,
) -> Option<Place<'a>>
    requires code { code ≡ code_of name.now }
    requires guides { Guides fronts.now start files.now name.now }
    ensures is { placed result ≡ answer_at (definition_in name.now) files.now place }
{
    if is_apart_at(fronts, place, start) {
        return None;
    }
    definition_alike(files, place, name, code, alike_at(fronts, place, start))
}

/// The first definition with the full name `name`: the files at `places` in order, then each in
/// text order.
pub(crate) fn first_definition<'a>(
    files: &'a [FileDefs],
    fronts: &[Common],
    start: usize,
    places: &[usize],
    name: &Spelled<'_>,
) -> Option<Place<'a>>
    requires guides { Guides fronts.now start files.now name.now }
    ensures first { placed result ≡ first_near (definition_in name.now) files.now places.now }
{
    let code = name.code();
    'places: for place in places {
        let found = definition_at(files, fronts, start, *place, name, code);
        if found.is_some() {
            return found;
        }
    }
    None
}

/// The first definition with the full name `name`, as `first_definition` finds it, by `names`, the
/// index of the files at `_places`. The files that have a name of its code are asked.
pub(crate) fn first_indexed<'a>(
    files: &'a [FileDefs],
    fronts: &[Common],
    start: usize,
    _places: &[usize],
    names: &[Named],
    name: &Spelled<'_>,
) -> Option<Place<'a>>
    requires guides { Guides fronts.now start files.now name.now }
    requires rising { Rises _places.now }
    requires names { IsNamesOf names.now files.now _places.now }
    ensures first { placed result ≡ first_near (definition_in name.now) files.now _places.now }
{
    let code = name.code();
    let first = first_from(names, code);
    'entries: for at in first..names.len() {
        if names[at].0 != code {
            return None;
        }
        let found = definition_at(files, fronts, start, names[at].1, name, code);
        if found.is_some() {
            return found;
        }
    }
    None
}

/// The first definition with the full name `name`, as `first_definition` finds it, by the index of
/// the files if there is one.
pub(crate) fn first_listed<'a>(
    files: &'a [FileDefs],
    fronts: &[Common],
    start: usize,
    places: &[usize],
    names: &Option<Vec<Named>>,
    name: &Spelled<'_>,
) -> Option<Place<'a>>
    requires guides { Guides fronts.now start files.now name.now }
    requires rising { Rises places.now }
    requires names { AreNames names.now files.now places.now }
    ensures first { placed result ≡ first_near (definition_in name.now) files.now places.now }
{
    match names {
        Some(names) => first_indexed(files, fronts, start, places, names, name),
        None => first_definition(files, fronts, start, places, name),
    }
}

/// The name of the file that has the definition at `place`.
pub(crate) fn file_of<'a>(place: Option<Place<'a>>) -> Option<&'a Text>
    ensures file { option_copied result ≡ option_map (λ a. a.0) (placed place.entry) }
{
    match place {
        Some(place) => Some(place.file),
        None => None,
    }
}
