//! The search from a package outwards.
//!
//! The scopes of a package, from it outwards, are searched for each reference of a file. Of these
//! only a few have definitions (`spots`), and a table knows in which of them a name is a package
//! (`along`). So a search costs what these few scopes cost, however many parts the package has.
ghost use Rattle.std.specs.Prelude.{◌≡◌, ◌<◌, ◌++◌, false, IfOk, IfSome, find, length, option_map, take};
ghost use Rattle.std.specs.Option.{option_copied};
ghost use Rattle.std.specs.Str.{IsCharBoundary};
ghost use Rattle.pq_rules.specs.Relations.{Each};
ghost use Rattle.pq_schema.specs.Resolution.{dotted, found, found_by, meaning, scopes, single};
ghost use Rattle.pq_schema.specs.aux.Fronts.{IsSpotOf};
ghost use Rattle.pq_schema.specs.aux.Grouping.{AreNear, around};
ghost use Rattle.pq_schema.specs.aux.Hits.{found_at, meaning_at};
ghost use Rattle.pq_schema.specs.aux.NameParts.{leading};
ghost use Rattle.pq_schema.specs.aux.Outward.{IsOutward, beyond, found_from, in_spots, opens};
ghost use Rattle.pq_schema.specs.aux.Spots.{IsPlain};

use crate::names::lead::{lead_text, spell};
use crate::names::spelled::Spelled;
use crate::scope::named::Place;
use crate::search::along::Along;
use crate::search::lookup::Lookup;
use crate::search::search::{Hit, find_any, find_below, find_full, has_names, hit_at, unless_type};
use pq_names::{Memory, Text};
use std::alloc::Global;
use std::slice;

/// What a search from the package `root` outwards needs to know, made once for a file.
#[derive(Clone, Copy)]
pub(crate) struct Outward<'a> {
    pub(crate) root: &'a str,
    /// In which scopes a name is a package.
    pub(crate) along: &'a Along<'a>,
    /// The scopes in which a definition can be, each with its dot, the innermost first.
    pub(crate) spots: &'a [Text],
}

/// The first definition in `files` of the name `name`, which is in the scope `spot`. `near` has the
/// places of the files that can have the name.
fn look_in_spot<'a>(
    files: &Lookup<'a>,
    near: &[usize],
    along: &Along<'_>,
    spot: &Text,
    name: &str,
) -> Option<Place<'a>>
    requires near { AreNear near.now files.now (around (spot.now ++ name.now)) }
    requires files { along.now.files ≡ files.now }
    requires spot { IsSpotOf along.now.root spot.now }
    ensures first { meaning_at result ≡ meaning files.now (spot.now ++ name.now) }
{
    let full = spell(spot, name);
    files.definition_along(along, spot.as_str().len(), near, &full)
}

/// What the name `name`, which is in the package of `along`, is found as in `files`.
fn find_in_package<'a>(
    alloc: Global,
    files: &Lookup<'a>,
    along: &Along<'_>,
    name: &str,
) -> Result<Hit<'a>, Memory>
    requires files { along.now.files ≡ files.now }
    ensures is { IfOk result (λ hit. found_at hit ≡ found files.now (leading along.now.root ++ name.now)) }
{
    let lead = slice::from_ref(along.lead());
    let packages = Some(along.packages());
    find_below(alloc, files, along, packages, lead, name)
}

/// What the name `name`, which is in the scope `spot`, is found as in `files`.
fn find_in_spot<'a>(
    alloc: Global,
    files: &Lookup<'a>,
    along: &Along<'_>,
    spot: &Text,
    name: &str,
) -> Result<Hit<'a>, Memory>
    requires files { along.now.files ≡ files.now }
    requires spot { IsSpotOf along.now.root spot.now }
    ensures is { IfOk result (λ hit. found_at hit ≡ found files.now (spot.now ++ name.now)) }
{
    let start = spot.as_str().len();
    if start == along.count() {
        return find_in_package(alloc, files, along, name);
    }
    let packages = along.packages_at(start);
    let lead = slice::from_ref(spot);
    match files.all() {
        Some(all) => {
            let place = look_in_spot(files, all, along, spot, name);
            find_full(alloc, files, packages, place, lead, name)
        }
        None => find_any(alloc, files, packages, lead, name),
    }
}

/// What a name whose first definition is at `place` is found as, where packages do not count.
fn defined_at(place: Option<Place<'_>>) -> Hit<'_>
    ensures is { found_at result ≡ found_by false (meaning_at place.entry) }
{
    match place {
        Some(place) => hit_at(place),
        None => Hit::Nothing,
    }
}

/// Whether a name whose first definition is at `place` is that of a definition that can have names in
/// it.
fn is_open(place: Option<Place<'_>>) -> bool
    ensures is { result ≡ opens (meaning_at place.entry) }
{
    match place {
        Some(place) => has_names(place.definition.kind),
        None => false,
    }
}

/// What the name `name` is found as in the scopes `spots`, where packages do not count.
fn find_in_spots<'a>(
    files: &Lookup<'a>,
    near: &[usize],
    along: &Along<'_>,
    spots: &[Text],
    name: &str,
) -> Hit<'a>
    requires near { Each (λ s. AreNear near.now files.now (around (s ++ name.now))) spots.now }
    requires files { along.now.files ≡ files.now }
    requires spots { Each (IsSpotOf along.now.root) spots.now }
    ensures is { found_at result ≡ in_spots files.now spots.now name.now }
{
    let mut best = Hit::Nothing;
    'spots: for spot in spots {
        let place = look_in_spot(files, near, along, spot, name);
        best = unless_type(best, defined_at(place));
        if let Hit::Type(_) = best {
            return best;
        }
    }
    best
}

/// What the name `name`, which has no dot, is found as from the scopes of the package outwards.
/// `near` has the places of the files whose package is one of these scopes.
pub(crate) fn single_outward<'a>(
    files: &Lookup<'a>,
    near: &[usize],
    outward: Outward<'_>,
    name: &str,
) -> Hit<'a>
    requires near { AreNear near.now files.now (scopes outward.root.now) }
    requires outward { IsOutward files.now outward.along.now outward.root.now outward.spots.now }
    requires some { 0 < length name.now }
    requires plain { IsPlain name.now }
    ensures is { found_at result ≡ single files.now (scopes outward.entry.root.now) name.now }
{
    match find_in_spots(files, near, outward.along, outward.spots, name) {
        Hit::Type(place) => Hit::Type(place),
        Hit::Other => Hit::Other,
        Hit::Nothing => {
            if outward.along.innermost(name).is_some() {
                Hit::Other
            } else {
                Hit::Nothing
            }
        }
    }
}

/// The first of the scopes `spots` in which `name` is a definition that can have names in it.
fn open_spot<'b>(
    files: &Lookup<'_>,
    near: &[usize],
    along: &Along<'_>,
    spots: &'b [Text],
    name: &str,
) -> Option<&'b Text>
    requires near { Each (λ s. AreNear near.now files.now (around (s ++ name.now))) spots.now }
    requires files { along.now.files ≡ files.now }
    requires spots { Each (IsSpotOf along.now.root) spots.now }
    ensures first { option_copied result
        ≡ find (λ s. opens (meaning files.now (s ++ name.now))) spots.now }
{
    'spots: for spot in spots {
        let place = look_in_spot(files, near, along, spot, name);
        if is_open(place) {
            return Some(spot);
        }
    }
    None
}

/// `spot`, unless the scope of `place` bytes is as long or longer.
fn beyond<'b>(spot: Option<&'b Text>, place: Option<usize>) -> Option<&'b Text>
    ensures is { option_copied result ≡ beyond (option_copied spot.entry) place }
{
    let spot = spot?;
    match place {
        Some(count) => {
            if count < spot.as_str().len() {
                Some(spot)
            } else {
                None
            }
        }
        None => Some(spot),
    }
}

/// What comes after the scope of the first `count` bytes of `lead`, and after its dot, in `lead`.
fn after_scope(lead: &str, count: usize) -> Option<&str>
    ensures after { IfSome result (λ t. lead.now ≡ leading (take count lead.now) ++ t.now) }
{
    if count == 0 {
        return Some(lead);
    }
    let (_, rest) = lead.split_at_checked(count)?;
    rest.strip_prefix('.')
}

/// What comes after `lead` in the full name of `name`, which is in the scope of the first `count`
/// bytes of `lead`, if the full name begins with `lead`.
fn after_lead<'a>(lead: &str, count: usize, name: &'a str) -> Option<&'a str>
    ensures after { IfSome result (λ t. leading (take count lead.now) ++ name.now ≡ lead.now ++ t.now) }
{
    name.strip_prefix(after_scope(lead, count)?)
}

/// What the name `name`, which is in the scope of the first `count` bytes of the package of `along`, is
/// found as in `files`, if the packages in that scope are known and all files are asked. The name of the
/// scope is not copied, and is mostly not read.
fn find_after<'a>(
    files: &Lookup<'a>,
    along: &Along<'_>,
    count: usize,
    name: &str,
) -> Option<Hit<'a>>
    requires files { along.now.files ≡ files.now }
    ensures is { IfSome result (λ hit. found_at hit
        ≡ found files.now (leading (take count (leading along.now.root)) ++ name.now)) }
{
    let lead = along.lead().as_str();
    let others = after_scope(lead, count)?;
    let start = lead.len().saturating_sub(others.len());
    let packages = along.packages_at(start)?;
    let all = files.all()?;
    let (head, _) = lead.split_at_checked(start)?;
    if name.is_empty() {
        return None;
    }
    let full = Spelled::after(head, name);
    match files.definition_along(along, start, all, &full) {
        Some(place) => Some(hit_at(place)),
        None => {
            if packages.has(name) {
                Some(Hit::Other)
            } else {
                Some(Hit::Nothing)
            }
        }
    }
}

/// What `name` is found as in the scope of the first `count` bytes of `root`. Without a number it is
/// found as nothing. A name that goes on along `root` is looked up by what follows it there, so it
/// costs its own length, and not that of the scope.
fn find_from<'a>(
    alloc: Global,
    files: &Lookup<'a>,
    along: &Along<'_>,
    root: &str,
    count: Option<usize>,
    name: &str,
) -> Result<Hit<'a>, Memory>
    requires files { along.now.files ≡ files.now }
    requires root { along.now.root ≡ root.now }
    requires boundary { IfSome count (λ n. IsCharBoundary root.now n) }
    ensures is { IfOk result (λ hit. found_at hit
        ≡ found_from files.now name.now (option_map (λ n. take n root.now) count)) }
{
    match count {
        Some(count) => {
            if let Some(rest) = after_lead(along.lead().as_str(), count, name) {
                return find_in_package(alloc, files, along, rest);
            }
            if let Some(hit) = find_after(files, along, count, name) {
                return Ok(hit);
            }
            let lead = lead_text(alloc, &root[..count])?;
            find_any(alloc, files, None, slice::from_ref(&lead), name)
        }
        None => Ok(Hit::Nothing),
    }
}

/// What the name `name`, whose part before its first dot is `first`, is found as from the scopes of
/// the package outwards. `near` has the places of the files whose package is one of these scopes.
pub(crate) fn dotted_outward<'a>(
    alloc: Global,
    files: &Lookup<'a>,
    near: &[usize],
    outward: Outward<'_>,
    first: &str,
    name: &str,
) -> Result<Hit<'a>, Memory>
    requires near { AreNear near.now files.now (scopes outward.root.now) }
    requires outward { IsOutward files.now outward.along.now outward.root.now outward.spots.now }
    requires some { 0 < length first.now }
    requires plain { IsPlain first.now }
    ensures is { IfOk result (λ hit. found_at hit
        ≡ dotted files.now (scopes outward.entry.root.now) first.now name.now) }
{
    let package = outward.along.innermost(first);
    let spot = open_spot(files, near, outward.along, outward.spots, first);
    match beyond(spot, package) {
        Some(spot) => find_in_spot(alloc, files, outward.along, spot, name),
        None => {
            let along = outward.along;
            find_from(alloc, files, along, outward.root, package, name)
        }
    }
}
