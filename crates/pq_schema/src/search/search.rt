//! The search for a name from the innermost scope outwards.
//! (proto3 language specification, "Packages and Name Resolution".)
//!
//! Each scope costs one look-up of a full name, which is spelled in pieces, without a copy of the
//! scope, and one among the packages inside the scope. The files that can have one of these names are
//! found once.
ghost use Rattle.std.specs.Prelude.{◌≡◌, ◌++◌, ◌<◌, IfOk, OnOk, length};
ghost use Rattle.std.specs.List.{concat};
ghost use Rattle.pq_schema.specs.Resolution.{found, found_as, has_names, decides, is_package, meaning, unless_type, single, dotted, scopes, search, lookup, lookup_by};
ghost use Rattle.pq_schema.specs.aux.Asked.{AreAsked};
ghost use Rattle.pq_schema.specs.aux.Fronts.{Begins};
ghost use Rattle.pq_schema.specs.aux.Grouping.{AreNear};
ghost use Rattle.pq_schema.specs.aux.Hits.{found_at, lookup_at, meaning_at};
ghost use Rattle.pq_schema.specs.aux.Inside.{IsFirstAt, dotted_from, single_from};
ghost use Rattle.pq_schema.specs.aux.NameParts.{leading};
ghost use Rattle.pq_schema.specs.aux.PackageRange.{IsRangeOf};
ghost use Rattle.pq_schema.specs.aux.Spots.{IsPlain};
ghost use Rattle.pq_schema.specs.aux.Walk.{IsOrigin};

use crate::define::definitions::DefinitionKind;
use crate::names::nesting::{innermost, outer};
use crate::names::spelled::Spelled;
use crate::scope::files::Files;
use crate::scope::named::Place;
use crate::scope::package_range::PackageRange;
use crate::search::along::Along;
use crate::search::asked::{Asked, look_inside, packages_at};
use crate::search::lookup::Lookup;
use crate::search::origin::Origin;
use crate::search::outward::{dotted_outward, single_outward};
use crate::search::uses::{find_each, hit_or_nothing};
use pq_lex::Span;
use pq_names::{Memory, Text};
use pq_syntax::{MethodType, Name, Node, Statement};
use std::alloc::Global;
use std::slice;

/// The span of what is not in a text.
const NOWHERE: Span = Span { start: 0, end: 0 };

/// What a search ends in: a type, another definition or a package, or nothing.
#[derive(Clone, Copy)]
pub(crate) enum Hit<'a> {
    Type(Place<'a>),
    Other,
    Nothing,
}

/// What a name resolves to: a type, or why it has none.
#[derive(Clone, Copy)]
pub(crate) enum Outcome<'a> {
    Type(Place<'a>),
    NotFound,
    NotVisible(&'a Text),
    NotAType,
}

/// What a search ends in at the definition at `place`: messages and enums are types.
pub(crate) fn hit_at(place: Place<'_>) -> Hit<'_>
    ensures is { found_at result ≡ found_as place.entry.file.now place.entry.definition.now place.entry.definition.now.kind }
{
    match place.definition.kind {
        DefinitionKind::Message | DefinitionKind::Enum => Hit::Type(place),
        _ => Hit::Other,
    }
}

/// Whether a definition of the kind `kind` can have names in it.
pub(crate) fn has_names(kind: DefinitionKind) -> bool
    ensures is { result ≡ has_names kind }
{
    matches!(
        kind,
        DefinitionKind::Message | DefinitionKind::Enum | DefinitionKind::Service
    )
}

/// Whether `name` with `lead` before it is a package of `files`. `packages` has those that begin with
/// `lead`, if they were looked for. Else the name can be copied.
fn is_package(
    alloc: Global,
    files: &Lookup<'_>,
    packages: Option<PackageRange<'_>>,
    lead: &[Text],
    name: &str,
) -> Result<bool, Memory>
    requires packages { IsRangeOf files.now packages (concat lead.now) }
    ensures is { IfOk result (λ b. b ≡ is_package files.now (concat lead.now ++ name.now)) }
{
    if let Some(packages) = packages {
        if !name.is_empty() {
            return Ok(packages.has(name));
        }
    }
    files.is_package(alloc, &Spelled::new(lead, name))
}

/// What `name` with `lead` before it, whose first definition in `files` is at `place`, is found as.
pub(crate) fn find_full<'a>(
    alloc: Global,
    files: &Lookup<'_>,
    packages: Option<PackageRange<'_>>,
    place: Option<Place<'a>>,
    lead: &[Text],
    name: &str,
) -> Result<Hit<'a>, Memory>
    requires packages { IsRangeOf files.now packages (concat lead.now) }
    requires place { meaning_at place ≡ meaning files.now (concat lead.now ++ name.now) }
    ensures is { IfOk result (λ hit. found_at hit ≡ found files.now (concat lead.now ++ name.now)) }
{
    match place {
        Some(place) => Ok(hit_at(place)),
        None => {
            if is_package(alloc, files, packages, lead, name)? {
                Ok(Hit::Other)
            } else {
                Ok(Hit::Nothing)
            }
        }
    }
}

/// What `name` with `lead` before it is found as in `files`. `packages` has those that begin with
/// `lead`, if they were looked for.
pub(crate) fn find_any<'a>(
    alloc: Global,
    files: &Lookup<'a>,
    packages: Option<PackageRange<'_>>,
    lead: &[Text],
    name: &str,
) -> Result<Hit<'a>, Memory>
    requires packages { IsRangeOf files.now packages (concat lead.now) }
    ensures is { IfOk result (λ hit. found_at hit ≡ found files.now (concat lead.now ++ name.now)) }
{
    let full = Spelled::new(lead, name);
    match files.all() {
        Some(all) => {
            let place = files.definition(all, &full);
            find_full(alloc, files, packages, place, lead, name)
        }
        None => {
            let mut text = String::new(alloc);
            full.write_to(&mut text)?;
            let near = files.near(alloc, outer(text.as_str()))?;
            let place = files.definition(&near, &full);
            find_full(alloc, files, packages, place, lead, name)
        }
    }
}

/// What `name` with `lead` before it, which begins with the package of `along`, is found as in `files`.
/// `packages` has those that begin with `lead`, if they were looked for.
pub(crate) fn find_below<'a>(
    alloc: Global,
    files: &Lookup<'a>,
    along: &Along<'_>,
    packages: Option<PackageRange<'_>>,
    lead: &[Text],
    name: &str,
) -> Result<Hit<'a>, Memory>
    requires files { along.now.files ≡ files.now }
    requires front { Begins (leading along.now.root) (concat lead.now ++ name.now) }
    requires packages { IsRangeOf files.now packages (concat lead.now) }
    ensures is { IfOk result (λ hit. found_at hit ≡ found files.now (concat lead.now ++ name.now)) }
{
    match files.all() {
        Some(all) => {
            let full = Spelled::new(lead, name);
            let place = files.definition_below(along, all, &full);
            find_full(alloc, files, packages, place, lead, name)
        }
        None => find_any(alloc, files, packages, lead, name),
    }
}

/// Whether `name` with `lead` before it, whose first definition in `files` is at `place`, decides for a
/// dotted name whose first part `name` is. `packages` has those that begin with `lead`, if they were
/// looked for.
fn decides(
    alloc: Global,
    files: &Lookup<'_>,
    packages: Option<PackageRange<'_>>,
    place: Option<Place<'_>>,
    lead: &[Text],
    name: &str,
) -> Result<bool, Memory>
    requires packages { IsRangeOf files.now packages (concat lead.now) }
    requires place { meaning_at place ≡ meaning files.now (concat lead.now ++ name.now) }
    ensures is { IfOk result (λ b. b ≡ decides files.now (concat lead.now ++ name.now)) }
{
    match place {
        Some(place) => {
            if has_names(place.definition.kind) {
                return Ok(true);
            }
            is_package(alloc, files, packages, lead, name)
        }
        None => is_package(alloc, files, packages, lead, name),
    }
}

/// `inner` if it is a type; else a type in `outer`, the scopes further out; else what is not
/// nothing.
pub(crate) fn unless_type<'a>(inner: Hit<'a>, outer: Hit<'a>) -> Hit<'a>
    ensures is { found_at result ≡ unless_type (found_at inner.entry) (found_at outer.entry) }
{
    match (inner, outer) {
        (Hit::Type(place), _) => Hit::Type(place),
        (Hit::Nothing, hit) => hit,
        (Hit::Other, Hit::Type(place)) => Hit::Type(place),
        (Hit::Other, _) => Hit::Other,
    }
}

/// What the name `name`, which has no dot, is found as from the scope of `origin` outwards.
/// `near` has the places of the files whose package is one of the scopes.
fn find_single<'a>(
    origin: Origin<'a, '_>,
    near: &[usize],
    asked: &mut Vec<Asked<'a>>,
    name: &str,
) -> Result<Hit<'a>, Memory>
    requires origin { IsOrigin origin near.now }
    requires some { 0 < length name.now }
    requires plain { IsPlain name.now }
    requires asked { AreAsked origin.files.now origin.scope.now.1 asked.old.items }
    ensures is { IfOk result (λ hit. found_at hit ≡ single_from origin.entry.files.now origin.entry.scope.now.1
        (single origin.entry.files.now (scopes origin.entry.outward.root.now) name.now) name.now) }
    ensures asked { OnOk result (AreAsked origin.entry.files.now origin.entry.scope.now.1 asked.new.items) }
{
    let mut best = Hit::Nothing;
    let depth = origin.scope.depth();
    'scopes: for i in 0..depth {
        let place = look_inside(origin, near, asked, i, name)?;
        let packages = packages_at(origin.scope, asked, i);
        let lead = origin.scope.lead(i);
        let parts = lead.parts();
        best = unless_type(
            best,
            find_full(origin.alloc, origin.files, packages, place, parts, name)?,
        );
        if let Hit::Type(_) = best {
            return Ok(best);
        }
    }
    let further = single_outward(origin.files, near, origin.outward, name);
    Ok(unless_type(best, further))
}

/// What the name `name`, whose part before its first dot is `first`, is found as from the scope of
/// `origin` outwards. `near` has the places of the files whose package is one of the scopes.
fn find_dotted<'a>(
    origin: Origin<'a, '_>,
    near: &[usize],
    asked: &mut Vec<Asked<'a>>,
    first: &str,
    name: &str,
) -> Result<Hit<'a>, Memory>
    requires origin { IsOrigin origin near.now }
    requires some { 0 < length first.now }
    requires plain { IsPlain first.now }
    requires asked { AreAsked origin.files.now origin.scope.now.1 asked.old.items }
    ensures is { IfOk result (λ hit. found_at hit ≡ dotted_from origin.entry.files.now origin.entry.scope.now.1
        (dotted origin.entry.files.now (scopes origin.entry.outward.root.now) first.now name.now) first.now name.now) }
    ensures asked { OnOk result (AreAsked origin.entry.files.now origin.entry.scope.now.1 asked.new.items) }
{
    let along = origin.outward.along;
    let depth = origin.scope.depth();
    'scopes: for i in 0..depth {
        let place = look_inside(origin, near, asked, i, first)?;
        let packages = packages_at(origin.scope, asked, i);
        let lead = origin.scope.lead(i);
        let parts = lead.parts();
        if decides(origin.alloc, origin.files, packages, place, parts, first)? {
            return find_below(origin.alloc, origin.files, along, packages, parts, name);
        }
    }
    dotted_outward(
        origin.alloc,
        origin.files,
        near,
        origin.outward,
        first,
        name,
    )
}

/// What the name `name` is found as from the scope of `origin` outwards. `near` has the places of
/// the files whose package is one of the scopes.
pub(crate) fn find<'a>(
    origin: Origin<'a, '_>,
    near: &[usize],
    asked: &mut Vec<Asked<'a>>,
    name: &str,
) -> Result<Hit<'a>, Memory>
    requires origin { IsOrigin origin near.now }
    requires asked { AreAsked origin.files.now origin.scope.now.1 asked.old.items }
    ensures is { IfOk result (λ hit. found_at hit
        ≡ search origin.entry.files.now (scopes origin.entry.scope.now.0) name.now) }
    ensures asked { OnOk result (AreAsked origin.entry.files.now origin.entry.scope.now.1 asked.new.items) }
{
    if name.is_empty() {
        return Ok(Hit::Nothing);
    }
    match name.strip_prefix('.') {
        Some(full) => find_any(origin.alloc, origin.files, None, &[], full),
        None => match name.split_once('.') {
            Some((first, _)) => find_dotted(origin, near, asked, first, name),
            None => find_single(origin, near, asked, name),
        },
    }
}

/// The places of those of `files` whose package is one of the scopes of `within`.
pub(crate) fn near_scopes(
    alloc: Global,
    files: &Lookup<'_>,
    within: &str,
) -> Result<Vec<usize>, Memory>
    ensures near { IfOk result (λ v. AreNear v.items files.now (scopes within.now)) }
{
    files.near(alloc, innermost(within))
}

/// A type of a method, without a place.
fn type_of(alloc: Global, name: &str) -> Result<MethodType, Memory>
    ensures name { IfOk result (λ t. t.type_name.text ≡ name.now) }
{
    let type_name = Name {
        text: Text::new(alloc, name)?,
        span: NOWHERE,
    };
    Ok(MethodType {
        is_stream: false,
        type_name,
    })
}

/// A method whose first reference is to `name`.
fn method_of(alloc: Global, name: &str) -> Result<Node, Memory>
    ensures first { IfOk result (λ n. IsFirstAt n.statement name.now) }
{
    let method = Name {
        text: Text::new(alloc, "")?,
        span: NOWHERE,
    };
    Ok(Node {
        depth: 0,
        span: NOWHERE,
        statement: Statement::Method {
            name: method,
            input: type_of(alloc, name)?,
            output: type_of(alloc, name)?,
        },
    })
}

/// What the name `name` is found as from the scopes of `within` in `files`.
fn find_within<'a>(
    alloc: Global,
    files: &'a Files,
    within: &str,
    name: &str,
) -> Result<Hit<'a>, Memory>
    ensures is { IfOk result (λ hit. found_at hit ≡ search files.now (scopes within.now) name.now) }
{
    let node = method_of(alloc, name)?;
    let uses = find_each(alloc, files, within, slice::from_ref(&node))?;
    Ok(hit_or_nothing(&uses, 0))
}

/// What `name` resolves to in the message, service or package `within` of a file that sees the files
/// `visible` and reaches the files `reach`.
pub(crate) fn look_up<'a>(
    alloc: Global,
    visible: &'a Files,
    reach: &'a Files,
    within: &str,
    name: &str,
) -> Result<Outcome<'a>, Memory>
    ensures is { IfOk result (λ o. lookup_at o ≡ lookup (record { visible = visible.now; reach = reach.now }) within.now name.now) }
{
    let visible = find_within(alloc, visible, within, name)?;
    let reached = find_within(alloc, reach, within, name)?;
    Ok(outcome_of(visible, reached))
}

/// What a name resolves to that is found as `visible` in the visible files and as `reached` in those
/// that are reached.
pub(crate) fn outcome_of<'a>(visible: Hit<'a>, reached: Hit<'a>) -> Outcome<'a>
    ensures is { lookup_at result ≡ lookup_by (found_at visible.entry) (found_at reached.entry) }
{
    match visible {
        Hit::Type(place) => Outcome::Type(place),
        Hit::Other => Outcome::NotAType,
        Hit::Nothing => match reached {
            Hit::Type(place) => Outcome::NotVisible(place.file),
            _ => Outcome::NotFound,
        },
    }
}
