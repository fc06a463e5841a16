//! What was looked up in the open scopes, and the packages inside them.
//!
//! A full name is compared with the definition that has it, and the name of a scope can be as long
//! as the file. So the answers of look-ups in scopes of long names are kept while the scope is open:
//! a name is looked up once in each of these scopes, however often it is asked. Of many names that
//! are not found only those are kept whose code some definition has, since no other is compared.
ghost use Rattle.std.specs.Prelude.{◌≡◌, ◌++◌, ◌<◌, ◌+◌, ℕ, List, [], IfOk, IfSome, None, OnOk, cond, get_or, length};
ghost use Rattle.pq_schema.specs.declared.scope.scope.FileDefs.{FileDefs};
ghost use Rattle.pq_schema.specs.aux.Asked.{AreAsked, IsAsked};
ghost use Rattle.pq_schema.specs.aux.Hits.{meaning_at};
ghost use Rattle.pq_schema.specs.aux.PackageRange.{IsRangeOf};
ghost use Rattle.pq_schema.specs.aux.Spots.{IsPlain};
ghost use Rattle.pq_schema.specs.aux.Walk.{IsOrigin};
ghost use Rattle.pq_schema.specs.Resolution.{meaning};

use crate::scope::named::Place;
use crate::scope::package_range::PackageRange;
use crate::search::inner::Inner;
use crate::search::origin::Origin;
use pq_names::{Memory, Text};
use std::alloc::Global;
use std::collections::BTreeMap;

/// A name that was looked up in a scope, and its first definition.
#[derive(Drop)]
pub(crate) struct Answer<'a> {
    pub(crate) name: Text,
    pub(crate) place: Option<Place<'a>>,
}

/// The look-ups in one scope.
#[derive(Drop)]
pub(crate) struct Asked<'a> {
    pub(crate) answers: Vec<Answer<'a>>,
    /// The packages inside the scope, if they were looked for.
    pub(crate) packages: Option<PackageRange<'a>>,
    /// Where a name may be in `answers`.
    numbers: BTreeMap<Text, usize>,
}

impl<'a> Asked<'a> {
    /// A scope without look-ups. `packages` has the packages inside it.
    fn new(alloc: Global, packages: Option<PackageRange<'a>>) -> Asked<'a>
        ensures asked { (files : List FileDefs) (lead : List ℕ) → IsRangeOf files packages.entry lead → IsAsked files lead result }
    {
        Asked {
            answers: Vec::new(alloc),
            packages,
            numbers: BTreeMap::new(alloc),
        }
    }

    /// The number of the answer for `name`, if there is one.
    fn number(&self, alloc: Global, name: &str) -> Result<Option<usize>, Memory> {
        if self.answers.is_empty() {
            return Ok(None);
        }
        let key = Text::new(alloc, name)?;
        match self.numbers.get(&key) {
            Some(number) => Ok(Some(*number)),
            None => Ok(None),
        }
    }

    /// The first definition of `name`, if it was looked up.
    fn known(&self, alloc: Global, name: &str) -> Result<Option<Option<Place<'a>>>, Memory>
        ensures known { IfOk result (λ o. IfSome o (λ p. (files : List FileDefs) (lead : List ℕ)
            → IsAsked files lead self.now → meaning_at p ≡ meaning files (lead ++ name.now))) }
    {
        let number = match self.number(alloc, name)? {
            Some(number) => number,
            None => return Ok(None),
        };
        match self.answers.get(number) {
            Some(answer) => {
                if answer.name.as_str() == name {
                    Ok(Some(answer.place))
                } else {
                    Ok(None)
                }
            }
            None => Ok(None),
        }
    }

    /// Keeps that the first definition of `name` is at `place`.
    fn keep(&mut self, alloc: Global, name: &str, place: Option<Place<'a>>) -> Result<(), Memory>
        ensures kept { OnOk result ((files : List FileDefs) (lead : List ℕ) → IsAsked files lead self.old
            → meaning_at place.entry ≡ meaning files (lead ++ name.now) → IsAsked files lead self.new) }
    {
        let name = Text::new(alloc, name)?;
        note(&mut self.numbers, &name, self.answers.len())?;
        self.answers.push(Answer { name, place })?;
        Ok(())
    }
}

/// Notes in `numbers` that `name` has the answer of the number `number`.
fn note(numbers: &mut BTreeMap<Text, usize>, name: &Text, number: usize) -> Result<(), Memory> {
    numbers.insert(name.copy()?, number)?;
    Ok(())
}

/// The first definition of `name` in the scope `level` of `asked`, if it was looked up.
fn known_at<'a>(
    alloc: Global,
    asked: &[Asked<'a>],
    level: usize,
    name: &str,
) -> Result<Option<Option<Place<'a>>>, Memory>
    ensures known { IfOk result (λ o. IfSome o (λ p. (files : List FileDefs) (leads : List (List ℕ)) (at : ℕ)
        → AreAsked files leads asked.now → level + (at + 1) ≡ length leads
        → meaning_at p ≡ meaning files (get_or leads at [] ++ name.now))) }
{
    match asked.get(level) {
        Some(scope) => scope.known(alloc, name),
        None => Ok(None),
    }
}

/// Keeps that the first definition of `name` in the scope `level` of `asked` is at `place`.
fn keep_at<'a>(
    alloc: Global,
    asked: &mut Vec<Asked<'a>>,
    level: usize,
    name: &str,
    place: Option<Place<'a>>,
) -> Result<(), Memory>
    ensures kept { OnOk result ((files : List FileDefs) (leads : List (List ℕ)) (at : ℕ)
        → AreAsked files leads asked.old.items → level + (at + 1) ≡ length leads
        → meaning_at place.entry ≡ meaning files (get_or leads at [] ++ name.now) → AreAsked files leads asked.new.items) }
{
    if level < asked.len() {
        asked[level].keep(alloc, name, place)?;
    }
    Ok(())
}

/// The most names that are kept in each scope, whatever their codes.
const FEW: usize = 64;

/// Whether few names are kept in the scope `level` of `asked`.
fn has_few(asked: &[Asked<'_>], level: usize) -> bool {
    match asked.get(level) {
        Some(scope) => scope.answers.len() < FEW,
        None => false,
    }
}

/// The first definition of the name `name`, as `look_inside` finds it. What is before a name in the
/// scope is long.
fn look_long<'a>(
    origin: Origin<'a, '_>,
    near: &[usize],
    asked: &mut Vec<Asked<'a>>,
    at: usize,
    name: &str,
) -> Result<Option<Place<'a>>, Memory>
    requires origin { IsOrigin origin near.now }
    requires at { at < length origin.scope.now.1 }
    requires plain { IsPlain name.now }
    requires asked { AreAsked origin.files.now origin.scope.now.1 asked.old.items }
    ensures first { IfOk result (λ p. meaning_at p ≡ meaning origin.entry.files.now (get_or origin.entry.scope.now.1 at [] ++ name.now)) }
    ensures asked { OnOk result (AreAsked origin.entry.files.now origin.entry.scope.now.1 asked.new.items) }
{
    let level = origin.scope.depth() - 1 - at;
    if let Some(place) = known_at(origin.alloc, asked, level, name)? {
        return Ok(place);
    }
    let place = origin.definition(near, at, name);
    let full = origin.scope.lead(at).spell(name);
    let is_compared = place.is_some() || origin.files.may_have(near, &full);
    if !is_compared && !has_few(asked, level) {
        return Ok(place);
    }
    keep_at(origin.alloc, asked, level, name, place)?;
    Ok(place)
}

/// The packages inside the scope `at` from `scope` outwards, if they were looked for.
pub(crate) fn packages_at<'a>(
    scope: &Inner,
    asked: &[Asked<'a>],
    at: usize,
) -> Option<PackageRange<'a>>
    requires at { at < length scope.now.1 }
    ensures packages { (files : List FileDefs) → AreAsked files scope.now.1 asked.now
        → IsRangeOf files result (get_or scope.now.1 at []) }
{
    match asked.get(scope.depth() - 1 - at) {
        Some(scope) => scope.packages,
        None => None,
    }
}

/// The first definition of the name `name`, which has no dot, in the scope `at` outwards from that of
/// `origin`. `near` has the places of the files whose package is one of the scopes.
pub(crate) fn look_inside<'a>(
    origin: Origin<'a, '_>,
    near: &[usize],
    asked: &mut Vec<Asked<'a>>,
    at: usize,
    name: &str,
) -> Result<Option<Place<'a>>, Memory>
    requires origin { IsOrigin origin near.now }
    requires at { at < length origin.scope.now.1 }
    requires plain { IsPlain name.now }
    requires asked { AreAsked origin.files.now origin.scope.now.1 asked.old.items }
    ensures first { IfOk result (λ p. meaning_at p ≡ meaning origin.entry.files.now (get_or origin.entry.scope.now.1 at [] ++ name.now)) }
    ensures asked { OnOk result (AreAsked origin.entry.files.now origin.entry.scope.now.1 asked.new.items) }
{
    if origin.scope.lead(at).is_long() {
        return look_long(origin, near, asked, at, name);
    }
    Ok(origin.definition(near, at, name))
}

/// `packages` if `is_there`.
fn packages_if<'a>(is_there: bool, packages: Option<PackageRange<'a>>) -> Option<PackageRange<'a>>
    ensures packages { result ≡ cond is_there packages.entry None }
{
    if is_there { packages } else { None }
}

/// Opens the scopes that `asked` does not have, so that it has `count`. `packages` has the packages
/// inside the innermost.
pub(crate) fn open_scopes<'a>(
    alloc: Global,
    asked: &mut Vec<Asked<'a>>,
    count: usize,
    packages: Option<PackageRange<'a>>,
) -> Result<(), Memory>
    ensures asked { OnOk result ((files : List FileDefs) (more leads : List (List ℕ)) → count ≡ length (more ++ leads)
        → IsRangeOf files packages.entry (get_or (more ++ leads) 0 [])
        → AreAsked files leads asked.old.items → AreAsked files (more ++ leads) asked.new.items) }
{
    'scopes: for level in asked.len()..count {
        let there = packages_if(level + 1 == count, packages);
        asked.push(Asked::new(alloc, there))?;
    }
    Ok(())
}
