//! The files of a scope in order, and the look-up of full names in them.
//!
//! A look-up asks only the files whose package the name can be in (`by_package`). These are found
//! once for all the names that a reference is looked up by.
ghost use Rattle.std.specs.Prelude.{◌≡◌, ◌≤◌, ◌++◌, ◌∷◌, [], IfOk, cond, filter};
ghost use Rattle.std.specs.Option.{option_copied};
ghost use Rattle.pq_schema.specs.Resolution.{meaning, is_package};
ghost use Rattle.pq_rules.specs.Relations.{Each};
ghost use Rattle.pq_schema.specs.aux.FirstOf.{first_of, other_with, is_other_at};
ghost use Rattle.pq_schema.specs.aux.Grouping.{AreNear, IsBelow, IsIndex, around};
ghost use Rattle.pq_schema.specs.aux.Inside.{AreShort};
ghost use Rattle.pq_schema.specs.aux.NearFiles.{AreOthers};
ghost use Rattle.pq_schema.specs.aux.Hits.{meaning_at};
ghost use Rattle.pq_schema.specs.aux.NameParts.{leading};
ghost use Rattle.pq_schema.specs.aux.PackageRange.{IsRange};
ghost use Rattle.pq_schema.specs.aux.Scopes.{chain};

use crate::names::nesting::outer;
use crate::names::spelled::Spelled;
use crate::scope::by_package::{Entry, packages_of, places_near};
use crate::scope::named::{Place, file_of, first_definition};
use crate::scope::package_range::PackageRange;
use crate::scope::scope::FileDefs;
use pq_names::{Memory, Text};
use std::alloc::Global;
use std::marker::Model;

/// Whether the file at `place` is there and is not the file `file`.
fn is_other(files: &[FileDefs], place: usize, file: &str) -> bool
    ensures is { result ≡ is_other_at file.now files.now place }
{
    match files.get(place) {
        Some(f) => f.file.get().as_str() != file,
        None => false,
    }
}

/// Adds `place` to `others` if a file is there that is not the file `file`.
fn push_other(
    others: &mut Vec<usize>,
    files: &[FileDefs],
    place: usize,
    file: &str,
) -> Result<(), Memory>
    ensures added { IfOk result (λ _. others.new.items
        ≡ others.old.items ++ cond (is_other_at file.now files.now place) (place ∷ []) []) }
{
    if is_other(files, place, file) {
        others.push(place)?;
    }
    Ok(())
}

/// Those of `places` at which is a file that is not the file `file`.
fn others_of(
    alloc: Global,
    files: &[FileDefs],
    places: &[usize],
    file: &str,
) -> Result<Vec<usize>, Memory>
    ensures others { IfOk result (λ v. v.items ≡ filter (is_other_at file.now files.now) places.now) }
{
    let mut others = Vec::with_capacity(alloc, places.len())?;
    'places: for place in places {
        push_other(&mut others, files, *place, file)?;
    }
    Ok(others)
}

/// The larger one of `a` and `b`.
pub(crate) fn larger(a: usize, b: usize) -> usize
    ensures first { a ≤ result }
    ensures second { b ≤ result }
{
    if a < b { b } else { a }
}

/// The most bytes that the package of one of `files` has.
fn longest_of(files: &[FileDefs]) -> usize
    ensures longest { AreShort result files.now }
{
    let mut longest = 0usize;
    'files: for i in 0..files.len() {
        let count = files[i].defs.get().package_name().len();
        longest = larger(longest, count);
    }
    longest
}

/// Files in order, with their definitions. Contracts see the list.
#[derive(Drop)]
pub(crate) struct Files {
    files: Vec<FileDefs>,
    /// The packages of the files, sorted.
    packages: Vec<Entry>,
    /// The most bytes that a package has.
    longest: usize,
}

impl Model for Files {
    ghost use Rattle.std.specs.Prelude.{List};
    ghost use Rattle.pq_schema.specs.declared.scope.scope.FileDefs.{FileDefs};
    ghost use Rattle.pq_schema.specs.aux.Grouping.{IsIndex};
    ghost use Rattle.pq_schema.specs.aux.Inside.{AreShort};

    ghost Value = { List FileDefs };

    ghost view = { λ f. f.files.items };

    ghost invariant = { λ f. IsIndex f.packages.items f.files.items × AreShort f.longest f.files.items };
}

impl Files {
    /// The files `files`.
    pub(crate) fn new(alloc: Global, files: Vec<FileDefs>) -> Result<Files, Memory>
        ensures files { IfOk result (λ f. f ≡ files.items) }
    {
        let packages = packages_of(alloc, files.as_slice())?;
        let longest = longest_of(files.as_slice());
        Ok(Files {
            files,
            packages,
            longest,
        })
    }

    /// The files, in order.
    pub(crate) fn as_slice(&self) -> &[FileDefs]
        ensures value { result.now ≡ self.now }
    {
        &self.files
    }

    /// The places of the files whose package is `within`, a prefix of it before a dot, or empty, in
    /// order.
    pub(crate) fn near(&self, alloc: Global, within: Option<&str>) -> Result<Vec<usize>, Memory>
        ensures near { IfOk result
            (λ v. AreNear v.items self.now (chain (option_copied within.entry))) }
    {
        let mut near = places_near(alloc, &self.packages, within)?;
        near.sort_unstable();
        Ok(near)
    }

    /// The definitions of each file are below its package.
    pub(crate) fn files(&self) -> &[FileDefs]
        ensures value { result.now ≡ self.now }
        ensures below { Each IsBelow self.now }
    {
        &self.files
    }

    /// The places of the files but of the file `file`, whose package is `within`, a prefix of it
    /// before a dot, or empty, in order.
    pub(crate) fn others_near(
        &self,
        alloc: Global,
        file: &str,
        within: Option<&str>,
    ) -> Result<Vec<usize>, Memory>
        ensures others { IfOk result
            (λ v. AreOthers v.items file.now self.now (chain (option_copied within.entry))) }
    {
        let near = self.near(alloc, within)?;
        others_of(alloc, &self.files, &near, file)
    }

    /// The name of the first of the files, but of the file `file`, that defines `name`.
    pub(crate) fn first_other(
        &self,
        alloc: Global,
        file: &str,
        name: &str,
    ) -> Result<Option<&Text>, Memory>
        ensures first { IfOk result (λ o. option_copied o ≡ first_of (other_with file.now name.now) self.now) }
    {
        let others = self.others_near(alloc, file, outer(name))?;
        let found = first_definition(&self.files, &[], 0, &others, &Spelled::new(&[], name));
        Ok(file_of(found))
    }

    /// Whether the name in `text` is a package of the files, or the part of one before a dot.
    fn has(&self, text: &str) -> bool
        ensures is { result ≡ is_package self.now text.now }
    {
        if text.is_empty() {
            return false;
        }
        PackageRange::all(&self.packages).has(text)
    }

    /// Whether `name` is a package of the files, or the part of one before a dot. A name that is no
    /// longer than all packages is written to `buffer`.
    pub(crate) fn is_package(&self, buffer: &mut String, name: &Spelled<'_>) -> Result<bool, Memory>
        ensures is { IfOk result (λ b. b ≡ is_package self.now name.now) }
    {
        if name.is_longer(self.longest) {
            return Ok(false);
        }
        name.write_to(buffer)?;
        Ok(self.has(buffer.as_str()))
    }

    /// The packages of the files inside the package `root`.
    pub(crate) fn packages_in(&self, root: &str) -> PackageRange<'_>
        ensures range { IsRange self.now (leading root.now) result }
    {
        let all = PackageRange::all(&self.packages);
        if root.is_empty() {
            return all;
        }
        all.inside(root)
    }

    /// The packages of the files, sorted.
    pub(crate) fn packages(&self) -> &[Entry]
        ensures index { IsIndex result.now self.now }
    {
        &self.packages
    }
}
