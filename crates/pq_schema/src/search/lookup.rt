//! Files, for the look-up of many full names in them.
//!
//! A look-up asks the files whose package the name can be in, one after the other. Where many come
//! and many files would be asked, one index of the names of all files is made, and each look-up is
//! one binary search in it. So n names that n files of one package define cost n log n.
ghost use Rattle.std.specs.Prelude.{◌≡◌, ℕ, List, false, length, IfOk, IfSome};
ghost use Rattle.std.specs.Option.{option_copied};
ghost use Rattle.pq_schema.specs.declared.scope.scope.FileDefs.{FileDefs};
ghost use Rattle.pq_schema.specs.Resolution.{is_package, meaning};
ghost use Rattle.pq_schema.specs.Resolution.Meaning.{Undefined};
ghost use Rattle.pq_schema.specs.aux.Fronts.{Begins, BothBegin, Guides};
ghost use Rattle.pq_rules.specs.Relations.{Each};
ghost use Rattle.pq_schema.specs.aux.Grouping.{AreNear, IsBelow, around};
ghost use Rattle.pq_schema.specs.aux.Hits.{meaning_at};
ghost use Rattle.pq_schema.specs.aux.NameCodes.{code_of};
ghost use Rattle.pq_schema.specs.aux.NameParts.{leading};
ghost use Rattle.pq_schema.specs.aux.PackageRange.{IsRange};
ghost use Rattle.pq_schema.specs.aux.Scopes.{chain};

use crate::names::spelled::Spelled;
use crate::scope::by_package::Entry;
use crate::scope::files::Files;
use crate::scope::fronts::Common;
use crate::scope::named::{Place, first_definition, first_indexed};
use crate::scope::near_names::{Named, count_of, has_code, has_code_near, names_of};
use crate::scope::package_range::PackageRange;
use crate::scope::scope::FileDefs;
use crate::search::along::Along;
use pq_names::Memory;
use std::alloc::Global;
use std::marker::Model;

/// Files, for the look-up of full names. Contracts see the list of the files.
#[derive(Drop)]
pub(crate) struct Lookup<'a> {
    files: &'a Files,
    /// Whether all files are asked, whatever the name.
    asks_all: bool,
    /// The places of all files, where all are asked or there is an index.
    all: Vec<usize>,
    /// The index of all files, where it was worth making.
    names: Option<Vec<Named>>,
}

impl<'a> Model for Lookup<'a> {
    ghost use Rattle.std.specs.Prelude.{List};
    ghost use Rattle.pq_schema.specs.declared.scope.scope.FileDefs.{FileDefs};
    ghost use Rattle.pq_schema.specs.aux.NearNames.{AreNames, HasAll};
    ghost use Rattle.pq_schema.specs.aux.Inside.{AsksAll};

    ghost Value = { List FileDefs };

    ghost view = { λ l. l.files.now };

    ghost invariant = { λ l. AreNames l.names l.files.now l.all.items × HasAll l.names l.all.items l.files.now
        × AsksAll l.asks_all l.all.items l.files.now };
}

/// The numbers below `count`, in order.
fn all_places(alloc: Global, count: usize) -> Result<Vec<usize>, Memory>
    ensures near { IfOk result (λ v. (files : List FileDefs) (roots : List (List ℕ))
        → length files ≡ count → AreNear v.items files roots) }
{
    let mut all = Vec::with_capacity(alloc, count)?;
    'places: for place in 0..count {
        all.push(place)?;
    }
    all.sort_unstable();
    Ok(all)
}

/// The most files of one package.
pub(crate) fn most_of_one(packages: &[Entry]) -> usize {
    let mut most = 0usize;
    let mut count = 0usize;
    'packages: for at in 0..packages.len() {
        if at > 0 && packages[at].0 == packages[at - 1].0 {
            count = count.saturating_add(1);
        } else {
            count = 1;
        }
        if most < count {
            most = count;
        }
    }
    most
}

/// The most files that are all asked for each name.
const FEW: usize = 2;

/// Whether `files` are so few that all are asked for each name.
pub(crate) fn is_few(files: &Files) -> bool {
    files.as_slice().len() <= FEW
}

/// How many searches of a file the index takes for each definition.
const SEARCHES: usize = 2;

impl<'a> Lookup<'a> {
    /// The files `files`, without an index.
    pub(crate) fn plain(alloc: Global, files: &'a Files) -> Lookup<'a>
        ensures files { result ≡ files.now }
    {
        Lookup {
            files,
            asks_all: false,
            all: Vec::new(alloc),
            names: None,
        }
    }

    /// The files `files`, of which all are asked for each name.
    pub(crate) fn few(alloc: Global, files: &'a Files) -> Result<Lookup<'a>, Memory>
        ensures files { IfOk result (λ l. l ≡ files.now) }
    {
        let all = all_places(alloc, files.as_slice().len())?;
        Ok(Lookup {
            files,
            asks_all: true,
            all,
            names: None,
        })
    }

    /// The files `files`, whose look-ups take about `searches` searches of one file where there is no
    /// index. There is one where it costs less.
    pub(crate) fn new(
        alloc: Global,
        files: &'a Files,
        searches: usize,
    ) -> Result<Lookup<'a>, Memory>
        ensures files { IfOk result (λ l. l ≡ files.now) }
    {
        let count = files.as_slice().len();
        if searches < count {
            return Ok(Lookup::plain(alloc, files));
        }
        let all = all_places(alloc, count)?;
        let definitions = count_of(files.as_slice(), &all);
        if searches / SEARCHES < definitions {
            return Ok(Lookup::plain(alloc, files));
        }
        let names = names_of(alloc, files.as_slice(), &all, definitions)?;
        Ok(Lookup {
            files,
            asks_all: true,
            all,
            names: Some(names),
        })
    }

    /// The places of all files, where all are asked or there is an index.
    pub(crate) fn all(&self) -> Option<&[usize]>
        ensures all { IfSome result (λ ks. (roots : List (List ℕ)) → AreNear ks.now self.now roots) }
    {
        if self.asks_all { Some(&self.all) } else { None }
    }

    /// The places of the files whose package is `within`, a prefix of it before a dot, or empty, in
    /// order.
    pub(crate) fn near(&self, alloc: Global, within: Option<&str>) -> Result<Vec<usize>, Memory>
        ensures near { IfOk result
            (λ v. AreNear v.items self.now (chain (option_copied within.entry))) }
    {
        self.files.near(alloc, within)
    }

    /// The first definition with the full name `name`: the files `files`, which are all, in order, then
    /// each in text order. `near` has the places of the files that can have the name. It goes `start`
    /// bytes along the way of `fronts`.
    fn definition_guided(
        &self,
        files: &'a [FileDefs],
        fronts: &[Common],
        start: usize,
        near: &[usize],
        name: &Spelled<'_>,
    ) -> Option<Place<'a>>
        requires files { files.now ≡ self.now }
        requires below { Each IsBelow files.now }
        requires near { AreNear near.now self.now (around name.now) }
        requires guides { Guides fronts.now start files.now name.now }
        ensures first { meaning_at result ≡ meaning self.now name.now }
    {
        match &self.names {
            Some(names) => first_indexed(files, fronts, start, &self.all, names, name),
            None => first_definition(files, fronts, start, near, name),
        }
    }

    /// The first definition with the full name `name`: the files in order, then each in text order.
    /// `near` has the places of the files that can have the name.
    pub(crate) fn definition(&self, near: &[usize], name: &Spelled<'_>) -> Option<Place<'a>>
        requires near { AreNear near.now self.now (around name.now) }
        ensures first { meaning_at result ≡ meaning self.now name.now }
    {
        self.definition_guided(self.files.files(), &[], 0, near, name)
    }

    /// The first definition with the full name `name`, as `definition` finds it. The name begins with
    /// the same `start` bytes as the names in the package of `along`, which are mostly not read.
    pub(crate) fn definition_along(
        &self,
        along: &Along<'_>,
        start: usize,
        near: &[usize],
        name: &Spelled<'_>,
    ) -> Option<Place<'a>>
        requires near { AreNear near.now self.now (around name.now) }
        requires files { along.now.files ≡ self.now }
        requires front { BothBegin start (leading along.now.root) name.now }
        ensures first { meaning_at result ≡ meaning self.now name.now }
    {
        self.definition_guided(self.files.files(), along.fronts(), start, near, name)
    }

    /// The first definition with the full name `name`, as `definition` finds it. The name begins with
    /// the package of `along`, which is mostly not read.
    pub(crate) fn definition_below(
        &self,
        along: &Along<'_>,
        near: &[usize],
        name: &Spelled<'_>,
    ) -> Option<Place<'a>>
        requires near { AreNear near.now self.now (around name.now) }
        requires files { along.now.files ≡ self.now }
        requires front { Begins (leading along.now.root) name.now }
        ensures first { meaning_at result ≡ meaning self.now name.now }
    {
        self.definition_along(along, along.count(), near, name)
    }

    /// Whether a definition in the files, of which `near` has those that can have the name `name`, has
    /// its code. Only these are compared with it.
    pub(crate) fn may_have(&self, near: &[usize], name: &Spelled<'_>) -> bool {
        let code = name.code();
        match &self.names {
            Some(names) => has_code(names, code),
            None => has_code_near(self.files.files(), near, code),
        }
    }

    /// The packages of the files inside the package `root`.
    pub(crate) fn packages_in(&self, root: &str) -> PackageRange<'a>
        ensures range { IsRange self.now (leading root.now) result }
    {
        self.files.packages_in(root)
    }

    /// Whether `name` is a package of the files, or the part of one before a dot. A name that may be
    /// one is copied.
    pub(crate) fn is_package(&self, alloc: Global, name: &Spelled<'_>) -> Result<bool, Memory>
        ensures is { IfOk result (λ b. b ≡ is_package self.now name.now) }
    {
        let mut buffer = String::new(alloc);
        self.files.is_package(&mut buffer, name)
    }
}
