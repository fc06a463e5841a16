//! The files that a file reaches, the first of them with their definitions.
ghost use Rattle.std.specs.Prelude.{◌≡◌, ◌++◌, ◌∷◌, [], ℕ, List, Some, cond, length, IfOk, OnOk, OnErr, option_copied, option_map, option_to_list, slice_get, drop, find, bytes_eq, true};
ghost use Rattle.std.specs.BTreeMap.{get, is_at};
ghost use Rattle.std.specs.Cmp.Lexicographic.{slice_cmp};
ghost use Rattle.std.specs.Ordering.{nat_cmp};
ghost use Rattle.pq_schema.specs.Answers.{picked, scope_by};
ghost use Rattle.pq_schema.specs.aux.Collecting.{collect_read, first_of, defs_if, defs_named, named};
ghost use Rattle.pq_schema.specs.declared.scope.scope.FileDefs.{FileDefs};

use crate::define::definitions::Defs;
use crate::scope::scope::{FileDefs, Scope};
use pq_links::Links;
use pq_rules::{Memory, Shared, Text};
use std::alloc::Global;
use std::collections::BTreeMap;
use std::marker::Model;

/// The links of a file, and the first of the files that it reaches with their definitions.
/// Contracts see the names of the visible files, the files that are left, and those before them.
#[derive(Drop)]
pub struct Collected {
    links: Shared<Links>,
    files: Vec<FileDefs>,
}

impl Model for Collected {
    ghost use Rattle.pq_schema.specs.aux.Collecting.{Collecting, collected_view};

    ghost Value = { Collecting };

    ghost view = { λ c. collected_view c.links c.files.items };
}

/// A copy of `file`, which shares the name and the definitions.
fn copy_file(file: &FileDefs) -> Result<FileDefs, Memory>
    ensures copy { IfOk result (λ f. f ≡ file.now) }
{
    Ok(FileDefs {
        file: file.file.copy()?,
        defs: file.defs.copy()?,
    })
}

/// The most visible files that are found by a walk each.
const FEW: usize = 8;

/// A copy of `files`, which shares the names and the definitions, with room for one more.
pub(crate) fn copy_files(alloc: Global, files: &[FileDefs]) -> Result<Vec<FileDefs>, Memory>
    ensures copy { IfOk result (λ fs. fs.items ≡ files.now) }
{
    let mut copies = Vec::with_capacity(alloc, files.len() + 1)?;
    'files: for file in files {
        copies.push(copy_file(file)?)?;
    }
    Ok(copies)
}

/// Adds the definitions of `file` to `index`, which has none of that name.
fn add_new(index: &mut BTreeMap<Shared<Text>, Shared<Defs>>, file: &FileDefs) -> Result<(), Memory>
    ensures added { IfOk result (λ _. (n : List ℕ) → get (slice_cmp nat_cmp) index.new n ≡ cond (is_at (slice_cmp nat_cmp file.now.file) n) (Some file.now.defs) (get (slice_cmp nat_cmp) index.old n)) }
{
    index.insert(file.file.copy()?, file.defs.copy()?)?;
    Ok(())
}

/// Adds the definitions of `file` to `index`, unless it has definitions of that name.
fn add_file(index: &mut BTreeMap<Shared<Text>, Shared<Defs>>, file: &FileDefs) -> Result<(), Memory>
    ensures first { IfOk result (λ _. (n : List ℕ) → get (slice_cmp nat_cmp) index.new n ≡ first_of (get (slice_cmp nat_cmp) index.old n) (defs_if file.now n)) }
{
    match index.get(&file.file) {
        Some(_) => Ok(()),
        None => add_new(index, file),
    }
}

/// The definitions of `files` by the names of the files. The first of two files of one name counts.
fn index_of(
    alloc: Global,
    files: &[FileDefs],
) -> Result<BTreeMap<Shared<Text>, Shared<Defs>>, Memory>
    ensures first { IfOk result (λ m. (n : List ℕ) → get (slice_cmp nat_cmp) m n ≡ defs_named files.now n) }
{
    let mut index = BTreeMap::new(alloc);
    'files: for file in files {
        add_file(&mut index, file)?;
    }
    Ok(index)
}

/// Adds the file `name` with its definitions in `index`, if it has them.
fn push_named(
    found: &mut Vec<FileDefs>,
    index: &BTreeMap<Shared<Text>, Shared<Defs>>,
    name: &Shared<Text>,
) -> Result<(), Memory>
    ensures added { IfOk result (λ _. found.new.items ≡ found.old.items ++ option_to_list (option_map (named name.now) (get (slice_cmp nat_cmp) index.now name.now))) }
{
    if let Some(defs) = index.get(name) {
        let file = FileDefs {
            file: name.copy()?,
            defs: defs.copy()?,
        };
        found.push(file)?;
    }
    Ok(())
}

/// The first of `files` with the name `name`.
fn file_named<'a>(files: &'a [FileDefs], name: &Shared<Text>) -> Option<&'a FileDefs>
    ensures first { option_copied result ≡ find (λ (f : FileDefs). bytes_eq f.file name.now) files.now }
{
    'files: for file in files {
        if file.file == *name {
            return Some(file);
        }
    }
    None
}

/// Adds the first of `files` with the name `name`, if there is one.
fn push_first(
    found: &mut Vec<FileDefs>,
    files: &[FileDefs],
    name: &Shared<Text>,
) -> Result<(), Memory>
    ensures added { IfOk result (λ _. found.new.items
        ≡ found.old.items ++ option_to_list (find (λ (f : FileDefs). bytes_eq f.file name.now) files.now)) }
{
    if let Some(file) = file_named(files, name) {
        found.push(copy_file(file)?)?;
    }
    Ok(())
}

/// The files of `files` with the names `names`, in the order of these, by a walk for each.
fn pick_few(
    alloc: Global,
    files: &[FileDefs],
    names: &[Shared<Text>],
) -> Result<Vec<FileDefs>, Memory>
    ensures picked { IfOk result (λ fs. fs.items ≡ picked files.now names.now) }
{
    let mut found = Vec::with_capacity(alloc, names.len())?;
    'names: for name in names {
        push_first(&mut found, files, name)?;
    }
    Ok(found)
}

/// The files of `files` with the names `names`, in the order of these, in time N log N.
fn pick_many(
    alloc: Global,
    files: &[FileDefs],
    names: &[Shared<Text>],
) -> Result<Vec<FileDefs>, Memory>
    ensures picked { IfOk result (λ fs. fs.items ≡ picked files.now names.now) }
{
    let index = index_of(alloc, files)?;
    let mut found = Vec::with_capacity(alloc, names.len())?;
    'names: for name in names {
        push_named(&mut found, &index, name)?;
    }
    Ok(found)
}

/// The files of `files` with the names `names`, in the order of these.
fn pick(alloc: Global, files: &[FileDefs], names: &[Shared<Text>]) -> Result<Vec<FileDefs>, Memory>
    ensures picked { IfOk result (λ fs. fs.items ≡ picked files.now names.now) }
{
    if names.len() <= FEW {
        pick_few(alloc, files, names)
    } else {
        pick_many(alloc, files, names)
    }
}

/// Whether `files` is one file, and `visible` its name alone.
fn is_alone(visible: &[Shared<Text>], files: &[FileDefs]) -> bool
    ensures alone { result ≡ true → picked files.now visible.now ≡ files.now }
{
    match (visible, files) {
        ([name], [file]) => file.file == *name,
        _ => false,
    }
}

/// The scope of a file that reaches `files` and sees those of them with the names `visible`.
pub(crate) fn scope_of(
    alloc: Global,
    visible: &[Shared<Text>],
    files: Vec<FileDefs>,
) -> Result<Shared<Scope>, Memory>
    ensures scope { IfOk result (λ s. s ≡ scope_by visible.now files.items) }
{
    if is_alone(visible, files.as_slice()) {
        return Shared::new(alloc, Scope::of_visible(alloc, files)?);
    }
    let visible = pick(alloc, files.as_slice(), visible)?;
    let scope = Scope::new(alloc, visible, files)?;
    Shared::new(alloc, scope)
}

impl Collected {
    /// The files that a file with `links` reaches, none with its definitions yet.
    pub(crate) fn new(alloc: Global, links: Shared<Links>) -> Collected
        ensures left { result ≡ (links.visible, (links.reach, [])) }
    {
        Collected {
            links,
            files: Vec::new(alloc),
        }
    }

    /// The first file that is left.
    pub(crate) fn next(&self) -> Option<&Shared<Text>>
        ensures next { option_copied result ≡ slice_get self.now.1.0 0 }
    {
        self.links.get().reach.as_slice().get(self.files.len())
    }

    /// The file after the first that is left.
    pub(crate) fn second(&self) -> Option<&Shared<Text>>
        ensures second { option_copied result ≡ slice_get self.now.1.0 1 }
    {
        self.links.get().reach.as_slice().get(self.files.len() + 1)
    }

    /// The number of files that are left.
    pub(crate) fn left(&self) -> usize
        ensures left { result ≡ length self.now.1.0 }
    {
        self.links
            .get()
            .reach
            .as_slice()
            .len()
            .saturating_sub(self.files.len())
    }

    /// Gives the first file that is left the definitions `defs`. If an allocation fails, nothing
    /// changes.
    pub(crate) fn read(&mut self, defs: Shared<Defs>) -> Result<(), Memory>
        ensures read { OnOk result (self.new ≡ collect_read self.old defs) }
        ensures same { OnErr result (self.new ≡ self.old) }
    {
        let file = match self.next() {
            Some(name) => name.copy()?,
            None => return Ok(()),
        };
        self.files.push(FileDefs { file, defs })?;
        Ok(())
    }

    /// The scope by the files so far.
    pub(crate) fn scope(&self, alloc: Global) -> Result<Shared<Scope>, Memory>
        ensures scope { IfOk result (λ s. s ≡ scope_by self.now.0 self.now.1.1) }
    {
        let files = copy_files(alloc, self.files.as_slice())?;
        scope_of(alloc, self.links.get().visible.as_slice(), files)
    }

    /// The scope by the files so far and the file `name` with the definitions `defs`.
    pub(crate) fn scope_with(
        &self,
        alloc: Global,
        name: &Shared<Text>,
        defs: &Shared<Defs>,
    ) -> Result<Shared<Scope>, Memory>
        ensures scope { IfOk result (λ s. s ≡ scope_by self.now.0 (self.now.1.1 ++ record { file = name.now; defs = defs.now } ∷ [])) }
    {
        let mut files = copy_files(alloc, self.files.as_slice())?;
        files.push(FileDefs {
            file: name.copy()?,
            defs: defs.copy()?,
        })?;
        scope_of(alloc, self.links.get().visible.as_slice(), files)
    }
}
