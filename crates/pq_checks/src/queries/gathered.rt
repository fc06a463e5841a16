//! What the rule of a file's checks has gathered, and the errors by it.
ghost use Rattle.std.specs.Prelude.{◌≡◌, ◌-◌, ◌∷◌, List, [], ◌++◌, None, IfOk, OnOk, OnErr, cond, drop, flat_map, is_some, take, length, slice_get};
ghost use Rattle.std.specs.Option.{option_copied};
ghost use Rattle.pq_checks.specs.Compile.{file_faults};
ghost use Rattle.pq_checks.specs.Faults.{definition_table, elsewhere_faults, faults, link_table, type_table};
ghost use Rattle.pq_checks.specs.Line.{all_said};
ghost use Rattle.pq_schema.specs.Others.{other_files};
ghost use Rattle.pq_checks.specs.aux.Gathering.{surroundings_of, checked_of};
ghost use Rattle.pq_checks.specs.aux.Spots.{sited_in};

use crate::Memory;
use crate::around::definition_lines::{push_elsewhere_faults, push_twice_faults};
use crate::around::import_lines::push_import_faults;
use crate::around::reference_lines::push_reference_faults;
use crate::around::surroundings::Imported;
use crate::errors::fault::Fault;
use crate::lines::member_lines::push_member_faults;
use crate::lines::unread_lines::{push_package_faults, push_unread_faults};
use crate::tree::spots::{Spot, spots};
use pq_links::{FileItems, Import};
use pq_rules::{Shared, Text};
use pq_schema::{Defs, ResolvedReferences, Scope};
use pq_syntax::{Items, Node};
use std::alloc::Global;
use std::marker::Model;

/// A file with its imports, and the ring of imports into which it leads.
#[derive(Drop)]
pub struct LinkedFile {
    /// The name of the file.
    pub file: Text,
    /// What it is read as, without spans.
    pub items: Shared<FileItems>,
    /// Its imports.
    pub imports: Shared<Items<Import>>,
    /// The ring of a bad file, `None` of a good one.
    pub ring: Option<Shared<Items<Text>>>,
}

/// All that the checks of a file know before they look at the files that it imports.
#[derive(Drop)]
pub struct Known {
    /// The file.
    pub linked: LinkedFile,
    /// Its definitions.
    pub defs: Shared<Defs>,
    /// Its scope.
    pub scope: Shared<Scope>,
    /// Its type references, with what they resolve to.
    pub references: Shared<ResolvedReferences>,
}

/// The files that a file imports, as far as their states were read. Contracts see the list.
#[derive(Drop)]
pub struct States {
    states: Vec<Imported>,
}

impl Model for States {
    ghost use Rattle.std.specs.Prelude.{List};
    ghost use Rattle.pq_checks.specs.declared.around.surroundings.Imported.{Imported};

    ghost Value = { List Imported };

    ghost view = { λ s. s.states.items };
}

impl States {
    /// No file.
    pub(crate) fn new(alloc: Global) -> States
        ensures none { result ≡ [] }
    {
        States {
            states: Vec::new(alloc),
        }
    }

    /// The files, in order.
    pub(crate) fn as_slice(&self) -> &[Imported]
        ensures value { result.now ≡ self.now }
    {
        self.states.as_slice()
    }

    /// Adds the file `imported`.
    pub(crate) fn push(&mut self, imported: Imported) -> Result<(), Memory>
        ensures added { OnOk result (self.new ≡ self.old ++ imported ∷ []) }
        ensures same { OnErr result (self.new ≡ self.old) }
    {
        self.states.push(imported)?;
        Ok(())
    }

    /// Takes the last file away.
    pub(crate) fn pop(&mut self)
        ensures first { self.new ≡ take (length self.old - 1) self.old }
    {
        self.states.pop();
    }
}

/// Imports of which some are left. Contracts see the list of those.
#[derive(Drop)]
pub struct Waiting {
    imports: Shared<Items<Import>>,
    passed: usize,
}

impl Model for Waiting {
    ghost use Rattle.std.specs.Prelude.{List, drop};
    ghost use Rattle.pq_links.specs.declared.links.Import.{Import};

    ghost Value = { List Import };

    ghost view = { λ w. drop w.passed w.imports };
}

impl Waiting {
    /// All of `imports`.
    pub(crate) fn new(imports: Shared<Items<Import>>) -> Waiting
        ensures all { result ≡ imports }
    {
        Waiting { imports, passed: 0 }
    }

    /// The first import that is left.
    pub(crate) fn first(&self) -> Option<&Import>
        ensures first { option_copied result ≡ slice_get self.now 0 }
    {
        self.imports.get().as_slice().get(self.passed)
    }

    /// The import after the first that is left.
    pub(crate) fn second(&self) -> Option<&Import>
        ensures second { option_copied result ≡ slice_get self.now 1 }
    {
        let imports = self.imports.get().as_slice();
        if self.passed >= imports.len() {
            return None;
        }
        imports.get(self.passed + 1)
    }

    /// Passes the first import that is left, if there is one.
    pub(crate) fn step(&mut self)
        ensures rest { self.new ≡ drop 1 self.old }
    {
        if self.passed < self.imports.get().as_slice().len() {
            self.passed += 1;
        }
    }

    /// The number of imports that are left.
    pub(crate) fn left(&self) -> usize
        ensures left { result ≡ length self.now }
    {
        self.imports
            .get()
            .as_slice()
            .len()
            .saturating_sub(self.passed)
    }
}

impl LinkedFile {
    /// The names of the ring, `None` of a good file.
    fn ring(&self) -> Option<&[Text]>
        ensures ring { option_copied result ≡ self.now.ring }
    {
        match &self.ring {
            Some(ring) => Some(ring.get().as_slice()),
            None => None,
        }
    }
}

/// Adds the errors of the package and of the imports.
fn push_links(
    alloc: Global,
    faults: &mut Vec<Fault>,
    known: &Known,
    imported: &[Imported],
    next: Option<&Text>,
    spots: &[Spot<'_>],
) -> Result<(), Memory>
    ensures said { IfOk result (λ _. faults.new.items ≡ faults.old.items
        ++ all_said (link_table (surroundings_of known.now imported.now (option_copied next.entry)) (sited_in spots.now))) }
{
    push_package_faults(alloc, faults, spots)?;
    push_import_faults(alloc, faults, spots, imported, known.linked.ring(), next)
}

/// Adds the errors of definitions that other files have too, in a good file.
fn push_elsewhere(
    alloc: Global,
    faults: &mut Vec<Fault>,
    known: &Known,
    nodes: &[Node],
) -> Result<(), Memory>
    ensures said { IfOk result (λ _. faults.new.items ≡ faults.old.items
        ++ cond (is_some known.now.linked.ring) [] (flat_map (elsewhere_faults (other_files known.now.linked.file known.now.scope) nodes.now) known.now.defs.definitions)) }
{
    if known.linked.ring.is_some() {
        return Ok(());
    }
    push_elsewhere_faults(
        alloc,
        faults,
        known.linked.file.as_str(),
        known.scope.get(),
        nodes,
        known.defs.get(),
    )
}

/// Adds the errors of the definitions. What the file imports does not matter to them.
fn push_definitions(
    alloc: Global,
    faults: &mut Vec<Fault>,
    known: &Known,
    nodes: &[Node],
) -> Result<(), Memory>
    ensures said { IfOk result (λ _. faults.new.items ≡ faults.old.items
        ++ all_said (definition_table (surroundings_of known.now [] None) nodes.now)) }
{
    push_twice_faults(alloc, faults, known.defs.get())?;
    push_elsewhere(alloc, faults, known, nodes)
}

/// Adds the errors of the type references. What the file imports does not matter to them.
fn push_types(
    alloc: Global,
    faults: &mut Vec<Fault>,
    known: &Known,
    nodes: &[Node],
) -> Result<(), Memory>
    ensures said { IfOk result (λ _. faults.new.items ≡ faults.old.items
        ++ all_said (type_table (surroundings_of known.now [] None) nodes.now)) }
{
    if known.linked.ring.is_some() {
        return Ok(());
    }
    push_reference_faults(alloc, faults, nodes, known.references.get().as_slice())
}

/// The errors of a file with the statements `nodes`.
fn tree_faults(
    alloc: Global,
    known: &Known,
    imported: &[Imported],
    next: Option<&Text>,
    nodes: &[Node],
) -> Result<Vec<Fault>, Memory>
    ensures faults { IfOk result (λ fs. fs.items
        ≡ faults (surroundings_of known.now imported.now (option_copied next.entry)) nodes.now) }
{
    let spots = spots(alloc, nodes)?;
    let spots = spots.as_slice();
    let mut faults = Vec::new(alloc);
    push_unread_faults(alloc, &mut faults, spots)?;
    push_links(alloc, &mut faults, known, imported, next, spots)?;
    push_definitions(alloc, &mut faults, known, nodes)?;
    push_member_faults(alloc, &mut faults, spots)?;
    push_types(alloc, &mut faults, known, nodes)?;
    Ok(faults)
}

/// The errors of the file of `known`, which imports the files `imported`, and the first bad import
/// of which is `next`.
fn faults_of(
    alloc: Global,
    known: &Known,
    imported: &[Imported],
    next: Option<&Text>,
) -> Result<Vec<Fault>, Memory>
    ensures faults { IfOk result (λ fs. fs.items
        ≡ file_faults (surroundings_of known.now imported.now (option_copied next.entry)) known.now.linked.items) }
{
    match known.linked.items.get() {
        FileItems::Tree(file) => tree_faults(alloc, known, imported, next, file.as_slice()),
        FileItems::Absent | FileItems::Fault(_) | FileItems::Other(_) => Ok(Vec::new(alloc)),
    }
}

/// The errors of the file of `known`, to be shared; it imports the files `imported`, and its first
/// bad import is `next`.
pub(crate) fn check(
    alloc: Global,
    known: &Known,
    imported: &[Imported],
    next: Option<&Text>,
) -> Result<Shared<Items<Fault>>, Memory>
    ensures checked { IfOk result
        (λ v. v ≡ checked_of known.now imported.now (option_copied next.entry)) }
{
    let faults = faults_of(alloc, known, imported, next)?;
    Shared::new(alloc, Items::new(faults))
}
