//! The definitions of a file, with their full names.
//!
//! `Defs::of` makes the full names in one walk over the tree, and sorts them. Names of one scope
//! share its name. `find` is a binary search, `repeated` a walk over the sorted names.
ghost use Rattle.std.specs.Prelude.{◌≡◌, bytes_eq, find, IfOk, IsTrue};
ghost use Rattle.std.specs.Option.{option_copied};
ghost use Rattle.pq_schema.specs.Definitions.{defs_of};
ghost use Rattle.pq_schema.specs.Repeated.{AreRepeated};
ghost use Rattle.pq_schema.specs.aux.Fronts.{BeginAlike};
ghost use Rattle.pq_schema.specs.aux.InPackage.{AllBelow, dotted};
ghost use Rattle.pq_schema.specs.aux.Index.{IsIndexOf};
ghost use Rattle.pq_schema.specs.aux.NameCodes.{code_of};

use crate::define::define::definitions_in;
use crate::define::digests::digest_of;
use crate::define::index::{first_named, index_of, repeated};
use crate::define::outline::package_of;
use crate::names::coded::Coded;
use crate::names::enclosing::Enclosing;
use crate::names::full_name::{FullName, with_dot};
use crate::names::spelled::Spelled;
use crate::{Memory, Text};
use pq_syntax::Node;
use std::alloc::Global;
use std::marker::Model;

/// The kind of a definition (proto3 language specification, "Proto file").
#[derive(Clone, Copy, Debug, PartialEq, Eq)]
pub enum DefinitionKind {
    /// A message.
    Message,
    /// An enum.
    Enum,
    /// A service.
    Service,
    /// A field, also one of a oneof, or a map field.
    Field,
    /// A oneof.
    Oneof,
    /// A method of a service.
    Method,
    /// A value of an enum.
    Value,
    /// The message of a map field's entries (proto3 language specification, "Maps").
    Entry,
}

/// A definition: a name that a file gives to something.
#[derive(Drop, PartialEq, Eq)]
pub struct Definition {
    /// The full name, without a leading dot.
    pub full_name: FullName,
    /// What is defined.
    pub kind: DefinitionKind,
    /// The number of its item: the statements of a file count from 0, in text order.
    pub item: usize,
}

/// The package and the definitions of a file.
///
/// Contracts see the package and the list of the definitions, and `==` compares exactly these.
#[derive(Drop)]
pub struct Defs {
    package_name: Text,
    /// The package with a dot after it.
    root: Text,
    definitions: Vec<Definition>,
    /// The full names in the order of the index, each with its place in `definitions`.
    index: Vec<(Coded, usize)>,
    /// A number made of the definitions.
    digest: u64,
}

impl Model for Defs {
    ghost use Rattle.pq_schema.specs.Contents.{Defs as Contents};

    ghost Value = { Contents };

    ghost use Rattle.std.specs.Prelude.{◌≡◌};
    ghost use Rattle.pq_schema.specs.aux.InPackage.{AllBelow, dotted};
    ghost use Rattle.pq_schema.specs.aux.Index.{IsIndexOf};
    ghost use Rattle.pq_schema.specs.aux.Digests.{digest_from};

    ghost view = { λ d. record { package_name = d.package_name; definitions = d.definitions.items } };

    ghost invariant = { λ d. (d.root ≡ dotted d.package_name)
        × AllBelow d.package_name d.definitions.items
        × IsIndexOf d.index.items d.definitions.items
        × (d.digest ≡ digest_from 0 d.definitions.items) };
}

impl Defs {
    /// The package and the definitions of a file with the statements `nodes`.
    pub fn of(alloc: Global, nodes: &[Node]) -> Result<Defs, Memory>
        // The package of a file and its definitions with full names, in text order.
        ensures defs { IfOk result (λ d. d ≡ defs_of nodes.now) }
    {
        let package_name = package_of(alloc, nodes)?;
        let root = with_dot(alloc, package_name.as_str())?;
        let package = Enclosing::package(alloc, &package_name, &root)?;
        let definitions = definitions_in(alloc, &package, nodes)?;
        let index = index_of(alloc, nodes, &definitions)?;
        let digest = digest_of(&definitions);
        Ok(Defs {
            package_name,
            root,
            definitions,
            index,
            digest,
        })
    }

    /// The package, empty if the file has none.
    pub fn package_name(&self) -> &str
        // The package.
        ensures name { result.now ≡ self.now.package_name }
    {
        self.package_name.as_str()
    }

    /// The package with a dot after it. The definitions are in the package.
    pub(crate) fn root(&self) -> &Text
        ensures name { result.now ≡ dotted self.now.package_name }
        ensures below { AllBelow self.now.package_name self.now.definitions }
    {
        &self.root
    }

    /// The definitions, in text order.
    pub fn definitions(&self) -> &[Definition]
        // The definitions.
        ensures value { result.now ≡ self.now.definitions }
    {
        &self.definitions
    }

    /// The first definition with the full name `full_name`, by one binary search.
    pub fn find(&self, full_name: &str) -> Option<&Definition>
        // The first definition of a full name.
        ensures first { option_copied result
            ≡ find (λ d. bytes_eq d.full_name full_name.now) self.now.definitions }
    {
        let name = Spelled::new(&[], full_name);
        self.find_spelled(&name)
    }

    /// The first definition with the full name `name`, by one binary search.
    pub(crate) fn find_spelled(&self, name: &Spelled<'_>) -> Option<&Definition>
        ensures first { option_copied result
            ≡ find (λ d. bytes_eq d.full_name name.now) self.now.definitions }
    {
        self.find_alike(name, name.code(), 0)
    }

    /// The first definition with the full name `name`, whose code is `code`, by one binary search.
    /// The name and those of all definitions begin with the same `count` bytes.
    pub(crate) fn find_alike(
        &self,
        name: &Spelled<'_>,
        code: u64,
        count: usize,
    ) -> Option<&Definition>
        requires code { code ≡ code_of name.now }
        requires alike { BeginAlike count name.now self.now.definitions }
        ensures first { option_copied result
            ≡ find (λ d. bytes_eq d.full_name name.now) self.now.definitions }
    {
        first_named(&self.index, &self.definitions, name, code, count)
    }

    /// The full names in the order of the index, each with the place of its definition.
    pub(crate) fn index(&self) -> &[(Coded, usize)]
        ensures index { IsIndexOf result.now self.now.definitions }
    {
        &self.index
    }

    /// Whether this may equal `other`, by one comparison of numbers. Definitions of other names or at
    /// other places mostly have another number.
    pub(crate) fn may_equal(&self, other: &Defs) -> bool
        ensures equal { self.now ≡ other.now → IsTrue result }
    {
        self.digest == other.digest
    }

    /// Of each definition, whether one before it has its full name, by one walk over the names in
    /// order.
    pub fn repeated(&self, alloc: Global) -> Result<Vec<bool>, Memory>
        // Of each definition, whether one before it has its full name.
        ensures repeated { IfOk result (λ v. AreRepeated v.items self.now.definitions) }
    {
        repeated(alloc, &self.index, &self.definitions)
    }
}

impl PartialEq for Defs {
    ghost use Rattle.pq_schema.specs.aux.SameContents.{same_contents, contents_per};

    ghost eq = { same_contents };

    ghost laws = { contents_per };

    fn eq(&self, other: &Self) -> bool {
        self.package_name == other.package_name
            && self.definitions.as_slice() == other.definitions.as_slice()
    }
}

impl Eq for Defs {
    ghost use Rattle.pq_schema.specs.aux.SameContents.{contents_equiv};

    ghost laws = { contents_equiv };
}
