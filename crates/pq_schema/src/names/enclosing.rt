//! What encloses a definition, as the scope of its name.
//!
//! The parts of the scope's name are made once, and all names in the scope share them.
ghost use Rattle.std.specs.Prelude.{◌≡◌, IfOk};
ghost use Rattle.std.specs.List.{concat};
ghost use Rattle.pq_schema.specs.Definitions.{qualified};
ghost use Rattle.pq_schema.specs.aux.InPackage.{dotted};
ghost use Rattle.pq_schema.specs.aux.NameParts.{leading};

use crate::names::full_name::FullName;
use pq_names::{Memory, Text};
use pq_rules::Shared;
use pq_syntax::Items;
use std::alloc::Global;
use std::marker::Model;

/// A message, a service or a package, as the scope of the names in it. Contracts see its full name.
#[derive(Drop)]
pub(crate) struct Enclosing {
    name: FullName,
    /// The parts of the name, the outermost first, each with the dot after it.
    parts: Shared<Items<Text>>,
}

impl Model for Enclosing {
    ghost use Rattle.std.specs.Prelude.{List, ℕ, ◌≡◌};
    ghost use Rattle.std.specs.List.{concat};
    ghost use Rattle.pq_schema.specs.aux.NameParts.{leading};

    ghost Value = { List ℕ };

    ghost view = { λ e. e.name };

    ghost invariant = { λ e. concat e.parts ≡ leading e.name };
}

/// The parts of the package `name`, where `root` is the name with a dot after it: `root` alone, or
/// none for the empty package.
fn root_parts(alloc: Global, name: &Text, root: &Text) -> Result<Shared<Items<Text>>, Memory>
    requires root { root.now ≡ dotted name.now }
    ensures parts { IfOk result (λ ps. concat ps ≡ leading name.now) }
{
    if name.as_str().is_empty() {
        return Shared::new(alloc, Items::new(Vec::new(alloc)));
    }
    let mut parts = Vec::with_capacity(alloc, 1)?;
    parts.push(root.copy()?)?;
    Shared::new(alloc, Items::new(parts))
}

impl Enclosing {
    /// The package `name` as a scope, where `root` is the name with a dot after it. All names in the
    /// package share `root`.
    pub(crate) fn package(alloc: Global, name: &Text, root: &Text) -> Result<Enclosing, Memory>
        requires root { root.now ≡ dotted name.now }
        ensures name { IfOk result (λ e. e ≡ name.now) }
    {
        let parts = root_parts(alloc, name, root)?;
        let full_name = FullName::after(
            Shared::new(alloc, Items::new(Vec::new(alloc)))?,
            name.copy()?,
        );
        Ok(Enclosing {
            name: full_name,
            parts,
        })
    }

    /// The message or service `name` in this scope, as a scope.
    pub(crate) fn inside(&self, alloc: Global, name: &Text) -> Result<Enclosing, Memory>
        ensures name { IfOk result (λ e. e ≡ qualified self.now name.now) }
    {
        let full_name = self.full_name(name)?;
        let parts = full_name.parts(alloc)?;
        Ok(Enclosing {
            name: full_name,
            parts,
        })
    }

    /// A copy, which shares the parts.
    pub(crate) fn copy(&self) -> Result<Enclosing, Memory>
        ensures copy { IfOk result (λ e. e ≡ self.now) }
    {
        Ok(Enclosing {
            name: self.name.copy()?,
            parts: self.parts.copy()?,
        })
    }

    /// The full name of `name` in this scope.
    pub(crate) fn full_name(&self, name: &Text) -> Result<FullName, Memory>
        ensures name { IfOk result (λ f. f ≡ qualified self.now name.now) }
    {
        Ok(FullName::after(self.parts.copy()?, name.copy()?))
    }

    /// The full name of the scope.
    pub(crate) fn name(&self) -> &FullName
        ensures name { result.now ≡ self.now }
    {
        &self.name
    }

    /// The parts of what is before a name in the scope.
    pub(crate) fn parts(&self) -> &[Text]
        ensures parts { concat result.now ≡ leading self.now }
    {
        self.parts.get().as_slice()
    }
}
