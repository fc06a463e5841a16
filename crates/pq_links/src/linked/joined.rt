//! The imports of a file, the first of them with the links of their files.
ghost use Rattle.std.specs.Prelude.{◌≡◌, [], ◌∷◌, ◌++◌, length, IfOk, OnOk, OnErr, option_copied, slice_get};
ghost use Rattle.pq_links.specs.Visibility.{links_by};
ghost use Rattle.pq_links.specs.aux.Joined.{join_read};

use super::names;
use crate::Memory;
use crate::links::{Import, Links};
use pq_rules::{Shared, Text};
use pq_syntax::Items;
use std::alloc::Global;
use std::marker::Model;

/// The imports of a file, the first of them with links. Contracts see the imports that are left,
/// and those before them with their links.
#[derive(Drop)]
pub struct Joined {
    imports: Shared<Items<Import>>,
    pairs: Vec<(Import, Shared<Links>)>,
}

impl Model for Joined {
    ghost use Rattle.std.specs.Prelude.{List};
    ghost use Rattle.pq_links.specs.declared.links.Import.{Import};
    ghost use Rattle.pq_links.specs.declared.links.Links.{Links};
    ghost use Rattle.pq_links.specs.aux.Joined.{joined_view};

    ghost Value = { List Import × List (Import × Links) };

    ghost view = { λ j. joined_view j.imports j.pairs.items };
}

impl Joined {
    /// The imports of a file, none with its links yet.
    pub(crate) fn new(alloc: Global, imports: Shared<Items<Import>>) -> Joined
        ensures left { result ≡ (imports, []) }
    {
        Joined {
            imports,
            pairs: Vec::new(alloc),
        }
    }

    /// The first import that is left.
    pub(crate) fn next(&self) -> Option<&Import>
        ensures next { option_copied result ≡ slice_get self.now.0 0 }
    {
        self.imports.get().as_slice().get(self.pairs.len())
    }

    /// The import after the first that is left.
    pub(crate) fn second(&self) -> Option<&Import>
        ensures second { option_copied result ≡ slice_get self.now.0 1 }
    {
        self.imports.get().as_slice().get(self.pairs.len() + 1)
    }

    /// The number of imports that are left.
    pub(crate) fn left(&self) -> usize
        ensures left { result ≡ length self.now.0 }
    {
        self.imports
            .get()
            .as_slice()
            .len()
            .saturating_sub(self.pairs.len())
    }

    /// Gives the first import that is left the links of its file.
    pub(crate) fn read(&mut self, links: Shared<Links>) -> Result<(), Memory>
        ensures read { OnOk result (self.new ≡ join_read self.old links) }
        ensures same { OnErr result (self.new ≡ self.old) }
    {
        let import = match self.next() {
            Some(import) => import.copy()?,
            None => return Ok(()),
        };
        self.pairs.push((import, links))?;
        Ok(())
    }

    /// The links of `file`, by the imports with links so far and one more import.
    pub(crate) fn join(
        &self,
        alloc: Global,
        file: &Text,
        last: &Import,
        links: &Shared<Links>,
    ) -> Result<Shared<Links>, Memory>
        ensures links { IfOk result (λ l. l ≡ links_by file.now (self.now.1 ++ (last.now, links.now) ∷ [])) }
    {
        names::join(alloc, file, self.pairs.as_slice(), last, links)
    }
}
