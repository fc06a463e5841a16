//! Lists of names of files, each name once.
//!
//! The type keeps that each name is there once. So the list of a file with one import is that
//! import's list after the file's own name, and takes one walk and no set. Lists share their names:
//! a name in a further list is one more pointer.
ghost use Rattle.std.specs.Prelude.{◌≡◌, ◌∷◌, ◌++◌, [], IfOk, OnOk, bytes_eq, cond};
ghost use Rattle.pq_links.specs.Once.{each_once};
ghost use Rattle.pq_links.specs.aux.Adding.{is_not};

use crate::Memory;
use pq_rules::{Shared, Text};
use std::alloc::Global;
use std::marker::Model;

/// Names of files, each once. Contracts see the list of them, and `==` compares exactly that list.
#[derive(Drop)]
pub struct FileNames {
    names: Vec<Shared<Text>>,
}

impl Model for FileNames {
    ghost use Rattle.std.specs.Prelude.{◌≡◌, List, ℕ, bytes_eq};
    ghost use Rattle.pq_links.specs.Once.{each_once};

    ghost Value = { List (List ℕ) };

    ghost view = { λ n. n.names.items };

    ghost invariant = { λ n. each_once bytes_eq n.names.items ≡ n.names.items };
}

/// Adds `name` to `names`, unless it is `file`. The list shares the name.
fn push_other(
    names: &mut Vec<Shared<Text>>,
    file: &Shared<Text>,
    name: &Shared<Text>,
) -> Result<(), Memory>
    ensures added { OnOk result
        (names.new.items ≡ names.old.items ++ cond (is_not file.now name.now) (name.now ∷ []) []) }
{
    if name != file {
        names.push(name.copy()?)?;
    }
    Ok(())
}

/// `file`, and after it those of `names` that are not `file`. The list shares all of them.
fn names_after(
    alloc: Global,
    file: &Shared<Text>,
    names: &FileNames,
) -> Result<Vec<Shared<Text>>, Memory>
    ensures names { IfOk result (λ v. v.items ≡ each_once bytes_eq (file.now ∷ names.now)) }
{
    let others = names.as_slice();
    let mut all = Vec::with_capacity(alloc, others.len() + 1)?;
    all.push(file.copy()?)?;
    'names: for name in others {
        push_other(&mut all, file, name)?;
    }
    Ok(all)
}

impl FileNames {
    /// The names `names`, each of which is there once.
    pub(crate) fn new(names: Vec<Shared<Text>>) -> FileNames
        requires once { each_once bytes_eq names.items ≡ names.items }
        ensures names { result ≡ names.items }
    {
        FileNames { names }
    }

    /// The names, in text order.
    pub fn as_slice(&self) -> &[Shared<Text>]
        // The names of the list, in order.
        ensures value { result.now ≡ self.now }
        // Each name is in the list once.
        ensures once { each_once bytes_eq self.now ≡ self.now }
    {
        &self.names
    }

    /// `file`, and after it the names but `file`, by one walk. The list shares all of them.
    pub(crate) fn after(&self, alloc: Global, file: &Shared<Text>) -> Result<FileNames, Memory>
        ensures names { IfOk result (λ n. n ≡ each_once bytes_eq (file.now ∷ self.now)) }
    {
        let names = names_after(alloc, file, self)?;
        Ok(FileNames::new(names))
    }
}

impl PartialEq for FileNames {
    ghost use Rattle.std.specs.Prelude.{bytes_eq};
    ghost use Rattle.std.proofs.Common.{rules};
    ghost use Rattle.std.specs.Cmp.Rules.{comparing};
    ghost use Rattle.std.specs.Cmp.Lexicographic.{pointwise, lists_per};

    ghost eq = { pointwise bytes_eq };

    ghost laws = { lists_per (Prim.search (comparing, rules)) };

    fn eq(&self, other: &Self) -> bool {
        self.as_slice() == other.as_slice()
    }
}

impl Eq for FileNames {
    ghost use Rattle.std.specs.Cmp.Lexicographic.{lists_equiv};
    ghost use Rattle.std.proofs.Common.{rules};
    ghost use Rattle.std.specs.Cmp.Rules.{comparing};

    ghost laws = { lists_equiv (Prim.search (comparing, rules)) };
}
