//! The query of a file's imports, generic over the sum of queries in which it is used.
ghost use Rattle.std.specs.Prelude.{◌≡◌, ℕ, IfOk, option_copied, unwrap_or};
ghost use Rattle.pq_links.specs.Files.{file_imports};
ghost use Rattle.pq_links.specs.aux.Queries.{imports_level, imports_starts, imports_advances};
ghost use Rattle.pq_links.specs.aux.Falls.{once_falls};
ghost use Rattle.pq_links.specs.declared.file_items.FileItems.TheVariants.{Absent};

use crate::Memory;
use crate::file_items::FileItems;
use crate::import_list::imports_of_file;
use crate::keys::LinkKeys;
use crate::links::Import;
use pq_rules::{Query, Shared, Text, Turn};
use pq_syntax::Items;
use std::alloc::Global;
use std::marker::PhantomData;

/// The imports of a file, or `None` where it is absent (the law `imports_by_answers`).
#[derive(Drop)]
pub struct ImportsQuery<S> {
    sum: PhantomData<S>,
}

impl<S> ImportsQuery<S> {
    /// Makes the query.
    pub fn new() -> Self {
        ImportsQuery { sum: PhantomData }
    }
}

/// The imports of a file that is `items` without spans, `None` for an absent one.
fn imports_by(
    alloc: Global,
    items: Option<&Shared<FileItems>>,
) -> Result<Option<Shared<Items<Import>>>, Memory>
    ensures imports { IfOk result (λ is. is ≡ file_imports (unwrap_or (option_copied items.entry) Absent)) }
{
    match items {
        Some(items) => imports_of_file(alloc, items.get()),
        None => Ok(None),
    }
}

impl<S: LinkKeys> Query for ImportsQuery<S> {
    type Key = Text;

    type Value = Option<Shared<Items<Import>>>;

    type Part = ();

    type AnyKey = S::Key;

    type AnyAnswer = S::Answer;

    const LEVEL: u8 = 3;

    ghost LEVEL = { imports_level };

    ghost starts = { λ s k. imports_starts S.items k };

    ghost advances = { λ s p a. imports_advances (S.itemed a) };

    ghost lefts = { λ s p. (0, 0) };

    ghost falls = { λ s p a q r e. once_falls q r e };

    fn start(
        &self,
        _alloc: Global,
        key: &Text,
    ) -> Result<Turn<S::Key, (), Option<Shared<Items<Import>>>>, Memory> {
        Ok(Turn::Ask(S::items_key(key)?, ()))
    }

    fn advance(
        &self,
        alloc: Global,
        _part: (),
        answer: &S::Answer,
    ) -> Result<Turn<S::Key, (), Option<Shared<Items<Import>>>>, ()> {
        match imports_by(alloc, S::read_items(answer)) {
            Ok(imports) => Ok(Turn::Done(imports)),
            Err(_) => Err(()),
        }
    }

    fn left(&self, _part: &()) -> (u32, u64) {
        (0, 0)
    }
}
