//! The query of a file's definitions, generic over the sum of queries in which it is used.
ghost use Rattle.std.specs.Prelude.{◌≡◌, ℕ, [], IfOk, option_copied, unwrap_or};
ghost use Rattle.pq_links.specs.Files.{nodes_in};
ghost use Rattle.pq_links.specs.declared.file_items.FileItems.TheVariants.{Absent};
ghost use Rattle.pq_schema.specs.Definitions.{defs_of};
ghost use Rattle.pq_schema.specs.aux.Queries.{defs_level, defs_starts, defs_advances};
ghost use Rattle.pq_schema.specs.aux.Falls.{defs_falls};

use crate::define::definitions::Defs;
use crate::queries::keys::SchemaKeys;
use pq_links::FileItems;
use pq_rules::{Memory, Query, Shared, Text, Turn};
use pq_syntax::Node;
use std::alloc::Global;
use std::marker::PhantomData;

/// The definitions of a file (the law `defs_by_answers`).
#[derive(Drop)]
pub struct DefsQuery<S> {
    sum: PhantomData<S>,
}

impl<S> DefsQuery<S> {
    /// Makes the query.
    pub fn new() -> Self {
        DefsQuery { sum: PhantomData }
    }
}

/// The statements of a file that is `items` without spans, `None` for an absent one.
pub(crate) fn statements<'a>(items: Option<&'a Shared<FileItems>>) -> &'a [Node]
    ensures nodes { result.now ≡ nodes_in (unwrap_or (option_copied items.entry) Absent) }
{
    match items {
        Some(items) => items.get().nodes(),
        None => &[],
    }
}

/// The definitions of a file that is `items` without spans, to be shared.
fn defs_by(alloc: Global, items: Option<&Shared<FileItems>>) -> Result<Shared<Defs>, Memory>
    ensures defs { IfOk result (λ d. d ≡ defs_of (nodes_in (unwrap_or (option_copied items.entry) Absent))) }
{
    let defs = Defs::of(alloc, statements(items))?;
    Shared::new(alloc, defs)
}

impl<S: SchemaKeys> Query for DefsQuery<S> {
    type Key = Text;

    type Value = Shared<Defs>;

    type Part = ();

    type AnyKey = S::Key;

    type AnyAnswer = S::Answer;

    const LEVEL: u8 = 5;

    ghost LEVEL = { defs_level };

    ghost starts = { λ s k. defs_starts S.items k };

    ghost advances = { λ s p a. defs_advances (nodes_in (S.itemed a)) };

    ghost lefts = { λ s p. (0, 0) };

    ghost falls = { λ s p a q r e. defs_falls (nodes_in (S.itemed a)) q r e };

    fn start(&self, _alloc: Global, key: &Text) -> Result<Turn<S::Key, (), Shared<Defs>>, Memory> {
        Ok(Turn::Ask(S::items_key(key)?, ()))
    }

    fn advance(
        &self,
        alloc: Global,
        _part: (),
        answer: &S::Answer,
    ) -> Result<Turn<S::Key, (), Shared<Defs>>, ()> {
        match defs_by(alloc, S::read_items(answer)) {
            Ok(defs) => Ok(Turn::Done(defs)),
            Err(_) => Err(()),
        }
    }

    fn left(&self, _part: &()) -> (u32, u64) {
        (0, 0)
    }
}
