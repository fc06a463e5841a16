//! The query of a file's tree without spans, generic over the sum of queries in which it is used.
ghost use Rattle.std.specs.Prelude.{◌≡◌, ℕ, IfOk, option_copied, unwrap_or};
ghost use Rattle.pq_links.specs.Files.{items_of};
ghost use Rattle.pq_links.specs.aux.Queries.{items_level, items_starts, items_advances};
ghost use Rattle.pq_links.specs.aux.Falls.{once_falls};
ghost use Rattle.pq_links.specs.declared.files.ParsedFile.TheVariants.{Absent};

use crate::Memory;
use crate::file_items::{FileItems, items_of};
use crate::files::ParsedFile;
use crate::keys::LinkKeys;
use pq_rules::{Query, Shared, Text, Turn};
use std::alloc::Global;
use std::marker::PhantomData;

/// What a file is read as, without spans (the law `items_by_answers`).
#[derive(Drop)]
pub struct ItemsQuery<S> {
    sum: PhantomData<S>,
}

impl<S> ItemsQuery<S> {
    /// Makes the query.
    pub fn new() -> Self {
        ItemsQuery { sum: PhantomData }
    }
}

/// What a file that is read as `file` is without spans, to be shared; `None` is an absent file.
fn items_by(alloc: Global, file: Option<&Shared<ParsedFile>>) -> Result<Shared<FileItems>, Memory>
    ensures items { IfOk result (λ i. i ≡ items_of (unwrap_or (option_copied file.entry) Absent)) }
{
    let items = match file {
        Some(file) => items_of(alloc, file.get())?,
        None => FileItems::Absent,
    };
    Shared::new(alloc, items)
}

impl<S: LinkKeys> Query for ItemsQuery<S> {
    type Key = Text;

    type Value = Shared<FileItems>;

    type Part = ();

    type AnyKey = S::Key;

    type AnyAnswer = S::Answer;

    const LEVEL: u8 = 2;

    ghost LEVEL = { items_level };

    ghost starts = { λ s k. items_starts S.parse k };

    ghost advances = { λ s p a. items_advances (S.parsed a) };

    ghost lefts = { λ s p. (0, 0) };

    ghost falls = { λ s p a q r e. once_falls q r e };

    fn start(
        &self,
        _alloc: Global,
        key: &Text,
    ) -> Result<Turn<S::Key, (), Shared<FileItems>>, Memory> {
        Ok(Turn::Ask(S::parse_key(key)?, ()))
    }

    fn advance(
        &self,
        alloc: Global,
        _part: (),
        answer: &S::Answer,
    ) -> Result<Turn<S::Key, (), Shared<FileItems>>, ()> {
        match items_by(alloc, S::read_parsed(answer)) {
            Ok(items) => Ok(Turn::Done(items)),
            Err(_) => Err(()),
        }
    }

    fn left(&self, _part: &()) -> (u32, u64) {
        (0, 0)
    }
}
