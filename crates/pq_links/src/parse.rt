//! The query of what a file is read as, generic over the sum of queries in which it is used.
ghost use Rattle.std.specs.Prelude.{◌≡◌, ℕ, IfOk, option_copied};
ghost use Rattle.pq_links.specs.Files.{read_file};
ghost use Rattle.pq_links.specs.aux.Queries.{parse_level, parse_starts, parse_advances};
ghost use Rattle.pq_links.specs.aux.Falls.{once_falls};

use crate::Memory;
use crate::files::{ParsedFile, read_file};
use crate::keys::LinkKeys;
use pq_rules::{Query, Shared, Text, Turn};
use std::alloc::Global;
use std::marker::PhantomData;

/// The parse of a file: its tree or its first error, and its lines (the law `parse_by_answers`). Of
/// a text with an error it has what braces show too, if it reads them.
#[derive(Drop)]
pub struct ParseQuery<S> {
    loose: bool,
    sum: PhantomData<S>,
}

impl<S> ParseQuery<S> {
    /// Makes the query, which reads the braces of a text with an error if `loose` is true.
    pub fn new(loose: bool) -> Self
        // The query reads braces exactly if that was asked for.
        ensures loose { result.loose ≡ loose }
    {
        ParseQuery {
            loose,
            sum: PhantomData,
        }
    }
}

/// Reads a file with `text`, to be shared.
fn read_shared(alloc: Global, loose: bool, text: Option<&str>) -> Result<Shared<ParsedFile>, Memory>
    ensures file { IfOk result (λ f. f ≡ read_file loose (option_copied text.entry)) }
{
    let file = read_file(alloc, loose, text)?;
    Shared::new(alloc, file)
}

impl<S: LinkKeys> Query for ParseQuery<S> {
    type Key = Text;

    type Value = Shared<ParsedFile>;

    type Part = ();

    type AnyKey = S::Key;

    type AnyAnswer = S::Answer;

    const LEVEL: u8 = 1;

    ghost LEVEL = { parse_level };

    ghost starts = { λ s k. parse_starts S.input k };

    ghost advances = { λ s p a. parse_advances s.loose (S.text a) };

    ghost lefts = { λ s p. (0, 0) };

    ghost falls = { λ s p a q r e. once_falls q r e };

    fn start(
        &self,
        _alloc: Global,
        key: &Text,
    ) -> Result<Turn<S::Key, (), Shared<ParsedFile>>, Memory> {
        Ok(Turn::Ask(S::input_key(key)?, ()))
    }

    fn advance(
        &self,
        alloc: Global,
        _part: (),
        answer: &S::Answer,
    ) -> Result<Turn<S::Key, (), Shared<ParsedFile>>, ()> {
        match read_shared(alloc, self.loose, S::read_text(answer)) {
            Ok(file) => Ok(Turn::Done(file)),
            Err(_) => Err(()),
        }
    }

    fn left(&self, _part: &()) -> (u32, u64) {
        (0, 0)
    }
}
