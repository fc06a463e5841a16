//! The query of a file's links, generic over the sum of queries in which it is used.
//!
//! It asks the imports of the file, then the links of each imported file in order, and joins them.
//! The part holds the imports with the links so far. If an allocation fails, the part comes back as
//! it was: what follows is computed first, and the part changes last.
ghost use Rattle.std.specs.Prelude.{◌≡◌, ◌<◌, ℕ, [], IfOk, IfErr};
ghost use Rattle.pq_rules.specs.declared.turn.Turn.TheVariants.{Done};
ghost use Rattle.pq_links.specs.Visibility.{no_links};
ghost use Rattle.pq_links.specs.aux.Queries.{linked_level, join_next, join_after, linked_starts, linked_advances, linked_left};
ghost use Rattle.pq_links.specs.aux.Falls.{linked_falls};
ghost use Rattle.pq_links.specs.aux.Following.{follows, first_turn};
ghost use Rattle.pq_links.specs.declared.linked.Linking.TheVariants.{Reading, Joining};

mod joined;
mod names;

use crate::Memory;
use crate::keys::LinkKeys;
use crate::links::{Import, Links};
pub use joined::Joined;
use names::{alone, nothing};
use pq_rules::{Query, Shared, Text, Turn};
use pq_syntax::Items;
use std::alloc::Global;
use std::marker::PhantomData;

/// What the rule of a file's links does with the next answer.
#[derive(Drop)]
pub enum Linking {
    /// The answer is the imports of the file.
    Reading(Text),
    /// The answer is the links of the first import that is left.
    Joining(Text, Joined),
}

/// The links of a file: what it exports, sees and reaches, by its imports and the links of their
/// files (the law `links_by_answers`).
#[derive(Drop)]
pub struct LinkedQuery<S> {
    sum: PhantomData<S>,
}

impl<S> LinkedQuery<S> {
    /// Makes the query.
    pub fn new() -> Self {
        LinkedQuery { sum: PhantomData }
    }
}

/// The links that `answer` holds.
fn links_in<S: LinkKeys>(alloc: Global, answer: &S::Answer) -> Result<Shared<Links>, Memory>
    ensures links { IfOk result (λ l. l ≡ S.links answer.now) }
{
    match S::read_links(answer) {
        Some(links) => links.copy(),
        None => nothing(alloc),
    }
}

/// The turn, without its part, after the first import that is left has `links`.
fn follow<S: LinkKeys>(
    alloc: Global,
    file: &Text,
    joined: &Joined,
    links: &Shared<Links>,
) -> Result<Turn<S::Key, (), Shared<Links>>, Memory>
    ensures turn { IfOk result (λ t. t ≡ follows S.linked file.now joined.now links.now) }
{
    match joined.next() {
        Some(import) => match joined.second() {
            Some(second) => Ok(Turn::Ask(S::linked_key(&second.file)?, ())),
            None => Ok(Turn::Done(joined.join(alloc, file, import, links)?)),
        },
        None => Ok(Turn::Done(nothing(alloc)?)),
    }
}

/// The turn, without its part, of a present file with `imports`.
fn first<S: LinkKeys>(
    alloc: Global,
    file: &Text,
    imports: &[Import],
) -> Result<Turn<S::Key, (), Shared<Links>>, Memory>
    ensures turn { IfOk result (λ t. t ≡ first_turn S.linked file.now imports.now) }
{
    match imports.first() {
        Some(import) => Ok(Turn::Ask(S::linked_key(&import.file)?, ())),
        None => Ok(Turn::Done(alone(alloc, file)?)),
    }
}

/// The turn after the imports of a present file: the rule asks the links of the first, or ends.
fn read_on<S: LinkKeys>(
    alloc: Global,
    file: Text,
    imports: &Shared<Items<Import>>,
) -> Result<Turn<S::Key, Linking, Shared<Links>>, Linking>
    ensures turn { IfOk result (λ t. t ≡ join_next S.linked file imports.now []) }
    ensures back { IfErr result (λ p. p ≡ Reading file) }
{
    match first::<S>(alloc, &file, imports.get().as_slice()) {
        Ok(Turn::Ask(key, ())) => match imports.copy() {
            Ok(imports) => Ok(Turn::Ask(key, Linking::Joining(file, Joined::new(alloc, imports)))),
            Err(_) => Err(Linking::Reading(file)),
        },
        Ok(Turn::Done(links)) => Ok(Turn::Done(links)),
        Err(_) => Err(Linking::Reading(file)),
    }
}

/// The turn after the imports of an absent file: the rule ends without links.
fn end_absent<S: LinkKeys>(
    alloc: Global,
    file: Text,
) -> Result<Turn<S::Key, Linking, Shared<Links>>, Linking>
    ensures turn { IfOk result (λ t. t ≡ Done no_links) }
    ensures back { IfErr result (λ p. p ≡ Reading file) }
{
    match nothing(alloc) {
        Ok(links) => Ok(Turn::Done(links)),
        Err(_) => Err(Linking::Reading(file)),
    }
}

/// The turn after the links of an import: the rule asks those of the next, or ends.
fn join_on<S: LinkKeys>(
    alloc: Global,
    file: Text,
    joined: Joined,
    links: Shared<Links>,
) -> Result<Turn<S::Key, Linking, Shared<Links>>, Linking>
    ensures turn { IfOk result (λ t. t ≡ join_after S.linked links (Joining file joined)) }
    ensures back { IfErr result (λ p. p ≡ Joining file joined) }
{
    let mut joined = joined;
    match follow::<S>(alloc, &file, &joined, &links) {
        Ok(Turn::Ask(key, ())) => match joined.read(links) {
            Ok(()) => Ok(Turn::Ask(key, Linking::Joining(file, joined))),
            Err(_) => Err(Linking::Joining(file, joined)),
        },
        Ok(Turn::Done(links)) => Ok(Turn::Done(links)),
        Err(_) => Err(Linking::Joining(file, joined)),
    }
}

impl<S: LinkKeys> Query for LinkedQuery<S> {
    type Key = Text;

    type Value = Shared<Links>;

    type Part = Linking;

    type AnyKey = S::Key;

    type AnyAnswer = S::Answer;

    const LEVEL: u8 = 4;

    ghost LEVEL = { linked_level };

    ghost starts = { λ s k. linked_starts S.imports k };

    ghost advances = { λ s p a. linked_advances S.linked (S.imported a) (S.links a) p };

    ghost lefts = { λ s p. linked_left p };

    ghost falls = { λ s p a q r e. linked_falls S.linked (S.imported a) (S.links a) p q r e };

    fn start(
        &self,
        _alloc: Global,
        key: &Text,
    ) -> Result<Turn<S::Key, Linking, Shared<Links>>, Memory> {
        Ok(Turn::Ask(S::imports_key(key)?, Linking::Reading(key.copy()?)))
    }

    fn advance(
        &self,
        alloc: Global,
        part: Linking,
        answer: &S::Answer,
    ) -> Result<Turn<S::Key, Linking, Shared<Links>>, Linking> {
        match part {
            Linking::Reading(file) => match S::read_imports(answer) {
                Some(imports) => read_on::<S>(alloc, file, imports),
                None => end_absent::<S>(alloc, file),
            },
            Linking::Joining(file, joined) => match links_in::<S>(alloc, answer) {
                Ok(links) => join_on::<S>(alloc, file, joined, links),
                Err(_) => Err(Linking::Joining(file, joined)),
            },
        }
    }

    fn left(&self, part: &Linking) -> (u32, u64) {
        match part {
            Linking::Reading(_) => (1, 0),
            Linking::Joining(_, joined) => (0, joined.left() as u64),
        }
    }
}
