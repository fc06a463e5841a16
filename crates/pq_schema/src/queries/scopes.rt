//! The query of a file's scope, generic over the sum of queries in which it is used.
//!
//! It asks the links of the file, then the definitions of each file that it reaches, in order. The
//! part holds the links and the files so far; files share their definitions. If an allocation
//! fails, the part comes back as it was: what follows is computed first, and the part changes last.
ghost use Rattle.std.specs.Prelude.{◌≡◌, ◌<◌, ℕ, [], IfOk, IfErr};
ghost use Rattle.pq_schema.specs.Missing.{no_defs};
ghost use Rattle.pq_schema.specs.aux.Queries.{scope_level, collect_next, scope_starts, scope_advances, scope_left};
ghost use Rattle.pq_schema.specs.aux.Falls.{scope_falls};
ghost use Rattle.pq_schema.specs.aux.Collecting.{collect_follows};
ghost use Rattle.pq_schema.specs.declared.queries.scopes.ScopePart.TheVariants.{ReadLinks, Collect};
ghost use Rattle.pq_links.specs.Visibility.{no_links};

use crate::define::definitions::Defs;
use crate::queries::keys::SchemaKeys;
use crate::scope::collected::{Collected, scope_of};
use crate::scope::scope::Scope;
use pq_links::Links;
use pq_rules::{Memory, Query, Shared, Text, Turn};
use std::alloc::Global;
use std::marker::PhantomData;

/// What the rule of a file's scope does with the next answer.
#[derive(Drop)]
pub enum ScopePart {
    /// The answer is the links of the file.
    ReadLinks,
    /// The answer is the definitions of the first file that is left.
    Collect(Collected),
}

/// The scope of a file: the files that it sees and those that it reaches, with their definitions
/// (the law `scope_by_answers`).
#[derive(Drop)]
pub struct ScopeQuery<S> {
    sum: PhantomData<S>,
}

impl<S> ScopeQuery<S> {
    /// Makes the query.
    pub fn new() -> Self {
        ScopeQuery { sum: PhantomData }
    }
}

/// The definitions of a file without statements.
fn nothing_defined(alloc: Global) -> Result<Shared<Defs>, Memory>
    ensures none { IfOk result (λ d. d ≡ no_defs) }
{
    let defs = Defs::of(alloc, &[])?;
    Shared::new(alloc, defs)
}

/// The definitions that `answer` holds.
fn defs_in<S: SchemaKeys>(alloc: Global, answer: &S::Answer) -> Result<Shared<Defs>, Memory>
    ensures defs { IfOk result (λ d. d ≡ S.defined answer.now) }
{
    match S::read_defs(answer) {
        Some(defs) => defs.copy(),
        None => nothing_defined(alloc),
    }
}

/// The turn after the links of a file: the rule asks the definitions of the first file that these
/// reach, or ends.
fn first<S: SchemaKeys>(
    alloc: Global,
    links: &Shared<Links>,
) -> Result<Turn<S::Key, ScopePart, Shared<Scope>>, Memory>
    ensures turn { IfOk result (λ t. t ≡ collect_next S.defs links.now.visible links.now.reach []) }
{
    match links.get().reach.as_slice().first() {
        Some(file) => Ok(Turn::Ask(
            S::defs_key(file.get())?,
            ScopePart::Collect(Collected::new(alloc, links.copy()?)),
        )),
        None => Ok(Turn::Done(scope_of(alloc, links.get().visible.as_slice(), Vec::new(alloc))?)),
    }
}

/// The turn after the question for the links of a file.
fn links_read<S: SchemaKeys>(
    alloc: Global,
    answer: &S::Answer,
) -> Result<Turn<S::Key, ScopePart, Shared<Scope>>, Memory>
    ensures turn { IfOk result (λ t. t ≡ collect_next S.defs (S.links answer.now).visible (S.links answer.now).reach []) }
{
    match S::read_links(answer) {
        Some(links) => first::<S>(alloc, links),
        None => Ok(Turn::Done(scope_of(alloc, &[], Vec::new(alloc))?)),
    }
}

/// The turn, without its part, after the first file that is left has the definitions `defs`.
fn follow<S: SchemaKeys>(
    alloc: Global,
    collected: &Collected,
    defs: &Shared<Defs>,
) -> Result<Turn<S::Key, (), Shared<Scope>>, Memory>
    ensures turn { IfOk result (λ t. t ≡ collect_follows S.defs collected.now defs.now) }
{
    match collected.next() {
        Some(file) => match collected.second() {
            Some(second) => Ok(Turn::Ask(S::defs_key(second.get())?, ())),
            None => Ok(Turn::Done(collected.scope_with(alloc, file, defs)?)),
        },
        None => Ok(Turn::Done(collected.scope(alloc)?)),
    }
}

/// The turn after the definitions of a file: the rule asks those of the next, or ends.
fn collect_on<S: SchemaKeys>(
    alloc: Global,
    collected: Collected,
    defs: Shared<Defs>,
) -> Result<Turn<S::Key, ScopePart, Shared<Scope>>, ScopePart>
    ensures turn { IfOk result (λ t. t ≡ scope_advances S.defs no_links defs (Collect collected)) }
    ensures back { IfErr result (λ p. p ≡ Collect collected) }
{
    let mut collected = collected;
    match follow::<S>(alloc, &collected, &defs) {
        Ok(Turn::Ask(key, ())) => match collected.read(defs) {
            Ok(()) => Ok(Turn::Ask(key, ScopePart::Collect(collected))),
            Err(_) => Err(ScopePart::Collect(collected)),
        },
        Ok(Turn::Done(scope)) => Ok(Turn::Done(scope)),
        Err(_) => Err(ScopePart::Collect(collected)),
    }
}

impl<S: SchemaKeys> Query for ScopeQuery<S> {
    type Key = Text;

    type Value = Shared<Scope>;

    type Part = ScopePart;

    type AnyKey = S::Key;

    type AnyAnswer = S::Answer;

    const LEVEL: u8 = 6;

    ghost LEVEL = { scope_level };

    ghost starts = { λ s k. scope_starts S.linked k };

    ghost advances = { λ s p a. scope_advances S.defs (S.links a) (S.defined a) p };

    ghost lefts = { λ s p. scope_left p };

    ghost falls = { λ s p a q r e. scope_falls S.defs (S.links a) (S.defined a) p q r e };

    fn start(
        &self,
        _alloc: Global,
        key: &Text,
    ) -> Result<Turn<S::Key, ScopePart, Shared<Scope>>, Memory> {
        Ok(Turn::Ask(S::linked_key(key)?, ScopePart::ReadLinks))
    }

    fn advance(
        &self,
        alloc: Global,
        part: ScopePart,
        answer: &S::Answer,
    ) -> Result<Turn<S::Key, ScopePart, Shared<Scope>>, ScopePart> {
        match part {
            ScopePart::ReadLinks => match links_read::<S>(alloc, answer) {
                Ok(turn) => Ok(turn),
                Err(_) => Err(ScopePart::ReadLinks),
            },
            ScopePart::Collect(collected) => match defs_in::<S>(alloc, answer) {
                Ok(defs) => collect_on::<S>(alloc, collected, defs),
                Err(_) => Err(ScopePart::Collect(collected)),
            },
        }
    }

    fn left(&self, part: &ScopePart) -> (u32, u64) {
        match part {
            ScopePart::ReadLinks => (1, 0),
            ScopePart::Collect(collected) => (0, collected.left() as u64),
        }
    }
}
