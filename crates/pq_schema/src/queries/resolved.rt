//! The query of a file's resolved references, generic over the sum of queries in which it is used.
ghost use Rattle.std.specs.Prelude.{◌≡◌, false, IfOk, option_copied, unwrap_or};
ghost use Rattle.pq_rules.specs.declared.turn.Turn.TheVariants.{Ask};
ghost use Rattle.pq_links.specs.Files.{nodes_in};
ghost use Rattle.pq_links.specs.declared.file_items.FileItems.TheVariants.{Absent};
ghost use Rattle.pq_schema.specs.Definitions.{package_of};
ghost use Rattle.pq_schema.specs.aux.Hits.{found_at};
ghost use Rattle.pq_schema.specs.aux.Inside.{AreThere, resolved_as, resolved_uses};
ghost use Rattle.pq_schema.specs.aux.Outward.{is_nothing};
ghost use Rattle.pq_schema.specs.aux.Queries.{resolved_level, resolved_starts, resolved_by, resolved_advances, resolved_left};
ghost use Rattle.pq_schema.specs.aux.Falls.{resolved_falls};
ghost use Rattle.pq_schema.specs.declared.queries.resolved.ResolvedPart.TheVariants.{ReadTree};

use crate::define::outline::package_of;
use crate::queries::defined::statements;
use crate::queries::keys::SchemaKeys;
use crate::queries::resolved_references::ResolvedReferences;
use crate::scope::scope::Scope;
use crate::search::resolution::{Resolution, resolution_at};
use crate::search::search::{Hit, outcome_of};
use crate::search::uses::{Use, find_each, hit_or_nothing};
use pq_links::{FileItems, TypePart};
use pq_rules::{Memory, Query, Shared, Text, Turn};
use pq_syntax::Node;
use std::alloc::Global;
use std::marker::PhantomData;

/// A type reference of a file, with what it resolves to.
#[derive(Drop, PartialEq, Eq)]
pub struct ResolvedReference {
    /// The number of its item: the statements of a file count from 0, in text order.
    pub item: usize,
    /// The part of the item that it is.
    pub part: TypePart,
    /// What it resolves to in the scope of the file.
    pub resolution: Resolution,
}

/// What the rule of a file's resolved references does with the next answer.
#[derive(Drop)]
pub enum ResolvedPart {
    /// The answer is the scope of the file.
    ReadScope(Text),
    /// The answer is the file's tree without spans. The field is its scope.
    ReadTree(Shared<Scope>),
}

/// The type references of a file, each with what it resolves to, in text order (the law
/// `resolved_by_answers`).
#[derive(Drop)]
pub struct ResolvedQuery<S> {
    sum: PhantomData<S>,
}

impl<S> ResolvedQuery<S> {
    /// Makes the query.
    pub fn new() -> Self {
        ResolvedQuery { sum: PhantomData }
    }
}

/// Whether `hit` is nothing.
fn is_nothing(hit: &Hit<'_>) -> bool
    ensures is { result ≡ is_nothing (found_at hit.now) }
{
    matches!(hit, Hit::Nothing)
}

/// Whether one of `uses` is found as nothing.
fn is_missing(uses: &[Use<'_>]) -> bool
    ensures there { result ≡ false → AreThere uses.now }
{
    'uses: for one in uses {
        if is_nothing(&one.hit) {
            return true;
        }
    }
    false
}

/// The reference `visible` with what it resolves to, if it is found so in the visible files and as
/// `reached` in those that are reached.
fn resolve_at(visible: Use<'_>, reached: Hit<'_>) -> Result<ResolvedReference, Memory>
    ensures resolved { IfOk result (λ r. r ≡ resolved_as visible.entry (found_at reached.entry)) }
{
    Ok(ResolvedReference {
        item: visible.item,
        part: visible.part,
        resolution: resolution_at(outcome_of(visible.hit, reached))?,
    })
}

/// The references `visible`, each with what it resolves to. `reached` are the same references in the
/// files that are reached, if one of `visible` is nothing.
fn resolve_uses(
    alloc: Global,
    visible: &[Use<'_>],
    reached: &[Use<'_>],
) -> Result<ResolvedReferences, Memory>
    ensures resolved { IfOk result (λ rs. rs ≡ resolved_uses visible.now reached.now 0) }
{
    let mut resolved = Vec::new(alloc);
    'uses: for i in 0..visible.len() {
        let further = hit_or_nothing(reached, i);
        resolved.push(resolve_at(visible[i], further)?)?;
    }
    Ok(ResolvedReferences::new(resolved))
}

/// The resolved references of a file of the package `root` with the statements `nodes` and the scope
/// `scope`. The files that are reached are searched only if there are more of them than visible
/// ones, and a reference is nothing in these.
fn resolve_nodes(
    alloc: Global,
    scope: &Scope,
    root: &str,
    nodes: &[Node],
) -> Result<ResolvedReferences, Memory>
    requires root { root.now ≡ package_of nodes.now }
    ensures resolved { IfOk result (λ rs. rs ≡ resolved_by scope.now nodes.now) }
{
    let visible = find_each(alloc, scope.visible_files(), root, nodes)?;
    if scope.sees_all() {
        return resolve_uses(alloc, &visible, &visible);
    }
    if !is_missing(&visible) {
        return resolve_uses(alloc, &visible, &visible);
    }
    let files = scope.reached_files(alloc)?;
    let reached = find_each(alloc, &files, root, nodes)?;
    resolve_uses(alloc, &visible, &reached)
}

/// The resolved references of a file with the scope `scope` that is `items` without spans.
fn resolve_file(
    alloc: Global,
    scope: &Scope,
    items: Option<&Shared<FileItems>>,
) -> Result<Shared<ResolvedReferences>, Memory>
    ensures resolved { IfOk result (λ rs. rs ≡ resolved_by scope.now (nodes_in (unwrap_or (option_copied items.entry) Absent))) }
{
    let nodes = statements(items);
    let root = package_of(alloc, nodes)?;
    let resolved = resolve_nodes(alloc, scope, root.as_str(), nodes)?;
    Shared::new(alloc, resolved)
}

/// The scope that `answer` holds.
fn scope_in<S: SchemaKeys>(alloc: Global, answer: &S::Answer) -> Result<Shared<Scope>, Memory>
    ensures scope { IfOk result (λ s. s ≡ S.scoped answer.now) }
{
    match S::read_scope(answer) {
        Some(scope) => scope.copy(),
        None => Shared::new(alloc, Scope::new(alloc, Vec::new(alloc), Vec::new(alloc))?),
    }
}

/// The turn after the scope of `file`: the rule asks for its tree without spans.
fn ask_tree<S: SchemaKeys>(
    alloc: Global,
    file: &Text,
    answer: &S::Answer,
) -> Result<Turn<S::Key, ResolvedPart, Shared<ResolvedReferences>>, Memory>
    ensures turn { IfOk result (λ t. t ≡ Ask (S.items file.now) (ReadTree (S.scoped answer.now))) }
{
    let scope = scope_in::<S>(alloc, answer)?;
    Ok(Turn::Ask(S::items_key(file)?, ResolvedPart::ReadTree(scope)))
}

impl<S: SchemaKeys> Query for ResolvedQuery<S> {
    type Key = Text;

    type Value = Shared<ResolvedReferences>;

    type Part = ResolvedPart;

    type AnyKey = S::Key;

    type AnyAnswer = S::Answer;

    const LEVEL: u8 = 7;

    ghost LEVEL = { resolved_level };

    ghost starts = { λ s k. resolved_starts S.scope k };

    ghost advances = { λ s p a. resolved_advances S.items (S.scoped a) (nodes_in (S.itemed a)) p };

    ghost lefts = { λ s p. resolved_left p };

    ghost falls = { λ s p a q r e. resolved_falls S.items (S.scoped a) (nodes_in (S.itemed a)) p q r e };

    fn start(
        &self,
        _alloc: Global,
        key: &Text,
    ) -> Result<Turn<S::Key, ResolvedPart, Shared<ResolvedReferences>>, Memory> {
        Ok(Turn::Ask(S::scope_key(key)?, ResolvedPart::ReadScope(key.copy()?)))
    }

    fn advance(
        &self,
        alloc: Global,
        part: ResolvedPart,
        answer: &S::Answer,
    ) -> Result<Turn<S::Key, ResolvedPart, Shared<ResolvedReferences>>, ResolvedPart> {
        match part {
            ResolvedPart::ReadScope(file) => match ask_tree::<S>(alloc, &file, answer) {
                Ok(turn) => Ok(turn),
                Err(_) => Err(ResolvedPart::ReadScope(file)),
            },
            ResolvedPart::ReadTree(scope) => match resolve_file(
                alloc,
                scope.get(),
                S::read_items(answer),
            ) {
                Ok(resolved) => Ok(Turn::Done(resolved)),
                Err(_) => Err(ResolvedPart::ReadTree(scope)),
            },
        }
    }

    fn left(&self, part: &ResolvedPart) -> (u32, u64) {
        match part {
            ResolvedPart::ReadScope(_) => (1, 0),
            ResolvedPart::ReadTree(_) => (0, 0),
        }
    }
}
