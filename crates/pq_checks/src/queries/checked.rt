//! The query of a file's checks, generic over the sum of queries in which it is used.
//!
//! It asks the tree of the file without spans, its imports, its links, its definitions, its scope
//! and its resolved references; then the tree of each imported file, without spans; and in a bad
//! file the links of each import up to the first cycle, which names the next file on the way into
//! the ring. The part holds what was read so far, shared. If an allocation fails, the part comes
//! back as it was.
ghost use Rattle.std.specs.Prelude.{◌≡◌, ℕ, [], IfOk, IfErr, OnOk, OnErr, drop, slice_get, unwrap_or};
ghost use Rattle.std.specs.Option.{option_copied};
ghost use Rattle.pq_links.specs.Visibility.{no_links};
ghost use Rattle.pq_rules.specs.declared.turn.Turn.TheVariants.{Ask};
ghost use Rattle.pq_schema.specs.Missing.{no_defs, no_scope};
ghost use Rattle.pq_checks.specs.Surroundings.{state_of};
ghost use Rattle.pq_checks.specs.aux.Gathering.{checked_of};
ghost use Rattle.pq_checks.specs.aux.Queries.{check_level, link_next, staged, placed, references_turn, with_state, state_follows, link_follows, link_placed, check_starts, check_advances, check_left};
ghost use Rattle.pq_checks.specs.aux.Falls.{check_falls};
ghost use Rattle.pq_checks.specs.declared.queries.checked.CheckPart.TheVariants.{ReadItems, ReadImports as ReadImportsPart, ReadLinks, ReadDefs, ReadScope, ReadReferences, ReadState, ReadNext};

use crate::around::surroundings::{FileState, Imported};
use crate::errors::fault::Fault;
use crate::queries::answered::{defs_in, imports_in, items_in, references_in, scope_in, state_in};
use crate::queries::gathered::{Known, LinkedFile, States, Waiting, check};
use crate::queries::keys::CheckKeys;
use pq_links::{FileItems, Import};
use pq_rules::{Memory, Query, Shared, Text, Turn};
use pq_schema::{Defs, Scope};
use pq_syntax::Items;
use std::alloc::Global;
use std::marker::PhantomData;

/// What the rule of a file's checks does with the next answer.
#[derive(Drop)]
pub enum CheckPart {
    /// The answer is the tree of the file without spans.
    ReadItems(Text),
    /// The answer is the imports of the file.
    ReadImports(Text, Shared<FileItems>),
    /// The answer is the links of the file.
    ReadLinks(Text, Shared<FileItems>, Shared<Items<Import>>),
    /// The answer is the definitions of the file.
    ReadDefs(LinkedFile),
    /// The answer is the scope of the file.
    ReadScope(LinkedFile, Shared<Defs>),
    /// The answer is the resolved references of the file.
    ReadReferences(LinkedFile, Shared<Defs>, Shared<Scope>),
    /// The answer is the tree of the file of the first import that is left, without spans.
    ReadState(Known, Waiting, States),
    /// The answer is the links of the file of the first import that is left.
    ReadNext(Known, Waiting, States),
}

/// Which part comes with a question after those of the file.
#[derive(Drop)]
enum Stage {
    /// The question is for the tree of an imported file, without spans.
    ForStates,
    /// The question is for the links of an imported file.
    ForLinks(Waiting),
}

/// The checks of a file: its errors by the table (the law `checks_by_answers`).
#[derive(Drop)]
pub struct ChecksQuery<S> {
    sum: PhantomData<S>,
}

impl<S> ChecksQuery<S> {
    /// Makes the query.
    pub fn new() -> Self {
        ChecksQuery { sum: PhantomData }
    }
}

/// The turn after the tree of the file `file` without spans: the rule asks its imports.
fn after_items<S: CheckKeys>(
    alloc: Global,
    file: Text,
    answer: &S::Answer,
) -> Result<Turn<S::Key, CheckPart, Shared<Items<Fault>>>, CheckPart>
    ensures turn { IfOk result (λ t. t ≡ Ask (S.imports file) (ReadImportsPart file (S.itemed answer.now))) }
    ensures back { IfErr result (λ p. p ≡ ReadItems file) }
{
    match (S::imports_key(&file), items_in::<S>(alloc, answer)) {
        (Ok(key), Ok(items)) => Ok(Turn::Ask(key, CheckPart::ReadImports(file, items))),
        _ => Err(CheckPart::ReadItems(file)),
    }
}

/// The turn after the imports of the file `file`: the rule asks its links.
fn after_imports<S: CheckKeys>(
    alloc: Global,
    file: Text,
    items: Shared<FileItems>,
    answer: &S::Answer,
) -> Result<Turn<S::Key, CheckPart, Shared<Items<Fault>>>, CheckPart>
    ensures turn { IfOk result (λ t. t ≡ Ask (S.linked file) (ReadLinks file items (unwrap_or (S.imported answer.now) []))) }
    ensures back { IfErr result (λ p. p ≡ ReadImportsPart file items) }
{
    match (S::linked_key(&file), imports_in::<S>(alloc, answer)) {
        (Ok(key), Ok(imports)) => Ok(Turn::Ask(key, CheckPart::ReadLinks(file, items, imports))),
        _ => Err(CheckPart::ReadImports(file, items)),
    }
}

/// The turn after the links of the file `file`: the rule asks its definitions.
fn after_links<S: CheckKeys>(
    alloc: Global,
    file: Text,
    items: Shared<FileItems>,
    imports: Shared<Items<Import>>,
    answer: &S::Answer,
) -> Result<Turn<S::Key, CheckPart, Shared<Items<Fault>>>, CheckPart>
    ensures turn { IfOk result (λ t. t ≡ Ask (S.defs file) (ReadDefs (record { file = file; items = items; imports = imports; ring = S.ring answer.now }))) }
    ensures back { IfErr result (λ p. p ≡ ReadLinks file items imports) }
{
    match (S::defs_key(&file), S::read_ring(alloc, answer)) {
        (Ok(key), Ok(ring)) => {
            let linked = LinkedFile {
                file,
                items,
                imports,
                ring,
            };
            Ok(Turn::Ask(key, CheckPart::ReadDefs(linked)))
        }
        _ => Err(CheckPart::ReadLinks(file, items, imports)),
    }
}

/// The turn after the definitions of a file: the rule asks its scope.
fn after_defs<S: CheckKeys>(
    alloc: Global,
    linked: LinkedFile,
    answer: &S::Answer,
) -> Result<Turn<S::Key, CheckPart, Shared<Items<Fault>>>, CheckPart>
    ensures turn { IfOk result (λ t. t ≡ Ask (S.scope linked.file) (ReadScope linked (S.defined answer.now))) }
    ensures back { IfErr result (λ p. p ≡ ReadDefs linked) }
{
    match (S::scope_key(&linked.file), defs_in::<S>(alloc, answer)) {
        (Ok(key), Ok(defs)) => Ok(Turn::Ask(key, CheckPart::ReadScope(linked, defs))),
        _ => Err(CheckPart::ReadDefs(linked)),
    }
}

/// The turn after the scope of a file: the rule asks its resolved references.
fn after_scope<S: CheckKeys>(
    alloc: Global,
    linked: LinkedFile,
    defs: Shared<Defs>,
    answer: &S::Answer,
) -> Result<Turn<S::Key, CheckPart, Shared<Items<Fault>>>, CheckPart>
    ensures turn { IfOk result (λ t. t ≡ Ask (S.resolved linked.file) (ReadReferences linked defs (S.scoped answer.now))) }
    ensures back { IfErr result (λ p. p ≡ ReadScope linked defs) }
{
    match (S::resolved_key(&linked.file), scope_in::<S>(alloc, answer)) {
        (Ok(key), Ok(scope)) => Ok(Turn::Ask(key, CheckPart::ReadReferences(linked, defs, scope))),
        _ => Err(CheckPart::ReadScope(linked, defs)),
    }
}

/// The turn, without its part, after the states `imported` of all files that a file imports.
fn link_next<S: CheckKeys>(
    alloc: Global,
    known: &Known,
    imported: &[Imported],
) -> Result<Turn<S::Key, Stage, Shared<Items<Fault>>>, Memory>
    ensures turn { IfOk result (λ t. t ≡ link_next S.linked known.now known.now.linked.ring (slice_get known.now.linked.imports 0) imported.now) }
{
    if known.linked.ring.is_none() {
        return Ok(Turn::Done(check(alloc, known, imported, None)?));
    }
    match known.linked.imports.get().as_slice().first() {
        Some(import) => {
            let waiting = Waiting::new(known.linked.imports.copy()?);
            Ok(Turn::Ask(S::linked_key(&import.file)?, Stage::ForLinks(waiting)))
        }
        None => Ok(Turn::Done(check(alloc, known, imported, None)?)),
    }
}

/// The turn, without its part, with which the state of the file of the import `next` is asked, or
/// that after the states `imported` if there is none.
fn staged<S: CheckKeys>(
    alloc: Global,
    known: &Known,
    next: Option<&Import>,
    imported: &[Imported],
) -> Result<Turn<S::Key, Stage, Shared<Items<Fault>>>, Memory>
    ensures turn { IfOk result (λ t. t ≡ staged S.linked S.items known.now (option_copied next.entry) imported.now) }
{
    match next {
        Some(import) => Ok(Turn::Ask(S::items_key(&import.file)?, Stage::ForStates)),
        None => link_next::<S>(alloc, known, imported),
    }
}

/// Puts its part into a turn.
fn placed<K: Drop>(
    turn: Turn<K, Stage, Shared<Items<Fault>>>,
    known: Known,
    waiting: Waiting,
    imported: States,
) -> Turn<K, CheckPart, Shared<Items<Fault>>>
    ensures turn { result ≡ placed known waiting imported turn }
{
    match turn {
        Turn::Ask(key, stage) => match stage {
            Stage::ForStates => Turn::Ask(key, CheckPart::ReadState(known, waiting, imported)),
            Stage::ForLinks(links) => Turn::Ask(key, CheckPart::ReadNext(known, links, imported)),
        },
        Turn::Done(checked) => Turn::Done(checked),
    }
}

/// The turn, without its part, after the references of the file of `known`, and its imports.
fn first_stage<S: CheckKeys>(
    alloc: Global,
    known: &Known,
) -> Result<(Turn<S::Key, Stage, Shared<Items<Fault>>>, Waiting), Memory>
    ensures turn { IfOk result (λ r. (r.0 ≡ staged S.linked S.items known.now (slice_get known.now.linked.imports 0) [])
        × (r.1 ≡ known.now.linked.imports)) }
{
    let waiting = Waiting::new(known.linked.imports.copy()?);
    let turn = staged::<S>(alloc, known, waiting.first(), &[])?;
    Ok((turn, waiting))
}

/// The turn after the resolved references of a file: the rule looks at its imports.
fn after_references<S: CheckKeys>(
    alloc: Global,
    linked: LinkedFile,
    defs: Shared<Defs>,
    scope: Shared<Scope>,
    answer: &S::Answer,
) -> Result<Turn<S::Key, CheckPart, Shared<Items<Fault>>>, CheckPart>
    ensures turn { IfOk result (λ t. t ≡ references_turn S.linked S.items linked defs scope (S.referred answer.now)) }
    ensures back { IfErr result (λ p. p ≡ ReadReferences linked defs scope) }
{
    let references = match references_in::<S>(alloc, answer) {
        Ok(references) => references,
        Err(_) => return Err(CheckPart::ReadReferences(linked, defs, scope)),
    };
    let known = Known {
        linked,
        defs,
        scope,
        references,
    };
    match first_stage::<S>(alloc, &known) {
        Ok((turn, waiting)) => Ok(placed(turn, known, waiting, States::new(alloc))),
        Err(_) => Err(CheckPart::ReadReferences(known.linked, known.defs, known.scope)),
    }
}

/// The turn, without its part, after the tree of the file of the first import of `waiting`: its
/// state is put to those of `imported`.
fn follow_state<S: CheckKeys>(
    alloc: Global,
    known: &Known,
    waiting: &Waiting,
    imported: &mut States,
    answer: &S::Answer,
) -> Result<Turn<S::Key, Stage, Shared<Items<Fault>>>, Memory>
    ensures turn { IfOk result (λ t. t ≡ state_follows S.linked S.items known.now (slice_get waiting.now 0) (slice_get waiting.now 1) (S.itemed answer.now) imported.old) }
    ensures read { OnOk result (imported.new ≡ with_state (slice_get waiting.now 0) (S.itemed answer.now) imported.old) }
    ensures same { OnErr result (imported.new ≡ imported.old) }
{
    let import = match waiting.first() {
        Some(import) => import,
        None => return Ok(Turn::Done(check(alloc, known, imported.as_slice(), None)?)),
    };
    let file = import.file.copy()?;
    let state = state_in::<S>(answer);
    imported.push(Imported { file, state })?;
    match staged::<S>(alloc, known, waiting.second(), imported.as_slice()) {
        Ok(turn) => Ok(turn),
        Err(refused) => {
            imported.pop();
            Err(refused)
        }
    }
}

/// The turn after the tree of the file of the first import that is left.
fn after_state<S: CheckKeys>(
    alloc: Global,
    known: Known,
    waiting: Waiting,
    imported: States,
    answer: &S::Answer,
) -> Result<Turn<S::Key, CheckPart, Shared<Items<Fault>>>, CheckPart>
    ensures turn { IfOk result (λ t. t ≡ placed known (drop 1 waiting) (with_state (slice_get waiting 0) (S.itemed answer.now) imported)
        (state_follows S.linked S.items known (slice_get waiting 0) (slice_get waiting 1) (S.itemed answer.now) imported)) }
    ensures back { IfErr result (λ p. p ≡ ReadState known waiting imported) }
{
    let mut waiting = waiting;
    let mut imported = imported;
    match follow_state::<S>(alloc, &known, &waiting, &mut imported, answer) {
        Ok(turn) => {
            waiting.step();
            Ok(placed(turn, known, waiting, imported))
        }
        Err(_) => Err(CheckPart::ReadState(known, waiting, imported)),
    }
}

/// The turn, without its part, after the links of the file of the first import of `waiting`.
fn follow_link<S: CheckKeys>(
    alloc: Global,
    known: &Known,
    waiting: &Waiting,
    imported: &[Imported],
    answer: &S::Answer,
) -> Result<Turn<S::Key, (), Shared<Items<Fault>>>, Memory>
    ensures turn { IfOk result (λ t. t ≡ link_follows S.linked known.now (slice_get waiting.now 0) (slice_get waiting.now 1) (S.ring answer.now) imported.now) }
{
    let import = match waiting.first() {
        Some(import) => import,
        None => return Ok(Turn::Done(check(alloc, known, imported, None)?)),
    };
    if S::is_cycle(answer) {
        return Ok(Turn::Done(check(alloc, known, imported, Some(&import.file))?));
    }
    match waiting.second() {
        Some(second) => Ok(Turn::Ask(S::linked_key(&second.file)?, ())),
        None => Ok(Turn::Done(check(alloc, known, imported, None)?)),
    }
}

/// Puts its part into a turn after the links of an imported file.
fn link_placed<K: Drop>(
    turn: Turn<K, (), Shared<Items<Fault>>>,
    known: Known,
    waiting: Waiting,
    imported: States,
) -> Turn<K, CheckPart, Shared<Items<Fault>>>
    ensures turn { result ≡ link_placed known waiting imported turn }
{
    match turn {
        Turn::Ask(key, ()) => Turn::Ask(key, CheckPart::ReadNext(known, waiting, imported)),
        Turn::Done(checked) => Turn::Done(checked),
    }
}

/// The turn after the links of the file of the first import that is left.
fn after_link<S: CheckKeys>(
    alloc: Global,
    known: Known,
    waiting: Waiting,
    imported: States,
    answer: &S::Answer,
) -> Result<Turn<S::Key, CheckPart, Shared<Items<Fault>>>, CheckPart>
    ensures turn { IfOk result (λ t. t ≡ link_placed known (drop 1 waiting) imported
        (link_follows S.linked known (slice_get waiting 0) (slice_get waiting 1) (S.ring answer.now) imported)) }
    ensures back { IfErr result (λ p. p ≡ ReadNext known waiting imported) }
{
    let mut waiting = waiting;
    match follow_link::<S>(alloc, &known, &waiting, imported.as_slice(), answer) {
        Ok(turn) => {
            waiting.step();
            Ok(link_placed(turn, known, waiting, imported))
        }
        Err(_) => Err(CheckPart::ReadNext(known, waiting, imported)),
    }
}

impl<S: CheckKeys> Query for ChecksQuery<S> {
    type Key = Text;

    type Value = Shared<Items<Fault>>;

    type Part = CheckPart;

    type AnyKey = S::Key;

    type AnyAnswer = S::Answer;

    const LEVEL: u8 = 8;

    ghost LEVEL = { check_level };

    ghost starts = { λ s k. check_starts S.items k };

    ghost advances = { λ s p a. check_advances (record { items = S.items; imports = S.imports; linked = S.linked; defs = S.defs; scope = S.scope; resolved = S.resolved; itemed = S.itemed; imported = S.imported; ring = S.ring; defined = S.defined; scoped = S.scoped; referred = S.referred }) p a };

    ghost lefts = { λ s p. check_left p };

    ghost falls = { λ s p a q r e. check_falls (record { items = S.items; imports = S.imports; linked = S.linked; defs = S.defs; scope = S.scope; resolved = S.resolved; itemed = S.itemed; imported = S.imported; ring = S.ring; defined = S.defined; scoped = S.scoped; referred = S.referred }) a p q r e };

    fn start(
        &self,
        _alloc: Global,
        key: &Text,
    ) -> Result<Turn<S::Key, CheckPart, Shared<Items<Fault>>>, Memory> {
        Ok(Turn::Ask(S::items_key(key)?, CheckPart::ReadItems(key.copy()?)))
    }

    fn advance(
        &self,
        alloc: Global,
        part: CheckPart,
        answer: &S::Answer,
    ) -> Result<Turn<S::Key, CheckPart, Shared<Items<Fault>>>, CheckPart> {
        match part {
            CheckPart::ReadItems(file) => after_items::<S>(alloc, file, answer),
            CheckPart::ReadImports(file, items) => {
                after_imports::<S>(alloc, file, items, answer)
            }
            CheckPart::ReadLinks(file, items, imports) => {
                after_links::<S>(alloc, file, items, imports, answer)
            }
            CheckPart::ReadDefs(linked) => after_defs::<S>(alloc, linked, answer),
            CheckPart::ReadScope(linked, defs) => after_scope::<S>(alloc, linked, defs, answer),
            CheckPart::ReadReferences(linked, defs, scope) => {
                after_references::<S>(alloc, linked, defs, scope, answer)
            }
            CheckPart::ReadState(known, waiting, imported) => {
                after_state::<S>(alloc, known, waiting, imported, answer)
            }
            CheckPart::ReadNext(known, waiting, imported) => {
                after_link::<S>(alloc, known, waiting, imported, answer)
            }
        }
    }

    fn left(&self, part: &CheckPart) -> (u32, u64) {
        match part {
            CheckPart::ReadItems(_) => (7, 0),
            CheckPart::ReadImports(_, _) => (6, 0),
            CheckPart::ReadLinks(_, _, _) => (5, 0),
            CheckPart::ReadDefs(_) => (4, 0),
            CheckPart::ReadScope(_, _) => (3, 0),
            CheckPart::ReadReferences(_, _, _) => (2, 0),
            CheckPart::ReadState(_, waiting, _) => (1, waiting.left() as u64),
            CheckPart::ReadNext(_, waiting, _) => (0, waiting.left() as u64),
        }
    }
}
