//! What an answer holds, in the sum of queries in which the checks are used.
//!
//! An answer of another query holds nothing: what it is read as then is what an absent file has.
ghost use Rattle.std.specs.Prelude.{◌≡◌, IfOk, [], unwrap_or};
ghost use Rattle.pq_schema.specs.Missing.{no_defs};
ghost use Rattle.pq_checks.specs.Surroundings.{state_of};

use crate::around::surroundings::{FileState, state_of};
use crate::errors::fault::Fault;
use crate::queries::keys::CheckKeys;
use pq_links::{FileItems, Import, ParsedFile};
use pq_rules::{Memory, Shared};
use pq_schema::{Defs, ResolvedReferences, Scope};
use pq_syntax::Items;
use std::alloc::Global;

/// What the answer says that a file is read as.
pub(crate) fn file_in<S: CheckKeys>(
    alloc: Global,
    answer: &S::Answer,
) -> Result<Shared<ParsedFile>, Memory>
    ensures file { IfOk result (λ p. p ≡ S.parsed answer.now) }
{
    match S::read_parsed(answer) {
        Some(file) => file.copy(),
        None => Shared::new(alloc, ParsedFile::Absent),
    }
}

/// What the answer says that a file is read as, without spans.
pub(crate) fn items_in<S: CheckKeys>(
    alloc: Global,
    answer: &S::Answer,
) -> Result<Shared<FileItems>, Memory>
    ensures items { IfOk result (λ i. i ≡ S.itemed answer.now) }
{
    match S::read_items(answer) {
        Some(items) => items.copy(),
        None => Shared::new(alloc, FileItems::Absent),
    }
}

/// The imports that the answer holds.
pub(crate) fn imports_in<S: CheckKeys>(
    alloc: Global,
    answer: &S::Answer,
) -> Result<Shared<Items<Import>>, Memory>
    ensures imports { IfOk result (λ is. is ≡ unwrap_or (S.imported answer.now) []) }
{
    match S::read_imports(answer) {
        Some(imports) => imports.copy(),
        None => Shared::new(alloc, Items::new(Vec::new(alloc))),
    }
}

/// The definitions of a file without statements.
fn nothing_defined(alloc: Global) -> Result<Shared<Defs>, Memory>
    ensures none { IfOk result (λ d. d ≡ no_defs) }
{
    let defs = Defs::of(alloc, &[])?;
    Shared::new(alloc, defs)
}

/// The definitions that the answer holds.
pub(crate) fn defs_in<S: CheckKeys>(
    alloc: Global,
    answer: &S::Answer,
) -> Result<Shared<Defs>, Memory>
    ensures defs { IfOk result (λ d. d ≡ S.defined answer.now) }
{
    match S::read_defs(answer) {
        Some(defs) => defs.copy(),
        None => nothing_defined(alloc),
    }
}

/// The scope that the answer holds.
pub(crate) fn scope_in<S: CheckKeys>(
    alloc: Global,
    answer: &S::Answer,
) -> Result<Shared<Scope>, Memory>
    ensures scope { IfOk result (λ s. s ≡ S.scoped answer.now) }
{
    match S::read_scope(answer) {
        Some(scope) => scope.copy(),
        None => Shared::new(alloc, Scope::new(alloc, Vec::new(alloc), Vec::new(alloc))?),
    }
}

/// The resolved references that the answer holds.
pub(crate) fn references_in<S: CheckKeys>(
    alloc: Global,
    answer: &S::Answer,
) -> Result<Shared<ResolvedReferences>, Memory>
    ensures references { IfOk result (λ rs. rs ≡ S.referred answer.now) }
{
    match S::read_resolved(answer) {
        Some(references) => references.copy(),
        None => Shared::new(alloc, ResolvedReferences::new(Vec::new(alloc))),
    }
}

/// The state of a file that the answer says how to read.
pub(crate) fn state_in<S: CheckKeys>(answer: &S::Answer) -> FileState
    ensures state { result ≡ state_of (S.itemed answer.now) }
{
    match S::read_items(answer) {
        Some(items) => state_of(items.get()),
        None => FileState::Missing,
    }
}

/// The errors of a file that the answer holds.
pub(crate) fn faults_in<S: CheckKeys>(
    alloc: Global,
    answer: &S::Answer,
) -> Result<Shared<Items<Fault>>, Memory>
    ensures faults { IfOk result (λ fs. fs ≡ S.checked answer.now) }
{
    match S::read_checked(answer) {
        Some(faults) => faults.copy(),
        None => Shared::new(alloc, Items::new(Vec::new(alloc))),
    }
}
