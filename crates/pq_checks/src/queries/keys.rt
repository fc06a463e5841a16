//! What a sum of queries offers the queries of this crate.
ghost use Rattle.std.specs.Prelude.{◌≡◌, ℕ, [], List, Option, IfOk, is_some, option_copied, unwrap_or};
ghost use Rattle.pq_schema.specs.declared.queries.resolved.ResolvedReference.{ResolvedReference};
ghost use Rattle.pq_checks.specs.declared.errors.fault.Fault.{Fault as FaultContents};

use crate::errors::fault::Fault;
use pq_rules::{Memory, Shared, Text};
use pq_schema::{ResolvedReferences, SchemaKeys};
use pq_syntax::Items;
use std::alloc::Global;

/// A sum of queries, as the queries of this crate see it: it makes the keys that they ask and reads
/// the answers that they get. An answer of another kind reads as that of an absent file.
pub trait CheckKeys: SchemaKeys {
    /// The key of the resolved references of a file.
    ghost resolved: { List ℕ → Self.Key };

    /// The key of the checks of a file.
    ghost checks: { List ℕ → Self.Key };

    /// The resolved references that an answer holds.
    ghost referred: { Self.Answer → List ResolvedReference };

    /// The files of the cycle that an answer is, `None` if it is a value.
    ghost ring: { Self.Answer → Option (List (List ℕ)) };

    /// The errors of a file that an answer holds.
    ghost checked: { Self.Answer → List FaultContents };

    /// Makes the key of the resolved references of `file`.
    fn resolved_key(file: &Text) -> Result<Self::Key, Memory>
        // The key of the resolved references of the file.
        ensures key { IfOk result (λ k. k ≡ resolved file.now) };

    /// Makes the key of the checks of `file`.
    fn checks_key(file: &Text) -> Result<Self::Key, Memory>
        // The key of the checks of the file.
        ensures key { IfOk result (λ k. k ≡ checks file.now) };

    /// Reads the resolved references of a file, `None` only where it has none.
    fn read_resolved<'a>(answer: &'a Self::Answer) -> Option<&'a Shared<ResolvedReferences>>
        // The resolved references that the answer holds, where `None` is the empty list.
        ensures references { unwrap_or (option_copied result) [] ≡ referred answer.now };

    /// Reads the files of a cycle, `None` for a value.
    fn read_ring(
        alloc: Global,
        answer: &Self::Answer,
    ) -> Result<Option<Shared<Items<Text>>>, Memory>
        // The files of the cycle that the answer is, if it is one.
        ensures ring { IfOk result (λ r. r ≡ ring answer.now) };

    /// Whether `answer` is a cycle.
    fn is_cycle(answer: &Self::Answer) -> bool
        // Whether the answer is a cycle.
        ensures cycle { result ≡ is_some (ring answer.now) };

    /// Reads the errors of a file, `None` only where it has none.
    fn read_checked<'a>(answer: &'a Self::Answer) -> Option<&'a Shared<Items<Fault>>>
        // The errors that the answer holds, where `None` is the empty list.
        ensures checked { unwrap_or (option_copied result) [] ≡ checked answer.now };
}
