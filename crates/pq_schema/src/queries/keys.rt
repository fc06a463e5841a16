//! What a sum of queries offers the queries of this crate.
ghost use Rattle.std.specs.Prelude.{◌≡◌, ℕ, List, IfOk, option_copied, unwrap_or};
ghost use Rattle.pq_schema.specs.Contents.{Defs as DefsContents};
ghost use Rattle.pq_schema.specs.ScopeContents.{Scope as ScopeContents};
ghost use Rattle.pq_schema.specs.Missing.{no_defs, no_scope};

use crate::define::definitions::Defs;
use crate::scope::scope::Scope;
use pq_links::LinkKeys;
use pq_rules::{Memory, Shared, Text};

/// A sum of queries, as the queries of this crate see it: it makes the keys that they ask and reads
/// the answers that they get. An answer of another kind, or a cycle, reads as that of a file
/// without statements.
pub trait SchemaKeys: LinkKeys {
    /// The key of the definitions of a file.
    ghost defs: { List ℕ → Self.Key };

    /// The key of the scope of a file.
    ghost scope: { List ℕ → Self.Key };

    /// The definitions that an answer holds.
    ghost defined: { Self.Answer → DefsContents };

    /// The scope that an answer holds.
    ghost scoped: { Self.Answer → ScopeContents };

    /// Makes the key of the definitions of `file`.
    fn defs_key(file: &Text) -> Result<Self::Key, Memory>
        // The key of the definitions of the file.
        ensures key { IfOk result (λ k. k ≡ defs file.now) };

    /// Makes the key of the scope of `file`.
    fn scope_key(file: &Text) -> Result<Self::Key, Memory>
        // The key of the scope of the file.
        ensures key { IfOk result (λ k. k ≡ scope file.now) };

    /// Reads the definitions of a file, `None` only where it has none.
    fn read_defs<'a>(answer: &'a Self::Answer) -> Option<&'a Shared<Defs>>
        // The definitions that the answer holds, where `None` is those of a file without
        // statements.
        ensures defs { unwrap_or (option_copied result) no_defs ≡ defined answer.now };

    /// Reads the scope of a file, `None` only where it sees and reaches no file.
    fn read_scope<'a>(answer: &'a Self::Answer) -> Option<&'a Shared<Scope>>
        // The scope that the answer holds, where `None` is that of a file that sees and reaches no
        // file.
        ensures scope { unwrap_or (option_copied result) no_scope ≡ scoped answer.now };
}
