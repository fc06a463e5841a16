//! Numbers that are made of definitions, by which lists of definitions are told apart.
//!
//! Lists that are equal have one number. Lists with one number are compared in full, so a number
//! that two lists share costs time and never changes an answer.
ghost use Rattle.std.specs.Prelude.{◌≡◌};
ghost use Rattle.pq_schema.specs.aux.Digests.{digested, digest_from};

use crate::define::definitions::Definition;
use crate::names::name_codes::coded;

/// The number `digest` with the name and the item of `definition` after it.
fn digested(digest: u64, definition: &Definition) -> u64
    ensures digest { result ≡ digested digest definition.now }
{
    let named = coded(digest, definition.full_name.code());
    coded(named, definition.item as u64)
}

/// The number of `definitions`.
pub(crate) fn digest_of(definitions: &[Definition]) -> u64
    ensures digest { result ≡ digest_from 0 definitions.now }
{
    let mut digest = 0u64;
    'definitions: for i in 0..definitions.len() {
        digest = digested(digest, &definitions[i]);
    }
    digest
}
