//! A query as one of a sum: what the sum says of each query, and the turns of the query as turns of
//! the sum.
//!
//! A rule set that puts queries together is a `Sum`, and says of each query by `EmbeddedIn` how its
//! parts and values become those of the sum. `start_of` and `advance_of` are then the same for
//! every query, and cost one match of a turn.
ghost use Rattle.std.specs.Prelude.{◌≡◌, IfErr, IfOk};
ghost use Rattle.pq_rules.specs.Embedding.{embedded};

use crate::query::Query;
use crate::turn::{Answer, Memory, Turn};
use std::alloc::Global;

/// The types of a sum of queries: those of its rule set.
pub trait Sum {
    /// A key of any of the queries.
    type Key: Drop;

    /// A part of any of the queries.
    type Part: Drop;

    /// A value of any of the queries.
    type Value: Drop;
}

/// A query of the sum `S`: its parts and values are parts and values of the sum.
pub trait EmbeddedIn<S: Sum>: Query<AnyKey = S::Key, AnyAnswer = Answer<S::Key, S::Value>> {
    /// A part of the query as one of the sum.
    ghost as_part: { Self.Part → S.Part };

    /// A value of the query as one of the sum.
    ghost as_value: { Self.Value → S.Value };

    /// Makes `part` one of the sum.
    fn part(part: Self::Part) -> S::Part
        // The part of the query as one of the sum, by `as_part`.
        ensures part { result ≡ as_part part };

    /// Makes `value` one of the sum.
    fn value(value: Self::Value) -> S::Value
        // The value of the query as one of the sum, by `as_value`.
        ensures value { result ≡ as_value value };
}

/// Makes a turn of the query `Q` one of the sum.
fn turn_of<S: Sum, Q: EmbeddedIn<S>>(
    turn: Turn<S::Key, Q::Part, Q::Value>,
) -> Turn<S::Key, S::Part, S::Value>
    ensures turn { result ≡ embedded Q.as_part Q.as_value turn }
{
    match turn {
        Turn::Ask(key, part) => Turn::Ask(key, Q::part(part)),
        Turn::Done(value) => Turn::Done(Q::value(value)),
    }
}

/// Starts the rule of the key `key` of `query`: its first turn, as one of the sum. It answers
/// `Memory` when an allocation fails.
pub fn start_of<S: Sum, Q: EmbeddedIn<S>>(
    alloc: Global,
    query: &Q,
    key: &Q::Key,
) -> Result<Turn<S::Key, S::Part, S::Value>, Memory>
    // The turn of a query, as a turn of the sum that the query is embedded in.
    ensures turn { IfOk result (λ t. t ≡ embedded Q.as_part Q.as_value (Q.starts query.now key.now)) }
{
    Ok(turn_of::<S, Q>(query.start(alloc, key)?))
}

/// Goes on from `part` of `query` with the answer to the key that it asked: the next turn, as one
/// of the sum. If an allocation fails, `part` comes back as a part of the sum.
pub fn advance_of<S: Sum, Q: EmbeddedIn<S>>(
    alloc: Global,
    query: &Q,
    part: Q::Part,
    answer: &Answer<S::Key, S::Value>,
) -> Result<Turn<S::Key, S::Part, S::Value>, S::Part>
    // The turn of a query, as a turn of the sum that the query is embedded in.
    ensures turn { IfOk result (λ t. t ≡ embedded Q.as_part Q.as_value (Q.advances query.now part answer.now)) }
    // After an allocation failure the part comes back, as a part of the sum.
    ensures back { IfErr result (λ p. p ≡ Q.as_part part) }
{
    match query.advance(alloc, part, answer) {
        Ok(turn) => Ok(turn_of::<S, Q>(turn)),
        Err(part) => Err(Q::part(part)),
    }
}
