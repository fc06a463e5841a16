//! Copies and equality of answers, for tables that keep them.
ghost use Rattle.std.specs.Prelude.{◌≡◌, ◌↔◌, IfOk, IsTrue};

use crate::rules::Rules;
use crate::turn::{Answer, Memory};
use std::alloc::Global;

/// Copies `answer`: a value by `copy_value`, a cycle by the pointer of its ring.
pub fn copy_answer<R: Rules>(
    rules: &R,
    alloc: Global,
    answer: &Answer<R::Key, R::Value>,
) -> Result<Answer<R::Key, R::Value>, Memory>
    // A copy is an equal answer.
    ensures copy { IfOk result (λ a. a ≡ answer.now) }
{
    match answer {
        Answer::Value(value) => Ok(Answer::Value(rules.copy_value(alloc, value)?)),
        Answer::Cycle(ring) => Ok(Answer::Cycle(ring.copy()?)),
    }
}

/// Whether contracts see `a` and `b` as one key.
pub fn is_same_key<R: Rules>(_rules: &R, a: &R::Key, b: &R::Key) -> bool
    // Whether contracts see the two keys as one, both ways.
    ensures { IsTrue result ↔ (a.now ≡ b.now) }
{
    a == b
}

/// Whether `a` and `b` are the same keys in the same order.
fn same_keys<R: Rules>(_rules: &R, a: &[R::Key], b: &[R::Key]) -> bool
    ensures { IsTrue result ↔ (a.now ≡ b.now) }
{
    a == b
}

/// Whether contracts see `a` and `b` as one value.
fn same_value<R: Rules>(_rules: &R, a: &R::Value, b: &R::Value) -> bool
    ensures { IsTrue result ↔ (a.now ≡ b.now) }
{
    a == b
}

/// Whether contracts see `a` and `b` as one answer: equal values, or cycles of the same ring.
pub fn same_answer<R: Rules>(
    rules: &R,
    a: &Answer<R::Key, R::Value>,
    b: &Answer<R::Key, R::Value>,
) -> bool
    // Two answers are the same exactly if contracts see the same.
    ensures same { IsTrue result ↔ (a.now ≡ b.now) }
{
    match (a, b) {
        (Answer::Value(a), Answer::Value(b)) => same_value(rules, a, b),
        (Answer::Cycle(a), Answer::Cycle(b)) => same_keys(rules, a.keys(), b.keys()),
        _ => false,
    }
}
