//! The answer of a key that is up to date, for a caller that keeps frames.
ghost use Rattle.std.specs.Prelude.{IfOk, IfSome, IfNone};
ghost use Rattle.pq_rules.specs.Turns.{over};
ghost use Rattle.pq_rules.specs.Value.{Means};
ghost use Rattle.pq_memo.specs.Look.{IsUpToDate};
ghost use Rattle.pq_memo.specs.Table.{memo_at, HasIn, KeptOver};

use crate::table::hint::Hint;
use crate::table::memos::Memos;
use pq_inputs::Inputs;
use pq_rules::{Answer, Memory, Rules, Shared};
use std::alloc::Global;

impl<R: Rules> Memos<R> {
    /// The answer of `key` at the sources now, if the key is up to date. For a key with a rule it
    /// takes no memory: `Memory` says that the count of copies is used up.
    pub fn usable_answer(
        &self,
        alloc: Global,
        key: &R::Key,
        inputs: &Inputs,
    ) -> Result<Option<Shared<Answer<R::Key, R::Value>>>, Memory>
        // `KeptOver`: The table keeps the invariant over the history of the inputs.
        requires { KeptOver R.Key.cmp (R.machine self.now.rules) inputs.now self.now.places }
        // `value`, `stale`: The answer is the key's value at the sources now; `None` only where the
        // key is not up to date.
        ensures value { IfOk result (λ o. IfSome o (λ a. Means (over R.Key.cmp (R.machine self.now.rules) inputs.now.files) key.now a)) }
        ensures stale { IfOk result (λ o. IfNone o (IsUpToDate (R.machine self.now.rules) inputs.now.revision (HasIn (memo_at R.Key.cmp self.now.places)) key.now → ⊥)) }
    {
        let _latest = inputs.now();
        let mut hint = Hint::Nowhere;
        self.read_answer(alloc, key, inputs, &mut hint)
    }
}
