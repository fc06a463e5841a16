//! Whether waits lead from one run to another.
//!
//! Each run waits for one other at most, and waits form no ring. So a search along waits meets no
//! run twice, and ends within the number of runs. It takes two searches for each run that it meets.
ghost use Rattle.std.specs.Prelude.{◌≡◌, ℕ, List, Some, IsTrue};
ghost use Rattle.pq_claims.specs.aux.Table.{Keeps, Blocks, blocker, held_at, holder_in, nth};
ghost use Rattle.pq_claims.specs.aux.Walks.{Walk};

use crate::held::Held;
use crate::holders::{Holder, holder_of};
use crate::runs::wait_in;
use pq_rules::Rules;
use std::collections::BTreeMap;

/// The holder of the key that `run` waits for.
pub(crate) fn blocker_of<R: Rules>(
    rules: &R,
    holders: &BTreeMap<R::Key, Holder>,
    runs: &BTreeMap<u64, Held<R::Key>>,
    run: u64,
) -> Option<Holder>
    ensures { result ≡ blocker (λ k. holder_in R.Key.cmp holders.now.entries k) (held_at runs.now.entries run).wait }
{
    match wait_in(runs, run) {
        Some(wait) => match holder_of(rules, holders, &wait.key) {
            Some(holder) => {
                if holder.claim == wait.claim {
                    Some(holder)
                } else {
                    None
                }
            }
            None => None,
        },
        None => None,
    }
}

/// Whether `first` is `run`, or waits lead from `first` to `run`. The run `first` holds a key.
pub(crate) fn leads_to<R: Rules>(
    rules: &R,
    holders: &BTreeMap<R::Key, Holder>,
    runs: &BTreeMap<u64, Held<R::Key>>,
    first: u64,
    run: u64,
) -> bool
    requires kept { (next : ℕ) × Keeps R.Key.cmp next holders.now.entries runs.now.entries }
    requires holds { (i : ℕ) × (k : R.Key) × (nth (held_at runs.now.entries first).keys i ≡ Some k) }
    ensures leads { IsTrue result → (rs : List ℕ) × Walk (Blocks (λ k. holder_in R.Key.cmp holders.now.entries k) (λ r. held_at runs.now.entries r)) first rs run }
    ensures apart { (rs : List ℕ) → Walk (Blocks (λ k. holder_in R.Key.cmp holders.now.entries k) (λ r. held_at runs.now.entries r)) first rs run → IsTrue result }
{
    let mut at = first;
    'walk: for _step in 0..runs.len() {
        if at == run {
            return true;
        }
        match blocker_of(rules, holders, runs, at) {
            Some(holder) => {
                at = holder.run;
            }
            None => return false,
        }
    }
    unreachable!()
}
