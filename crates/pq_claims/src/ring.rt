//! The keys of the ring that a claim would close.
//!
//! A run claims the keys of its frames, the lowest first. So a ring goes in each run from the key
//! at which it enters the run up to the key that the run claimed last, and from there to the key
//! that the run waits for. `ring_from` copies these keys, run by run. `from_least` finds the least of
//! them by one comparison for each, and turns the list.
ghost use Rattle.std.specs.Prelude.{◌≡◌, ◌≢◌, ◌<◌, ◌≤◌, ◌++◌, [], ℕ, List, length, take, drop, Some, IfOk, OnOk};
ghost use Rattle.pq_claims.specs.Claims.{Differ};
ghost use Rattle.pq_claims.specs.aux.Table.{Keeps, Blocks, held_at, holder_in};
ghost use Rattle.pq_claims.specs.aux.Walks.{Walk, HasLast, IsNextKey, IsLeastPlace};

use crate::held::Held;
use crate::holders::Holder;
use crate::runs::keys_in;
use crate::search::blocker_of;
use pq_rules::{Memory, Rules, push};
use std::alloc::Global;
use std::collections::BTreeMap;

/// Adds copies of the keys of `more` to `keys`, from the place `from` on.
fn push_from<R: Rules>(
    alloc: Global,
    rules: &R,
    keys: &mut Vec<R::Key>,
    more: &[R::Key],
    from: usize,
) -> Result<(), Memory>
    requires { from ≤ length more.now }
    ensures { OnOk result (keys.new.items ≡ keys.old.items ++ drop from more.now) }
{
    'more: for i in from..more.len() {
        let copy = rules.copy_key(alloc, &more[i])?;
        push(keys, copy)?;
    }
    Ok(())
}

/// The keys of the ring that `run` closes if it waits for `_key`, from that key on. The holder of
/// the key is `first`. Only the contract reads `_key`.
pub(crate) fn ring_from<R: Rules>(
    alloc: Global,
    rules: &R,
    holders: &BTreeMap<R::Key, Holder>,
    runs: &BTreeMap<u64, Held<R::Key>>,
    first: Holder,
    run: u64,
    _key: &R::Key,
) -> Result<Vec<R::Key>, Memory>
    requires kept { (next : ℕ) × Keeps R.Key.cmp next holders.now.entries runs.now.entries }
    requires holds { holder_in R.Key.cmp holders.now.entries _key.now ≡ Some first }
    requires leads { (rs : List ℕ) × Walk (Blocks (λ k. holder_in R.Key.cmp holders.now.entries k) (λ r. held_at runs.now.entries r)) first.run rs run }
    ensures round { IfOk result (λ v. Walk (IsNextKey (λ k. holder_in R.Key.cmp holders.now.entries k) (λ r. held_at runs.now.entries r) run _key.now) _key.now v.items _key.now) }
    ensures some { IfOk result (λ v. v.items ≢ []) }
    ensures differ { IfOk result (λ v. Differ v.items) }
    ensures last { IfOk result (λ v. HasLast (held_at runs.now.entries run).keys v.items) }
{
    let mut ring = Vec::new(alloc);
    let mut at = first;
    'walk: for _step in 0..runs.len() {
        push_from(alloc, rules, &mut ring, keys_in(runs, at.run), at.place)?;
        if at.run == run {
            return Ok(ring);
        }
        match blocker_of(rules, holders, runs, at.run) {
            Some(holder) => {
                at = holder;
            }
            None => unreachable!(),
        }
    }
    unreachable!()
}

/// The place of the least of `keys`.
fn least_place<R: Rules>(_rules: &R, keys: &[R::Key]) -> usize
    requires { 0 < length keys.now }
    ensures within { result < length keys.now }
    ensures least { IsLeastPlace R.Key.cmp keys.now result }
{
    let mut least = 0;
    for i in 1..keys.len() {
        if keys[i].cmp(&keys[least]).is_lt() {
            least = i;
        }
    }
    least
}

/// The keys of `keys`, from the place `first` on and round.
fn turned<K: Drop>(keys: Vec<K>, first: usize) -> Vec<K>
    requires { first ≤ length keys.items }
    ensures { result.items ≡ drop first keys.items ++ take first keys.items }
{
    let mut keys = keys;
    let _count = keys.as_slice().len();
    keys.rotate_left(first);
    keys
}

/// The keys of `ring`, from the least on and round.
pub(crate) fn from_least<R: Rules>(rules: &R, ring: Vec<R::Key>) -> Vec<R::Key>
    requires { 0 < length ring.items }
    ensures { (i : ℕ) × (i < length ring.items) × IsLeastPlace R.Key.cmp ring.items i × (result.items ≡ drop i ring.items ++ take i ring.items) }
{
    let least = least_place(rules, &ring);
    turned(ring, least)
}
