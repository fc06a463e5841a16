//! What is kept of each run, in a search tree by number. A run without an entry holds no key and
//! waits for none.
ghost use Rattle.std.specs.Prelude.{◌≡◌, ◌++◌, ◌∷◌, [], ℕ, None, IsSome, IfSome, IfNone, option_copied, option_to_list, OnOk, OnErr};
ghost use Rattle.std.specs.Map.{lookup};
ghost use Rattle.std.specs.BTreeMap.{is_at};
ghost use Rattle.std.specs.Ordering.{nat_cmp};
ghost use Rattle.pq_claims.specs.aux.Table.{held_at, IsSameRuns, IsSetAt};

use crate::held::{Held, Wait};
use pq_rules::Memory;
use std::alloc::Global;
use std::collections::BTreeMap;

/// The keys that `run` holds.
pub(crate) fn keys_in<K>(runs: &BTreeMap<u64, Held<K>>, run: u64) -> &[K]
    ensures { result.now ≡ (held_at runs.now.entries run).keys }
{
    match runs.get(&run) {
        Some(held) => held.keys(),
        None => &[],
    }
}

/// The last wait of `run`.
pub(crate) fn wait_in<K>(runs: &BTreeMap<u64, Held<K>>, run: u64) -> Option<&Wait<K>>
    ensures { option_copied result ≡ (held_at runs.now.entries run).wait }
{
    match runs.get(&run) {
        Some(held) => held.wait(),
        None => None,
    }
}

/// Makes an entry for `run`, if it has none.
pub(crate) fn open_run<K: Drop>(
    alloc: Global,
    runs: &mut BTreeMap<u64, Held<K>>,
    run: u64,
) -> Result<(), Memory>
    ensures same { IsSameRuns runs.old.entries runs.new.entries }
    ensures opened { OnOk result (IsSome (lookup (is_at (nat_cmp run)) runs.new.entries)) }
{
    if runs.contains_key(&run) {
        return Ok(());
    }
    match runs.insert(run, Held::new(alloc)) {
        Ok(_) => Ok(()),
        Err(_) => Err(Memory),
    }
}

/// Adds `key` at the end of the keys of `run`, which has an entry.
pub(crate) fn push_key<K: Drop>(
    runs: &mut BTreeMap<u64, Held<K>>,
    run: u64,
    key: K,
) -> Result<(), Memory>
    requires { IsSome (lookup (is_at (nat_cmp run)) runs.old.entries) }
    ensures pushed { OnOk result (IsSetAt runs.old.entries run (record { keys = (held_at runs.old.entries run).keys ++ key ∷ []; wait = (held_at runs.old.entries run).wait }) runs.new.entries) }
    ensures refused { OnErr result (IsSameRuns runs.old.entries runs.new.entries) }
    ensures opened { IsSome (lookup (is_at (nat_cmp run)) runs.new.entries) }
{
    match runs.get_mut(&run) {
        Some(held) => held.push(key),
        None => unreachable!(),
    }
}

/// Takes the last key of `run` out. It takes no memory.
pub(crate) fn pop_key<K: Drop>(runs: &mut BTreeMap<u64, Held<K>>, run: u64) -> Option<K>
    ensures keys { (held_at runs.old.entries run).keys ≡ (held_at runs.new.entries run).keys ++ option_to_list result }
    ensures set { IsSetAt runs.old.entries run (record { keys = (held_at runs.new.entries run).keys; wait = (held_at runs.old.entries run).wait }) runs.new.entries }
    ensures none { IfNone result ((held_at runs.old.entries run).keys ≡ []) }
{
    match runs.get_mut(&run) {
        Some(held) => held.pop(),
        None => None,
    }
}

/// Sets the wait of `run`, which has an entry.
pub(crate) fn set_wait<K: Drop>(runs: &mut BTreeMap<u64, Held<K>>, run: u64, wait: Option<Wait<K>>)
    requires { IsSome (lookup (is_at (nat_cmp run)) runs.old.entries) }
    ensures set { IsSetAt runs.old.entries run (record { keys = (held_at runs.old.entries run).keys; wait = wait }) runs.new.entries }
{
    match runs.get_mut(&run) {
        Some(held) => held.set_wait(wait),
        None => unreachable!(),
    }
}

/// Ends the wait of `run`, if it has an entry. It takes no memory.
pub(crate) fn drop_wait<K: Drop>(runs: &mut BTreeMap<u64, Held<K>>, run: u64)
    ensures set { IsSetAt runs.old.entries run (record { keys = (held_at runs.old.entries run).keys; wait = None }) runs.new.entries }
{
    match runs.get_mut(&run) {
        Some(held) => held.set_wait(None),
        None => {}
    }
}

/// Removes the entry of `run`. It takes no memory.
pub(crate) fn close_run<K: Drop>(runs: &mut BTreeMap<u64, Held<K>>, run: u64)
    ensures set { IsSetAt runs.old.entries run (record { keys = []; wait = None }) runs.new.entries }
{
    runs.remove(&run);
}
