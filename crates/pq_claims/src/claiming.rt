//! One claim: of a key that no run holds, and of a key that is held.
//!
//! All that can fail comes before the first write that contracts see. A claim of a free key copies
//! the key twice, once for the run and once for the tree of holders. A claim of a key that is held
//! searches along the waits of its holder, and copies the key once, or each key of the ring.
ghost use Rattle.std.specs.Prelude.{◌≡◌, ◌+◌, ◌++◌, ◌∷◌, [], ℕ, length, Some, None, IsSome, IfOk, OnOk, OnErr};
ghost use Rattle.std.specs.Map.{lookup};
ghost use Rattle.std.specs.BTreeMap.{is_at};
ghost use Rattle.std.specs.Ordering.{nat_cmp};
ghost use Rattle.pq_claims.specs.Claims.{Claimed};
ghost use Rattle.pq_claims.specs.aux.Table.{Keeps, IsSetAt, IsSameRuns, IsHolderSet, IsSameHolders, held_at, holder_in, shown};
ghost use Rattle.pq_claims.specs.aux.Answers.{HasWaited};

use crate::claim::Claim;
use crate::held::{Held, Wait};
use crate::holders::{Holder, holder_of, put_holder};
use crate::ring::{from_least, ring_from};
use crate::run_id::RunId;
use crate::runs::{keys_in, open_run, pop_key, push_key, set_wait};
use crate::search::leads_to;
use pq_rules::{Memory, Rules};
use std::alloc::Global;
use std::collections::BTreeMap;

/// Gives `run` the key `key`, which no run holds, by the claim number `next`. If an allocation
/// fails, all is as it was.
fn take_free<R: Rules>(
    alloc: Global,
    rules: &R,
    holders: &mut BTreeMap<R::Key, Holder>,
    runs: &mut BTreeMap<u64, Held<R::Key>>,
    next: u64,
    run: u64,
    key: &R::Key,
) -> Result<(), Memory>
    requires kept { Keeps R.Key.cmp next holders.old.entries runs.old.entries }
    requires opened { IsSome (lookup (is_at (nat_cmp run)) runs.old.entries) }
    requires free { holder_in R.Key.cmp holders.old.entries key.now ≡ None }
    ensures kept { OnOk result (Keeps R.Key.cmp (next + 1) holders.new.entries runs.new.entries) }
    ensures keys { OnOk result (IsSetAt runs.old.entries run (record { keys = (held_at runs.old.entries run).keys ++ key.now ∷ []; wait = None }) runs.new.entries) }
    ensures holder { OnOk result (IsHolderSet R.Key.cmp holders.old.entries key.now (Some (record { run = run; place = length (held_at runs.old.entries run).keys; claim = next })) holders.new.entries) }
    ensures runs { OnErr result (IsSameRuns runs.old.entries runs.new.entries) }
    ensures holders { OnErr result (IsSameHolders R.Key.cmp holders.old.entries holders.new.entries) }
{
    let copy = rules.copy_key(alloc, key)?;
    let again = rules.copy_key(alloc, key)?;
    let place = keys_in(runs, run).len();
    push_key(runs, run, copy)?;
    let holder = Holder {
        run,
        place,
        claim: next,
    };
    match put_holder(rules, holders, again, holder) {
        Ok(()) => {
            set_wait(runs, run, None);
            Ok(())
        }
        Err(_) => {
            pop_key(runs, run);
            Err(Memory)
        }
    }
}

/// Makes `run` wait for `key`, which `holder` holds. If the wait would close a ring, it answers the
/// ring, and `run` waits for no key.
fn wait_for<R: Rules>(
    alloc: Global,
    rules: &R,
    holders: &BTreeMap<R::Key, Holder>,
    runs: &mut BTreeMap<u64, Held<R::Key>>,
    run: u64,
    key: &R::Key,
    holder: Holder,
) -> Result<Claim<R::Key>, Memory>
    requires kept { (next : ℕ) × Keeps R.Key.cmp next holders.now.entries runs.old.entries }
    requires opened { IsSome (lookup (is_at (nat_cmp run)) runs.old.entries) }
    requires holds { holder_in R.Key.cmp holders.now.entries key.now ≡ Some holder }
    ensures kept { (next : ℕ) → Keeps R.Key.cmp next holders.now.entries runs.old.entries → Keeps R.Key.cmp next holders.now.entries runs.new.entries }
    ensures waited { IfOk result (HasWaited R.Key.cmp holders.now.entries run key.now holder runs.old.entries runs.new.entries) }
    ensures refused { OnErr result (IsSameRuns runs.old.entries runs.new.entries) }
{
    if leads_to(rules, holders, runs, holder.run, run) {
        let ring = ring_from(alloc, rules, holders, runs, holder, run, key)?;
        set_wait(runs, run, None);
        return Ok(Claim::Ring(from_least(rules, ring)));
    }
    let copy = rules.copy_key(alloc, key)?;
    let wait = Wait {
        key: copy,
        claim: holder.claim,
    };
    set_wait(runs, run, Some(wait));
    Ok(Claim::HeldBy(RunId::new(holder.run)))
}

/// Claims `key` for `run`, by the claim number `next`.
pub(crate) fn claim_in<R: Rules>(
    alloc: Global,
    rules: &R,
    holders: &mut BTreeMap<R::Key, Holder>,
    runs: &mut BTreeMap<u64, Held<R::Key>>,
    next: u64,
    run: u64,
    key: &R::Key,
) -> Result<Claim<R::Key>, Memory>
    requires { Keeps R.Key.cmp next holders.old.entries runs.old.entries }
    ensures kept { Keeps R.Key.cmp (next + 1) holders.new.entries runs.new.entries }
    ensures claimed { Claimed R.Key.cmp run key.now result (shown (λ k. holder_in R.Key.cmp holders.old.entries k) runs.old.entries) (shown (λ k. holder_in R.Key.cmp holders.new.entries k) runs.new.entries) }
{
    match open_run(alloc, runs, run) {
        Ok(()) => {}
        Err(_) => return Err(Memory),
    }
    match holder_of(rules, holders, key) {
        Some(holder) => match wait_for(alloc, rules, holders, runs, run, key, holder) {
            Ok(claim) => return Ok(claim),
            Err(_) => return Err(Memory),
        },
        None => match take_free(alloc, rules, holders, runs, next, run, key) {
            Ok(()) => return Ok(Claim::Got),
            Err(_) => return Err(Memory),
        },
    }
}
