//! The calls: a run claims a key, releases the key that it claimed last, or all its keys.
ghost use Rattle.std.specs.Prelude.{◌≡◌, ◌↔◌, [], ℕ, None, IsTrue, IfSome, IfNone};
ghost use Rattle.pq_claims.specs.Claims.{Claimed, Holds, IsSet, Releases, ReleasesAll, hold_of};

use crate::claim::Claim;
use crate::claiming::claim_in;
use crate::held::Held;
use crate::holders::{Holder, holder_of, take_holder};
use crate::run_id::RunId;
use crate::runs::{close_run, drop_wait, keys_in, pop_key};
use pq_rules::{Memory, Rules};
use std::alloc::Global;
use std::collections::BTreeMap;
use std::marker::Model;

/// Which run holds which keys, and which run waits for which key. Contracts see it as a list of
/// runs by number, each with its keys and its wait.
#[derive(Drop)]
pub struct Claims<R: Rules> {
    rules: R,
    holders: BTreeMap<R::Key, Holder>,
    runs: BTreeMap<u64, Held<R::Key>>,
    pub(crate) next: u64,
}

impl<R: Rules> Model for Claims<R> {
    ghost use Rattle.std.specs.Prelude.{ℕ, List};
    ghost use Rattle.pq_claims.specs.Claims.{Hold};
    ghost use Rattle.pq_claims.specs.aux.Table.{Keeps, holder_in, shown};

    ghost Value = { List (ℕ × Hold R.Key) };

    ghost view = { λ c. shown (λ k. holder_in R.Key.cmp c.holders.entries k) c.runs.entries };

    ghost invariant = { λ c. Keeps R.Key.cmp c.next c.holders.entries c.runs.entries };
}

impl<R: Rules> Claims<R> {
    /// No claims. Keys are copied by `rules`. It takes no memory.
    pub fn new(alloc: Global, rules: R) -> Self
        // No run holds a key, and none waits.
        ensures empty { (r : ℕ) → hold_of result r ≡ record { keys = []; wait = None } }
    {
        Claims {
            rules,
            holders: BTreeMap::new(alloc),
            runs: BTreeMap::new(alloc),
            next: 0,
        }
    }

    /// Whether a run holds `key`. It takes no memory.
    pub fn is_held(&self, key: &R::Key) -> bool
        // True exactly where a run holds the key.
        ensures held { IsTrue result ↔ ((r : ℕ) × Holds self.now r key.now) }
    {
        holder_of(&self.rules, &self.holders, key).is_some()
    }

    /// The run that holds `key`, if a run holds it. It takes no memory.
    pub fn holder(&self, key: &R::Key) -> Option<RunId>
        // `some`, `none`: The run that holds the key; no answer exactly where no run does.
        ensures some { IfSome result (λ r. Holds self.now r key.now) }
        ensures none { IfNone result ((r : ℕ) → Holds self.now r key.now → ⊥) }
    {
        match holder_of(&self.rules, &self.holders, key) {
            Some(holder) => return Some(RunId::new(holder.run)),
            None => return None,
        }
    }

    /// Claims `key` for `run`. Whatever it answers but `Memory`, the wait that `run` had has ended.
    ///
    /// # Errors
    ///
    /// `Memory` where an allocation fails or the numbers of claims are used up. Then all is as it
    /// was, also the wait of `run`.
    pub fn claim(
        &mut self,
        alloc: Global,
        run: RunId,
        key: &R::Key,
    ) -> Result<Claim<R::Key>, Memory>
        // `Claimed`: `Got`: no run held the key, and the run holds it as the last of its keys.
        // `HeldBy`: another run holds it, and the run waits for it. `Ring`: the ring that the wait
        // would close, from its least key on, with the claimed key and the key that the run claimed
        // last on it; nothing is claimed. In these cases the earlier wait of the run has ended and
        // other runs are as they were. After `Memory` all is as it was.
        ensures claimed { Claimed R.Key.cmp run key.now result self.old self.new }
    {
        if self.next == u64::MAX {
            return Err(Memory);
        }
        let claimed = claim_in(
            alloc,
            &self.rules,
            &mut self.holders,
            &mut self.runs,
            self.next,
            run.number(),
            key,
        );
        self.next += 1;
        claimed
    }

    /// Ends the wait of `run`, if it waits for a key. It takes no memory.
    pub fn end_wait(&mut self, run: RunId)
        // The run waits for no key. Its keys, and what other runs hold and wait for, are as they
        // were.
        ensures ended { IsSet self.old self.new run (record { keys = (hold_of self.old run).keys; wait = None }) }
    {
        drop_wait(&mut self.runs, run.number());
    }

    /// Releases the key that `run` claimed last, and returns it. All waits for it end. The wait of
    /// `run` itself stays. It takes no memory.
    pub fn release(&mut self, run: RunId) -> Option<R::Key>
        // `Releases`: The run releases the key that it claimed last, and all waits for that key
        // end. All other keys and waits stay. Without a key of the run nothing changes.
        ensures released { Releases run result self.old self.new }
    {
        match pop_key(&mut self.runs, run.number()) {
            Some(key) => {
                take_holder(&self.rules, &mut self.holders, &key);
                return Some(key);
            }
            None => return None,
        }
    }

    /// Releases all keys of `run`, and ends its wait and all waits for these keys. It takes no
    /// memory.
    pub fn release_all(&mut self, run: RunId)
        // `ReleasesAll`: The run holds no key and waits for none. All waits for its keys end. All
        // other keys and waits stay.
        ensures released { ReleasesAll run self.old self.new }
    {
        let count = keys_in(&self.runs, run.number()).len();
        'keys: for _step in 0..count {
            self.release(run);
        }
        close_run(&mut self.runs, run.number());
    }
}
