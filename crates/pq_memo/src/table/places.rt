//! A map from keys to places: numbers of slots, or places of frames.
ghost use Rattle.std.specs.Prelude.{◌≡◌, Some, None, IfOk, OnOk, OnErr, IfSome, IfNone, if◌then◌else◌};
ghost use Rattle.std.specs.Ordering.{is_eq};
ghost use Rattle.pq_memo.specs.aux.Stack.{place_in};

use pq_rules::{Memory, Rules};
use std::collections::BTreeMap;
use std::collections::btree_map::Entry;

/// The place that `places` has of `key`.
pub(crate) fn noted<R: Rules>(
    _rules: &R,
    places: &BTreeMap<R::Key, usize>,
    key: &R::Key,
) -> Option<usize>
    ensures { result ≡ place_in R.Key.cmp places.now.entries key.now }
{
    places.get(key).copied()
}

/// Gives `key` the place `place`.
pub(crate) fn put_place<R: Rules>(
    _rules: &R,
    places: &mut BTreeMap<R::Key, usize>,
    key: R::Key,
    place: usize,
) -> Result<(), Memory>
    ensures put { OnOk result ((q : R.Key) → place_in R.Key.cmp places.new.entries q ≡ (if is_eq (R.Key.cmp key q) then Some place else place_in R.Key.cmp places.old.entries q)) }
    ensures refused { OnErr result ((q : R.Key) → place_in R.Key.cmp places.new.entries q ≡ place_in R.Key.cmp places.old.entries q) }
{
    places.insert(key, place)?;
    Ok(())
}

/// Gives `key` the place `place`, if `places` has none of it. Returns the place that it had. It
/// takes one search.
pub(crate) fn claim_place<R: Rules>(
    _rules: &R,
    places: &mut BTreeMap<R::Key, usize>,
    key: R::Key,
    place: usize,
) -> Result<Option<usize>, Memory>
    ensures had { IfOk result (λ o. o ≡ place_in R.Key.cmp places.old.entries key) }
    ensures same { IfOk result (λ o. IfSome o (λ n. (q : R.Key) → place_in R.Key.cmp places.new.entries q ≡ place_in R.Key.cmp places.old.entries q)) }
    ensures put { IfOk result (λ o. IfNone o ((q : R.Key) → place_in R.Key.cmp places.new.entries q ≡ (if is_eq (R.Key.cmp key q) then Some place else place_in R.Key.cmp places.old.entries q))) }
    ensures refused { OnErr result ((q : R.Key) → place_in R.Key.cmp places.new.entries q ≡ place_in R.Key.cmp places.old.entries q) }
{
    match places.entry(key)? {
        Entry::Occupied(there) => Ok(Some(*there.get())),
        Entry::Vacant(free) => {
            free.insert(place);
            Ok(None)
        }
    }
}
