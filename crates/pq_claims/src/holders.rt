//! The holders of keys, in a search tree by key.
ghost use Rattle.std.specs.Prelude.{◌≡◌, Some, None, OnOk, OnErr};
ghost use Rattle.pq_claims.specs.aux.Table.{holder_in, IsHolderSet, IsSameHolders};

use pq_rules::{Memory, Rules};
use std::collections::BTreeMap;

/// Who holds a key: the run, the place of the key among those that the run holds, and the number of
/// the claim. No two claims have one number.
#[derive(Clone, Copy)]
pub(crate) struct Holder {
    pub(crate) run: u64,
    pub(crate) place: usize,
    pub(crate) claim: u64,
}

/// The holder of `key`.
pub(crate) fn holder_of<R: Rules>(
    _rules: &R,
    holders: &BTreeMap<R::Key, Holder>,
    key: &R::Key,
) -> Option<Holder>
    ensures { result ≡ holder_in R.Key.cmp holders.now.entries key.now }
{
    match holders.get(key) {
        Some(holder) => Some(*holder),
        None => None,
    }
}

/// Sets the holder of `key`. If the allocation fails, the holders are as they were.
pub(crate) fn put_holder<R: Rules>(
    _rules: &R,
    holders: &mut BTreeMap<R::Key, Holder>,
    key: R::Key,
    holder: Holder,
) -> Result<(), Memory>
    ensures put { OnOk result (IsHolderSet R.Key.cmp holders.old.entries key (Some holder) holders.new.entries) }
    ensures refused { OnErr result (IsSameHolders R.Key.cmp holders.old.entries holders.new.entries) }
{
    match holders.insert(key, holder) {
        Ok(_) => Ok(()),
        Err(_) => Err(Memory),
    }
}

/// Removes the holder of `key`.
pub(crate) fn take_holder<R: Rules>(
    _rules: &R,
    holders: &mut BTreeMap<R::Key, Holder>,
    key: &R::Key,
)
    ensures { IsHolderSet R.Key.cmp holders.old.entries key.now None holders.new.entries }
{
    holders.remove(key);
}
