//! The numbers of keys: a map that is searched by codes.
//!
//! A key has a code, a number of 64 bits that `Rules::code` makes of it. The first key of a code is
//! found by the code, and one comparison of keys tells whether it is the key that was asked. Only
//! the further keys of a code are in a map that compares keys. Strangers choose the names in keys,
//! so the codes can all be equal: a search takes logarithmic time even then.
ghost use Rattle.std.specs.Prelude.{◌≡◌, ℕ, [], Some, None, IfOk, IfSome, IfNone, OnOk, OnErr, option_copied, if◌then◌else◌};
ghost use Rattle.std.specs.Ordering.{is_eq, nat_cmp};
ghost use Rattle.pq_memo.specs.aux.Numbers.{first_in, number_in};

use crate::table::places::{claim_place, noted};
use crate::table::recorded::Recorded;
use pq_rules::{Memory, Rules, is_same_key};
use std::alloc::Global;
use std::collections::BTreeMap;
use std::marker::Model;

/// The first key of `code` with its number, if a key has this code.
fn first_of<K>(
    codes: &BTreeMap<u64, (Recorded<K>, usize)>,
    code: u64,
) -> Option<&(Recorded<K>, usize)>
    ensures { option_copied result ≡ first_in codes.now.entries code }
{
    codes.get(&code)
}

/// Makes `key` the first key of `code`, with the number `number`.
fn put_first<K: Drop>(
    codes: &mut BTreeMap<u64, (Recorded<K>, usize)>,
    code: u64,
    key: Recorded<K>,
    number: usize,
) -> Result<(), Memory>
    ensures put { OnOk result ((c : ℕ) → first_in codes.new.entries c ≡ (if is_eq (nat_cmp code c) then Some (key, number) else first_in codes.old.entries c)) }
    ensures refused { OnErr result (codes.new.entries ≡ codes.old.entries) }
{
    codes.insert(code, (key, number))?;
    Ok(())
}

/// Keys with their numbers. Contracts see the keys that are first of their codes, and the others.
#[derive(Drop)]
pub(crate) struct Numbers<R: Rules> {
    // Of each code the first key that has it, and its number.
    codes: BTreeMap<u64, (Recorded<R::Key>, usize)>,
    // The numbers of the other keys.
    others: BTreeMap<R::Key, usize>,
}

impl<R: Rules> Model for Numbers<R> {
    ghost use Rattle.pq_memo.specs.aux.Numbers.{Coded, AreCoded};

    ghost Value = { Coded R.Key };

    ghost view = { λ n. record { codes = n.codes.entries; others = n.others.entries } };

    ghost invariant = { λ n. AreCoded R.Key.cmp R.codes n.codes.entries n.others.entries };
}

impl<R: Rules> Numbers<R> {
    /// No keys.
    pub(crate) fn new(alloc: Global) -> Self
        ensures { result ≡ record { codes = []; others = [] } }
    {
        Numbers {
            codes: BTreeMap::new(alloc),
            others: BTreeMap::new(alloc),
        }
    }

    /// The number of `key`, if it has one.
    pub(crate) fn get(&self, rules: &R, key: &R::Key) -> Option<usize>
        ensures { result ≡ number_in R.Key.cmp R.codes self.now key.now }
    {
        match first_of(&self.codes, rules.code(key)) {
            Some(first) => {
                if is_same_key(rules, first.0.key(), key) {
                    return Some(first.1);
                }
                noted(rules, &self.others, key)
            }
            None => None,
        }
    }

    /// Gives `key` the number `number`, if it has none. Returns the number that it had.
    pub(crate) fn claim(
        &mut self,
        alloc: Global,
        rules: &R,
        key: &Recorded<R::Key>,
        number: usize,
    ) -> Result<Option<usize>, Memory>
        ensures had { IfOk result (λ o. o ≡ number_in R.Key.cmp R.codes self.old key.now) }
        ensures same { IfOk result (λ o. IfSome o (λ n. (q : R.Key) → number_in R.Key.cmp R.codes self.new q ≡ number_in R.Key.cmp R.codes self.old q)) }
        ensures put { IfOk result (λ o. IfNone o ((q : R.Key) → number_in R.Key.cmp R.codes self.new q ≡ (if is_eq (R.Key.cmp key.now q) then Some number else number_in R.Key.cmp R.codes self.old q))) }
        ensures refused { OnErr result ((q : R.Key) → number_in R.Key.cmp R.codes self.new q ≡ number_in R.Key.cmp R.codes self.old q) }
    {
        let code = rules.code(key.key());
        match first_of(&self.codes, code) {
            Some(first) => {
                if is_same_key(rules, first.0.key(), key.key()) {
                    return Ok(Some(first.1));
                }
                let copy = rules.copy_key(alloc, key.key())?;
                claim_place(rules, &mut self.others, copy, number)
            }
            None => {
                put_first(&mut self.codes, code, key.copy()?, number)?;
                Ok(None)
            }
        }
    }
}
