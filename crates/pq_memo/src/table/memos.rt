//! The table of memos: answers, and the state of a key.
//!
//! A memo is valid if no input of its durability or more changed since it was verified, or else if
//! each of its reads is up to date and did not change. A memo whose key is on the ring that is its
//! answer reads itself, so its reads cannot confirm it.
ghost use Rattle.std.specs.Prelude.{◌≡◌, ◌≤◌, ◌<◌, ◌↔◌, length, take, IsTrue, IfSome, IfNone, option_copied, Option, None};
ghost use Rattle.std.specs.Option.{option_map};
ghost use Rattle.pq_rules.specs.Relations.{Each, In};
ghost use Rattle.pq_memo.specs.Sound.{Memo};
ghost use Rattle.pq_memo.specs.Look.{IsUpToDate, HasChanged, IsStill, IsOnItsRing};
ghost use Rattle.pq_memo.specs.Table.{memo_at, HasIn};

use crate::table::entry::Entry;
use crate::table::hint::Hint;
use crate::table::look::{Look, Why};
use crate::table::recorded::Recorded;
use crate::table::slots::Slots;
use crate::table::state::{Passed, State};
use pq_inputs::Inputs;
use pq_rules::{Answer, Rules, is_same_key};
use std::alloc::Global;
use std::marker::Model;

/// The memos of keys, over a rule set. Contracts see the rule set and the memo of each key.
///
/// All calls of one table are given the same inputs, as they grow. So each call that rests on the
/// memos requires `KeptOver`, the invariant of the table over the history of its inputs, and
/// ensures it afterwards; the law `kept_is_sound` keeps it from one revision to the next.
#[derive(Drop)]
pub struct Memos<R: Rules> {
    pub(crate) rules: R,
    pub(crate) entries: Slots<R>,
}

impl<R: Rules> Model for Memos<R> {
    ghost use Rattle.pq_memo.specs.Table.{View};

    ghost Value = { View R R.Key R.Value };

    ghost view = { λ m. record { rules = m.rules; places = m.entries } };
}

impl<R: Rules> Memos<R> {
    ghost use Rattle.pq_memo.specs.Looks.{IsLook};
    ghost use Rattle.pq_memo.specs.aux.Tests.{Confirms, OnRing, IsPass, IsState};

    /// Makes a table without memos.
    pub fn new(alloc: Global, rules: R) -> Self
        // `rules`, `empty`: A table of these rules without memos.
        ensures rules { result.rules ≡ rules }
        ensures empty { (key : R.Key) → memo_at R.Key.cmp result.places key ≡ None }
    {
        Memos {
            rules,
            entries: Slots::new(alloc),
        }
    }

    /// The rule set.
    pub fn rules(&self) -> &R
        // The rule set of the table.
        ensures { result.now ≡ self.now.rules }
    {
        &self.rules
    }

    /// Where `key` is, which is looked for first at `hint`.
    pub(crate) fn hint_of(&self, key: &R::Key, hint: Hint, inputs: &Inputs) -> Hint {
        let known = match self.rules.file(key) {
            Some(name) => {
                let file = inputs.number_of(name, hint.file_number());
                file.map(Hint::of_file)
            }
            None => self.entries.find(&self.rules, key, hint).map(Hint::of_slot),
        };
        known.unwrap_or(Hint::Nowhere)
    }

    /// The entry of `key`, looked for first at `hint`.
    pub(crate) fn entry(&self, key: &R::Key, hint: Hint) -> Option<&Entry<R::Key, R::Value>>
        ensures { option_copied result ≡ memo_at R.Key.cmp self.now.places key.now }
    {
        let mut hint = hint;
        self.entries.entry(&self.rules, key, &mut hint)
    }

    /// The entry of `key`, looked for first at `hint`, which becomes its slot.
    pub(crate) fn entry_noting(
        &self,
        key: &R::Key,
        hint: &mut Hint,
    ) -> Option<&Entry<R::Key, R::Value>>
        ensures { option_copied result ≡ memo_at R.Key.cmp self.now.places key.now }
    {
        self.entries.entry(&self.rules, key, hint)
    }

    /// The answer of the memo of `key`, in logarithmic time.
    pub fn answer(&self, key: &R::Key) -> Option<&Answer<R::Key, R::Value>>
        // The answer of the memo of the key.
        ensures { option_copied result ≡ option_map (λ (memo : Memo R.Key R.Value). memo.answer) (memo_at R.Key.cmp self.now.places key.now) }
    {
        match self.entry(key, Hint::Nowhere) {
            Some(entry) => Some(entry.answer()),
            None => None,
        }
    }

    /// The revision at which `key` last changed, if it is up to date. It is looked for first at
    /// `hint`, which becomes its slot if it has a rule.
    fn fresh_change(&self, key: &R::Key, hint: &mut Hint, inputs: &Inputs) -> Option<u64>
        ensures fresh { IfSome result (λ c. IsUpToDate (R.machine self.now.rules) inputs.now.revision (HasIn (memo_at R.Key.cmp self.now.places)) key.now) }
        ensures changed { IfSome result (λ c. HasChanged (R.machine self.now.rules) inputs.now.history (HasIn (memo_at R.Key.cmp self.now.places)) key.now c) }
        ensures stale { IfNone result (IsUpToDate (R.machine self.now.rules) inputs.now.revision (HasIn (memo_at R.Key.cmp self.now.places)) key.now → ⊥) }
    {
        match self.rules.file(key) {
            Some(name) => {
                let change = inputs.change_of(name, hint.file_number());
                Some(change.revision.number())
            }
            None => match self.entry_noting(key, hint) {
                Some(entry) => {
                    if entry.verified() == inputs.now().number() {
                        return Some(entry.changed());
                    }
                    None
                }
                None => None,
            },
        }
    }

    /// Whether `key` is an input, or its memo was verified now. It is looked for first at `hint`,
    /// which becomes its slot if it has a rule.
    pub(crate) fn is_up_to_date(&self, key: &R::Key, hint: &mut Hint, inputs: &Inputs) -> bool
        ensures { IsTrue result ↔ IsUpToDate (R.machine self.now.rules) inputs.now.revision (HasIn (memo_at R.Key.cmp self.now.places)) key.now }
    {
        self.fresh_change(key, hint, inputs).is_some()
    }

    /// Goes over `reads` from the place `from` on; those before it are up to date and did not
    /// change after `since`.
    fn pass(&self, reads: &[Recorded<R::Key>], from: usize, since: u64, inputs: &Inputs) -> Passed
        requires within { from ≤ length reads.now }
        requires still { Each (IsStill (R.machine self.now.rules) inputs.now.history inputs.now.revision (HasIn (memo_at R.Key.cmp self.now.places)) since) (take from reads.now) }
        ensures { IsPass (R.machine self.now.rules) inputs.now.history inputs.now.revision (HasIn (memo_at R.Key.cmp self.now.places)) since reads.now result }
    {
        for i in from..reads.len() {
            let read = &reads[i];
            let mut hint = read.hint();
            match self.fresh_change(read.key(), &mut hint, inputs) {
                Some(changed) => {
                    if changed > since {
                        return Passed::Newer(i);
                    }
                }
                None => return Passed::Stale(i),
            }
        }
        Passed::All
    }

    /// Whether the answer of `entry` is a ring with `key` at `place`.
    pub(crate) fn is_at(&self, key: &R::Key, place: usize, entry: &Entry<R::Key, R::Value>) -> bool
        ensures { IsTrue result → IsOnItsRing key.now entry.now }
    {
        match entry.answer() {
            Answer::Value(_) => false,
            Answer::Cycle(ring) => {
                let keys = ring.keys();
                if place < keys.len() && is_same_key(&self.rules, &keys[place], key) {
                    return true;
                }
                false
            }
        }
    }

    /// Whether `key` is on the ring that is the answer of its `entry`. It takes one comparison
    /// where the key is at the entry's place, and else one for each key of the ring.
    pub(crate) fn is_on_its_ring(&self, key: &R::Key, entry: &Entry<R::Key, R::Value>) -> bool
        ensures { OnRing result key.now entry.now }
    {
        if self.is_at(key, entry.place(), entry) {
            return true;
        }
        match entry.answer() {
            Answer::Value(_) => false,
            Answer::Cycle(ring) => {
                if has_key(&self.rules, ring.keys(), key) {
                    return true;
                }
                false
            }
        }
    }

    /// Whether durability confirms `entry`: no input of its durability or more changed since.
    pub(crate) fn lasts(&self, entry: &Entry<R::Key, R::Value>, inputs: &Inputs) -> bool
        ensures { Confirms result inputs.now.history entry.now }
    {
        if inputs.last_changed(entry.durability()).number() <= entry.verified() {
            return true;
        }
        false
    }

    /// The state of `entry`, the entry of `key`. The reads before the place `from` are up to date
    /// and did not change.
    pub(crate) fn state_of(
        &self,
        key: &R::Key,
        entry: &Entry<R::Key, R::Value>,
        from: usize,
        inputs: &Inputs,
    ) -> State
        requires has { HasIn (memo_at R.Key.cmp self.now.places) key.now entry.now }
        requires within { from ≤ length entry.now.reads }
        requires still { Each (IsStill (R.machine self.now.rules) inputs.now.history inputs.now.revision (HasIn (memo_at R.Key.cmp self.now.places)) entry.now.verified) (take from entry.now.reads) }
        ensures { IsState (R.machine self.now.rules) inputs.now.history inputs.now.revision (HasIn (memo_at R.Key.cmp self.now.places)) key.now entry.now result }
    {
        if entry.verified() == inputs.now().number() {
            return State::Verified;
        }
        if self.lasts(entry, inputs) {
            return State::Valid;
        }
        if self.is_on_its_ring(key, entry) {
            return State::Cyclic;
        }
        match self.pass(entry.reads(), from, entry.verified(), inputs) {
            Passed::All => State::Valid,
            Passed::Stale(i) => State::Behind(i),
            Passed::Newer(i) => State::Outdated(i),
        }
    }

    /// The state of `key`. It takes no memory. It takes logarithmic time where durability decides,
    /// and else a comparison more for each read up to the one that it names.
    pub fn look<'a>(&'a self, key: &R::Key, inputs: &Inputs) -> Look<'a, R::Key>
        // The state of a key, exactly: verified now; valid by durability or by its reads; the first
        // read that is not up to date; or that its rule has to be started, and why.
        ensures { IsLook (R.machine self.now.rules) inputs.now.history inputs.now.revision (HasIn (memo_at R.Key.cmp self.now.places)) key.now result }
    {
        if self.rules.level(key) == 0 {
            return Look::Usable;
        }
        match self.entry(key, Hint::Nowhere) {
            None => Look::Run(Why::Fresh),
            Some(entry) => self.look_at(key, entry, inputs),
        }
    }

    /// The state of `key`, whose entry is `entry`.
    fn look_at<'a>(
        &'a self,
        key: &R::Key,
        entry: &'a Entry<R::Key, R::Value>,
        inputs: &Inputs,
    ) -> Look<'a, R::Key>
        requires { HasIn (memo_at R.Key.cmp self.now.places) key.now entry.now }
        ensures { IsLook (R.machine self.now.rules) inputs.now.history inputs.now.revision (HasIn (memo_at R.Key.cmp self.now.places)) key.now result }
    {
        let reads = entry.reads();
        match self.state_of(key, entry, 0, inputs) {
            State::Verified => Look::Usable,
            State::Valid => Look::Green,
            State::Behind(i) => Look::Walk(reads[i].key()),
            State::Outdated(i) => Look::Run(Why::Changed(reads[i].key())),
            State::Cyclic => Look::Run(Why::Ring),
        }
    }
}

/// Whether `keys` has `key`.
fn has_key<R: Rules>(rules: &R, keys: &[R::Key], key: &R::Key) -> bool
    ensures { IsTrue result ↔ In key.now keys.now }
{
    for i in 0..keys.len() {
        if is_same_key(rules, &keys[i], key) {
            return true;
        }
    }
    false
}
