//! Comparing the old answers of a ring's keys with the ring.
//!
//! Keys that were on one ring have one old answer. So where two keys were on each other's ring, what
//! the comparison of the first found holds for the second, which takes four comparisons of keys.
ghost use Rattle.std.specs.Prelude.{◌≡◌, ◌↔◌, IsTrue};
ghost use Rattle.pq_inputs.specs.Sources.{Table};
ghost use Rattle.pq_memo.specs.Look.{IsOnItsRing};
ghost use Rattle.pq_memo.specs.Table.{memo_at, HasIn, KeptOver};
ghost use Rattle.pq_memo.specs.Writes.{IsDated};
ghost use Rattle.pq_memo.specs.aux.Written.{IsCompared};

use crate::table::entry::Entry;
use crate::table::hint::Hint;
use crate::table::memos::Memos;
use pq_rules::{Answer, Rules, same_answer};

impl<R: Rules> Memos<R> {
    /// Whether `a` and `b`, whose entries are `first` and `second`, are each on the ring of both, at
    /// the places that their entries name.
    fn are_mates(
        &self,
        a: &R::Key,
        first: &Entry<R::Key, R::Value>,
        b: &R::Key,
        second: &Entry<R::Key, R::Value>,
    ) -> bool
        ensures own { IsTrue result → IsOnItsRing a.now first.now × IsOnItsRing b.now second.now }
        ensures other { IsTrue result → IsOnItsRing b.now first.now × IsOnItsRing a.now second.now }
    {
        self.is_at(a, first.place(), first)
            && self.is_at(b, second.place(), second)
            && self.is_at(b, second.place(), first)
            && self.is_at(a, first.place(), second)
    }

    /// Whether the answer of `entry`, the entry of `key`, is `answer`. That of the memo of
    /// `previous` is if `same` says so.
    fn is_answer(
        &self,
        previous: &R::Key,
        before: Hint,
        same: bool,
        key: &R::Key,
        entry: &Entry<R::Key, R::Value>,
        answer: &Answer<R::Key, R::Value>,
    ) -> bool
        requires kept { (inputs : Table) × KeptOver R.Key.cmp (R.machine self.now.rules) inputs self.now.places }
        requires has { HasIn (memo_at R.Key.cmp self.now.places) key.now entry.now }
        requires same { IsCompared (HasIn (memo_at R.Key.cmp self.now.places)) previous.now answer.now same }
        ensures { IsTrue result ↔ (entry.now.answer ≡ answer.now) }
    {
        match self.entry(previous, before) {
            Some(other) => {
                if self.are_mates(previous, other, key, entry) {
                    return same;
                }
                same_answer(self.rules(), entry.answer(), answer)
            }
            None => same_answer(self.rules(), entry.answer(), answer),
        }
    }

    /// Whether the answer of the memo of `key` is `answer`, and the changed revision of `answer` for
    /// `key`. The answer of the memo of `previous` is `answer` if `same` says so.
    pub(crate) fn compared(
        &self,
        previous: &R::Key,
        before: Hint,
        same: bool,
        key: &R::Key,
        hint: Hint,
        answer: &Answer<R::Key, R::Value>,
        now: u64,
    ) -> (bool, u64)
        requires kept { (inputs : Table) × KeptOver R.Key.cmp (R.machine self.now.rules) inputs self.now.places }
        requires same { IsCompared (HasIn (memo_at R.Key.cmp self.now.places)) previous.now answer.now same }
        ensures same { IsCompared (HasIn (memo_at R.Key.cmp self.now.places)) key.now answer.now result.0 }
        ensures dated { IsDated now (HasIn (memo_at R.Key.cmp self.now.places)) key.now answer.now result.1 }
    {
        match self.entry(key, hint) {
            Some(entry) => {
                if self.is_answer(previous, before, same, key, entry, answer) {
                    return (true, entry.changed());
                }
                (false, now)
            }
            None => (false, now),
        }
    }

    /// Whether the answer of the memo of `key` is `answer`.
    pub(crate) fn compared_first(
        &self,
        key: &R::Key,
        hint: Hint,
        answer: &Answer<R::Key, R::Value>,
    ) -> bool
        ensures { IsCompared (HasIn (memo_at R.Key.cmp self.now.places)) key.now answer.now result }
    {
        match self.entry(key, hint) {
            Some(entry) => same_answer(self.rules(), entry.answer(), answer),
            None => false,
        }
    }
}
