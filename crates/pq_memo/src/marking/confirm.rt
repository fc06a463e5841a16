//! Marking the memos below a frame that walks, without frames of their own.
//!
//! The walk goes over the numbers of slots. It copies no key and keeps no frame. It stops at the
//! first memo that neither durability nor its reads confirm, and from there on frames take over.
//! Each memo that it marks costs two passes over its reads: to find one that is not up to date, and
//! to test the memo. So the walk is linear in the reads below the frame.
//!
//! The engine marks all in one call (`confirm`). A caller that keeps the frames of many runs goes
//! down with `start_trail` and `next_slot`, and marks what it may with `confirm_slot`.
ghost use Rattle.std.specs.Prelude.{◌≡◌, ◌++◌, ◌∷◌, [], None, Some, IsTrue, IsFalse, IfSome, IfNone};
ghost use Rattle.pq_rules.specs.Relations.{Each, In};
ghost use Rattle.pq_memo.specs.Look.{IsUpToDate, HasChanged, IsStill, IsGreen};
ghost use Rattle.pq_memo.specs.Table.{key_at, memo_at, HasIn, KeptOver};
ghost use Rattle.pq_memo.specs.Writes.{IsConfirmed};
ghost use Rattle.pq_memo.specs.Frames.{frame_keys};
ghost use Rattle.pq_memo.specs.aux.Durabilities.{HasDurability, IsLeastRead};
ghost use Rattle.pq_memo.specs.aux.Demand.{Linked, Caused, HasConfirmed, HasNow, IsValidAt};

use crate::marking::trail::{Mark, Passage, Trail};
use crate::stepping::frame::{Frame, Stage};
use crate::stepping::stack::Stack;
use crate::table::entry::Entry;
use crate::table::hint::Hint;
use crate::table::memos::Memos;
use crate::table::recorded::Recorded;
use crate::writing::writes::lower;
use pq_inputs::{Durability, Inputs};
use pq_rules::{Answer, Rules, is_same_key};

impl<R: Rules> Memos<R> {
    /// What a pass over the reads of the memo at `mark` comes to.
    fn passage(&self, mark: Mark, inputs: &Inputs) -> Passage {
        let now = inputs.now().number();
        match self.entries.entry_of(mark.number) {
            Some(entry) => {
                if entry.verified() == now || self.lasts(entry, inputs) {
                    return Passage::Through;
                }
                match entry.answer() {
                    Answer::Value(_) => {
                        self.passed_from(entry.reads(), mark.place, entry.verified(), now)
                    }
                    Answer::Cycle(_) => Passage::Shut,
                }
            }
            None => Passage::Shut,
        }
    }

    /// What a pass over the memos of `reads`, from the place `from` on, comes to. One that was
    /// verified before `now`, or changed after `since`, ends it. It goes past inputs.
    fn passed_from(
        &self,
        reads: &[Recorded<R::Key>],
        from: usize,
        since: u64,
        now: u64,
    ) -> Passage {
        for i in from..reads.len() {
            if let Some(number) = reads[i].hint().slot_number() {
                match self.entries.entry_of(number) {
                    Some(read) => {
                        if read.verified() != now {
                            return Passage::Below(i, number);
                        }
                        if read.changed() > since {
                            return Passage::Shut;
                        }
                    }
                    None => return Passage::Shut,
                }
            }
        }
        Passage::Through
    }

    /// Begins `trail` at `frame`, or goes on with it where it led to that frame. Returns whether there
    /// may be a memo to mark below the frame. It takes one search of the index.
    pub fn start_trail(&self, trail: &mut Trail, frame: &Frame<R::Key, R::Part>) -> bool {
        match &frame.stage {
            Stage::Walking(_) => match self.entries.find(&self.rules, &frame.key, Hint::Nowhere) {
                Some(number) => trail.start(frame, Hint::of_slot(number), self.entries.count()),
                None => false,
            },
            Stage::Waiting(_, _, _) => false,
        }
    }

    /// Goes down `trail`, over `steps` marks at most, to the first memo whose reads are all up to
    /// date, and returns the number of its key. A memo with a frame is none: the frame marks it.
    pub fn next_slot(&self, trail: &mut Trail, steps: usize, inputs: &Inputs) -> Option<usize> {
        trail.close();
        for _ in 0..steps {
            let mark = trail.last()?;
            match self.passage(mark, inputs) {
                Passage::Shut => return None,
                Passage::Below(place, number) => {
                    if !trail.go_below(place, number) {
                        return None;
                    }
                }
                Passage::Through => {
                    if trail.is_at_frame() {
                        return None;
                    }
                    return Some(mark.number);
                }
            }
        }
        trail.open();
        None
    }

    /// The revision at which `key` last changed, and its durability now, if it is up to date. It is
    /// looked for first at `hint`.
    fn fresh_pair(&self, key: &R::Key, hint: Hint, inputs: &Inputs) -> Option<(u64, Durability)>
        ensures fresh { IfSome result (λ p. IsUpToDate (R.machine self.now.rules) inputs.now.revision (HasIn (memo_at R.Key.cmp self.now.places)) key.now) }
        ensures changed { IfSome result (λ p. HasChanged (R.machine self.now.rules) inputs.now.history (HasIn (memo_at R.Key.cmp self.now.places)) key.now p.0) }
        ensures durability { IfSome result (λ p. HasDurability (R.machine self.now.rules) inputs.now.files (HasIn (memo_at R.Key.cmp self.now.places)) key.now p.1) }
    {
        match self.rules.file(key) {
            Some(name) => {
                let change = inputs.change_of(name, hint.file_number());
                Some((change.revision.number(), change.durability))
            }
            None => match self.entry(key, hint) {
                Some(entry) => {
                    if entry.verified() == inputs.now().number() {
                        return Some((entry.changed(), entry.durability()));
                    }
                    None
                }
                None => None,
            },
        }
    }

    /// The least durability of `reads`, if each is up to date and did not change after `since`.
    fn still_durability(
        &self,
        reads: &[Recorded<R::Key>],
        since: u64,
        inputs: &Inputs,
    ) -> Option<Durability>
        ensures still { IfSome result (λ d. Each (IsStill (R.machine self.now.rules) inputs.now.history inputs.now.revision (HasIn (memo_at R.Key.cmp self.now.places)) since) reads.now) }
        ensures least { IfSome result (λ d. IsLeastRead (R.machine self.now.rules) inputs.now.files (HasIn (memo_at R.Key.cmp self.now.places)) (λ q. In q reads.now) d) }
    {
        let mut least = Durability::High;
        for i in 0..reads.len() {
            let read = &reads[i];
            match self.fresh_pair(read.key(), read.hint(), inputs) {
                Some((changed, durability)) => {
                    if changed > since {
                        return None;
                    }
                    least = lower(least, durability);
                }
                None => return None,
            }
        }
        Some(least)
    }

    /// The durability that `entry`, the entry of `key`, has now, if it is valid and was not verified
    /// now.
    fn valid_durability(
        &self,
        key: &R::Key,
        entry: &Entry<R::Key, R::Value>,
        inputs: &Inputs,
    ) -> Option<Durability>
        requires { HasIn (memo_at R.Key.cmp self.now.places) key.now entry.now }
        ensures green { IfSome result (λ d. IsGreen (R.machine self.now.rules) inputs.now.history inputs.now.revision (HasIn (memo_at R.Key.cmp self.now.places)) key.now) }
        ensures lasting { IfSome result (λ d. HasNow (R.machine self.now.rules) inputs.now (memo_at R.Key.cmp self.now.places) entry.now d) }
    {
        if entry.verified() == inputs.now().number() {
            return None;
        }
        if self.lasts(entry, inputs) {
            return Some(entry.durability());
        }
        if self.is_on_its_ring(key, entry) {
            return None;
        }
        match self.still_durability(entry.reads(), entry.verified(), inputs) {
            Some(durability) => Some(durability),
            None => None,
        }
    }

    /// The durability that the memo in the slot `number` has now, if it is valid and was not verified
    /// now.
    fn valid_at(&self, number: usize, inputs: &Inputs) -> Option<Durability>
        ensures { IfSome result (λ d. IsValidAt R.Key.cmp (R.machine self.now.rules) inputs.now self.now.places number d) }
    {
        match self.entries.key_of(number) {
            Some(key) => match self.entries.entry_at(&self.rules, key, number) {
                Some(entry) => match self.valid_durability(key, entry, inputs) {
                    Some(durability) => Some(durability),
                    None => None,
                },
                None => None,
            },
            None => None,
        }
    }

    /// Marks the memo of the key with the number `number` as verified now, if it is valid and was not
    /// verified now. Returns whether it did. It takes no memory.
    pub fn confirm_slot(&mut self, number: usize, inputs: &Inputs) -> bool
        // `KeptOver`: The table keeps the invariant over the history of the inputs.
        requires kept { KeptOver R.Key.cmp (R.machine self.old.rules) inputs.now self.old.places }
        // The rule set stays.
        ensures rules { self.new.rules ≡ self.old.rules }
        // `kept`, `confirmed`, `left`: Where it returns `true`, the memo of the key with the number
        // was valid and is verified now, and every other memo is as it was. Where it returns
        // `false`, the table is as it was. That a valid memo is marked is not said.
        ensures kept { KeptOver R.Key.cmp (R.machine self.old.rules) inputs.now self.new.places }
        ensures confirmed { IsTrue result → IsConfirmed R.Key.cmp (R.machine self.old.rules) inputs.now self.old.places number self.new.places }
        ensures left { IsFalse result → self.new.places ≡ self.old.places }
    {
        match self.valid_at(number, inputs) {
            Some(durability) => {
                self.mark_slot(number, inputs.now().number(), durability);
                true
            }
            None => false,
        }
    }

    /// The key with the number `number`, if there is one.
    pub fn key_in(&self, number: usize) -> Option<&R::Key>
        // `key`, `none`: The key that it returns has the number. Where it returns nothing, no key
        // has it.
        ensures key { IfSome result (λ k. key_at self.now.places number ≡ Some k.now) }
        ensures none { IfNone result (key_at self.now.places number ≡ None) }
    {
        self.entries.key_of(number)
    }

    /// Whether `number` is that of another key than `own`.
    fn is_other(&self, own: &R::Key, number: usize) -> bool
        ensures { IsTrue result → (k : R.Key) → key_at self.now.places number ≡ Some k → k ≡ own.now → ⊥ }
    {
        match self.key_in(number) {
            Some(key) => {
                if is_same_key(&self.rules, key, own) {
                    return false;
                }
                true
            }
            None => false,
        }
    }

    /// Marks memos below `frame` as verified now, until one is not valid, if the frame walks. Its
    /// slot may be at `hint`. The keys of `_stack`, whose frames are below it, are not among them.
    pub(crate) fn confirm(
        &mut self,
        _stack: &Stack<R>,
        frame: &Frame<R::Key, R::Part>,
        hint: Hint,
        trail: &mut Trail,
        inputs: &Inputs,
    )
        requires kept { KeptOver R.Key.cmp (R.machine self.old.rules) inputs.now self.old.places }
        requires linked { Linked R.Key.cmp (R.machine self.old.rules) inputs.now (memo_at R.Key.cmp self.old.places) (_stack.now ++ frame.now ∷ []) }
        requires stale { (k : R.Key) → In k (frame_keys (_stack.now ++ frame.now ∷ [])) → IsUpToDate (R.machine self.old.rules) inputs.now.revision (HasIn (memo_at R.Key.cmp self.old.places)) k → ⊥ }
        requires caused { Caused (R.machine self.old.rules) inputs.now (memo_at R.Key.cmp self.old.places) (_stack.now ++ frame.now ∷ []) }
        ensures rules { self.new.rules ≡ self.old.rules }
        ensures kept { KeptOver R.Key.cmp (R.machine self.old.rules) inputs.now self.new.places }
        ensures confirmed { HasConfirmed (R.machine self.old.rules) inputs.now.revision (memo_at R.Key.cmp self.old.places) (memo_at R.Key.cmp self.new.places) (frame_keys (_stack.now ++ frame.now ∷ [])) }
    {
        let _latest = inputs.now();
        if !trail.start(frame, hint, self.entries.count()) {
            return;
        }
        let steps = trail.fuel();
        'marks: for _ in 0..steps {
            match self.next_slot(trail, steps, inputs) {
                Some(next) => {
                    if !self.is_other(&frame.key, next) {
                        return;
                    }
                    if !self.confirm_slot(next, inputs) {
                        return;
                    }
                    trail.leave();
                }
                None => return,
            }
        }
    }
}
