//! What writes one memo: marking it as verified, and publishing an answer.
//!
//! Marking costs a comparison of keys for each read, where durability does not confirm the memo.
//! Publishing costs one comparison with the old answer, and for each read one with the key at its
//! old number, or a search if it is another read than before. Where it finds them is kept.
ghost use Rattle.std.specs.Prelude.{◌≡◌, ◌⊎◌, ◌<◌, ◌≤◌, List, Some, IfOk, IfErr, OnOk, OnErr, if◌then◌else◌};
ghost use Rattle.std.specs.Option.{option_map};
ghost use Rattle.std.specs.Ordering.{is_eq};
ghost use Rattle.pq_inputs.specs.Changes.{level};
ghost use Rattle.pq_rules.specs.declared.turn.Answer.TheVariants.{Cycle};
ghost use Rattle.pq_rules.specs.Turns.{over};
ghost use Rattle.pq_rules.specs.Relations.{Each, In};
ghost use Rattle.pq_memo.specs.Sound.{Memo, HasReads};
ghost use Rattle.pq_memo.specs.Look.{IsUpToDate, IsGreen, Lasts, HasLapsed};
ghost use Rattle.pq_memo.specs.Table.{key_at, memo_at, HasIn, IsPut, IsSameTable, KeptOver};
ghost use Rattle.pq_memo.specs.Writes.{IsDated, IsMarked, IsPublished, remarked};
ghost use Rattle.pq_memo.specs.aux.Durabilities.{IsKnown, HasDurability, IsLeastRead};
ghost use Rattle.pq_memo.specs.aux.Written.{HasRoom};

use crate::table::entry::Entry;
use crate::table::hint::{Hint, Hints};
use crate::table::memos::Memos;
use crate::table::recorded::Recorded;
use crate::table::slots::share_copy;
use crate::table::unpublished::Unpublished;
use pq_inputs::{Durability, Inputs};
use pq_rules::{Answer, Memory, Rules, Shared, push, same_answer};

/// The lower of `a` and `b`.
pub(crate) fn lower(a: Durability, b: Durability) -> Durability
    ensures which { (result ≡ a) ⊎ (result ≡ b) }
    ensures left { level result ≤ level a }
    ensures right { level result ≤ level b }
{
    if b < a { b } else { a }
}

impl<R: Rules> Memos<R> {
    /// The durability of `key`, an input or a key with a memo.
    fn durability_of(&self, key: &R::Key, hint: Hint, inputs: &Inputs) -> Durability
        requires { IsKnown (R.machine self.now.rules) (HasIn (memo_at R.Key.cmp self.now.places)) key.now }
        ensures { HasDurability (R.machine self.now.rules) inputs.now.files (HasIn (memo_at R.Key.cmp self.now.places)) key.now result }
    {
        match self.rules.file(key) {
            Some(name) => inputs.change_of(name, hint.file_number()).durability,
            None => match self.entry(key, hint) {
                Some(entry) => entry.durability(),
                None => unreachable!(),
            },
        }
    }

    /// The least durability of `reads`.
    pub(crate) fn least_of(&self, reads: &[Recorded<R::Key>], inputs: &Inputs) -> Durability
        requires { Each (IsKnown (R.machine self.now.rules) (HasIn (memo_at R.Key.cmp self.now.places))) reads.now }
        ensures { IsLeastRead (R.machine self.now.rules) inputs.now.files (HasIn (memo_at R.Key.cmp self.now.places)) (λ q. In q reads.now) result }
    {
        let mut least = Durability::High;
        for i in 0..reads.len() {
            let read = &reads[i];
            least = lower(least, self.durability_of(read.key(), read.hint(), inputs));
        }
        least
    }

    /// The durability that the valid memo `entry` has now: its own where durability confirms it,
    /// and else the least of its reads'.
    fn durability_now(&self, entry: &Entry<R::Key, R::Value>, inputs: &Inputs) -> Durability
        requires { Each (IsKnown (R.machine self.now.rules) (HasIn (memo_at R.Key.cmp self.now.places))) entry.now.reads }
        ensures { ((Lasts inputs.now.history entry.now) × (result ≡ entry.now.durability))
            ⊎ ((HasLapsed inputs.now.history entry.now)
            × IsLeastRead (R.machine self.now.rules) inputs.now.files (HasIn (memo_at R.Key.cmp self.now.places)) (λ q. In q entry.now.reads) result) }
    {
        if self.lasts(entry, inputs) {
            return entry.durability();
        }
        self.least_of(entry.reads(), inputs)
    }

    /// Marks the memo of `key`, which is `Green`, as verified now. Its durability becomes the least
    /// of the inputs below it now. It takes no memory.
    pub fn mark_verified(&mut self, key: &R::Key, inputs: &Inputs)
        // `KeptOver`: The table keeps the invariant over the history of the inputs.
        requires kept { KeptOver R.Key.cmp (R.machine self.old.rules) inputs.now self.old.places }
        // `IsGreen`: The memo of the key was not verified now, and is valid by durability or by its
        // reads.
        requires green { IsGreen (R.machine self.old.rules) inputs.now.history inputs.now.revision (HasIn (memo_at R.Key.cmp self.old.places)) key.now }
        // The rule set stays.
        ensures rules { self.new.rules ≡ self.old.rules }
        // `kept`, `marked`: The memo is verified now, with the least durability of the inputs below
        // it. Every other memo is as it was.
        ensures kept { KeptOver R.Key.cmp (R.machine self.old.rules) inputs.now self.new.places }
        ensures marked { IsMarked R.Key.cmp (R.machine self.old.rules) inputs.now self.old.places key.now self.new.places }
    {
        let hint = self.hint_of(key, Hint::Nowhere, inputs);
        self.mark_hinted(key, hint, inputs);
    }

    /// Marks the memo of `key`, which is looked for first at `hint`: see `mark_verified`.
    pub(crate) fn mark_hinted(&mut self, key: &R::Key, hint: Hint, inputs: &Inputs)
        requires kept { KeptOver R.Key.cmp (R.machine self.old.rules) inputs.now self.old.places }
        requires green { IsGreen (R.machine self.old.rules) inputs.now.history inputs.now.revision (HasIn (memo_at R.Key.cmp self.old.places)) key.now }
        ensures rules { self.new.rules ≡ self.old.rules }
        ensures kept { KeptOver R.Key.cmp (R.machine self.old.rules) inputs.now self.new.places }
        ensures marked { IsMarked R.Key.cmp (R.machine self.old.rules) inputs.now self.old.places key.now self.new.places }
    {
        let table = &*self;
        let slot = match table.entries.find(&table.rules, key, hint) {
            Some(slot) => slot,
            None => unreachable!(),
        };
        let durability = match table.entries.entry_at(&table.rules, key, slot) {
            Some(entry) => table.durability_now(entry, inputs),
            None => unreachable!(),
        };
        self.mark_slot(slot, inputs.now().number(), durability);
    }

    /// Sets the verified revision and the durability of the memo in the slot `number`, if it has
    /// one.
    pub(crate) fn mark_slot(&mut self, number: usize, revision: u64, durability: Durability)
        requires { (k : R.Key) × (key_at self.old.places number ≡ Some k) }
        ensures rules { self.new.rules ≡ self.old.rules }
        ensures marked { (k q : R.Key) → key_at self.old.places number ≡ Some k → memo_at R.Key.cmp self.new.places q
            ≡ (if is_eq (R.Key.cmp k q) then option_map (λ (m : Memo R.Key R.Value). remarked m revision durability) (memo_at R.Key.cmp self.old.places k) else memo_at R.Key.cmp self.old.places q) }
    {
        self.entries.mark(&self.rules, number, revision, durability);
    }

    /// The changed revision of `answer` for `key`: that of the memo of `key`, if its answer is
    /// equal, and else `now`.
    pub(crate) fn changed_by(
        &self,
        key: &R::Key,
        hint: Hint,
        answer: &Answer<R::Key, R::Value>,
        now: u64,
    ) -> u64
        ensures { IsDated now (HasIn (memo_at R.Key.cmp self.now.places)) key.now answer.now result }
    {
        match self.entry(key, hint) {
            Some(entry) => {
                if same_answer(&self.rules, entry.answer(), answer) {
                    return entry.changed();
                }
                now
            }
            None => now,
        }
    }

    /// Gives `key` the memo `entry`. If the allocation fails, both come back.
    fn store(
        &mut self,
        key: R::Key,
        hint: Hint,
        entry: Entry<R::Key, R::Value>,
    ) -> Result<(), (R::Key, Entry<R::Key, R::Value>)>
        ensures rules { self.new.rules ≡ self.old.rules }
        ensures put { OnOk result (IsPut R.Key.cmp (memo_at R.Key.cmp self.old.places) key entry (memo_at R.Key.cmp self.new.places)) }
        ensures refused { OnErr result (IsSameTable (memo_at R.Key.cmp self.old.places) (memo_at R.Key.cmp self.new.places)) }
        ensures returned { IfErr result (λ e. (e.0 ≡ key) × (e.1 ≡ entry)) }
    {
        self.entries.store(&self.rules, key, hint, entry)
    }

    /// Publishes `answer` as the answer of `key` now, with the `reads` that its rule made. If the
    /// memo of `key` has an equal answer, its changed revision stays. If an allocation fails, no
    /// key gets another memo, and what was handed in comes back.
    pub fn publish(
        &mut self,
        key: R::Key,
        answer: Shared<Answer<R::Key, R::Value>>,
        reads: Vec<R::Key>,
        inputs: &Inputs,
    ) -> Result<(), Unpublished<R::Key, R::Value>>
        // `KeptOver`: The table keeps the invariant over the history of the inputs.
        requires kept { KeptOver R.Key.cmp (R.machine self.old.rules) inputs.now self.old.places }
        // The key has a rule.
        requires ruled { 0 < (R.machine self.old.rules).level key }
        // `HasReads`: The reads are those of the key's rule at the sources now, in order: to its
        // end in the value, or up to the first key of its level whose answer is the cycle.
        requires reads { HasReads (over R.Key.cmp (R.machine self.old.rules) inputs.now.files) key answer reads.items }
        // Each read is up to date.
        requires up_to_date { Each (IsUpToDate (R.machine self.old.rules) inputs.now.revision (HasIn (memo_at R.Key.cmp self.old.places))) reads.items }
        // Where the answer is a cycle, the key is not on it.
        requires no_ring { (ring : List R.Key) → answer ≡ Cycle ring → In key ring → ⊥ }
        // The rule set stays.
        ensures rules { self.new.rules ≡ self.old.rules }
        // `kept`, `published`: The key has a memo of the answer and the reads, verified now. Its
        // changed revision is the old one if the answer is equal, and else now.
        ensures kept { KeptOver R.Key.cmp (R.machine self.old.rules) inputs.now self.new.places }
        ensures published { OnOk result (IsPublished R.Key.cmp (R.machine self.old.rules) inputs.now self.old.places key answer reads.items self.new.places) }
        // `refused`, `returned`: After an allocation failure no key has another memo, and key,
        // answer and reads come back.
        ensures refused { OnErr result (IsSameTable (memo_at R.Key.cmp self.old.places) (memo_at R.Key.cmp self.new.places)) }
        ensures returned { IfErr result (λ u. (u.key ≡ key) × (u.answer ≡ answer) × (u.reads.items ≡ reads.items)) }
    {
        let hints = Hints::new(self.hint_of(&key, Hint::Nowhere, inputs));
        self.publish_hinted(key, hints, answer, reads, inputs)
    }

    /// The recorded read of `key`, an input or a key without a slot, at `hint`.
    fn recorded_alone(&self, key: &R::Key, hint: Hint) -> Result<Recorded<R::Key>, Memory>
        ensures { IfOk result (λ r. r ≡ key.now) }
    {
        let read = share_copy(self.entries.alloc(), &self.rules, key, hint)?;
        Ok(read)
    }

    /// The recorded read of `key`, which is looked for first at `hint`. It shares the key with its
    /// slot.
    fn recorded(
        &self,
        key: &R::Key,
        hint: Hint,
        inputs: &Inputs,
    ) -> Result<Recorded<R::Key>, Memory>
        ensures { IfOk result (λ r. r ≡ key.now) }
    {
        match self.rules.file(key) {
            Some(name) => match inputs.number_of(name, hint.file_number()) {
                Some(file) => self.recorded_alone(key, Hint::of_file(file)),
                None => self.recorded_alone(key, Hint::Nowhere),
            },
            None => match self.entries.find(&self.rules, key, hint) {
                Some(number) => {
                    let read = self.entries.share_key(&self.rules, key, number)?;
                    Ok(read)
                }
                None => self.recorded_alone(key, Hint::Nowhere),
            },
        }
    }

    /// `reads`, which the rule of the key in the slot at `hints.own` made, as recorded reads. They
    /// are looked for where the reads of its memo are, the first at `hints.first`, or where others
    /// read them in this order.
    pub(crate) fn recorded_reads(
        &self,
        hints: Hints,
        reads: &[R::Key],
        inputs: &Inputs,
    ) -> Result<Vec<Recorded<R::Key>>, Memory>
        ensures { IfOk result (λ v. v.items ≡ reads.now) }
    {
        let mut recorded = Vec::new(self.entries.alloc());
        recorded.reserve_exact(reads.len())?;
        let mut before = Hint::Nowhere;
        for i in 0..reads.len() {
            let hint = if i == 0 && !hints.first.is_nowhere() {
                hints.first
            } else {
                self.entries.read_hint(hints.own, i, before)
            };
            let read = self.recorded(&reads[i], hint, inputs)?;
            before = read.hint();
            push(&mut recorded, read)?;
        }
        Ok(recorded)
    }

    /// Publishes `answer` as that of `key`, which is looked for first at `hints.own`: see `publish`.
    pub(crate) fn publish_hinted(
        &mut self,
        key: R::Key,
        hints: Hints,
        answer: Shared<Answer<R::Key, R::Value>>,
        reads: Vec<R::Key>,
        inputs: &Inputs,
    ) -> Result<(), Unpublished<R::Key, R::Value>>
        requires kept { KeptOver R.Key.cmp (R.machine self.old.rules) inputs.now self.old.places }
        requires ruled { 0 < (R.machine self.old.rules).level key }
        requires reads { HasReads (over R.Key.cmp (R.machine self.old.rules) inputs.now.files) key answer reads.items }
        requires up_to_date { Each (IsUpToDate (R.machine self.old.rules) inputs.now.revision (HasIn (memo_at R.Key.cmp self.old.places))) reads.items }
        requires no_ring { (ring : List R.Key) → answer ≡ Cycle ring → In key ring → ⊥ }
        ensures rules { self.new.rules ≡ self.old.rules }
        ensures kept { KeptOver R.Key.cmp (R.machine self.old.rules) inputs.now self.new.places }
        ensures published { OnOk result (IsPublished R.Key.cmp (R.machine self.old.rules) inputs.now self.old.places key answer reads.items self.new.places) }
        ensures refused { OnErr result (IsSameTable (memo_at R.Key.cmp self.old.places) (memo_at R.Key.cmp self.new.places)) }
        ensures returned { IfErr result (λ u. (u.key ≡ key) × (u.answer ≡ answer) × (u.reads.items ≡ reads.items)) }
    {
        let recorded = match self.recorded_reads(hints, &reads, inputs) {
            Ok(recorded) => recorded,
            Err(_) => return Err(Unpublished { key, answer, reads }),
        };
        let durability = self.least_of(&recorded, inputs);
        let now = inputs.now().number();
        let changed = self.changed_by(&key, hints.own, answer.get(), now);
        let entry = Entry::new(answer, now, changed, recorded, durability, 0);
        match self.store(key, hints.own, entry) {
            Ok(()) => Ok(()),
            Err((key, entry)) => Err(entry.unpublished(key, reads)),
        }
    }

    /// Makes a slot of `key`, if it has none, and returns where it is. The key was read after the
    /// slot at `before`.
    pub(crate) fn make_room(
        &mut self,
        key: &R::Key,
        hint: Hint,
        before: Hint,
    ) -> Result<Hint, Memory>
        ensures rules { self.new.rules ≡ self.old.rules }
        ensures same { IsSameTable (memo_at R.Key.cmp self.old.places) (memo_at R.Key.cmp self.new.places) }
        ensures room { OnOk result (HasRoom R.Key.cmp self.new.places key.now) }
        ensures kept { (q : R.Key) → HasRoom R.Key.cmp self.old.places q → HasRoom R.Key.cmp self.new.places q }
    {
        self.entries.make_room(&self.rules, key, hint, before)
    }

    /// Gives `key`, which has a place, the memo `entry`. It takes no memory.
    pub(crate) fn put(&mut self, key: R::Key, hint: Hint, entry: Entry<R::Key, R::Value>)
        requires room { HasRoom R.Key.cmp self.old.places key }
        ensures rules { self.new.rules ≡ self.old.rules }
        ensures put { IsPut R.Key.cmp (memo_at R.Key.cmp self.old.places) key entry (memo_at R.Key.cmp self.new.places) }
        ensures kept { (q : R.Key) → HasRoom R.Key.cmp self.old.places q → HasRoom R.Key.cmp self.new.places q }
    {
        self.entries.put(&self.rules, &key, hint, entry);
    }
}
