//! Publishing a ring: the memos of all its keys, written together.
//!
//! All that can fail comes first: the ring's answer, and for each key a place in the table and a
//! copy of the pointer to that answer. The members are then moved into their places, which takes no
//! memory. It takes a search at most for each key and each read, and none where their hints are
//! right, and one comparison of the ring with each old answer; neighbours whose old answer is one
//! ring share a comparison.
ghost use Rattle.std.specs.Prelude.{◌≡◌, ◌<◌, ◌++◌, ◌∷◌, [], List, length, IfOk, IfErr, OnOk, OnErr};
ghost use Rattle.pq_inputs.specs.declared.durability.Durability.{Durability};
ghost use Rattle.pq_inputs.specs.Sources.{Table};
ghost use Rattle.pq_rules.specs.declared.turn.Answer.TheVariants.{Cycle};
ghost use Rattle.pq_rules.specs.Turns.{over};
ghost use Rattle.pq_rules.specs.Relations.{Each, In};
ghost use Rattle.pq_memo.specs.Sound.{HasReads};
ghost use Rattle.pq_memo.specs.Look.{IsUpToDate};
ghost use Rattle.pq_memo.specs.Table.{memo_at, HasIn, IsSameTable, KeptOver};
ghost use Rattle.pq_memo.specs.Writes.{RingWritten, fronts, ring_keys};
ghost use Rattle.pq_memo.specs.aux.Durabilities.{IsKnown, IsLeastRead, IsFrontRead};
ghost use Rattle.pq_memo.specs.aux.Written.{ArePrepared, HasRoom, AllHaveRoom, memos_of, put_back};

use crate::table::entry::Entry;
use crate::table::hint::{Hint, Hints, hint_at};
use crate::table::member::Member;
use crate::table::memos::Memos;
use crate::table::recorded::Recorded;
use crate::table::unpublished::UnpublishedRing;
use crate::writing::placed::Placed;
use crate::writing::writes::lower;
use pq_inputs::{Durability, Inputs};
use pq_rules::{Answer, Memory, Ring, Rules, Shared, push};
use std::alloc::Global;

/// Copies the keys of `members`.
fn copy_keys<R: Rules>(
    alloc: Global,
    rules: &R,
    members: &[Placed<R::Key>],
) -> Result<Vec<R::Key>, Memory>
    ensures { IfOk result (λ v. v.items ≡ ring_keys members.now) }
{
    let mut keys = Vec::new(alloc);
    for i in 0..members.len() {
        let copy = rules.copy_key(alloc, members[i].key())?;
        push(&mut keys, copy)?;
    }
    Ok(keys)
}

impl<R: Rules> Memos<R> {
    /// The least durability of `reads`, without the last, which leads to the next key of a ring.
    fn front_durability(&self, reads: &[Recorded<R::Key>], inputs: &Inputs) -> Durability
        requires { Each (IsKnown (R.machine self.now.rules) (HasIn (memo_at R.Key.cmp self.now.places))) (fronts reads.now) }
        ensures { IsLeastRead (R.machine self.now.rules) inputs.now.files (HasIn (memo_at R.Key.cmp self.now.places)) (λ q. In q (fronts reads.now)) result }
    {
        if reads.is_empty() {
            return Durability::High;
        }
        self.least_of(&reads[..reads.len() - 1], inputs)
    }

    /// The least durability of the reads of `members`, without the last of each.
    fn ring_durability(&self, members: &[Placed<R::Key>], inputs: &Inputs) -> Durability
        requires { Each (λ (e : R.Key × List R.Key). Each (IsKnown (R.machine self.now.rules) (HasIn (memo_at R.Key.cmp self.now.places))) (fronts e.1)) members.now }
        ensures { IsLeastRead (R.machine self.now.rules) inputs.now.files (HasIn (memo_at R.Key.cmp self.now.places)) (IsFrontRead members.now) result }
    {
        let mut least = Durability::High;
        for i in 0..members.len() {
            least = lower(least, self.front_durability(members[i].reads(), inputs));
        }
        least
    }

    /// `members`, with their reads as the table keeps them. The keys are looked for first at
    /// `hints`.
    fn placed_of(
        &self,
        alloc: Global,
        members: &[Member<R::Key>],
        hints: &[Hint],
        inputs: &Inputs,
    ) -> Result<Vec<Placed<R::Key>>, Memory>
        ensures { IfOk result (λ v. v.items ≡ members.now) }
    {
        let mut placed = Vec::new(alloc);
        for i in 0..members.len() {
            let key = self.rules().copy_key(alloc, members[i].key())?;
            let hint = self.hint_of(&key, hint_at(hints, i), inputs);
            let reads = self.recorded_reads(Hints::new(hint), members[i].reads(), inputs)?;
            push(&mut placed, Placed::new(key, hint, reads))?;
        }
        Ok(placed)
    }

    /// Makes places for the keys of `members`, and prepares their memos, which have `answer`: a copy
    /// of it for each, and the changed revision.
    fn prepare_all(
        &mut self,
        alloc: Global,
        members: &[Placed<R::Key>],
        answer: &Shared<Answer<R::Key, R::Value>>,
        now: u64,
    ) -> Result<Vec<(Shared<Answer<R::Key, R::Value>>, u64)>, Memory>
        requires kept { (inputs : Table) × KeptOver R.Key.cmp (R.machine self.old.rules) inputs self.old.places }
        requires some { 0 < length members.now }
        ensures rules { self.new.rules ≡ self.old.rules }
        ensures same { IsSameTable (memo_at R.Key.cmp self.old.places) (memo_at R.Key.cmp self.new.places) }
        ensures room { OnOk result (AllHaveRoom R.Key.cmp self.new.places members.now) }
        ensures prepared { IfOk result (λ v. ArePrepared now (HasIn (memo_at R.Key.cmp self.old.places)) answer.now members.now v.items) }
    {
        let mut prepared = Vec::new(alloc);
        let mut previous = members[0].key();
        let mut before = members[0].hint();
        let mut same = self.compared_first(previous, before, answer.get());
        'members: for i in 0..members.len() {
            let key = members[i].key();
            let hint = members[i].hint();
            let (again, changed) = self.compared(
                previous,
                before,
                same,
                key,
                hint,
                answer.get(),
                now,
            );
            self.make_room(key, hint, Hint::Nowhere)?;
            let share = answer.copy()?;
            push(&mut prepared, (share, changed))?;
            previous = key;
            before = hint;
            same = again;
        }
        Ok(prepared)
    }

    /// Does what can fail of publishing the ring `members`.
    fn prepare_ring(
        &mut self,
        alloc: Global,
        members: &[Placed<R::Key>],
        now: u64,
    ) -> Result<Vec<(Shared<Answer<R::Key, R::Value>>, u64)>, Memory>
        requires kept { (inputs : Table) × KeptOver R.Key.cmp (R.machine self.old.rules) inputs self.old.places }
        requires some { 0 < length members.now }
        ensures rules { self.new.rules ≡ self.old.rules }
        ensures same { IsSameTable (memo_at R.Key.cmp self.old.places) (memo_at R.Key.cmp self.new.places) }
        ensures room { OnOk result (AllHaveRoom R.Key.cmp self.new.places members.now) }
        ensures prepared { IfOk result (λ v. ArePrepared now (HasIn (memo_at R.Key.cmp self.old.places)) (Cycle (ring_keys members.now)) members.now v.items) }
    {
        let keys = copy_keys(alloc, self.rules(), members)?;
        let ring = Ring::new(alloc, keys)?;
        let answer = Shared::new(alloc, Answer::Cycle(ring))?;
        let prepared = self.prepare_all(alloc, members, &answer, now)?;
        Ok(prepared)
    }

    /// Gives the keys of `members`, which have places, the memos that were prepared. It takes no
    /// memory.
    fn put_all(
        &mut self,
        members: Vec<Placed<R::Key>>,
        prepared: Vec<(Shared<Answer<R::Key, R::Value>>, u64)>,
        durability: Durability,
        now: u64,
    )
        requires room { AllHaveRoom R.Key.cmp self.old.places members.items }
        requires even { length members.items ≡ length prepared.items }
        ensures rules { self.new.rules ≡ self.old.rules }
        ensures put { (q : R.Key) → memo_at R.Key.cmp self.new.places q ≡ put_back R.Key.cmp (memos_of now durability members.items prepared.items) (memo_at R.Key.cmp self.old.places) q }
    {
        let mut members = members;
        let mut prepared = prepared;
        'members: while let Some(member) = members.pop() {
            let (answer, changed) = match prepared.pop() {
                Some(next) => next,
                None => unreachable!(),
            };
            let hint = member.hint();
            let (key, reads) = member.parts();
            let place = members.len();
            let entry = Entry::new(answer, now, changed, reads, durability, place);
            self.put(key, hint, entry);
        }
    }

    /// Publishes the ring that is the answer of each key of `members`, which are in the ring's
    /// order from the least key on, each with its reads. The last read of each leads to the next
    /// key and need not be up to date. If an allocation fails, no key gets another memo, and
    /// `members` comes back.
    pub fn publish_ring(
        &mut self,
        alloc: Global,
        members: Vec<Member<R::Key>>,
        inputs: &Inputs,
    ) -> Result<(), UnpublishedRing<R::Key>>
        // `KeptOver`: The table keeps the invariant over the history of the inputs.
        requires kept { KeptOver R.Key.cmp (R.machine self.old.rules) inputs.now self.old.places }
        // At least one member is handed in.
        requires some { 0 < length members.items }
        // The key of each member has a rule.
        requires ruled { Each (λ (e : R.Key × List R.Key). 0 < (R.machine self.old.rules).level e.0) members.items }
        // `HasReads`: Each member has the reads of its key's rule at the sources now, in order, up
        // to the first key of its level whose answer is the cycle of the members' keys.
        requires reads { Each (λ (e : R.Key × List R.Key). HasReads (over R.Key.cmp (R.machine self.old.rules) inputs.now.files) e.0 (Cycle (ring_keys members.items)) e.1) members.items }
        // The reads of each member but the last are up to date.
        requires up_to_date { Each (λ (e : R.Key × List R.Key). Each (IsUpToDate (R.machine self.old.rules) inputs.now.revision (HasIn (memo_at R.Key.cmp self.old.places))) (fronts e.1)) members.items }
        // The rule set stays.
        ensures rules { self.new.rules ≡ self.old.rules }
        // `kept`, `published`, `refused`: As `publish`, for all keys of a ring at once, from their
        // reads.
        ensures kept { KeptOver R.Key.cmp (R.machine self.old.rules) inputs.now self.new.places }
        ensures published { OnOk result ((durability : Durability) × RingWritten inputs.now.revision (HasIn (memo_at R.Key.cmp self.old.places)) (HasIn (memo_at R.Key.cmp self.new.places)) members.items durability) }
        ensures refused { OnErr result (IsSameTable (memo_at R.Key.cmp self.old.places) (memo_at R.Key.cmp self.new.places)) }
        // After an allocation failure the members come back.
        ensures returned { IfErr result (λ u. u.members.items ≡ members.items) }
    {
        self.publish_ring_hinted(alloc, members, &[], inputs)
    }

    /// Publishes the ring `members`, whose keys are looked for first at `hints`: see
    /// `publish_ring`.
    pub(crate) fn publish_ring_hinted(
        &mut self,
        alloc: Global,
        members: Vec<Member<R::Key>>,
        hints: &[Hint],
        inputs: &Inputs,
    ) -> Result<(), UnpublishedRing<R::Key>>
        requires kept { KeptOver R.Key.cmp (R.machine self.old.rules) inputs.now self.old.places }
        requires some { 0 < length members.items }
        requires ruled { Each (λ (e : R.Key × List R.Key). 0 < (R.machine self.old.rules).level e.0) members.items }
        requires reads { Each (λ (e : R.Key × List R.Key). HasReads (over R.Key.cmp (R.machine self.old.rules) inputs.now.files) e.0 (Cycle (ring_keys members.items)) e.1) members.items }
        requires up_to_date { Each (λ (e : R.Key × List R.Key). Each (IsUpToDate (R.machine self.old.rules) inputs.now.revision (HasIn (memo_at R.Key.cmp self.old.places))) (fronts e.1)) members.items }
        ensures rules { self.new.rules ≡ self.old.rules }
        ensures kept { KeptOver R.Key.cmp (R.machine self.old.rules) inputs.now self.new.places }
        ensures published { OnOk result ((durability : Durability) × RingWritten inputs.now.revision (HasIn (memo_at R.Key.cmp self.old.places)) (HasIn (memo_at R.Key.cmp self.new.places)) members.items durability) }
        ensures refused { OnErr result (IsSameTable (memo_at R.Key.cmp self.old.places) (memo_at R.Key.cmp self.new.places)) }
        ensures returned { IfErr result (λ u. u.members.items ≡ members.items) }
    {
        let now = inputs.now().number();
        let placed = match self.placed_of(alloc, &members, hints, inputs) {
            Ok(placed) => placed,
            Err(_) => return Err(UnpublishedRing { members }),
        };
        let durability = self.ring_durability(&placed, inputs);
        match self.prepare_ring(alloc, &placed, now) {
            Ok(prepared) => {
                self.put_all(placed, prepared, durability, now);
                Ok(())
            }
            Err(_) => Err(UnpublishedRing { members }),
        }
    }
}
