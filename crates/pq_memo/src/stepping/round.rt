//! Frames that wait for each other in a round: their keys are a ring, which is published.
//!
//! A frame that walks takes the reads of its key's memo up to its place; the reads of a frame that
//! waits are those that its rule made. They are copied, so the frames stay as they are if an
//! allocation fails. That takes time and memory linear in the keys and their reads.
ghost use Rattle.std.specs.Prelude.{◌≡◌, ◌++◌, ◌∷◌, [], ◌<◌, List, length, take, slice_get, Some, IfOk, OnOk, OnErr};
ghost use Rattle.pq_inputs.specs.declared.durability.Durability.{Durability};
ghost use Rattle.pq_rules.specs.Relations.{Each};
ghost use Rattle.pq_memo.specs.declared.stepping.frame.Frame.{Frame};
ghost use Rattle.pq_memo.specs.Sound.{Memo};
ghost use Rattle.pq_memo.specs.Table.{memo_at, HasIn, IsSameTable, KeptOver};
ghost use Rattle.pq_memo.specs.Writes.{RingWritten, ring_keys};
ghost use Rattle.pq_memo.specs.Frames.{IsRound, Awaits, front_of, frame_keys, AreMembers, IsMember};

use crate::stepping::frame::{Frame, Stage};
use crate::table::hint::{Hint, hint_at};
use crate::table::member::Member;
use crate::table::memos::Memos;
use crate::table::recorded::Recorded;
use pq_inputs::Inputs;
use pq_rules::{Memory, Rules, push};
use std::alloc::Global;

/// Copies `keys`.
fn copy_all<R: Rules>(alloc: Global, rules: &R, keys: &[R::Key]) -> Result<Vec<R::Key>, Memory>
    ensures { IfOk result (λ v. v.items ≡ keys.now) }
{
    let mut copies = Vec::new(alloc);
    for i in 0..keys.len() {
        let copy = rules.copy_key(alloc, &keys[i])?;
        push(&mut copies, copy)?;
    }
    Ok(copies)
}

/// Copies the keys of `reads`.
fn copy_recorded<R: Rules>(
    alloc: Global,
    rules: &R,
    reads: &[Recorded<R::Key>],
) -> Result<Vec<R::Key>, Memory>
    ensures { IfOk result (λ v. v.items ≡ reads.now) }
{
    let mut copies = Vec::new(alloc);
    for i in 0..reads.len() {
        let copy = rules.copy_key(alloc, reads[i].key())?;
        push(&mut copies, copy)?;
    }
    Ok(copies)
}

impl<R: Rules> Memos<R> {
    /// Copies the reads of the memo of `key` up to `place`, that one included.
    fn walked_reads(
        &self,
        alloc: Global,
        key: &R::Key,
        hint: Hint,
        place: usize,
    ) -> Result<Vec<R::Key>, Memory>
        requires { (memo : Memo R.Key R.Value) × HasIn (memo_at R.Key.cmp self.now.places) key.now memo × (place < length memo.reads) }
        ensures { IfOk result (λ v. (memo : Memo R.Key R.Value) (q : R.Key) → HasIn (memo_at R.Key.cmp self.now.places) key.now memo → slice_get memo.reads place ≡ Some q → v.items ≡ take place memo.reads ++ q ∷ []) }
    {
        match self.entry(key, hint) {
            Some(entry) => {
                let reads = entry.reads();
                let mut copies = copy_recorded(alloc, self.rules(), &reads[..place])?;
                let copy = self.rules().copy_key(alloc, reads[place].key())?;
                push(&mut copies, copy)?;
                Ok(copies)
            }
            None => unreachable!(),
        }
    }

    /// Copies `reads`, and `asked` after them.
    fn waited_reads(
        &self,
        alloc: Global,
        asked: &R::Key,
        reads: &[R::Key],
    ) -> Result<Vec<R::Key>, Memory>
        ensures { IfOk result (λ v. v.items ≡ reads.now ++ asked.now ∷ []) }
    {
        let copy = self.rules().copy_key(alloc, asked)?;
        let mut copies = copy_all(alloc, self.rules(), reads)?;
        push(&mut copies, copy)?;
        Ok(copies)
    }

    /// Copies the reads of `frame`, the one that it waits for included.
    fn frame_reads(
        &self,
        alloc: Global,
        frame: &Frame<R::Key, R::Part>,
        hint: Hint,
        _inputs: &Inputs,
    ) -> Result<Vec<R::Key>, Memory>
        requires { (q : R.Key) × Awaits R.Key.cmp (R.machine self.now.rules) _inputs.now.history _inputs.now.revision (HasIn (memo_at R.Key.cmp self.now.places)) frame.now.key frame.now.stage q }
        ensures { IfOk result (λ v. (q : R.Key) → Awaits R.Key.cmp (R.machine self.now.rules) _inputs.now.history _inputs.now.revision (HasIn (memo_at R.Key.cmp self.now.places)) frame.now.key frame.now.stage q → v.items ≡ front_of (memo_at R.Key.cmp self.now.places) frame.now.key frame.now.stage ++ q ∷ []) }
    {
        match &frame.stage {
            Stage::Walking(place) => self.walked_reads(alloc, &frame.key, hint, *place),
            Stage::Waiting(_, asked, reads) => self.waited_reads(alloc, asked, reads),
        }
    }

    /// Makes the member of a ring for each of `frames`.
    pub(crate) fn members_of(
        &self,
        alloc: Global,
        frames: &[Frame<R::Key, R::Part>],
        hints: &[Hint],
        inputs: &Inputs,
    ) -> Result<Vec<Member<R::Key>>, Memory>
        requires { Each (λ (f : Frame R.Key R.Part). (q : R.Key) × Awaits R.Key.cmp (R.machine self.now.rules) inputs.now.history inputs.now.revision (HasIn (memo_at R.Key.cmp self.now.places)) f.key f.stage q) frames.now }
        ensures { IfOk result (λ v. AreMembers R.Key.cmp (R.machine self.now.rules) inputs.now.history inputs.now.revision (memo_at R.Key.cmp self.now.places) frames.now v.items) }
    {
        let mut members = Vec::new(alloc);
        for i in 0..frames.len() {
            let frame = &frames[i];
            let key = self.rules().copy_key(alloc, &frame.key)?;
            let reads = self.frame_reads(alloc, frame, hint_at(hints, i), inputs)?;
            push(&mut members, Member::new(key, reads))?;
        }
        Ok(members)
    }

    /// Publishes the ring of the keys of `frames`, which wait for each other in a round, the least
    /// key first. If an allocation fails, no key gets another memo.
    pub fn publish_round(
        &mut self,
        alloc: Global,
        frames: &[Frame<R::Key, R::Part>],
        inputs: &Inputs,
    ) -> Result<(), Memory>
        // `KeptOver`: The table keeps the invariant over the history of the inputs.
        requires kept { KeptOver R.Key.cmp (R.machine self.old.rules) inputs.now self.old.places }
        // `IsRound`: At least one frame is handed in. Each waits for the key of the next, and the
        // last for that of the first, which is less than each other key.
        requires round { IsRound R.Key.cmp (R.machine self.old.rules) inputs.now.history inputs.now.revision (memo_at R.Key.cmp self.old.places) frames.now }
        // The rule set stays.
        ensures rules { self.new.rules ≡ self.old.rules }
        // `kept`, `published`, `refused`: As `publish_ring`, from the frames that wait for each
        // other.
        ensures kept { KeptOver R.Key.cmp (R.machine self.old.rules) inputs.now self.new.places }
        ensures published { OnOk result ((members : List (R.Key × List R.Key)) × (durability : Durability) × (ring_keys members ≡ frame_keys frames.now)
            × RingWritten inputs.now.revision (HasIn (memo_at R.Key.cmp self.old.places)) (HasIn (memo_at R.Key.cmp self.new.places)) members durability) }
        ensures refused { OnErr result (IsSameTable (memo_at R.Key.cmp self.old.places) (memo_at R.Key.cmp self.new.places)) }
    {
        self.publish_round_hinted(alloc, frames, &[], inputs)
    }

    /// Publishes the ring of the keys of `frames`, which are looked for first at `hints`: see
    /// `publish_round`.
    pub(crate) fn publish_round_hinted(
        &mut self,
        alloc: Global,
        frames: &[Frame<R::Key, R::Part>],
        hints: &[Hint],
        inputs: &Inputs,
    ) -> Result<(), Memory>
        requires kept { KeptOver R.Key.cmp (R.machine self.old.rules) inputs.now self.old.places }
        requires round { IsRound R.Key.cmp (R.machine self.old.rules) inputs.now.history inputs.now.revision (memo_at R.Key.cmp self.old.places) frames.now }
        ensures rules { self.new.rules ≡ self.old.rules }
        ensures kept { KeptOver R.Key.cmp (R.machine self.old.rules) inputs.now self.new.places }
        ensures published { OnOk result ((members : List (R.Key × List R.Key)) × (durability : Durability) × (ring_keys members ≡ frame_keys frames.now)
            × RingWritten inputs.now.revision (HasIn (memo_at R.Key.cmp self.old.places)) (HasIn (memo_at R.Key.cmp self.new.places)) members durability) }
        ensures refused { OnErr result (IsSameTable (memo_at R.Key.cmp self.old.places) (memo_at R.Key.cmp self.new.places)) }
    {
        let _latest = inputs.now();
        let members = self.members_of(alloc, frames, hints, inputs)?;
        match self.publish_ring_hinted(alloc, members, hints, inputs) {
            Ok(()) => return Ok(()),
            Err(_) => {}
        }
        Err(Memory)
    }

    /// Makes the member of a ring for `frame`, which waits for a key: its key, with its reads and
    /// the one that it waits for.
    pub fn round_member(
        &self,
        alloc: Global,
        frame: &Frame<R::Key, R::Part>,
        inputs: &Inputs,
    ) -> Result<Member<R::Key>, Memory>
        // `Awaits`: The frame waits for a key.
        requires { (q : R.Key) × Awaits R.Key.cmp (R.machine self.now.rules) inputs.now.history inputs.now.revision (HasIn (memo_at R.Key.cmp self.now.places)) frame.now.key frame.now.stage q }
        // The key of a frame that waits for another key, with its reads, made for
        // `publish_members`.
        ensures { IfOk result (IsMember R.Key.cmp (R.machine self.now.rules) inputs.now.history inputs.now.revision (memo_at R.Key.cmp self.now.places) frame.now) }
    {
        let key = self.rules().copy_key(alloc, &frame.key)?;
        let reads = self.frame_reads(alloc, frame, Hint::Nowhere, inputs)?;
        Ok(Member::new(key, reads))
    }

    /// Publishes the ring of `members`, which are those of frames that wait for each other in a
    /// round, the least key first. The frames may be of several stacks. If an allocation fails, no
    /// key gets another memo.
    pub fn publish_members(
        &mut self,
        alloc: Global,
        members: Vec<Member<R::Key>>,
        inputs: &Inputs,
    ) -> Result<(), Memory>
        // `KeptOver`: The table keeps the invariant over the history of the inputs.
        requires kept { KeptOver R.Key.cmp (R.machine self.old.rules) inputs.now self.old.places }
        // `AreMembers`: The members are those of frames, in their order, that meet the condition of
        // `publish_round`.
        requires round { (frames : List (Frame R.Key R.Part)) × IsRound R.Key.cmp (R.machine self.old.rules) inputs.now.history inputs.now.revision (memo_at R.Key.cmp self.old.places) frames
            × AreMembers R.Key.cmp (R.machine self.old.rules) inputs.now.history inputs.now.revision (memo_at R.Key.cmp self.old.places) frames members.items }
        // The rule set stays.
        ensures rules { self.new.rules ≡ self.old.rules }
        // `kept`, `published`, `refused`: As `publish_round`, for frames that several callers keep:
        // the member of each frame is made first, and then all are published.
        ensures kept { KeptOver R.Key.cmp (R.machine self.old.rules) inputs.now self.new.places }
        ensures published { OnOk result ((durability : Durability) × RingWritten inputs.now.revision (HasIn (memo_at R.Key.cmp self.old.places)) (HasIn (memo_at R.Key.cmp self.new.places)) members.items durability) }
        ensures refused { OnErr result (IsSameTable (memo_at R.Key.cmp self.old.places) (memo_at R.Key.cmp self.new.places)) }
    {
        let _latest = inputs.now();
        match self.publish_ring(alloc, members, inputs) {
            Ok(()) => return Ok(()),
            Err(_) => {}
        }
        Err(Memory)
    }
}
