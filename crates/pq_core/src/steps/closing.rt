//! Closing a ring: the frames of a ring of claims wait for each other in a round, in one run or in
//! several. Their keys are published as one ring, and all of them leave.
//!
//! The frame of a key is found through the run that holds the key. A ring costs time and memory linear
//! in its keys and their reads, but for the searches: some for each key, in logarithmic time.
ghost use Rattle.std.specs.Prelude.{◌≡◌, ◌⊎◌, ◌++◌, ◌∷◌, ◌≤◌, ℕ, List, length, take, IfOk, IfSome, IfNone, OnOk, OnErr, Some};
ghost use Rattle.std.specs.Option.{option_map};
ghost use Rattle.pq_inputs.specs.declared.durability.Durability.{Durability};
ghost use Rattle.pq_rules.specs.Relations.{Each, In};
ghost use Rattle.pq_memo.specs.declared.stepping.frame.Frame.{Frame};
ghost use Rattle.pq_memo.specs.Table.{memo_at, HasIn, IsSameTable, KeptOver};
ghost use Rattle.pq_memo.specs.Writes.{RingWritten, ring_keys};
ghost use Rattle.pq_memo.specs.Frames.{AreMembers, Awaits, frame_keys};
ghost use Rattle.pq_claims.specs.Claims.{Differ, Holds};
ghost use Rattle.pq_core.specs.Stores.{run_seen};
ghost use Rattle.pq_core.specs.aux.Rising.{found, IsAbove};
ghost use Rattle.pq_core.specs.aux.Runs.{AreClaimed, ClosesRing, HoldsBelow, Renewed, RunView, RunsKept};
ghost use Rattle.pq_core.specs.declared.runs.frames.Top.TheVariants.{At};
ghost use Rattle.pq_memo.specs.Look.{IsUpToDate};
ghost use Rattle.pq_core.specs.aux.Begun.{IsBegunIn};
ghost use Rattle.pq_core.specs.aux.Rings.{HasFrame, IsFrameOf, KeyLeaves, LeavesRun};

use crate::runs::frames::{Frames, Top};
use crate::runs::run::Run;
use crate::store::rising::Rising;
use crate::values::fault::Memory;
use pq_claims::{Claims, RunId, claims_are_sound};
use pq_inputs::Inputs;
use pq_memo::{Frame, Member, Memos};
use pq_rules::{Rules, is_same_key, push};
use std::alloc::Global;

/// The frame of `key` in `frames`.
fn frame_in<'a, R: Rules>(
    rules: &R,
    frames: &'a Frames<R>,
    key: &R::Key,
) -> Option<&'a Frame<R::Key, R::Part>>
    ensures found { IfSome result (λ f. (f.now.key ≡ key.now) × IsFrameOf frames.now.stack frames.now.top f.now) }
    ensures none { IfNone result ((f : Frame R.Key R.Part) → IsFrameOf frames.now.stack frames.now.top f → f.key ≡ key.now → ⊥) }
{
    match &frames.top {
        Top::At(frame) => {
            if is_same_key(rules, &frame.key, key) {
                return Some(frame);
            }
        }
        _ => {}
    }
    match frames.stack.place_of(rules, key) {
        Some(place) => Some(&frames.stack.frames()[place]),
        None => None,
    }
}

/// The frame of `key`, in the run that holds it.
fn frame_of<'a, R: Rules>(
    rules: &R,
    claims: &Claims<R>,
    runs: &'a Rising<Run<R>>,
    key: &R::Key,
) -> Option<&'a Frame<R::Key, R::Part>>
    requires claimed { AreClaimed claims.now runs.now.items }
    ensures found { IfSome result (λ f. (f.now.key ≡ key.now) × HasFrame runs.now.items f.now) }
    ensures none { IfNone result ((f : Frame R.Key R.Part) → HasFrame runs.now.items f → f.key ≡ key.now → ⊥) }
{
    claims_are_sound(claims);
    match claims.holder(key) {
        Some(run) => match runs.get(run.number()) {
            Some(run) => frame_in(rules, &run.frames, key),
            None => None,
        },
        None => None,
    }
}

/// The members of `ring`: each of its keys with the reads of its frame. The frames, in the runs that
/// hold its keys, wait for each other in a round.
fn ring_members<R: Rules>(
    alloc: Global,
    memos: &Memos<R>,
    claims: &Claims<R>,
    runs: &Rising<Run<R>>,
    ring: &[R::Key],
    inputs: &Inputs,
) -> Result<Vec<Member<R::Key>>, Memory>
    requires claimed { AreClaimed claims.now runs.now.items }
    requires waits { (fs : List (Frame R.Key R.Part)) × (frame_keys fs ≡ ring.now) × Each (HasFrame runs.now.items) fs
        × Each (λ (f : Frame R.Key R.Part). (q : R.Key) × Awaits R.Key.cmp (R.machine memos.now.rules) inputs.now.history inputs.now.revision (HasIn (memo_at R.Key.cmp memos.now.places)) f.key f.stage q) fs }
    ensures { IfOk result (λ v. (fs : List (Frame R.Key R.Part)) → frame_keys fs ≡ ring.now → Each (HasFrame runs.now.items) fs
        → AreMembers R.Key.cmp (R.machine memos.now.rules) inputs.now.history inputs.now.revision (memo_at R.Key.cmp memos.now.places) fs v.items) }
{
    claims_are_sound(claims);
    let mut members = Vec::new(alloc);
    'keys: for i in 0..ring.len() {
        match frame_of(memos.rules(), claims, runs, &ring[i]) {
            Some(frame) => {
                let member = memos.round_member(alloc, frame, inputs)?;
                push(&mut members, member)?;
            }
            None => unreachable!(),
        }
    }
    Ok(members)
}

/// Publishes `ring`, the ring that closes if `_id` waits for the key that its top awaits. If an
/// allocation fails, no key gets another memo.
fn publish_ring<R: Rules>(
    alloc: Global,
    memos: &mut Memos<R>,
    claims: &Claims<R>,
    runs: &Rising<Run<R>>,
    inputs: &Inputs,
    _id: RunId,
    ring: &[R::Key],
) -> Result<(), Memory>
    requires kept { KeptOver R.Key.cmp (R.machine memos.old.rules) inputs.now memos.old.places }
    requires runs_kept { RunsKept R.Key.cmp (R.machine memos.old.rules) inputs.now (memo_at R.Key.cmp memos.old.places) claims.now runs.now.items }
    requires within { (r : ℕ) (run : RunView R.Key R.Part) → found runs.now.items r ≡ Some run → run.started ≤ inputs.now.revision }
    requires closes { (run : RunView R.Key R.Part) × (found runs.now.items _id ≡ Some run) × (run.started ≡ inputs.now.revision)
        × ClosesRing R.Key.cmp (R.machine memos.old.rules) inputs.now (memo_at R.Key.cmp memos.old.places) claims.now _id run.top ring.now }
    ensures rules { memos.new.rules ≡ memos.old.rules }
    ensures kept { KeptOver R.Key.cmp (R.machine memos.old.rules) inputs.now memos.new.places }
    ensures published { OnOk result ((members : List (R.Key × List R.Key)) × (durability : Durability) × (ring_keys members ≡ ring.now)
        × RingWritten inputs.now.revision (HasIn (memo_at R.Key.cmp memos.old.places)) (HasIn (memo_at R.Key.cmp memos.new.places)) members durability) }
    ensures refused { OnErr result (IsSameTable (memo_at R.Key.cmp memos.old.places) (memo_at R.Key.cmp memos.new.places)) }
{
    claims_are_sound(claims);
    let members = ring_members(alloc, memos, claims, runs, ring, inputs)?;
    match memos.publish_members(alloc, members, inputs) {
        Ok(()) => Ok(()),
        Err(_) => Err(Memory),
    }
}

impl<R: Rules> Frames<R> {
    /// How many frames are below the frame of `key`. If `key` is on top, they are all below it.
    fn count_below(&self, rules: &R, key: &R::Key) -> usize
        requires differ { Differ (frame_keys self.now.stack) }
        ensures within { result ≤ length self.now.stack }
        ensures apart { In key.now (frame_keys (take result self.now.stack)) → ⊥ }
        ensures split { ((more : List R.Key) × (frame_keys self.now.stack ≡ frame_keys (take result self.now.stack) ++ key.now ∷ more)) ⊎ ((result ≡ length self.now.stack) × (In key.now (frame_keys self.now.stack) → ⊥)) }
    {
        match self.stack.place_of(rules, key) {
            Some(place) => place,
            None => self.stack.frames().len(),
        }
    }

    /// Takes the frame of `key` and those above it off, and releases their keys. The run, whose number
    /// is `id`, waits for no key then. It takes no memory.
    fn leave_ring(&mut self, rules: &R, id: RunId, claims: &mut Claims<R>, key: &R::Key)
        requires claimed { HoldsBelow claims.old id self.old.stack }
        ensures left { LeavesRun id key.now self.old.stack self.new.stack self.new.top claims.old claims.new }
    {
        claims_are_sound(claims);
        let left = self.count_below(rules, key);
        let above = self.stack.frames().len() - left;
        self.leave(id, claims);
        'frames: for _step in 0..above {
            self.leave(id, claims);
        }
        claims.end_wait(id);
    }
}

/// Takes the frame of `key`, and those above it in the run that holds `key`, off, and releases their
/// keys. That run waits for no key then. It takes no memory.
fn leave_key<R: Rules>(rules: &R, claims: &mut Claims<R>, runs: &mut Rising<Run<R>>, key: &R::Key)
    requires claimed { AreClaimed claims.old runs.old.items }
    requires tops { (r : ℕ) (run : RunView R.Key R.Part) → found runs.old.items r ≡ Some run → Holds claims.old r key.now → (f : Frame R.Key R.Part) × (run.top ≡ At f) }
    ensures left { KeyLeaves key.now claims.old claims.new runs.old.items runs.new.items }
    ensures above { (m : ℕ) → IsAbove m runs.old.items → IsAbove m runs.new.items }
    ensures room { runs.old.room ≤ runs.new.room }
{
    claims_are_sound(claims);
    match claims.holder(key) {
        Some(holder) => match runs.take(holder.number()) {
            Some(taken) => {
                let mut run = taken;
                run.frames.leave_ring(rules, holder, claims, key);
                runs.put_back(holder.number(), run);
            }
            None => unreachable!(),
        },
        None => {}
    }
}

/// Publishes `ring`, the ring that closes if the run `id` waits for the key that its top awaits. The
/// frames of its keys leave, and no run holds any of them then. If an allocation fails, all is as it
/// was.
pub(crate) fn close_ring<R: Rules>(
    alloc: Global,
    memos: &mut Memos<R>,
    claims: &mut Claims<R>,
    runs: &mut Rising<Run<R>>,
    inputs: &Inputs,
    id: RunId,
    ring: &[R::Key],
) -> Result<(), Memory>
    requires kept { KeptOver R.Key.cmp (R.machine memos.old.rules) inputs.now memos.old.places }
    requires runs_kept { RunsKept R.Key.cmp (R.machine memos.old.rules) inputs.now (memo_at R.Key.cmp memos.old.places) claims.old runs.old.items }
    requires within { (r : ℕ) (run : RunView R.Key R.Part) → found runs.old.items r ≡ Some run → run.started ≤ inputs.now.revision }
    requires closes { (run : RunView R.Key R.Part) × (found runs.old.items id ≡ Some run) × (run.started ≡ inputs.now.revision)
        × ClosesRing R.Key.cmp (R.machine memos.old.rules) inputs.now (memo_at R.Key.cmp memos.old.places) claims.old id run.top ring.now }
    ensures rules { memos.new.rules ≡ memos.old.rules }
    ensures kept { KeptOver R.Key.cmp (R.machine memos.old.rules) inputs.now memos.new.places }
    ensures renewed { Renewed (R.machine memos.old.rules) inputs.now.revision (memo_at R.Key.cmp memos.old.places) (memo_at R.Key.cmp memos.new.places) }
    ensures runs_kept { RunsKept R.Key.cmp (R.machine memos.old.rules) inputs.now (memo_at R.Key.cmp memos.new.places) claims.new runs.new.items }
    ensures seen { (r : ℕ) → option_map run_seen (found runs.new.items r) ≡ option_map run_seen (found runs.old.items r) }
    ensures above { (m : ℕ) → IsAbove m runs.old.items → IsAbove m runs.new.items }
    ensures room { runs.old.room ≤ runs.new.room }
    ensures begun { (k : R.Key) → IsBegunIn inputs.now.revision runs.old.items k
        → IsBegunIn inputs.now.revision runs.new.items k ⊎ IsUpToDate (R.machine memos.old.rules) inputs.now.revision (HasIn (memo_at R.Key.cmp memos.new.places)) k }
{
    claims_are_sound(claims);
    publish_ring(alloc, memos, claims, runs, inputs, id, ring)?;
    'keys: for i in 0..ring.len() {
        leave_key(memos.rules(), claims, runs, &ring[i]);
    }
    Ok(())
}
