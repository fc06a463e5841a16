//! How a run enters the key that a frame waits for, and how frames leave.
//!
//! A key that another run holds is not entered: the run waits for it, and is blocked. A key whose wait
//! would close a ring is not entered either: a key of the run's own stack, or one that is held by a run
//! that waits, in the end, for this one.
ghost use Rattle.std.specs.Prelude.{◌≡◌, IfOk, Some, None};
ghost use Rattle.pq_memo.specs.Look.{IsUpToDate};
ghost use Rattle.pq_memo.specs.Table.{memo_at, HasIn};
ghost use Rattle.pq_memo.specs.Frames.{Awaits, frame_keys};
ghost use Rattle.pq_claims.specs.Claims.{hold_of};
ghost use Rattle.pq_core.specs.declared.runs.frames.Top.TheVariants.{At};
ghost use Rattle.pq_core.specs.aux.Runs.{Enters, HasLooked, HoldsBelow, IsLowered, OthersHold, out_at, run_keys};
ghost use Rattle.pq_core.specs.aux.RunSteps.{RunReady, RunStepped, step_state};

use crate::runs::frames::{Frames, Look, Looked, Top};
use crate::values::fault::Memory;
use pq_claims::{Claim, Claims, RunId};
use pq_inputs::Inputs;
use pq_memo::{Frame, Memos, Stage};
use pq_rules::Rules;
use std::alloc::Global;

impl<R: Rules> Frames<R> {
    /// The top has left: makes the last frame below it the top, and releases its key.
    pub(crate) fn leave(&mut self, id: RunId, claims: &mut Claims<R>)
        requires claimed { HoldsBelow claims.old id self.old.stack }
        ensures lowered { IsLowered self.old.stack self.new.stack self.new.top }
        ensures claimed { (hold_of claims.new id).keys ≡ run_keys self.new.stack self.new.top }
        ensures wait { (k : R.Key) → (hold_of claims.new id).wait ≡ Some k → (hold_of claims.old id).wait ≡ Some k }
        ensures others { OthersHold id claims.old claims.new }
    {
        self.lower();
        claims.release(id);
    }

    /// Claims `next`, and makes it the top over the frames of the stack. If another run holds it, or a
    /// wait for it would close a ring, or an allocation fails, the last frame of the stack is the top
    /// again.
    fn enter(
        &mut self,
        alloc: Global,
        id: RunId,
        claims: &mut Claims<R>,
        next: R::Key,
    ) -> Result<Look<R>, Memory>
        requires claimed { (hold_of claims.old id).keys ≡ frame_keys self.old.stack }
        requires awake { (hold_of claims.old id).wait ≡ None }
        ensures entered { Enters R.Key.cmp claims.new id next result self.old.stack self.new.stack self.new.top }
        ensures claimed { (hold_of claims.new id).keys ≡ run_keys self.new.stack self.new.top }
        ensures others { OthersHold id claims.old claims.new }
    {
        match claims.claim(alloc, id, &next) {
            Ok(claim) => match claim {
                Claim::Got => {
                    let stage = Stage::Walking(0);
                    self.top = Top::At(Frame { key: next, stage });
                    Ok(Looked::Stepped)
                }
                Claim::HeldBy(other) => {
                    self.lower();
                    Ok(Looked::Blocked(other))
                }
                Claim::Ring(ring) => {
                    self.lower();
                    Ok(Looked::Ring(ring))
                }
            },
            Err(_) => {
                self.lower();
                Err(Memory)
            }
        }
    }

    /// The frame `frame`, which was the top, waits for `next`, which is not up to date: enters that, if
    /// it can. Else the frame is the top again.
    pub(crate) fn wait(
        &mut self,
        alloc: Global,
        id: RunId,
        memos: &Memos<R>,
        claims: &mut Claims<R>,
        inputs: &Inputs,
        frame: Frame<R::Key, R::Part>,
        next: R::Key,
    ) -> Result<Look<R>, Memory>
        requires ready { RunReady R.Key.cmp (R.machine memos.now.rules) inputs.now id (step_state memos.now claims.old self.old.stack (At frame)) }
        requires awaits { Awaits R.Key.cmp (R.machine memos.now.rules) inputs.now.history inputs.now.revision (HasIn (memo_at R.Key.cmp memos.now.places)) frame.key frame.stage next }
        requires needed { IsUpToDate (R.machine memos.now.rules) inputs.now.revision (HasIn (memo_at R.Key.cmp memos.now.places)) next → ⊥ }
        requires awake { (hold_of claims.old id).wait ≡ None }
        ensures stepped { RunStepped R.Key.cmp R.machine inputs.now id (step_state memos.now claims.old self.old.stack (At frame)) (step_state memos.now claims.new self.new.stack self.new.top) }
        ensures looked { IfOk result (λ l. HasLooked R.Key.cmp R.machine inputs.now memos.now claims.new id self.new.top l) }
        ensures idle { out_at self.new.top ≡ None }
    {
        match self.stack.put(alloc, memos.rules(), frame) {
            Ok(()) => self.enter(alloc, id, claims, next),
            Err(frame) => {
                self.top = Top::At(frame);
                Err(Memory)
            }
        }
    }
}
