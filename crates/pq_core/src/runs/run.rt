//! A run: the request that it is for, and the frames by which it brings the request's key up to
//! date.
//!
//! A run takes steps, and other runs take steps on the same table in between. Its invariant
//! (`specs/aux/Runs`) holds while its start is the revision now. It outlasts each write of a key
//! that was not up to date, so every write is of such a key.
ghost use Rattle.std.specs.Prelude.{◌≡◌, ◌↔◌, [], length, None, Some, IsTrue, IsSome, IfOk, IfErr, IfSome, IfNone, OnOk, OnErr};
ghost use Rattle.pq_memo.specs.Table.{memo_at, HasIn, KeptOver};
ghost use Rattle.pq_core.specs.Kept.{IsDemand};
ghost use Rattle.pq_core.specs.Moves.{out_of};
ghost use Rattle.pq_core.specs.aux.Runs.{HasLooked, IsAnswer, IsSameRun, IsStale, out_at};
ghost use Rattle.pq_core.specs.aux.Begun.{LooksFirst};
ghost use Rattle.pq_core.specs.aux.RunSteps.{RunReady, RunStepped, step_state};
ghost use Rattle.pq_core.specs.declared.runs.frames.Top.TheVariants.{Empty};
ghost use Rattle.pq_core.specs.declared.values.request.Want.TheVariants.{Demand};

use crate::runs::frames::{Frames, Look, Looked, Pending, Top};
use crate::runs::job::Made;
use crate::values::fault::Memory;
use crate::values::request::{Request, Want};
use pq_claims::{Claim, Claims, RunId};
use pq_inputs::{Inputs, Revision};
use pq_memo::{Frame, Memos, Stage};
use pq_rules::{Answer, Rules, Shared, is_same_key};
use std::alloc::Global;
use std::marker::Model;
use std::mem::replace;

/// A request, and how far its key is.
#[derive(Drop)]
pub(crate) struct Run<R: Rules> {
    pub(crate) client: u64,
    pub(crate) number: u64,
    pub(crate) request: Request<R::Key>,
    pub(crate) started: Revision,
    pub(crate) frames: Frames<R>,
}

impl<R: Rules> Model for Run<R> {
    ghost use Rattle.pq_core.specs.aux.Runs.{RunView};

    ghost Value = { RunView R.Key R.Part };

    ghost view = { λ r. record { client = r.client; number = r.number; request = r.request; started = r.started; stack = r.frames.stack; top = r.frames.top } };
}

/// Whether `done` is of the key of `pending`, after as many reads.
fn is_work_of<R: Rules>(rules: &R, pending: &Pending<R::Key>, done: &Made<R>) -> bool
    ensures { IsTrue result ↔ ((pending.now.key ≡ done.now.key) × (length pending.now.reads.items ≡ length done.now.front)) }
{
    let count = pending.reads.as_slice().len();
    is_same_key(rules, &pending.key, &done.key) && count == done.reads
}

impl<R: Rules> Run<R> {
    /// The run for `request`, the request `number` of `client`, at the revision `started`. It takes
    /// no memory.
    pub(crate) fn new(
        alloc: Global,
        client: u64,
        number: u64,
        request: Request<R::Key>,
        started: Revision,
    ) -> Self
        ensures { result ≡ record { client = client; number = number; request = request; started = started; stack = []; top = Empty } }
    {
        Run {
            client,
            number,
            request,
            started,
            frames: Frames::new(alloc),
        }
    }

    /// Whether work is out.
    pub(crate) fn is_out(&self) -> bool
        ensures { IsTrue result ↔ IsSome (out_at self.now.top) }
    {
        match &self.frames.top {
            Top::Away(_) => true,
            _ => false,
        }
    }

    /// Whether `done` is the result of the work of this run, whose number is `id`, that is out.
    pub(crate) fn fits(&self, rules: &R, id: RunId, done: &Made<R>) -> bool
        ensures { IsTrue result ↔ ((done.now.run ≡ id) × (done.now.started ≡ self.now.started) × (out_at self.now.top ≡ Some (out_of done.now))) }
    {
        if done.run != id || done.started != self.started {
            return false;
        }
        match &self.frames.top {
            Top::Away(pending) => is_work_of(rules, pending, done),
            _ => false,
        }
    }

    /// The answer of the request's key at the sources now, if it is up to date.
    fn key_answer(
        &self,
        alloc: Global,
        memos: &Memos<R>,
        inputs: &Inputs,
    ) -> Result<Option<Shared<Answer<R::Key, R::Value>>>, Memory>
        requires kept { KeptOver R.Key.cmp (R.machine memos.now.rules) inputs.now memos.now.places }
        requires demand { IsDemand self.now.request.want }
        ensures answered { IfOk result (λ o. IfSome o (λ a. IsAnswer R.Key.cmp (R.machine memos.now.rules) inputs.now self.now.request a)) }
        ensures stale { IfOk result (λ o. IfNone o (IsStale (R.machine memos.now.rules) inputs.now.revision (HasIn (memo_at R.Key.cmp memos.now.places)) self.now.request)) }
    {
        match &self.request.want {
            Want::Demand(key) => memos.usable_answer(alloc, key, inputs),
            Want::Fixed(_) => unreachable!(),
        }
    }

    /// The answer of the request's key at the sources now, if the run has no frame and the key is up to
    /// date.
    pub(crate) fn answer(
        &self,
        alloc: Global,
        memos: &Memos<R>,
        inputs: &Inputs,
    ) -> Result<Option<Shared<Answer<R::Key, R::Value>>>, Memory>
        requires kept { KeptOver R.Key.cmp (R.machine memos.now.rules) inputs.now memos.now.places }
        requires demand { IsDemand self.now.request.want }
        ensures answered { IfOk result (λ o. IfSome o (λ a. (self.now.top ≡ Empty) × IsAnswer R.Key.cmp (R.machine memos.now.rules) inputs.now self.now.request a)) }
        ensures stale { IfOk result (λ o. IfNone o (self.now.top ≡ Empty → IsStale (R.machine memos.now.rules) inputs.now.revision (HasIn (memo_at R.Key.cmp memos.now.places)) self.now.request)) }
    {
        match &self.frames.top {
            Top::Empty => return self.key_answer(alloc, memos, inputs),
            Top::At(_) => return Ok(None),
            Top::Away(_) => return Ok(None),
        }
    }

    /// A copy of the request's key.
    fn first_key(&self, alloc: Global, rules: &R) -> Result<R::Key, Memory>
        requires demand { IsDemand self.now.request.want }
        ensures { IfOk result (λ k. self.now.request.want ≡ Demand k) }
    {
        match &self.request.want {
            Want::Demand(key) => rules.copy_key(alloc, key),
            Want::Fixed(_) => unreachable!(),
        }
    }

    /// Takes the first step: claims the request's key, which is not up to date, and begins with it.
    fn begin(
        &mut self,
        alloc: Global,
        id: RunId,
        memos: &mut Memos<R>,
        claims: &mut Claims<R>,
        inputs: &Inputs,
    ) -> Result<Look<R>, Memory>
        requires demand { IsDemand self.old.request.want }
        requires empty { (self.old.stack ≡ []) × (self.old.top ≡ Empty) }
        requires stale { IsStale (R.machine memos.old.rules) inputs.now.revision (HasIn (memo_at R.Key.cmp memos.old.places)) self.old.request }
        requires ready { RunReady R.Key.cmp (R.machine memos.old.rules) inputs.now id (step_state memos.old claims.old self.old.stack self.old.top) }
        ensures same { IsSameRun self.old self.new }
        ensures stepped { RunStepped R.Key.cmp R.machine inputs.now id (step_state memos.old claims.old self.old.stack self.old.top) (step_state memos.new claims.new self.new.stack self.new.top) }
        ensures looked { IfOk result (λ l. HasLooked R.Key.cmp R.machine inputs.now memos.old claims.new id self.new.top l) }
        ensures refused { OnErr result (out_at self.new.top ≡ None) }
        ensures first { IfOk result (λ l. LooksFirst self.old.stack self.old.top l) }
    {
        let key = self.first_key(alloc, memos.rules())?;
        match claims.claim(alloc, id, &key)? {
            Claim::Got => {
                let stage = Stage::Walking(0);
                let frame = Frame { key, stage };
                self.frames.advance(alloc, id, memos, claims, inputs, frame)
            }
            Claim::HeldBy(other) => Ok(Looked::Blocked(other)),
            Claim::Ring(_) => unreachable!(),
        }
    }

    /// Takes one step: hands out work, goes on, waits for another run, or finds a ring. If an allocation
    /// fails, no key gets another memo.
    pub(crate) fn look(
        &mut self,
        alloc: Global,
        id: RunId,
        memos: &mut Memos<R>,
        claims: &mut Claims<R>,
        inputs: &Inputs,
    ) -> Result<Look<R>, Memory>
        requires demand { IsDemand self.old.request.want }
        requires idle { out_at self.old.top ≡ None }
        requires stale { self.old.top ≡ Empty → IsStale (R.machine memos.old.rules) inputs.now.revision (HasIn (memo_at R.Key.cmp memos.old.places)) self.old.request }
        requires current { self.old.started ≡ inputs.now.revision }
        requires ready { RunReady R.Key.cmp (R.machine memos.old.rules) inputs.now id (step_state memos.old claims.old self.old.stack self.old.top) }
        ensures same { IsSameRun self.old self.new }
        ensures stepped { RunStepped R.Key.cmp R.machine inputs.now id (step_state memos.old claims.old self.old.stack self.old.top) (step_state memos.new claims.new self.new.stack self.new.top) }
        ensures looked { IfOk result (λ l. HasLooked R.Key.cmp R.machine inputs.now memos.old claims.new id self.new.top l) }
        ensures refused { OnErr result (out_at self.new.top ≡ None) }
        ensures first { IfOk result (λ l. LooksFirst self.old.stack self.old.top l) }
    {
        match replace(&mut self.frames.top, Top::Empty) {
            Top::At(frame) => self.frames.advance(alloc, id, memos, claims, inputs, frame),
            Top::Empty => self.begin(alloc, id, memos, claims, inputs),
            Top::Away(_) => unreachable!(),
        }
    }

    /// Takes `done`, the result of the work that is out. If an allocation fails, no key gets another
    /// memo, and `done` comes back.
    pub(crate) fn give(
        &mut self,
        alloc: Global,
        id: RunId,
        memos: &mut Memos<R>,
        claims: &mut Claims<R>,
        inputs: &Inputs,
        done: Made<R>,
    ) -> Result<(), Made<R>>
        requires out { out_at self.old.top ≡ Some (out_of done) }
        requires rules { done.rules ≡ memos.old.rules }
        requires files { done.files ≡ inputs.now.files }
        requires current { self.old.started ≡ inputs.now.revision }
        requires ready { RunReady R.Key.cmp (R.machine memos.old.rules) inputs.now id (step_state memos.old claims.old self.old.stack self.old.top) }
        ensures same { IsSameRun self.old self.new }
        ensures stepped { RunStepped R.Key.cmp R.machine inputs.now id (step_state memos.old claims.old self.old.stack self.old.top) (step_state memos.new claims.new self.new.stack self.new.top) }
        ensures taken { OnOk result (out_at self.new.top ≡ None) }
        ensures back { IfErr result (λ d. d ≡ done) }
        ensures refused { OnErr result (out_at self.new.top ≡ Some (out_of done)) }
    {
        match replace(&mut self.frames.top, Top::Empty) {
            Top::Away(pending) => self
                .frames
                .take(alloc, id, memos, claims, inputs, pending, done),
            _ => unreachable!(),
        }
    }
}
