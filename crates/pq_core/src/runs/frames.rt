//! The frames of a run: what it brings up to date, and the step that it takes next.
//!
//! The top is a frame, or a rule that is carried out elsewhere. Each frame below it waits for the
//! key of the one above. A run claims a key before it enters it, and releases the key where its
//! frame leaves. A key that another run holds is not entered: the run is blocked.
//!
//! Where the wait for another run would close a ring of runs, or the key is on the run's own stack, the
//! step says which ring closes: `closing` publishes it. So no key of a frame is up to date before its
//! turn comes.
//!
//! A step costs what one step of a frame costs and at most one claim or release. Before a frame
//! walks, a step marks valid memos below it instead, where there are any: see `confirming`.
ghost use Rattle.std.specs.Prelude.{◌≡◌, ◌≢◌, ◌++◌, ◌∷◌, [], length, None, IfOk, IfErr, OnOk, OnErr};
ghost use Rattle.pq_memo.specs.Table.{memo_at, HasIn, IsSameTable, KeptOver};
ghost use Rattle.pq_memo.specs.Writes.{IsPublished};
ghost use Rattle.pq_memo.specs.Frames.{Came, frame_keys};
ghost use Rattle.pq_memo.specs.Steps.{IsWhy};
ghost use Rattle.pq_claims.specs.Claims.{hold_of};
ghost use Rattle.pq_core.specs.Moves.{out_of};
ghost use Rattle.pq_core.specs.aux.Runs.{FramesKept, HandedOut, HasLooked, IsLowered, KeptBelow, out_at, run_keys};
ghost use Rattle.pq_core.specs.aux.Begun.{LooksFirst};
ghost use Rattle.pq_core.specs.aux.RunSteps.{RunReady, RunStepped, step_state};
ghost use Rattle.pq_core.specs.declared.runs.frames.Pending.{Pending};
ghost use Rattle.pq_core.specs.declared.runs.frames.Top.TheVariants.{Empty, At, Away};

use crate::runs::confirming::{confirm, first_free};
use crate::runs::job::{Job, Made, Task};
use crate::values::fault::Memory;
use pq_claims::{Claims, RunId, claims_are_sound};
use pq_inputs::Inputs;
use pq_memo::{Frame, Memos, Stack, Stage, Step, Trail, Unpublished, Why, turns_are_right};
use pq_rules::{Answer, Rules, Shared, Turn};
use std::alloc::Global;

/// A key whose rule is being carried out, and what the rule has read.
#[derive(Drop)]
pub(crate) struct Pending<K> {
    pub(crate) key: K,
    pub(crate) reads: Vec<K>,
}

/// What a run is at.
#[derive(Drop)]
pub(crate) enum Top<K, P> {
    /// Nothing is to be brought up to date.
    Empty,
    /// This frame takes the next step.
    At(Frame<K, P>),
    /// The rule of this key is carried out elsewhere.
    Away(Pending<K>),
}

/// What a look at a run came to. `W` is the work that it may hand out, `K` the type of keys.
#[derive(Drop)]
pub(crate) enum Looked<W, K> {
    /// This work is handed out.
    Carry(W),
    /// The run went on.
    Stepped,
    /// The run waits for this other run.
    Blocked(RunId),
    /// The top waits for a key, and a wait of the run for it would close the ring of these keys.
    Ring(Vec<K>),
}

/// What a look at a run of the rules `R` came to.
pub(crate) type Look<R> = Looked<Job<R>, <R as Rules>::Key>;

/// The frames of a run.
#[derive(Drop)]
pub(crate) struct Frames<R: Rules> {
    pub(crate) stack: Stack<R>,
    pub(crate) top: Top<R::Key, R::Part>,
    // Which memos below the frames may be valid. No contract speaks of it.
    trail: Trail,
}

/// The answer that is this value.
fn value_answer<R: Rules>(
    alloc: Global,
    rules: &R,
    value: &R::Value,
) -> Result<Shared<Answer<R::Key, R::Value>>, Memory>
    ensures { IfOk result (λ a. a ≡ Answer.Value value.now) }
{
    let copy = rules.copy_value(alloc, value)?;
    Shared::new(alloc, Answer::Value(copy))
}

/// Publishes `value`, to which the rule of the key of `pending` came. If an allocation fails, no
/// key gets another memo, and `pending` comes back.
fn publish_value<R: Rules>(
    alloc: Global,
    memos: &mut Memos<R>,
    inputs: &Inputs,
    pending: Pending<R::Key>,
    value: &R::Value,
) -> Result<(), Pending<R::Key>>
    requires kept { KeptOver R.Key.cmp (R.machine memos.old.rules) inputs.now memos.old.places }
    requires came { Came R.Key.cmp (R.machine memos.old.rules) inputs.now.history inputs.now.revision (HasIn (memo_at R.Key.cmp memos.old.places)) pending.key (Turn.Done value.now) pending.reads.items }
    ensures rules { memos.new.rules ≡ memos.old.rules }
    ensures kept { KeptOver R.Key.cmp (R.machine memos.old.rules) inputs.now memos.new.places }
    ensures published { OnOk result (IsPublished R.Key.cmp (R.machine memos.old.rules) inputs.now memos.old.places pending.key (Answer.Value value.now) pending.reads.items memos.new.places) }
    ensures returned { IfErr result (λ p. (p.key ≡ pending.key) × (p.reads.items ≡ pending.reads.items)) }
    ensures refused { OnErr result (IsSameTable (memo_at R.Key.cmp memos.old.places) (memo_at R.Key.cmp memos.new.places)) }
{
    let _latest = inputs.now();
    turns_are_right(memos);
    match value_answer(alloc, memos.rules(), value) {
        Ok(answer) => {
            let Pending { key, reads } = pending;
            match memos.publish(key, answer, reads, inputs) {
                Ok(()) => Ok(()),
                Err(back) => {
                    let Unpublished { key, reads, .. } = back;
                    Err(Pending { key, reads })
                }
            }
        }
        Err(_) => Err(pending),
    }
}

impl<R: Rules> Frames<R> {
    /// No frames. It takes no memory.
    pub(crate) fn new(alloc: Global) -> Self
        ensures stack { result.stack ≡ [] }
        ensures top { result.top ≡ Empty }
    {
        Frames {
            stack: Stack::new(alloc),
            top: Top::Empty,
            trail: Trail::new(alloc),
        }
    }

    /// Makes the last frame below the top the top, in the place of that.
    pub(crate) fn lower(&mut self)
        ensures lowered { IsLowered self.old.stack self.new.stack self.new.top }
    {
        match self.stack.pop() {
            Some(frame) => {
                self.top = Top::At(frame);
            }
            None => {
                self.top = Top::Empty;
            }
        }
    }

    /// Hands out the start of the rule of `key`, of which `copy` is a copy.
    fn start(
        &mut self,
        alloc: Global,
        id: RunId,
        memos: &Memos<R>,
        inputs: &Inputs,
        key: R::Key,
        copy: R::Key,
        why: Why<R::Key>,
    ) -> Job<R>
        requires kept { KeptOver R.Key.cmp (R.machine memos.now.rules) inputs.now memos.now.places }
        requires below { KeptBelow R.Key.cmp (R.machine memos.now.rules) inputs.now (memo_at R.Key.cmp memos.now.places) self.old.stack key }
        requires copied { copy ≡ key }
        requires because { IsWhy (R.machine memos.now.rules) inputs.now.history inputs.now.revision (HasIn (memo_at R.Key.cmp memos.now.places)) key why }
        ensures keys { run_keys self.new.stack self.new.top ≡ frame_keys self.old.stack ++ key ∷ [] }
        ensures frames_kept { FramesKept R.Key.cmp (R.machine memos.now.rules) inputs.now (memo_at R.Key.cmp memos.now.places) self.new.stack self.new.top }
        ensures handed { HandedOut (R.machine memos.now.rules) memos.now.rules inputs.now (memo_at R.Key.cmp memos.now.places) id self.new.top result }
        ensures stack { self.new.stack ≡ self.old.stack }
        ensures away { (p : Pending R.Key) × (self.new.top ≡ Away p) × (p.key ≡ key) }
    {
        let _latest = inputs.now();
        turns_are_right(memos);
        let reads = Vec::new(alloc);
        let work = Job::new(
            *memos.rules(),
            id,
            inputs,
            copy,
            Some(why),
            Task::Start,
            &reads,
        );
        self.top = Top::Away(Pending { key, reads });
        work
    }

    /// Hands out how the rule of `key`, of which `copy` is a copy, goes on from `part` with
    /// `answer`. It has made these reads.
    fn go_on(
        &mut self,
        id: RunId,
        memos: &Memos<R>,
        inputs: &Inputs,
        key: R::Key,
        copy: R::Key,
        part: R::Part,
        answer: Shared<Answer<R::Key, R::Value>>,
        reads: Vec<R::Key>,
    ) -> Job<R>
        requires below { KeptBelow R.Key.cmp (R.machine memos.now.rules) inputs.now (memo_at R.Key.cmp memos.now.places) self.old.stack key }
        requires copied { copy ≡ key }
        requires came { Came R.Key.cmp (R.machine memos.now.rules) inputs.now.history inputs.now.revision (HasIn (memo_at R.Key.cmp memos.now.places)) key ((R.machine memos.now.rules).advance part answer) reads.items }
        requires read { reads.items ≢ [] }
        ensures keys { run_keys self.new.stack self.new.top ≡ frame_keys self.old.stack ++ key ∷ [] }
        ensures frames_kept { FramesKept R.Key.cmp (R.machine memos.now.rules) inputs.now (memo_at R.Key.cmp memos.now.places) self.new.stack self.new.top }
        ensures handed { HandedOut (R.machine memos.now.rules) memos.now.rules inputs.now (memo_at R.Key.cmp memos.now.places) id self.new.top result }
        ensures stack { self.new.stack ≡ self.old.stack }
        ensures away { (p : Pending R.Key) × (self.new.top ≡ Away p) × (p.key ≡ key) }
        ensures going { result.why ≡ None }
    {
        let _latest = inputs.now();
        let task = Task::Advance(part, answer);
        let work = Job::new(*memos.rules(), id, inputs, copy, None, task, &reads);
        self.top = Top::Away(Pending { key, reads });
        work
    }

    /// Takes one step of `frame`, which was the top and whose key is not up to date. `copy` is a
    /// copy of that key. The run waits for no key.
    fn step(
        &mut self,
        alloc: Global,
        id: RunId,
        memos: &mut Memos<R>,
        claims: &mut Claims<R>,
        inputs: &Inputs,
        frame: Frame<R::Key, R::Part>,
        copy: R::Key,
    ) -> Result<Look<R>, Memory>
        requires ready { RunReady R.Key.cmp (R.machine memos.old.rules) inputs.now id (step_state memos.old claims.old self.old.stack (At frame)) }
        requires awake { (hold_of claims.old id).wait ≡ None }
        requires copied { copy ≡ frame.key }
        ensures stepped { RunStepped R.Key.cmp R.machine inputs.now id (step_state memos.old claims.old self.old.stack (At frame)) (step_state memos.new claims.new self.new.stack self.new.top) }
        ensures looked { IfOk result (λ l. HasLooked R.Key.cmp R.machine inputs.now memos.old claims.new id self.new.top l) }
        ensures refused { OnErr result (out_at self.new.top ≡ None) }
        ensures first { IfOk result (λ l. LooksFirst self.old.stack (At frame) l) }
    {
        match memos.step(alloc, frame, inputs) {
            Ok(Step::Finished) => {
                claims_are_sound(claims);
                self.leave(id, claims);
                Ok(Looked::Stepped)
            }
            Ok(Step::Needs(frame, next)) => {
                self.wait(alloc, id, memos, claims, inputs, frame, next)
            }
            Ok(Step::Starts(key, why)) => {
                Ok(Looked::Carry(self.start(alloc, id, memos, inputs, key, copy, why)))
            }
            Ok(Step::GoesOn(key, part, answer, reads)) => {
                Ok(Looked::Carry(self.go_on(id, memos, inputs, key, copy, part, answer, reads)))
            }
            Err(frame) => {
                self.top = Top::At(frame);
                Err(Memory)
            }
        }
    }

    /// Takes one step of `frame`, which was the top, or marks valid memos below it. If the run
    /// waited, its wait ends: it waits again if the key that it needs is still held.
    pub(crate) fn advance(
        &mut self,
        alloc: Global,
        id: RunId,
        memos: &mut Memos<R>,
        claims: &mut Claims<R>,
        inputs: &Inputs,
        frame: Frame<R::Key, R::Part>,
    ) -> Result<Look<R>, Memory>
        requires ready { RunReady R.Key.cmp (R.machine memos.old.rules) inputs.now id (step_state memos.old claims.old self.old.stack (At frame)) }
        ensures stepped { RunStepped R.Key.cmp R.machine inputs.now id (step_state memos.old claims.old self.old.stack (At frame)) (step_state memos.new claims.new self.new.stack self.new.top) }
        ensures looked { IfOk result (λ l. HasLooked R.Key.cmp R.machine inputs.now memos.old claims.new id self.new.top l) }
        ensures refused { OnErr result (out_at self.new.top ≡ None) }
        ensures first { IfOk result (λ l. LooksFirst self.old.stack (At frame) l) }
    {
        claims.end_wait(id);
        match first_free(&mut self.trail, memos, claims, inputs, &frame) {
            Some(first) => {
                confirm(&mut self.trail, memos, claims, inputs, first);
                self.top = Top::At(frame);
                return Ok(Looked::Stepped);
            }
            None => {}
        }
        match memos.rules().copy_key(alloc, &frame.key) {
            Ok(copy) => self.step(alloc, id, memos, claims, inputs, frame, copy),
            Err(_) => {
                self.top = Top::At(frame);
                Err(Memory)
            }
        }
    }

    /// Takes `done`, the result of the work of `pending`, which was the top. If an allocation fails, no
    /// key gets another memo, and `done` comes back.
    pub(crate) fn take(
        &mut self,
        alloc: Global,
        id: RunId,
        memos: &mut Memos<R>,
        claims: &mut Claims<R>,
        inputs: &Inputs,
        pending: Pending<R::Key>,
        done: Made<R>,
    ) -> Result<(), Made<R>>
        requires ready { RunReady R.Key.cmp (R.machine memos.old.rules) inputs.now id (step_state memos.old claims.old self.old.stack (Away pending)) }
        requires rules { done.rules ≡ memos.old.rules }
        requires files { done.files ≡ inputs.now.files }
        requires counted { length pending.reads.items ≡ length done.front }
        requires key { pending.key ≡ done.key }
        ensures stepped { RunStepped R.Key.cmp R.machine inputs.now id (step_state memos.old claims.old self.old.stack (Away pending)) (step_state memos.new claims.new self.new.stack self.new.top) }
        ensures taken { OnOk result (out_at self.new.top ≡ None) }
        ensures back { IfErr result (λ d. d ≡ done) }
        ensures refused { OnErr result (out_at self.new.top ≡ Some (out_of done)) }
    {
        let _latest = inputs.now();
        let Made {
            rules,
            run,
            started,
            key,
            turn,
            reads,
            inputs: made,
            front,
        } = done;
        match turn {
            Turn::Ask(asked, part) => {
                let stage = Stage::Waiting(part, asked, pending.reads);
                let frame = Frame {
                    key: pending.key,
                    stage,
                };
                self.top = Top::At(frame);
                Ok(())
            }
            Turn::Done(value) => match publish_value(alloc, memos, inputs, pending, &value) {
                Ok(()) => {
                    claims_are_sound(claims);
                    self.leave(id, claims);
                    Ok(())
                }
                Err(pending) => {
                    self.top = Top::Away(pending);
                    Err(Made {
                        rules,
                        run,
                        started,
                        key,
                        turn: Turn::Done(value),
                        reads,
                        inputs: made,
                        front,
                    })
                }
            },
        }
    }
}
