//! What a run is at between two calls of its store.
//!
//! That a run was overtaken is found before anything that allocates, so a failed allocation never hides
//! it.
ghost use Rattle.std.specs.Prelude.{◌≡◌, ◌⊎◌, ◌↔◌, ◌<◌, IsTrue, IfOk, IfErr, Some, None};
ghost use Rattle.pq_core.specs.aux.RunEnds.{IsLateFor};
ghost use Rattle.pq_core.specs.aux.Rising.{found};
ghost use Rattle.pq_core.specs.aux.Runs.{RunView, out_at};
ghost use Rattle.pq_core.specs.aux.RunStates.{IsAt, IsCurrentRun, IsLate};
ghost use Rattle.pq_core.specs.Moves.{out_of};

use crate::runs::job::Made;
use crate::runs::run::Run;
use crate::store::account::Account;
use crate::store::rising::Rising;
use crate::store::store::Store;
use crate::values::fault::Memory;
use crate::values::stamp::Stamp;
use pq_claims::RunId;
use pq_inputs::Revision;
use pq_rules::{Answer, Rules, Shared};
use std::alloc::Global;

/// What a run is at.
#[derive(Drop)]
pub(crate) enum RunState<K, V, M> {
    /// There is no such run.
    Gone,
    /// It was overtaken: an edit was accepted since its start, or its client was closed.
    Overtaken,
    /// Its work is out.
    Away,
    /// It has no frame, and the key of its request has this answer. The stamp is of the revision now.
    Answered(Shared<Answer<K, V>>, M),
    /// It can take a step. The stamp is of the revision now.
    Ready(M),
}

/// Whether `run` was overtaken: an edit was accepted since its start, or its client was closed.
fn is_overtaken<R: Rules, M: Stamp>(
    accounts: &Rising<Account<R, M>>,
    run: &Run<R>,
    now: Revision,
) -> bool
    ensures { IsTrue result ↔ ((run.now.started < now) ⊎ (found accounts.now.items run.now.client ≡ None)) }
{
    if run.started < now {
        return true;
    }
    accounts.get(run.client).is_none()
}

impl<R: Rules, M: Stamp> Store<R, M> {
    /// What `run` is at. An allocation is needed only where it is current and its work is not out.
    pub(crate) fn state_of(
        &self,
        alloc: Global,
        run: RunId,
    ) -> Result<RunState<R::Key, R::Value, M>, Memory>
        ensures at { IfOk result (λ state. IsAt R.Key.cmp (R.machine self.now.rules) M.point self.now run state) }
        ensures refused { IfErr result (λ failure. (kept : RunView R.Key R.Part) × IsCurrentRun self.now run kept × (out_at kept.top ≡ None)) }
    {
        match self.runs.get(run.number()) {
            None => return Ok(RunState::Gone),
            Some(kept) => {
                if is_overtaken(&self.accounts, kept, self.inputs.now()) {
                    return Ok(RunState::Overtaken);
                }
                if kept.is_out() {
                    return Ok(RunState::Away);
                }
                let stamp = self.stamp.again()?;
                match kept.answer(alloc, &self.memos, &self.inputs)? {
                    Some(answer) => return Ok(RunState::Answered(answer, stamp)),
                    None => return Ok(RunState::Ready(stamp)),
                }
            }
        }
    }

    /// Whether `run` exists, and `done` is the result of its work that is out.
    pub(crate) fn fits(&self, run: RunId, done: &Made<R>) -> bool
        ensures { IsTrue result ↔ ((kept : RunView R.Key R.Part) × (found self.now.runs.items run ≡ Some kept) × (done.now.run ≡ run) × (done.now.started ≡ kept.started) × (out_at kept.top ≡ Some (out_of done.now))) }
    {
        match self.runs.get(run.number()) {
            None => false,
            Some(kept) => kept.fits(self.memos.rules(), run, done),
        }
    }

    /// Whether `run` exists.
    pub(crate) fn has_run(&self, run: RunId) -> bool
        ensures { IsTrue result ↔ ((kept : RunView R.Key R.Part) × (found self.now.runs.items run ≡ Some kept)) }
    {
        match self.runs.get(run.number()) {
            None => false,
            Some(_) => true,
        }
    }

    /// Whether `run`, which exists, was overtaken. Else it was started at the revision now.
    pub(crate) fn is_late(&self, run: RunId) -> bool
        ensures late { (kept : RunView R.Key R.Part) → found self.now.runs.items run ≡ Some kept → IsTrue result ↔ IsLate self.now kept }
        ensures now { (kept : RunView R.Key R.Part) → found self.now.runs.items run ≡ Some kept → (IsLate self.now kept → ⊥) → kept.started ≡ self.now.inputs.revision }
    {
        match self.runs.get(run.number()) {
            None => true,
            Some(kept) => is_overtaken(&self.accounts, kept, self.inputs.now()),
        }
    }
}
