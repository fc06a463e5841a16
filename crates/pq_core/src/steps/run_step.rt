//! One step of a run in its store: the run is taken out, steps, and is put back.
ghost use Rattle.std.specs.Prelude.{◌≡◌, ℕ, IfOk, IfErr, OnOk, Some, None};
ghost use Rattle.std.specs.Option.{option_map};
ghost use Rattle.pq_memo.specs.Table.{memo_at};
ghost use Rattle.pq_core.specs.Moves.{out_of};
ghost use Rattle.pq_core.specs.Starts.{IsCountedIn, Log};
ghost use Rattle.pq_core.specs.Stores.{run_seen};
ghost use Rattle.pq_core.specs.aux.Rising.{found};
ghost use Rattle.pq_core.specs.aux.Runs.{RunView, Renewed, ClosesRing, out_at};
ghost use Rattle.pq_core.specs.aux.RunStates.{IsCurrentRun, IsReady, SameClients, Steps, StepsTo, log_stepped};

use crate::runs::frames::Look;
use crate::runs::job::Made;
use crate::steps::closing::close_ring;
use crate::store::store::Store;
use crate::values::fault::Memory;
use crate::values::stamp::Stamp;
use pq_claims::{RunId, claims_are_sound};
use pq_memo::look_is_right;
use pq_rules::Rules;
use std::alloc::Global;

impl<R: Rules, M: Stamp> Store<R, M> {
    /// Takes one step of `run`, which is current and has no work out. If an allocation fails, the run
    /// may have gone on all the same.
    pub(crate) fn step(&mut self, alloc: Global, run: RunId) -> Result<Look<R>, Memory>
        requires ready { (kept : RunView R.Key R.Part) × IsReady R.Key.cmp (R.machine self.old.rules) self.old run kept }
        ensures looked { IfOk result (λ looked. StepsTo R.Key.cmp (R.machine self.old.rules) self.old run self.new looked) }
        ensures refused { IfErr result (λ failure. (s : Steps R.Key.cmp (R.machine self.old.rules) self.old run self.new) × (out_at s.run.top ≡ None)) }
        ensures counted { (log : Log R.Key) → IsCountedIn R.Key.cmp (R.machine self.old.rules) self.old log → IsCountedIn R.Key.cmp (R.machine self.old.rules) self.new (log_stepped self.old run result log) }
    {
        let _latest = self.inputs.now();
        look_is_right(&self.memos);
        claims_are_sound(&self.claims);
        match self.runs.take(run.number()) {
            None => unreachable!(),
            Some(taken) => {
                let mut kept = taken;
                let looked = kept.look(alloc, run, &mut self.memos, &mut self.claims, &self.inputs);
                claims_are_sound(&self.claims);
                self.runs.put_back(run.number(), kept);
                return looked;
            }
        }
    }

    /// Gives `done`, the result of the work of `run` that is out, to `run`, which is current. If an
    /// allocation fails, the result comes back, and its work is out still.
    pub(crate) fn take_result(
        &mut self,
        alloc: Global,
        run: RunId,
        done: Made<R>,
    ) -> Result<(), Made<R>>
        requires made { (done.rules ≡ self.old.rules) × (done.files ≡ self.old.inputs.files) }
        requires out { (kept : RunView R.Key R.Part) × IsCurrentRun self.old run kept × (out_at kept.top ≡ Some (out_of done)) }
        ensures taken { IfOk result (λ nothing. (s : Steps R.Key.cmp (R.machine self.old.rules) self.old run self.new) × (out_at s.run.top ≡ None)) }
        ensures refused { IfErr result (λ back. (back ≡ done) × ((s : Steps R.Key.cmp (R.machine self.old.rules) self.old run self.new) × (out_at s.run.top ≡ Some (out_of done)))) }
        ensures counted { (log : Log R.Key) → IsCountedIn R.Key.cmp (R.machine self.old.rules) self.old log → IsCountedIn R.Key.cmp (R.machine self.old.rules) self.new log }
    {
        claims_are_sound(&self.claims);
        match self.runs.take(run.number()) {
            None => unreachable!(),
            Some(taken) => {
                let mut kept = taken;
                let given = kept.give(
                    alloc,
                    run,
                    &mut self.memos,
                    &mut self.claims,
                    &self.inputs,
                    done,
                );
                claims_are_sound(&self.claims);
                self.runs.put_back(run.number(), kept);
                return given;
            }
        }
    }

    /// Publishes `ring`, the ring that closes if `run`, which was started at the revision now, waits for
    /// the key that its top awaits.
    pub(crate) fn close(&mut self, alloc: Global, run: RunId, ring: &[R::Key]) -> Result<(), Memory>
        requires closes { (kept : RunView R.Key R.Part) × (found self.old.runs.items run ≡ Some kept) × (kept.started ≡ self.old.inputs.revision)
            × ClosesRing R.Key.cmp (R.machine self.old.rules) self.old.inputs (memo_at R.Key.cmp self.old.places) self.old.claims run kept.top ring.now }
        ensures clients { SameClients self.old self.new }
        ensures renewed { Renewed (R.machine self.old.rules) self.old.inputs.revision (memo_at R.Key.cmp self.old.places) (memo_at R.Key.cmp self.new.places) }
        ensures seen { (r : ℕ) → option_map run_seen (found self.new.runs.items r) ≡ option_map run_seen (found self.old.runs.items r) }
        ensures counted { (log : Log R.Key) → IsCountedIn R.Key.cmp (R.machine self.old.rules) self.old log → IsCountedIn R.Key.cmp (R.machine self.old.rules) self.new log }
    {
        close_ring(
            alloc,
            &mut self.memos,
            &mut self.claims,
            &mut self.runs,
            &self.inputs,
            run,
            ring,
        )
    }
}
