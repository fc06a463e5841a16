//! The calls of a store for one run: its request, its next step, the result of its work, and its end
//! where an allocation failed.
//!
//! `state_of` says what a run is at, `step` takes a step of it, and `end_by` ends it.
ghost use Rattle.std.specs.Prelude.{◌≡◌, IfOk, IfErr};
ghost use Rattle.pq_memo.specs.Table.{memo_at};
ghost use Rattle.pq_memo.specs.Demand.{NoneLost};
ghost use Rattle.pq_core.specs.Ledger.{Ledger};
ghost use Rattle.pq_core.specs.Moves.{Looks, Gives, Starves, IsMade, IsRequestOf};
ghost use Rattle.pq_core.specs.Stores.{StandsFor, HandsOut, HasCause, NamesHolder, Goes};
ghost use Rattle.pq_core.specs.Told.{Told};
ghost use Rattle.pq_core.specs.Starts.{IsCountedIn, Log, log_moved_in, log_starved_in};

use crate::runs::frames::Looked;
use crate::runs::work::{Done, Work};
use crate::steps::run_end::Ending;
use crate::steps::run_state::RunState;
use crate::store::store::Store;
use crate::values::fault::{GiveFault, GiveRefused, LookFault};
use crate::values::ids::{ClientId, Number};
use crate::values::moves::Move;
use crate::values::stamp::Stamp;
use pq_claims::RunId;
use pq_rules::Rules;
use std::alloc::Global;

impl<R: Rules, M: Stamp> Store<R, M> {
    /// The client and the number of the request of `run`, if it exists.
    pub fn request_of(&self, run: RunId) -> Option<(ClientId, Number)>
        // The client and the number of the request of the run; no answer exactly where the run does
        // not exist.
        ensures { (l : Ledger R.Key R.Value M (Told R.Key R.Value M)) → StandsFor R.Key.cmp (R.machine self.now.rules) M.point self.now l → IsRequestOf l run result }
    {
        match self.runs.get(run.number()) {
            Some(run) => return Some((ClientId::new(run.client), Number::new(run.number))),
            None => return None,
        }
    }

    /// Whether the answer of `key` at the sources now is there, so that a run for it ends at its first step.
    /// `false` also where an allocation failed. No result depends on it: it says when a run ends soon.
    pub fn has_answer(&self, alloc: Global, key: &R::Key) -> bool {
        match self.memos.usable_answer(alloc, key, &self.inputs) {
            Ok(Some(_)) => return true,
            _ => return false,
        }
    }

    /// Takes one step of `run`.
    ///
    /// # Errors
    ///
    /// `NoRun`, `Memory`, in this order.
    pub fn look(&mut self, alloc: Global, run: RunId) -> Result<Move<Work<R, M>>, LookFault>
        // `rules`, `inputs`: The rules stay. The inputs stay, but for an edit that is not refused,
        // which makes its change at the next revision.
        ensures rules { self.new.rules ≡ self.old.rules }
        ensures inputs { self.new.inputs ≡ self.old.inputs }
        // Each key that had a memo has one. Its changed revision is the same if the answers are
        // equal.
        ensures none_lost { NoneLost (memo_at R.Key.cmp self.old.places) (memo_at R.Key.cmp self.new.places) }
        // `Goes`: As the call of a core: the answer is a move of the store's ledger, in which a
        // reply is ready from its making until it is acknowledged as put. Each reply that became
        // ready is made, what was made is so still while it is ready, and nothing else is.
        ensures moved { Goes R.Key.cmp (R.machine self.old.rules) M.point self.old self.new (Looks R.Key.cmp (R.machine self.old.rules) M.point self.old.rules run result) }
        // Work that is handed out is of the rules of the core, or of the store. It names the run
        // and the revision now, and is over the sources now.
        ensures handed { IfOk result (HandsOut self.old run) }
        // `NamesHolder`: A run that is blocked by another waits for a key that this other holds.
        ensures holder { IfOk result (NamesHolder self.new.claims run) }
        // Handed-out work names a cause exactly where its rule starts, and the table gives that
        // cause then.
        ensures cause { IfOk result (HasCause R.Key.cmp (R.machine self.old.rules) self.old) }
        // If a log was counted before the call, it is counted after it, with what the call adds.
        // Work that starts a rule adds a start of its key at the revision now. A run that is
        // stopped adds each key that it held to those lost, at the revision of its start. Every
        // other answer adds nothing.
        ensures counted { (log : Log R.Key) → IsCountedIn R.Key.cmp (R.machine self.old.rules) self.old log → IsCountedIn R.Key.cmp (R.machine self.old.rules) self.new (log_moved_in self.old run result log) }
    {
        match self.state_of(alloc, run) {
            Err(_) => return Err(LookFault::Memory),
            Ok(state) => match state {
                RunState::Gone => return Err(LookFault::NoRun),
                RunState::Overtaken => {
                    self.end_by(run, Ending::Stopped);
                    return Ok(Move::Stopped);
                }
                RunState::Away => return Ok(Move::Blocked(run)),
                RunState::Answered(answer, stamp) => {
                    self.end_by(run, Ending::Answered(answer, stamp));
                    return Ok(Move::Answered);
                }
                RunState::Ready(stamp) => match self.step(alloc, run) {
                    Err(_) => return Err(LookFault::Memory),
                    Ok(looked) => match looked {
                        Looked::Carry(job) => return Ok(Move::Carry(Work::new(job, stamp))),
                        Looked::Stepped => return Ok(Move::Stepped),
                        Looked::Blocked(other) => return Ok(Move::Blocked(other)),
                        Looked::Ring(ring) => match self.close(alloc, run, &ring) {
                            Ok(()) => return Ok(Move::Stepped),
                            Err(_) => return Err(LookFault::Memory),
                        },
                    },
                },
            },
        }
    }

    /// Takes the result of the work of `run`. A result that was started at the revision now is one
    /// of the core's rules at the sources now.
    ///
    /// # Errors
    ///
    /// `NotThisRun`, `Memory`, in this order. The result comes back.
    pub fn give(
        &mut self,
        alloc: Global,
        run: RunId,
        done: Done<R, M>,
    ) -> Result<Move<Work<R, M>>, GiveRefused<Done<R, M>>>
        // `IsMade`: A result that was started at the revision now is of the rules of the core, or
        // of the store, and over the sources now.
        requires { IsMade self.old.rules self.old.inputs done }
        // `rules`, `inputs`: The rules stay. The inputs stay, but for an edit that is not refused,
        // which makes its change at the next revision.
        ensures rules { self.new.rules ≡ self.old.rules }
        ensures inputs { self.new.inputs ≡ self.old.inputs }
        // Each key that had a memo has one. Its changed revision is the same if the answers are
        // equal.
        ensures none_lost { NoneLost (memo_at R.Key.cmp self.old.places) (memo_at R.Key.cmp self.new.places) }
        // A refusal hands back what was handed in.
        ensures back { IfErr result (λ refused. refused.done ≡ done) }
        // `Goes`: As the call of a core: the answer is a move of the store's ledger, in which a
        // reply is ready from its making until it is acknowledged as put. Each reply that became
        // ready is made, what was made is so still while it is ready, and nothing else is.
        ensures moved { Goes R.Key.cmp (R.machine self.old.rules) M.point self.old self.new (Gives run done result) }
        // If a log was counted before the call, it is counted after it, with what the call adds.
        // Work that starts a rule adds a start of its key at the revision now. A run that is
        // stopped adds each key that it held to those lost, at the revision of its start. Every
        // other answer adds nothing.
        ensures counted { (log : Log R.Key) → IsCountedIn R.Key.cmp (R.machine self.old.rules) self.old log → IsCountedIn R.Key.cmp (R.machine self.old.rules) self.new (log_moved_in self.old run result log) }
    {
        if !self.fits(run, &done.made) {
            let fault = GiveFault::NotThisRun;
            return Err(GiveRefused { fault, done });
        }
        if self.is_late(run) {
            self.end_by(run, Ending::Stopped);
            return Ok(Move::Stopped);
        }
        let Done { made, stamp } = done;
        match self.take_result(alloc, run, made) {
            Ok(()) => return Ok(Move::Stepped),
            Err(made) => {
                let fault = GiveFault::Memory;
                let done = Done { made, stamp };
                return Err(GiveRefused { fault, done });
            }
        }
    }

    /// Ends `run` because an allocation failed. Returns whether it was a run. It takes no memory.
    pub fn starve(&mut self, run: RunId) -> bool
        // `rules`, `inputs`: The rules stay. The inputs stay, but for an edit that is not refused,
        // which makes its change at the next revision.
        ensures rules { self.new.rules ≡ self.old.rules }
        ensures inputs { self.new.inputs ≡ self.old.inputs }
        // The table of memos is the same.
        ensures places { self.new.places ≡ self.old.places }
        // `Goes`: As the call of a core: the answer is a move of the store's ledger, in which a
        // reply is ready from its making until it is acknowledged as put. Each reply that became
        // ready is made, what was made is so still while it is ready, and nothing else is.
        ensures moved { Goes R.Key.cmp (R.machine self.old.rules) M.point self.old self.new (Starves run result) }
        // If a log was counted before the call, it is counted after it, and a run that is starved
        // or withdrawn adds each key that it held to those lost.
        ensures counted { (log : Log R.Key) → IsCountedIn R.Key.cmp (R.machine self.old.rules) self.old log → IsCountedIn R.Key.cmp (R.machine self.old.rules) self.new (log_starved_in self.old run result log) }
    {
        if !self.has_run(run) {
            return false;
        }
        self.end_by(run, Ending::Starved);
        true
    }
}
