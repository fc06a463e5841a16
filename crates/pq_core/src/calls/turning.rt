//! Turns: edits that end every run.
//!
//! An edit that makes a multiple of `TURN` ends each run in the same event. So a run that nobody
//! steps holds its claims for fewer than `TURN` further revisions. The requests that wait stay. A
//! turn looks at each place of the map of runs once, and takes no memory.
ghost use Rattle.std.specs.Prelude.{◌≡◌, ◌<◌, ℕ, IfSome, IfNone, Some, None, length, slice_get};
ghost use Rattle.pq_core.specs.Ledger.{Ledger};
ghost use Rattle.pq_core.specs.Moves.{Reaches, TurnsIf, is_turn};
ghost use Rattle.pq_core.specs.Stores.{StandsFor};
ghost use Rattle.pq_core.specs.Told.{Told};
ghost use Rattle.pq_core.specs.aux.Advancing.{AllGoOn};
ghost use Rattle.pq_core.specs.aux.Rising.{found, numbers};
ghost use Rattle.pq_core.specs.aux.Runs.{RunView};
ghost use Rattle.pq_core.specs.aux.Turning.{AreLate, EndsPlace, EndsPlaces};

use crate::steps::run_end::Ending;
use crate::store::store::Store;
use crate::values::limits::TURN;
use crate::values::stamp::Stamp;
use pq_claims::RunId;
use pq_inputs::Revision;
use pq_rules::Rules;

/// Whether the edit that makes `revision` ends every run.
pub fn is_turn(revision: Revision) -> bool
    // Whether the edit that makes a revision ends every run.
    ensures { result ≡ is_turn revision }
{
    revision.number() % TURN == 0
}

impl<R: Rules, M: Stamp> Store<R, M> {
    /// The number of places of the map of runs, vacant ones among them.
    fn run_places(&self) -> usize
        ensures { result ≡ length self.now.runs.items }
    {
        self.runs.places().len()
    }

    /// The run in the place `at` of the map of runs, or `None` where the place is vacant.
    fn run_at(&self, at: usize) -> Option<RunId>
        requires { at < length self.now.runs.items }
        ensures some { IfSome result (λ r. (run : RunView R.Key R.Part) × (found self.now.runs.items r ≡ Some run)) }
        ensures here { IfSome result (λ r. slice_get (numbers self.now.runs.items) at ≡ Some r) }
        ensures none { IfNone result ((r : ℕ) → slice_get (numbers self.now.runs.items) at ≡ Some r → found self.now.runs.items r ≡ None) }
    {
        let place = &self.runs.places()[at];
        match &place.value {
            Some(_) => return Some(RunId::new(place.number)),
            None => return None,
        }
    }

    /// Ends the run in the place `at` of the map of runs, if there is one. It takes no memory.
    fn end_at(&mut self, at: usize)
        requires within { at < length self.old.runs.items }
        requires late { AreLate self.old }
        ensures { EndsPlace R.Key.cmp R.machine M.point self.old self.new at }
    {
        match self.run_at(at) {
            Some(id) => {
                self.end_by(id, Ending::Stopped);
                return;
            }
            None => return,
        }
    }

    /// Ends every run. Each was started before the revision now. It takes no memory.
    fn end_runs(&mut self)
        requires { AreLate self.old }
        ensures { EndsPlaces R.Key.cmp R.machine M.point self.old self.new (length self.old.runs.items) }
    {
        let count = self.run_places();
        'places: for at in 0..count {
            self.end_at(at);
        }
    }

    /// Ends every run where `revision` is a turn. Each was started before the revision now. It
    /// takes no memory.
    pub(crate) fn end_runs_at(&mut self, revision: Revision)
        requires { AreLate self.old }
        ensures rules { self.new.rules ≡ self.old.rules }
        ensures inputs { self.new.inputs ≡ self.old.inputs }
        ensures places { self.new.places ≡ self.old.places }
        ensures goes_on { AllGoOn self.old.accounts.items self.new.accounts.items }
        ensures turned { (l : Ledger R.Key R.Value M (Told R.Key R.Value M)) → StandsFor R.Key.cmp (R.machine self.old.rules) M.point self.old l → Reaches (TurnsIf (is_turn revision)) l (StandsFor R.Key.cmp (R.machine self.old.rules) M.point self.new) }
    {
        if is_turn(revision) {
            self.end_runs();
            return;
        }
    }
}
