//! Starting a run for a request that waits.
ghost use Rattle.std.specs.Prelude.{◌≡◌};
ghost use Rattle.pq_core.specs.Moves.{Starts};
ghost use Rattle.pq_core.specs.Stores.{Goes};
ghost use Rattle.pq_core.specs.Starts.{IsCountedIn, Log};

use crate::runs::run::Run;
use crate::store::in_accounts::start_in;
use crate::store::store::Store;
use crate::values::stamp::Stamp;
use pq_claims::RunId;
use pq_rules::Rules;

impl<R: Rules, M: Stamp> Store<R, M> {
    /// Starts a run for the next client's first request, clients in turn, at the revision now. Returns
    /// `None` only where no request waits or the numbers of runs are used up. It takes no memory.
    pub fn start(&mut self) -> Option<RunId>
        // `rules`, `inputs`: The rules stay. The inputs stay, but for an edit that is not refused,
        // which makes its change at the next revision.
        ensures rules { self.new.rules ≡ self.old.rules }
        ensures inputs { self.new.inputs ≡ self.old.inputs }
        // The table of memos is the same.
        ensures places { self.new.places ≡ self.old.places }
        // `Goes`: As the call of a core: the answer is a move of the store's ledger, in which a
        // reply is ready from its making until it is acknowledged as put. Each reply that became
        // ready is made, what was made is so still while it is ready, and nothing else is.
        ensures moved { Goes R.Key.cmp (R.machine self.old.rules) M.point self.old self.new (Starts result) }
        // A log that was counted is counted after the call, and nothing is added.
        ensures counted { (log : Log R.Key) → IsCountedIn R.Key.cmp (R.machine self.old.rules) self.old log → IsCountedIn R.Key.cmp (R.machine self.old.rules) self.new log }
    {
        if self.started == u64::MAX {
            return None;
        }
        let revision = self.inputs.now();
        match self.waiting.pop() {
            Some((client, number)) => {
                let run = self.started;
                let request = start_in(&mut self.accounts, client, number, run);
                let made = Run::new(self.alloc, client, number, request, revision);
                self.runs.push_reserved(run, made);
                self.started += 1;
                return Some(RunId::new(run));
            }
            None => return None,
        }
    }
}
