//! Withdrawing requests.
//!
//! A client withdraws each of its requests with a label that waits or is in a run. The reply says
//! so, at the revision now. A run that the request was in is over, and its claims are free. A
//! withdrawal looks at the requests of its client that were not acknowledged as put, at most
//! `WINDOW`; each that waits is searched for among those of its client. It takes no memory: `accept`
//! made the room of the reply.
ghost use Rattle.std.specs.Prelude.{◌≡◌, IfSome, IfNone, Some};
ghost use Rattle.pq_core.specs.Accounts.{AccountView, next_of};
ghost use Rattle.pq_core.specs.Ledger.{Ledger};
ghost use Rattle.pq_core.specs.Moves.{Reaches, Withdraws};
ghost use Rattle.pq_core.specs.Starts.{IsCountedIn, Log, log_withdrawn_in};
ghost use Rattle.pq_core.specs.Stores.{Goes, StandsFor};
ghost use Rattle.pq_core.specs.Told.{Told};
ghost use Rattle.pq_core.specs.aux.Advancing.{AllGoOn};
ghost use Rattle.pq_core.specs.aux.Queue.{WaitsIn};
ghost use Rattle.pq_core.specs.aux.Rising.{found};
ghost use Rattle.pq_core.specs.aux.Runs.{AreClaimed};
ghost use Rattle.pq_core.specs.aux.Withdrawing.{IsOwedIn, IsRunOf, MayNotWithdraw, WithdrawsOne, WithdrawsRuns, WithdrawsWaiting};
ghost use Rattle.pq_core.specs.declared.values.request.Request.{Request};

use crate::steps::run_end::Ending;
use crate::store::in_accounts::withdraw_in;
use crate::store::store::Store;
use crate::values::fault::WithdrawFault;
use crate::values::ids::ClientId;
use crate::values::label::Label;
use crate::values::stamp::Stamp;
use pq_claims::RunId;
use pq_rules::Rules;

/// What has to happen before the reply to a request is made.
#[derive(Clone, Copy)]
pub(crate) enum Owed {
    /// Nothing: the reply is made, or there is no such request.
    Nothing,
    /// A run has to start for it.
    Waits,
    /// This run has to end.
    Runs(RunId),
}

impl<R: Rules, M: Stamp> Store<R, M> {
    ghost use Rattle.pq_core.specs.Stores.{held};

    /// The reason to refuse a withdrawal of `client`.
    fn withdraw_refusal(&self, client: u64) -> Option<WithdrawFault>
        ensures refused { IfSome result (λ fault. MayNotWithdraw (held self.now) client fault) }
        ensures may { IfNone result ((account : AccountView R.Key R.Value M) × (found self.now.accounts.items client ≡ Some account)) }
    {
        if client >= self.clients {
            return Some(WithdrawFault::NoClient);
        }
        match self.accounts.get(client) {
            Some(_) => return None,
            None => return Some(WithdrawFault::Closed),
        }
    }

    /// The numbers of the requests of `client` that were not acknowledged as put: from the first
    /// on, below the second. The runs hold the keys of their frames.
    fn numbers_of(&self, client: u64) -> (u64, u64)
        requires { (account : AccountView R.Key R.Value M) × (found self.now.accounts.items client ≡ Some account) }
        ensures numbers { (account : AccountView R.Key R.Value M) → found self.now.accounts.items client ≡ Some account → (result.0 ≡ account.seen) × (result.1 ≡ next_of account) }
        ensures claimed { AreClaimed self.now.claims self.now.runs.items }
    {
        match self.accounts.get(client) {
            Some(account) => (account.seen(), account.next_number().number()),
            None => unreachable!(),
        }
    }

    /// What has to happen before the reply to the request `number` of `client` is made, if the
    /// request has the label `label`. A run that has to end is of a request of `client`.
    fn owed(&self, client: u64, number: u64, label: &Label) -> Owed
        ensures owed { (account : AccountView R.Key R.Value M) → found self.now.accounts.items client ≡ Some account → IsOwedIn account self.now.runs.items number label.now result }
        ensures of_client { IsRunOf client self.now.runs.items result }
    {
        match self.accounts.get(client) {
            None => Owed::Nothing,
            Some(account) => account.owed(&self.runs, number, label),
        }
    }

    /// Withdraws the request `number` of `client`, which waits.
    fn withdraw_waiting(&mut self, client: ClientId, number: u64)
        requires { (request : Request R.Key) × WaitsIn self.old.accounts.items client number request }
        ensures rules { self.new.rules ≡ self.old.rules }
        ensures inputs { self.new.inputs ≡ self.old.inputs }
        ensures places { self.new.places ≡ self.old.places }
        ensures runs { self.new.runs ≡ self.old.runs }
        ensures goes_on { AllGoOn self.old.accounts.items self.new.accounts.items }
        ensures one { (l : Ledger R.Key R.Value M (Told R.Key R.Value M)) → StandsFor R.Key.cmp (R.machine self.old.rules) M.point self.old l → Reaches (WithdrawsWaiting client number) l (StandsFor R.Key.cmp (R.machine self.old.rules) M.point self.new) }
    {
        let now = self.inputs.now();
        self.waiting.drop_one(client.number(), number);
        withdraw_in(&mut self.accounts, client, number, now);
    }

    /// Withdraws the request `number` of the open client `client`, if it waits or is in a run and
    /// has the label `label`. Returns whether it did.
    fn withdraw_one(&mut self, client: ClientId, number: u64, label: &Label) -> bool
        requires may { (account : AccountView R.Key R.Value M) × (found self.old.accounts.items client ≡ Some account) }
        ensures rules { self.new.rules ≡ self.old.rules }
        ensures inputs { self.new.inputs ≡ self.old.inputs }
        ensures places { self.new.places ≡ self.old.places }
        ensures goes_on { AllGoOn self.old.accounts.items self.new.accounts.items }
        ensures over { WithdrawsRuns client label.now self.old.runs.items self.new.runs.items }
        ensures one { (l : Ledger R.Key R.Value M (Told R.Key R.Value M)) → StandsFor R.Key.cmp (R.machine self.old.rules) M.point self.old l → Reaches (WithdrawsOne client number label.now result) l (StandsFor R.Key.cmp (R.machine self.old.rules) M.point self.new) }
    {
        match self.owed(client.number(), number, label) {
            Owed::Nothing => return false,
            Owed::Waits => {
                self.withdraw_waiting(client, number);
                return true;
            }
            Owed::Runs(run) => {
                self.end_by(run, Ending::Withdrawn);
                return true;
            }
        }
    }

    /// Withdraws each request of `client` with the label `label` that waits or is in a run. Returns
    /// whether there was one. The reply to each is made, and says so; a run that it was in is over.
    /// It takes no memory. (LSP 3.17, "Cancellation Support".)
    ///
    /// # Errors
    ///
    /// `NoClient`, `Closed`, in this order.
    pub fn withdraw(&mut self, client: ClientId, label: &Label) -> Result<bool, WithdrawFault>
        // `rules`, `inputs`: The rules stay. The inputs stay, but for an edit that is not refused,
        // which makes its change at the next revision.
        ensures rules { self.new.rules ≡ self.old.rules }
        ensures inputs { self.new.inputs ≡ self.old.inputs }
        // The table of memos is the same.
        ensures places { self.new.places ≡ self.old.places }
        // `Goes`: As the call of a core: the answer is a move of the store's ledger, in which a
        // reply is ready from its making until it is acknowledged as put. Each reply that became
        // ready is made, what was made is so still while it is ready, and nothing else is.
        ensures moved { Goes R.Key.cmp (R.machine self.old.rules) M.point self.old self.new (Withdraws client label.now result) }
        // If a log was counted before the call, it is counted after it, and a run that is starved
        // or withdrawn adds each key that it held to those lost.
        ensures counted { (log : Log R.Key) → IsCountedIn R.Key.cmp (R.machine self.old.rules) self.old log → IsCountedIn R.Key.cmp (R.machine self.old.rules) self.new (log_withdrawn_in self.old client label.now result log) }
    {
        if let Some(fault) = self.withdraw_refusal(client.number()) {
            return Err(fault);
        }
        let (first, end) = self.numbers_of(client.number());
        let mut some = false;
        'requests: for number in first..end {
            if self.withdraw_one(client, number, label) {
                some = true;
            }
        }
        Ok(some)
    }
}
