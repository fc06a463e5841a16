//! The one end of a run: its claims are freed, and its reply is made.
//!
//! A run ends by `Store::end_by`, whatever the cause. That takes no memory: `accept` made the room of
//! the reply. The run of a client that was closed ends without a reply.
ghost use Rattle.std.specs.Prelude.{◌≡◌, ◌⊎◌, ◌<◌, ◌==◌, ℕ, if◌then◌else◌, Some, None};
ghost use Rattle.pq_core.specs.Accounts.{AccountView, IsStage, with_stage};
ghost use Rattle.pq_core.specs.Replies.{IsFair};
ghost use Rattle.pq_core.specs.RightReply.{answer_by};
ghost use Rattle.pq_core.specs.Starts.{IsCountedIn, Log};
ghost use Rattle.pq_core.specs.Stores.{Goes};
ghost use Rattle.pq_core.specs.Truth.{IsTrueReply};
ghost use Rattle.pq_core.specs.aux.Changes.{IsSetAt, IsSameMap};
ghost use Rattle.pq_core.specs.aux.RunEnds.{MayEnd, IsReplyDue, EndsBy, reply_by, log_ended_in};
ghost use Rattle.pq_core.specs.aux.Advancing.{AllGoOn};
ghost use Rattle.pq_core.specs.aux.Rising.{found, numbers, IsAbove};
ghost use Rattle.pq_core.specs.declared.store.account.Begun.{Begun};
ghost use Rattle.pq_core.specs.declared.store.account.Stage.TheVariants.{Running, Made};
ghost use Rattle.pq_core.specs.declared.values.outcome.Outcome.TheVariants.{Cancelled};

use crate::runs::run::Run;
use crate::store::account::Account;
use crate::store::in_accounts::finish_in;
use crate::store::rising::Rising;
use crate::store::store::Store;
use crate::values::ids::{ClientId, Number};
use crate::values::outcome::Outcome;
use crate::values::reply::Reply;
use crate::values::stamp::Stamp;
use pq_claims::RunId;
use pq_inputs::Revision;
use pq_rules::{Answer, Rules, Shared};

/// Why a run ends.
#[derive(Drop)]
pub(crate) enum Ending<K, V, M> {
    /// It was overtaken: an edit was accepted since its start, or its client was closed.
    Stopped,
    /// The key of its request has this answer, at the revision of this stamp.
    Answered(Shared<Answer<K, V>>, M),
    /// An allocation failed.
    Starved,
    /// Its client withdrew the request.
    Withdrawn,
}

/// Makes the reply of `outcome` to the request of `run`, which is over, if its client is open.
fn end_run<R: Rules, M: Stamp>(
    accounts: &mut Rising<Account<R, M>>,
    run: Run<R>,
    revision: Revision,
    outcome: Outcome<R::Key, R::Value, M>,
)
    requires fair { IsFair revision outcome }
    requires told { IsTrueReply R.Key.cmp R.machine M.point (record { client = run.client; number = run.number; request = run.request; revision = revision; outcome = outcome }) }
    requires running { (account : AccountView R.Key R.Value M) → found accounts.old.items run.client ≡ Some account → (begun : Begun) × IsStage account run.number (Running begun) }
    ensures open { (account : AccountView R.Key R.Value M) → found accounts.old.items run.client ≡ Some account
        → (begun : Begun) × IsStage account run.number (Running begun)
        × IsSetAt accounts.old accounts.new run.client (Some (with_stage account run.number (Made (record { reply = record { client = run.client; number = run.number; request = run.request; revision = revision; outcome = outcome }; accepted = begun.accepted })))) }
    ensures closed { found accounts.old.items run.client ≡ None → IsSameMap accounts.old accounts.new }
    ensures above { (m : ℕ) → IsAbove m accounts.old.items → IsAbove m accounts.new.items }
{
    let client = run.client;
    let number = run.number;
    let reply = Reply::new(
        ClientId::new(client),
        Number::new(number),
        run.request,
        revision,
        outcome,
    );
    finish_in(accounts, client, number, reply);
}

/// Makes the reply to the request of `run`, which was overtaken, at the revision `seen`, if its client
/// is open.
fn stop_run<R: Rules, M: Stamp>(accounts: &mut Rising<Account<R, M>>, run: Run<R>, seen: Revision)
    requires ruled { R }
    requires overtaken { (run.started < seen) ⊎ (found accounts.old.items run.client ≡ None) }
    requires running { (account : AccountView R.Key R.Value M) → found accounts.old.items run.client ≡ Some account → (begun : Begun) × IsStage account run.number (Running begun) }
    ensures open { (account : AccountView R.Key R.Value M) → found accounts.old.items run.client ≡ Some account
        → (begun : Begun) × IsStage account run.number (Running begun)
        × IsSetAt accounts.old accounts.new run.client (Some (with_stage account run.number (Made (record { reply = record { client = run.client; number = run.number; request = run.request; revision = seen; outcome = Cancelled run.started seen }; accepted = begun.accepted })))) }
    ensures closed { found accounts.old.items run.client ≡ None → IsSameMap accounts.old accounts.new }
    ensures above { (m : ℕ) → IsAbove m accounts.old.items → IsAbove m accounts.new.items }
{
    let started = run.started;
    if started < seen {
        end_run(accounts, run, seen, Outcome::Cancelled { started, seen });
        return;
    }
}

/// Makes the reply to the request of `run`, which ends as `ending` at the revision `now`, if its client
/// is open.
fn make_reply<R: Rules, M: Stamp>(
    accounts: &mut Rising<Account<R, M>>,
    run: Run<R>,
    now: Revision,
    ending: Ending<R::Key, R::Value, M>,
)
    requires due { IsReplyDue R.Key.cmp R.machine M.point now accounts.old.items run ending }
    requires running { (account : AccountView R.Key R.Value M) → found accounts.old.items run.client ≡ Some account → (begun : Begun) × IsStage account run.number (Running begun) }
    ensures open { (account : AccountView R.Key R.Value M) → found accounts.old.items run.client ≡ Some account
        → (begun : Begun) × IsStage account run.number (Running begun)
        × IsSetAt accounts.old accounts.new run.client (Some (with_stage account run.number (Made (record { reply = reply_by run ending now; accepted = begun.accepted })))) }
    ensures closed { found accounts.old.items run.client ≡ None → IsSameMap accounts.old accounts.new }
    ensures above { (m : ℕ) → IsAbove m accounts.old.items → IsAbove m accounts.new.items }
{
    match ending {
        Ending::Stopped => stop_run(accounts, run, now),
        Ending::Answered(answer, stamp) => {
            end_run(accounts, run, now, Outcome::Answered(answer, stamp))
        }
        Ending::Starved => end_run(accounts, run, now, Outcome::Starved),
        Ending::Withdrawn => end_run(accounts, run, now, Outcome::Withdrawn),
    }
}

impl<R: Rules, M: Stamp> Store<R, M> {
    /// Ends `run` as `ending`: takes it out, frees its claims, and makes its reply, if its client is
    /// open. It takes no memory.
    pub(crate) fn end_by(&mut self, run: RunId, ending: Ending<R::Key, R::Value, M>)
        requires may { MayEnd R.Key.cmp (R.machine self.old.rules) M.point self.old run ending }
        ensures rules { self.new.rules ≡ self.old.rules }
        ensures inputs { self.new.inputs ≡ self.old.inputs }
        ensures places { self.new.places ≡ self.old.places }
        ensures moved { Goes R.Key.cmp (R.machine self.old.rules) M.point self.old self.new (EndsBy (answer_by R.Key.cmp (R.machine self.old.rules) M.point) run ending) }
        ensures goes_on { AllGoOn self.old.accounts.items self.new.accounts.items }
        ensures over { (r : ℕ) → found self.new.runs.items r ≡ (if r == run then None else found self.old.runs.items r) }
        ensures numbers { numbers self.new.runs.items ≡ numbers self.old.runs.items }
        ensures counted { (log : Log R.Key) → IsCountedIn R.Key.cmp (R.machine self.old.rules) self.old log → IsCountedIn R.Key.cmp (R.machine self.old.rules) self.new (log_ended_in self.old run ending log) }
    {
        let now = self.inputs.now();
        match self.runs.take(run.number()) {
            Some(taken) => {
                self.claims.release_all(run);
                make_reply(&mut self.accounts, taken, now, ending);
                return;
            }
            None => unreachable!(),
        }
    }
}
