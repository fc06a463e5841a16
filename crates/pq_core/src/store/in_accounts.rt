//! What calls do to the account of one client.
ghost use Rattle.std.specs.Prelude.{◌≡◌, ◌≤◌, ◌<◌, ◌+◌, ◌^◌, ◌↔◌, ℕ, IsTrue, IfOk, IfErr, IfSome, IfNone, OnErr, length, Some, None};
ghost use Rattle.pq_core.specs.Truth.{IsTrueReply};
ghost use Rattle.pq_core.specs.Accounts.{AccountView, next_of, IsStage, with_stage, with_request, first_stage, Collects, Sees};
ghost use Rattle.pq_core.specs.aux.Rising.{found, IsAbove};
ghost use Rattle.pq_core.specs.aux.Changes.{IsSetAt, IsSameMap};
ghost use Rattle.pq_core.specs.aux.Accounts.{HasMade};
ghost use Rattle.pq_core.specs.aux.Queue.{WaitsIn};
ghost use Rattle.pq_core.specs.aux.Withdrawing.{IsWithdrawnIn};
ghost use Rattle.pq_core.specs.declared.values.request.Request.{Request};
ghost use Rattle.pq_core.specs.declared.store.account.Begun.{Begun};
ghost use Rattle.pq_core.specs.declared.store.account.Stage.TheVariants.{Waiting, Running, Made};

use crate::store::account::Account;
use crate::store::rising::Rising;
use crate::values::ids::{ClientId, Number};
use crate::values::ready::Ready;
use crate::values::reply::Reply;
use crate::values::request::Request;
use crate::values::stamp::Stamp;
use pq_inputs::Revision;
use pq_rules::Rules;

/// Accepts `request` in the account of `client`. It comes back if an allocation fails.
pub(crate) fn accept_in<R: Rules, M: Stamp>(
    accounts: &mut Rising<Account<R, M>>,
    client: ClientId,
    request: Request<R::Key>,
    revision: Revision,
) -> Result<Number, Request<R::Key>>
    requires ruled { R }
    requires open { (account : AccountView R.Key R.Value M) × (found accounts.old.items client ≡ Some account) }
    requires numbers { (account : AccountView R.Key R.Value M) → found accounts.old.items client ≡ Some account → next_of account + 1 < 2 ^ 64 }
    ensures accepted { IfOk result (λ n. (account : AccountView R.Key R.Value M) × (found accounts.old.items client ≡ Some account) × (n ≡ next_of account)
        × IsSetAt accounts.old accounts.new client (Some (with_request account (first_stage client n request revision request.want)))) }
    ensures refused { OnErr result (IsSameMap accounts.old accounts.new) }
    ensures back { IfErr result (λ back. back ≡ request) }
{
    match accounts.update(
        client.number(),
        move |account: &mut Account<R, M>| account.accept(client, request, revision),
    ) {
        Some(accepted) => accepted,
        None => unreachable!(),
    }
}

/// Hands out the request `number` of `client`, which waits. It is in the run `run` afterwards.
pub(crate) fn start_in<R: Rules, M: Stamp>(
    accounts: &mut Rising<Account<R, M>>,
    client: u64,
    number: u64,
    run: u64,
) -> Request<R::Key>
    requires { (request : Request R.Key) × WaitsIn accounts.old.items client number request }
    ensures { (w : WaitsIn accounts.old.items client number result) × IsSetAt accounts.old accounts.new client (Some (with_stage w.account number (Running (record { run = run; accepted = w.accepted })))) }
{
    match accounts.update(
        client,
        |account: &mut Account<R, M>| account.start(number, run),
    ) {
        Some(request) => request,
        None => unreachable!(),
    }
}

/// Makes `reply` the reply to the request `number` of `client`, if the client is open. The request
/// is in a run.
pub(crate) fn finish_in<R: Rules, M: Stamp>(
    accounts: &mut Rising<Account<R, M>>,
    client: u64,
    number: u64,
    reply: Reply<R::Key, R::Value, M>,
)
    requires running { (account : AccountView R.Key R.Value M) → found accounts.old.items client ≡ Some account → (begun : Begun) × IsStage account number (Running begun) }
    requires number { reply.number ≡ number }
    requires right { IsTrueReply R.Key.cmp R.machine M.point reply }
    ensures open { (account : AccountView R.Key R.Value M) → found accounts.old.items client ≡ Some account
        → (begun : Begun) × IsStage account number (Running begun) × IsSetAt accounts.old accounts.new client (Some (with_stage account number (Made (record { reply = reply; accepted = begun.accepted })))) }
    ensures closed { found accounts.old.items client ≡ None → IsSameMap accounts.old accounts.new }
    ensures above { (m : ℕ) → IsAbove m accounts.old.items → IsAbove m accounts.new.items }
{
    accounts.update(
        client,
        move |account: &mut Account<R, M>| account.finish(number, reply),
    );
}

/// Makes the reply to the request `number` of `client`, which waits: it was withdrawn at the revision
/// `now`.
pub(crate) fn withdraw_in<R: Rules, M: Stamp>(
    accounts: &mut Rising<Account<R, M>>,
    client: ClientId,
    number: u64,
    now: Revision,
)
    requires ruled { R }
    requires waits { (request : Request R.Key) × WaitsIn accounts.old.items client number request }
    ensures { (account : AccountView R.Key R.Value M) × (after : AccountView R.Key R.Value M) × (found accounts.old.items client ≡ Some account)
        × IsWithdrawnIn client number now account after × IsSetAt accounts.old accounts.new client (Some after) }
{
    accounts.update(
        client.number(),
        |account: &mut Account<R, M>| account.withdraw(client, number, now),
    );
}

/// The first client with a reply that is made and was not collected, if there is one.
pub(crate) fn first_made<R: Rules, M: Stamp>(accounts: &Rising<Account<R, M>>) -> Option<u64>
    ensures some { IfSome result (λ c. (account : AccountView R.Key R.Value M) × (found accounts.now.items c ≡ Some account) × HasMade account) }
    ensures none { IfNone result ((c : ℕ) (account : AccountView R.Key R.Value M) → found accounts.now.items c ≡ Some account → HasMade account → ⊥) }
{
    let places = accounts.places();
    for i in 0..places.len() {
        let place = &places[i];
        if let Some(account) = &place.value {
            if account.has_made() {
                return Some(place.number);
            }
        }
    }
    None
}

/// Whether a reply to `client` is made and was not collected.
pub(crate) fn has_made_in<R: Rules, M: Stamp>(accounts: &Rising<Account<R, M>>, client: u64) -> bool
    ensures { IsTrue result ↔ ((account : AccountView R.Key R.Value M) × (found accounts.now.items client ≡ Some account) × HasMade account) }
{
    match accounts.get(client) {
        Some(account) => return account.has_made(),
        None => return false,
    }
}

/// Whether a request of `client` was accepted and its reply not acknowledged, if the client is open.
pub(crate) fn owes_in<R: Rules, M: Stamp>(accounts: &Rising<Account<R, M>>, client: u64) -> bool
    ensures { IsTrue result ↔ ((account : AccountView R.Key R.Value M) × (found accounts.now.items client ≡ Some account) × (0 < length account.stages)) }
{
    match accounts.get(client) {
        Some(account) => return account.owes(),
        None => return false,
    }
}

/// Takes out one reply to `client` that is made, if the client is open.
pub(crate) fn collect_in<R: Rules, M: Stamp>(
    accounts: &mut Rising<Account<R, M>>,
    client: u64,
) -> Option<Ready<R, M>>
    ensures open { (account : AccountView R.Key R.Value M) → found accounts.old.items client ≡ Some account
        → (after : AccountView R.Key R.Value M) × Collects result account after × IsSetAt accounts.old accounts.new client (Some after) }
    ensures closed { found accounts.old.items client ≡ None → (result ≡ None) × IsSameMap accounts.old accounts.new }
{
    match accounts.update(client, |account: &mut Account<R, M>| account.collect()) {
        Some(ready) => return ready,
        None => return None,
    }
}

/// Acknowledges to the account of `client`, if the client is open, that all numbers below `number`
/// were put.
pub(crate) fn see_in<R: Rules, M: Stamp>(
    accounts: &mut Rising<Account<R, M>>,
    client: u64,
    number: Number,
)
    ensures open { (account : AccountView R.Key R.Value M) → found accounts.old.items client ≡ Some account
        → (after : AccountView R.Key R.Value M) × Sees number account after × IsSetAt accounts.old accounts.new client (Some after) }
    ensures closed { found accounts.old.items client ≡ None → IsSameMap accounts.old accounts.new }
{
    accounts.update(client, |account: &mut Account<R, M>| account.see(number));
}
