//! Accepting requests of clients.
ghost use Rattle.std.specs.Prelude.{◌≡◌, ◌≤◌, ◌+◌, IfErr, Some, IfSome, IfNone, OnOk, length, true, false, IsTrue, ◌↔◌};
ghost use Rattle.pq_core.specs.Kept.{IsDemand};
ghost use Rattle.pq_core.specs.Moves.{Accepts};
ghost use Rattle.pq_core.specs.Stores.{Goes};
ghost use Rattle.pq_core.specs.Told.{told_puts};
ghost use Rattle.pq_core.specs.Starts.{IsCountedIn, Log};
ghost use Rattle.pq_core.specs.aux.Changes.{IsSameMap};
ghost use Rattle.pq_core.specs.aux.Accepting.{MayNot, MayPost};

use crate::store::in_accounts::accept_in;
use crate::store::queue::Queue;
use crate::store::rising::Rising;
use crate::store::store::Store;
use crate::values::fault::{AcceptFault, AcceptRefused, Memory};
use crate::values::ids::{ClientId, Number};
use crate::values::request::{Request, Want};
use crate::values::stamp::Stamp;
use pq_rules::Rules;

/// Makes room for one more request of `client` that waits, and for the runs of all that may wait.
fn make_room<T: Drop>(waiting: &mut Queue, client: u64, runs: &mut Rising<T>) -> Result<(), Memory>
    ensures queue { waiting.new.seats ≡ waiting.old.seats }
    ensures runs { IsSameMap runs.old runs.new }
    ensures room { OnOk result (waiting.new.ready ≡ Some client) }
    ensures run_room { OnOk result (length waiting.new.seats + 1 ≤ runs.new.room) }
{
    waiting.reserve(client)?;
    runs.reserve(waiting.len() + 1)?;
    Ok(())
}

/// Whether the answer of a key is wanted.
fn is_demand<K>(want: &Want<K>) -> bool
    ensures { IsTrue result ↔ IsDemand want.now }
{
    match want {
        Want::Demand(_) => true,
        Want::Fixed(_) => false,
    }
}

impl<R: Rules, M: Stamp> Store<R, M> {
    ghost use Rattle.pq_core.specs.Stores.{held};

    /// The reason to refuse a request of `client` whatever memory there is.
    fn accept_refusal(&self, client: u64) -> Option<AcceptFault>
        ensures refused { IfSome result (λ fault. MayNot (held self.now) client fault) }
        ensures may { IfNone result (MayPost (held self.now) client) }
    {
        if client >= self.clients {
            return Some(AcceptFault::NoClient);
        }
        match self.accounts.get(client) {
            Some(account) => {
                if account.is_full() {
                    return Some(AcceptFault::WindowFull);
                }
                return None;
            }
            None => return Some(AcceptFault::Closed),
        }
    }

    /// Accepts `request` of `client`. The reply to a fixed text is ready at once.
    ///
    /// # Errors
    ///
    /// `NoClient`, `Closed`, `WindowFull`, `Memory`, in this order. The request comes back.
    pub fn accept(
        &mut self,
        client: ClientId,
        request: Request<R::Key>,
    ) -> Result<Number, AcceptRefused<R::Key>>
        // `rules`, `inputs`: The rules stay. The inputs stay, but for an edit that is not refused,
        // which makes its change at the next revision.
        ensures rules { self.new.rules ≡ self.old.rules }
        ensures inputs { self.new.inputs ≡ self.old.inputs }
        // The table of memos is the same.
        ensures places { self.new.places ≡ self.old.places }
        // A refusal hands back what was handed in.
        ensures back { IfErr result (λ refused. refused.request ≡ request) }
        // `Goes`: As the call of a core: the answer is a move of the store's ledger, in which a
        // reply is ready from its making until it is acknowledged as put. Each reply that became
        // ready is made, what was made is so still while it is ready, and nothing else is.
        ensures moved { Goes R.Key.cmp (R.machine self.old.rules) M.point self.old self.new (Accepts told_puts client request result) }
        // A log that was counted is counted after the call, and nothing is added.
        ensures counted { (log : Log R.Key) → IsCountedIn R.Key.cmp (R.machine self.old.rules) self.old log → IsCountedIn R.Key.cmp (R.machine self.old.rules) self.new log }
    {
        if let Some(fault) = self.accept_refusal(client.number()) {
            return Err(AcceptRefused { fault, request });
        }
        if make_room(&mut self.waiting, client.number(), &mut self.runs).is_err() {
            let fault = AcceptFault::Memory;
            return Err(AcceptRefused { fault, request });
        }
        let revision = self.inputs.now();
        let waits = is_demand(&request.want);
        match accept_in(&mut self.accounts, client, request, revision) {
            Ok(number) => {
                if waits {
                    self.waiting.push_reserved(client.number(), number.number());
                    return Ok(number);
                }
                return Ok(number);
            }
            Err(request) => {
                let fault = AcceptFault::Memory;
                return Err(AcceptRefused { fault, request });
            }
        }
    }
}
