//! Opening clients.
ghost use Rattle.std.specs.Prelude.{◌≡◌};
ghost use Rattle.pq_core.specs.Ledger.{Ledger};
ghost use Rattle.pq_core.specs.Told.{Told, OpensNext, IsNextClient};
ghost use Rattle.pq_core.specs.Stores.{StandsFor, Goes};
ghost use Rattle.pq_core.specs.Starts.{IsCountedIn, Log};

use crate::store::account::Account;
use crate::store::store::Store;
use crate::values::fault::OpenFault;
use crate::values::ids::ClientId;
use crate::values::limits::MAX_CLIENTS;
use crate::values::stamp::Stamp;
use pq_rules::Rules;

impl<R: Rules, M: Stamp> Store<R, M> {
    /// The number that the next client gets. Returns `None` where `MAX_CLIENTS` clients are open or
    /// their numbers are used up.
    pub fn next_client(&self) -> Option<ClientId>
        // The number that the next open gives; no answer exactly where an open is refused whatever
        // memory there is.
        ensures { (l : Ledger R.Key R.Value M (Told R.Key R.Value M)) → StandsFor R.Key.cmp (R.machine self.now.rules) M.point self.now l → IsNextClient l result }
    {
        if self.opened >= MAX_CLIENTS || self.clients == u64::MAX {
            return None;
        }
        Some(ClientId::new(self.clients))
    }

    /// Opens a client.
    ///
    /// # Errors
    ///
    /// `TooManyClients` where `MAX_CLIENTS` clients are open or their numbers are used up, else
    /// `Memory`.
    pub fn open_client(&mut self) -> Result<ClientId, OpenFault>
        // `rules`, `inputs`: The rules stay. The inputs stay, but for an edit that is not refused,
        // which makes its change at the next revision.
        ensures rules { self.new.rules ≡ self.old.rules }
        ensures inputs { self.new.inputs ≡ self.old.inputs }
        // The table of memos is the same.
        ensures places { self.new.places ≡ self.old.places }
        // `Goes`: As the call of a core: the answer is a move of the store's ledger, in which a
        // reply is ready from its making until it is acknowledged as put. Each reply that became
        // ready is made, what was made is so still while it is ready, and nothing else is.
        ensures moved { Goes R.Key.cmp (R.machine self.old.rules) M.point self.old self.new (OpensNext result) }
        // A log that was counted is counted after the call, and nothing is added.
        ensures counted { (log : Log R.Key) → IsCountedIn R.Key.cmp (R.machine self.old.rules) self.old log → IsCountedIn R.Key.cmp (R.machine self.old.rules) self.new log }
    {
        if self.opened >= MAX_CLIENTS {
            return Err(OpenFault::TooManyClients);
        }
        if self.clients == u64::MAX {
            return Err(OpenFault::TooManyClients);
        }
        if self.accounts.reserve(1).is_err() {
            return Err(OpenFault::Memory);
        }
        let client = self.clients;
        self.accounts
            .push_reserved(client, Account::new(self.alloc));
        self.opened += 1;
        self.clients += 1;
        Ok(ClientId::new(client))
    }
}
