//! Replies that leave the store, clients that close, and rest.
ghost use Rattle.std.specs.Prelude.{◌≡◌, ◌<◌, ◌↔◌, IsTrue, IfSome, IfNone, ℕ, false};
ghost use Rattle.pq_core.specs.Lanes.{ReadyView};
ghost use Rattle.pq_core.specs.Ledger.{Ledger};
ghost use Rattle.pq_core.specs.Moves.{Reaches, NoneWaits, NoneRuns};
ghost use Rattle.pq_core.specs.Told.{Told, Shuts};
ghost use Rattle.pq_core.specs.Stores.{StandsFor, Goes, IsMadeIn, NoneMade, Collects, Hears, OwesIn};
ghost use Rattle.pq_core.specs.Starts.{IsCountedIn, Log};
ghost use Rattle.pq_core.specs.aux.Passing.{made_in};

use crate::store::in_accounts::{collect_in, first_made, has_made_in, owes_in, see_in};
use crate::store::store::Store;
use crate::values::ids::{ClientId, Number};
use crate::values::ready::Ready;
use crate::values::stamp::Stamp;
use pq_rules::Rules;

impl<R: Rules, M: Stamp> Store<R, M> {
    /// Takes out one reply to `client` that is made and was not collected, if the client is open. It
    /// takes no memory.
    pub fn collect(&mut self, client: ClientId) -> Option<Ready<R, M>>
        // `rules`, `inputs`: The rules stay. The inputs stay, but for an edit that is not refused,
        // which makes its change at the next revision.
        ensures rules { self.new.rules ≡ self.old.rules }
        ensures inputs { self.new.inputs ≡ self.old.inputs }
        // The table of memos is the same.
        ensures places { self.new.places ≡ self.old.places }
        // The claims of the runs are the same.
        ensures claims { self.new.claims ≡ self.old.claims }
        // `stands`, `collects`: One made reply of the client leaves the store, in any order; no
        // answer only where there is none. The ledger is the same.
        ensures stands { (l : Ledger R.Key R.Value M (Told R.Key R.Value M)) → StandsFor R.Key.cmp (R.machine self.old.rules) M.point self.old l → StandsFor R.Key.cmp (R.machine self.old.rules) M.point self.new l }
        ensures collects { Collects client result self.old self.new }
        // A log that was counted is counted after the call, and nothing is added.
        ensures counted { (log : Log R.Key) → IsCountedIn R.Key.cmp (R.machine self.old.rules) self.old log → IsCountedIn R.Key.cmp (R.machine self.old.rules) self.new log }
    {
        self.take_made(client)
    }

    /// Takes out one reply as `collect` does. Fewer are made afterwards.
    pub(crate) fn take_made(&mut self, client: ClientId) -> Option<Ready<R, M>>
        ensures rules { self.new.rules ≡ self.old.rules }
        ensures inputs { self.new.inputs ≡ self.old.inputs }
        ensures places { self.new.places ≡ self.old.places }
        ensures claims { self.new.claims ≡ self.old.claims }
        ensures stands { (l : Ledger R.Key R.Value M (Told R.Key R.Value M)) → StandsFor R.Key.cmp (R.machine self.old.rules) M.point self.old l → StandsFor R.Key.cmp (R.machine self.old.rules) M.point self.new l }
        ensures collects { Collects client result self.old self.new }
        ensures counted { (log : Log R.Key) → IsCountedIn R.Key.cmp (R.machine self.old.rules) self.old log → IsCountedIn R.Key.cmp (R.machine self.old.rules) self.new log }
        ensures fewer { IfSome result (λ _. made_in self.new < made_in self.old) }
    {
        let seat = client.number();
        collect_in(&mut self.accounts, seat)
    }

    /// Whether a reply to `client` is made and was not collected.
    pub fn has_made(&self, client: ClientId) -> bool
        // Whether a reply to the client is made and was not collected, both ways.
        ensures { IsTrue result ↔ ((n : ℕ) × (ready : ReadyView R.Key R.Value M) × IsMadeIn self.now client n ready) }
    {
        let seat = client.number();
        has_made_in(&self.accounts, seat)
    }

    /// Whether a request of `client` was accepted whose reply was not acknowledged as put, if the client
    /// is open.
    pub fn owes(&self, client: ClientId) -> bool
        // Whether an accepted request of an open client has a reply that was not acknowledged as put, both ways.
        ensures { IsTrue result ↔ OwesIn self.now client }
    {
        let seat = client.number();
        owes_in(&self.accounts, seat)
    }

    /// A client with a reply that is made and was not collected, if there is one. It looks at each
    /// open client, and takes no memory.
    pub fn next_made(&self) -> Option<ClientId>
        // `some`, `none`: The client that is answered has a reply that is made and was not
        // collected; no answer exactly where no client has one.
        ensures some { IfSome result (λ c. (n : ℕ) × (ready : ReadyView R.Key R.Value M) × IsMadeIn self.now c n ready) }
        ensures none { IfNone result (NoneMade self.now) }
    {
        match first_made(&self.accounts) {
            Some(client) => return Some(ClientId::new(client)),
            None => return None,
        }
    }

    /// Acknowledges that all replies to `client` below `number` were put. It changes nothing where
    /// the client is not open, where a reply below `number` was not collected, and where a higher
    /// number was acknowledged before. It takes no memory.
    pub fn put_seen(&mut self, client: ClientId, number: Number)
        // `rules`, `inputs`: The rules stay. The inputs stay, but for an edit that is not refused,
        // which makes its change at the next revision.
        ensures rules { self.new.rules ≡ self.old.rules }
        ensures inputs { self.new.inputs ≡ self.old.inputs }
        // The table of memos is the same.
        ensures places { self.new.places ≡ self.old.places }
        // `moved`, `made`: `Hears`: All replies below the number are put in the store's ledger, if
        // a higher number was not acknowledged before and each reply that was not acknowledged was
        // collected; else nothing changes.
        ensures moved { (l : Ledger R.Key R.Value M (Told R.Key R.Value M)) → StandsFor R.Key.cmp (R.machine self.old.rules) M.point self.old l
            → Reaches (Hears self.old client number) l (StandsFor R.Key.cmp (R.machine self.old.rules) M.point self.new) }
        ensures made { (c n : ℕ) (ready : ReadyView R.Key R.Value M) → IsMadeIn self.old c n ready ↔ IsMadeIn self.new c n ready }
        // A log that was counted is counted after the call, and nothing is added.
        ensures counted { (log : Log R.Key) → IsCountedIn R.Key.cmp (R.machine self.old.rules) self.old log → IsCountedIn R.Key.cmp (R.machine self.old.rules) self.new log }
    {
        let seat = client.number();
        see_in(&mut self.accounts, seat, number);
    }

    /// Closes `client`. Returns whether it was open. Its replies and the requests that wait are
    /// dropped. It takes no memory, and looks at each client with requests that wait: of a client that
    /// was closed only its runs are kept.
    pub fn close_client(&mut self, client: ClientId) -> bool
        // `rules`, `inputs`: The rules stay. The inputs stay, but for an edit that is not refused,
        // which makes its change at the next revision.
        ensures rules { self.new.rules ≡ self.old.rules }
        ensures inputs { self.new.inputs ≡ self.old.inputs }
        // The table of memos is the same.
        ensures places { self.new.places ≡ self.old.places }
        // `Goes`: As the call of a core: the answer is a move of the store's ledger, in which a
        // reply is ready from its making until it is acknowledged as put. Each reply that became
        // ready is made, what was made is so still while it is ready, and nothing else is.
        ensures moved { Goes R.Key.cmp (R.machine self.old.rules) M.point self.old self.new (Shuts client result) }
        // A log that was counted is counted after the call, and nothing is added.
        ensures counted { (log : Log R.Key) → IsCountedIn R.Key.cmp (R.machine self.old.rules) self.old log → IsCountedIn R.Key.cmp (R.machine self.old.rules) self.new log }
    {
        let seat = client.number();
        match self.accounts.take(seat) {
            Some(_account) => {
                self.opened -= 1;
                self.waiting.drop_client(seat);
                return true;
            }
            None => return false,
        }
    }

    /// Whether a request waits for a run.
    pub fn has_waiting(&self) -> bool
        // The answer is `false` exactly if no request waits.
        ensures { (l : Ledger R.Key R.Value M (Told R.Key R.Value M)) → StandsFor R.Key.cmp (R.machine self.now.rules) M.point self.now l → (result ≡ false) ↔ NoneWaits l }
    {
        !self.waiting.is_empty()
    }

    /// Whether no request waits and no run exists.
    pub fn is_idle(&self) -> bool
        // Whether no request waits and no run exists, both ways.
        ensures { (l : Ledger R.Key R.Value M (Told R.Key R.Value M)) → StandsFor R.Key.cmp (R.machine self.now.rules) M.point self.now l → (IsTrue result ↔ (NoneWaits l × ((run : ℕ) → NoneRuns l run))) }
    {
        if !self.waiting.is_empty() {
            return false;
        }
        self.runs.is_empty()
    }
}
