//! Replies that leave a core, clients that close, and rest.
ghost use Rattle.std.specs.Prelude.{◌≡◌, ◌↔◌, IsTrue, IfSome, IfNone, Some, None};
ghost use Rattle.pq_core.specs.Lanes.{Tray, LetsOutOf, TakesOutOf};
ghost use Rattle.pq_core.specs.aux.Rising.{found};
ghost use Rattle.pq_core.specs.aux.Changes.{IsSetAt, IsSameMap};
ghost use Rattle.pq_core.specs.Ledger.{Ledger};
ghost use Rattle.pq_core.specs.Moves.{Reaches, Releases, Closes, TakesOut, IsAtRest};
ghost use Rattle.pq_core.specs.Cores.{StandsFor};
ghost use Rattle.pq_core.specs.Starts.{IsCountedFor, Log};
ghost use Rattle.pq_core.specs.aux.Resting.{HasReadyLane};

use crate::lanes::cores::Core;
use crate::lanes::lane::Lane;
use crate::lanes::outbox::{Outbox, Taking};
use crate::store::rising::Rising;
use crate::values::fault::Memory;
use crate::values::ids::{ClientId, Number};
use crate::values::moves::Released;
use crate::values::stamp::Stamp;
use pq_rules::Rules;

/// Whether the next reply to an open client is in its lane, and its last release was not refused.
fn has_ready<R: Rules, M: Stamp, O: Outbox<R, M> + Drop>(lanes: &Rising<Lane<R, M, O>>) -> bool
    ensures { IsTrue result ↔ HasReadyLane lanes.now }
{
    let places = lanes.places();
    for i in 0..places.len() {
        if let Some(lane) = &places[i].value {
            if lane.is_ready() && !lane.is_refused() {
                return true;
            }
        }
    }
    false
}

/// Releases the lane of `client`, if there is one. Returns what came of it, and the number of its
/// next reply.
fn release_in<R: Rules, M: Stamp, O: Outbox<R, M> + Drop>(
    lanes: &mut Rising<Lane<R, M, O>>,
    client: ClientId,
) -> Option<(Released, Number)>
    ensures some { IfSome result (λ r. (tray : Tray R.Key R.Value M O) × (found lanes.old.items client ≡ Some tray) × (after : Tray R.Key R.Value M O) × LetsOutOf O.puts O.takes O.was_full O.was_gone r.0 tray after × (r.1 ≡ after.put) × IsSetAt lanes.old lanes.new client (Some after)) }
    ensures none { IfNone result ((found lanes.old.items client ≡ None) × IsSameMap lanes.old lanes.new) }
{
    lanes.update(client.number(), |lane: &mut Lane<R, M, O>| {
        let released = lane.release();
        (released, lane.put())
    })
}

/// Takes from the lane of `client`, if there is one.
fn take_in<R: Rules, M: Stamp, O: Taking<R, M> + Drop>(
    lanes: &mut Rising<Lane<R, M, O>>,
    client: ClientId,
) -> Option<Result<bool, Memory>>
    ensures some { IfSome result (λ taken. (tray : Tray R.Key R.Value M O) × (found lanes.old.items client ≡ Some tray) × (after : Tray R.Key R.Value M O) × TakesOutOf O.puts O.takes taken tray after × IsSetAt lanes.old lanes.new client (Some after)) }
    ensures none { IfNone result ((found lanes.old.items client ≡ None) × IsSameMap lanes.old lanes.new) }
{
    lanes.update(client.number(), |lane: &mut Lane<R, M, O>| lane.take())
}

impl<R: Rules, M: Stamp, O: Outbox<R, M> + Drop> Core<R, M, O> {
    /// Puts the next reply to `client` into its outbox, if it is ready. It takes no memory.
    pub fn release(&mut self, client: ClientId) -> Released
        // `rules`, `inputs`: The rules stay. The inputs stay, but for an edit that is not refused,
        // which makes its change at the next revision.
        ensures rules { self.new.rules ≡ self.old.rules }
        ensures inputs { self.new.inputs ≡ self.old.inputs }
        // The table of memos is the same.
        ensures places { self.new.places ≡ self.old.places }
        // `Releases`: The next reply enters the outbox if it is ready; or it stays ready, as `Full`
        // only where the outbox was full, and as `Gone` only where its other end was gone; or
        // nothing changes.
        ensures moved { (l : Ledger R.Key R.Value M O) → StandsFor R.Key.cmp (R.machine self.old.rules) M.point O.puts self.old l
            → Reaches (Releases O.puts O.takes O.was_full O.was_gone client result) l (StandsFor R.Key.cmp (R.machine self.old.rules) M.point O.puts self.new) }
        // A log that was counted is counted after the call, and nothing is added.
        ensures counted { (log : Log R.Key) → IsCountedFor R.Key.cmp (R.machine self.old.rules) self.old log → IsCountedFor R.Key.cmp (R.machine self.old.rules) self.new log }
    {
        match release_in(&mut self.lanes, client) {
            None => return Released::Nothing,
            Some((released, next)) => match released {
                Released::Put(number) => {
                    self.store.put_seen(client, next);
                    return Released::Put(number);
                }
                Released::Full => return Released::Full,
                Released::Gone => return Released::Gone,
                Released::Nothing => return Released::Nothing,
            },
        }
    }

    /// Closes `client`. Returns its outbox the first time. Replies that are ready and requests that
    /// wait are dropped. It takes no memory, and looks at each request that waits: of a client that
    /// was closed only its runs are kept.
    pub fn close_client(&mut self, client: ClientId) -> Option<O>
        // `rules`, `inputs`: The rules stay. The inputs stay, but for an edit that is not refused,
        // which makes its change at the next revision.
        ensures rules { self.new.rules ≡ self.old.rules }
        ensures inputs { self.new.inputs ≡ self.old.inputs }
        // The table of memos is the same.
        ensures places { self.new.places ≡ self.old.places }
        // `Closes`: The outbox comes back the first time. What waits or is ready is dropped.
        ensures moved { (l : Ledger R.Key R.Value M O) → StandsFor R.Key.cmp (R.machine self.old.rules) M.point O.puts self.old l
            → Reaches (Closes client result) l (StandsFor R.Key.cmp (R.machine self.old.rules) M.point O.puts self.new) }
        // A log that was counted is counted after the call, and nothing is added.
        ensures counted { (log : Log R.Key) → IsCountedFor R.Key.cmp (R.machine self.old.rules) self.old log → IsCountedFor R.Key.cmp (R.machine self.old.rules) self.new log }
    {
        match self.lanes.take(client.number()) {
            None => return None,
            Some(taken) => {
                let mut lane = taken;
                let _was_open = self.store.close_client(client);
                return lane.close();
            }
        }
    }

    /// Whether nothing is to be done: no request waits, no run exists, and no open client's next
    /// reply is ready unless its last `release` answered `Full` or `Gone`. It looks at each open
    /// client.
    pub fn is_at_rest(&self) -> bool
        // Whether nothing is to be done, both ways.
        ensures { (l : Ledger R.Key R.Value M O) → StandsFor R.Key.cmp (R.machine self.now.rules) M.point O.puts self.now l → (IsTrue result ↔ IsAtRest O.puts l) }
    {
        if !self.store.is_idle() {
            return false;
        }
        !has_ready(&self.lanes)
    }
}

impl<R: Rules, M: Stamp, O: Taking<R, M> + Drop> Core<R, M, O> {
    /// Takes the first reply that was put to the open `client` and not taken. Returns whether there
    /// was one.
    pub fn take(&mut self, client: ClientId) -> Result<bool, Memory>
        // `rules`, `inputs`: The rules stay. The inputs stay, but for an edit that is not refused,
        // which makes its change at the next revision.
        ensures rules { self.new.rules ≡ self.old.rules }
        ensures inputs { self.new.inputs ≡ self.old.inputs }
        // The table of memos is the same.
        ensures places { self.new.places ≡ self.old.places }
        // `TakesOut`: The first reply put and not taken is taken.
        ensures moved { (l : Ledger R.Key R.Value M O) → StandsFor R.Key.cmp (R.machine self.old.rules) M.point O.puts self.old l
            → Reaches (TakesOut O.puts O.takes client result) l (StandsFor R.Key.cmp (R.machine self.old.rules) M.point O.puts self.new) }
        // A log that was counted is counted after the call, and nothing is added.
        ensures counted { (log : Log R.Key) → IsCountedFor R.Key.cmp (R.machine self.old.rules) self.old log → IsCountedFor R.Key.cmp (R.machine self.old.rules) self.new log }
    {
        match take_in(&mut self.lanes, client) {
            None => return Ok(false),
            Some(taken) => return taken,
        }
    }
}
