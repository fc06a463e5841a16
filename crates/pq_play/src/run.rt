//! A core under a list of events.
ghost use Rattle.std.specs.Prelude.{◌≡◌, IfOk, map};
ghost use Rattle.pq_core.specs.Cores.{StandsFor};
ghost use Rattle.pq_play.specs.World.{World, beginning, replies_of, own_point};
ghost use Rattle.pq_play.specs.Steps.{LeadsTo};
ghost use Rattle.pq_play.specs.Results.{played_of};
ghost use Rattle.pq_play.specs.aux.Seats.{seat_accepted, seat_taken};
ghost use Rattle.pq_play.specs.aux.Running.{done_of};
ghost use Rattle.pq_play.specs.aux.Playing.{Stood, Led, GathersAll};

use crate::carry::{ListCore, Sheet, carry, close};
use crate::event::Event;
use crate::played::Played;
use crate::seat::Seat;
use pq_core::{ClientId, Core, Memory, PlainStamp};
use pq_inputs::{Inputs, Revision};
use pq_rules::Rules;
use std::alloc::Global;
use std::collections::BTreeMap;

/// Carries the events out, one after the other.
fn carry_all<R: Rules>(
    alloc: Global,
    rules: &R,
    core: &mut ListCore<R>,
    sheet: &mut Sheet<R>,
    room: usize,
    events: &[Event<R::Key>],
) -> Result<(), Memory>
    requires { (w : World R.Key R.Value) × Stood R.Key.cmp (R.machine rules.now) rules.now core.old.rules (StandsFor R.Key.cmp (R.machine rules.now) own_point replies_of core.old) w sheet.old.seats.items (done_of sheet.old.dones) }
    ensures { IfOk result (λ _. (w : World R.Key R.Value) → Stood R.Key.cmp (R.machine rules.now) rules.now core.old.rules (StandsFor R.Key.cmp (R.machine rules.now) own_point replies_of core.old) w sheet.old.seats.items (done_of sheet.old.dones) → Led room R.Key.cmp (R.machine rules.now) rules.now events.now w core.new.rules (StandsFor R.Key.cmp (R.machine rules.now) own_point replies_of core.new) sheet.new.seats.items (done_of sheet.new.dones)) }
{
    'events: for event in events {
        carry(alloc, rules, core, sheet, room, event)?;
    }
    Ok(())
}

/// Closes all clients, so that their outboxes are kept.
fn close_all<R: Rules>(rules: &R, core: &mut ListCore<R>, sheet: &mut Sheet<R>)
    requires { (w : World R.Key R.Value) × Stood R.Key.cmp (R.machine rules.now) rules.now core.old.rules (StandsFor R.Key.cmp (R.machine rules.now) own_point replies_of core.old) w sheet.old.seats.items (done_of sheet.old.dones) }
    ensures { (w : World R.Key R.Value) → Stood R.Key.cmp (R.machine rules.now) rules.now core.old.rules (StandsFor R.Key.cmp (R.machine rules.now) own_point replies_of core.old) w sheet.old.seats.items (done_of sheet.old.dones) → GathersAll w sheet.new.seats.items }
{
    let count = sheet.seats.len();
    'clients: for place in 0..count {
        close(rules, core, sheet, ClientId::new(place as u64));
    }
}

/// The requests of the clients, and the replies that were taken out of the outboxes that are kept.
fn lists_of<K: Drop, V: Drop>(
    alloc: Global,
    seats: Vec<Seat<K, V>>,
    revision: Revision,
) -> Result<Played<K, V>, Memory>
    ensures { IfOk result (λ played. played ≡ record { accepted = map seat_accepted seats.items; taken = map seat_taken seats.items; revision = revision }) }
{
    let mut accepted = Vec::new(alloc);
    let mut taken = Vec::new(alloc);
    'seats: for seat in seats {
        let (requests, replies) = seat.into_lists(alloc);
        accepted.push(requests)?;
        taken.push(replies)?;
    }
    Ok(Played {
        accepted,
        taken,
        revision,
    })
}

/// Plays events on a fresh core, without files or clients. Its clients get outboxes for `room`
/// replies. All clients are closed at the end.
///
/// An event on a client or a run that does not exist is passed over.
///
/// # Errors
///
/// `Memory` where an allocation fails.
pub fn play<R: Rules>(
    alloc: Global,
    rules: R,
    room: usize,
    events: &[Event<R::Key>],
) -> Result<Played<R::Key, R::Value>, Memory>
    // For every list of events on a fresh core, without files or clients: the events lead, one step
    // each, to a world whose accepted requests, replies taken and last revision are those that it
    // returns. After each step the headline holds. Each reply that a client took as the i-th names
    // the client, the number i and the request accepted as the i-th, and is right. What a closed
    // client's outbox has stays.
    ensures { IfOk result (λ played. (w : World R.Key R.Value) × LeadsTo room R.Key.cmp (R.machine rules) rules events.now beginning w × (played ≡ played_of w)) }
{
    let fresh = Inputs::new(alloc)?;
    let stamp = PlainStamp::of(alloc, &fresh)?;
    let mut core: ListCore<R> = Core::new(alloc, rules, fresh, stamp);
    let mut sheet = Sheet {
        seats: Vec::new(alloc),
        dones: BTreeMap::new(alloc),
    };
    carry_all(alloc, &rules, &mut core, &mut sheet, room, events)?;
    let revision = core.inputs().now();
    close_all(&rules, &mut core, &mut sheet);
    let Sheet { seats, .. } = sheet;
    let played = lists_of(alloc, seats, revision)?;
    Ok(played)
}
