//! Passing replies on from a store to the lanes of their clients.
//!
//! The calls of a core that accept, edit, or start and move runs end with `pass_on_all`. While it
//! goes on, each reply that is ready is in its lane or made in the store.
ghost use Rattle.std.specs.Prelude.{◌≡◌, ◌<◌, ℕ};
ghost use Rattle.pq_core.specs.Lanes.{ReadyView};
ghost use Rattle.pq_core.specs.Stores.{IsMadeIn, NoneMade};
ghost use Rattle.pq_core.specs.aux.Passing.{FillsIn, PassesOn, made_in};

use crate::lanes::lane::Lane;
use crate::lanes::outbox::Outbox;
use crate::store::rising::Rising;
use crate::store::store::Store;
use crate::values::ids::ClientId;
use crate::values::ready::Ready;
use crate::values::stamp::Stamp;
use pq_rules::Rules;

/// Fills `ready` into the lane of `client`, if the lane takes it.
fn fill_in<R: Rules, M: Stamp, O: Outbox<R, M> + Drop>(
    lanes: &mut Rising<Lane<R, M, O>>,
    client: ClientId,
    ready: Ready<R, M>,
)
    ensures { FillsIn client ready lanes.old lanes.new }
{
    let _filled = lanes.update(
        client.number(),
        move |lane: &mut Lane<R, M, O>| lane.fill(ready),
    );
}

/// Passes one reply to `client`, which is made, on to its lane.
fn pass_on<R: Rules, M: Stamp, O: Outbox<R, M> + Drop>(
    store: &mut Store<R, M>,
    lanes: &mut Rising<Lane<R, M, O>>,
    client: ClientId,
)
    requires { (n : ℕ) × (ready : ReadyView R.Key R.Value M) × IsMadeIn store.old client n ready }
    ensures passes { PassesOn R.Key.cmp (R.machine store.old.rules) M.point O.puts store.old store.new lanes.old lanes.new }
    ensures fewer { made_in store.new < made_in store.old }
{
    match store.take_made(client) {
        None => unreachable!(),
        Some(ready) => {
            fill_in(lanes, client, ready);
            return;
        }
    }
}

/// Passes each reply that is made on to the lane of its client. It looks at each open client once
/// for each such reply and once more, and takes no memory.
pub(crate) fn pass_on_all<R: Rules, M: Stamp, O: Outbox<R, M> + Drop>(
    store: &mut Store<R, M>,
    lanes: &mut Rising<Lane<R, M, O>>,
)
    ensures passes { PassesOn R.Key.cmp (R.machine store.old.rules) M.point O.puts store.old store.new lanes.old lanes.new }
    ensures none { NoneMade store.new }
{
    'replies: loop {
        match store.next_made() {
            None => return,
            Some(client) => pass_on(store, lanes, client),
        }
    }
}
