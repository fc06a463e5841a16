//! The core: a store, and a lane for each open client.
//!
//! The store knows the clients, their requests, the inputs, the memos and the runs. The replies that
//! a call makes are collected from the store and filled into the lanes of their clients in the same
//! call. A lane puts its replies into its outbox in the order of their numbers; each reply that was
//! put is acknowledged to the store. So between two calls each reply that is ready is in its lane.
ghost use Rattle.std.specs.Prelude.{◌≡◌, None};
ghost use Rattle.pq_memo.specs.Table.{memo_at};
ghost use Rattle.pq_core.specs.Points.{point_now};
ghost use Rattle.pq_core.specs.Ledger.{unused};
ghost use Rattle.pq_core.specs.Cores.{StandsFor};
ghost use Rattle.pq_core.specs.Starts.{IsCountedFor, no_log};

use crate::lanes::lane::Lane;
use crate::lanes::outbox::Outbox;
use crate::store::rising::Rising;
use crate::store::store::Store;
use crate::values::stamp::Stamp;
use pq_inputs::Inputs;
use pq_rules::Rules;
use std::alloc::Global;
use std::marker::Model;

/// The core of the server. Each call is one step of the whole, and no call waits.
#[derive(Drop)]
pub struct Core<R: Rules, M: Stamp, O: Outbox<R, M>> {
    pub(crate) store: Store<R, M>,
    pub(crate) lanes: Rising<Lane<R, M, O>>,
}

impl<R: Rules, M: Stamp, O: Outbox<R, M>> Model for Core<R, M, O> {
    ghost use Rattle.pq_core.specs.Cores.{CoreView, core_of, IsWhole};

    ghost Value = { CoreView R R.Key R.Part R.Value M O };

    ghost view = { λ c. core_of c.store c.lanes };

    ghost invariant = { λ c. IsWhole R.Key.cmp (R.machine c.store.rules) M.point O.puts (core_of c.store c.lanes) };
}

impl<R: Rules, M: Stamp, O: Outbox<R, M> + Drop> Core<R, M, O> {
    /// A core without clients, over `inputs`, with the stamp of their last revision.
    pub fn new(alloc: Global, rules: R, inputs: Inputs, stamp: M) -> Self
        // The stamp that is handed in is of the last revision of the inputs.
        requires { M.point stamp ≡ point_now inputs }
        // `rules`, `inputs`: The rules and the inputs are those that were handed in.
        ensures rules { result.rules ≡ rules }
        ensures inputs { result.inputs ≡ inputs }
        // `empty`, `stands`: A new core stands for the ledger without clients, and has no memo.
        ensures empty { (key : R.Key) → memo_at R.Key.cmp result.places key ≡ None }
        ensures stands { StandsFor R.Key.cmp (R.machine rules) M.point O.puts result (unused inputs) }
        // The empty log of starts and lost keys is counted for a new core.
        ensures counted { IsCountedFor R.Key.cmp (R.machine rules) result no_log }
    {
        Core {
            store: Store::new(alloc, rules, inputs, stamp),
            lanes: Rising::new(alloc),
        }
    }

    /// The inputs: the sources at each revision.
    pub fn inputs(&self) -> &Inputs
        // The inputs of the core, or of the store.
        ensures { result.now ≡ self.now.inputs }
    {
        self.store.inputs()
    }

    /// The stamp of the last revision.
    pub fn stamp(&self) -> &M
        // The stamp of the last revision and the sources now.
        ensures { M.point result.now ≡ point_now self.now.inputs }
    {
        self.store.stamp()
    }
}
