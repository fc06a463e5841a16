//! The store: what a core knows of clients, requests and runs, without outboxes.
//!
//! A client that is open has an account; the queue holds the numbers of exactly the requests that
//! wait, and hands them out clients in turn; each run keeps its request. Of a closed client only its runs are kept. Accounts and runs are
//! found by their numbers in logarithmic time. `accept` makes the room that `start` and the end of a
//! run need, so that starting, starving, collecting and closing take no memory.
//!
//! A reply that is made stays in the account of its client until it is collected (`collect`), by the
//! thread that fills it into the lane of the client. The account keeps the request until
//! `put_seen` acknowledges that its reply was put.
//!
//! A run claims the keys of its frames. A run that needs a key of another run waits until that run
//! releases it. A run that was overtaken keeps its claims until it is looked at, given to or starved.
//! A ring of keys, in one run or through several, is published by the look that meets it.
//!
//! The store has the stamp of the last revision. Work and answers leave with a copy of it.
//!
//! A run is current while no edit was accepted since its start. The invariant of a current run is
//! that of its frames over the table of memos; it outlasts the steps of other runs.
ghost use Rattle.std.specs.Prelude.{◌≡◌, None};
ghost use Rattle.pq_memo.specs.Table.{memo_at};
ghost use Rattle.pq_core.specs.Points.{point_now};
ghost use Rattle.pq_core.specs.Ledger.{unused};
ghost use Rattle.pq_core.specs.Stores.{StandsFor, NoneMade};
ghost use Rattle.pq_core.specs.Starts.{IsCountedIn, no_log};

use crate::runs::run::Run;
use crate::store::account::Account;
use crate::store::queue::Queue;
use crate::store::rising::Rising;
use crate::values::stamp::Stamp;
use pq_claims::Claims;
use pq_inputs::Inputs;
use pq_memo::Memos;
use pq_rules::Rules;
use std::alloc::Global;
use std::marker::Model;

/// The store of a core. Each call is one step of the whole, and no call waits.
#[derive(Drop)]
pub struct Store<R: Rules, M: Stamp> {
    pub(crate) alloc: Global,
    pub(crate) memos: Memos<R>,
    pub(crate) inputs: Inputs,
    pub(crate) stamp: M,
    pub(crate) accounts: Rising<Account<R, M>>,
    pub(crate) opened: usize,
    pub(crate) clients: u64,
    pub(crate) waiting: Queue,
    pub(crate) runs: Rising<Run<R>>,
    pub(crate) started: u64,
    pub(crate) claims: Claims<R>,
}

impl<R: Rules, M: Stamp> Model for Store<R, M> {
    ghost use Rattle.pq_core.specs.Stores.{StoreView, IsWhole};

    ghost Value = { StoreView R R.Key R.Part R.Value M };

    ghost use Rattle.pq_core.specs.aux.Inside.{store_of};

    ghost view = { store_of };

    ghost invariant = { λ s. IsWhole R.Key.cmp (R.machine s.memos.rules) M.point s.stamp (store_of s) };
}

impl<R: Rules, M: Stamp> Store<R, M> {
    /// A store without clients, over `inputs`, with the stamp of their last revision.
    pub fn new(alloc: Global, rules: R, inputs: Inputs, stamp: M) -> Self
        // The stamp that is handed in is of the last revision of the inputs.
        requires { M.point stamp ≡ point_now inputs }
        // `rules`, `inputs`: The rules and the inputs are those that were handed in.
        ensures rules { result.rules ≡ rules }
        ensures inputs { result.inputs ≡ inputs }
        // `empty`, `stands`: A new store stands for the ledger without clients, and has no memo.
        ensures empty { (key : R.Key) → memo_at R.Key.cmp result.places key ≡ None }
        ensures stands { StandsFor R.Key.cmp (R.machine rules) M.point result (unused inputs) }
        // No reply is made and not collected.
        ensures none { NoneMade result }
        // The empty log of starts and lost keys is counted for a new store.
        ensures counted { IsCountedIn R.Key.cmp (R.machine rules) result no_log }
    {
        let _latest = inputs.now();
        Store {
            alloc,
            memos: Memos::new(alloc, rules),
            inputs,
            stamp,
            accounts: Rising::new(alloc),
            opened: 0,
            clients: 0,
            waiting: Queue::new(alloc),
            runs: Rising::new(alloc),
            started: 0,
            claims: Claims::new(alloc, rules),
        }
    }

    /// The inputs: the sources at each revision.
    pub fn inputs(&self) -> &Inputs
        // The inputs of the core, or of the store.
        ensures { result.now ≡ self.now.inputs }
    {
        &self.inputs
    }

    /// The stamp of the last revision.
    pub fn stamp(&self) -> &M
        // The stamp of the last revision and the sources now.
        ensures { M.point result.now ≡ point_now self.now.inputs }
    {
        &self.stamp
    }
}
