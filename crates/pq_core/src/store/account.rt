//! An account: what the store knows of an open client.
//!
//! The requests of a client are numbered from 0. An account keeps the stages of those whose reply was
//! not yet acknowledged as put, and an index of the replies that are made. Each call takes constant
//! time, but for `see`, which is linear in the requests that it frees.
//! Only `accept` allocates.
ghost use Rattle.std.specs.Prelude.{◌≡◌, ◌+◌, ◌-◌, ◌<◌, ◌≤◌, ◌⊎◌, ◌^◌, ◌↔◌, ℕ, drop, length, slice_get, Some, IsTrue, IfOk, IfErr, OnErr, OnOk};
ghost use Rattle.std.specs.VecDeque.{deque_len, deque_capacity};
ghost use Rattle.pq_core.specs.Truth.{IsTrueReply};
ghost use Rattle.pq_core.specs.Moves.{window};
ghost use Rattle.pq_core.specs.Accounts.{no_requests, next_of, IsStage, with_stage, with_request, first_stage, Collects, Sees};
ghost use Rattle.pq_core.specs.aux.Accounts.{noted, HasMade};
ghost use Rattle.pq_core.specs.aux.Withdrawing.{IsOwedIn, IsOwedStage, IsWithdrawnIn};
ghost use Rattle.pq_core.specs.declared.values.request.Request.{Request};
ghost use Rattle.pq_core.specs.declared.store.account.Begun.{Begun};
ghost use Rattle.pq_core.specs.declared.store.account.Stage.TheVariants.{Waiting, Running, Made, Collected};

use crate::calls::withdrawing::Owed;
use crate::runs::run::Run;
use crate::store::rising::Rising;
use crate::values::ids::{ClientId, Number};
use crate::values::label::{Label, is_same_label};
use crate::values::limits::WINDOW;
use crate::values::outcome::Outcome;
use crate::values::ready::Ready;
use crate::values::reply::Reply;
use crate::values::request::{Request, Want};
use crate::values::stamp::Stamp;
use pq_claims::RunId;
use pq_inputs::Revision;
use pq_rules::Rules;
use std::alloc::{AllocError, Global};
use std::collections::VecDeque;
use std::marker::Model;
use std::mem;

/// The run of a request, by its number, and the revision at which the request was accepted.
#[derive(Clone, Copy)]
pub(crate) struct Begun {
    run: u64,
    accepted: Revision,
}

/// How far a request is that was accepted, as the store knows. `T` is a reply that is made.
#[derive(Drop)]
pub(crate) enum Stage<K, T> {
    /// It waits for a run. It was accepted at this revision.
    Waiting(Request<K>, Revision),
    /// It is in this run, which keeps the request.
    Running(Begun),
    /// Its reply is made, and was not collected.
    Made(T),
    /// Its reply was collected.
    Collected,
}

/// What the store knows of an open client.
#[derive(Drop)]
pub(crate) struct Account<R: Rules, M: Stamp> {
    seen: u64,
    stages: VecDeque<Stage<R::Key, Ready<R, M>>>,
    made: VecDeque<u64>,
}

impl<R: Rules, M: Stamp> Model for Account<R, M> {
    ghost use Rattle.std.specs.VecDeque.{deque_capacity};
    ghost use Rattle.pq_core.specs.Accounts.{AccountView};
    ghost use Rattle.pq_core.specs.aux.Accounts.{AccountKept};

    ghost Value = { AccountView R.Key R.Value M };

    ghost view = { λ a. record { seen = a.seen; stages = a.stages.items } };

    ghost invariant = { λ a. AccountKept (record { seen = a.seen; stages = a.stages.items }) a.made.items (deque_capacity a.made) };
}

impl<K: Drop, T: Drop> Stage<K, T> {
    /// Hands out the request, which waits. It is in the run `run` afterwards.
    fn start(&mut self, run: u64) -> Request<K>
        requires { (request : Request K) × (accepted : ℕ) × (self.old ≡ Waiting request accepted) }
        ensures { (accepted : ℕ) × (self.old ≡ Waiting result accepted) × (self.new ≡ Running (record { run = run; accepted = accepted })) }
    {
        match mem::replace(self, Stage::Collected) {
            Stage::Waiting(request, accepted) => {
                *self = Stage::Running(Begun { run, accepted });
                request
            }
            _ => unreachable!(),
        }
    }

    /// The run of the request, which is in a run, and the revision of its acceptance.
    fn begun(&self) -> Begun
        requires { (begun : Begun) × (self.now ≡ Running begun) }
        ensures { self.now ≡ Running result }
    {
        match self {
            Stage::Running(begun) => *begun,
            _ => unreachable!(),
        }
    }

    /// Hands out the request, which waits, and the revision of its acceptance.
    fn wait_over(&mut self) -> (Request<K>, Revision)
        requires { (request : Request K) × (accepted : ℕ) × (self.old ≡ Waiting request accepted) }
        ensures { self.old ≡ Waiting result.0 result.1 }
    {
        match mem::replace(self, Stage::Collected) {
            Stage::Waiting(request, accepted) => (request, accepted),
            _ => unreachable!(),
        }
    }

    /// Makes the reply.
    fn make(&mut self, ready: T)
        ensures { self.new ≡ Made ready }
    {
        *self = Stage::Made(ready);
    }

    /// Hands out the reply, which is made. It is collected afterwards.
    fn collect(&mut self) -> T
        requires { (ready : T) × (self.old ≡ Made ready) }
        ensures was { self.old ≡ Made result }
        ensures is { self.new ≡ Collected }
    {
        match mem::replace(self, Stage::Collected) {
            Stage::Made(ready) => ready,
            _ => unreachable!(),
        }
    }

    /// Whether the reply was collected.
    fn is_collected(&self) -> bool
        ensures { IsTrue result ↔ (self.now ≡ Collected) }
    {
        match self {
            Stage::Waiting(..) => false,
            Stage::Running(_) => false,
            Stage::Made(_) => false,
            Stage::Collected => true,
        }
    }
}

impl<R: Rules, M: Stamp> Account<R, M> {
    /// A client without requests.
    pub(crate) fn new(alloc: Global) -> Self
        ensures { result ≡ no_requests }
    {
        Account {
            seen: 0,
            stages: VecDeque::new(alloc),
            made: VecDeque::new(alloc),
        }
    }

    /// Whether `WINDOW` requests were accepted and not acknowledged, or the numbers are used up.
    pub(crate) fn is_full(&self) -> bool
        ensures { IsTrue result ↔ ((window ≤ length self.now.stages) ⊎ (2 ^ 64 ≤ next_of self.now + 1)) }
    {
        self.stages.len() >= WINDOW || self.seen + self.stages.len() as u64 == u64::MAX
    }

    /// The number of the next request.
    pub(crate) fn next_number(&self) -> Number
        ensures { result ≡ next_of self.now }
    {
        Number::new(self.seen + self.stages.len() as u64)
    }

    /// Accepts `request`. If an allocation fails, it comes back.
    pub(crate) fn accept(
        &mut self,
        client: ClientId,
        request: Request<R::Key>,
        revision: Revision,
    ) -> Result<Number, Request<R::Key>>
        requires ruled { R }
        requires numbers { next_of self.old + 1 < 2 ^ 64 }
        ensures accepted { IfOk result (λ n. (n ≡ next_of self.old) × (self.new ≡ with_request self.old (first_stage client n request revision request.want))) }
        ensures refused { OnErr result (self.new ≡ self.old) }
        ensures back { IfErr result (λ back. back ≡ request) }
    {
        let number = self.next_number();
        match make_room(&mut self.stages, &mut self.made) {
            Err(_failure) => return Err(request),
            Ok(()) => {
                let stage = accepted_stage(client, number, request, revision);
                note_made(&mut self.made, number.number(), &stage);
                self.stages.push_back_reserved(stage);
                return Ok(number);
            }
        }
    }

    /// Hands out the request `number`, which waits. It is in the run `run` afterwards.
    pub(crate) fn start(&mut self, number: u64, run: u64) -> Request<R::Key>
        requires { (request : Request R.Key) × (accepted : ℕ) × IsStage self.old number (Waiting request accepted) }
        ensures { (accepted : ℕ) × IsStage self.old number (Waiting result accepted) × (self.new ≡ with_stage self.old number (Running (record { run = run; accepted = accepted }))) }
    {
        self.stages[(number - self.seen) as usize].start(run)
    }

    /// Makes `reply` to the request `number`, which is in a run.
    pub(crate) fn finish(&mut self, number: u64, reply: Reply<R::Key, R::Value, M>)
        requires running { (begun : Begun) × IsStage self.old number (Running begun) }
        requires number { reply.number ≡ number }
        requires right { IsTrueReply R.Key.cmp R.machine M.point reply }
        ensures { (begun : Begun) × IsStage self.old number (Running begun) × (self.new ≡ with_stage self.old number (Made (record { reply = reply; accepted = begun.accepted }))) }
    {
        let place = (number - self.seen) as usize;
        let begun = self.stages[place].begun();
        self.made.push_back_reserved(number);
        self.stages[place].make(Ready::new(reply, begun.accepted));
    }

    /// Makes the reply to the request `number` of `client`, which waits: it was withdrawn at the
    /// revision `now`.
    pub(crate) fn withdraw(&mut self, client: ClientId, number: u64, now: Revision)
        requires ruled { R }
        requires waits { (request : Request R.Key) × (accepted : ℕ) × IsStage self.old number (Waiting request accepted) }
        ensures { IsWithdrawnIn client number now self.old self.new }
    {
        let place = (number - self.seen) as usize;
        let (request, accepted) = self.stages[place].wait_over();
        let reply = Reply::new(
            client,
            Number::new(number),
            request,
            now,
            Outcome::Withdrawn,
        );
        self.made.push_back_reserved(number);
        self.stages[place].make(Ready::new(reply, accepted));
    }

    /// The number of the first request whose reply was not acknowledged as put.
    pub(crate) fn seen(&self) -> u64
        ensures { result ≡ self.now.seen }
    {
        self.seen
    }

    /// What has to happen before the reply to the request `number` is made, if the request has the
    /// label `label`. A request in a run is that of one of `runs`.
    pub(crate) fn owed(&self, runs: &Rising<Run<R>>, number: u64, label: &Label) -> Owed
        ensures { IsOwedIn self.now runs.now.items number label.now result }
    {
        if number < self.seen {
            return Owed::Nothing;
        }
        match self.stages.get((number - self.seen) as usize) {
            None => return Owed::Nothing,
            Some(stage) => return owed_at(stage, runs, label),
        }
    }

    /// Whether a request was accepted and its reply not acknowledged.
    pub(crate) fn owes(&self) -> bool
        ensures { IsTrue result ↔ (0 < length self.now.stages) }
    {
        !self.stages.is_empty()
    }

    /// Whether a reply is made and was not collected.
    pub(crate) fn has_made(&self) -> bool
        ensures { IsTrue result ↔ HasMade self.now }
    {
        !self.made.is_empty()
    }

    /// Takes out one reply that is made. It takes no memory.
    pub(crate) fn collect(&mut self) -> Option<Ready<R, M>>
        ensures { Collects result self.old self.new }
    {
        match self.made.pop_front() {
            None => return None,
            Some(number) => {
                return Some(self.stages[(number - self.seen) as usize].collect());
            }
        }
    }

    /// Acknowledges that all numbers below `number` were put. It changes nothing where a reply below
    /// `number` was not collected, and where a higher number was acknowledged before. It takes no
    /// memory.
    pub(crate) fn see(&mut self, number: Number)
        ensures { Sees number self.old self.new }
    {
        let below = number.number();
        if below < self.seen {
            return;
        }
        let more = below - self.seen;
        if more > self.stages.len() as u64 {
            return;
        }
        let more = more as usize;
        if !are_collected(&self.stages, more) {
            return;
        }
        drop_first(&mut self.stages, more);
        self.seen = below;
    }
}

/// What has to happen before the reply to a request in `stage` is made, if the request has the label
/// `label`.
fn owed_at<R: Rules, T: Drop>(
    stage: &Stage<R::Key, T>,
    runs: &Rising<Run<R>>,
    label: &Label,
) -> Owed
    ensures { IsOwedStage runs.now.items label.now stage.now result }
{
    match stage {
        Stage::Waiting(request, _) => {
            if is_same_label(&request.label, label) {
                return Owed::Waits;
            }
            return Owed::Nothing;
        }
        Stage::Running(begun) => match runs.get(begun.run) {
            None => return Owed::Nothing,
            Some(run) => {
                if is_same_label(&run.request.label, label) {
                    return Owed::Runs(RunId::new(begun.run));
                }
                return Owed::Nothing;
            }
        },
        Stage::Made(_) => return Owed::Nothing,
        Stage::Collected => return Owed::Nothing,
    }
}

/// Makes room for one more request, and for the numbers of all.
fn make_room<K: Drop, T: Drop>(
    stages: &mut VecDeque<Stage<K, T>>,
    made: &mut VecDeque<u64>,
) -> Result<(), AllocError>
    ensures stages { stages.new.items ≡ stages.old.items }
    ensures made { made.new.items ≡ made.old.items }
    ensures grows { deque_capacity made.old ≤ deque_capacity made.new }
    ensures room { OnOk result ((deque_len stages.new < deque_capacity stages.new) × (deque_len made.new + deque_len stages.new < deque_capacity made.new)) }
{
    stages.reserve(1)?;
    made.reserve(stages.len() + 1)?;
    Ok(())
}

/// Adds `number` to `made` if the reply is made.
fn note_made<K, T>(made: &mut VecDeque<u64>, number: u64, stage: &Stage<K, T>)
    requires { deque_len made.old < deque_capacity made.old }
    ensures items { made.new.items ≡ noted made.old.items number stage.now }
    ensures capacity { deque_capacity made.new ≡ deque_capacity made.old }
{
    match stage {
        Stage::Waiting(..) => return,
        Stage::Running(_) => return,
        Stage::Made(_) => made.push_back_reserved(number),
        Stage::Collected => return,
    }
}

/// The stage of the request `number` at its acceptance.
fn accepted_stage<R: Rules, M: Stamp>(
    client: ClientId,
    number: Number,
    request: Request<R::Key>,
    revision: Revision,
) -> Stage<R::Key, Ready<R, M>>
    requires ruled { R }
    requires below { number + 1 < 2 ^ 64 }
    ensures { result ≡ first_stage client number request revision request.want }
{
    match &request.want {
        Want::Demand(_) => return Stage::Waiting(request, revision),
        Want::Fixed(_) => {
            let reply = Reply::plain(client, number, request, revision);
            return Stage::Made(Ready::new(reply, revision));
        }
    }
}

/// Whether the replies to the first `count` of `stages` were collected.
fn are_collected<K: Drop, T: Drop>(stages: &VecDeque<Stage<K, T>>, count: usize) -> bool
    requires { count ≤ deque_len stages.now }
    ensures { IsTrue result ↔ ((i : ℕ) → i < count → slice_get stages.now.items i ≡ Some Collected) }
{
    for i in 0..count {
        if !stages[i].is_collected() {
            return false;
        }
    }
    true
}

/// Drops the first `count` of `stages`.
fn drop_first<K: Drop, T: Drop>(stages: &mut VecDeque<Stage<K, T>>, count: usize)
    ensures { stages.new.items ≡ drop count stages.old.items }
{
    for i in 0..count {
        drop_one(stages);
    }
}

/// Drops the first of `stages`.
fn drop_one<K: Drop, T: Drop>(stages: &mut VecDeque<Stage<K, T>>)
    ensures { stages.new.items ≡ drop 1 stages.old.items }
{
    let _first = stages.pop_front();
}
