//! Work: a rule that a run wants carried out, and its result.
//!
//! `Core::look` hands work out, `carry_out` runs the rule without the core, and `Core::give` takes
//! the result. Work and result hold a copy of the rule set. Their types keep that the turn is the
//! one that the rule takes by right answers at the sources of the start.
ghost use Rattle.std.specs.Prelude.{◌≡◌, length, Option, IfOk, IfErr};
ghost use Rattle.pq_core.specs.Works.{IsDue};
ghost use Rattle.pq_core.specs.aux.Tasks.{turn_of};

use pq_claims::RunId;
use pq_inputs::{Inputs, Revision};
use pq_memo::Why;
use pq_rules::{Answer, Rules, Shared, Turn};
use std::alloc::Global;
use std::marker::Model;
use std::snapshot::Snapshot;

/// What a rule is to do.
#[derive(Drop)]
pub(crate) enum Task<K, P, V> {
    /// It is to be started.
    Start,
    /// It is to go on from the part with the answer.
    Advance(P, Shared<Answer<K, V>>),
}

/// A rule that is to be started or to go on, for a run. It can be carried out by any thread.
#[derive(Drop)]
pub(crate) struct Job<R: Rules> {
    rules: R,
    run: RunId,
    started: Revision,
    key: R::Key,
    why: Option<Why<R::Key>>,
    task: Task<R::Key, R::Part, R::Value>,
    reads: usize,
    inputs: Snapshot<Inputs>,
    front: Snapshot<Vec<R::Key>>,
}

/// What carrying work out gave: the turn of the rule.
#[derive(Drop)]
pub(crate) struct Made<R: Rules> {
    pub(crate) rules: R,
    pub(crate) run: RunId,
    pub(crate) started: Revision,
    pub(crate) key: R::Key,
    pub(crate) turn: Turn<R::Key, R::Part, R::Value>,
    pub(crate) reads: usize,
    pub(crate) inputs: Snapshot<Inputs>,
    pub(crate) front: Snapshot<Vec<R::Key>>,
}

impl<R: Rules> Model for Job<R> {
    ghost use Rattle.std.specs.Prelude.{◌≡◌, length};
    ghost use Rattle.pq_core.specs.Works.{WorkView, IsDue};
    ghost use Rattle.pq_core.specs.aux.Tasks.{turn_of};

    ghost Value = { WorkView R R.Key R.Part R.Value };

    ghost view = { λ w. record {
      done = record { rules = w.rules; run = w.run; started = w.started; files = w.inputs.value.files; key = w.key; front = w.front.value.items; turn = turn_of (R.machine w.rules) w.key w.task };
      why = w.why;
    } };

    ghost invariant = { λ w. IsDue R.Key.cmp (R.machine w.rules) w.inputs.value.files w.key w.front.value.items (turn_of (R.machine w.rules) w.key w.task) × (w.reads ≡ length w.front.value.items) };
}

impl<R: Rules> Model for Made<R> {
    ghost use Rattle.std.specs.Prelude.{◌≡◌, length};
    ghost use Rattle.pq_core.specs.Works.{DoneView, IsDue};

    ghost Value = { DoneView R R.Key R.Part R.Value };

    ghost view = { λ d. record { rules = d.rules; run = d.run; started = d.started; files = d.inputs.value.files; key = d.key; front = d.front.value.items; turn = d.turn } };

    ghost invariant = { λ d. IsDue R.Key.cmp (R.machine d.rules) d.inputs.value.files d.key d.front.value.items d.turn × (d.reads ≡ length d.front.value.items) };
}

impl<R: Rules> Job<R> {
    /// The work to do `task` for `key`, whose rule has made the reads `front`. It is of `run`, at
    /// the revision now.
    pub(crate) fn new(
        rules: R,
        run: RunId,
        inputs: &Inputs,
        key: R::Key,
        why: Option<Why<R::Key>>,
        task: Task<R::Key, R::Part, R::Value>,
        front: &Vec<R::Key>,
    ) -> Self
        requires { IsDue R.Key.cmp (R.machine rules) inputs.now.files key front.now.items (turn_of (R.machine rules) key task) }
        ensures { result ≡ record {
          done = record { rules = rules; run = run; started = inputs.now.revision; files = inputs.now.files; key = key; front = front.now.items; turn = turn_of (R.machine rules) key task };
          why = why;
        } }
    {
        let started = inputs.now();
        let reads = front.as_slice().len();
        Job {
            rules,
            run,
            started,
            key,
            why,
            task,
            reads,
            inputs: Snapshot::of(inputs),
            front: Snapshot::of(front),
        }
    }

    /// The key whose rule it is.
    pub(crate) fn key(&self) -> &R::Key
        ensures { result.now ≡ self.now.done.key }
    {
        &self.key
    }

    /// Why the rule is started. It is `None` where the rule goes on.
    pub(crate) fn why(&self) -> &Option<Why<R::Key>>
        ensures { result.now ≡ self.now.why }
    {
        &self.why
    }

    /// The run that waits for it.
    pub(crate) fn run(&self) -> RunId
        ensures { result ≡ self.now.done.run }
    {
        self.run
    }

    /// Carries the work out. It takes no lock. If an allocation fails, the work comes back.
    pub(crate) fn carry_out(self, alloc: Global) -> Result<Made<R>, Job<R>>
        ensures done { IfOk result (λ done. done ≡ self.done) }
        ensures back { IfErr result (λ work. work ≡ self) }
    {
        let Job {
            rules,
            run,
            started,
            key,
            why,
            task,
            reads,
            inputs,
            front,
        } = self;
        match task {
            Task::Start => match rules.start(alloc, &key) {
                Ok(turn) => Ok(Made {
                    rules,
                    run,
                    started,
                    key,
                    turn,
                    reads,
                    inputs,
                    front,
                }),
                Err(_) => Err(Job {
                    rules,
                    run,
                    started,
                    key,
                    why,
                    task: Task::Start,
                    reads,
                    inputs,
                    front,
                }),
            },
            Task::Advance(part, answer) => match rules.advance(alloc, part, answer.get()) {
                Ok(turn) => Ok(Made {
                    rules,
                    run,
                    started,
                    key,
                    turn,
                    reads,
                    inputs,
                    front,
                }),
                Err(part) => Err(Job {
                    rules,
                    run,
                    started,
                    key,
                    why,
                    task: Task::Advance(part, answer),
                    reads,
                    inputs,
                    front,
                }),
            },
        }
    }
}

impl<R: Rules> Made<R> {
    /// The run that waits for it.
    pub(crate) fn run(&self) -> RunId
        ensures { result ≡ self.now.run }
    {
        self.run
    }
}
