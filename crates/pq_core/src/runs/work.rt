//! Work: a rule that a run wants carried out, and its result, each with the stamp of the revision at
//! which the work was handed out.
ghost use Rattle.std.specs.Prelude.{◌≡◌, IfOk, IfErr};
ghost use Rattle.pq_core.specs.Points.{Point};

use crate::runs::job::{Job, Made};
use crate::values::stamp::Stamp;
use pq_claims::RunId;
use pq_memo::Why;
use pq_rules::Rules;
use std::alloc::Global;
use std::marker::Model;

/// A rule that is to be started or to go on, for a run. It can be carried out by any thread.
#[derive(Drop)]
pub struct Work<R: Rules, M: Stamp> {
    job: Job<R>,
    stamp: M,
}

/// What carrying work out gave: the turn of the rule.
#[derive(Drop)]
pub struct Done<R: Rules, M: Stamp> {
    pub(crate) made: Made<R>,
    pub(crate) stamp: M,
}

impl<R: Rules, M: Stamp> Model for Work<R, M> {
    ghost use Rattle.std.specs.Prelude.{◌≡◌};
    ghost use Rattle.pq_core.specs.Works.{WorkView};

    ghost Value = { WorkView R R.Key R.Part R.Value };

    ghost view = { λ w. w.job };

    ghost invariant = { λ w. M.point w.stamp ≡ record { revision = w.job.done.started; files = w.job.done.files } };
}

impl<R: Rules, M: Stamp> Model for Done<R, M> {
    ghost use Rattle.std.specs.Prelude.{◌≡◌};
    ghost use Rattle.pq_core.specs.Works.{DoneView};

    ghost Value = { DoneView R R.Key R.Part R.Value };

    ghost view = { λ d. d.made };

    ghost invariant = { λ d. M.point d.stamp ≡ record { revision = d.made.started; files = d.made.files } };
}

impl<R: Rules, M: Stamp> Work<R, M> {
    /// `job` with the stamp of the revision now.
    pub(crate) fn new(job: Job<R>, stamp: M) -> Self
        requires { M.point stamp ≡ record { revision = job.done.started; files = job.done.files } }
        ensures { result ≡ job }
    {
        Work { job, stamp }
    }

    /// The key whose rule it is.
    pub fn key(&self) -> &R::Key
        // The key of the rule.
        ensures { result.now ≡ self.now.done.key }
    {
        self.job.key()
    }

    /// Why the rule is started. It is `None` where the rule goes on.
    pub fn why(&self) -> &Option<Why<R::Key>>
        // Why the rule is started, where it is.
        ensures { result.now ≡ self.now.why }
    {
        self.job.why()
    }

    /// The run that waits for it.
    pub fn run(&self) -> RunId
        // The run that the work is for.
        ensures { result ≡ self.now.done.run }
    {
        self.job.run()
    }

    /// Carries the work out. It takes no lock. If an allocation fails, the work comes back.
    pub fn carry_out(self, alloc: Global) -> Result<Done<R, M>, Work<R, M>>
        // `done`, `back`: The result is the turn of the rule; after an allocation failure the work
        // comes back.
        ensures done { IfOk result (λ done. done ≡ self.done) }
        ensures back { IfErr result (λ work. work ≡ self) }
    {
        let Work { job, stamp } = self;
        match job.carry_out(alloc) {
            Ok(made) => return Ok(Done { made, stamp }),
            Err(job) => return Err(Work { job, stamp }),
        }
    }
}

impl<R: Rules, M: Stamp> Done<R, M> {
    /// The run that waits for it.
    pub fn run(&self) -> RunId
        // The run that the work is for.
        ensures { result ≡ self.now.run }
    {
        self.made.run()
    }

    /// The stamp of the revision at which its work was handed out.
    pub fn stamp(&self) -> &M
        // The stamp of the revision at which the work was handed out, and of the sources then.
        ensures { M.point result.now ≡ record { revision = self.now.started; files = self.now.files } }
    {
        &self.stamp
    }
}
