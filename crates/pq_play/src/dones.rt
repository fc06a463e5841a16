//! The results of work that is out, by their runs. That of a run that is over can stay: it is given to
//! nobody.
ghost use Rattle.std.specs.Prelude.{◌≡◌, OnOk, None, Some};
ghost use Rattle.pq_play.specs.aux.Running.{done_of, IsPut, KeepsMove};

use pq_core::{Done, Memory, Move, PlainStamp, RunId, Work};
use pq_rules::Rules;
use std::alloc::Global;
use std::collections::BTreeMap;

/// The results of the work that was handed out, by the numbers of their runs.
pub(crate) type Dones<R> = BTreeMap<u64, Done<R, PlainStamp>>;

/// Keeps the result of work.
pub(crate) fn keep_done<R: Rules>(
    dones: &mut Dones<R>,
    done: Done<R, PlainStamp>,
) -> Result<(), Memory>
    ensures { OnOk result (IsPut (done_of dones.old) (done_of dones.new) done.run (Some done)) }
{
    match dones.insert(done.run().number(), done) {
        Ok(_) => Ok(()),
        Err(_) => Err(Memory),
    }
}

/// Takes the result that is kept for `run`, if there is one.
pub(crate) fn take_done<R: Rules>(dones: &mut Dones<R>, run: RunId) -> Option<Done<R, PlainStamp>>
    ensures value { result ≡ done_of dones.old run }
    ensures gone { IsPut (done_of dones.old) (done_of dones.new) run None }
{
    dones.remove(&run.number())
}

/// Keeps what a step of `run` came to: work that is handed out is carried out, and of a run that
/// stopped nothing is kept.
pub(crate) fn keep_move<R: Rules>(
    alloc: Global,
    dones: &mut Dones<R>,
    run: RunId,
    step: Move<Work<R, PlainStamp>>,
) -> Result<(), Memory>
    ensures { OnOk result (KeepsMove run step (done_of dones.old) (done_of dones.new)) }
{
    match step {
        Move::Carry(work) => match work.carry_out(alloc) {
            Ok(done) => keep_done(dones, done),
            Err(_) => Err(Memory),
        },
        Move::Blocked(_) => Ok(()),
        Move::Stepped => Ok(()),
        Move::Answered => Ok(()),
        Move::Stopped => {
            take_done(dones, run);
            Ok(())
        }
    }
}
