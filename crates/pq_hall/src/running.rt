//! What a worker does to the store: one step of a run. It takes no lock and waits for nobody.
ghost use Rattle.std.specs.Prelude.{◌≡◌, IsTrue, false};
ghost use Rattle.pq_core.specs.Moves.{IsMade};
ghost use Rattle.pq_core.specs.Starts.{IsCountedIn, Log};
ghost use Rattle.pq_core.specs.Stores.{Goes, HandsOut, HasCause, KeepsMemos, NamesHolder};
ghost use Rattle.pq_hall.specs.Steps.{CountsStep, IsHandOf, Steps, OnMoved};
ghost use Rattle.pq_hall.specs.aux.Ends.{CountsEnd, Ends, IsEnd};
ghost use Rattle.pq_hall.specs.declared.running.Hand.TheVariants.{Look, Made};

use crate::board::Board;
use crate::mark::{BoardName, Mark};
use pq_core::{Done, GiveFault, LookFault, Move, RunId, Stamp, Store, Work, store_is_sound};
use pq_rules::Rules;
use std::alloc::Global;

/// What a worker brings to a run: nothing, the result of its work, or its work, which an allocation
/// kept from being carried out.
#[derive(Drop)]
pub enum Hand<W, D> {
    /// The run takes its next step.
    Look,
    /// The result of its work.
    Made(D),
    /// Its work, as it was handed out.
    Unmade(W),
}

/// What became of it.
#[derive(Drop)]
pub enum Next<W> {
    /// The run made this move.
    Moved(Move<W>),
    /// The run was starved: an allocation failed.
    Starved,
    /// The run is over, or the result is not that of its work. The store is as it was.
    Over,
}

/// Makes the call of `hand` to `store`: `look` of nothing, `give` of a result, `starve` of work that
/// comes back.
///
/// A run is also starved where `look` or `give` answers `Memory`, and where a result is of the
/// revision now and its mark has another index than the mark of the store.
pub fn run_step<R: Rules, J: BoardName>(
    board: &Board<J>,
    store: &mut Store<R, Mark<J>>,
    alloc: Global,
    run: RunId,
    hand: Hand<Work<R, Mark<J>>, Done<R, Mark<J>>>,
) -> Next<Work<R, Mark<J>>>
    // `IsHandOf`: A result is of the rules of the store, and work that comes back is for the run.
    requires { IsHandOf store.old.rules run hand }
    // `rules`, `inputs`: The rules and the inputs stay.
    ensures rules { store.new.rules ≡ store.old.rules }
    ensures inputs { store.new.inputs ≡ store.old.inputs }
    // `Steps`: It is the call of what a worker brings: `look`, `give` or `starve`. `Starved`
    // exactly where the run was starved: an allocation of the call failed, the work came back, or
    // the result is of the revision now with another mark. `Over` leaves the ledger as it was.
    ensures moved { Goes R.Key.cmp (R.machine store.old.rules) (λ m. m.point) store.old store.new (Steps R.Key.cmp (R.machine store.old.rules) (λ m. m.point) store.old.rules run hand result) }
    // `none_lost`, `cause`, `holder`: As `look` and `give` have them: no memo is lost, work that
    // starts a rule names its cause, and a run that is blocked names the holder of the key that it
    // waits for.
    ensures none_lost { KeepsMemos R.Key.cmp store.old store.new }
    // Work that is handed out is of this run, of the rules of the store, at its revision and
    // sources.
    ensures handed { OnMoved (HandsOut store.old run) result }
    ensures cause { OnMoved (HasCause R.Key.cmp (R.machine store.old.rules) store.old) result }
    ensures holder { OnMoved (NamesHolder store.new.claims run) result }
    // `CountsStep`: A log of starts and lost keys that was counted is counted after the step, with
    // what the move adds. A run that was starved adds the keys that it held in the store that the
    // refused call left.
    ensures counted { (log : Log R.Key) → IsCountedIn R.Key.cmp (R.machine store.old.rules) store.old log → CountsStep R.Key.cmp (R.machine store.old.rules) (λ m. m.point) store.old store.new run hand result log }
{
    match hand {
        Hand::Look => return look(store, alloc, run),
        Hand::Made(done) => {
            if !is_of_now(board, store, &done) {
                return starve(store, run);
            }
            return give(store, alloc, run, done);
        }
        Hand::Unmade(_) => return starve(store, run),
    }
}

/// Takes one step of `run`. It is starved where an allocation failed.
fn look<R: Rules, M: Stamp>(store: &mut Store<R, M>, alloc: Global, run: RunId) -> Next<Work<R, M>>
    ensures rules { store.new.rules ≡ store.old.rules }
    ensures inputs { store.new.inputs ≡ store.old.inputs }
    ensures moved { Goes R.Key.cmp (R.machine store.old.rules) M.point store.old store.new (Steps R.Key.cmp (R.machine store.old.rules) M.point store.old.rules run Look result) }
    ensures none_lost { KeepsMemos R.Key.cmp store.old store.new }
    ensures handed { OnMoved (HandsOut store.old run) result }
    ensures cause { OnMoved (HasCause R.Key.cmp (R.machine store.old.rules) store.old) result }
    ensures holder { OnMoved (NamesHolder store.new.claims run) result }
    ensures counted { (log : Log R.Key) → IsCountedIn R.Key.cmp (R.machine store.old.rules) store.old log → CountsStep R.Key.cmp (R.machine store.old.rules) M.point store.old store.new run Look result log }
{
    match store.look(alloc, run) {
        Ok(looked) => return Next::Moved(looked),
        Err(fault) => match fault {
            LookFault::NoRun => return Next::Over,
            LookFault::Memory => return starve(store, run),
        },
    }
}

/// Gives `done` to `run`. It is starved where an allocation failed.
fn give<R: Rules, M: Stamp>(
    store: &mut Store<R, M>,
    alloc: Global,
    run: RunId,
    done: Done<R, M>,
) -> Next<Work<R, M>>
    requires { IsMade store.old.rules store.old.inputs done }
    ensures rules { store.new.rules ≡ store.old.rules }
    ensures inputs { store.new.inputs ≡ store.old.inputs }
    ensures moved { Goes R.Key.cmp (R.machine store.old.rules) M.point store.old store.new (Steps R.Key.cmp (R.machine store.old.rules) M.point store.old.rules run (Made done) result) }
    ensures none_lost { KeepsMemos R.Key.cmp store.old store.new }
    ensures handed { OnMoved (HandsOut store.old run) result }
    ensures cause { OnMoved (HasCause R.Key.cmp (R.machine store.old.rules) store.old) result }
    ensures holder { OnMoved (NamesHolder store.new.claims run) result }
    ensures counted { (log : Log R.Key) → IsCountedIn R.Key.cmp (R.machine store.old.rules) store.old log → CountsStep R.Key.cmp (R.machine store.old.rules) M.point store.old store.new run (Made done) result log }
{
    store_is_sound(store);
    match store.give(alloc, run, done) {
        Ok(given) => return Next::Moved(given),
        Err(refused) => match refused.fault {
            GiveFault::NotThisRun => return Next::Over,
            GiveFault::Memory => return starve(store, run),
        },
    }
}

/// Whether `store` may take `done`: it is of an older revision, or its mark is that of the store.
fn is_of_now<R: Rules, J: BoardName>(
    board: &Board<J>,
    store: &Store<R, Mark<J>>,
    done: &Done<R, Mark<J>>,
) -> bool
    ensures same { IsTrue result → done.now.started ≡ store.now.inputs.revision → done.now.files ≡ store.now.inputs.files }
    ensures now { result ≡ false → done.now.started ≡ store.now.inputs.revision }
{
    let mark = done.stamp();
    let now = store.stamp();
    if mark.revision() != now.revision() {
        return true;
    }
    board.is_same(mark, now)
}

/// Starves `run`.
fn starve<R: Rules, M: Stamp>(store: &mut Store<R, M>, run: RunId) -> Next<Work<R, M>>
    ensures rules { store.new.rules ≡ store.old.rules }
    ensures inputs { store.new.inputs ≡ store.old.inputs }
    ensures places { store.new.places ≡ store.old.places }
    ensures over { IsEnd result }
    ensures moved { Goes R.Key.cmp (R.machine store.old.rules) M.point store.old store.new (Ends run result) }
    ensures counted { (log : Log R.Key) → IsCountedIn R.Key.cmp (R.machine store.old.rules) store.old log → CountsEnd R.Key.cmp (R.machine store.old.rules) store.old store.new run result log }
{
    if store.starve(run) {
        return Next::Starved;
    }
    Next::Over
}
