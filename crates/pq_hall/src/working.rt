//! What a worker does: it takes the steps of runs, and carries their work out.
ghost use Rattle.std.specs.Prelude.{◌≡◌};
ghost use Rattle.pq_hall.specs.aux.Ends.{IsFor};

use crate::hall::Hall;
use crate::mark::{BoardName, Mark};
use crate::one_value::OneValue;
use crate::running::{Hand, Next, run_step};
use crate::state::{Client, Collected, State, Task};
use pq_core::{Done, Move, RunId, Stamp, Work};
use pq_rules::Rules;
use std::sync::Wait;

/// What each work passes before it is carried out, while no lock is held.
pub trait Gate<R: Rules> {
    /// Returns once `work` may be carried out.
    fn pass<M: Stamp>(&self, work: &Work<R, M>);
}

/// The most steps of a run that are taken under one hold of the lock.
const STEPS: u8 = 16;

/// What a worker brings to its run.
type Brought<R, J> = Hand<Work<R, Mark<J>>, Done<R, Mark<J>>>;

/// The most steps of a run that a porter takes after a request, beside the first.
const AHEAD: u8 = 3;

/// What a worker leaves the store's lock with, or a porter that has taken the first steps of a run.
#[derive(Drop)]
pub(crate) enum Turn<R: Rules, J: BoardName> {
    /// Work, and the client of its run.
    Carry(Client, Work<R, Mark<J>>),
    /// The run, which goes on.
    GoesOn(Task),
    /// What was collected for the client of a run that is over.
    Reply(Client, Collected<R, J>),
    /// Nothing: the run is over without a reply, or is parked.
    Free,
    /// The hall is shut.
    Shut,
}

/// What the first steps of a run came to that a porter took.
#[derive(Drop)]
pub(crate) enum Ahead<R: Rules, J: BoardName> {
    /// What was collected for the client of a run that is over.
    Reply(Client, Collected<R, J>),
    /// Nothing that others wait for.
    Nothing,
    /// A worker is to go on.
    Wake,
}

/// Takes one turn after the other, from `first` on, until there is none. A loop over a `Turn` would be
/// proved with the drops of all its parts, so this one is over any type.
fn go_round<T: Drop, H: Wait, F: Fn(T) -> Option<T>>(rt: &H, first: T, follow: F)
    requires { F.IsAlwaysCallable follow }
{
    let mut turn = first;
    for _ in rt.forever() {
        match follow(turn) {
            Some(next) => turn = next,
            None => return,
        }
    }
}

impl<R: Rules + OneValue, J: BoardName, H: Wait + Copy + Drop> Hall<R, J, H> {
    /// Runs a worker until the hall is shut. It holds no lock while it carries work out.
    pub fn work<G: Gate<R>>(&self, rt: &H, gate: &G) {
        go_round(rt, Turn::Free, |turn: Turn<R, J>| -> Option<Turn<R, J>> {
            self.follow(rt, gate, turn)
        });
    }

    /// Does what `turn` leaves to do without the lock, and takes the next turn. Returns `None` where
    /// the hall is shut.
    fn follow<G: Gate<R>>(&self, rt: &H, gate: &G, turn: Turn<R, J>) -> Option<Turn<R, J>> {
        match turn {
            Turn::Carry(client, work) => return Some(self.carry_work(rt, gate, client, work)),
            Turn::GoesOn(task) => return Some(self.go_on(rt, task, Hand::Look)),
            Turn::Reply(client, collected) => return Some(self.hand_over(rt, client, collected)),
            Turn::Free => return Some(self.begin(rt)),
            Turn::Shut => return None,
        }
    }

    /// Delivers what is made to `client`, of which `collected` is the first, and takes the next
    /// turn.
    fn hand_over(&self, rt: &H, client: Client, collected: Collected<R, J>) -> Turn<R, J> {
        self.deliver_all(rt, client, collected);
        self.begin(rt)
    }

    /// Carries out `work`, of a run of `client`, and brings the run what that gives.
    fn carry_work<G: Gate<R>>(
        &self,
        rt: &H,
        gate: &G,
        client: Client,
        work: Work<R, Mark<J>>,
    ) -> Turn<R, J> {
        let run = work.run().number();
        let task = Task { run, client };
        gate.pass(&work);
        match work.carry_out(self.alloc) {
            Ok(done) => return self.go_on(rt, task, Hand::Made(done)),
            Err(work) => return self.go_on(rt, task, Hand::Unmade(work)),
        }
    }

    /// Takes a run, once there is one, and its first steps.
    fn begin(&self, rt: &H) -> Turn<R, J> {
        let mut state = self.state.lock(rt);
        for _ in rt.forever() {
            if state.is_shut {
                return Turn::Shut;
            }
            if let Some(turn) = state.left.take() {
                return turn;
            }
            if let Some(task) = state.pick() {
                return self.advance(&mut state, task, Hand::Look, STEPS);
            }
            state.idle = state.idle.saturating_add(1);
            state = self.work_came.wait(rt, state);
            state.idle = state.idle.saturating_sub(1);
        }
        unreachable!()
    }

    /// Brings `brought` to the run of `task`, and takes its next steps.
    fn go_on(&self, rt: &H, task: Task, brought: Brought<R, J>) -> Turn<R, J>
        requires { IsFor task.run brought }
    {
        let mut state = self.state.lock(rt);
        if state.is_shut {
            return Turn::Shut;
        }
        self.advance(&mut state, task, brought, STEPS)
    }

    /// Takes at most `left + 1` steps of the run of `task` under the lock.
    fn advance(
        &self,
        state: &mut State<R, J>,
        task: Task,
        brought: Brought<R, J>,
        left: u8,
    ) -> Turn<R, J>
        requires { IsFor task.run brought }
    {
        let run = RunId::new(task.run);
        match run_step(&self.board, &mut state.store, self.alloc, run, brought) {
            Next::Moved(moved) => match moved {
                Move::Carry(work) => return Turn::Carry(task.client, work),
                Move::Blocked(_) => return self.park(state, task),
                Move::Stepped => {
                    self.wake_parked(state);
                    if left == 0 {
                        return Turn::GoesOn(task);
                    }
                    return self.advance(state, task, Hand::Look, left - 1);
                }
                Move::Answered => return self.ended(state, task),
                Move::Stopped => return self.ended(state, task),
            },
            Next::Starved => return self.ended(state, task),
            Next::Over => return Turn::Free,
        }
    }

    /// Starts a run for a request that waits, and takes its first steps. A run that is not over then, and
    /// is not parked, is left to a worker, with its work if it has some. No step carries work out. While a
    /// run is left, no other is started.
    pub(crate) fn run_ahead(&self, state: &mut State<R, J>) -> Ahead<R, J> {
        if state.left.is_some() {
            return Ahead::Wake;
        }
        let Some(task) = state.start() else {
            return Ahead::Nothing;
        };
        match self.advance(state, task, Hand::Look, AHEAD) {
            Turn::Reply(client, collected) => Ahead::Reply(client, collected),
            Turn::Free => Ahead::Nothing,
            Turn::Shut => Ahead::Wake,
            Turn::Carry(client, work) => {
                state.left = Some(Turn::Carry(client, work));
                Ahead::Wake
            }
            Turn::GoesOn(task) => {
                state.left = Some(Turn::GoesOn(task));
                Ahead::Wake
            }
        }
    }

    /// Parks the run of `task`, or keeps it where there is no memory for that.
    fn park(&self, state: &mut State<R, J>, task: Task) -> Turn<R, J> {
        if state.park(task) {
            return Turn::Free;
        }
        Turn::GoesOn(task)
    }

    /// Collects a reply to the client of the run of `task`, which is over.
    fn ended(&self, state: &mut State<R, J>, task: Task) -> Turn<R, J> {
        self.wake_parked(state);
        Turn::Reply(task.client, state.collect(task.client))
    }
}
