//! pq_hall: halls with workers, call by call.
//!
//! A script has a line `CALL => ANSWER` for each call. Three clients, 0, 1 and 2, are open. A call of a
//! client is `WORD CLIENT REST`.
//!
//! `ask`, `edit`, `withdraw` and `end` post, and answer the number of the receipt; `changes` of
//! `test_support` says how the texts of edits are written. `call` asks with a label of its own, and `say`
//! posts what a message asks for. `carry` carries a post. `take` takes the reply of the next receipt,
//! and `text` answers its text. `asks`, `carries` and `takes` repeat these, and `edits` posts and
//! carries that many edits of one text. `begin` begins a carry on a thread of its own, `early` says
//! whether it goes on after a pause, and `over` waits for its answer. `drop` gives up the end whose posts
//! are carried, and `deaf` the end that takes. `again` closes a client, joins another one in its place,
//! and closes the first one once more.
//!
//! A call of the hall is `WORD REST`. `mark` says whether a revision has a mark. `crowd` joins that many
//! clients, and answers how many could join. `held 0` waits until the gate holds the first work on
//! `held.proto`. `free 0` lets that go on, and says whether it had waited for too long. `held 1` and
//! `free 1` do so with `slow.proto`. `rest` lets other threads go on for a while. `shut` shuts the hall,
//! and `left` waits until no worker works. A script of which a call does not return in time fails.
//!
//! Modules: `answers` (what a hall answers, as text), `calls` (the calls, row by row), `gate` (the gate,
//! and what threads wait for), `guests` (the clients), `stage` (halls, as a script sees them). Of rows:
//! `away` (a client that goes away at each line), `closings` (hall and clients that end), `edits`,
//! `numbers` (what each client gets), `requests`, `stored` (the stored session), `windows` (clients
//! that owe many replies), `workers` (what goes on while work is held).
mod answers;
mod away;
mod calls;
mod closings;
mod edits;
mod gate;
mod guests;
mod numbers;
mod requests;
mod stage;
mod stored;
mod windows;
mod workers;

ghost use Rattle.std.specs.Prelude.{◌≡◌};

use crate::checks::check_row_count;
use crate::halls::calls::run_calls;
use crate::halls::gate::{Held, Latch};
use crate::halls::stage::Texts;
use pq_hall::{BoardName, Hall, HallRules, NewBoard, OneValue, Strict};
use pq_inputs::Inputs;
use std::marker::Brand;
use std::process::Abort;
use std::sync::Wait;
use std::thread::Threads;
use std::time::Clock;

/// Makes the calls of `rows` in a hall of `rules` over a new vector of marks. The rows are owned: a call
/// that picks a name passes no `&str`.
fn check_hall<S, J, R>(rt: &R, rules: S, board: NewBoard, workers: u8, rows: String)
where
    S: Texts + OneValue + Send + Sync + 'static,
    S::Key: Send + Sync,
    S::Value: Send + Sync,
    S::Part: Send,
    J: BoardName + Send + Sync + 'static,
    R: Abort + AllocGlobal + Clock + Threads + Wait + Copy + Drop + Send + Sync + 'static,
    requires { board ≡ J.vector }
{
    let inputs = Inputs::new(rt.alloc()).expect(rt, "memory");
    let made: Result<Hall<S, J, R>, _> = Hall::new(rt, rt.alloc(), rules, board, inputs);
    let hall = made.expect(rt, "memory");
    let latch = Latch::new();
    let gate = Held { rt, latch: &latch };
    run_calls(rt, &hall, &gate, &latch, workers, rows.as_str());
}

/// Makes the calls of `rows`, which has `count` lines, in a hall with `workers` workers.
pub(crate) fn check_calls<R>(rt: &R, count: usize, workers: u8, rows: &str)
where
    R: Abort + AllocGlobal + Clock + Threads + Wait + Copy + Drop + Send + Sync + 'static,
{
    check_row_count(rt, count, rows);
    let rows = String::from_str(rt.alloc(), rows).expect(rt, "memory");
    let board = NewBoard::new(rt.alloc()).expect(rt, "memory");
    check_hall::<HallRules<Strict>, Brand, R>(rt, HallRules::new(), board, workers, rows);
}

/// Makes the calls of `rows`, which has `count` lines, with one worker and then with two.
pub(crate) fn check_both<R>(rt: &R, count: usize, rows: &str)
where
    R: Abort + AllocGlobal + Clock + Threads + Wait + Copy + Drop + Send + Sync + 'static,
{
    check_calls(rt, count, 1, rows);
    check_calls(rt, count, 2, rows);
}
