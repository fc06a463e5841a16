//! What the threads of a script tell each other, and a gate that holds work until a script opens it.
use crate::checks::check_number;
use crate::halls::stage::Texts;
use pq_core::{Stamp, Work};
use pq_hall::Gate;
use std::process::Abort;
use std::sync::atomic::{AtomicBool, AtomicUsize, Ordering};
use std::thread;
use std::time::{Clock, Duration};

/// The turns for which a gate holds work at most, and for which a script waits for another thread.
const TURNS: u32 = 100_000;

/// The milliseconds that a call may take at least.
const PATIENCE: u32 = 40_000;

/// The milliseconds of a rest. A carry that goes on after it counts as one that waits.
const PAUSE: u64 = 100;

/// What the threads of a script tell each other.
#[derive(Drop)]
pub(crate) struct Latch {
    /// Where the first work on `held.proto` is held.
    first: Stop,
    /// Where the first work on `slow.proto` is held.
    second: Stop,
    /// Whether the last carry that has a thread of its own has returned.
    pub(crate) has_returned: AtomicBool,
    /// The count of workers that work.
    pub(crate) working: AtomicUsize,
    /// The number of the row whose call is made, from 1 on.
    pub(crate) row: AtomicUsize,
    /// Whether the script is over.
    pub(crate) is_over: AtomicBool,
}

/// Where work is held.
#[derive(Drop)]
pub(crate) struct Stop {
    /// Whether work came.
    has_come: AtomicBool,
    /// Whether it may go on.
    is_open: AtomicBool,
    /// Whether it went on since that took too long.
    gave_up: AtomicBool,
}

impl Latch {
    /// The latch of a script at its start.
    pub(crate) fn new() -> Latch {
        Latch {
            first: Stop::new(),
            second: Stop::new(),
            has_returned: AtomicBool::new(false),
            working: AtomicUsize::new(0),
            row: AtomicUsize::new(0),
            is_over: AtomicBool::new(false),
        }
    }

    /// The stop that `word` numbers.
    pub(crate) fn stop(&self, word: &str) -> &Stop {
        if word == "0" {
            return &self.first;
        }
        &self.second
    }
}

impl Stop {
    /// A stop to which no work came.
    fn new() -> Stop {
        Stop {
            has_come: AtomicBool::new(false),
            is_open: AtomicBool::new(false),
            gave_up: AtomicBool::new(false),
        }
    }

    /// Holds the first work that comes, until it may go on.
    fn hold(&self, rt: &impl Clock) {
        if self.has_come.swap(true, Ordering::SeqCst) {
            return;
        }
        for _ in 0..TURNS {
            if self.is_open.load(Ordering::SeqCst) {
                return;
            }
            thread::sleep(rt, Duration::from_micros(100));
        }
        self.gave_up.store(true, Ordering::SeqCst);
    }

    /// Lets the work go on. Returns whether it had waited for too long.
    pub(crate) fn free(&self) -> bool {
        self.is_open.store(true, Ordering::SeqCst);
        self.gave_up.load(Ordering::SeqCst)
    }

    /// Waits until work is held. Returns whether it is.
    pub(crate) fn is_held(&self, rt: &impl Clock) -> bool {
        for _ in 0..TURNS {
            if self.has_come.load(Ordering::SeqCst) {
                return true;
            }
            thread::sleep(rt, Duration::from_micros(100));
        }
        false
    }
}

/// A gate that holds the first work on `held.proto`, and the first on `slow.proto`.
#[derive(Drop)]
pub(crate) struct Held<'a, R> {
    pub(crate) rt: &'a R,
    pub(crate) latch: &'a Latch,
}

impl<S: Texts, R: Clock> Gate<S> for Held<'_, R> {
    fn pass<M: Stamp>(&self, work: &Work<S, M>) {
        if S::is_parse(work.key(), "held.proto") {
            self.latch.first.hold(self.rt);
        }
        if S::is_parse(work.key(), "slow.proto") {
            self.latch.second.hold(self.rt);
        }
    }
}

/// Waits until no worker works. Returns whether none does.
pub(crate) fn have_left(rt: &impl Clock, latch: &Latch) -> bool {
    for _ in 0..TURNS {
        if latch.working.load(Ordering::SeqCst) == 0 {
            return true;
        }
        thread::sleep(rt, Duration::from_micros(100));
    }
    false
}

/// Lets other threads go on for a while.
pub(crate) fn pause(rt: &impl Clock) {
    thread::sleep(rt, Duration::from_millis(PAUSE));
}

/// Whether the last carry that has a thread of its own goes on after a pause.
pub(crate) fn goes_on(rt: &impl Clock, latch: &Latch) -> bool {
    pause(rt);
    !latch.has_returned.load(Ordering::SeqCst)
}

/// Returns once the script is over. A call that does not return in time fails the test, and the number
/// found is that of its row.
pub(crate) fn watch(rt: &(impl Abort + Clock), latch: &Latch) {
    let mut row = 0usize;
    let mut turns = 0u32;
    for _ in 0..u64::MAX {
        if latch.is_over.load(Ordering::SeqCst) {
            return;
        }
        let now = latch.row.load(Ordering::SeqCst);
        turns = if now == row {
            turns.saturating_add(1)
        } else {
            0
        };
        row = now;
        if turns > PATIENCE {
            check_number(rt, row, 0, "a call does not return");
        }
        thread::sleep(rt, Duration::from_millis(1));
    }
}
