//! How the end of a mailbox that gets waits for the end that puts.
//!
//! The end that gets says that it may sleep, looks into the mailbox once more, and sleeps. The end that
//! puts rings after each put: the first ring takes that word back and wakes, and the later ones find
//! nobody to wake. No contract speaks of it: what is got and put is the mailbox's.
use std::alloc::{AllocError, Global};
use std::sync::atomic::{AtomicU64, Ordering};
use std::sync::{Arc, Wait};

/// The word where the end that gets is awake.
const AWAKE: u64 = 0;

/// The word where it may sleep.
const ASLEEP: u64 = 1;

/// The side of a bell that waits.
#[derive(Drop)]
pub(crate) struct Sleeper {
    word: Arc<AtomicU64, Global>,
}

/// The side of a bell that rings. Its drop rings too, since no put comes after it.
pub(crate) struct Ringer {
    word: Arc<AtomicU64, Global>,
}

/// A bell.
pub(crate) fn bell(alloc: Global) -> Result<(Ringer, Sleeper), AllocError> {
    let word = Arc::new(alloc, AtomicU64::new(AWAKE))?;
    let other = Arc::try_clone(&word)?;
    Ok((Ringer { word }, Sleeper { word: other }))
}

impl Sleeper {
    /// The first call after `stay` says that this side may sleep. The next ones sleep until a ring.
    pub(crate) fn pause<H: Wait>(&self, rt: &H) {
        if self.word.swap(ASLEEP, Ordering::SeqCst) == ASLEEP {
            self.word.park(rt, ASLEEP as u32);
        }
    }

    /// Says that this side is awake.
    pub(crate) fn stay(&self) {
        if self.word.load(Ordering::SeqCst) != AWAKE {
            self.word.store(AWAKE, Ordering::SeqCst);
        }
    }
}

impl Ringer {
    /// Wakes the other side, if it may sleep and no ring came since it said so.
    pub(crate) fn ring(&self) {
        if self.word.load(Ordering::SeqCst) != AWAKE
            && self.word.swap(AWAKE, Ordering::SeqCst) != AWAKE
        {
            self.word.wake_one();
        }
    }
}

impl Drop for Ringer {
    fn drop(self) {
        self.ring();
        let Self { word: _ } = self;
    }
}
