//! Walks through the folders of the editor, and how long lists are held for the first.
//!
//! A walk begins where an import has no file below the roots, or where the editor asks for the
//! diagnostics of all files. Until the first has ended no list is sent, for eight seconds at most: a list
//! that says of an import that it is missing would be wrong a moment later.
use pq_session::Memory;
use pq_view::{Tails, Text};
use std::alloc::Global;
use std::time::{Clock, Duration, Instant};

/// How long lists are held for the first walk, in milliseconds.
const PATIENCE: u64 = 8_000;

/// The shortest time between two walks for names that are missing since, in milliseconds.
const PAUSE: u64 = 5_000;

/// The shortest time between two walks for names that are missing still, in milliseconds.
const LONG_PAUSE: u64 = 30_000;

/// How many times as long as a walk took nothing is walked after it.
const REST: u32 = 50;

/// Where the walks of a session are.
#[derive(Drop)]
pub(crate) struct Search {
    /// The paths that the last walk found, by their ends.
    pub(crate) tails: Option<Tails>,
    /// When the walk under way began.
    began: Option<Instant>,
    is_walking: bool,
    /// When the last walk ended, and how long it took.
    ended: Option<Instant>,
    took: Duration,
    /// Since when lists are held.
    held: Option<Instant>,
    /// Whether the first walk has ended, or lists were held long enough for it.
    is_over: bool,
    /// Whether the last walk shows no root for a name that is missing since.
    lacks: bool,
}

impl Search {
    /// No walk was made.
    pub(crate) fn new() -> Search {
        Search {
            tails: None,
            began: None,
            is_walking: false,
            ended: None,
            took: Duration::from_millis(0),
            held: None,
            is_over: false,
            lacks: false,
        }
    }

    /// Whether a walk is under way.
    pub(crate) fn is_walking(&self) -> bool {
        self.is_walking
    }

    /// Whether the first walk has ended, or lists were held long enough for it.
    pub(crate) fn is_over(&self) -> bool {
        self.is_over
    }

    /// The last walk shows no root for a name that is missing since.
    pub(crate) fn lack(&mut self) {
        self.lacks = true;
    }

    /// Whether a walk may begin for missing names.
    pub(crate) fn may_walk<C: Clock>(&self, clock: &C) -> bool {
        if self.is_walking {
            return false;
        }
        let Some(ended) = self.ended else {
            return !self.is_over;
        };
        let pause = if self.lacks { PAUSE } else { LONG_PAUSE };
        has_passed(clock, ended, self.rest().max(Duration::from_millis(pause)))
    }

    /// How long nothing is walked after the last walk.
    fn rest(&self) -> Duration {
        self.took.saturating_mul(REST)
    }

    /// A walk begins now. Lists are held if it is the first, and `holds` is true.
    pub(crate) fn begin<C: Clock>(&mut self, clock: &C, holds: bool) {
        self.is_walking = true;
        self.lacks = false;
        self.began = Instant::now(clock).ok();
        if holds {
            self.hold(clock);
        }
    }

    /// Lists are held from now on, if the first walk has not ended.
    pub(crate) fn hold<C: Clock>(&mut self, clock: &C) {
        if !self.is_over && self.held.is_none() {
            self.held = Instant::now(clock).ok();
        }
    }

    /// The walk under way has ended, and found the files at `paths`.
    pub(crate) fn end<C: Clock>(
        &mut self,
        clock: &C,
        alloc: Global,
        paths: &[Text],
    ) -> Result<(), Memory> {
        self.is_walking = false;
        let now = Instant::now(clock).ok();
        if let (Some(began), Some(now)) = (self.began, now) {
            self.took = now.saturating_duration_since(began);
        }
        self.ended = now;
        self.let_go();
        self.tails = Some(Tails::of(alloc, paths)?);
        Ok(())
    }

    /// Lists are held no longer.
    pub(crate) fn let_go(&mut self) {
        self.is_over = true;
        self.held = None;
    }

    /// Whether lists are held now.
    pub(crate) fn is_held<C: Clock>(&self, clock: &C) -> bool {
        match self.held {
            Some(held) => !has_passed(clock, held, Duration::from_millis(PATIENCE)),
            None => false,
        }
    }

    /// Whether lists were held long enough, and were not let go.
    pub(crate) fn is_due<C: Clock>(&self, clock: &C) -> bool {
        self.held.is_some() && !self.is_held(clock)
    }
}

/// Whether `duration` has passed since `start`. It has where the clock does not tell.
fn has_passed<C: Clock>(clock: &C, start: Instant, duration: Duration) -> bool {
    match Instant::now(clock) {
        Ok(now) => now.saturating_duration_since(start) >= duration,
        Err(_) => true,
    }
}
