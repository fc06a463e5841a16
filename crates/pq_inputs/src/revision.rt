//! Revisions: the numbers of the states of the inputs.
ghost use Rattle.std.specs.Prelude.{◌≡◌, ◌<◌, ◌+◌};
ghost use Rattle.pq_inputs.specs.Refusal.{last_revision};

use crate::limits::LAST_REVISION;
use std::marker::Model;

/// A revision, the number of a state of the inputs: 0 at first, and one more after each accepted
/// change.
/// (The Salsa book, "The red-green algorithm".)
#[derive(Clone, Copy, Debug, PartialEq, Eq, PartialOrd, Ord)]
pub struct Revision {
    number: u64,
}

impl Model for Revision {
    ghost use Rattle.std.specs.Prelude.{ℕ};

    ghost Value = { ℕ };

    ghost view = { λ revision. revision.number };

    ghost inverse = { λ number. record { number = number } };
}

impl Revision {
    /// The revision with this `number`.
    pub(crate) fn of(number: u64) -> Revision
        ensures { result ≡ number }
    {
        Revision { number }
    }

    /// The revision after this one, which the next accepted change makes. No revision comes after
    /// the last one: that is returned again.
    pub fn next(self) -> Revision
        // `next`, `last`: The revision after, which the next accepted change makes; the last
        // revision again after it.
        ensures next { self < last_revision → result ≡ self + 1 }
        ensures last { self ≡ last_revision → result ≡ self }
    {
        if self.number == LAST_REVISION {
            return self;
        }
        Revision {
            number: self.number + 1,
        }
    }

    /// The number, counted from 0.
    pub fn number(self) -> u64
        // Contracts see the number.
        ensures { result ≡ self }
    {
        self.number
    }
}
