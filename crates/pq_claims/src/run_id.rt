//! Numbers of runs. They are counted from 0.
use std::marker::Model;

/// The number of a run: 0, 1, 2, ... in the order in which they were started.
#[derive(Clone, Copy, Debug, PartialEq, Eq, PartialOrd, Ord)]
pub struct RunId {
    number: u64,
}

impl Model for RunId {
    ghost use Rattle.std.specs.Prelude.{ℕ};

    ghost Value = { ℕ };

    ghost view = { λ id. id.number };

    ghost inverse = { λ number. record { number = number } };
}

impl RunId {
    ghost use Rattle.std.specs.Prelude.{◌≡◌};

    /// The run of this number, whether or not it exists.
    pub fn new(number: u64) -> RunId
        // Contracts see the number.
        ensures { result ≡ number }
    {
        RunId { number }
    }

    /// The number.
    pub fn number(self) -> u64
        // Contracts see the number.
        ensures { result ≡ self }
    {
        self.number
    }
}
