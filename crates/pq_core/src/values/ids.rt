//! Numbers of clients and of their requests. Each is counted from 0. `pq_claims` has those of runs.
use std::marker::Model;

/// The number of a client: 0, 1, 2, ... in the order in which they were opened.
#[derive(Clone, Copy, Debug, PartialEq, Eq, PartialOrd, Ord)]
pub struct ClientId {
    number: u64,
}

impl Model for ClientId {
    ghost use Rattle.std.specs.Prelude.{ℕ};

    ghost Value = { ℕ };

    ghost view = { λ id. id.number };

    ghost inverse = { λ number. record { number = number } };
}

impl ClientId {
    ghost use Rattle.std.specs.Prelude.{◌≡◌};

    /// The client of this number, whether or not it was ever opened.
    pub fn new(number: u64) -> ClientId
        // Contracts see the number.
        ensures { result ≡ number }
    {
        ClientId { number }
    }

    /// The number.
    pub fn number(self) -> u64
        // Contracts see the number.
        ensures { result ≡ self }
    {
        self.number
    }
}

/// The number of a request among those that were accepted from its client.
#[derive(Clone, Copy, Debug, PartialEq, Eq, PartialOrd, Ord)]
pub struct Number {
    number: u64,
}

impl Model for Number {
    ghost use Rattle.std.specs.Prelude.{ℕ};

    ghost Value = { ℕ };

    ghost view = { λ id. id.number };

    ghost inverse = { λ number. record { number = number } };
}

impl Number {
    ghost use Rattle.std.specs.Prelude.{◌≡◌};

    /// The request of this number.
    pub fn new(number: u64) -> Number
        // Contracts see the number.
        ensures { result ≡ number }
    {
        Number { number }
    }

    /// The number.
    pub fn number(self) -> u64
        // Contracts see the number.
        ensures { result ≡ self }
    {
        self.number
    }
}
