//! The number of a name.
ghost use Rattle.std.specs.Prelude.{◌≡◌};

use std::marker::Model;

/// The number of a name in the table that gave it. The names of a table are counted from 0, in the
/// order in which they came.
#[derive(Clone, Copy, Debug, PartialEq, Eq, PartialOrd, Ord)]
pub struct NameId {
    number: u32,
}

impl Model for NameId {
    ghost use Rattle.std.specs.Prelude.{ℕ};

    ghost Value = { ℕ };

    ghost view = { λ id. id.number };

    ghost inverse = { λ number. record { number = number } };
}

impl NameId {
    /// The id with this `number`.
    pub(crate) fn of(number: u32) -> NameId
        ensures { result ≡ number }
    {
        NameId { number }
    }

    /// The number, which is also the index of the name in the list of the table's names.
    pub fn number(self) -> u32
        // Contracts see the number.
        ensures { result ≡ self }
    {
        self.number
    }
}
