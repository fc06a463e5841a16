//! For each durability the revision of the last change. A change costs one write for each
//! durability.
ghost use Rattle.std.specs.Prelude.{◌≡◌, nat_le, MatchOption, if◌then◌else◌};
ghost use Rattle.pq_inputs.specs.declared.durability.Durability.{Durability};
ghost use Rattle.pq_inputs.specs.Changes.{level};
ghost use Rattle.pq_inputs.specs.aux.Kept.{mark_of};

use crate::durability::Durability;
use std::marker::Model;

/// For each durability the last revision at which a file changed whose durability before the change
/// was at least that.
#[derive(Drop)]
pub(crate) struct LastChanged {
    low: u64,
    medium: u64,
    high: u64,
}

impl Model for LastChanged {
    ghost use Rattle.pq_inputs.specs.aux.Kept.{Marks};

    ghost Value = { Marks };

    ghost view = { λ l. record { low = l.low; medium = l.medium; high = l.high } };
}

impl LastChanged {
    /// The marks of inputs in which nothing has changed: 0 for each durability.
    pub(crate) fn new() -> LastChanged
        ensures { (d : Durability) → mark_of result d ≡ 0 }
    {
        LastChanged {
            low: 0,
            medium: 0,
            high: 0,
        }
    }

    /// The revision for `durability`.
    pub(crate) fn of(&self, durability: Durability) -> u64
        ensures { result ≡ mark_of self.now durability }
    {
        match durability {
            Durability::Low => self.low,
            Durability::Medium => self.medium,
            Durability::High => self.high,
        }
    }

    /// Notes that a file changed at `revision`, where `before` has its durability before the
    /// change.
    pub(crate) fn note(&mut self, before: Option<Durability>, revision: u64)
        ensures { MatchOption before (self.new ≡ self.old) (λ b. (d : Durability) →
            mark_of self.new d ≡ (if nat_le (level d) (level b) then revision else mark_of self.old d)) }
    {
        let Some(before) = before else { return };
        self.low = revision;
        if before >= Durability::Medium {
            self.medium = revision;
        }
        if before >= Durability::High {
            self.high = revision;
        }
    }
}
