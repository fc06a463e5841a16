//! The entries of the vector of marks.
ghost use Rattle.std.specs.Prelude.{◌≡◌, ◌<◌};
ghost use Rattle.pq_inputs.specs.Refusal.{last_revision};
ghost use Rattle.pq_core.specs.Moves.{changed};
ghost use Rattle.pq_core.specs.Points.{point_now};

use pq_core::Change;
use pq_inputs::{Inputs, Revision};
use std::marker::Model;
use std::snapshot::Snapshot;

/// A revision, and pictures of the inputs before it and of the change that makes it. Contracts see the
/// revision and the sources at it. The pictures have no bytes.
#[derive(Drop)]
pub(crate) struct Entry {
    revision: Revision,
    before: Snapshot<Inputs>,
    change: Option<Snapshot<Change>>,
}

impl Model for Entry {
    ghost use Rattle.std.specs.Option.{option_map};
    ghost use Rattle.pq_core.specs.Points.{Point};
    ghost use Rattle.pq_core.specs.aux.Pictures.{sources_after};

    ghost Value = { Point };

    ghost view = { λ e. record { revision = e.revision; files = sources_after e.before.value.files (option_map (λ change. change.value) e.change) } };
}

impl Entry {
    /// The entry of the last revision of `inputs`.
    pub(crate) fn of(inputs: &Inputs) -> Entry
        ensures { result ≡ point_now inputs.now }
    {
        Entry {
            revision: inputs.now(),
            before: Snapshot::of(inputs),
            change: None,
        }
    }

    /// The entry of the next revision, which `change` makes of `inputs`. At the last revision, where
    /// each edit is refused, it is of that revision again.
    pub(crate) fn after(inputs: &Inputs, change: &Change) -> Entry
        ensures { inputs.now.revision < last_revision → result ≡ point_now (changed inputs.now change.now) }
    {
        Entry {
            revision: inputs.now().next(),
            before: Snapshot::of(inputs),
            change: Some(Snapshot::of(change)),
        }
    }

    /// The revision.
    pub(crate) fn revision(&self) -> Revision
        ensures { result ≡ self.now.revision }
    {
        self.revision
    }
}
