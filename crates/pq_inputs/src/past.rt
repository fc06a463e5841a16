//! The sources at a revision, which only contracts see.
ghost use Rattle.std.specs.Prelude.{◌≡◌};
ghost use Rattle.pq_inputs.specs.aux.Kept.{sources_of};

use crate::files::Files;
use std::marker::Model;
use std::mem::size_of;
use std::snapshot::Snapshot;

/// The sources at a revision. A value of it takes no memory.
#[derive(Drop)]
pub(crate) struct Past {
    files: Snapshot<Files>,
}

impl Model for Past {
    ghost use Rattle.pq_inputs.specs.Sources.{Sources};
    ghost use Rattle.pq_inputs.specs.aux.Kept.{sources_of};

    ghost Value = { Sources };

    ghost view = { λ p. sources_of p.files.value };
}

impl Past {
    /// The sources of `files`.
    pub(crate) fn of(files: &Files) -> Past
        ensures { result ≡ sources_of files.now }
    {
        Past {
            files: Snapshot::of(files),
        }
    }
}

// A history takes no bytes, however long it is.
const _: () = prove!(size_of::<Past>() == 0);
