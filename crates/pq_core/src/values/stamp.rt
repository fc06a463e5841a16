//! Stamps of revisions.
//!
//! A core has the stamp of the last revision, and hands copies of it out with work and with answers.
//! So whoever holds an answer can say of which sources it is.
ghost use Rattle.std.specs.Prelude.{◌≡◌, ◌<◌, IfOk};
ghost use Rattle.pq_inputs.specs.Refusal.{last_revision};
ghost use Rattle.pq_core.specs.Points.{Point, point_now};
ghost use Rattle.pq_core.specs.Moves.{changed};

use crate::values::fault::Memory;
use crate::values::request::Change;
use pq_inputs::{Inputs, Revision};
use pq_rules::Shared;
use std::alloc::Global;
use std::marker::Model;
use std::snapshot::Snapshot;

/// A stamp of a revision. Contracts see the revision and the sources at it.
pub trait Stamp: Drop {
    /// The revision, and the sources then.
    ghost point: { Self → Point };

    /// The revision.
    fn revision(&self) -> Revision
        // The revision of the stamp.
        ensures revision { result ≡ (point self.now).revision };

    /// The same stamp once more.
    fn again(&self) -> Result<Self, Memory>
        // An equal stamp.
        ensures again { IfOk result (λ stamp. stamp ≡ self.now) };
}

/// Sources that contracts alone see: those of inputs, or those that a change makes of them.
#[derive(Drop)]
struct Picture {
    before: Snapshot<Inputs>,
    change: Option<Snapshot<Change>>,
}

impl Model for Picture {
    ghost use Rattle.std.specs.Option.{option_map};
    ghost use Rattle.pq_inputs.specs.Sources.{Sources};
    ghost use Rattle.pq_core.specs.aux.Pictures.{sources_after};

    ghost Value = { Sources };

    ghost view = { λ p. sources_after p.before.value.files (option_map (λ change. change.value) p.change) };
}

/// A stamp of no shared history: a revision, and sources that contracts alone see. A copy shares
/// them and takes no memory.
#[derive(Drop)]
pub struct PlainStamp {
    revision: Revision,
    picture: Shared<Picture>,
}

impl Model for PlainStamp {
    ghost use Rattle.pq_core.specs.Points.{Point};

    ghost Value = { Point };

    ghost view = { λ s. record { revision = s.revision; files = s.picture } };
}

impl PlainStamp {
    /// The stamp of the last revision of `inputs`.
    pub fn of(alloc: Global, inputs: &Inputs) -> Result<PlainStamp, Memory>
        // The stamp of the last revision of the inputs.
        ensures { IfOk result (λ stamp. stamp ≡ point_now inputs.now) }
    {
        let revision = inputs.now();
        let picture = Picture {
            before: Snapshot::of(inputs),
            change: None,
        };
        Ok(PlainStamp {
            revision,
            picture: Shared::new(alloc, picture)?,
        })
    }

    /// The stamp of the next revision, which `change` makes of `inputs`. The last revision has no
    /// next one, and no edit takes a stamp there.
    pub fn after(alloc: Global, inputs: &Inputs, change: &Change) -> Result<PlainStamp, Memory>
        // The stamp of the next revision, which a change makes, below the last revision.
        ensures { inputs.now.revision < last_revision → IfOk result (λ stamp. stamp ≡ point_now (changed inputs.now change.now)) }
    {
        let revision = inputs.now().next();
        let picture = Picture {
            before: Snapshot::of(inputs),
            change: Some(Snapshot::of(change)),
        };
        Ok(PlainStamp {
            revision,
            picture: Shared::new(alloc, picture)?,
        })
    }
}

impl Stamp for PlainStamp {
    ghost use Rattle.std.specs.Prelude.{◌≡◌, IfOk};

    ghost point = { λ s. s };

    fn revision(&self) -> Revision
        // The revision of the stamp.
        ensures revision { result ≡ self.now.revision }
    {
        self.revision
    }

    fn again(&self) -> Result<PlainStamp, Memory>
        // An equal stamp.
        ensures again { IfOk result (λ stamp. stamp ≡ self.now) }
    {
        Ok(PlainStamp {
            revision: self.revision,
            picture: self.picture.copy()?,
        })
    }
}
