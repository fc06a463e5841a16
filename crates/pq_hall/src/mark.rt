//! Marks: the entries of one vector, as stamps of revisions.
ghost use Rattle.std.specs.Prelude.{◌≡◌};
ghost use Rattle.boxcar.specs.Table.{Shows};

use crate::entry::Entry;
use boxcar::Pushed;
use pq_core::{Memory, Stamp};
use pq_inputs::Revision;
use std::marker::{Brand, Model, PhantomData};

/// The name of a vector of marks. The call that makes the vector picks it, at the type `Brand`.
pub trait BoardName {
    ghost use Rattle.boxcar.specs.Table.{Shelves};

    /// The vector, as its contracts see it.
    ghost vector: { Shelves };
}

impl BoardName for Brand {
    ghost use Rattle.std.specs.Prelude.{[]};

    ghost vector = { record { tag = []; buckets = [] } };
}

/// A mark: an entry of the vector that `J` names. Contracts see the index of the entry, its revision
/// and its sources. A copy takes no memory.
#[derive(Drop)]
pub struct Mark<J: BoardName> {
    token: Pushed<Entry>,
    revision: Revision,
    of: PhantomData<J>,
}

impl<J: BoardName> Model for Mark<J> {
    ghost use Rattle.std.specs.Prelude.{◌≡◌};
    ghost use Rattle.boxcar.specs.Table.{Shows};
    ghost use Rattle.pq_hall.specs.Marks.{MarkView};

    ghost Value = { MarkView };

    ghost view = { λ m. record { index = m.token.index; point = m.token.value } };

    ghost invariant = { λ m. Shows J.vector m.token × (m.revision ≡ m.token.value.revision) };
}

impl<J: BoardName> Mark<J> {
    /// The mark of the entry that `token` shows, which is of `revision`.
    pub(crate) fn of(token: Pushed<Entry>, revision: Revision) -> Mark<J>
        requires shown { Shows J.vector token }
        requires revision { revision ≡ token.value.revision }
        ensures { result ≡ record { index = token.index; point = token.value } }
    {
        Mark {
            token,
            revision,
            of: PhantomData,
        }
    }

    /// What shows the entry in the vector.
    pub(crate) fn token(&self) -> &Pushed<Entry>
        ensures shown { Shows J.vector result.now }
        ensures index { result.now.index ≡ self.now.index }
        ensures point { result.now.value ≡ self.now.point }
    {
        &self.token
    }

    /// The index of the entry in the vector.
    pub fn index(&self) -> usize
        // The index of the entry.
        ensures { result ≡ self.now.index }
    {
        self.token.index()
    }

    /// The same mark once more. It takes no memory.
    pub fn copy(&self) -> Mark<J>
        // An equal mark.
        ensures { result ≡ self.now }
    {
        Mark {
            token: self.token.again(),
            revision: self.revision,
            of: PhantomData,
        }
    }
}

impl<J: BoardName> Stamp for Mark<J> {
    ghost use Rattle.std.specs.Prelude.{◌≡◌, IfOk};

    ghost point = { λ m. m.point };

    fn revision(&self) -> Revision
        // The revision of the mark.
        ensures revision { result ≡ self.now.point.revision }
    {
        self.revision
    }

    /// It takes no memory, and answers `Ok`.
    fn again(&self) -> Result<Mark<J>, Memory>
        // An equal mark.
        ensures again { IfOk result (λ stamp. stamp ≡ self.now) }
    {
        Ok(self.copy())
    }
}
