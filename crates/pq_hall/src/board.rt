//! The vector of marks.
ghost use Rattle.std.specs.Prelude.{◌≡◌, ◌<◌, ◌↔◌, IfOk, IfSome, Some, None, IsTrue};
ghost use Rattle.pq_inputs.specs.Refusal.{last_revision};
ghost use Rattle.pq_core.specs.Moves.{changed};
ghost use Rattle.pq_core.specs.Points.{point_now};

use crate::entry::Entry;
use crate::mark::{BoardName, Mark};
use pq_core::{Change, Memory, Stamp};
use pq_inputs::{Inputs, Revision};
use std::alloc::Global;
use std::marker::{Model, PhantomData};
use std::sync::Wait;

/// An empty vector that has no name yet.
#[derive(Drop)]
pub struct NewBoard {
    entries: boxcar::Vec<Entry>,
}

impl Model for NewBoard {
    ghost use Rattle.boxcar.specs.Table.{Shelves, shelves_coded};

    ghost Value = { Shelves };

    ghost coded = { shelves_coded };

    ghost view = { λ b. b.entries };
}

impl NewBoard {
    /// An empty vector.
    pub fn new(alloc: Global) -> Result<NewBoard, Memory> {
        Ok(NewBoard {
            entries: boxcar::Vec::new(alloc)?,
        })
    }

    /// The vector under the name `J`, with one entry, and the mark of that entry: it is of the last
    /// revision of `inputs`.
    ///
    /// # Errors
    ///
    /// `Memory`. Then the vector is dropped.
    pub fn named<J: BoardName>(
        self,
        rt: &impl Wait,
        inputs: &Inputs,
    ) -> Result<(Board<J>, Mark<J>), Memory>
        // The vector is the one that `J` names.
        requires { self ≡ J.vector }
        // The first mark is of the last revision of the inputs, and of the sources then.
        ensures { IfOk result (λ r. r.1.point ≡ point_now inputs.now) }
    {
        let NewBoard { entries } = self;
        let board = Board {
            entries,
            of: PhantomData,
        };
        let mark = board.add(rt, Entry::of(inputs))?;
        Ok((board, mark))
    }
}

/// The vector of marks that `J` names. Threads share it: pushing and reading take no lock.
///
/// Each entry is of the last revision at its push, if it is the first, or of the next one. Where
/// pushes of one core and its edits take turns under one lock, the revisions of the entries rise with
/// their indexes. Several entries can be of one revision, where edits were refused: the last of them is
/// its mark.
#[derive(Drop)]
pub struct Board<J: BoardName> {
    entries: boxcar::Vec<Entry>,
    of: PhantomData<J>,
}

impl<J: BoardName> Model for Board<J> {
    ghost use Rattle.std.specs.Prelude.{◌≡◌};
    ghost use Rattle.boxcar.specs.Table.{Shelves, shelves_coded};

    ghost Value = { Shelves };

    ghost coded = { shelves_coded };

    ghost view = { λ b. b.entries };

    ghost invariant = { λ b. b.entries ≡ J.vector };
}

impl<J: BoardName> Board<J> {
    /// Adds `entry`, and returns its mark.
    fn add(&self, rt: &impl Wait, entry: Entry) -> Result<Mark<J>, Memory>
        ensures { IfOk result (λ mark. mark.point ≡ entry) }
    {
        let revision = entry.revision();
        match self.entries.push_shown(rt, entry) {
            Ok(token) => Ok(Mark::of(token, revision)),
            Err(_) => Err(Memory),
        }
    }

    /// Adds the entry of the next revision, which `change` makes of `inputs`, and returns its mark: the
    /// stamp with which the edit is made. Where the edit is refused, `mark` does not answer this entry.
    /// At the last revision, where each edit is refused, the entry is of that revision again.
    ///
    /// # Errors
    ///
    /// `Memory`. Then no entry was added.
    pub fn push(&self, rt: &impl Wait, inputs: &Inputs, change: &Change) -> Result<Mark<J>, Memory>
        // The mark is of the revision and the sources that the change makes, below the last
        // revision: the condition of `Core::edit`.
        ensures { inputs.now.revision < last_revision → IfOk result (λ mark. mark.point ≡ point_now (changed inputs.now change.now)) }
    {
        self.add(rt, Entry::after(inputs, change))
    }

    /// A law: two marks of one index name the same revision and the same sources.
    pub fn agrees(&self, a: &Mark<J>, b: &Mark<J>)
        // Two marks of one vector and one index name the same revision and the same sources.
        ensures { a.now.index ≡ b.now.index → a.now.point ≡ b.now.point }
    {
        if a.index() == b.index() {
            self.entries.agrees(a.token(), b.token());
        }
    }

    /// Whether two marks are of one entry. Then they name the same revision and the same sources.
    pub fn is_same(&self, a: &Mark<J>, b: &Mark<J>) -> bool
        // `index`, `agrees`: Exactly if the two marks are of one index, and then they name the
        // same.
        ensures index { IsTrue result ↔ (a.now.index ≡ b.now.index) }
        ensures agrees { IsTrue result → a.now.point ≡ b.now.point }
    {
        self.agrees(a, b);
        a.index() == b.index()
    }

    /// The mark of `revision`, where `last` is that of the last revision. `None` where `revision` is
    /// past the last one, or before the one at the start. The time is logarithmic in the count of
    /// entries.
    pub fn mark(&self, revision: Revision, last: &Mark<J>) -> Option<Mark<J>>
        // A mark that is answered is of the revision that was asked for.
        ensures revision { IfSome result (λ mark. mark.point.revision ≡ revision) }
        // `last`, `past`: Of the last revision it is the mark that was handed in; of a later one
        // there is none.
        ensures last { revision ≡ last.now.point.revision → result ≡ Some last.now }
        ensures past { last.now.point.revision < revision → result ≡ None }
    {
        let now = last.revision();
        if revision == now {
            return Some(last.copy());
        }
        if revision > now {
            return None;
        }
        self.last_of(revision)
    }

    /// The last entry of `revision`, if the revisions of the entries rise with their indexes.
    fn last_of(&self, revision: Revision) -> Option<Mark<J>>
        ensures { IfSome result (λ mark. mark.point.revision ≡ revision) }
    {
        let index = self.count_up_to(revision).checked_sub(1)?;
        let mark = self.at(index)?;
        if mark.revision() == revision {
            return Some(mark);
        }
        None
    }

    /// The count of entries of `revision` or an earlier one, if the revisions of the entries rise with
    /// their indexes.
    fn count_up_to(&self, revision: Revision) -> usize {
        let mut low = 0usize;
        let mut high = self.entries.count();
        while low < high {
            let middle = low + (high - low) / 2;
            if self.is_up_to(middle, revision) {
                low = middle + 1;
            } else {
                high = middle;
            }
        }
        low
    }

    /// Whether the entry at `index` is of `revision` or an earlier one.
    fn is_up_to(&self, index: usize, revision: Revision) -> bool {
        match self.at(index) {
            Some(mark) => mark.revision() <= revision,
            None => false,
        }
    }

    /// The entry at `index`, if there is one.
    fn at(&self, index: usize) -> Option<Mark<J>>
        ensures { IfSome result (λ mark. mark.index ≡ index) }
    {
        let token = self.entries.witness(index)?;
        let revision = self.entries.value(&token).revision();
        Some(Mark::of(token, revision))
    }
}
