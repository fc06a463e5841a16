//! The records of all files that were ever set, by name. A look-up is one search of the names.
ghost use Rattle.std.specs.Prelude.{◌≡◌, ◌≢◌, ◌≤◌, [], length, slice_get, slice_set, string_bytes, MatchOption, IfOk, IfErr, IfSome, IfNone, OnErr, if◌then◌else◌, is_some, None, Some};
ghost use Rattle.std.specs.Option.{option_map, option_copied};
ghost use Rattle.pq_inputs.specs.Sources.{File};
ghost use Rattle.pq_inputs.specs.Refusal.{most_files};
ghost use Rattle.pq_inputs.specs.aux.Kept.{Entry, lookup, entry_in, with_entry};

use crate::durability::Durability;
use crate::fault::Memory;
use crate::limits::MOST_FILES;
use crate::record::Record;
use pq_names::{MAX_NAMES, Names, NamesFault};
use std::alloc::Global;
use std::marker::Model;

// The table of names takes the name of each file.
const _: () = prove!(MOST_FILES < MAX_NAMES);

/// The files that were ever set, by name. Contracts see them in the order in which they were first
/// set.
#[derive(Drop)]
pub(crate) struct Files {
    names: Names,
    records: Vec<Record>,
}

impl Model for Files {
    ghost use Rattle.std.specs.Prelude.{◌≡◌, length};
    ghost use Rattle.pq_inputs.specs.aux.Kept.{Entries, side_by_side};

    ghost Value = { Entries };

    ghost view = { λ f. side_by_side f.names f.records.items };

    ghost invariant = { λ f. length f.names ≡ length f.records.items };
}

impl Files {
    /// No files. They take their memory from `alloc`.
    pub(crate) fn new(alloc: Global) -> Files
        ensures { result ≡ [] }
    {
        Files {
            names: Names::new(alloc),
            records: Vec::new(alloc),
        }
    }

    /// The number of files.
    pub(crate) fn len(&self) -> usize
        ensures { result ≡ length self.now }
    {
        self.records.len()
    }

    /// The record at `place`, that of the file `_name`.
    fn record(&self, _name: &str, place: usize) -> &Record
        requires { slice_get self.now place ≡ Some (_name.now, entry_in self.now _name.now) }
        ensures { result.now ≡ entry_in self.now _name.now }
    {
        &self.records[place]
    }

    /// The record of the file `name`, or `None` where it was never set.
    pub(crate) fn get(&self, name: &str) -> Option<&Record>
        ensures { option_copied result ≡ lookup self.now name.now }
    {
        match self.names.find(name) {
            Some(id) => Some(&self.records[id.number() as usize]),
            None => None,
        }
    }

    /// The place of the file `name`, or `None` where it was never set. It is looked for first at
    /// `near`.
    pub(crate) fn find(&self, name: &str, near: usize) -> Option<usize>
        ensures found { IfSome result (λ place.
            slice_get self.now place ≡ Some (name.now, entry_in self.now name.now)) }
        ensures none { IfNone result (lookup self.now name.now ≡ None) }
    {
        if self.names.is_at(near, name) {
            return Some(near);
        }
        match self.names.find(name) {
            Some(id) => Some(id.number() as usize),
            None => None,
        }
    }

    /// The revision of the last change of the file `name`, or 0.
    pub(crate) fn changed(&self, name: &str) -> u64
        ensures { result ≡ (entry_in self.now name.now).changed }
    {
        match self.get(name) {
            Some(record) => record.changed(),
            None => 0,
        }
    }

    /// The index of the file `name`, which becomes one of the files where it was never set.
    fn place(&mut self, name: &str) -> Result<usize, Memory>
        requires { length self.old ≤ most_files }
        ensures place { IfOk result (λ place.
            slice_get self.new place ≡ Some (name.now, entry_in self.old name.now)) }
        ensures entries { IfOk result (λ place. (entry : Entry) →
            slice_set self.new place (name.now, entry) ≡ with_entry self.old name.now entry) }
        ensures refused { OnErr result (self.new ≡ self.old) }
    {
        if let Some(id) = self.names.find(name) {
            return Ok(id.number() as usize);
        }
        self.records.reserve(1)?;
        let id = match self.names.intern(name) {
            Ok(id) => id,
            Err(NamesFault::Full) => unreachable!(),
            Err(NamesFault::Memory) => return Err(Memory),
        };
        self.records.push_reserved(Record::blank());
        Ok(id.number() as usize)
    }

    /// The revision of the last change of the file `name`, or 0, and its durability. The file is
    /// looked for first at the place `near`.
    pub(crate) fn last_change(&self, name: &str, near: usize) -> (u64, Durability)
        ensures changed { result.0 ≡ (entry_in self.now name.now).changed }
        ensures durability { result.1 ≡ (entry_in self.now name.now).file.durability }
    {
        match self.find(name, near) {
            Some(place) => {
                let record = self.record(name, place);
                (record.changed(), record.durability())
            }
            None => (0, Durability::Low),
        }
    }

    /// Writes `text` and `durability` to the file `name` at `revision`. Where the file changed, its
    /// durability before the change comes back. Where an allocation fails, `text` comes back, and
    /// the files stay unchanged.
    pub(crate) fn write(
        &mut self,
        name: &str,
        text: Option<String>,
        durability: Durability,
        revision: u64,
    ) -> Result<Option<Durability>, Option<String>>
        requires { length self.old ≤ most_files }
        ensures written { IfOk result (λ before.
            self.new ≡ with_entry self.old name.now (record {
              file = record { text = option_map string_bytes text; durability = durability };
              changed = if is_some before then revision else (entry_in self.old name.now).changed;
            })) }
        ensures differs { let old = (entry_in self.old name.now).file in
            let new : File = record { text = option_map string_bytes text; durability = durability } in
            IfOk result (λ before. MatchOption before (old ≡ new)
            (λ d. (d ≡ old.durability) × (old ≢ new))) }
        ensures refused { OnErr result (self.new ≡ self.old) }
        ensures back { IfErr result (λ back. back ≡ text) }
    {
        match self.place(name) {
            Ok(place) => Ok(self.records[place].write(text, durability, revision)),
            Err(_refused) => Err(text),
        }
    }
}
