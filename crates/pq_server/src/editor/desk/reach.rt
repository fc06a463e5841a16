//! The names that open documents reach: their own, those that they import, and so on.
//!
//! Only these are looked for on the disk, and only their texts are read. A name stays once it was
//! reached: a document that is opened again, or an import that is written again, finds its file there.
use pq_inputs::MOST_FILES;
use pq_session::Memory;
use pq_view::Text;
use std::alloc::Global;
use std::collections::{BTreeMap, BTreeSet};
use std::mem;

/// What is known of a name.
#[derive(Drop)]
struct Reached {
    /// The path of the file that reached it first.
    importer: Text,
    /// Whether a file imports it.
    is_imported: bool,
    /// Whether its file was looked for.
    was_looked_for: bool,
    /// Whether it was set in the sources.
    was_set: bool,
    /// Whether it has a text in the sources.
    is_there: bool,
}

/// A name that is imported and has no file.
#[derive(Drop)]
pub(crate) struct Missing {
    pub(crate) name: Text,
    /// The path of a file that imports it.
    pub(crate) importer: Text,
}

/// The names that documents reach, and the paths at which files were looked for.
#[derive(Drop)]
pub(crate) struct Reach {
    alloc: Global,
    names: BTreeMap<String, Reached>,
    /// The names that are to be looked for.
    queue: Vec<Text>,
    /// The imported names that have no file.
    missing: BTreeSet<String>,
    /// Those of `missing` about which no walk was asked.
    unasked: Vec<Text>,
    /// The paths at which files were looked for.
    looked: BTreeSet<String>,
}

impl Reach {
    /// Nothing is reached.
    pub(crate) fn new(alloc: Global) -> Reach {
        Reach {
            alloc,
            names: BTreeMap::new(alloc),
            queue: Vec::new(alloc),
            missing: BTreeSet::new(alloc),
            unasked: Vec::new(alloc),
            looked: BTreeSet::new(alloc),
        }
    }

    /// Whether `name` is reached.
    pub(crate) fn has(&self, name: &str) -> bool {
        self.names.contains_key(name)
    }

    /// Reaches `name`, which the file at `importer` imports if `is_imported` is true. A new name is to be
    /// looked for. Returns whether it is reached: there is room for `MOST_FILES` names.
    pub(crate) fn want(
        &mut self,
        name: &str,
        importer: &Text,
        is_imported: bool,
    ) -> Result<bool, Memory> {
        if let Some(reached) = self.names.get_mut(name) {
            if is_imported {
                reached.is_imported = true;
            }
            return Ok(true);
        }
        self.want_new(name, importer, is_imported)
    }

    /// Reaches `name`, which was not reached.
    fn want_new(&mut self, name: &str, importer: &Text, is_imported: bool) -> Result<bool, Memory> {
        if self.names.len() >= MOST_FILES {
            return Ok(false);
        }
        let reached = Reached {
            importer: importer.copy()?,
            is_imported,
            was_looked_for: false,
            was_set: false,
            is_there: false,
        };
        self.queue.push(Text::new(self.alloc, name)?)?;
        self.names
            .insert(String::from_str(self.alloc, name)?, reached)?;
        Ok(true)
    }

    /// Takes the names that are to be looked for.
    pub(crate) fn take_queue(&mut self) -> Vec<Text> {
        mem::replace(&mut self.queue, Vec::new(self.alloc))
    }

    /// Each name is to be looked for.
    pub(crate) fn ask_again(&mut self) -> Result<(), Memory> {
        let mut queue = Vec::new(self.alloc);
        for name in self.names.keys() {
            queue.push(Text::new(self.alloc, name.as_str())?)?;
        }
        self.queue = queue;
        Ok(())
    }

    /// A file is looked for at `path`. Returns whether it was not before.
    pub(crate) fn look_at(&mut self, path: &str) -> Result<bool, Memory> {
        if self.looked.contains(path) {
            return Ok(false);
        }
        let path = String::from_str(self.alloc, path)?;
        match self.looked.insert(path) {
            Ok(_) => Ok(true),
            Err(_) => Err(Memory),
        }
    }

    /// Whether a file was looked for at `path`.
    pub(crate) fn was_looked_at(&self, path: &str) -> bool {
        self.looked.contains(path)
    }

    /// Whether `name` was set in the sources.
    pub(crate) fn was_set(&self, name: &str) -> bool {
        match self.names.get(name) {
            Some(reached) => reached.was_set,
            None => false,
        }
    }

    /// Whether `name` has a text in the sources.
    pub(crate) fn is_there(&self, name: &str) -> bool {
        match self.names.get(name) {
            Some(reached) => reached.is_there,
            None => false,
        }
    }

    /// Whether a change of `name` can change what was said of another file: one imports it, and its file
    /// was looked for before.
    pub(crate) fn is_shared(&self, name: &str) -> bool {
        match self.names.get(name) {
            Some(reached) => reached.is_imported && reached.was_looked_for,
            None => false,
        }
    }

    /// `name` was set in the sources, to a text if `is_there` is true.
    pub(crate) fn set(&mut self, name: &str, is_there: bool) -> Result<(), Memory> {
        if let Some(reached) = self.names.get_mut(name) {
            reached.was_set = true;
            reached.is_there = is_there;
        }
        if is_there {
            self.missing.remove(name);
            return Ok(());
        }
        self.miss(name)
    }

    /// The file of `name` was looked for.
    pub(crate) fn look_for(&mut self, name: &str) -> Result<(), Memory> {
        if let Some(reached) = self.names.get_mut(name) {
            reached.was_looked_for = true;
        }
        if self.is_there(name) {
            return Ok(());
        }
        self.miss(name)
    }

    /// `name` has no file. If it is imported, it is missing.
    fn miss(&mut self, name: &str) -> Result<(), Memory> {
        if !self.is_shared(name) || self.missing.contains(name) {
            return Ok(());
        }
        self.unasked.push(Text::new(self.alloc, name)?)?;
        let name = String::from_str(self.alloc, name)?;
        match self.missing.insert(name) {
            Ok(_) => Ok(()),
            Err(_) => Err(Memory),
        }
    }

    /// Whether an imported name has no file.
    pub(crate) fn has_missing(&self) -> bool {
        !self.missing.is_empty()
    }

    /// Whether there are missing names about which no walk was asked.
    pub(crate) fn has_unasked(&self) -> bool {
        !self.unasked.is_empty()
    }

    /// Takes the missing names about which no walk was asked.
    pub(crate) fn take_unasked(&mut self) -> Result<Vec<Missing>, Memory> {
        let names = mem::replace(&mut self.unasked, Vec::new(self.alloc));
        let mut list = Vec::new(self.alloc);
        for name in names {
            if self.missing.contains(name.as_str()) {
                if let Some(reached) = self.names.get(name.as_str()) {
                    let importer = reached.importer.copy()?;
                    list.push(Missing { name, importer })?;
                }
            }
        }
        Ok(list)
    }

    /// The next walk is to be asked about each missing name.
    pub(crate) fn forget_asked(&mut self) -> Result<(), Memory> {
        let mut unasked = Vec::new(self.alloc);
        for name in self.missing.iter() {
            unasked.push(Text::new(self.alloc, name.as_str())?)?;
        }
        self.unasked = unasked;
        Ok(())
    }
}
