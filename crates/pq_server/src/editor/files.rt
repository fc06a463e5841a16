//! The files of a session: the view of them, the open documents, and how the editor names the roots.
//!
//! Who changes a document or the view is the desk alone. The writer asks for URIs meanwhile, so both
//! take the lock, and nobody waits for anything under it.
use crate::editor::desk::Reach;
use crate::editor::documents::Documents;
use crate::editor::watching::Watched;
use crate::serving::floor::Places;
use pq_editor::FileFault;
use pq_session::{Memory, Root};
use pq_view::{Stamp, Text, View, shown_path};
use std::alloc::Global;
use std::collections::BTreeMap;
use std::mem;
use std::sync::{Mutex, Wait};

/// The files of a session.
#[derive(Drop)]
pub(crate) struct Files {
    pub(crate) alloc: Global,
    pub(crate) view: View,
    pub(crate) documents: Documents,
    /// The paths of files that were read beside the looks: the next look has them read again, whether it
    /// finds them new or not.
    pub(crate) touched: Vec<Text>,
    /// The paths that are watched since the last look, with what was seen of them.
    watched: Vec<Watched>,
    /// Why files on the disk are not read, by their paths.
    faults: BTreeMap<String, FileFault>,
    /// What is said behind the message of an import that is not found: the roots as they are shown.
    pub(crate) looked: String,
    /// The paths of the roots, with all links followed.
    pub(crate) roots: Vec<Text>,
    /// The paths of the roots as the editor or the command line writes them, in the same order.
    pub(crate) faces: Vec<Text>,
}

impl Files {
    /// No roots, no files and no documents.
    pub(crate) fn new(alloc: Global) -> Files {
        Files {
            alloc,
            view: View::new(alloc),
            documents: Documents::new(alloc),
            touched: Vec::new(alloc),
            watched: Vec::new(alloc),
            faults: BTreeMap::new(alloc),
            looked: String::new(alloc),
            roots: Vec::new(alloc),
            faces: Vec::new(alloc),
        }
    }

    /// The URI of the file `name`: that of the open document, else that of its path below the root as
    /// the editor writes it.
    pub(crate) fn uri_of(&self, name: &str) -> Result<String, Memory> {
        let path = self.view.path_of(name)?;
        self.uri_at(path.as_str())
    }

    /// The URI of the file at `path`: that of the open document, else that of the path below the root as
    /// the editor writes it.
    pub(crate) fn uri_at(&self, path: &str) -> Result<String, Memory> {
        if let Some(uri) = self.documents.uri_at(path) {
            return String::from_str(self.alloc, uri);
        }
        let shown = shown_path(self.alloc, &self.roots, &self.faces, path)?;
        Root::at(self.alloc, "")?.uri_of(self.alloc, shown.as_str())
    }

    /// Watches `path` from the next look on. It was seen with `stamp` at the second `now`.
    pub(crate) fn watch(
        &mut self,
        path: Text,
        stamp: Option<Stamp>,
        now: i64,
    ) -> Result<(), Memory> {
        self.watched.push(Watched { path, stamp, now })?;
        Ok(())
    }

    /// Takes the paths that are watched since the last look.
    pub(crate) fn take_watched(&mut self) -> Vec<Watched> {
        mem::replace(&mut self.watched, Vec::new(self.alloc))
    }

    /// The file on the disk at `path` is not read because of `fault`, if there is one.
    pub(crate) fn set_fault(&mut self, path: &str, fault: Option<FileFault>) -> Result<(), Memory> {
        match fault {
            Some(fault) => {
                let path = String::from_str(self.alloc, path)?;
                self.faults.insert(path, fault)?;
            }
            None => {
                self.faults.remove(path);
            }
        }
        Ok(())
    }

    /// Why the file at `path` is not read, if it is not: that of its document, else that of the disk.
    /// `reach` are the names for which there is room.
    pub(crate) fn fault_at(&self, reach: &Reach, path: &str) -> Result<Option<FileFault>, Memory> {
        let Some(document) = self.documents.at(path) else {
            return Ok(self.faults.get(path).copied());
        };
        let name = self.view.name_of(path)?;
        Ok(document.fault(reach, name.as_str()))
    }

    /// Takes the paths that are to be read again.
    pub(crate) fn take_touched(&mut self) -> Vec<Text> {
        mem::replace(&mut self.touched, Vec::new(self.alloc))
    }

    /// Adds copies of `paths` to those that are to be read again.
    pub(crate) fn touch(&mut self, paths: &[Text]) -> Result<(), Memory> {
        for path in paths {
            self.touched.push(path.copy()?)?;
        }
        Ok(())
    }

    /// Gives each document the name by which its diagnostics are asked.
    pub(crate) fn name_documents(&mut self) -> Result<(), Memory> {
        let owed = self.view.owed()?;
        self.documents.name_all(owed.as_slice())
    }
}

/// The files of a session as its writer sees them.
#[derive(Drop)]
pub(crate) struct Shown<'a, H> {
    pub(crate) rt: &'a H,
    pub(crate) files: &'a Mutex<Files>,
}

impl<'a, H: Wait> Places for Shown<'a, H> {
    fn uri_of(&self, name: &str) -> Result<String, Memory> {
        self.files.lock(self.rt).uri_of(name)
    }

    fn looked(&self) -> Result<String, Memory> {
        let files = self.files.lock(self.rt);
        String::from_str(files.alloc, files.looked.as_str())
    }
}
