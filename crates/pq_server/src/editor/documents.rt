//! The documents that an editor has open.
use crate::editor::desk::Reach;
use crate::editor::rounds::Asked;
use pq_editor::FileFault;
use pq_inputs::MAX_TEXT;
use pq_session::Memory;
use pq_view::{Owed, Text};
use std::alloc::Global;

/// A document that an editor has open.
#[derive(Drop)]
pub(crate) struct Document {
    /// Documents that are opened later have greater numbers.
    pub(crate) number: u64,
    /// Its path as the editor writes it.
    pub(crate) face: String,
    /// The path of its file, with all links to its folder followed.
    pub(crate) path: Text,
    /// Its URI, as the editor writes it.
    pub(crate) uri: String,
    /// Its version, if the editor gives one.
    pub(crate) version: Option<i64>,
    /// The name by which its diagnostics are asked.
    pub(crate) name: Text,
    /// Its text.
    pub(crate) text: Text,
}

impl Document {
    /// Whether its text is short enough for a file.
    pub(crate) fn has_room(&self) -> bool {
        self.text.as_str().len() <= MAX_TEXT
    }

    /// Why it is not read, if it is not. `reach` are the names for which there is room, and `name` is its
    /// own.
    pub(crate) fn fault(&self, reach: &Reach, name: &str) -> Option<FileFault> {
        if !self.has_room() {
            return Some(FileFault::TooLong);
        }
        if !reach.has(name) {
            return Some(FileFault::TooMany);
        }
        None
    }
}

/// The documents that an editor has open, the one that was changed last first.
#[derive(Drop)]
pub(crate) struct Documents {
    alloc: Global,
    list: Vec<Document>,
    next: u64,
}

impl Documents {
    /// No documents.
    pub(crate) fn new(alloc: Global) -> Documents {
        Documents {
            alloc,
            list: Vec::new(alloc),
            next: 0,
        }
    }

    /// The number of the next document.
    pub(crate) fn next_number(&mut self) -> u64 {
        let number = self.next;
        self.next = number.wrapping_add(1);
        number
    }

    /// The document that the editor writes as `face`.
    pub(crate) fn find(&self, face: &str) -> Option<&Document> {
        self.list.iter().find(|it| it.face.as_str() == face)
    }

    /// Takes out the document that the editor writes as `face`, if it is open.
    pub(crate) fn take(&mut self, face: &str) -> Option<Document> {
        let place = self.list.iter().position(|it| it.face.as_str() == face)?;
        Some(self.list.remove(place))
    }

    /// A document whose file is at `path`: of several the one that was changed last.
    pub(crate) fn at(&self, path: &str) -> Option<&Document> {
        self.list.iter().find(|it| it.path.as_str() == path)
    }

    /// The URI of the document whose file is at `path`.
    pub(crate) fn uri_at(&self, path: &str) -> Option<&str> {
        match self.at(path) {
            Some(document) => Some(document.uri.as_str()),
            None => None,
        }
    }

    /// Adds `document`, which was changed now.
    pub(crate) fn put(&mut self, document: Document) -> Result<(), Memory> {
        self.list.insert(0, document)?;
        Ok(())
    }

    /// Gives each document the name that `owed` has for its path. The paths of `owed` are in byte order.
    pub(crate) fn name_all(&mut self, owed: &[Owed]) -> Result<(), Memory> {
        for document in &mut self.list {
            let path = document.path.as_str();
            if let Ok(place) = owed.binary_search_by(|it| it.path.as_str().cmp(path)) {
                if let Some(found) = owed.get(place) {
                    document.name = found.name.copy()?;
                }
            }
        }
        Ok(())
    }

    /// The version of the document whose file is at `path`, if there is one that has a version.
    pub(crate) fn version_at(&self, path: &str) -> Option<i64> {
        match self.at(path) {
            Some(document) => document.version,
            None => None,
        }
    }

    /// The paths of the files of all documents.
    pub(crate) fn paths(&self) -> Result<Vec<Text>, Memory> {
        let mut paths = Vec::new(self.alloc);
        for document in &self.list {
            paths.push(document.path.copy()?)?;
        }
        Ok(paths)
    }

    /// What is asked for each document. `reach` are the names for which there is room.
    pub(crate) fn asked(&self, reach: &Reach) -> Result<Vec<Asked>, Memory> {
        let mut asked = Vec::new(self.alloc);
        for document in &self.list {
            asked.push(asked_of(self.alloc, document, reach)?)?;
        }
        Ok(asked)
    }
}

/// What is asked for `document`.
fn asked_of(alloc: Global, document: &Document, reach: &Reach) -> Result<Asked, Memory> {
    Ok(Asked {
        number: document.number,
        uri: String::from_str(alloc, document.uri.as_str())?,
        name: document.name.copy()?,
        version: document.version,
        fault: document.fault(reach, document.name.as_str()),
    })
}
