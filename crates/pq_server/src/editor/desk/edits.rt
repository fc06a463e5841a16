//! Events of documents and files: the desk passes each to the view, and makes the edits that it answers.
use crate::editor::desk::{Desk, Step, step_of};
use crate::editor::disk::Disk;
use crate::editor::documents::Document;
use crate::editor::fetching::{Fetched, each_once};
use crate::editor::line::Handed;
use crate::library::{Failure, joined};
use crate::serving::floor::Floor;
use pq_core::{Body, Change};
use pq_editor::{FileFault, imported_names};
use pq_inputs::{Durability, MAX_TEXT};
use pq_mail::Post;
use pq_session::{
    CutFault, Event, Memory, ScriptFault, change_to, plain_uri, scheme_of, text_after_cuts,
};
use pq_view::{Edit, Text};
use std::alloc::Global;
use std::io::Write;
use std::sync::Wait;
use std::thread::Threads;
use std::time::Clock;

impl<F, H, W> Desk<'_, F, H, W>
where
    F: Floor<H>,
    H: Threads + Wait + Clock + Disk + AllocGlobal + Copy + Drop + Send + Sync + 'static,
    W: Write + Copy,
{
    /// Makes the edit `change` of the document of `event`.
    pub(super) fn edit(&mut self, event: Event, change: Change) -> Result<Step, ScriptFault> {
        let face = joined(self.alloc, "/", change.file.as_str())?;
        let goes_on = match event {
            Event::Opens { uri, version } => self.open(face, uri, version, change.body)?,
            Event::Changes { version, .. } => self.change(face.as_str(), version, change.body)?,
            _ => self.remove(face.as_str())?,
        };
        Ok(step_of(goes_on))
    }

    /// Opens the document that is written as `face`. Its folder is a root if the document lies below none.
    /// Returns whether the session goes on.
    fn open(
        &mut self,
        face: String,
        uri: String,
        version: Option<i64>,
        body: Body,
    ) -> Result<bool, ScriptFault> {
        let Body::Set(Some(text)) = body else {
            return Ok(true);
        };
        let path = self.path_of(face.as_str())?;
        self.call_looker();
        if self.roots.add_own(path.as_str(), face.as_str())? && !self.take_roots()? {
            return Ok(false);
        }
        self.want_path(&path)?;
        let (before, number) = {
            let mut files = self.files.lock(self.rt);
            let before = files.documents.take(face.as_str());
            (before, files.documents.next_number())
        };
        let was_open = before.is_some();
        let number = match before {
            Some(document) => document.number,
            None => number,
        };
        self.has_renamed = true;
        self.put(
            Document {
                number,
                face,
                path,
                uri,
                version,
                name: Text::new(self.alloc, "")?,
                text: Text::from_string(self.alloc, text)?,
            },
            !was_open,
        )
    }

    /// Changes the document that is written as `face`. A document that is not open leaves a line. Returns
    /// whether the session goes on.
    fn change(
        &mut self,
        face: &str,
        version: Option<i64>,
        body: Body,
    ) -> Result<bool, ScriptFault> {
        let Some(document) = self.files.lock(self.rt).documents.take(face) else {
            self.lines.say_passed_over(self.rt, face, &Failure::NotOpen);
            return Ok(true);
        };
        let mut document = document;
        let had_room = document.has_room();
        match text_after_cuts(self.alloc, document.text.as_str(), body) {
            Ok(text) => {
                let text = match text {
                    Some(text) => text,
                    None => String::new(self.alloc),
                };
                document.text = Text::from_string(self.alloc, text)?;
                document.version = version;
                self.put(document, had_room)
            }
            Err(CutFault::TooMany) => {
                self.lines.say_failure(self.rt, face, &Failure::BadRanges);
                self.leave(document)
            }
            Err(CutFault::Memory) => Err(ScriptFault::Memory),
        }
    }

    /// Puts `document` among the open ones, which was changed now. A text that gets too long leaves a
    /// line. Returns whether the session goes on.
    fn put(&mut self, document: Document, had_room: bool) -> Result<bool, ScriptFault> {
        if had_room && !document.has_room() {
            self.lines
                .say_failure(self.rt, document.face.as_str(), &Failure::TextTooLong);
            self.tell_of(document.face.as_str(), FileFault::TooLong)?;
        }
        self.has_moved = true;
        let edits = {
            let mut files = self.files.lock(self.rt);
            let path = document.path.copy()?;
            let text = document.text.copy()?;
            let edits = files.view.set_document(path, Some(text))?;
            files.documents.put(document)?;
            edits
        };
        self.post_all(edits, Durability::Low)
    }

    /// `document` is open no longer. Another document of its file has its text then. Returns whether the
    /// session goes on.
    fn end_document(&mut self, document: Document) -> Result<bool, ScriptFault> {
        self.has_moved = true;
        self.has_renamed = true;
        let edits = {
            let mut files = self.files.lock(self.rt);
            let text = match files.documents.at(document.path.as_str()) {
                Some(other) => Some(other.text.copy()?),
                None => None,
            };
            files.view.set_document(document.path, text)?
        };
        self.post_disk(edits)
    }

    /// Removes the document that is written as `face`, and its file. Returns whether the session goes on.
    fn remove(&mut self, face: &str) -> Result<bool, ScriptFault> {
        let path = self.path_of(face)?;
        let found = self.files.lock(self.rt).documents.take(face);
        let goes_on = match found {
            Some(document) => self.end_document(document)?,
            None => true,
        };
        let gone = Fetched {
            stamp: self.rt.file_at(path.as_str()),
            now: self.rt.seconds(),
            path,
            text: None,
            fault: None,
        };
        Ok(goes_on && self.set_on_disk(gone)?)
    }

    /// Does what a notification asks for that makes no edit of its own.
    pub(super) fn notice(&mut self, event: Event) -> Result<Step, ScriptFault> {
        match event {
            Event::Ready => {
                self.be_ready();
                Ok(Step::GoesOn)
            }
            Event::Answers => {
                self.unanswered = self.unanswered.saturating_sub(1);
                self.go_on_with_progress()?;
                Ok(Step::GoesOn)
            }
            Event::Opens { uri, .. } => {
                self.say_scheme(uri.as_str());
                Ok(Step::GoesOn)
            }
            Event::Closes { uri } => {
                let goes_on = self.close(uri.as_str())?;
                Ok(step_of(goes_on))
            }
            Event::Saves { uri } => {
                let goes_on = self.save(uri.as_str())?;
                Ok(step_of(goes_on))
            }
            Event::Touches(uris) => {
                let goes_on = self.touched(uris.as_slice())?;
                Ok(step_of(goes_on))
            }
            Event::ChangesFolders { added, removed } => {
                let goes_on = self.change_folders(added.as_slice(), removed.as_slice())?;
                Ok(step_of(goes_on))
            }
            _ => Ok(Step::GoesOn),
        }
    }

    /// The client takes messages from now on.
    fn be_ready(&mut self) {
        self.takes.is_ready = true;
        if let Some(ways) = &self.ways {
            let _ = ways.log.try_send(self.rt, ());
        }
    }

    /// Says once that documents of the scheme of `uri` are passed over.
    fn say_scheme(&self, uri: &str) {
        let scheme = scheme_of(uri);
        if let Ok(line) = scheme_line(self.alloc, scheme) {
            self.lines.say_once(self.rt, scheme, line.as_str());
        }
    }

    /// The document `uri` was written to the disk. Returns whether the session goes on.
    fn save(&mut self, uri: &str) -> Result<bool, ScriptFault> {
        let Some(face) = self.face_of(uri)? else {
            return Ok(true);
        };
        let path = self.path_of(face.as_str())?;
        let paths = one(self.alloc, &path)?;
        self.call_looker();
        self.read(paths)
    }

    /// The files of `uris` were made, changed or deleted. Those that were looked for are read again. If
    /// there are others while imports are missing, a walk is to be made soon. Returns whether the session
    /// goes on.
    fn touched(&mut self, uris: &[String]) -> Result<bool, ScriptFault> {
        let paths = self.looked_at(uris)?;
        self.call_looker();
        self.read(each_once(paths)?)
    }

    /// The paths of `uris` at which files were looked for. If there are others, a walk is to be made soon.
    fn looked_at(&mut self, uris: &[String]) -> Result<Vec<Text>, Memory> {
        let mut paths = Vec::new(self.alloc);
        for path in self.paths_of(uris)? {
            if self.reach.was_looked_at(path.as_str()) {
                paths.push(path)?;
            } else {
                self.search.lack();
            }
        }
        Ok(paths)
    }

    /// The paths of `uris` that can be those of files below a root.
    fn paths_of(&self, uris: &[String]) -> Result<Vec<Text>, Memory> {
        let mut paths = Vec::new(self.alloc);
        for uri in uris {
            self.push_path(&mut paths, uri.as_str())?;
        }
        Ok(paths)
    }

    /// Closes the document of `uri`: its file has the text on the disk again, or is absent. Returns
    /// whether the session goes on.
    fn close(&mut self, uri: &str) -> Result<bool, ScriptFault> {
        let Some(face) = self.face_of(uri)? else {
            return Ok(true);
        };
        let Some(document) = self.files.lock(self.rt).documents.take(face.as_str()) else {
            return Ok(true);
        };
        self.leave(document)
    }

    /// `document` is open no longer: its file is read. Returns whether the session goes on.
    fn leave(&mut self, document: Document) -> Result<bool, ScriptFault> {
        let paths = one(self.alloc, &document.path)?;
        self.call_looker();
        let goes_on = self.read(paths)?;
        Ok(goes_on && self.end_document(document)?)
    }

    /// The path of `uri`, as the editor writes it, if it names one.
    pub(super) fn face_of(&self, uri: &str) -> Result<Option<String>, Memory> {
        let Some(root) = self.session.root() else {
            return Ok(None);
        };
        let uri = plain_uri(self.alloc, uri)?;
        match root.file_of(self.alloc, uri.as_str())? {
            Some(file) => Ok(Some(joined(self.alloc, "/", file.as_str())?)),
            None => Ok(None),
        }
    }

    /// Adds the path of `uri` to `paths`, if it can be that of a file below a root.
    fn push_path(&self, paths: &mut Vec<Text>, uri: &str) -> Result<(), Memory> {
        if let Some(face) = self.face_of(uri)? {
            if face.ends_with(".proto") {
                paths.push(self.path_of(face.as_str())?)?;
            }
        }
        Ok(())
    }

    /// The path of the file that the editor writes as `face`: that of its document, else with all links
    /// to its folder followed.
    pub(super) fn path_of(&self, face: &str) -> Result<Text, Memory> {
        if let Some(document) = self.files.lock(self.rt).documents.find(face) {
            return document.path.copy();
        }
        let path = real_file(self.rt, self.alloc, face)?;
        Text::from_string(self.alloc, path)
    }

    /// The disk has what `fetched` says at its path, which is watched from now on. Returns whether the
    /// session goes on.
    pub(crate) fn set_on_disk(&mut self, fetched: Fetched) -> Result<bool, ScriptFault> {
        let Fetched {
            path,
            stamp,
            now,
            text,
            fault,
        } = fetched;
        if let Some(fault) = fault {
            self.tell_of(path.as_str(), fault)?;
        }
        self.reach.look_at(path.as_str())?;
        let text = match text {
            Some(text) => Some(Text::from_string(self.alloc, text)?),
            None => None,
        };
        let edits = {
            let mut files = self.files.lock(self.rt);
            files.set_fault(path.as_str(), fault)?;
            files.watch(path.copy()?, stamp, now)?;
            files.view.set_file(path, text)?
        };
        self.post_disk(edits)
    }

    /// Makes `edits`, which follow from the disk or from roots. Returns whether the session goes on.
    pub(super) fn post_disk(&mut self, edits: Vec<Edit>) -> Result<bool, ScriptFault> {
        if !edits.is_empty() {
            self.has_renamed = true;
        }
        self.post_all(edits, Durability::High)
    }

    /// Makes `edits`. Returns whether the session goes on.
    fn post_all(&mut self, edits: Vec<Edit>, durability: Durability) -> Result<bool, ScriptFault> {
        for edit in edits {
            if !self.post_edit(edit, durability)? {
                return Ok(false);
            }
        }
        Ok(true)
    }

    /// Makes `edit`, if its name is reached. A name that has no text and was never set stays as it is.
    /// Returns whether the session goes on.
    fn post_edit(&mut self, edit: Edit, durability: Durability) -> Result<bool, ScriptFault> {
        let Edit { name, text } = edit;
        if !self.reach.has(name.as_str()) {
            return Ok(true);
        }
        if text.is_none() && !self.reach.was_set(name.as_str()) {
            return Ok(true);
        }
        self.post_text(name, text, durability)
    }

    /// Sets the file `name` to `text`. A text that is too long is absent. Returns whether the session goes
    /// on.
    pub(super) fn post_text(
        &mut self,
        name: Text,
        text: Option<Text>,
        durability: Durability,
    ) -> Result<bool, ScriptFault> {
        let kept = kept(self.alloc, &text)?;
        let is_there = kept.is_some();
        let change = change_to(self.alloc, name.as_str(), kept, durability)?;
        match self.line.hand_in(Post::Edit(change))? {
            Handed::Edited(revision) => self.revision = revision,
            _ => return Ok(false),
        }
        self.has_moved = true;
        if self.reach.is_shared(name.as_str()) {
            self.is_refresh_due = true;
        }
        self.reach.set(name.as_str(), is_there)?;
        if let Some(text) = text {
            self.want_imports(name.as_str(), &text)?;
        }
        Ok(true)
    }

    /// Reaches the names that the text `text` of the file `name` imports.
    fn want_imports(&mut self, name: &str, text: &Text) -> Result<(), ScriptFault> {
        if !text.as_str().contains("import") || text.as_str().len() > MAX_TEXT {
            return Ok(());
        }
        let path = self.files.lock(self.rt).view.path_of(name)?;
        for imported in imported_names(self.alloc, text.as_str())? {
            self.want(imported.as_str(), &path, true)?;
        }
        Ok(())
    }
}

/// A list of `path` alone.
fn one(alloc: Global, path: &Text) -> Result<Vec<Text>, Memory> {
    let mut paths = Vec::new(alloc);
    paths.push(path.copy()?)?;
    Ok(paths)
}

/// The line that says that documents of `scheme` are passed over.
fn scheme_line(alloc: Global, scheme: &str) -> Result<String, Memory> {
    format!(in alloc; "pq_server: documents of the scheme `{scheme}:` are passed over")
}

/// A copy of `text`, if it is short enough for a file.
fn kept(alloc: Global, text: &Option<Text>) -> Result<Option<String>, Memory> {
    match text {
        Some(text) if text.as_str().len() <= MAX_TEXT => {
            Ok(Some(String::from_str(alloc, text.as_str())?))
        }
        _ => Ok(None),
    }
}

/// The path of the file `path`, with all links to its folder followed. Folders that are not there are
/// taken as they are written, without `.`, `..` and doubled slashes.
fn real_file<D: Disk>(disk: &D, alloc: Global, path: &str) -> Result<String, Memory> {
    let (folder, name) = match path.rsplit_once('/') {
        Some(parts) => parts,
        None => ("", path),
    };
    let folder = real_folder(disk, alloc, folder)?;
    let path = joined(alloc, folder.as_str(), "/")?;
    joined(alloc, path.as_str(), name)
}

/// The folder `path`, with all links followed as far as it is there.
fn real_folder<D: Disk>(disk: &D, alloc: Global, path: &str) -> Result<String, Memory> {
    let mut rest = path;
    let mut missing: Vec<&str> = Vec::new(alloc);
    for _ in 0..path.len() {
        if let Some(found) = disk.real_path(rest) {
            return with_parts(alloc, found.trim_end_matches('/'), &missing);
        }
        match rest.rsplit_once('/') {
            Some((before, last)) => {
                missing.push(last)?;
                rest = before;
            }
            None => break,
        }
    }
    with_parts(alloc, "", &missing)
}

/// The path of `folder` and then the parts of `missing`, the last first.
fn with_parts(alloc: Global, folder: &str, missing: &[&str]) -> Result<String, Memory> {
    let mut path = String::from_str(alloc, folder)?;
    for part in missing.iter().rev() {
        match *part {
            "" | "." => {}
            ".." => {
                if let Some(end) = path.rfind('/') {
                    path.truncate(end);
                }
            }
            part => {
                path.push('/')?;
                path.push_str(part)?;
            }
        }
    }
    Ok(path)
}
