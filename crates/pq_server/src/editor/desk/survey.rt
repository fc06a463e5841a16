//! What is asked about all files below the roots (LSP 3.17, "Workspace Diagnostics Request").
//!
//! A walk lists the files. They are read some at a time, so that messages are handled between. Then the
//! surveyor asks for their diagnostics.
use crate::editor::desk::{Desk, Step};
use crate::editor::disk::Disk;
use crate::editor::surveyor::{Survey, Surveyed};
use crate::serving::floor::Floor;
use pq_core::Label;
use pq_editor::workspace_text;
use pq_session::{Memory, Previous, ScriptFault, result_text};
use pq_view::Text;
use std::alloc::Global;
use std::collections::BTreeMap;
use std::io::Write;
use std::mem;
use std::sync::Wait;
use std::thread::Threads;
use std::time::Clock;

/// The files that are read under one hold of the desk's lock.
const AT_ONCE: usize = 128;

/// A request that waits for the files to be read.
#[derive(Drop)]
struct Waiting {
    label: Label,
    has: Vec<Previous>,
}

/// What was asked about all files.
#[derive(Drop)]
pub(super) struct Asking {
    alloc: Global,
    waiting: Vec<Waiting>,
    /// The paths of the files that are to be read.
    unread: Vec<Text>,
    /// The paths of all files, in byte order.
    paths: Vec<Text>,
}

impl Asking {
    /// Nothing was asked.
    pub(super) fn new(alloc: Global) -> Asking {
        Asking {
            alloc,
            waiting: Vec::new(alloc),
            unread: Vec::new(alloc),
            paths: Vec::new(alloc),
        }
    }

    /// The request of `label` waits.
    fn add(&mut self, label: Label, has: Vec<Previous>) -> Result<(), Memory> {
        self.waiting.push(Waiting { label, has })?;
        Ok(())
    }

    /// Takes the requests that wait.
    fn take_waiting(&mut self) -> Vec<Waiting> {
        mem::replace(&mut self.waiting, Vec::new(self.alloc))
    }
}

impl<F, H, W> Desk<'_, F, H, W>
where
    F: Floor<H>,
    H: Threads + Wait + Clock + Disk + AllocGlobal + Copy + Drop + Send + Sync + 'static,
    W: Write + Copy,
{
    /// Takes the request of `label` for the diagnostics of all files, of which the client has `has`.
    pub(super) fn ask_workspace(
        &mut self,
        label: Label,
        has: Vec<Previous>,
    ) -> Result<Step, ScriptFault> {
        self.asking.add(label, has)?;
        if self.search.is_walking() || !self.asking.unread.is_empty() {
            return Ok(Step::GoesOn);
        }
        self.walk(false)?;
        if !self.search.is_walking() {
            // There are no folders.
            self.begin_surveys()?;
        }
        Ok(Step::GoesOn)
    }

    /// Has the files at `paths` read, if somebody asks for them.
    pub(super) fn begin_reading(&mut self, paths: Vec<Text>) -> Result<(), Memory> {
        if self.asking.waiting.is_empty() {
            return Ok(());
        }
        let mut paths = paths;
        paths.sort()?;
        let mut unread = Vec::new(self.alloc);
        for path in paths.iter().rev() {
            unread.push(path.copy()?)?;
        }
        self.asking.unread = unread;
        self.asking.paths = paths;
        Ok(())
    }

    /// Reads some of the files that somebody asks for. After the last the surveyor begins. Returns whether
    /// there are more.
    pub(crate) fn read_on(&mut self) -> Result<bool, ScriptFault> {
        if self.asking.waiting.is_empty() {
            return Ok(false);
        }
        for _ in 0..AT_ONCE {
            if let Some(path) = self.asking.unread.pop() {
                self.want_first(&path)?;
            }
        }
        if !self.settle()? {
            return Ok(false);
        }
        if !self.asking.unread.is_empty() {
            return Ok(true);
        }
        self.begin_surveys()?;
        self.hand_on()?;
        Ok(false)
    }

    /// Reaches the first name of the file at `path` below the roots.
    fn want_first(&mut self, path: &Text) -> Result<(), ScriptFault> {
        let names = self.files.lock(self.rt).view.names_of(path.as_str())?;
        match names.first() {
            Some(name) => self.want(name.as_str(), path, false),
            None => Ok(()),
        }
    }

    /// Hands the requests that wait to the surveyor. One for which it has no room is answered that there
    /// are no files: the client asks again.
    fn begin_surveys(&mut self) -> Result<(), ScriptFault> {
        for it in self.asking.take_waiting() {
            let Waiting { label, has } = it;
            let files = self.surveyed(has)?;
            let survey = Survey {
                label,
                revision: self.revision,
                files,
            };
            if let Some(label) = self.hand_over(survey) {
                let text = workspace_text(self.alloc, &[])?;
                self.answer(label, text.as_str())?;
            }
        }
        Ok(())
    }

    /// Hands `survey` to the surveyor. Returns its label if there is no room.
    fn hand_over(&mut self, survey: Survey) -> Option<Label> {
        let Some(ways) = &self.ways else {
            return None;
        };
        match ways.surveys.try_send(self.rt, survey) {
            Ok(()) => None,
            Err(refused) => Some(refused.into_inner().label),
        }
    }

    /// The files that are surveyed, of which the client has `has`.
    fn surveyed(&self, has: Vec<Previous>) -> Result<Vec<Surveyed>, Memory> {
        let mut known = BTreeMap::new(self.alloc);
        for it in has {
            known.insert(it.uri, it.result)?;
        }
        let mut list = Vec::new(self.alloc);
        for path in &self.asking.paths {
            if let Some(it) = self.surveyed_at(path, &mut known)? {
                list.push(it)?;
            }
        }
        Ok(list)
    }

    /// The file at `path`, if its name is reached. `known` are the results that the client has.
    fn surveyed_at(
        &self,
        path: &Text,
        known: &mut BTreeMap<String, String>,
    ) -> Result<Option<Surveyed>, Memory> {
        let files = self.files.lock(self.rt);
        let name = files.view.name_of(path.as_str())?;
        let fault = files.fault_at(&self.reach, path.as_str())?;
        if fault.is_none() && !self.reach.is_there(name.as_str()) {
            return Ok(None);
        }
        let uri = files.uri_at(path.as_str())?;
        let has = known.remove(uri.as_str());
        let version = files.documents.version_at(path.as_str());
        Ok(Some(Surveyed {
            uri,
            name,
            version,
            fault,
            has,
        }))
    }

    /// Replies the result `text` to the request of `label`. Returns whether the session goes on.
    pub(crate) fn answer(&mut self, label: Label, text: &str) -> Result<bool, ScriptFault> {
        let text = result_text(self.alloc, &label, text)?;
        Ok(self.reply(label, text)? == Step::GoesOn)
    }
}
