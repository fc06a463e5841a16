//! Requests: they are handed in under the names that files have below the roots.
use crate::editor::desk::{Desk, Step};
use crate::editor::disk::Disk;
use crate::editor::line::Handed;
use crate::library::joined;
use crate::serving::floor::Floor;
use pq_core::{Label, Request, Want};
use pq_editor::fault_report;
use pq_mail::Post;
use pq_proto::{Place, ProtoKey};
use pq_session::{Memory, ScriptFault, asked_file, renamed, result_text};
use pq_view::Text;
use std::io::Write;
use std::sync::Wait;
use std::thread::Threads;
use std::time::Clock;

/// What waits for the first walk.
#[derive(Drop)]
pub(super) enum Held {
    Request(Request<ProtoKey>),
    /// The request of this label for the links of a document.
    Links { label: Label, uri: String },
}

impl<F, H, W> Desk<'_, F, H, W>
where
    F: Floor<H>,
    H: Threads + Wait + Clock + Disk + AllocGlobal + Copy + Drop + Send + Sync + 'static,
    W: Write + Copy,
{
    /// Hands in `request`, about the file that its path has below the roots. While lists are held it
    /// waits, with all that come after it.
    pub(super) fn ask(&mut self, request: Request<ProtoKey>) -> Result<Step, ScriptFault> {
        let path = match asked_file(&request) {
            Some(file) => self.path_below_all(file)?,
            None => return self.hand_in(Post::Ask(request)),
        };
        if !self.files.lock(self.rt).view.is_open(path.as_str()) {
            self.want_path(&path)?;
        }
        if !self.settle()? {
            return Ok(Step::Overtaken);
        }
        if self.search.is_held(self.rt) {
            return self.hold(Held::Request(request));
        }
        self.ask_now(request)
    }

    /// Keeps `held` until lists are held no longer.
    pub(super) fn hold(&mut self, held: Held) -> Result<Step, ScriptFault> {
        match self.held.push_back(held) {
            Ok(()) => Ok(Step::GoesOn),
            Err(_) => Err(ScriptFault::Memory),
        }
    }

    /// Hands in the requests that wait. Returns whether the session goes on.
    pub(super) fn release(&mut self) -> Result<bool, ScriptFault> {
        for _ in 0..self.held.len() {
            let Some(held) = self.held.pop_front() else {
                return Ok(true);
            };
            if self.ask_held(held)? != Step::GoesOn {
                return Ok(false);
            }
        }
        Ok(true)
    }

    /// Does what `held` asks for.
    fn ask_held(&mut self, held: Held) -> Result<Step, ScriptFault> {
        match held {
            Held::Request(request) => self.ask_now(request),
            Held::Links { label, uri } => self.answer_links_now(label, uri.as_str()),
        }
    }

    /// Withdraws the request of `label`. If requests wait, they are handed in before.
    pub(super) fn withdraw(&mut self, label: Label) -> Result<Step, ScriptFault> {
        if !self.release()? {
            return Ok(Step::Overtaken);
        }
        self.hand_in(Post::Withdraw(label))
    }

    /// Hands in `request`. What the sources do not answer is answered at once: the diagnostics of a file
    /// that is not read, and the definition at the string of an import.
    fn ask_now(&mut self, request: Request<ProtoKey>) -> Result<Step, ScriptFault> {
        let path = match asked_file(&request) {
            Some(file) => self.path_below_all(file)?,
            None => return self.hand_in(Post::Ask(request)),
        };
        if let Some(text) = self.text_of_own(&request, &path)? {
            let text = result_text(self.alloc, &request.label, text.as_str())?;
            return self.reply(request.label, text);
        }
        let name = self.files.lock(self.rt).view.name_of(path.as_str())?;
        let request = renamed(self.alloc, request, name.as_str())?;
        self.hand_in(Post::Ask(request))
    }

    /// The result of `request` about the file at `path`, where the sources do not answer it.
    fn text_of_own(
        &self,
        request: &Request<ProtoKey>,
        path: &Text,
    ) -> Result<Option<String>, Memory> {
        match &request.want {
            Want::Demand(ProtoKey::Diagnostics(_)) => self.report_of_fault(path),
            Want::Demand(ProtoKey::Definition(_, place)) => self.import_text(path, *place),
            _ => Ok(None),
        }
    }

    /// The report of the file at `path`, if it is not read.
    fn report_of_fault(&self, path: &Text) -> Result<Option<String>, Memory> {
        let fault = self
            .files
            .lock(self.rt)
            .fault_at(&self.reach, path.as_str())?;
        match fault {
            Some(fault) => Ok(Some(fault_report(self.alloc, fault)?)),
            None => Ok(None),
        }
    }

    /// The result of the definition at `place` of the file at `path`, if an import's string is there.
    fn import_text(&self, path: &Text, place: Place) -> Result<Option<String>, Memory> {
        self.definition_of_import(path.as_str(), place.line, place.character)
    }

    /// The path of the file at the path `/` and `file`.
    fn path_below_all(&self, file: &str) -> Result<Text, Memory> {
        let face = joined(self.alloc, "/", file)?;
        self.path_of(face.as_str())
    }

    /// Replies `text` to the request of `label`.
    pub(super) fn reply(&mut self, label: Label, text: String) -> Result<Step, ScriptFault> {
        let text = Text::from_string(self.alloc, text)?;
        self.hand_in(Post::Ask(Request {
            label,
            want: Want::Fixed(text),
        }))
    }

    /// Hands in `post`. The receipt of a request goes to the writer.
    pub(super) fn hand_in(&mut self, post: Post<ProtoKey>) -> Result<Step, ScriptFault> {
        match self.line.hand_in(post)? {
            Handed::Asked(receipt) => Ok(self.owe(receipt)),
            Handed::Closed => Ok(Step::Overtaken),
            _ => Ok(Step::GoesOn),
        }
    }

    /// Hands `receipt` to the writer.
    fn owe(&self, receipt: F::Receipt) -> Step {
        let Some(ways) = &self.ways else {
            return Step::Overtaken;
        };
        match ways.receipts.send(self.rt, receipt) {
            Ok(()) => Step::GoesOn,
            Err(_) => Step::Overtaken,
        }
    }
}
