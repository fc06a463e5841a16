//! What is asked of imports: the links of a document, and the file that an import's string leads to.
use crate::editor::desk::asks::Held;
use crate::editor::desk::{Desk, Step};
use crate::editor::disk::Disk;
use crate::serving::floor::Floor;
use pq_core::Label;
use pq_editor::{Import, Link, import_at, imports_of, links_text, start_of_file_text};
use pq_session::{Memory, ScriptFault, result_text};
use std::io::Write;
use std::sync::Wait;
use std::thread::Threads;
use std::time::Clock;

impl<F, H, W> Desk<'_, F, H, W>
where
    F: Floor<H>,
    H: Threads + Wait + Clock + Disk + AllocGlobal + Copy + Drop + Send + Sync + 'static,
    W: Write + Copy,
{
    /// Replies the links of the document `uri` to the request of `label`. While lists are held it waits.
    pub(super) fn answer_links(&mut self, label: Label, uri: String) -> Result<Step, ScriptFault> {
        if !self.settle()? {
            return Ok(Step::Overtaken);
        }
        if self.search.is_held(self.rt) {
            return self.hold(Held::Links { label, uri });
        }
        self.answer_links_now(label, uri.as_str())
    }

    /// Replies the links of the document `uri` to the request of `label`. A document that is not open has
    /// none.
    pub(super) fn answer_links_now(
        &mut self,
        label: Label,
        uri: &str,
    ) -> Result<Step, ScriptFault> {
        let links = self.links_in(uri)?;
        let text = links_text(self.alloc, &links)?;
        let text = result_text(self.alloc, &label, text.as_str())?;
        self.reply(label, text)
    }

    /// The links of the document `uri`: its imports that have a file.
    fn links_in(&self, uri: &str) -> Result<Vec<Link>, Memory> {
        let mut links = Vec::new(self.alloc);
        let Some(face) = self.face_of(uri)? else {
            return Ok(links);
        };
        let path = self.path_of(face.as_str())?;
        for import in self.imports_at(path.as_str())? {
            if let Some(uri) = self.uri_of_import(&import)? {
                links.push(Link {
                    start: import.start,
                    end: import.end,
                    uri,
                })?;
            }
        }
        Ok(links)
    }

    /// The imports of the file at `path`, if its text is known.
    fn imports_at(&self, path: &str) -> Result<Vec<Import>, Memory> {
        let text = match self.files.lock(self.rt).view.text_at(path) {
            Some(text) => text.copy()?,
            None => return Ok(Vec::new(self.alloc)),
        };
        imports_of(self.alloc, text.as_str())
    }

    /// The URI of the file that `import` names, if there is one.
    fn uri_of_import(&self, import: &Import) -> Result<Option<String>, Memory> {
        let name = import.name.as_str();
        let files = self.files.lock(self.rt);
        if files.view.source(name)?.is_none() {
            return Ok(None);
        }
        Ok(Some(files.uri_of(name)?))
    }

    /// The result of the definition at a position of the file at `path`, if an import's string is there:
    /// the start of the file that it names, or `null` if there is none.
    pub(super) fn definition_of_import(
        &self,
        path: &str,
        line: usize,
        character: usize,
    ) -> Result<Option<String>, Memory> {
        let imports = self.imports_at(path)?;
        let Some(import) = import_at(&imports, line, character) else {
            return Ok(None);
        };
        match self.uri_of_import(import)? {
            Some(uri) => Ok(Some(start_of_file_text(self.alloc, uri.as_str())?)),
            None => Ok(Some(String::from_str(self.alloc, "null")?)),
        }
    }
}
