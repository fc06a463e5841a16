//! The files of the names that documents reach: where they lie below the roots, and what a walk shows.
//!
//! A name is looked for below each root, up to the first below which there is a file. So what was looked
//! at is all of the disk on which its source rests (`what_was_looked_at_is_enough` of `pq_view`). Each
//! path that was looked at is watched from then on.
use crate::editor::desk::Desk;
use crate::editor::desk::reach::Missing;
use crate::editor::disk::Disk;
use crate::editor::tree::Tree;
use crate::editor::walker::Walk;
use crate::library::Failure;
use crate::serving::floor::Floor;
use pq_editor::FileFault;
use pq_inputs::Durability;
use pq_session::{Memory, ScriptFault, looked_in};
use pq_view::Text;
use std::alloc::Global;
use std::io::Write;
use std::sync::Wait;
use std::thread::Threads;
use std::time::Clock;

impl<F, H, W> Desk<'_, F, H, W>
where
    F: Floor<H>,
    H: Threads + Wait + Clock + Disk + AllocGlobal + Copy + Drop + Send + Sync + 'static,
    W: Write + Copy,
{
    /// Looks for the file of each name that is reached and was not looked for, and takes the roots that
    /// the last walk shows. Where imports are missing then, a walk may begin. Returns whether the session
    /// goes on.
    pub(crate) fn settle(&mut self) -> Result<bool, ScriptFault> {
        for _ in self.rt.forever() {
            let names = self.reach.take_queue();
            let goes_on = if !names.is_empty() {
                self.find_all(names)?
            } else if self.find_roots()? {
                self.take_roots()?
            } else {
                self.walk_for_missing()?;
                return Ok(true);
            };
            if !goes_on {
                return Ok(false);
            }
        }
        unreachable!()
    }

    /// Looks for the files of `names`. Returns whether the session goes on.
    fn find_all(&mut self, names: Vec<Text>) -> Result<bool, ScriptFault> {
        let paths = self.unseen_paths(&names)?;
        if !self.read(paths)? {
            return Ok(false);
        }
        for name in names {
            if !self.find(name)? {
                return Ok(false);
            }
        }
        Ok(true)
    }

    /// The paths on which the sources of `names` rest and at which nothing was looked for.
    fn unseen_paths(&mut self, names: &[Text]) -> Result<Vec<Text>, Memory> {
        let mut unseen = Vec::new(self.alloc);
        for name in names {
            let paths = self.files.lock(self.rt).view.paths_before(name.as_str())?;
            for path in paths {
                if self.reach.look_at(path.as_str())? {
                    unseen.push(path)?;
                }
            }
        }
        Ok(unseen)
    }

    /// Reads the files at `paths`. Returns whether the session goes on.
    pub(super) fn read(&mut self, paths: Vec<Text>) -> Result<bool, ScriptFault> {
        if paths.is_empty() {
            return Ok(true);
        }
        let fetched = self.fetcher.fetch(self.rt, paths)?;
        let later = self.fetcher.take_later();
        self.files.lock(self.rt).touch(&later)?;
        for it in fetched {
            if !self.set_on_disk(it)? {
                return Ok(false);
            }
        }
        Ok(true)
    }

    /// Sets the file `name`, all paths of which were looked at, to its text. Returns whether the session
    /// goes on.
    fn find(&mut self, name: Text) -> Result<bool, ScriptFault> {
        if !self.reach.is_there(name.as_str()) {
            if let Some((text, durability)) = self.source(name.as_str())? {
                if !self.post_text(name.copy()?, Some(text), durability)? {
                    return Ok(false);
                }
            }
        }
        self.reach.look_for(name.as_str())?;
        Ok(true)
    }

    /// The text of the file `name`, if it has one that is short enough, and its durability.
    fn source(&self, name: &str) -> Result<Option<(Text, Durability)>, Memory> {
        let files = self.files.lock(self.rt);
        let Some(text) = files.view.source(name)? else {
            return Ok(None);
        };
        let text = text.copy()?;
        let path = files.view.path_of(name)?;
        let durability = if files.view.is_open(path.as_str()) {
            Durability::Low
        } else {
            Durability::High
        };
        Ok(Some((text, durability)))
    }

    /// Takes up the roots that the last walk shows for missing imports. Returns whether there are new ones.
    fn find_roots(&mut self) -> Result<bool, Memory> {
        if self.search.tails.is_none() || !self.reach.has_unasked() {
            return Ok(false);
        }
        let mut is_new = false;
        for it in self.reach.take_unasked()? {
            if self.find_root(&it)? {
                is_new = true;
            }
        }
        Ok(is_new)
    }

    /// Takes up the root that the last walk shows for a missing import. Returns whether it is new.
    fn find_root(&mut self, missing: &Missing) -> Result<bool, Memory> {
        let Some(tails) = &self.search.tails else {
            return Ok(false);
        };
        let Some(root) = tails.root_of(missing.importer.as_str(), missing.name.as_str())? else {
            self.search.lack();
            return Ok(false);
        };
        if !self.roots.add_found(root.copy()?)? {
            return Ok(false);
        }
        self.say_found(root.as_str(), missing.name.as_str());
        Ok(true)
    }

    /// Takes the roots in their order: each name is looked for anew. Returns whether the session goes on.
    pub(super) fn take_roots(&mut self) -> Result<bool, ScriptFault> {
        let (roots, faces) = self.roots.order()?;
        let looked = looked_in(self.alloc, &faces)?;
        self.has_moved = true;
        self.has_renamed = true;
        let edits = {
            let mut files = self.files.lock(self.rt);
            let edits = files.view.set_roots(copies(self.alloc, &roots)?)?;
            files.roots = roots;
            files.faces = faces;
            files.looked = looked;
            edits
        };
        self.reach.ask_again()?;
        self.want_documents()?;
        self.post_disk(edits)
    }

    /// Reaches the names of each open document.
    fn want_documents(&mut self) -> Result<(), ScriptFault> {
        let paths = self.files.lock(self.rt).documents.paths()?;
        for path in paths {
            self.want_path(&path)?;
        }
        Ok(())
    }

    /// Reaches the names of the file at `path` below the roots, and the path, which is its name where it
    /// is found below none.
    pub(super) fn want_path(&mut self, path: &Text) -> Result<(), ScriptFault> {
        let names = self.files.lock(self.rt).view.names_of(path.as_str())?;
        for name in names {
            self.want(name.as_str(), path, false)?;
        }
        self.want(path.as_str(), path, false)
    }

    /// Reaches `name`, which the file at `importer` imports if `is_imported` is true. A name too many is
    /// said.
    pub(super) fn want(
        &mut self,
        name: &str,
        importer: &Text,
        is_imported: bool,
    ) -> Result<(), ScriptFault> {
        if self.reach.want(name, importer, is_imported)? {
            return Ok(());
        }
        self.say_too_many(name)
    }

    /// Begins a walk if imports are missing and it is time for one. If one is under way lists are held for
    /// it.
    fn walk_for_missing(&mut self) -> Result<(), ScriptFault> {
        if !self.reach.has_missing() {
            return Ok(());
        }
        if self.search.is_walking() {
            self.search.hold(self.rt);
            return Ok(());
        }
        if self.search.may_walk(self.rt) {
            return self.walk(true);
        }
        Ok(())
    }

    /// Begins a walk through the folders of the editor. Lists are held for it if it is the first and
    /// `holds` is true. Where there are no folders there is no walk.
    pub(super) fn walk(&mut self, holds: bool) -> Result<(), ScriptFault> {
        let tops = self.roots.tops()?;
        if tops.is_empty() {
            self.search.let_go();
            return Ok(());
        }
        let Some(ways) = &self.ways else {
            return Ok(());
        };
        if ways.walks.try_send(self.rt, Walk { tops }).is_err() {
            return Ok(());
        }
        let is_first = !self.search.is_over();
        self.search.begin(self.rt, holds);
        if is_first {
            return self.ask_for_progress();
        }
        Ok(())
    }

    /// Takes what a walk found: the roots that it shows for missing imports. What waited for it goes on.
    /// Returns whether the session goes on.
    pub(crate) fn take_tree(&mut self, tree: Tree) -> Result<bool, ScriptFault> {
        self.search.end(self.rt, self.alloc, &tree.paths)?;
        self.end_progress()?;
        self.reach.forget_asked()?;
        self.begin_reading(tree.paths)?;
        if !self.settle()? || !self.release()? {
            return Ok(false);
        }
        self.hand_on()?;
        Ok(true)
    }

    /// Does what waited for a time that has come. Returns whether the session goes on.
    pub(crate) fn tick(&mut self) -> Result<bool, ScriptFault> {
        if self.search.is_due(self.rt) && !self.let_go()? {
            return Ok(false);
        }
        if !self.settle()? {
            return Ok(false);
        }
        self.hand_on()?;
        Ok(true)
    }

    /// Lists are held no longer, and the requests that waited are handed in. Returns whether the session
    /// goes on.
    pub(super) fn let_go(&mut self) -> Result<bool, ScriptFault> {
        self.search.let_go();
        self.release()
    }

    /// Says once that there are too many files.
    fn say_too_many(&mut self, name: &str) -> Result<(), ScriptFault> {
        if self.said.is_full() {
            return Ok(());
        }
        self.lines
            .say_failure(self.rt, name, &Failure::TooManyNames);
        self.tell_of(name, FileFault::TooMany)
    }
}

/// Copies of `texts`.
pub(super) fn copies(alloc: Global, texts: &[Text]) -> Result<Vec<Text>, Memory> {
    let mut list = Vec::new(alloc);
    for text in texts {
        list.push(text.copy()?)?;
    }
    Ok(list)
}
