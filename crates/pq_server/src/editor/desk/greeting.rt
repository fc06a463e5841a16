//! The beginning of a session, and the folders of the editor.
use crate::editor::desk::{Desk, Step};
use crate::editor::disk::Disk;
use crate::editor::roots::{named_by_buf, place_of};
use crate::serving::floor::Floor;
use pq_proto::ProtoKey;
use pq_session::{Event, Greeting, Item, Memory, Root, ScriptFault, editor_initialized_text};
use std::io::Write;
use std::sync::Wait;
use std::thread::Threads;
use std::time::Clock;

impl<F, H, W> Desk<'_, F, H, W>
where
    F: Floor<H>,
    H: Threads + Wait + Clock + Disk + AllocGlobal + Copy + Drop + Send + Sync + 'static,
    W: Write + Copy,
{
    /// Takes `greeting`, and replies to it what `stdio` does for an editor in the place of `item`.
    pub(super) fn greet_first(
        &mut self,
        greeting: Greeting,
        item: Item<ProtoKey>,
    ) -> Result<Step, ScriptFault> {
        if !self.greet(greeting)? {
            return Ok(Step::Overtaken);
        }
        let Item::Say(request) = item else {
            return self.carry_out(Event::Other, item);
        };
        let text = editor_initialized_text(self.alloc, &request.label)?;
        self.reply(request.label, text)
    }

    /// Takes what `greeting` says, and its folders as roots. Nothing below them is read. Returns whether
    /// the session goes on.
    fn greet(&mut self, greeting: Greeting) -> Result<bool, ScriptFault> {
        let Greeting {
            roots,
            pulls,
            watches,
            refreshes,
            reports_progress,
        } = greeting;
        self.takes.pushes = !pulls;
        self.takes.watch = watches;
        self.takes.refresh = pulls && refreshes;
        self.takes.progress = reports_progress;
        for root in &roots {
            self.add_folder(root)?;
        }
        self.take_roots()
    }

    /// Adds the folder `root` of the editor, with the folders that a file of the build tool names there.
    fn add_folder(&mut self, root: &Root) -> Result<(), Memory> {
        let place = place_of(self.rt, self.alloc, root.path())?;
        let named = named_by_buf(self.rt, self.alloc, &place)?;
        self.roots.add_folder(place, named)
    }

    /// Adds the folders `added` of the editor, and takes out the folders `removed`. Returns whether the
    /// session goes on.
    pub(super) fn change_folders(
        &mut self,
        added: &[Root],
        removed: &[Root],
    ) -> Result<bool, ScriptFault> {
        for root in removed {
            let place = place_of(self.rt, self.alloc, root.path())?;
            self.roots.remove_folder(place.root.as_str());
        }
        for root in added {
            self.add_folder(root)?;
        }
        self.search.lack();
        self.take_roots()
    }
}
