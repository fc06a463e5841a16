//! The walker of an editor's session: it finds the files below folders, and tells the desk of them. Where
//! somebody asks about all files, it has the desk read them.
//!
//! A walk may take seconds, or hang where a network went away. So it has a thread of its own, and nobody
//! waits for it longer than the desk does.
use crate::editor::desk::Desk;
use crate::editor::disk::Disk;
use crate::editor::lines::Lines;
use crate::editor::tree::walk;
use crate::serving::floor::Floor;
use crossbeam_channel::Receiver;
use pq_session::ScriptFault;
use pq_view::Text;
use std::alloc::Global;
use std::io::Write;
use std::sync::{Mutex, Wait};
use std::thread::Threads;
use std::time::Clock;

/// A walk that is asked for.
#[derive(Drop)]
pub(crate) struct Walk {
    /// The folders below which files are looked for, with all links followed.
    pub(crate) tops: Vec<Text>,
}

/// Makes the walks that are asked for, in their order, and tells the desk what each found. It ends when
/// the way of `walks` is dropped, where the session does not go on, and by an error.
pub(crate) fn walk_all<F, H, W>(
    rt: &H,
    alloc: Global,
    desk: &Mutex<Desk<'_, F, H, W>>,
    lines: Lines,
    walks: Receiver<Walk>,
) -> Result<(), ScriptFault>
where
    F: Floor<H>,
    H: Threads + Wait + Clock + Disk + AllocGlobal + Copy + Drop + Send + Sync + 'static,
    W: Write + Copy,
{
    for _ in rt.forever() {
        let Ok(asked) = walks.recv(rt) else {
            return Ok(());
        };
        let tree = walk(rt, alloc, &asked.tops, &lines)?;
        if !desk.lock(rt).take_tree(tree)? {
            return Ok(());
        }
        read_all(rt, desk)?;
    }
    unreachable!()
}

/// Has the desk read the files that somebody asks about, some at a time, so that others have their turn.
fn read_all<F, H, W>(rt: &H, desk: &Mutex<Desk<'_, F, H, W>>) -> Result<(), ScriptFault>
where
    F: Floor<H>,
    H: Threads + Wait + Clock + Disk + AllocGlobal + Copy + Drop + Send + Sync + 'static,
    W: Write + Copy,
{
    for _ in rt.forever() {
        if !desk.lock(rt).read_on()? {
            return Ok(());
        }
    }
    unreachable!()
}
