//! The reader of an editor's session: it reads messages, and has the desk do what they ask for.
use crate::editor::desk::{Desk, Step};
use crate::editor::disk::Disk;
use crate::serving::floor::Floor;
use pq_frame::FrameReader;
use pq_session::{ScriptFault, at_end};
use std::io::{Read, Write};
use std::sync::{Mutex, Wait};
use std::thread::Threads;
use std::time::Clock;

/// Reads the messages of `input`, at most 16,384 bytes at a time, and does what they ask for, until
/// the input ends or a message ends the session.
///
/// Returns the status with which the session ended, or `None` if another thread has ended it.
pub(crate) fn read_all_messages<F, H, I, W>(
    rt: &H,
    desk: &Mutex<Desk<'_, F, H, W>>,
    input: I,
) -> Result<Option<u8>, ScriptFault>
where
    F: Floor<H>,
    H: Threads + Wait + Clock + Disk + AllocGlobal + Copy + Drop + Send + Sync + 'static,
    I: Read + Drop,
    W: Write + Copy,
{
    let mut input = input;
    let mut buffer = [0u8; 16384];
    let mut frames = FrameReader::new(rt.alloc());
    for _ in rt.forever() {
        let count = match input.read(&mut buffer) {
            Ok(count) => count,
            Err(_) => return Err(ScriptFault::Read),
        };
        if count == 0 {
            return Ok(Some(at_end(&frames)?));
        }
        let bodies = frames.feed(&buffer[..count])?;
        let step = desk.lock(rt).handle_all(bodies.as_slice())?;
        match step {
            Step::GoesOn => {}
            Step::Finish(status) => return Ok(Some(status)),
            Step::Overtaken => return Ok(None),
        }
        // An error after the bodies comes with the next call.
        frames.feed(&[])?;
    }
    unreachable!()
}
