//! The logger of an editor's session: it puts what is said on standard error into the log of the editor.
//!
//! A client may get no message before it has sent `initialized`. So the logger waits for that. What was
//! said before comes first then, as far as there was room for it.
use crate::editor::output::Output;
use crossbeam_channel::Receiver;
use pq_editor::{Kind, log_message};
use pq_session::ScriptFault;
use std::alloc::Global;
use std::io::Write;
use std::sync::Wait;

/// Waits for `begin`, and sends each line that is heard to the log of the editor, until no more can be
/// heard. It sends nothing if `begin` is gone before.
///
/// A failed write ends it. A line for which an allocation fails is dropped.
pub(crate) fn log_all<H: Wait, W: Write + Copy>(
    rt: &H,
    alloc: Global,
    begin: Receiver<()>,
    heard: Receiver<String>,
    output: &Output<W>,
) -> Result<(), ScriptFault> {
    if begin.recv(rt).is_err() {
        return Ok(());
    }
    for _ in rt.forever() {
        match heard.recv(rt) {
            Ok(line) => log_line(rt, alloc, output, line.as_str())?,
            Err(_) => return Ok(()),
        }
    }
    unreachable!()
}

/// Sends `line` to the log of the editor. Without memory for it, it is dropped.
fn log_line<H: Wait, W: Write + Copy>(
    rt: &H,
    alloc: Global,
    output: &Output<W>,
    line: &str,
) -> Result<(), ScriptFault> {
    let Ok(body) = log_message(alloc, Kind::Log, line) else {
        return Ok(());
    };
    match output.send_list(rt, body.as_str()) {
        Err(ScriptFault::Memory) => Ok(()),
        sent => sent,
    }
}
