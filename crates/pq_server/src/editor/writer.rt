//! The writer of an editor's session: it writes a reply for each receipt.
use crate::editor::files::{Files, Shown};
use crate::editor::output::Output;
use crate::serving::floor::{Floor, NoText};
use crossbeam_channel::Receiver;
use pq_hall::Client;
use pq_session::ScriptFault;
use std::alloc::Global;
use std::io::Write;
use std::sync::{Mutex, Wait};

/// Writes the replies of `client` to `output`, one for each receipt, until there are no more receipts.
/// The URIs in them are those that `files` has when they are written.
///
/// A failed write or allocation, and the close of the client, end it, and the client is closed then.
/// After the close of the client it is no error.
pub(crate) fn write_all_replies<F, H, W>(
    rt: &H,
    alloc: Global,
    floor: &F,
    client: Client,
    take: F::Take,
    owed: Receiver<F::Receipt>,
    files: &Mutex<Files>,
    output: &Output<W>,
) -> Result<(), ScriptFault>
where
    F: Floor<H>,
    H: Wait,
    W: Write + Copy,
{
    let mut take = take;
    let places = Shown { rt, files };
    for _ in rt.forever() {
        let Ok(receipt) = owed.recv(rt) else {
            return Ok(());
        };
        let written = match floor.editor_text(rt, alloc, client, &mut take, &receipt, &places) {
            Ok(text) => output.send(rt, text.as_str()),
            Err(NoText::Closed) => return Ok(()),
            Err(NoText::Memory) => Err(ScriptFault::Memory),
        };
        if let Err(fault) = written {
            floor.close(rt, client);
            return Err(fault);
        }
    }
    unreachable!()
}
