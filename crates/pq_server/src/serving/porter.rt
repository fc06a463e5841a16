//! The porter of a session: it carries the posts of the client into the hall.
//!
//! It waits for a post, and for room in the window of the client, which each put of a reply gives. After
//! the last post it waits until each reply was put. The writer takes replies meanwhile, and those that
//! had no room are put (`Floor::refill`). Where another thread closes the client, or the hall is shut,
//! the porter waits no longer, but for a post.
use crate::serving::floor::{Carried, Floor};
use pq_core::EditFault;
use pq_hall::{Client, HallFault};
use pq_session::ScriptFault;
use std::net::{Shutdown, TcpStream};
use std::sync::Wait;

/// Carries the posts of `client` until there are no more. The client is closed once each reply was put,
/// so that the writer ends.
///
/// A post that is refused for good ends it. The client is closed then, and the stream is shut down,
/// so that the reader ends too. The error says why, unless another thread had closed the client.
pub(crate) fn carry_all<F: Floor<H>, H: Wait>(
    rt: &H,
    floor: &F,
    client: Client,
    porter: F::Porter,
    stream: &TcpStream,
) -> Result<(), ScriptFault> {
    let mut porter = porter;
    for _ in rt.forever() {
        match floor.carry(rt, client, &mut porter) {
            Ok(Carried::Ended) => {
                floor.finish(rt, client);
                return Ok(());
            }
            Ok(_) => {}
            Err(fault) => {
                let _ = stream.shutdown(Shutdown::Both);
                return ended_by(fault);
            }
        }
    }
    unreachable!()
}

/// The outcome of a session whose post was refused with this error.
fn ended_by(fault: HallFault) -> Result<(), ScriptFault> {
    match fault_of(fault) {
        Some(fault) => Err(fault),
        None => Ok(()),
    }
}

/// The error of a session whose post was refused with this error. `None` if its client was closed.
pub(crate) fn fault_of(fault: HallFault) -> Option<ScriptFault> {
    match fault {
        HallFault::Edit(EditFault::Input(fault)) => Some(ScriptFault::Edit(fault)),
        HallFault::Edit(EditFault::NoClient) => None,
        HallFault::Edit(EditFault::Closed) => None,
        HallFault::Edit(EditFault::BadRange) => Some(ScriptFault::BadRange),
        HallFault::Closed => None,
        HallFault::Memory => Some(ScriptFault::Memory),
    }
}
