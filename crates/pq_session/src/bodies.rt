//! The bodies of messages, answered in order.
//!
//! Each body is handled, and its response is written and flushed, before the next one. The first
//! body that ends the session, and the first error, end the list.
ghost use Rattle.std.specs.Prelude.{◌≡◌, ◌<◌, ◌^◌, ◌∷◌, [], ℕ, List, IfOk, IfErr};
ghost use Rattle.std.specs.Io.KnownBytes.{Appends};
ghost use Rattle.pq_frame.specs.Bodies.{bodies_of};
ghost use Rattle.pq_session.specs.Counts.{inner_of, failed_of};
ghost use Rattle.pq_session.specs.Script.{FailsToWrite};
ghost use Rattle.pq_session.specs.aux.Answered.{Answered};
ghost use Rattle.pq_session.specs.aux.ServerState.{state_of};
ghost use Rattle.pq_session.specs.aux.Steps.{Fails, exit_of};

use crate::counted::Counted;
use crate::fault::ScriptFault;
use crate::send::send_frame;
use crate::state::server_state::{ServerState, Step};
use std::alloc::Global;
use std::io::Write;

/// Answers one body: its response is written and flushed. Returns the status, if the body ends the
/// session.
fn answer_body<W: Write>(
    alloc: Global,
    server: &mut ServerState,
    writer: &mut Counted<W>,
    body: &[u8],
) -> Result<Option<u8>, ScriptFault>
    requires { failed_of writer.old < 2 ^ 63 }
    ensures ok { IfOk result (λ status. (out : List ℕ)
        × Answered (state_of server.old) (body.now ∷ []) out (exit_of status) (state_of server.new)
        × Appends (W.contents (inner_of writer.old)) (W.contents (inner_of writer.new)) out) }
    ensures err { IfErr result (λ e. (out : List ℕ)
        × Fails (state_of server.old) (body.now ∷ []) out e
        × Appends (W.contents (inner_of writer.old)) (W.contents (inner_of writer.new)) out) }
    ensures counts { FailsToWrite result (failed_of writer.old) (failed_of writer.new) }
{
    match server.handle(alloc, body)? {
        Step::Silence => Ok(None),
        Step::Finish(status) => Ok(Some(status)),
        Step::Reply(reply) => {
            send_frame(alloc, writer, reply.as_bytes())?;
            Ok(None)
        }
    }
}

/// Answers `bodies` in order, up to the first that ends the session. Returns its status, if there is
/// one.
pub(crate) fn answer_bodies<W: Write>(
    alloc: Global,
    server: &mut ServerState,
    writer: &mut Counted<W>,
    bodies: &[Vec<u8>],
) -> Result<Option<u8>, ScriptFault>
    requires { failed_of writer.old < 2 ^ 63 }
    ensures ok { IfOk result (λ status. (out : List ℕ)
        × Answered (state_of server.old) (bodies_of bodies.now) out (exit_of status) (state_of server.new)
        × Appends (W.contents (inner_of writer.old)) (W.contents (inner_of writer.new)) out) }
    ensures err { IfErr result (λ e. (out : List ℕ)
        × Fails (state_of server.old) (bodies_of bodies.now) out e
        × Appends (W.contents (inner_of writer.old)) (W.contents (inner_of writer.new)) out) }
    ensures counts { FailsToWrite result (failed_of writer.old) (failed_of writer.new) }
{
    for body in bodies {
        if let Some(status) = answer_body(alloc, server, writer, body)? {
            return Ok(Some(status));
        }
    }
    Ok(None)
}
