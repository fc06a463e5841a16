//! The reader of a session: it posts what the messages of the client say.
//!
//! A post wakes nobody, so that the porter is woken once for all posts of a piece. It is woken:
//!
//! - after the messages of a piece, when their receipts were handed on, also after an error;
//! - before the reader waits for room for a receipt;
//! - by the post itself where that waits for room in the inbox;
//! - by the drop of the end that posts.
//!
//! So the reader waits, for input or for a thread, only where the porter was woken after the last post.
//! The receipt of a request follows its post at once. The reader waits between the two only while
//! receipts are there for the writer to take, so a writer that waits for a receipt gets it.
use crate::serving::floor::{Owed, Posting};
use crate::serving::roots::RootCheck;
use crossbeam_channel::{Sender, TrySendError};
use log::Log;
use pq_frame::{FrameReader, Message};
use pq_mail::{Post, PostFault};
use pq_proto::ProtoKey;
use pq_session::{Item, Root, ScriptFault, Session, at_end};
use std::alloc::{AllocError, Global};
use std::io::Read;
use std::net::TcpStream;
use std::sync::Wait;

/// Whether a session goes on after a message.
#[derive(Clone, Copy, Debug, PartialEq, Eq)]
enum Step {
    GoesOn,
    /// The message ended the session with this status.
    Finish(u8),
    /// Another thread has ended the session.
    Overtaken,
}

/// What the reader of a session holds: the end that posts, of the type `P`, the way of receipts, of
/// the type `Q`, to the writer, and the check of the root.
#[derive(Drop)]
pub(crate) struct Intake<'a, P, Q> {
    session: Session,
    post: P,
    receipts: Sender<Owed<Q>>,
    roots: RootCheck<'a>,
}

impl<'a, P: Drop, Q: Drop> Intake<'a, P, Q> {
    /// The intake of a session whose client has sent nothing.
    pub(crate) fn new(
        post: P,
        receipts: Sender<Owed<Q>>,
        roots: RootCheck<'a>,
    ) -> Intake<'a, P, Q> {
        Intake {
            session: Session::new(),
            post,
            receipts,
            roots,
        }
    }

    /// Posts `post`, and wakes nobody for it. A receipt of a request goes to the writer. The root is
    /// copied before, so that no allocation fails between the post and its receipt.
    fn hand_in<F, H>(
        &mut self,
        rt: &H,
        alloc: Global,
        floor: &F,
        post: Post<ProtoKey>,
    ) -> Result<Step, ScriptFault>
    where
        F: Posting<H, Post = P, Receipt = Q>,
        H: Wait,
    {
        let root = root_of(alloc, &self.session)?;
        match floor.post_quietly(rt, &mut self.post, post) {
            Ok(Some(receipt)) => Ok(self.hand_on(rt, floor, Owed { receipt, root })),
            Ok(None) => Ok(Step::GoesOn),
            Err(fault) => ended_by(fault),
        }
    }

    /// Hands `owed` to the writer. Before it waits for room it wakes the porter.
    fn hand_on<F, H>(&self, rt: &H, floor: &F, owed: Owed<Q>) -> Step
    where
        F: Posting<H, Post = P, Receipt = Q>,
        H: Wait,
    {
        let owed = match self.receipts.try_send(rt, owed) {
            Ok(()) => return Step::GoesOn,
            Err(TrySendError::Full(owed)) => owed,
            Err(_) => return Step::Overtaken,
        };
        floor.wake(&self.post);
        match self.receipts.send(rt, owed) {
            Ok(()) => Step::GoesOn,
            Err(_) => Step::Overtaken,
        }
    }

    /// Does what the message of this body asks for.
    fn handle<F, H>(
        &mut self,
        rt: &H,
        alloc: Global,
        floor: &F,
        body: &[u8],
    ) -> Result<Step, ScriptFault>
    where
        F: Posting<H, Post = P, Receipt = Q>,
        H: Wait + Log,
    {
        let message = Message::read(alloc, body)?;
        let item = self.session.on(alloc, message)?;
        self.roots.look(rt, self.session.root());
        match item {
            Item::Ask(request) => self.hand_in(rt, alloc, floor, Post::Ask(request)),
            Item::Say(request) => self.hand_in(rt, alloc, floor, Post::Ask(request)),
            Item::Edit(change) => self.hand_in(rt, alloc, floor, Post::Edit(change)),
            Item::Withdraw(label) => self.hand_in(rt, alloc, floor, Post::Withdraw(label)),
            Item::Ignore => Ok(Step::GoesOn),
            Item::End(status) => Ok(Step::Finish(status)),
        }
    }

    /// Does what the messages of `bodies` ask for, up to the first after which the session does not
    /// go on.
    fn handle_each<F, H>(
        &mut self,
        rt: &H,
        alloc: Global,
        floor: &F,
        bodies: &[Vec<u8>],
    ) -> Result<Step, ScriptFault>
    where
        F: Posting<H, Post = P, Receipt = Q>,
        H: Wait + Log,
    {
        for body in bodies {
            match self.handle(rt, alloc, floor, body)? {
                Step::GoesOn => {}
                step => return Ok(step),
            }
        }
        Ok(Step::GoesOn)
    }

    /// Does what the messages of `bodies` ask for, as `handle_each` does. Then it wakes the porter, also
    /// after an error.
    fn handle_all<F, H>(
        &mut self,
        rt: &H,
        alloc: Global,
        floor: &F,
        bodies: &[Vec<u8>],
    ) -> Result<Step, ScriptFault>
    where
        F: Posting<H, Post = P, Receipt = Q>,
        H: Wait + Log,
    {
        let handled = self.handle_each(rt, alloc, floor, bodies);
        floor.wake(&self.post);
        handled
    }

    /// Does what the messages ask for that `piece` completes.
    fn take_in<F, H>(
        &mut self,
        rt: &H,
        alloc: Global,
        floor: &F,
        frames: &mut FrameReader,
        piece: &[u8],
    ) -> Result<Step, ScriptFault>
    where
        F: Posting<H, Post = P, Receipt = Q>,
        H: Wait + Log,
    {
        let bodies = frames.feed(piece)?;
        if bodies.is_empty() {
            return Ok(Step::GoesOn);
        }
        match self.handle_all(rt, alloc, floor, bodies.as_slice())? {
            Step::GoesOn => {}
            step => return Ok(step),
        }
        // An error after the bodies comes with the next call.
        frames.feed(&[])?;
        Ok(Step::GoesOn)
    }
}

/// Where a session stands after a post that was refused with this error.
fn ended_by(fault: PostFault) -> Result<Step, ScriptFault> {
    match fault {
        PostFault::Gone => Ok(Step::Overtaken),
        PostFault::Memory => Err(ScriptFault::Memory),
    }
}

/// A copy of the root of `session`.
fn root_of(alloc: Global, session: &Session) -> Result<Root, AllocError> {
    match session.root() {
        Some(root) => root.copy(),
        None => Root::of(alloc, None),
    }
}

/// Reads the messages of `stream`, at most 16,384 bytes at a time, and posts what they say, until
/// the input ends or a message ends the session.
///
/// Returns the status with which the session ended, or `None` if another thread has ended it.
pub(crate) fn read_all<F: Posting<H>, H: Wait + Log>(
    rt: &H,
    alloc: Global,
    floor: &F,
    intake: Intake<'_, F::Post, F::Receipt>,
    stream: &TcpStream,
) -> Result<Option<u8>, ScriptFault> {
    let mut intake = intake;
    let mut input = stream;
    let mut buffer = [0u8; 16384];
    let mut frames = FrameReader::new(alloc);
    for _ in rt.forever() {
        let count = match input.read(&mut buffer) {
            Ok(count) => count,
            Err(_) => return Err(ScriptFault::Read),
        };
        if count == 0 {
            return Ok(Some(at_end(&frames)?));
        }
        match intake.take_in(rt, alloc, floor, &mut frames, &buffer[..count])? {
            Step::GoesOn => {}
            Step::Finish(status) => return Ok(Some(status)),
            Step::Overtaken => return Ok(None),
        }
    }
    unreachable!()
}
