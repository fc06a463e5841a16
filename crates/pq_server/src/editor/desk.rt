//! What an editor's messages and the disk ask for, done in the order in which they come.
//!
//! The view (`pq_view`) decides which text a name has: the desk passes each event to it, and makes the
//! edits that it answers. Only the names that open documents reach are in the sources (`reach`): `found`
//! looks for their files below the roots, and `search` says when a walk through the folders is to show
//! further roots. `greeting` takes roots, `edits` handles documents and files, `asks` hands in requests,
//! `links` answers what is asked of imports, `said` says what a user has to know, and `survey` answers
//! what is asked about all files.
//!
//! The texts of open documents are of Low durability, those on the disk of High durability. The reader,
//! the looker, the walker and the surveyor share the desk under its lock.
mod asks;
mod edits;
mod found;
mod greeting;
mod links;
mod reach;
mod said;
mod search;
mod survey;

use crate::editor::desk::asks::Held;
pub(crate) use crate::editor::desk::reach::Reach;
use crate::editor::desk::search::Search;
use crate::editor::desk::survey::Asking;
use crate::editor::disk::Disk;
use crate::editor::fetching::Fetcher;
use crate::editor::files::Files;
use crate::editor::line::Line;
use crate::editor::lines::Lines;
use crate::editor::output::Output;
use crate::editor::roots::Roots;
use crate::editor::rounds::{Round, Rounds};
use crate::editor::surveyor::Survey;
use crate::editor::walker::Walk;
use crate::serving::floor::Floor;
use crossbeam_channel::Sender;
use pq_core::Request;
use pq_frame::Message;
use pq_mail::Post;
use pq_proto::ProtoKey;
use pq_session::{
    Event, Item, Memory, ScriptFault, Session, event_of, with_plain_uri, without_root,
};
use std::alloc::Global;
use std::collections::VecDeque;
use std::io::Write;
use std::sync::{Mutex, Wait};
use std::thread::Threads;
use std::time::Clock;

/// Whether a session goes on after a message.
#[derive(Clone, Copy, Debug, PartialEq, Eq)]
pub(crate) enum Step {
    GoesOn,
    /// The message ended the session with this status.
    Finish(u8),
    /// Another thread has ended the session.
    Overtaken,
}

/// The ways from a desk to the other threads. Each thread ends when its way is dropped.
#[derive(Drop)]
pub(crate) struct Ways<Q> {
    /// To the writer: the receipts of requests.
    pub(crate) receipts: Sender<Q>,
    /// To the pusher: it rings after each round.
    pub(crate) bell: Sender<()>,
    /// To the looker: it is to look now.
    pub(crate) calls: Sender<()>,
    /// To the walker.
    pub(crate) walks: Sender<Walk>,
    /// To the surveyor.
    pub(crate) surveys: Sender<Survey>,
    /// To the logger: the client takes messages.
    pub(crate) log: Sender<()>,
}

/// What a client takes, as it said in `initialize`, and what it was sent of it.
#[derive(Clone, Copy)]
struct Takes {
    /// Whether it takes pushed diagnostics alone.
    pushes: bool,
    /// Whether it can be asked to watch files, and was not.
    watch: bool,
    /// Whether it can be asked to ask again for all diagnostics.
    refresh: bool,
    /// Whether it shows progress.
    progress: bool,
    /// Whether it has sent `initialized`.
    is_ready: bool,
}

/// What the reader of an editor's session holds, over a client of the hall `floor`.
#[derive(Drop)]
pub(crate) struct Desk<'a, F: Floor<H>, H, W> {
    rt: &'a H,
    alloc: Global,
    session: Session,
    line: Line<'a, F, H>,
    /// The ways to the other threads, until the end.
    ways: Option<Ways<F::Receipt>>,
    rounds: &'a Rounds,
    output: &'a Output<W>,
    files: &'a Mutex<Files>,
    lines: Lines,
    fetcher: Fetcher,
    roots: Roots,
    reach: Reach,
    search: Search,
    /// The requests that wait for the first walk, in their order.
    held: VecDeque<Held>,
    /// What was asked about all files.
    asking: Asking,
    /// The revision of the last edit.
    revision: u64,
    /// Whether an edit was made, or a document was opened, changed or closed, since the last round.
    has_moved: bool,
    /// Whether a document may have another name than in the last round.
    has_renamed: bool,
    takes: Takes,
    /// Whether the client is to ask again for all diagnostics.
    is_refresh_due: bool,
    /// The requests to the client that it has not answered. While there are some, it is not asked to ask
    /// again.
    unanswered: u32,
    said: said::Said,
}

impl<'a, F, H, W> Desk<'a, F, H, W>
where
    F: Floor<H>,
    H: Threads + Wait + Clock + Disk + AllocGlobal + Copy + Drop + Send + Sync + 'static,
    W: Write + Copy,
{
    /// The desk of a session whose client has sent nothing. `roots` are those of the command line.
    pub(crate) fn new(
        rt: &'a H,
        alloc: Global,
        line: Line<'a, F, H>,
        ways: Ways<F::Receipt>,
        rounds: &'a Rounds,
        output: &'a Output<W>,
        files: &'a Mutex<Files>,
        lines: Lines,
        roots: Roots,
    ) -> Result<Desk<'a, F, H, W>, Memory> {
        let fetcher = Fetcher::new(alloc, lines.copy()?);
        Ok(Desk {
            rt,
            alloc,
            session: Session::new(),
            line,
            ways: Some(ways),
            rounds,
            output,
            files,
            lines,
            fetcher,
            roots,
            reach: Reach::new(alloc),
            search: Search::new(),
            held: VecDeque::new(alloc),
            asking: Asking::new(alloc),
            revision: 0,
            has_moved: false,
            has_renamed: false,
            takes: Takes {
                pushes: false,
                watch: false,
                refresh: false,
                progress: false,
                is_ready: false,
            },
            is_refresh_due: false,
            unanswered: 0,
            said: said::Said::new(),
        })
    }

    /// Ends the threads to which the desk has ways.
    pub(crate) fn end(&mut self) {
        self.ways = None;
        self.lines.end_log(self.rt);
    }

    /// Hands on what was left to do: a round of pushes, and requests to the client. While lists are held
    /// there is no round.
    pub(crate) fn hand_on(&mut self) -> Result<(), ScriptFault> {
        self.ask_client()?;
        if self.search.is_held(self.rt) {
            return Ok(());
        }
        if let Some(round) = self.next_round()? {
            self.rounds.put(self.rt, round);
            if let Some(ways) = &self.ways {
                // A bell that was not heard yet is for this round, too.
                let _ = ways.bell.try_send(self.rt, ());
            }
        }
        Ok(())
    }

    /// What is to be pushed since the last round, if the client takes pushed diagnostics alone.
    fn next_round(&mut self) -> Result<Option<Round>, Memory> {
        if !self.takes.pushes || !self.has_moved {
            return Ok(None);
        }
        self.has_moved = false;
        let mut files = self.files.lock(self.rt);
        if self.has_renamed {
            self.has_renamed = false;
            files.name_documents()?;
        }
        let asked = files.documents.asked(&self.reach)?;
        Ok(Some(Round {
            revision: self.revision,
            asked,
        }))
    }

    /// Asks the looker to look at the disk now.
    fn call_looker(&self) {
        if let Some(ways) = &self.ways {
            // A call that was not heard yet is for this, too.
            let _ = ways.calls.try_send(self.rt, ());
        }
    }

    /// Does what the messages of `bodies` ask for, up to the first after which the session does not go
    /// on, and hands on what they leave.
    pub(crate) fn handle_all(&mut self, bodies: &[Vec<u8>]) -> Result<Step, ScriptFault> {
        for body in bodies {
            match self.handle(body)? {
                Step::GoesOn => {}
                step => return Ok(step),
            }
        }
        if !self.settle()? {
            return Ok(Step::Overtaken);
        }
        self.hand_on()?;
        Ok(Step::GoesOn)
    }

    /// Does what the message of this body asks for.
    fn handle(&mut self, body: &[u8]) -> Result<Step, ScriptFault> {
        let message = Message::read(self.alloc, body)?;
        let event = event_of(self.alloc, &message)?;
        let message = with_plain_uri(self.alloc, message)?;
        let was_served = self.session.root().is_some();
        let item = self.session.on(self.alloc, without_root(message))?;
        let is_served = self.session.root().is_some();
        match event {
            Event::Greets(greeting) => {
                if was_served || !is_served {
                    return self.carry_out(Event::Other, item);
                }
                self.greet_first(greeting, item)
            }
            // After this request nothing is served.
            Event::ShutsDown => {
                if was_served && !self.let_go()? {
                    return Ok(Step::Overtaken);
                }
                if was_served {
                    self.output.end_lists(self.rt);
                }
                self.carry_out(Event::Other, item)
            }
            event if is_served => self.carry_out(event, item),
            _ => self.carry_out(Event::Other, item),
        }
    }

    /// Does what `item` and `event` of one message ask for.
    fn carry_out(&mut self, event: Event, item: Item<ProtoKey>) -> Result<Step, ScriptFault> {
        match item {
            Item::Ask(request) => self.ask(request),
            Item::Say(request) => self.say_or_answer(event, request),
            Item::Withdraw(label) => self.withdraw(label),
            Item::Edit(change) => self.edit(event, change),
            Item::Ignore => self.notice(event),
            Item::End(status) => Ok(Step::Finish(status)),
        }
    }

    /// Hands in the fixed reply `request`. What the editor alone is answered takes its place.
    fn say_or_answer(
        &mut self,
        event: Event,
        request: Request<ProtoKey>,
    ) -> Result<Step, ScriptFault> {
        match event {
            Event::AsksLinks { label, uri } => self.answer_links(label, uri),
            Event::AsksWorkspace { label, has } => self.ask_workspace(label, has),
            _ => self.hand_in(Post::Ask(request)),
        }
    }
}

/// Where a session is after an edit: it goes on, unless its client was closed.
fn step_of(goes_on: bool) -> Step {
    if goes_on {
        Step::GoesOn
    } else {
        Step::Overtaken
    }
}
