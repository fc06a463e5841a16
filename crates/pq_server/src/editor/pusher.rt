//! The pusher of an editor's session: after each edit it asks for the diagnostics of the open
//! documents, and sends those that changed.
//!
//! It is a client of the hall of its own, so that its requests take no place of the editor's. It asks
//! for several lists at a time, so that all workers have something to do. An edit that comes while it
//! asks overtakes its requests, and the round of that edit comes next. A document that is not read has a
//! list that says so, and is not asked for.
use crate::editor::files::{Files, Shown};
use crate::editor::line::{Handed, Line};
use crate::editor::output::Output;
use crate::editor::rounds::{Asked, Round, Rounds};
use crate::serving::floor::{Floor, NoText};
use crossbeam_channel::Receiver;
use pq_editor::{FileFault, fault_list};
use pq_hall::Client;
use pq_mail::Post;
use pq_session::{
    DiagnosticList, LastSent, Memory, ScriptFault, diagnostics_of, empty_list, published_text,
};
use std::alloc::Global;
use std::collections::VecDeque;
use std::io::Write;
use std::sync::{Mutex, Wait};

/// How many lists are asked for at a time.
const AT_ONCE: usize = 16;

/// A list that says why a document is not read.
#[derive(Clone, Copy, Debug, PartialEq, Eq)]
struct Refusal {
    fault: FileFault,
    /// The version of the document.
    version: Option<i64>,
}

/// What was sent last for a document.
#[derive(Drop)]
struct Sent {
    /// The number of the document.
    number: u64,
    /// Its URI, as the editor writes it.
    uri: String,
    /// The last list of its diagnostics. Nothing, if a refusal was sent after it.
    last: LastSent,
    /// The refusal, if it was sent last.
    refusal: Option<Refusal>,
}

impl Sent {
    /// Nothing was sent for the document with this number and this URI.
    fn new(number: u64, uri: String) -> Sent {
        Sent {
            number,
            uri,
            last: LastSent::new(),
            refusal: None,
        }
    }

    /// Takes `list`, for the document at `version`. Returns whether it is to be sent, as
    /// `LastSent::replace` says. After a refusal each list is.
    fn replace(&mut self, list: DiagnosticList, version: Option<i64>) -> bool {
        self.refusal = None;
        self.last.replace(list, version)
    }

    /// Takes `refusal`. Returns whether it is to be sent: it was not sent last.
    fn refuse(&mut self, refusal: Refusal) -> bool {
        if self.refusal == Some(refusal) {
            return false;
        }
        self.refusal = Some(refusal);
        self.last = LastSent::new();
        true
    }
}

/// A list that was asked for.
#[derive(Drop)]
struct Owed<Q> {
    /// The index of the document in the round.
    place: usize,
    receipt: Q,
}

/// What the pusher holds: its line, its end that takes, the way to the editor, and what was sent.
#[derive(Drop)]
struct Pusher<'a, F: Floor<H>, H, W> {
    rt: &'a H,
    alloc: Global,
    floor: &'a F,
    line: Line<'a, F, H>,
    take: F::Take,
    rounds: &'a Rounds,
    output: &'a Output<W>,
    places: Shown<'a, H>,
    /// What was sent, in order of the documents' numbers.
    sent: Vec<Sent>,
}

impl<'a, F: Floor<H>, H: Wait, W: Write + Copy> Pusher<'a, F, H, W> {
    /// A pusher that has sent nothing, for the client of `line`, of which `take` is the end that takes.
    fn new(
        rt: &'a H,
        alloc: Global,
        floor: &'a F,
        line: Line<'a, F, H>,
        take: F::Take,
        rounds: &'a Rounds,
        output: &'a Output<W>,
        files: &'a Mutex<Files>,
    ) -> Pusher<'a, F, H, W> {
        Pusher {
            rt,
            alloc,
            floor,
            line,
            take,
            rounds,
            output,
            places: Shown { rt, files },
            sent: Vec::new(alloc),
        }
    }

    /// Pushes what `round` asks for, up to the round that overtakes it. Returns whether the pusher
    /// goes on.
    fn push_round(&mut self, round: &Round) -> Result<bool, ScriptFault> {
        self.withdraw_others(round)?;
        let mut owed = VecDeque::new(self.alloc);
        for place in 0..round.asked.len() {
            if self.rounds.is_overtaken(self.rt) {
                break;
            }
            // The document that was changed last waits for no other.
            let most = if place == 1 { 1 } else { AT_ONCE };
            if owed.len() >= most && !self.push_next(round, &mut owed)? {
                return Ok(false);
            }
            if !self.ask(round, place, &mut owed)? {
                return Ok(false);
            }
        }
        for _ in 0..AT_ONCE {
            if owed.is_empty() {
                break;
            }
            if !self.push_next(round, &mut owed)? {
                return Ok(false);
            }
        }
        Ok(true)
    }

    /// Sends the empty list for each document for which something was sent, and that `round` does not
    /// ask for.
    fn withdraw_others(&mut self, round: &Round) -> Result<(), ScriptFault> {
        for number in self.others_than(round)? {
            self.withdraw(number)?;
        }
        Ok(())
    }

    /// The numbers of the documents for which something was sent, and that `round` does not ask for.
    fn others_than(&self, round: &Round) -> Result<Vec<u64>, Memory> {
        let numbers = numbers_of(self.alloc, round)?;
        let mut others = Vec::new(self.alloc);
        for sent in &self.sent {
            if numbers.binary_search(&sent.number).is_err() {
                others.push(sent.number)?;
            }
        }
        Ok(others)
    }

    /// Sends the empty list for the document with this number, and forgets it.
    fn withdraw(&mut self, number: u64) -> Result<(), ScriptFault> {
        let Some(sent) = self.forget(number) else {
            return Ok(());
        };
        let text = published_text(self.alloc, sent.uri.as_str(), None, empty_list())?;
        self.output.send_list(self.rt, text.as_str())
    }

    /// Asks for the diagnostics of the document at `place` of `round`, or refuses it. Returns whether the
    /// pusher goes on.
    ///
    /// An allocation failure of its own asks for nothing: the document is asked for again at the next
    /// edit.
    fn ask(
        &mut self,
        round: &Round,
        place: usize,
        owed: &mut VecDeque<Owed<F::Receipt>>,
    ) -> Result<bool, ScriptFault> {
        let Some(asked) = round.asked.get(place) else {
            return Ok(true);
        };
        if let Some(fault) = asked.fault {
            self.refuse(asked, fault)?;
            return Ok(true);
        }
        let Ok(request) = diagnostics_of(self.alloc, asked.name.as_str()) else {
            return Ok(true);
        };
        let Handed::Asked(receipt) = self.line.hand_in(Post::Ask(request))? else {
            return Ok(false);
        };
        match owed.push_back(Owed { place, receipt }) {
            Ok(()) => Ok(true),
            Err(_) => Err(ScriptFault::Memory),
        }
    }

    /// Takes the list that was asked for first of those of `owed`, and sends it if it is news. Returns
    /// whether the pusher goes on.
    fn push_next(
        &mut self,
        round: &Round,
        owed: &mut VecDeque<Owed<F::Receipt>>,
    ) -> Result<bool, ScriptFault> {
        let Some(Owed { place, receipt }) = owed.pop_front() else {
            return Ok(true);
        };
        let Some(asked) = round.asked.get(place) else {
            return Ok(true);
        };
        let client = self.line.client();
        match self.floor.list(
            self.rt,
            self.alloc,
            client,
            &mut self.take,
            &receipt,
            &self.places,
        ) {
            Ok(Some(list)) if list.revision() == round.revision => self.send_list(asked, list)?,
            Err(NoText::Closed) => return Ok(false),
            _ => {}
        }
        Ok(true)
    }

    /// Sends `list` for a document, if it is news. After an allocation failure the next list is news,
    /// whatever it is.
    fn send_list(&mut self, asked: &Asked, list: DiagnosticList) -> Result<(), ScriptFault> {
        let (rt, output) = (self.rt, self.output);
        let Ok(sent) = self.sent_for(asked) else {
            return Ok(());
        };
        if !sent.replace(list, asked.version) {
            return Ok(());
        }
        let published = publish(rt, output, asked, sent.last.text());
        self.kept(asked, published)
    }

    /// Sends the list that says why a document is not read, if it is news. After an allocation failure it
    /// is news again.
    fn refuse(&mut self, asked: &Asked, fault: FileFault) -> Result<(), ScriptFault> {
        let (rt, output) = (self.rt, self.output);
        let version = asked.version;
        let Ok(sent) = self.sent_for(asked) else {
            return Ok(());
        };
        if !sent.refuse(Refusal { fault, version }) {
            return Ok(());
        }
        let published = publish_refusal(rt, output, asked, fault);
        self.kept(asked, published)
    }

    /// What the send of a list for a document came to. After an allocation failure what was sent for it is
    /// forgotten, and the pusher goes on.
    fn kept(
        &mut self,
        asked: &Asked,
        published: Result<(), ScriptFault>,
    ) -> Result<(), ScriptFault> {
        match published {
            Err(ScriptFault::Memory) => {
                self.forget(asked.number);
                Ok(())
            }
            published => published,
        }
    }

    /// Forgets what was sent for the document with this number. Returns it, if anything was.
    fn forget(&mut self, number: u64) -> Option<Sent> {
        let place = self.sent.iter().position(|it| it.number == number)?;
        Some(self.sent.remove(place))
    }

    /// What was sent last for a document.
    fn sent_for(&mut self, asked: &Asked) -> Result<&mut Sent, Memory> {
        let place = self.place_of(asked)?;
        match self.sent.get_mut(place) {
            Some(sent) => Ok(sent),
            None => Err(Memory),
        }
    }

    /// The place of a document among those for which something was sent. It is added if it is not there.
    fn place_of(&mut self, asked: &Asked) -> Result<usize, Memory> {
        let number = asked.number;
        match self.sent.binary_search_by_key(&number, |it| it.number) {
            Ok(place) => Ok(place),
            Err(place) => {
                let uri = String::from_str(self.alloc, asked.uri.as_str())?;
                self.sent.insert(place, Sent::new(number, uri))?;
                Ok(place)
            }
        }
    }
}

/// The numbers of the documents that `round` asks for, in their order.
fn numbers_of(alloc: Global, round: &Round) -> Result<Vec<u64>, Memory> {
    let mut numbers = Vec::new(alloc);
    for asked in &round.asked {
        numbers.push(asked.number)?;
    }
    numbers.sort()?;
    Ok(numbers)
}

/// Sends the list `text` for a document.
fn publish<H: Wait, W: Write + Copy>(
    rt: &H,
    output: &Output<W>,
    asked: &Asked,
    text: &str,
) -> Result<(), ScriptFault> {
    let body = published_text(output.alloc(), asked.uri.as_str(), asked.version, text)?;
    output.send_list(rt, body.as_str())
}

/// Sends the list that says why a document is not read.
fn publish_refusal<H: Wait, W: Write + Copy>(
    rt: &H,
    output: &Output<W>,
    asked: &Asked,
    fault: FileFault,
) -> Result<(), ScriptFault> {
    let list = fault_list(output.alloc(), fault)?;
    publish(rt, output, asked, list.as_str())
}

/// Pushes the rounds of `rounds` by the client of `line`, one for each bell, until the bell is gone or
/// that client is closed.
///
/// A failed write ends it, and so does an allocation failure of a request or of an empty list. The
/// client `editor` is closed then.
pub(crate) fn push_all<'a, F, H, W>(
    rt: &'a H,
    alloc: Global,
    floor: &'a F,
    editor: Client,
    line: Line<'a, F, H>,
    take: F::Take,
    rounds: &'a Rounds,
    output: &'a Output<W>,
    files: &'a Mutex<Files>,
    bell: Receiver<()>,
) -> Result<(), ScriptFault>
where
    F: Floor<H>,
    H: Wait,
    W: Write + Copy,
{
    let mut pusher = Pusher::new(rt, alloc, floor, line, take, rounds, output, files);
    for _ in rt.forever() {
        if bell.recv(rt).is_err() {
            return Ok(());
        }
        let Some(round) = rounds.take(rt) else {
            continue;
        };
        match pusher.push_round(&round) {
            Ok(true) => {}
            Ok(false) => return Ok(()),
            Err(fault) => {
                floor.close(rt, editor);
                return Err(fault);
            }
        }
    }
    unreachable!()
}
