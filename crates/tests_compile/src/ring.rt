//! A thousand files, each of which imports the next, and the last the first: by `compile`, by an
//! engine, and by two runs of a core that are looked at in turns.
//!
//! Each file is on the ring, so its one diagnostic is P105, at its import. The text has the names
//! of the ring from the least on, and that name again.
use crate::checks::{check_page, check_pages, check_that, text_of};
use crate::edits::add_diagnostic;
use crate::sets::inputs_of;
use pq_core::{
    ClientId, Core, Done, GiveRefused, Label, ListOutbox, LookFault, Move, Outcome, PlainStamp,
    Released, Reply, Request, RunId, Want, Work,
};
use pq_inputs::Inputs;
use pq_memo::Engine;
use pq_proto::{ProtoKey, ProtoRules, ProtoValue, compile};
use pq_rules::{Answer, Rules, Text};
use std::alloc::Global;
use std::process::Abort;
use test_support::Page;

/// The number of files.
const FILES: usize = 1_000;

/// The number of rounds after which two runs that go on have failed. Each of a round's two steps
/// carries out at most one piece of work.
const MOST_ROUNDS: usize = 100_000;

/// Writes the name of a file, whose number has four digits.
fn add_name(page: &mut Page, number: usize) {
    page.add(match number {
        0..=9 => "f000",
        10..=99 => "f00",
        100..=999 => "f0",
        _ => "f",
    });
    page.number(number);
    page.add(".proto");
}

/// Writes a set of files: the ring.
fn add_files(page: &mut Page) {
    for number in 0..FILES {
        add_name(page, number);
        page.add(": import \"");
        add_name(page, (number + 1) % FILES);
        page.add("\";\n");
    }
}

/// Writes the diagnostic of each file. The name of its import is between quotes, after `import `.
fn add_wanted(page: &mut Page) {
    page.add("P105 1:7-20 import cycle: ");
    for number in 0..FILES {
        add_name(page, number);
        page.add(" -> ");
    }
    page.add("f0000.proto;");
}

/// Writes the diagnostics of an answer, with their texts.
fn add_answer(page: &mut Page, answer: &Answer<ProtoKey, ProtoValue>) {
    if let Answer::Value(ProtoValue::Diagnostics(diagnosed)) = answer {
        let diagnosed = diagnosed.get();
        for diagnostic in diagnosed.diagnostics.as_slice() {
            add_diagnostic(page, diagnosed.file.get(), diagnostic);
            page.add(diagnostic.text.as_str());
            page.add(";");
        }
    } else {
        page.add("another answer");
    }
}

/// What answers one key after the other.
trait Answering {
    /// Writes the answer of `key`.
    fn show(&mut self, page: &mut Page, key: &ProtoKey);
}

impl Answering for Inputs {
    fn show(&mut self, page: &mut Page, key: &ProtoKey) {
        match compile(page.alloc, self, key) {
            Ok(answer) => add_answer(page, &answer),
            Err(_) => page.cut(),
        }
    }
}

impl Answering for Engine<ProtoRules> {
    fn show(&mut self, page: &mut Page, key: &ProtoKey) {
        match self.demand(page.alloc, key) {
            Ok(demanded) => add_answer(page, demanded.answer.get()),
            Err(_) => page.cut(),
        }
    }
}

/// A rule set whose answers can be written. What holds a core is proved for any such rule set,
/// without the values of proto3 files.
trait Shown: Rules {
    /// Writes an answer.
    fn add(page: &mut Page, answer: &Answer<Self::Key, Self::Value>);
}

impl Shown for ProtoRules {
    fn add(page: &mut Page, answer: &Answer<ProtoKey, ProtoValue>) {
        add_answer(page, answer);
    }
}

/// An outbox of replies by the rules `R`.
type Outbox<R> = ListOutbox<<R as Rules>::Key, <R as Rules>::Value, PlainStamp>;

/// The calls of a core with keys of the type `K`. Only these short methods hold a core.
trait Runs<K> {
    /// Opens a client, with room for two replies. Returns whether it could be opened.
    fn opened(&mut self, alloc: Global) -> bool;

    /// Accepts a request of the client 0, and starts it. Writes the number of its run.
    fn asked(&mut self, page: &mut Page, key: K);

    /// Takes a step of `run`. Writes that it waits for a run, or how it ended.
    fn stepped(&mut self, page: &mut Page, run: RunId);

    /// Puts the next reply to the client 0. Returns whether there was one.
    fn released(&mut self) -> bool;

    /// Closes the client 0, and writes the replies that were put.
    fn closed(&mut self, page: &mut Page);
}

impl<R: Shown> Runs<R::Key> for Core<R, PlainStamp, Outbox<R>> {
    fn opened(&mut self, alloc: Global) -> bool {
        match ListOutbox::new(alloc, 2) {
            Ok(outbox) => self.open_client(alloc, outbox).is_ok(),
            Err(_) => false,
        }
    }

    fn asked(&mut self, page: &mut Page, key: R::Key) {
        let label = Label::None;
        let want = Want::Demand(key);
        if self.accept(client(), Request { label, want }).is_err() {
            page.add("refused");
        }
        match self.start() {
            Some(run) => page.wide(run.number()),
            None => page.add("none"),
        }
    }

    fn stepped(&mut self, page: &mut Page, run: RunId) {
        match self.look(page.alloc, run) {
            Ok(Move::Carry(work)) => match work.carry_out(page.alloc) {
                Ok(done) => add_given(page, self.give(page.alloc, run, done)),
                Err(_) => page.cut(),
            },
            other => add_look(page, other),
        }
    }

    fn released(&mut self) -> bool {
        match self.release(client()) {
            Released::Put(_) => true,
            _ => false,
        }
    }

    fn closed(&mut self, page: &mut Page) {
        match self.close_client(client()) {
            Some(outbox) => add_replies::<R>(page, outbox),
            None => page.add("no client"),
        }
    }
}

/// The client of both requests.
fn client() -> ClientId {
    ClientId::new(0)
}

/// Writes what a step came to: that the run waits for a run, or how it ended.
fn add_move<R: Rules>(page: &mut Page, step: &Move<Work<R, PlainStamp>>) {
    match step {
        Move::Carry(_work) => {}
        Move::Blocked(run) => {
            page.add("waits for ");
            page.wide(run.number());
            page.add(";");
        }
        Move::Stepped => {}
        Move::Answered => page.add("answered;"),
        Move::Stopped => page.add("stopped;"),
    }
}

/// Writes what a look came to. A run that is over is passed over.
fn add_look<R: Rules>(page: &mut Page, answer: Result<Move<Work<R, PlainStamp>>, LookFault>) {
    match answer {
        Ok(step) => add_move(page, &step),
        Err(LookFault::NoRun) => {}
        Err(LookFault::Memory) => page.cut(),
    }
}

/// Writes what the giving of a result came to.
fn add_given<R: Rules>(
    page: &mut Page,
    answer: Result<Move<Work<R, PlainStamp>>, GiveRefused<Done<R, PlainStamp>>>,
) {
    match answer {
        Ok(step) => add_move(page, &step),
        Err(_refused) => page.add("refused;"),
    }
}

/// Writes a reply as `NUMBER DIAGNOSTICS`.
fn add_reply<R: Shown>(page: &mut Page, reply: &Reply<R::Key, R::Value, PlainStamp>) {
    page.wide(reply.number().number());
    page.add(" ");
    match reply.outcome() {
        Outcome::Answered(answer, _stamp) => R::add(page, answer.get()),
        _ => page.add("another outcome"),
    }
}

/// Writes the replies of an outbox.
fn add_replies<R: Shown>(page: &mut Page, outbox: Outbox<R>) {
    let (replies, _taken) = outbox.into_parts();
    for reply in &replies {
        add_reply::<R>(page, reply);
    }
}

/// The files of the ring.
fn ring(rt: &(impl Abort + AllocGlobal)) -> Inputs {
    let mut files = Page::new(rt.alloc());
    add_files(&mut files);
    inputs_of(rt, text_of(rt, &files))
}

/// The diagnostics of the file `name`.
fn diagnostics(rt: &(impl Abort + AllocGlobal), name: &str) -> ProtoKey {
    ProtoKey::Diagnostics(Text::new(rt.alloc(), name).expect(rt, "memory"))
}

/// Checks the diagnostics of the file `name`.
fn check_file<A: Answering>(rt: &(impl Abort + AllocGlobal), answering: &mut A, name: &str) {
    let mut want = Page::new(rt.alloc());
    add_wanted(&mut want);
    let mut found = Page::new(rt.alloc());
    answering.show(&mut found, &diagnostics(rt, name));
    check_pages(rt, &found, &want, name);
}

#[test]
fn a_long_ring_is_compiled(rt: HostRuntime) {
    check_file(&rt, &mut ring(&rt), "f0500.proto");
}

#[test]
fn a_long_ring_is_demanded(rt: HostRuntime) {
    let mut engine = Engine::new(rt.alloc(), ProtoRules { loose: false }, ring(&rt));
    check_file(&rt, &mut engine, "f0500.proto");
    check_file(&rt, &mut engine, "f0000.proto");
}

/// Takes steps of the runs 0 and 1 in turns, and writes what they come to, until both are over.
fn turns<C: Runs<ProtoKey>>(page: &mut Page, core: &mut C) {
    for _ in 0..MOST_ROUNDS {
        core.stepped(page, RunId::new(0));
        core.stepped(page, RunId::new(1));
        if page.text().ends_with("answered;answered;") {
            return;
        }
    }
}

/// Checks the replies to two requests, whose runs are looked at in turns. Run 0 needs a key of run
/// 1 first. Then run 1 needs one of run 0, which closes the ring for both.
fn check_runs<C: Runs<ProtoKey>>(rt: &(impl Abort + AllocGlobal), core: &mut C) {
    check_that(rt, core.opened(rt.alloc()), "a client");
    let mut runs = Page::new(rt.alloc());
    core.asked(&mut runs, diagnostics(rt, "f0500.proto"));
    core.asked(&mut runs, diagnostics(rt, "f0000.proto"));
    check_page(rt, &runs, "01", "two runs");
    let mut ends = Page::new(rt.alloc());
    turns(&mut ends, core);
    check_page(rt, &ends, "waits for 1;answered;answered;", "turns");
    check_that(rt, core.released() && core.released(), "two replies");
    let mut found = Page::new(rt.alloc());
    core.closed(&mut found);
    let mut want = Page::new(rt.alloc());
    want.add("0 ");
    add_wanted(&mut want);
    want.add("1 ");
    add_wanted(&mut want);
    check_pages(rt, &found, &want, "replies");
}

#[test]
fn a_long_ring_is_met_by_two_runs(rt: HostRuntime) {
    let inputs = ring(&rt);
    let stamp = PlainStamp::of(rt.alloc(), &inputs).expect(&rt, "memory");
    let mut core: Core<ProtoRules, PlainStamp, Outbox<ProtoRules>> = Core::new(
        rt.alloc(),
        ProtoRules { loose: false },
        inputs,
        stamp,
    );
    check_runs(&rt, &mut core);
}
