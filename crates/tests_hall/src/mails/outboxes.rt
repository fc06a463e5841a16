//! Outboxes: replies that are put, and taken with receipts.
//!
//! The helpers are generic in the stamp: the borrow checker does not cover both ends of an outbox where
//! all their types are named.
ghost use Rattle.std.specs.Prelude.{◌≡◌, ◌∷◌, [], length};

use crate::checks::{check_page, check_row_count, split_row};
use crate::lines::{add_reply, number_of, request_of};
use pq_core::{ClientId, Number, Outbox, PlainStamp, PutFault, Reply, Request, Stamp};
use pq_inputs::{Inputs, Revision};
use pq_mail::{LaneEnd, MailEnd, Receipt, TakeEnd, outbox};
use pq_rules::{Sums, SumsKey, SumsValue};
use std::marker::Model;
use std::process::Abort;
use std::sync::Wait;
use test_support::Page;

/// The two ends of an outbox, each there until it is given up, and the count of replies put.
#[derive(Drop)]
struct Ends<M: Stamp, H: Wait> {
    lane: Option<Lane<M, H>>,
    take: Option<TakeEnd<Sums, M>>,
}

/// The end of an outbox that puts, and the count of replies that it has put.
#[derive(Drop)]
struct Lane<M: Stamp, H: Wait> {
    end: LaneEnd<Sums, M, H>,
    count: u64,
}

impl<M: Stamp, H: Wait> Model for Lane<M, H> {
    ghost use Rattle.std.specs.Prelude.{◌≡◌, length};
    ghost use Rattle.pq_core.specs.Replies.{ReplyView};
    ghost use Rattle.pq_mail.specs.Mailbox.{Side};
    ghost use Rattle.pq_rules.specs.declared.sums.SumsKey.{SumsKey};
    ghost use Rattle.pq_rules.specs.declared.sums.SumsValue.{SumsValue};

    ghost Value = { Side (ReplyView SumsKey SumsValue M) };

    ghost view = { λ l. l.end };

    ghost invariant = { λ l. l.count ≡ length l.end.items };
}

impl<M: Stamp, H: Wait + Drop> Lane<M, H> {
    /// Puts a reply with the next number, and writes what came of it: `put`, `full NUMBER` or
    /// `gone NUMBER`.
    fn put(&mut self, page: &mut Page, request: Request<SumsKey>, now: Revision) {
        if self.count == u64::MAX {
            page.cut();
            return;
        }
        let reply = Reply::plain(ClientId::new(0), Number::new(self.count), request, now);
        match self.end.put(reply) {
            Ok(()) => {
                self.count += 1;
                page.add("put");
            }
            Err(PutFault::Full(reply)) => add_back(page, "full ", &reply),
            Err(PutFault::Gone(reply)) => add_back(page, "gone ", &reply),
        }
    }
}

/// Writes why a reply was refused, and the number of that which came back.
fn add_back<M: Stamp>(page: &mut Page, word: &str, reply: &Reply<SumsKey, SumsValue, M>) {
    page.add(word);
    page.wide(reply.number().number());
}

/// Takes the reply of the receipt that `text` writes as `NUMBER REQUEST`, or `NUMBER` alone for a
/// post without one. Writes the reply, `ended` or `stranger`.
fn add_taken<M: Stamp>(
    rt: &(impl Abort + AllocGlobal + Wait),
    page: &mut Page,
    end: &mut TakeEnd<Sums, M>,
    text: &str,
) {
    let receipt = receipt_of(rt, text);
    match end.next(rt, &receipt) {
        Ok(reply) => add_reply(page, reply.reply()),
        Err(MailEnd::Ended) => page.add("ended"),
        Err(MailEnd::Stranger) => page.add("stranger"),
    }
}

/// The receipt that `text` writes.
fn receipt_of(rt: &(impl Abort + AllocGlobal), text: &str) -> Receipt<SumsKey> {
    let (number, request) = match text.split_once(" ") {
        Some((number, request)) => (number, Some(request_of(rt, request))),
        None => (text, None),
    };
    Receipt {
        number: Number::new(number_of(rt, number)),
        request,
    }
}

/// Puts `count` replies to the request that `text` writes, and writes what came of the last one.
fn add_put<M: Stamp, H: Wait + Drop>(
    rt: &(impl Abort + AllocGlobal),
    page: &mut Page,
    lane: &mut Lane<M, H>,
    count: u64,
    text: &str,
) {
    let now = Inputs::new(rt.alloc()).expect(rt, "memory").now();
    for _ in 1..count {
        let mut others = Page::new(rt.alloc());
        lane.put(&mut others, request_of(rt, text), now);
    }
    lane.put(page, request_of(rt, text), now);
}

/// Makes the call of a line, and writes its answer: `put COUNT REQUEST`, `take RECEIPT`, `drop lane`
/// or `drop take`.
fn answer<M: Stamp, H: Wait + Drop>(
    rt: &(impl Abort + AllocGlobal + Wait),
    page: &mut Page,
    ends: &mut Ends<M, H>,
    call: &str,
) {
    let (word, rest) = split_row(rt, call, " ");
    match (word, rest) {
        ("drop", "lane") => ends.lane = None,
        ("drop", _) => ends.take = None,
        ("put", rest) => {
            let (count, request) = split_row(rt, rest, " ");
            let lane = ends.lane.as_mut().expect(rt, call);
            add_put(rt, page, lane, number_of(rt, count), request);
        }
        _ => {
            let take = ends.take.as_mut().expect(rt, call);
            add_taken(rt, page, take, rest);
        }
    }
}

/// Runs the script `rows` over a new outbox for replies with stamps of the type `M`.
fn run_rows<M: Stamp>(rt: &(impl Abort + AllocGlobal + Wait), rows: &str) {
    let (end, take) = outbox(rt.alloc(), Sums, rt).expect(rt, "memory");
    let mut ends: Ends<M, _> = Ends {
        lane: Some(Lane { end, count: 0 }),
        take: Some(take),
    };
    for row in rows.lines() {
        let (call, want) = split_row(rt, row, " => ");
        let mut page = Page::new(rt.alloc());
        answer(rt, &mut page, &mut ends, call);
        check_page(rt, &page, want, row);
    }
}

/// Runs the script `rows` of `count` lines over a new outbox.
fn check_rows(rt: &(impl Abort + AllocGlobal + Wait), count: usize, rows: &str) {
    check_row_count(rt, count, rows);
    run_rows::<PlainStamp>(rt, rows);
}

// 32 replies enter, the next one is refused and comes back; each that is taken makes room for one.
#[test]
fn room_for_32(rt: HostRuntime) {
    check_rows(
        &rt,
        7,
        "put 32 1 say a => put
put 1 1 say a => full 32
put 1 1 say a => full 32
take 0 1 say a => 0 1 say a @0 plain
put 1 1 say b => put
put 1 1 say b => full 33
take 1 1 say a => 1 1 say a @0 plain",
    );
}

// A receipt of another number or of another request takes the reply, which is dropped.
#[test]
fn strangers(rt: HostRuntime) {
    check_rows(
        &rt,
        10,
        "put 6 1 say a => put
take 0 1 say a => 0 1 say a @0 plain
take 2 1 say a => stranger
take 2 1 say b => stranger
take 3 2 say a => stranger
take 4 => stranger
take 5 1 say a => 5 1 say a @0 plain
put 1 1 Sum f => put
take 6 1 Sum g => stranger
drop lane => ",
    );
}

// What was put can be taken after the end that puts is gone; then the outbox has ended.
#[test]
fn ended(rt: HostRuntime) {
    check_rows(
        &rt,
        6,
        "put 2 1 say a => put
drop lane => 
take 0 1 say a => 0 1 say a @0 plain
take 1 1 say a => 1 1 say a @0 plain
take 2 1 say a => ended
take 2 1 say a => ended",
    );
}

// Where nobody takes replies, they come back as gone, also where there is room.
#[test]
fn nobody_takes(rt: HostRuntime) {
    check_rows(
        &rt,
        4,
        "put 1 1 say a => put
drop take => 
put 1 1 say a => gone 1
put 1 1 say a => gone 1",
    );
}
