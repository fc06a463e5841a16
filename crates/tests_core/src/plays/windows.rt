//! Windows of clients, and the number of clients.
use super::{check_play, played_of};
use crate::checks::{check_number, text_of};
use pq_play::Played;
use pq_rules::{SumsKey, SumsValue};
use std::process::Abort;
use test_support::{Page, Random};

/// Writes what the list of [`limits`] gives.
fn add_limits(want: &mut Page) {
    want.add("accepted ");
    want.repeat("7 Sum a|", 32);
    want.add("8 Sum b|\n");
    want.repeat("accepted \n", 63);
    want.add("taken 0 7 Sum a @0 answered 1|\n");
    want.repeat("taken \n", 63);
    want.add("revision 0\n");
}

// The request beyond the window and the client beyond the sixty-fourth are passed over.
#[test]
fn limits(rt: HostRuntime) {
    let mut script = Page::new(rt.alloc());
    script.repeat("open\n", 65);
    script.repeat("accept 0 7 Sum a\n", 33);
    script.add("start\nrun 0\nrelease 0\naccept 0 8 Sum b\naccept 0 9 Sum b\ntake 0\n");
    let mut want = Page::new(rt.alloc());
    add_limits(&mut want);
    check_play(&rt, 1, text_of(&rt, &script), text_of(&rt, &want));
}

/// Counts of the requests of one client that were accepted, put and taken. Each is ready at once.
#[derive(Drop)]
struct Lane {
    room: usize,
    accepted: usize,
    put: usize,
    taken: usize,
}

impl Lane {
    /// Accepts a request within the window.
    fn accept(&mut self) {
        if self.accepted.saturating_sub(self.put) < 32 {
            self.accepted = self.accepted.saturating_add(1);
        }
    }

    /// Puts a reply if there is one, and room.
    fn release(&mut self) {
        if self.put < self.accepted && self.put.saturating_sub(self.taken) < self.room {
            self.put = self.put.saturating_add(1);
        }
    }

    /// Takes a reply if there is one.
    fn take(&mut self) {
        if self.taken < self.put {
            self.taken = self.taken.saturating_add(1);
        }
    }

    /// Writes an event, of which `accepts` of `all` are requests, and makes it.
    fn add_event(&mut self, script: &mut Page, random: &mut Random, accepts: usize, all: usize) {
        let event = random.below(all);
        if event < accepts {
            self.accept();
            script.add("accept 0 7 say x\n");
        } else if event % 2 == 0 {
            self.release();
            script.add("release 0\n");
        } else {
            self.take();
            script.add("take 0\n");
        }
    }

    /// Checks what was played.
    fn check(&self, rt: &impl Abort, played: &Played<SumsKey, SumsValue>, script: &str) {
        for requests in &played.accepted {
            check_number(rt, requests.len(), self.accepted, script);
        }
        for replies in &played.taken {
            check_number(rt, replies.len(), self.taken, script);
        }
    }
}

/// Writes 300 events of one client, and makes them.
fn add_events(lane: &mut Lane, script: &mut Page, random: &mut Random) {
    let all = random.below(12).saturating_add(4);
    for _ in 0..300u32 {
        lane.add_event(script, random, 3, all);
    }
}

/// Checks a list of 300 events of one client.
fn check_list(rt: &(impl Abort + AllocGlobal), random: &mut Random, room: usize) {
    let mut lane = Lane {
        room,
        accepted: 0,
        put: 0,
        taken: 0,
    };
    let mut script = Page::new(rt.alloc());
    script.add("open\n");
    add_events(&mut lane, &mut script, random);
    let script = text_of(rt, &script);
    lane.check(rt, &played_of(rt, room, script), script);
}

// Requests of fixed texts alone, so that every count is known.
#[test]
fn windows(rt: HostRuntime) {
    let mut random = Random::new(7);
    for n in 0..400usize {
        check_list(&rt, &mut random, n % 5);
    }
}
