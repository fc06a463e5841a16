//! The calls of a script, row by row, while workers work.
use crate::checks::{check_page, check_that, split_row};
use crate::halls::gate::{Latch, goes_on, have_left, pause, watch};
use crate::halls::guests::{add_crowd, add_returned, answer, begin, joined};
use crate::halls::stage::{Stage, Works};
use pq_inputs::{Inputs, Revision};
use std::process::Abort;
use std::sync::Wait;
use std::sync::atomic::Ordering;
use std::thread;
use std::thread::{Scope, Threads};
use std::time::Clock;
use test_support::Page;

/// The revision that `word` numbers, from the first one, 0, on.
fn revision_of(rt: &(impl Abort + AllocGlobal), word: &str) -> Revision {
    let mut revision = Inputs::new(rt.alloc()).expect(rt, "memory").now();
    for _ in 0..word.parse::<u64>().ok().expect(rt, word) {
        if revision.number() < u64::MAX {
            revision = revision.next();
        }
    }
    revision
}

/// Makes the call `word` of the hall or of its threads, and writes its answer.
fn answer_of_hall<F, R>(rt: &R, page: &mut Page, hall: &F, latch: &Latch, word: &str, rest: &str)
where
    F: Stage<R>,
    R: Abort + AllocGlobal + Clock,
{
    match word {
        "mark" => {
            let has_mark = hall.has_mark(rt, revision_of(rt, rest));
            page.add(if has_mark { "yes" } else { "none" });
        }
        "held" => page.add(if latch.stop(rest).is_held(rt) {
            "yes"
        } else {
            "too late"
        }),
        "free" => {
            let is_late = latch.stop(rest).free();
            page.add(if is_late { "too late" } else { "in time" });
        }
        "early" => page.add(if goes_on(rt, latch) {
            "not yet"
        } else {
            "returned"
        }),
        "rest" => {
            pause(rt);
            page.add("rested");
        }
        "crowd" => add_crowd(rt, page, hall, rest),
        "shut" => {
            hall.shut(rt);
            page.add("shut");
        }
        _ => page.add(if have_left(rt, latch) { "yes" } else { "no" }),
    }
}

/// Makes the calls of `rows`, and checks their answers. Carries that are begun have threads of `scope`.
fn make_calls<'s, E, F, R>(
    scope: &Scope<'s, E>,
    rt: &'s R,
    hall: &'s F,
    latch: &'s Latch,
    rows: &str,
)
where
    F: Stage<R>,
    F::Post: 's,
    F::Porter: 's,
    F::Take: 's,
    R: Abort + AllocGlobal + Clock + Threads + Sync,
{
    let mut first = joined(rt, hall);
    let mut second = joined(rt, hall);
    let mut third = joined(rt, hall);
    for row in rows.lines() {
        let _ = latch.row.fetch_add(1, Ordering::SeqCst);
        let (call, want) = split_row(rt, row, " => ");
        let (word, rest) = split_row(rt, call, " ");
        let mut page = Page::new(rt.alloc());
        match rest.split_once(" ") {
            Some((client, rest)) => {
                let guest = match client {
                    "0" => &mut first,
                    "1" => &mut second,
                    _ => &mut third,
                };
                match word {
                    "begin" => {
                        begin(scope, rt, hall, latch, guest);
                        page.add("begun");
                    }
                    "over" => add_returned::<F, R>(rt, &mut page, guest),
                    _ => answer(rt, &mut page, hall, guest, word, rest),
                }
            }
            None => answer_of_hall(rt, &mut page, hall, latch, word, rest),
        }
        check_page(rt, &page, want, row);
    }
}

/// Runs a worker until the hall is shut, and notes that it has left.
fn work<F, G, R>(rt: &R, hall: &F, gate: &G, latch: &Latch)
where
    F: Works<G, R>,
{
    hall.work_with(rt, gate);
    let _ = latch.working.fetch_sub(1, Ordering::SeqCst);
}

/// Makes the calls of `rows` while `workers` threads of `scope` work in `hall`, and then shuts it. The
/// workers have to leave then.
fn run_in<'s, E, F, G, R>(
    scope: &Scope<'s, E>,
    rt: &'s R,
    hall: &'s F,
    gate: &'s G,
    latch: &'s Latch,
    workers: u8,
    rows: &str,
)
where
    F: Stage<R> + Works<G, R>,
    F::Post: 's,
    F::Porter: 's,
    F::Take: 's,
    G: Sync,
    R: Abort + AllocGlobal + Clock + Threads + Sync,
{
    let _ = scope
        .spawn(move || watch(rt, latch))
        .ok()
        .expect(rt, "a thread");
    for _ in 0..workers {
        let _ = latch.working.fetch_add(1, Ordering::SeqCst);
        let _ = scope
            .spawn(move || work(rt, hall, gate, latch))
            .ok()
            .expect(rt, "a thread");
    }
    make_calls(scope, rt, hall, latch, rows);
    hall.shut(rt);
    check_that(rt, have_left(rt, latch), "a worker works on");
    latch.is_over.store(true, Ordering::SeqCst);
}

/// Makes the calls of `rows` while `workers` threads work in `hall`. The closure makes one call, so its
/// contract is inferred, with all that threads ask of the types of `hall`.
pub(crate) fn run_calls<F, G, R>(rt: &R, hall: &F, gate: &G, latch: &Latch, workers: u8, rows: &str)
where
    F: Stage<R> + Works<G, R>,
    G: Sync,
    R: Abort + AllocGlobal + Clock + Threads + Wait + Sync,
{
    thread::scope(thread::scope_env(), rt, |scope| {
        run_in(scope, rt, hall, gate, latch, workers, rows);
    });
}
