//! Connections that could not be accepted, and a reply whose text had no room.
use super::support::{check_row_count, check_text, split_row};
use crate::serving::failures::{Failures, Verdict, after_failure, cause_of};
use crate::serving::floor::text_or_refusal;
use log::kv::Source;
use log::span::Spans;
use log::{Level, Log, Logged, Metadata, Record};
use pq_core::Label;
use pq_session::Memory;
use std::fmt::Display;
use std::io;
use std::process::Abort;
use std::sync::atomic::{AtomicU32, Ordering};
use std::test::Fail;
use std::time::{Clock, Duration};

/// A number of the system, as text.
fn number_of(rt: &impl Abort, text: &str) -> u32 {
    text.trim().parse().expect(rt, text)
}

/// What the listener does after a failure by the system's error `code`.
fn shown_verdict(code: u32, running: u32, failures: u32) -> &'static str {
    let error = io::Error::from_raw_os_error(code.cast_signed());
    let cause = cause_of(error.kind(), error.raw_os_error());
    match after_failure(cause, running, failures) {
        Verdict::GoOn => "goes on",
        Verdict::TryAgain => "tries again",
        Verdict::End => "ends",
    }
}

// Rows `CODE RUNNING FAILURES => VERDICT`, with Linux's numbers: 4 is an interrupted call and 103 an
// aborted connection; 23 and 24 say that no descriptor is left, 12 and 105 that no memory is; 9, 22 and
// 95 say that the socket cannot accept.
#[test]
fn verdicts_on_failures(rt: HostRuntime) {
    let rows = "\
        4 0 99 => goes on\n\
        103 0 99 => goes on\n\
        103 3 0 => goes on\n\
        24 1 0 => tries again\n\
        23 64 0 => tries again\n\
        12 1 99 => tries again\n\
        105 1 99 => tries again\n\
        24 0 1 => tries again\n\
        23 0 9 => tries again\n\
        24 0 10 => ends\n\
        23 0 10 => ends\n\
        12 0 10 => ends\n\
        105 0 11 => ends\n\
        9 5 0 => ends\n\
        22 5 1 => ends\n\
        95 0 1 => ends\
        ";
    check_row_count(&rt, 16, rows);
    for row in rows.lines() {
        let (given, want) = split_row(&rt, row, " => ");
        let (code, given) = split_row(&rt, given, " ");
        let (running, failures) = split_row(&rt, given, " ");
        let code = number_of(&rt, code);
        let found = shown_verdict(code, number_of(&rt, running), number_of(&rt, failures));
        check_text(&rt, found, want, row);
    }
}

/// A log that counts its records.
#[derive(Clone, Copy, Drop)]
struct Tally(&'static AtomicU32);

impl Log for Tally {
    fn enabled(&self, _metadata: &Metadata<'_>) -> bool {
        true
    }

    fn log<D: Display, K: Source, S: Spans>(&self, _record: &Record<'_, D, K, S>) {
        self.0.fetch_add(1, Ordering::SeqCst);
    }

    fn flush(&self) {}

    fn target(&self) -> &str {
        ""
    }
}

/// A count of records, which is never given back.
fn new_tally(rt: &(impl Abort + AllocGlobal)) -> Tally {
    let count = Box::new(rt.alloc(), AtomicU32::new(0));
    Tally(Box::leak(count.ok().expect(rt, "memory")))
}

/// A runtime whose clock has stopped. Its sleeps are not slept.
#[derive(Clone, Copy, Drop)]
struct Stopped<R>(R);

impl<R> Clock for Stopped<R> {
    fn monotonic(&self) -> io::Result<Duration> {
        Ok(Duration::from_secs(1))
    }

    fn since_1970(&self) -> io::Result<Duration> {
        Ok(Duration::from_secs(1))
    }
}

/// How many of `count` failures by the system's error `code` are passed, while `running` sessions run.
fn passed<H: Clock + Log>(
    rt: &H,
    failures: &mut Failures,
    code: i32,
    running: u32,
    count: u32,
) -> u32 {
    let error = io::Error::from_raw_os_error(code);
    let mut passed = 0u32;
    for _ in 0..count {
        if failures.is_passed(rt, &error, running) {
            passed = passed.saturating_add(1);
        }
    }
    passed
}

// Nine failures in a row are passed, and the tenth is not. A session that runs, a connection that was
// accepted and an aborted one begin another row. A cause leaves its line once, and so does the end.
#[test]
fn ten_failures_in_a_row(rt: HostRuntime) {
    let lines = new_tally(&rt);
    let logged = Logged::new(Stopped(rt), Level::Warn, lines);
    let mut failures = Failures::new();
    assert_eq!(rt; passed(&logged, &mut failures, 24, 0, 9), 9);
    failures.end_row();
    assert_eq!(rt; passed(&logged, &mut failures, 24, 0, 9), 9);
    assert_eq!(rt; passed(&logged, &mut failures, 24, 1, 1), 1);
    assert_eq!(rt; passed(&logged, &mut failures, 24, 0, 9), 9);
    assert_eq!(rt; lines.0.load(Ordering::SeqCst), 1);
    assert_eq!(rt; passed(&logged, &mut failures, 103, 0, 2), 2);
    assert_eq!(rt; lines.0.load(Ordering::SeqCst), 2);
    assert_eq!(rt; passed(&logged, &mut failures, 105, 0, 10), 9);
    assert_eq!(rt; lines.0.load(Ordering::SeqCst), 4);
    assert_eq!(rt; passed(&logged, &mut failures, 22, 1, 1), 0);
    assert_eq!(rt; lines.0.load(Ordering::SeqCst), 5);
}

// A reply whose text had no room is an error of its request.
#[test]
fn reply_without_room(rt: HostRuntime) -> Result<(), Fail> {
    let text = text_or_refusal(rt.alloc(), Err(Memory), &Label::Unsigned(7))?;
    check_text(
        &rt,
        text.as_str(),
        r#"{"error":{"code":-32603,"message":"out of memory"},"id":7,"jsonrpc":"2.0"}"#,
        "-32603",
    );
    let made = String::from_str(rt.alloc(), "made")?;
    let text = text_or_refusal(rt.alloc(), Ok(made), &Label::None)?;
    check_text(&rt, text.as_str(), "made", "made");
    Ok(())
}
