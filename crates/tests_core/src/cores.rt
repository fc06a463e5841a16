//! pq_core: clients, runs and replies, call by call.
//!
//! A script has a line `CALL => ANSWER` for each call of a core over sums, which count their starts
//! (`answers` says what the lines are). The answer ends with `; rest` where the core is at rest then.
//!
//! Modules: `answers` (what a line calls), `calls` (of a core), `lines` and `sums` (requests, changes,
//! replies and keys as text), `shown` (what calls answer), `post` (an outbox whose taking end can go).
//! Of rows: `replies`, `starts` (their order), `runs`, `rings`, `edits`, `withdrawals`, `limits`, and
//! `parts` (a store and a lane apart).
mod answers;
mod calls;
mod edits;
mod limits;
pub(crate) mod lines;
mod parts;
mod post;
mod replies;
mod rings;
mod runs;
mod shown;
mod starts;
mod sums;
mod withdrawals;

use crate::checks::{check_number, check_page, check_row_count, split_row, text_of};
use answers::answer;
use calls::Calls;
use post::Post;
use pq_core::{Core, PlainStamp};
use pq_inputs::Inputs;
use pq_rules::{Rules, SumsKey, SumsValue};
use std::cell::Cell;
use std::process::Abort;
use test_support::{Counted, Page};

/// Checks what the call of `line` answers, and whether the core is at rest then. Returns how many
/// rules were started.
fn check_line<C: Calls>(rt: &(impl Abort + AllocGlobal), core: &mut C, line: &str) -> usize {
    let (call, want) = split_row(rt, line, " => ");
    let mut log = Page::new(rt.alloc());
    let mut found = Page::new(rt.alloc());
    answer(rt, &mut found, core, &mut log, call);
    if core.rests() {
        found.add("; rest");
    }
    check_page(rt, &found, want, line);
    text_of(rt, &log).matches(';').count()
}

/// Runs a script on `core`, whose rules count in `starts`: work has a cause where a rule starts.
fn check_lines<C: Calls>(
    rt: &(impl Abort + AllocGlobal),
    core: &mut C,
    starts: &Cell<u32>,
    script: &str,
) {
    let mut started = 0usize;
    for line in script.lines() {
        started = started.saturating_add(check_line(rt, core, line));
        check_number(rt, started, starts.get() as usize, line);
    }
}

/// Runs a script with `rules`, which count in `starts`.
fn check_script_by<R: Rules<Key = SumsKey, Value = SumsValue>>(
    rt: &(impl Abort + AllocGlobal),
    rules: R,
    starts: &Cell<u32>,
    script: &str,
)
where
    Core<R, PlainStamp, Post>: Calls,
{
    let inputs = Inputs::new(rt.alloc()).expect(rt, "memory");
    let stamp = PlainStamp::of(rt.alloc(), &inputs).expect(rt, "memory");
    let mut core: Core<R, PlainStamp, Post> = Core::new(rt.alloc(), rules, inputs, stamp);
    check_lines(rt, &mut core, starts, script);
}

/// Runs a script, each of its answers checked.
fn check_script(rt: &(impl Abort + AllocGlobal), script: &str) {
    let starts = Cell::new(0);
    check_script_by(rt, Counted { starts: &starts }, &starts, script);
}

/// Runs the script `rows` of `count` lines.
fn check_rows(rt: &(impl Abort + AllocGlobal), count: usize, rows: &str) {
    check_row_count(rt, count, rows);
    check_script(rt, rows);
}

/// Writes the lines `CALL => N` for each N up to `count`, each with `end` after it.
fn add_numbered(rows: &mut Page, call: &str, count: usize, end: &str) {
    for n in 0..count {
        rows.add(call);
        rows.add(" => ");
        rows.number(n);
        rows.add(end);
        rows.add("\n");
    }
}
