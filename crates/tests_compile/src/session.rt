//! pq_session, call by call: cut sessions, devices that fail, texts of replies, the longest text,
//! what messages tell, what an editor is shown.
mod cuts;
mod devices;
mod events;
mod longest;
mod replies;
mod shown;

use crate::checks::check_page;
use pq_frame::FrameFault;
use pq_inputs::InputFault;
use pq_session::ScriptFault;
use std::process::Abort;
use test_support::Page;

/// The name of a script's error.
fn fault_name(fault: &ScriptFault) -> &'static str {
    match fault {
        ScriptFault::Frame(FrameFault::HeaderTooLong) => "HeaderTooLong",
        ScriptFault::Frame(FrameFault::NoLength) => "NoLength",
        ScriptFault::Frame(FrameFault::BadLength) => "BadLength",
        ScriptFault::Frame(FrameFault::TooLong) => "TooLong",
        ScriptFault::Frame(FrameFault::Memory) => "Frame(Memory)",
        ScriptFault::Cut => "Cut",
        ScriptFault::Edit(InputFault::TextTooLong) => "TextTooLong",
        ScriptFault::Edit(InputFault::TooManyFiles) => "TooManyFiles",
        ScriptFault::Edit(InputFault::RevisionsUsedUp) => "RevisionsUsedUp",
        ScriptFault::Edit(InputFault::Memory) => "Edit(Memory)",
        ScriptFault::BadRange => "BadRange",
        ScriptFault::Read => "Read",
        ScriptFault::TooManyReads => "TooManyReads",
        ScriptFault::Write => "Write",
        ScriptFault::Memory => "Memory",
    }
}

/// Writes a script's outcome: its status, or its error.
fn add_outcome(page: &mut Page, outcome: &Result<u8, ScriptFault>) {
    match outcome {
        Ok(status) => page.number(usize::from(*status)),
        Err(fault) => page.add(fault_name(fault)),
    }
}

/// Checks that a script's outcome is `want`; `row` names the row.
fn check_outcome(
    rt: &(impl Abort + AllocGlobal),
    outcome: &Result<u8, ScriptFault>,
    want: &str,
    row: &str,
) {
    let mut page = Page::new(rt.alloc());
    add_outcome(&mut page, outcome);
    check_page(rt, &page, want, row);
}
