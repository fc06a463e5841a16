//! pq_inputs: revisions, durabilities and refusals, as rows that one interpreter reads.
//!
//! A row is `WORD FILE TEXT => WANT`. `high`, `medium` and `low` set the file to the text, `-` for
//! absent, with that durability; they write `set`, or the error and the text that is handed back.
//! `spaces` sets the file to as many spaces as the text says, and writes `set` or the error.
//! `state` writes the file's text and durability, the revision, that of the file's last change, and
//! those of the last changes at Low, Medium and High. `now` writes the revision, and `changed` that
//! of the file's last change.
use crate::checks::{check_page, check_row_count, check_text, check_that, split_row, text_of};
use pq_inputs::{
    Durability, InputFault, Inputs, MAX_FILES, MAX_TEXT, MOST_FILES, Revision, SetRefused,
};
use std::process::Abort;
use test_support::{Page, durability_of, is_sendable};

/// The name of an error.
fn fault_name(fault: &InputFault) -> &'static str {
    match fault {
        InputFault::TextTooLong => "TextTooLong",
        InputFault::TooManyFiles => "TooManyFiles",
        InputFault::RevisionsUsedUp => "RevisionsUsedUp",
        InputFault::Memory => "Memory",
    }
}

/// The name of an error, or `set`.
fn outcome_name(outcome: &Result<Revision, SetRefused>) -> &'static str {
    match outcome {
        Ok(_revision) => "set",
        Err(refused) => fault_name(&refused.fault),
    }
}

/// The text that a refused change hands back, `-` for absent.
fn text_back(refused: &SetRefused) -> &str {
    match &refused.text {
        Some(text) => text.as_str(),
        None => "-",
    }
}

/// Writes the text that is handed back, with a blank before it, where the change was refused.
fn add_text_back(page: &mut Page, outcome: &Result<Revision, SetRefused>) {
    if let Err(refused) = outcome {
        page.add(" ");
        page.add(text_back(refused));
    }
}

/// Sets `file` to a text, and writes the outcome and what is handed back.
fn set(
    page: &mut Page,
    inputs: &mut Inputs,
    file: &str,
    text: Option<String>,
    durability: Durability,
) {
    let outcome = inputs.set(file, text, durability);
    page.add(outcome_name(&outcome));
    add_text_back(page, &outcome);
}

/// Sets `file` to `text`, `-` for absent, and writes the outcome and what is handed back.
fn set_to(page: &mut Page, inputs: &mut Inputs, file: &str, text: &str, durability: Durability) {
    if text == "-" {
        return set(page, inputs, file, None, durability);
    }
    match String::from_str(page.alloc, text) {
        Ok(text) => set(page, inputs, file, Some(text), durability),
        Err(_) => page.cut(),
    }
}

/// The number of spaces that a row asks for.
fn spaces_of(text: &str) -> usize {
    match text {
        "1" => 1,
        "1048576" => 1_048_576,
        "1048577" => 1_048_577,
        _ => MAX_TEXT + 1,
    }
}

/// Sets `file` to a text with the durability Low, and writes the outcome.
fn set_low(page: &mut Page, inputs: &mut Inputs, file: &str, text: String) {
    let outcome = inputs.set(file, Some(text), Durability::Low);
    page.add(outcome_name(&outcome));
}

/// Sets `file` to `count` spaces, and writes the outcome.
fn set_spaces(page: &mut Page, inputs: &mut Inputs, file: &str, count: usize) {
    match " ".repeat(page.alloc, count) {
        Ok(text) => set_low(page, inputs, file, text),
        Err(_) => page.cut(),
    }
}

/// The name of a durability.
fn durability_name(durability: Durability) -> &'static str {
    match durability {
        Durability::Low => "low",
        Durability::Medium => "medium",
        Durability::High => "high",
    }
}

/// Writes a revision with a blank before it.
fn add_revision(page: &mut Page, revision: Revision) {
    page.add(" ");
    page.wide(revision.number());
}

/// Writes the text and the durability of `file`, and the revisions.
fn add_state(page: &mut Page, inputs: &Inputs, file: &str) {
    page.add(inputs.get(file).unwrap_or("-"));
    page.add(" ");
    page.add(durability_name(inputs.durability(file)));
    add_revision(page, inputs.now());
    add_revision(page, inputs.changed_at(file));
    add_revision(page, inputs.last_changed(Durability::Low));
    add_revision(page, inputs.last_changed(Durability::Medium));
    add_revision(page, inputs.last_changed(Durability::High));
}

/// Carries out the row `WORD FILE TEXT`.
fn step(page: &mut Page, inputs: &mut Inputs, word: &str, file: &str, text: &str) {
    match word {
        "high" | "medium" | "low" => set_to(page, inputs, file, text, durability_of(word)),
        "spaces" => set_spaces(page, inputs, file, spaces_of(text)),
        "state" => add_state(page, inputs, file),
        "now" => page.wide(inputs.now().number()),
        "changed" => page.wide(inputs.changed_at(file).number()),
        _ => page.cut(),
    }
}

/// Carries out one row and checks it.
fn check_row(rt: &(impl Abort + AllocGlobal), inputs: &mut Inputs, row: &str) {
    let (asked, want) = split_row(rt, row, " => ");
    let (word, rest) = split_row(rt, asked, " ");
    let (file, text) = split_row(rt, rest, " ");
    let mut page = Page::new(rt.alloc());
    step(&mut page, inputs, word, file, text);
    check_page(rt, &page, want, row);
}

/// Carries out and checks the `count` rows, one after the other.
fn check_rows(rt: &(impl Abort + AllocGlobal), inputs: &mut Inputs, count: usize, rows: &str) {
    check_row_count(rt, count, rows);
    for row in rows.lines() {
        check_row(rt, inputs, row);
    }
}

/// Carries out and checks the `count` rows from no files on.
fn check_from_none(rt: &(impl Abort + AllocGlobal), count: usize, rows: &str) {
    let mut inputs = Inputs::new(rt.alloc()).expect(rt, "memory");
    check_rows(rt, &mut inputs, count, rows);
}

#[test]
fn no_files(rt: HostRuntime) {
    check_from_none(&rt, 1, "state a . => - low 0 0 0 0 0\n");
}

// A change of text or durability marks the durability before it and each lower one.
#[test]
fn revisions_and_durabilities(rt: HostRuntime) {
    check_from_none(
        &rt,
        8,
        "\
        high a x => set\n\
        state a . => x high 1 1 1 0 0\n\
        low a x => set\n\
        state a . => x low 2 2 2 2 2\n\
        low a y => set\n\
        state a . => y low 3 3 3 2 2\n\
        low a y => set\n\
        state a . => y low 4 3 3 2 2\n\
        ",
    );
}

#[test]
fn absent_files(rt: HostRuntime) {
    check_from_none(
        &rt,
        8,
        "\
        low a - => set\n\
        state a . => - low 1 0 0 0 0\n\
        high a - => set\n\
        state a . => - high 2 2 2 0 0\n\
        high a - => set\n\
        state a . => - high 3 2 2 0 0\n\
        low a - => set\n\
        state a . => - low 4 4 4 4 4\n\
        ",
    );
}

/// Sets the absent file that is named by `number`.
fn check_file(rt: &(impl Abort + AllocGlobal), inputs: &mut Inputs, number: usize) {
    let mut name = Page::new(rt.alloc());
    name.number(number);
    let outcome = inputs.set(text_of(rt, &name), None, Durability::Low);
    check_text(rt, outcome_name(&outcome), "set", "a file");
}

/// Sets as many absent files as there may be, named by their numbers from 0.
fn check_most_files(rt: &(impl Abort + AllocGlobal), inputs: &mut Inputs) {
    for number in 0..MAX_FILES {
        check_file(rt, inputs, number);
    }
}

#[test]
fn too_many_files(rt: HostRuntime) {
    let mut inputs = Inputs::new(rt.alloc()).expect(&rt, "memory");
    check_most_files(&rt, &mut inputs);
    check_rows(
        &rt,
        &mut inputs,
        5,
        "\
        spaces 4096 most+1 => TextTooLong\n\
        high 4096 x => TooManyFiles x\n\
        now . . => 4096\n\
        high 4095 - => set\n\
        now . . => 4097\n\
        ",
    );
}

#[test]
fn limit_is_given(rt: HostRuntime) {
    let mut inputs = Inputs::with_limit(rt.alloc(), 2).expect(&rt, "memory");
    check_rows(
        &rt,
        &mut inputs,
        5,
        "\
        low a x => set\n\
        low b x => set\n\
        low c x => TooManyFiles x\n\
        low a y => set\n\
        now . . => 3\n\
        ",
    );
    let mut inputs = Inputs::with_limit(rt.alloc(), MOST_FILES).expect(&rt, "memory");
    check_most_files(&rt, &mut inputs);
    check_rows(
        &rt,
        &mut inputs,
        2,
        "\
        high 4096 x => set\n\
        now . . => 4097\n\
        ",
    );
}

#[test]
fn sendable(rt: HostRuntime) {
    check_that(&rt, is_sendable::<Inputs>(), "inputs");
}
