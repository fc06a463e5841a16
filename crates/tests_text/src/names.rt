//! pq_names: the table of names, as rows that one interpreter reads.
//!
//! A row is `WORD TEXT => WANT`. `intern` writes the number that the text gets, `find` the number
//! that it has or `none`, `text` the text of the number that it gets, `len` the number of names, and
//! `empty` whether there are none.
use crate::checks::{check_page, check_row_count, check_that, split_row};
use pq_names::{NameId, Names};
use std::process::Abort;
use test_support::{Page, is_sendable};

/// Writes the number of a name.
fn add_number(page: &mut Page, id: NameId) {
    page.wide(u64::from(id.number()));
}

/// Writes the number that `text` gets.
fn add_interned(page: &mut Page, names: &mut Names, text: &str) {
    match names.intern(text) {
        Ok(id) => add_number(page, id),
        Err(_) => page.cut(),
    }
}

/// Writes the number of `text`, or `none`.
fn add_found(page: &mut Page, names: &Names, text: &str) {
    match names.find(text) {
        Some(id) => add_number(page, id),
        None => page.add("none"),
    }
}

/// Writes the text of the name with the number `id`, or the number where no name has it.
fn add_text_of(page: &mut Page, names: &Names, id: NameId) {
    if (id.number() as usize) < names.len() {
        page.add(names.text(id));
    } else {
        add_number(page, id);
    }
}

/// Writes the text of the number that `text` gets.
fn add_text(page: &mut Page, names: &mut Names, text: &str) {
    match names.intern(text) {
        Ok(id) => add_text_of(page, names, id),
        Err(_) => page.cut(),
    }
}

/// Carries out the row `WORD TEXT`.
fn step(page: &mut Page, names: &mut Names, word: &str, text: &str) {
    match word {
        "intern" => add_interned(page, names, text),
        "find" => add_found(page, names, text),
        "text" => add_text(page, names, text),
        "len" => page.number(names.len()),
        "empty" => page.add(if names.is_empty() { "yes" } else { "no" }),
        _ => page.cut(),
    }
}

/// Carries out one row and checks it.
fn check_row(rt: &(impl Abort + AllocGlobal), names: &mut Names, row: &str) {
    let (asked, want) = split_row(rt, row, " => ");
    let (word, text) = split_row(rt, asked, " ");
    let mut page = Page::new(rt.alloc());
    step(&mut page, names, word, text);
    check_page(rt, &page, want, row);
}

/// Carries out and checks the `count` rows, from the first to the last, from no names on.
fn check_rows(rt: &(impl Abort + AllocGlobal), count: usize, rows: &str) {
    check_row_count(rt, count, rows);
    let mut names = Names::new(rt.alloc());
    for row in rows.lines() {
        check_row(rt, &mut names, row);
    }
}

#[test]
fn numbers_and_texts(rt: HostRuntime) {
    check_rows(
        &rt,
        12,
        "\
        empty . => yes\n\
        intern a => 0\n\
        intern b => 1\n\
        intern a => 0\n\
        intern  => 2\n\
        intern b => 1\n\
        len . => 3\n\
        find a => 0\n\
        find b => 1\n\
        find  => 2\n\
        find c => none\n\
        find ab => none\n\
        ",
    );
}

#[test]
fn texts_of_names(rt: HostRuntime) {
    check_rows(&rt, 2, "intern a => 0\ntext b => b\n");
}

#[test]
fn sendable(rt: HostRuntime) {
    check_that(&rt, is_sendable::<Names>(), "names");
}
