//! pq_rules: answers of sums from scratch, cycles among them.
mod counted;

use crate::checks::{check_page, check_row_count, check_that, split_row, text_of};
use pq_inputs::{Durability, Inputs};
use pq_rules::{SumsKey, Text};
use std::process::Abort;
use test_support::{Page, add_sum, sums_key};

/// Sets a file.
fn set(rt: &impl Abort, inputs: &mut Inputs, name: &str, text: Option<String>) {
    let is_set = inputs.set(name, text, Durability::Low).is_ok();
    check_that(rt, is_set, name);
}

/// Sets the file of a line `NAME=TEXT` or, for an absent one, `NAME`.
fn set_line(rt: &(impl Abort + AllocGlobal), inputs: &mut Inputs, line: &str) {
    match line.split_once("=") {
        Some((name, text)) => {
            let text = String::from_str(rt.alloc(), text).expect(rt, "memory");
            set(rt, inputs, name, Some(text));
        }
        None => set(rt, inputs, line, None),
    }
}

/// Sets each file of `files`, a line `NAME=TEXT` or, for an absent one, `NAME` for each.
fn inputs_of(rt: &(impl Abort + AllocGlobal), files: &str) -> Inputs {
    let mut inputs = Inputs::new(rt.alloc()).expect(rt, "memory");
    for line in files.lines() {
        set_line(rt, &mut inputs, line);
    }
    inputs
}

/// The key that `asked` writes as `Text NAME`, `Sum NAME` or `Total NAME`.
pub(crate) fn key_of(rt: &(impl Abort + AllocGlobal), asked: &str) -> SumsKey {
    let (query, name) = split_row(rt, asked, " ");
    sums_key(query, Text::new(rt.alloc(), name).expect(rt, "memory"))
}

/// Checks that the answer of `asked` is `want`.
fn check_answer(rt: &(impl Abort + AllocGlobal), inputs: &Inputs, asked: &str, want: &str) {
    let key = key_of(rt, asked);
    let mut page = Page::new(rt.alloc());
    add_sum(&mut page, inputs, &key);
    check_page(rt, &page, want, asked);
}

/// Checks the `count` rows `KEY => ANSWER` over `files`.
fn check_answers(rt: &(impl Abort + AllocGlobal), files: &str, count: usize, rows: &str) {
    check_row_count(rt, count, rows);
    let inputs = inputs_of(rt, files);
    for row in rows.lines() {
        let (asked, want) = split_row(rt, row, " => ");
        check_answer(rt, &inputs, asked, want);
    }
}

#[test]
fn adds(rt: HostRuntime) {
    check_answers(
        &rt,
        "a=b c\nb=c\nc=\n",
        5,
        "\
        Sum a => 4\n\
        Sum b => 2\n\
        Sum c => 1\n\
        Total a => 4\n\
        Sum never => 1\n\
        ",
    );
}

/// Checks that the sum of the only file, as `file` writes it, is `want`.
fn check_sum(rt: &(impl Abort + AllocGlobal), file: &str, want: &str) {
    let inputs = inputs_of(rt, file);
    check_answer(rt, &inputs, "Sum a", want);
}

#[test]
fn passes_over_empty_pieces(rt: HostRuntime) {
    check_sum(&rt, "a", "1");
    check_sum(&rt, "a=", "1");
    check_sum(&rt, "a= ", "1");
    check_sum(&rt, "a=b  c", "3");
    check_sum(&rt, "a= b", "2");
    check_sum(&rt, "a=b ", "2");
    check_sum(&rt, "a=b b", "3");
}

#[test]
fn absent_differs_from_empty(rt: HostRuntime) {
    check_answers(&rt, "a\nb=\n", 2, "Text a => absent\nText b => ''\n");
}

#[test]
fn meets_a_ring(rt: HostRuntime) {
    check_answers(
        &rt,
        "a=b c\nb=c\nc=a\nd=e b\ne=\n",
        8,
        "\
        Sum a => Sum a;Sum b;Sum c;\n\
        Sum b => Sum a;Sum b;Sum c;\n\
        Sum c => Sum a;Sum b;Sum c;\n\
        Sum d => Sum a;Sum b;Sum c;\n\
        Total a => 0\n\
        Total d => 0\n\
        Sum e => 1\n\
        Total e => 1\n\
        ",
    );
    check_answers(&rt, "a=a\n", 1, "Sum a => Sum a;\n");
}

/// Writes files `n1000` to `n1999`, each naming the next and the last the first.
fn add_ring_files(files: &mut Page) {
    for i in 0..1_000usize {
        files.add("n");
        files.number(1_000 + i);
        files.add("=n");
        files.number(1_000 + (i + 1) % 1_000);
        files.add("\n");
    }
}

/// Writes the keys of the ring of those files, from the least on.
fn add_ring_keys(keys: &mut Page) {
    for i in 1_000..2_000usize {
        keys.add("Sum n");
        keys.number(i);
        keys.add(";");
    }
}

// The ring of 1,000 keys is met in its middle.
#[test]
fn meets_a_long_ring(rt: HostRuntime) {
    let mut files = Page::new(rt.alloc());
    add_ring_files(&mut files);
    let mut keys = Page::new(rt.alloc());
    add_ring_keys(&mut keys);
    let inputs = inputs_of(&rt, text_of(&rt, &files));
    check_answer(&rt, &inputs, "Sum n1500", text_of(&rt, &keys));
}
