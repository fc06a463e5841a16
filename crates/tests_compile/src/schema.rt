//! pq_links and pq_schema: links, definitions and references of small sets of files, from scratch.
//!
//! A set of files is one text with a line `NAME: TEXT` for each file, without the statement of the
//! syntax, or `NAME` for an absent one.
mod links;
mod others;
mod resolution;
mod shown;

use crate::checks::{check_page, check_row_count, check_that, split_row};
use pq_inputs::Inputs;
use pq_rules::{Answer, Memory, Text, from_scratch};
use pq_schema::{SchemaKey, SchemaRules, SchemaValue, Scope, resolve};
use shown::{add_answer, add_target};
use std::alloc::Global;
use std::process::Abort;
use test_support::{Page, is_set, joined};

/// Sets the file of a line, an absent one of a line without a text.
fn set_line(rt: &(impl Abort + AllocGlobal), inputs: &mut Inputs, line: &str) {
    if let Some((name, text)) = line.split_once(": ") {
        let text = joined(rt.alloc(), "syntax='proto3';", text);
        check_that(rt, is_set(inputs, name, text), name);
    }
}

/// Sets the files of the set `files`.
fn inputs_of(rt: &(impl Abort + AllocGlobal), files: &str) -> Inputs {
    let mut inputs = Inputs::new(rt.alloc()).expect(rt, "memory");
    for line in files.lines() {
        set_line(rt, &mut inputs, line);
    }
    inputs
}

/// The key of the query `query` of the file `name`.
fn key_of(query: &str, name: Text) -> SchemaKey {
    match query {
        "Parse" => SchemaKey::Parse(name),
        "Items" => SchemaKey::Items(name),
        "Imports" => SchemaKey::Imports(name),
        "Linked" => SchemaKey::Linked(name),
        "Defs" => SchemaKey::Defs(name),
        "Scope" => SchemaKey::Scope(name),
        _ => SchemaKey::Resolved(name),
    }
}

/// The answer of the query `query` of the file `name`.
fn answer_of(
    alloc: Global,
    inputs: &Inputs,
    query: &str,
    name: &str,
) -> Result<Answer<SchemaKey, SchemaValue>, Memory> {
    let key = key_of(query, Text::new(alloc, name)?);
    from_scratch(alloc, &SchemaRules, inputs, &key)
}

/// Writes the answer of the query `query` of the file `name`.
fn add_query(page: &mut Page, inputs: &Inputs, query: &str, name: &str) {
    match answer_of(page.alloc, inputs, query, name) {
        Ok(answer) => add_answer(page, &answer),
        Err(_) => page.cut(),
    }
}

/// Writes the target of `name`, used in `within` of a file with the scope `scope`.
fn add_resolved(page: &mut Page, scope: &Scope, within: &str, name: &str) {
    let target = resolve(page.alloc, scope, within, name);
    add_target(page, &target);
}

/// Writes the target of `name`, used in `within` of a file whose scope is the answer `scope`.
fn add_search(page: &mut Page, scope: &Answer<SchemaKey, SchemaValue>, within: &str, name: &str) {
    match scope {
        Answer::Value(SchemaValue::Scope(scope)) => add_resolved(page, scope.get(), within, name),
        _ => page.add("no scope"),
    }
}

/// Writes the target of `name`, used in `within` of the file `file`.
fn add_name(page: &mut Page, inputs: &Inputs, file: &str, within: &str, name: &str) {
    match answer_of(page.alloc, inputs, "Scope", file) {
        Ok(scope) => add_search(page, &scope, within, name),
        Err(_) => page.cut(),
    }
}

/// Writes what `asked` asks for: `QUERY FILE`, or `FILE WITHIN NAME`, where `-` is the empty scope.
fn add_asked(page: &mut Page, inputs: &Inputs, asked: &str) {
    let (first, rest) = asked.split_once(" ").unwrap_or((asked, ""));
    match rest.split_once(" ") {
        None => add_query(page, inputs, first, rest),
        Some(("-", name)) => add_name(page, inputs, first, "", name),
        Some((within, name)) => add_name(page, inputs, first, within, name),
    }
}

/// Checks the row `ASKED => WANT`.
fn check_row(rt: &(impl Abort + AllocGlobal), inputs: &Inputs, row: &str) {
    let (asked, want) = split_row(rt, row, " => ");
    let mut page = Page::new(rt.alloc());
    add_asked(&mut page, inputs, asked);
    check_page(rt, &page, want, row);
}

/// Checks the `count` rows `rows` over `files`.
fn check_rows(rt: &(impl Abort + AllocGlobal), files: &str, count: usize, rows: &str) {
    check_row_count(rt, count, rows);
    let inputs = inputs_of(rt, files);
    for row in rows.lines() {
        check_row(rt, &inputs, row);
    }
}
