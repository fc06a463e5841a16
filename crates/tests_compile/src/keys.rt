//! The answer of each key, by its kind, and the order of keys.
//!
//! A row is `QUERY FILE => ANSWER`.
use crate::checks::{check_page, check_row_count, check_that, split_row};
use crate::sets::inputs_of;
use pq_inputs::Inputs;
use pq_links::{FileItems, ParsedFile};
use pq_proto::{Place, ProtoKey, ProtoValue, compile};
use pq_rules::{Answer, Text};
use pq_syntax::Parsed;
use std::process::Abort;
use test_support::Page;

/// The key of the query `query` of the file `name`, at `place` if it is of a definition.
fn key_of(query: &str, name: Text, place: Place) -> ProtoKey {
    match query {
        "Input" => ProtoKey::Input(name),
        "Parse" => ProtoKey::Parse(name),
        "Items" => ProtoKey::Items(name),
        "Imports" => ProtoKey::Imports(name),
        "Linked" => ProtoKey::Linked(name),
        "Defs" => ProtoKey::Defs(name),
        "Scope" => ProtoKey::Scope(name),
        "Resolved" => ProtoKey::Resolved(name),
        "Checks" => ProtoKey::Checks(name),
        "Diagnostics" => ProtoKey::Diagnostics(name),
        "Descriptor" => ProtoKey::Descriptor(name),
        "Symbols" => ProtoKey::Symbols(name),
        _ => ProtoKey::Definition(name, place),
    }
}

/// The place that `word` writes as `LINE:CHARACTER`.
fn place_of(word: &str) -> Place {
    let (line, character) = word.split_once(":").unwrap_or(("0", "0"));
    Place {
        line: line.parse().unwrap_or(0),
        character: character.parse().unwrap_or(0),
    }
}

/// The key that the line `QUERY FILE` or `QUERY FILE LINE:CHARACTER` writes.
pub(crate) fn key_in(rt: &(impl Abort + AllocGlobal), line: &str) -> ProtoKey {
    let (query, rest) = split_row(rt, line, " ");
    let (file, place) = rest.split_once(" ").unwrap_or((rest, "0:0"));
    let name = Text::new(rt.alloc(), file).expect(rt, "memory");
    key_of(query, name, place_of(place))
}

/// The query of a key, and its file.
fn query_and_file(key: &ProtoKey) -> (&'static str, &str) {
    match key {
        ProtoKey::Input(name) => ("Input", name.as_str()),
        ProtoKey::Parse(name) => ("Parse", name.as_str()),
        ProtoKey::Items(name) => ("Items", name.as_str()),
        ProtoKey::Imports(name) => ("Imports", name.as_str()),
        ProtoKey::Linked(name) => ("Linked", name.as_str()),
        ProtoKey::Defs(name) => ("Defs", name.as_str()),
        ProtoKey::Scope(name) => ("Scope", name.as_str()),
        ProtoKey::Resolved(name) => ("Resolved", name.as_str()),
        ProtoKey::Checks(name) => ("Checks", name.as_str()),
        ProtoKey::Diagnostics(name) => ("Diagnostics", name.as_str()),
        ProtoKey::Descriptor(name) => ("Descriptor", name.as_str()),
        ProtoKey::Symbols(name) => ("Symbols", name.as_str()),
        ProtoKey::Definition(name, _place) => ("Definition", name.as_str()),
    }
}

/// Writes a key as `QUERY FILE`.
pub(crate) fn add_key(page: &mut Page, key: &ProtoKey) {
    let (query, file) = query_and_file(key);
    page.add(query);
    page.add(" ");
    page.add(file);
}

/// Writes `count` and what is counted.
fn add_count(page: &mut Page, count: usize, word: &str) {
    page.number(count);
    page.add(word);
}

/// Writes what a text is parsed to.
fn add_parsed(page: &mut Page, parsed: &Parsed) {
    match parsed {
        Parsed::Tree(nodes) => add_count(page, nodes.as_slice().len(), " statements"),
        Parsed::Fault { .. } => page.add("an error"),
    }
}

/// Writes what a file is read as.
fn add_file(page: &mut Page, file: &ParsedFile) {
    match file {
        ParsedFile::Absent => page.add("absent"),
        ParsedFile::Present { parsed, .. } => add_parsed(page, parsed),
    }
}

/// Writes what a file is read as, without spans.
fn add_items(page: &mut Page, items: &FileItems) {
    match items {
        FileItems::Absent => page.add("absent"),
        FileItems::Fault(_) => page.add("an error"),
        FileItems::Other(_) => page.add("another version"),
        FileItems::Tree(file) => add_count(page, file.as_slice().len(), " statements"),
    }
}

/// Writes a value: how long its list is, or its text.
fn add_value(page: &mut Page, value: &ProtoValue) {
    match value {
        ProtoValue::Source(None) | ProtoValue::Imports(None) => add_count(page, 0, " absent"),
        ProtoValue::Source(Some(text)) => add_count(page, text.as_str().len(), " bytes"),
        ProtoValue::Parse(file) => add_file(page, file.get()),
        ProtoValue::Items(items) => add_items(page, items.get()),
        ProtoValue::Imports(Some(imports)) => {
            add_count(page, imports.get().as_slice().len(), " imports");
        }
        ProtoValue::Linked(links) => {
            add_count(page, links.get().visible.as_slice().len(), " visible");
        }
        ProtoValue::Defs(defs) => add_count(page, defs.get().definitions().len(), " definitions"),
        ProtoValue::Scope(scope) => add_count(page, scope.get().reach().len(), " reached"),
        ProtoValue::Resolved(all) => add_count(page, all.get().as_slice().len(), " references"),
        ProtoValue::Checks(faults) => add_count(page, faults.get().as_slice().len(), " errors"),
        ProtoValue::Diagnostics(diagnosed) => {
            let diagnostics = diagnosed.get().diagnostics.as_slice();
            add_count(page, diagnostics.len(), " diagnostics");
        }
        ProtoValue::Descriptor(text) => page.add(text.as_str()),
        ProtoValue::Symbols(text) => page.add(text.as_str()),
        ProtoValue::Definition(None) => add_count(page, 0, " locations"),
        ProtoValue::Definition(Some(_)) => add_count(page, 1, " locations"),
    }
}

/// Writes an answer: a value, or how long a cycle is.
fn add_answer(page: &mut Page, answer: &Answer<ProtoKey, ProtoValue>) {
    match answer {
        Answer::Value(value) => add_value(page, value),
        Answer::Cycle(ring) => {
            page.add("a ring of ");
            page.number(ring.keys().len());
        }
    }
}

/// Writes the answer of `key`.
fn add_found(page: &mut Page, inputs: &Inputs, key: &ProtoKey) {
    match compile(page.alloc, inputs, key) {
        Ok(answer) => add_answer(page, &answer),
        Err(_) => page.cut(),
    }
}

/// Checks the row `QUERY FILE => ANSWER`.
fn check_row(rt: &(impl Abort + AllocGlobal), inputs: &Inputs, row: &str) {
    let (asked, want) = split_row(rt, row, " => ");
    let key = key_in(rt, asked);
    let mut page = Page::new(rt.alloc());
    add_found(&mut page, inputs, &key);
    check_page(rt, &page, want, row);
}

const FILES: &str = r#"a: import "b"; import "b"; message M { B x = 1; M x = 1; C y = 2; }
b: import public "c"; message B {}
c: import "d"; message C {}
d: enum E { A = 0; }
r: import "s"; message M { B x = 1; }
s: import "r";
bad= hi"#;

const ANSWERS: &str = r#"Input a => 83 bytes
Input gone => 0 absent
Parse a => 6 statements
Parse bad => an error
Parse gone => absent
Items a => 6 statements
Items bad => an error
Items gone => absent
Imports a => 1 imports
Imports bad => 0 imports
Imports gone => 0 absent
Linked a => 3 visible
Linked r => a ring of 2
Linked gone => 0 visible
Defs a => 4 definitions
Defs d => 2 definitions
Defs bad => 0 definitions
Scope a => 4 reached
Scope r => 0 reached
Resolved a => 3 references
Resolved r => 1 references
Resolved gone => 0 references
Checks a => 3 errors
Checks r => 1 errors
Checks gone => 0 errors
Diagnostics a => 3 diagnostics
Diagnostics d => 0 diagnostics
Diagnostics bad => 1 diagnostics
Descriptor a => null
Descriptor gone => null
Symbols bad => []
Definition a => 0 locations"#;

// The list of a file's imports has a name once. P103, P110 and P122 are the errors of `a`.
#[test]
fn each_key(rt: HostRuntime) {
    check_row_count(&rt, 32, ANSWERS);
    let inputs = inputs_of(&rt, FILES);
    for row in ANSWERS.lines() {
        check_row(&rt, &inputs, row);
    }
}

/// Checks that the key of the line `line` is less than that of `later`.
fn check_less(rt: &(impl Abort + AllocGlobal), line: &str, later: &str) {
    let key = key_in(rt, line);
    let greater = key_in(rt, later);
    check_that(rt, key < greater, later);
}

const IN_ORDER: &str = "\
    Input b < Input é\nInput é < Parse a\nParse b < Items a\nItems b < Imports a\n\
    Imports b < Linked a\nLinked b < Defs a\nDefs b < Scope a\nScope b < Resolved a\nResolved b < Checks a\n\
    Checks b < Diagnostics a\nDiagnostics b < Descriptor a\nDescriptor b < Symbols a\n\
    Symbols a < Symbols a\u{1}\nSymbols a\u{1} < Symbols b\nSymbols b < Definition a";

// Queries come first, then the bytes of names.
#[test]
fn orders_of_keys(rt: HostRuntime) {
    check_row_count(&rt, 15, IN_ORDER);
    for row in IN_ORDER.lines() {
        let (line, later) = split_row(&rt, row, " < ");
        check_less(&rt, line, later);
    }
}

#[test]
fn orders_of_places(rt: HostRuntime) {
    let place = Place {
        line: 0,
        character: 7,
    };
    let later = Place {
        line: 1,
        character: 0,
    };
    check_that(&rt, place < later, "places");
}
