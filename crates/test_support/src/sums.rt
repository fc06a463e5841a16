//! Keys and answers of sums as text.
use crate::page::Page;
use pq_inputs::Inputs;
use pq_rules::{Answer, Ring, Sums, SumsKey, SumsValue, Text, from_scratch};

/// The key of the query `Text`, `Sum` or `Total` and the file `name`.
pub fn sums_key(query: &str, name: Text) -> SumsKey {
    match query {
        "Text" => SumsKey::Input(name),
        "Sum" => SumsKey::Sum(name),
        _ => SumsKey::Total(name),
    }
}

/// The query of a key, with a blank after it, and its file.
fn query_and_file(key: &SumsKey) -> (&'static str, &str) {
    match key {
        SumsKey::Input(name) => ("Text ", name.as_str()),
        SumsKey::Sum(name) => ("Sum ", name.as_str()),
        SumsKey::Total(name) => ("Total ", name.as_str()),
    }
}

/// Writes a key as `QUERY NAME`.
pub fn add_key(page: &mut Page, key: &SumsKey) {
    let (query, file) = query_and_file(key);
    page.add(query);
    page.add(file);
}

/// Writes the keys of a cycle, each with a semicolon after it.
fn add_ring(page: &mut Page, ring: &Ring<SumsKey>) {
    for key in ring.keys() {
        add_key(page, key);
        page.add(";");
    }
}

/// Writes a value: a number, a text between quotes, or `absent`.
pub fn add_value(page: &mut Page, value: &SumsValue) {
    match value {
        SumsValue::Number(number) => page.wide(u64::from(*number)),
        SumsValue::Source(Some(text)) => {
            page.add("'");
            page.add(text.as_str());
            page.add("'");
        }
        SumsValue::Source(None) => page.add("absent"),
    }
}

/// Writes an answer: a value, or the keys of a cycle.
pub fn add_answer(page: &mut Page, answer: &Answer<SumsKey, SumsValue>) {
    match answer {
        Answer::Value(value) => add_value(page, value),
        Answer::Cycle(ring) => add_ring(page, ring),
    }
}

/// Writes the answer of `key` from scratch.
pub fn add_sum(page: &mut Page, inputs: &Inputs, key: &SumsKey) {
    match from_scratch(page.alloc, &Sums, inputs, key) {
        Ok(answer) => add_answer(page, &answer),
        Err(_) => page.cut(),
    }
}
