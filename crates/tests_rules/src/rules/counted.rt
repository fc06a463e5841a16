//! A diamond of files by rules that count their starts: each key's rule is started once.
use super::{inputs_of, key_of};
use crate::checks::{check_number, check_page, text_of};
use pq_inputs::Inputs;
use pq_rules::{SumsKey, from_scratch};
use std::cell::Cell;
use std::process::Abort;
use test_support::{Counted, Page, add_answer};

/// Writes the files `l` and `r` of a layer, each naming both files of the layer before it.
fn add_layer(files: &mut Page, layer: usize) {
    for side in ["l", "r"] {
        files.add(side);
        files.number(layer);
        files.add("=l");
        files.number(layer.wrapping_sub(1));
        files.add(" r");
        files.number(layer.wrapping_sub(1));
        files.add("\n");
    }
}

/// Writes forty layers of two files, `l` and `r` with the layer's number, and a file `top`.
///
/// Each file names both files of the layer before it, and `top` those of the last layer.
fn add_diamond(files: &mut Page) {
    files.add("l0=\nr0=\n");
    for layer in 1..40usize {
        add_layer(files, layer);
    }
    files.add("top=l39 r39\n");
}

/// Writes the answer of `key` from scratch, by rules that count.
fn add_counted(page: &mut Page, rules: &Counted<'_>, inputs: &Inputs, key: &SumsKey) {
    match from_scratch(page.alloc, rules, inputs, key) {
        Ok(answer) => add_answer(page, &answer),
        Err(_) => page.cut(),
    }
}

/// Checks the answer of `key`, and how many rules are started for it.
fn check_starts(
    rt: &(impl Abort + AllocGlobal),
    inputs: &Inputs,
    key: &SumsKey,
    want: &str,
    count: usize,
) {
    let starts = Cell::new(0);
    let mut page = Page::new(rt.alloc());
    add_counted(&mut page, &Counted { starts: &starts }, inputs, key);
    check_page(rt, &page, want, "top");
    check_number(rt, starts.get() as usize, count, "starts");
}

// Evaluated path by path, the diamond would start 2 ^ 40 rules. A sum stops at 1,000,000.
#[test]
fn starts_each_rule_once(rt: HostRuntime) {
    let mut files = Page::new(rt.alloc());
    add_diamond(&mut files);
    let inputs = inputs_of(&rt, text_of(&rt, &files));
    let key = key_of(&rt, "Sum top");
    check_starts(&rt, &inputs, &key, "1000000", 81);
}
