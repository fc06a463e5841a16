//! Small sets of files.
//!
//! A set of files has a line for each file: `NAME: TEXT`, which follows a line of the syntax
//! statement, or `NAME= TEXT`, which is whole. `|` means a line feed.
use crate::checks::{check_that, split_row};
use pq_inputs::Inputs;
use pq_rules::Memory;
use std::alloc::Global;
use std::process::Abort;
use test_support::is_set;

/// The first line of each file whose line in a set is not the whole text.
pub(crate) const SYNTAX_LINE: &str = "syntax = \"proto3\";\n";

/// `before` and then `text`, in which `|` means a line feed.
pub(crate) fn whole_text(alloc: Global, before: &str, text: &str) -> Result<String, Memory> {
    let mut whole = String::from_str(alloc, before)?;
    whole.push_str(text.replace(alloc, "|", "\n")?.as_str())?;
    Ok(whole)
}

/// Sets the file `name` to `before` and then `text`, in which `|` means a line feed.
fn set_file(
    rt: &(impl Abort + AllocGlobal),
    inputs: &mut Inputs,
    name: &str,
    before: &str,
    text: &str,
) {
    let whole = whole_text(rt.alloc(), before, text);
    check_that(rt, is_set(inputs, name, whole), name);
}

/// Sets the file of a line.
fn set_line(rt: &(impl Abort + AllocGlobal), inputs: &mut Inputs, line: &str) {
    if let Some((name, text)) = line.split_once(": ") {
        return set_file(rt, inputs, name, SYNTAX_LINE, text);
    }
    let (name, text) = split_row(rt, line, "= ");
    set_file(rt, inputs, name, "", text);
}

/// The files of the set `files`.
pub(crate) fn inputs_of(rt: &(impl Abort + AllocGlobal), files: &str) -> Inputs {
    let mut inputs = Inputs::new(rt.alloc()).expect(rt, "memory");
    for line in files.lines() {
        set_line(rt, &mut inputs, line);
    }
    inputs
}
