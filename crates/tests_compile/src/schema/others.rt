//! The first other file of a scope that defines a full name.
use super::{answer_of, inputs_of};
use crate::checks::{check_page, check_row_count, split_row};
use pq_inputs::Inputs;
use pq_rules::Answer;
use pq_schema::{SchemaKey, SchemaValue, Scope};
use std::process::Abort;
use test_support::Page;

/// Writes the first file of `scope` but `file` that defines `full_name`, or `none`.
fn add_first(page: &mut Page, scope: &Scope, file: &str, full_name: &str) {
    match scope.first_other(page.alloc, file, full_name) {
        Ok(Some(other)) => page.add(other.as_str()),
        Ok(None) => page.add("none"),
        Err(_) => page.cut(),
    }
}

/// Writes the first file of the answer `scope` but `file` that defines `full_name`, or `none`.
fn add_in(page: &mut Page, scope: &Answer<SchemaKey, SchemaValue>, file: &str, full_name: &str) {
    match scope {
        Answer::Value(SchemaValue::Scope(scope)) => add_first(page, scope.get(), file, full_name),
        _ => page.add("no scope"),
    }
}

/// Writes the first other file that `file` sees and that defines `full_name`, or `none`.
fn add_other(page: &mut Page, inputs: &Inputs, file: &str, full_name: &str) {
    match answer_of(page.alloc, inputs, "Scope", file) {
        Ok(scope) => add_in(page, &scope, file, full_name),
        Err(_) => page.cut(),
    }
}

/// Checks the row `FILE FULL_NAME => OTHER`.
fn check_other(rt: &(impl Abort + AllocGlobal), inputs: &Inputs, row: &str) {
    let (asked, want) = split_row(rt, row, " => ");
    let (file, full_name) = split_row(rt, asked, " ");
    let mut page = Page::new(rt.alloc());
    add_other(&mut page, inputs, file, full_name);
    check_page(rt, &page, want, row);
}

// A file that is reached but not seen does not count, and neither does the file itself.
#[test]
fn first_other_of_a_scope(rt: HostRuntime) {
    let inputs = inputs_of(
        &rt,
        "\
        a: package p;import 'b';import 'c';import 'd';import 'e';import 'h';message M{}message A{}\n\
        b: package p;message M{}enum E{V=0;}\n\
        c: package p;message M{}message N{message X{}}\n\
        d: package q;import 'f';message M{}\n\
        e: package p;import public 'g';\n\
        f: package p;message Q{}\n\
        g: package p;message G{}\n\
        h: message p{message R{}}message M{}\n\
        ring: import 'ring';message M{}\n\
        ",
    );
    let rows = "\
        a p.M => b\n\
        a p.V => b\n\
        a p.N => c\n\
        a p.N.X => c\n\
        a q.M => d\n\
        a p.G => g\n\
        a p.R => h\n\
        a p => h\n\
        a M => h\n\
        a p.A => none\n\
        a p.Q => none\n\
        a p.M.X => none\n\
        a q => none\n\
        d p.Q => f\n\
        b p.M => none\n\
        ring M => none\n\
        gone p.M => none\n\
        ";
    check_row_count(&rt, 17, rows);
    for row in rows.lines() {
        check_other(&rt, &inputs, row);
    }
}
