//! Texts without statements, and the values of constants, numbers and strings.
use super::shown::check_tree;
use crate::checks::{check_row_count, check_that, split_row, text_of};
use pq_syntax::{Node, Parsed, Statement, parse};
use std::process::Abort;
use test_support::Page;

#[test]
fn no_statements(rt: HostRuntime) {
    check_tree(&rt, "syntax = 'proto3';", "");
    check_tree(&rt, "syntax='proto3';; ;/**/;//", "");
    check_tree(&rt, "\u{feff}syntax=\"\\x70roto3\";\n", "");
}

/// Checks that the constant `written` is read as `want`, its kind and text.
///
/// `syntax='proto3';` has 16 bytes, and the constant starts at offset 25.
fn check_constant(rt: &(impl Abort + AllocGlobal), written: &str, want: &str) {
    let mut text = Page::new(rt.alloc());
    text.add("syntax='proto3';option a=");
    text.add(written);
    let end = text.len();
    text.add(";");
    let mut tree = Page::new(rt.alloc());
    tree.add("0 16-");
    tree.number(text.len());
    tree.add(" option a 23-24 = ");
    tree.add(want);
    tree.add(" 25-");
    tree.number(end);
    tree.add(" in 23-");
    tree.number(end);
    tree.add("\n");
    check_tree(rt, text_of(rt, &text), text_of(rt, &tree));
}

/// Checks the `count` rows `WRITTEN => KIND TEXT` by [`check_constant`].
fn check_constants(rt: &(impl Abort + AllocGlobal), count: usize, rows: &str) {
    check_row_count(rt, count, rows);
    for row in rows.lines() {
        let (written, want) = split_row(rt, row, " => ");
        check_constant(rt, written, want);
    }
}

#[test]
fn constants(rt: HostRuntime) {
    check_constants(
        &rt,
        23,
        "\
        a => identifier a\n\
        b.c . /**/ d => identifier b.c.d\n\
        true => identifier true\n\
        inf => identifier inf\n\
        nan.option => identifier nan.option\n\
        5 => integer 5\n\
        0x1F => integer 0x1F\n\
        017 => integer 017\n\
        -5 => integer -5\n\
        - 5 => integer -5\n\
        + /**/ 0 => integer +0\n\
        99999999999999999999 => integer 99999999999999999999\n\
        1.5 => float 1.5\n\
        .5e-3 => float .5e-3\n\
        1e9 => float 1e9\n\
        - 1. => float -1.\n\
        +.5 => float +.5\n\
        -inf => float -inf\n\
        + nan => float +nan\n\
        +inf => float +inf\n\
        's' => text 's'\n\
        's'  \"t\\n\"/**/'\u{e9}' => text 's' \"t\\n\" '\u{e9}'\n\
        {} => aggregate { }\n\
        ",
    );
    check_constant(
        &rt,
        "{ x:[1,(-2.)]//c\n{y:'z'\"w\"}<a>;=+option}",
        "aggregate { x : [ 1 , ( - 2. ) ] { y : 'z' \"w\" } < a > ; = + option }",
    );
}

/// Checks that a field whose number is `written` has the number `value`.
fn check_number(rt: &(impl Abort + AllocGlobal), written: &str, value: &str) {
    let mut text = Page::new(rt.alloc());
    text.add("syntax='proto3';message M{int32 x=");
    text.add(written);
    let end = text.len();
    text.add(";}");
    let mut tree = Page::new(rt.alloc());
    tree.add("0 16-");
    tree.number(end.wrapping_add(2));
    tree.add(" message M 24-25\n1 26-");
    tree.number(end.wrapping_add(1));
    tree.add(" field int32 26-31 x 32-33 = ");
    tree.add(value);
    tree.add(" 34-");
    tree.number(end);
    tree.add("\n");
    check_tree(rt, text_of(rt, &text), text_of(rt, &tree));
}

/// Checks the `count` rows `WRITTEN => VALUE` by [`check_number`].
fn check_numbers(rt: &(impl Abort + AllocGlobal), count: usize, rows: &str) {
    check_row_count(rt, count, rows);
    for row in rows.lines() {
        let (written, value) = split_row(rt, row, " => ");
        check_number(rt, written, value);
    }
}

#[test]
fn numbers(rt: HostRuntime) {
    check_numbers(
        &rt,
        11,
        "\
        0 => 0\n\
        00 => 0\n\
        017 => 15\n\
        0x1F => 31\n\
        0XfF => 255\n\
        18446744073709551615 => 18446744073709551615\n\
        18446744073709551616 => none\n\
        01777777777777777777777 => 18446744073709551615\n\
        02000000000000000000000 => none\n\
        0xFFFFFFFFFFFFFFFF => 18446744073709551615\n\
        0x10000000000000000 => none\n\
        ",
    );
}

/// Whether the first of `nodes` imports the file named by `bytes`.
fn is_import_of(nodes: &[Node], bytes: &[u8]) -> bool {
    match nodes.first() {
        Some(node) => match &node.statement {
            Statement::Import { file, .. } => file.value.as_slice() == bytes,
            _ => false,
        },
        None => false,
    }
}

/// Whether the tree of what was parsed begins with an import of the file named by `bytes`.
fn imports(parsed: &Parsed, bytes: &[u8]) -> bool {
    match parsed {
        Parsed::Tree(file) => is_import_of(file.as_slice(), bytes),
        Parsed::Fault { .. } => false,
    }
}

#[test]
fn strings_that_are_not_utf_8(rt: HostRuntime) {
    let text = "syntax='proto3';import '\\377\\0' \"\\xC3\" '\u{e9}\\u00e9';";
    let parsed = parse(rt.alloc(), text).expect(&rt, "memory");
    let found = imports(&parsed, b"\xff\x00\xc3\xc3\xa9\xc3\xa9");
    check_that(&rt, found, text);
}
