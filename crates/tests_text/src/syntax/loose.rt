//! What braces show of texts with errors, read back with every span.
use super::shown::add_nodes;
use crate::checks::{check_page, check_table};
use pq_syntax::{is_other_version, read_loosely};
use std::process::Abort;
use test_support::Page;

/// Checks that braces show the statements `want` of `text`, a line for each.
fn check_shown(rt: &(impl Abort + AllocGlobal), text: &str, want: &str) {
    let mut page = Page::new(rt.alloc());
    match read_loosely(rt.alloc(), text) {
        Ok(file) => add_nodes(&mut page, file.as_slice()),
        Err(_) => page.cut(),
    }
    check_page(rt, &page, want, text);
}

#[test]
fn statements(rt: HostRuntime) {
    check_shown(
        &rt,
        "syntax=\"proto2\";package a . b;import public 'c' \"d\";message M{optional group G=1{message In{}}enum E{A=0;}oneof o{group H=2{}}}",
        "0 16-29 package a.b 24-29\n\
         0 30-51 import public |cd| 44-51\n\
         0 52-61 message M 60-61\n\
         1 71-78 message G 77-78\n\
         2 81-91 message In 89-91\n\
         1 94-100 enum E 99-100\n\
         1 114-121 message H 120-121\n",
    );
    check_shown(
        &rt,
        "extend .a.b{repeated group Top=7[x=y]{enum F{}}}service S{rpc R(M)returns(M){message No{}}message No{}}message Last{}",
        "0 21-30 message Top 27-30\n\
         1 38-44 enum F 43-44\n\
         0 48-57 service S 56-57\n\
         0 103-115 message Last 111-115\n",
    );
}

#[test]
fn lines(rt: HostRuntime) {
    check_shown(
        &rt,
        "message A{x = 1\n message B{}\n}}message C{\nmessage D{option o={message{message No{}}};",
        "0 0-9 message A 8-9\n\
         1 17-26 message B 25-26\n\
         0 31-40 message C 39-40\n\
         0 42-51 message D 50-51\n",
    );
    check_shown(
        &rt,
        "message A{} '\nmessage B{} 08 message No{}\nimport\npackage\nmessage\nenum F{ # }\nmessage /* x */ G{/* message No{}",
        "0 0-9 message A 8-9\n\
         0 14-23 message B 22-23\n\
         0 65-71 enum F 70-71\n\
         0 77-94 message G 93-94\n",
    );
    // The first token of a line is no name if it is a keyword of a statement.
    check_shown(
        &rt,
        "message A{message\n message B{}}extend a.\n extend M.N{repeated group G=1{}}",
        "0 0-9 message A 8-9\n\
         1 19-28 message B 27-28\n\
         0 62-69 message G 68-69\n",
    );
}

/// Writes whether `text` is of another version.
fn add_version(page: &mut Page, text: &str) {
    match is_other_version(page.alloc, text) {
        Ok(true) => page.add("other"),
        Ok(false) => page.add("no"),
        Err(_) => page.cut(),
    }
}

#[test]
fn versions(rt: HostRuntime) {
    check_table(
        &rt,
        14,
        "syntax = 'proto2'; => other\n\
         syntax = \"pro\\x74o2\" => other\n\
         /* x */ edition = '' => other\n\
         message => other\n\
         extend => other\n\
         option => other\n\
         syntax = 'proto3'; => no\n\
         syntax = 'proto4'; => no\n\
         syntax 'proto2'; => no\n\
         syntax = proto2; => no\n\
         edition 2023; => no\n\
         edition = 2023; => no\n\
         sintax = 'proto2'; => no\n\
         ; message M {} => no",
        add_version,
    );
}
