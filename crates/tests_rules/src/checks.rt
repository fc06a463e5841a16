//! What the tests assert. This file is the same in each crate of tests.
//!
//! A table is one text with a line for each row. The proof of a test takes far longer for an array
//! of rows, and it grows faster than the test: loops, formatting and assertions have functions of
//! their own here.
use std::process::Abort;
use test_support::Page;

/// Checks that the table `rows` has `count` rows.
pub(crate) fn check_row_count(rt: &impl Abort, count: usize, rows: &str) {
    assert_eq!(rt; rows.lines().count(), count, "{rows}");
}

/// The parts of `row` before and after the first `separator`, which it must contain.
pub(crate) fn split_row<'a>(rt: &impl Abort, row: &'a str, separator: &str) -> (&'a str, &'a str) {
    row.split_once(separator).expect(rt, row)
}

/// Checks that `found` is `want`; `row` names the row.
pub(crate) fn check_text(rt: &impl Abort, found: &str, want: &str, row: &str) {
    assert_eq!(rt; found, want, "{row}");
}

/// What is written on a page, which may not be cut.
pub(crate) fn text_of<'a>(rt: &impl Abort, page: &'a Page) -> &'a str {
    assert!(rt; !page.is_cut(), "out of memory");
    page.text()
}

/// Checks that a page has the text `want`; `row` names the row.
pub(crate) fn check_page(rt: &impl Abort, found: &Page, want: &str, row: &str) {
    check_text(rt, text_of(rt, found), want, row);
}

/// Checks that two pages have one text; `row` names the row.
pub(crate) fn check_pages(rt: &impl Abort, found: &Page, want: &Page, row: &str) {
    check_text(rt, text_of(rt, found), text_of(rt, want), row);
}

/// Checks that `holds` is true; `row` names the row.
pub(crate) fn check_that(rt: &impl Abort, holds: bool, row: &str) {
    assert!(rt; holds, "{row}");
}

/// Checks that the number `found` is `want`; `row` names the row.
pub(crate) fn check_number(rt: &impl Abort, found: usize, want: usize, row: &str) {
    assert_eq!(rt; found, want, "{row}");
}

/// Checks the `count` rows `ASKED => WANT`: `show` writes what it finds for `ASKED`.
pub(crate) fn check_table(
    rt: &(impl Abort + AllocGlobal),
    count: usize,
    rows: &str,
    show: fn(&mut Page, &str),
)
    requires { IsAlwaysCallable show }
{
    check_row_count(rt, count, rows);
    for row in rows.lines() {
        let (asked, want) = split_row(rt, row, " => ");
        let mut page = Page::new(rt.alloc());
        show(&mut page, asked);
        check_page(rt, &page, want, row);
    }
}
