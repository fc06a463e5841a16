//! pq_lex: texts after ranged changes, as rows that one interpreter reads.
//!
//! A row is `TEXT | CHANGE | .. => WANT // WHY`; `changes_of` of `test_support` says how changes and
//! texts are written. `none` is no text before the changes, and `bad` is no text after them.
//! Each row is checked a second time in a list of many changes, which `apply` makes in blocks.
use crate::checks::{check_page, check_row_count, split_row};
use pq_lex::{TextChange, apply};
use std::process::Abort;
use test_support::{Page, changes_of, text_of_word};

/// `text` with `with` in place of each `mark`.
fn with_each(rt: &(impl Abort + AllocGlobal), text: &str, mark: &str, with: &str) -> String {
    text.replace(rt.alloc(), mark, with).expect(rt, "memory")
}

/// Writes what `apply` returned, in the words of a row.
fn add_result(rt: &(impl Abort + AllocGlobal), page: &mut Page, found: Option<&str>) {
    match found {
        None => page.add("bad"),
        Some("") => page.add("''"),
        Some(text) => {
            let text = with_each(rt, text, "\n", "\\n");
            page.add(with_each(rt, &text, "\r", "\\r").as_str());
        }
    }
}

/// Checks the text after `changes` of the text that `word` writes.
fn check_applied(
    rt: &(impl Abort + AllocGlobal),
    word: &str,
    changes: &[TextChange],
    want: &str,
    row: &str,
) {
    let text = text_of_word(rt.alloc(), word).expect(rt, "memory");
    let before = if word == "none" {
        None
    } else {
        Some(text.as_str())
    };
    let found = apply(rt.alloc(), before, changes).expect(rt, "memory");
    let mut page = Page::new(rt.alloc());
    add_result(rt, &mut page, found.as_deref());
    check_page(rt, &page, want, row);
}

/// Adds changes that leave a text as it is, so that the list is a long one.
fn add_empty_changes(rt: &(impl Abort + AllocGlobal), changes: &mut Vec<TextChange>) {
    let empty = changes_of(rt.alloc(), "17 of 0:0-0:0 ''").expect(rt, "memory");
    for change in empty {
        changes.push(change).expect(rt, "memory");
    }
}

/// Checks one row, alone and before changes that leave its text as it is.
fn check_row(rt: &(impl Abort + AllocGlobal), row: &str) {
    let (asked, rest) = split_row(rt, row, " => ");
    let (want, _) = split_row(rt, rest, " // ");
    let (text, mut changes) = match asked.split_once(" | ") {
        Some((text, parts)) => (text, changes_of(rt.alloc(), parts).expect(rt, "memory")),
        None => (asked, Vec::new(rt.alloc())),
    };
    check_applied(rt, text, &changes, want, row);
    add_empty_changes(rt, &mut changes);
    check_applied(rt, text, &changes, want, row);
}

/// Checks the `count` rows.
fn check_rows(rt: &(impl Abort + AllocGlobal), count: usize, rows: &str) {
    check_row_count(rt, count, rows);
    for row in rows.lines() {
        check_row(rt, row);
    }
}

// Columns count UTF-16 code units, and each has an offset.
#[test]
fn columns(rt: HostRuntime) {
    let rows = "\
        a\u{1f600}b\\nc | 0:1-0:3 x | 1:0-1:99 yz | 0:3-0:3 ! => axb!\\nyz // three changes\n\
        a\u{1f600}b\\nc | 0:2-0:3 '' => ab\\nc // both columns inside a character\n\
        a\u{1f600}b | 0:2-0:2 x => ax\u{1f600}b // before the character\n\
        \u{1f600}\u{1f600} | 0:1-0:3 x => x\u{1f600} // both ends inside characters\n\
        a\u{1f600}b | 0:0-0:2 x => x\u{1f600}b // an end inside a character leaves it\n\
        ab\\nc | 0:99-0:2 x => abx\\nc // past the end is the end: not backwards\n\
        ab\\ncd | 0:3-1:0 - => ab-cd // past the end is not the next line\n\
        ab\\n | 1:2147483647-1:2147483647 x => ab\\nx // the largest coordinates\n\
        ab\\r\\ncd | 0:3-0:9 x => abx\\r\\ncd // the end of a line is before CR LF\n\
        \u{feff}ab | 0:1-0:2 x => \u{feff}xb // U+FEFF is one unit\n\
        \u{20ac}\u{e9}\u{20ac} | 0:1-0:2 '' => \u{20ac}\u{20ac} // one unit of three or two bytes\n\
        a\u{1f600}\\n\u{1f600}b | 0:2-1:1 - => a-\u{1f600}b // the same on two lines\n\
        ";
    check_rows(&rt, 12, rows);
}

// A line that the text does not have, and an end before the start.
#[test]
fn bad_ranges(rt: HostRuntime) {
    let rows = "\
        a\u{1f600}b\\nc | 2:0-2:0 x => bad // no such line\n\
        a | 0:0-1:0 x => bad // the end is on no line\n\
        axb | 0:2-0:1 x => bad // the end is before the start\n\
        a\\nb | 1:0-0:0 x => bad // the end is on an earlier line\n\
        ab\\n | 2147483647:0-2147483647:0 x => bad // no such line\n\
        '' | 1:0-1:0 x => bad // an empty text has one line\n\
        ";
    check_rows(&rt, 6, rows);
}

// A line ends at LF, CR LF or CR.
#[test]
fn terminators(rt: HostRuntime) {
    let rows = "\
        ab\\r\\ncd | 0:2-1:0 '' => abcd // a terminator goes\n\
        a\\rb\\rc | 2:0-2:1 x => a\\rb\\rx // a lone CR ends a line\n\
        a\\r | 1:0-1:0 \\n | 1:0-1:0 b => a\\r\\nb // a new LF after CR\n\
        a\\nb | 0:1-0:1 \\r | 1:0-1:0 x => a\\r\\nxb // a new CR before LF\n\
        a\\rx\\nb | 1:0-1:1 '' | 1:0-1:1 y => a\\r\\ny // two terminators become one\n\
        a\\r\\nb | 0:1-1:0 \\r-\\n | 1:0-1:1 + | 2:1-2:1 ! => a\\r+\\nb! // one terminator becomes two\n\
        a\u{b}\u{c}\u{85}\u{2028}b | 0:5-0:6 x | 0:6-0:6 ! => a\u{b}\u{c}\u{85}\u{2028}x! // these end no line\n\
        '' | 0:0-0:0 x => x // an empty text has a line\n\
        '' | 0:0-0:2147483647 \\n | 1:0-1:0 x => \\nx // the largest column\n\
        a\\n | 1:0-1:0 b => a\\nb // a line after the last LF\n\
        a\\r\\nb\\rc\\nd | 0:0-3:1 '' => '' // all of it\n\
        ";
    check_rows(&rt, 11, rows);
}

// Each change is made on the text that the change before it left.
#[test]
fn lists(rt: HostRuntime) {
    let rows = "\
        ab | 0:0-0:0 xx | 0:2-0:3 y => xxyb // on the text of the first change\n\
        ab | 0:1-0:1 \\n | 1:1-1:1 ! => a\\nb! // a line that the first change makes\n\
        a\\nb | 0:1-1:0 '' | 1:0-1:0 x => bad // a line that the first change takes\n\
        none | 0:0-0:0 x => bad // a range without a text\n\
        none | 0:0-0:0 x | all y => bad // a whole text after it\n\
        none | all ab\\n | 1:0-1:0 c => ab\\nc // a whole text before it\n\
        abc | 0:0-0:3 '' | all \u{1f600}x | 0:2-0:3 y => \u{1f600}y // a whole text between\n\
        abc | 9:0-9:0 '' | all x => bad // a bad range before a whole text\n\
        abc | 0:0-0:1 '' | 0:2-0:1 '' => bad // a bad range after a good one\n\
        none => bad // neither a change nor a text\n\
        abc => abc // no change\n\
        ";
    check_rows(&rt, 11, rows);
}

// Lists of 16 changes, and of more.
#[test]
fn long_lists(rt: HostRuntime) {
    let rows = "\
        ab | 16 of 0:1-0:1 x => axxxxxxxxxxxxxxxxb // sixteen changes\n\
        ab | 17 of 0:1-0:1 x => axxxxxxxxxxxxxxxxxb // seventeen changes\n\
        ab | 17 of 0:1-0:1 x | 0:0-0:18 '' => b // one more, of all of these\n\
        ab | 17 of 0:1-0:1 x | 0:20-1:0 '' => bad // a bad range at the end\n\
        ab | 9:0-9:0 x | 17 of 0:1-0:1 x => bad // a bad range at the start\n\
        ab | 17 of 0:1-0:1 x | 0:3-0:2 '' | 17 of 0:1-0:1 x => bad // a bad range between\n\
        none | 17 of 0:0-0:0 x => bad // ranges without a text\n\
        none | all ab | 17 of 0:1-0:1 x => axxxxxxxxxxxxxxxxxb // a whole text before them\n\
        ab | 17 of 0:1-0:1 x | all c => c // a whole text after them\n\
        '' | 18 of 0:0-0:0 \\r\\n | 18:0-18:0 x | 1:0-18:0 '' => \\r\\nx // lines that the list makes\n\
        a | 17 of 0:1-0:1 \\r | 17:0-17:0 b | 1:0-17:0 '' | 1:0-1:0 \\n | 1:0-1:1 + => a\\r\\n+ // a CR, and LF after it\n\
        \u{1f600} | 17 of 0:2-0:2 \u{e9} | 0:1-0:1 - | 0:3-0:20 '' => -\u{1f600} // characters of two units\n\
        1500*ab | 20 of 0:1500-0:1500 \\n | 10:0-20:0 '' | 0:9-10:1491 '' => ababababababababab // a long text\n\
        ";
    check_rows(&rt, 13, rows);
}
