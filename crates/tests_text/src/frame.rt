//! pq_frame: frames that are whole, cut, faulty and large, as rows that one interpreter reads.
//!
//! A row is `PIECE => WANT`, where `|` is CR LF. A reader takes the piece, and what it gives is
//! written: the bodies, each with a semicolon after it, or the error; and ` at rest` where the
//! reader is at rest then.
use crate::checks::{check_page, check_row_count, split_row, text_of};
use pq_frame::{FrameFault, FrameReader, frame};
use std::process::Abort;
use test_support::Page;

const EMPTY_OBJECT: &[u8] = b"Content-Length: 2\r\n\r\n{}";

/// The name of a frame error.
fn fault_name(fault: FrameFault) -> &'static str {
    match fault {
        FrameFault::HeaderTooLong => "HeaderTooLong",
        FrameFault::NoLength => "NoLength",
        FrameFault::BadLength => "BadLength",
        FrameFault::TooLong => "TooLong",
        FrameFault::Memory => "Memory",
    }
}

/// Writes bodies, each with a semicolon after it.
fn add_bodies(page: &mut Page, bodies: &[Vec<u8>]) {
    for body in bodies {
        page.bytes(body);
        page.add(";");
    }
}

/// Writes the bodies that `piece` completes, or the error's name.
fn add_feed(page: &mut Page, reader: &mut FrameReader, piece: &[u8]) {
    match reader.feed(piece) {
        Ok(bodies) => add_bodies(page, &bodies),
        Err(fault) => page.add(fault_name(fault)),
    }
}

/// Writes ` at rest` where the reader is at rest.
fn add_rest(page: &mut Page, reader: &FrameReader) {
    if reader.at_rest() {
        page.add(" at rest");
    }
}

/// Checks what `piece` gives, and whether the reader is at rest afterwards.
fn check_feed(rt: &(impl Abort + AllocGlobal), reader: &mut FrameReader, piece: &[u8], want: &str) {
    let mut page = Page::new(rt.alloc());
    add_feed(&mut page, reader, piece);
    add_rest(&mut page, reader);
    check_page(rt, &page, want, want);
}

/// Writes `text` with CR LF for each `|`.
fn add_lines(page: &mut Page, text: &str) {
    match text.replace(page.alloc, "|", "\r\n") {
        Ok(lines) => page.add(lines.as_str()),
        Err(_) => page.cut(),
    }
}

/// Carries out one row and checks it.
fn check_row(rt: &(impl Abort + AllocGlobal), reader: &mut FrameReader, row: &str) {
    let (piece, want) = split_row(rt, row, " => ");
    let mut lines = Page::new(rt.alloc());
    add_lines(&mut lines, piece);
    check_feed(rt, reader, text_of(rt, &lines).as_bytes(), want);
}

/// Carries out and checks the `count` rows by one reader.
fn check_rows(rt: &(impl Abort + AllocGlobal), count: usize, rows: &str) {
    check_row_count(rt, count, rows);
    let mut reader = FrameReader::new(rt.alloc());
    for row in rows.lines() {
        check_row(rt, &mut reader, row);
    }
}

/// Writes the length of the frame of `body`, and the frame.
fn add_frame(page: &mut Page, body: &[u8]) {
    match frame(page.alloc, body) {
        Ok(bytes) => {
            page.number(bytes.len());
            page.add(" ");
            page.bytes(&bytes);
        }
        Err(_) => page.cut(),
    }
}

#[test]
fn a_body_is_framed(rt: HostRuntime) {
    let mut page = Page::new(rt.alloc());
    add_frame(&mut page, b"{}");
    check_page(&rt, &page, "23 Content-Length: 2\r\n\r\n{}", "a frame");
}

/// Checks that the frame of `{}`, cut into `first` and `second`, gives that body alone.
fn check_cut(rt: &(impl Abort + AllocGlobal), first: &[u8], second: &[u8]) {
    let mut reader = FrameReader::new(rt.alloc());
    let mut page = Page::new(rt.alloc());
    add_rest(&mut page, &reader);
    page.add(" ");
    add_feed(&mut page, &mut reader, first);
    add_feed(&mut page, &mut reader, second);
    add_rest(&mut page, &reader);
    check_page(rt, &page, " at rest {}; at rest", "a cut frame");
}

#[test]
fn every_cut_gives_the_same_message(rt: HostRuntime) {
    for cut in 0..EMPTY_OBJECT.len() + 1 {
        let (first, second) = EMPTY_OBJECT.split_at(cut);
        check_cut(&rt, first, second);
    }
}

#[test]
fn other_headers_are_passed_over(rt: HostRuntime) {
    check_rows(&rt, 1, "X: y|content-length :2||{} => {}; at rest\n");
}

/// Checks that `stream` has the error `want`, at once and at every later call.
fn check_fault(rt: &(impl Abort + AllocGlobal), stream: &[u8], want: &str) {
    let mut reader = FrameReader::new(rt.alloc());
    check_feed(rt, &mut reader, stream, want);
    check_feed(rt, &mut reader, b"", want);
    check_feed(rt, &mut reader, EMPTY_OBJECT, want);
}

/// Checks by [`check_fault`] the row `STREAM => WANT`.
fn check_fault_row(rt: &(impl Abort + AllocGlobal), row: &str) {
    let (stream, want) = split_row(rt, row, " => ");
    let mut lines = Page::new(rt.alloc());
    add_lines(&mut lines, stream);
    check_fault(rt, text_of(rt, &lines).as_bytes(), want);
}

/// Checks the `count` rows by [`check_fault_row`].
fn check_faults(rt: &(impl Abort + AllocGlobal), count: usize, rows: &str) {
    check_row_count(rt, count, rows);
    for row in rows.lines() {
        check_fault_row(rt, row);
    }
}

#[test]
fn each_fault_is_named_and_stays(rt: HostRuntime) {
    check_faults(
        &rt,
        9,
        "\
        | => NoLength\n\
        X: 2|| => NoLength\n\
        Content-Length: x|| => BadLength\n\
        Content-Length:|| => BadLength\n\
        Content-Length: 2|CONTENT-LENGTH:2|| => BadLength\n\
        Content-Length: 16777217|Content-Length: 2|| => BadLength\n\
        Content-Length: 2|Content-Length: 16777217|| => BadLength\n\
        Content-Length: 16777217|| => TooLong\n\
        Content-Length: 99999999999999999999|| => TooLong\n\
        ",
    );
}

/// Checks what `count` times `piece` gives.
fn check_repeated(
    rt: &(impl Abort + AllocGlobal),
    reader: &mut FrameReader,
    piece: &str,
    count: usize,
    want: &str,
) {
    let mut page = Page::new(rt.alloc());
    page.repeat(piece, count);
    check_feed(rt, reader, text_of(rt, &page).as_bytes(), want);
}

#[test]
fn a_header_part_has_4096_bytes_at_most(rt: HostRuntime) {
    let mut long = Page::new(rt.alloc());
    long.repeat("a", 4096);
    check_fault(&rt, text_of(&rt, &long).as_bytes(), "HeaderTooLong");
    let mut reader = FrameReader::new(rt.alloc());
    check_repeated(&rt, &mut reader, "a", 4095, "");
    check_feed(&rt, &mut reader, b"a", "HeaderTooLong");
}

/// Feeds all but the last byte of a body of 16,777,216 bytes, checking that no body comes.
fn check_long_body(rt: &(impl Abort + AllocGlobal), reader: &mut FrameReader) {
    check_feed(rt, reader, b"Content-Length: 16777216\r\n\r\n", "");
    let mut piece = Page::new(rt.alloc());
    piece.repeat(" ", 65536);
    for _ in 0..255 {
        check_feed(rt, reader, text_of(rt, &piece).as_bytes(), "");
    }
    check_repeated(rt, reader, " ", 65535, "");
}

/// Writes the length of each body, whether it ends with a space and a brace, and a semicolon.
fn add_ends(page: &mut Page, bodies: &[Vec<u8>]) {
    for body in bodies {
        page.number(body.len());
        page.add(if body.ends_with(b" }") { " ends" } else { "" });
        page.add(";");
    }
}

/// Writes the lengths and ends of the bodies that `piece` completes, or the error's name.
fn add_long(page: &mut Page, reader: &mut FrameReader, piece: &[u8]) {
    match reader.feed(piece) {
        Ok(bodies) => add_ends(page, &bodies),
        Err(fault) => page.add(fault_name(fault)),
    }
}

#[test]
fn the_longest_body_comes_with_its_last_byte(rt: HostRuntime) {
    let mut reader = FrameReader::new(rt.alloc());
    check_long_body(&rt, &mut reader);
    let mut page = Page::new(rt.alloc());
    add_long(&mut page, &mut reader, b"}");
    add_rest(&mut page, &reader);
    check_page(&rt, &page, "16777216 ends; at rest", "the longest body");
}

#[test]
fn a_fault_comes_after_the_bodies_before_it(rt: HostRuntime) {
    check_rows(
        &rt,
        4,
        "\
        Content-Length: 2||{}Content-Length: 1||7| => {};7;\n \
        => NoLength\n\
        Content-Length: 2||{} => NoLength\n \
        => NoLength\n\
        ",
    );
}
