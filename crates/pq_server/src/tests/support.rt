//! What the tests of the program share: tables and frames.
//!
//! A table is one text with a line for each row. The proof of a test takes far longer for an array
//! of rows, and it grows faster than the test: assertions have functions of their own here.
use pq_frame::{Memory, frame};
use std::alloc::Global;
use std::process::Abort;

/// Checks that the table `rows` has `count` rows.
pub(super) fn check_row_count(rt: &impl Abort, count: usize, rows: &str) {
    assert_eq!(rt; rows.lines().count(), count, "{rows}");
}

/// The parts of `row` before and after the first `separator`, which it must contain.
pub(super) fn split_row<'a>(rt: &impl Abort, row: &'a str, separator: &str) -> (&'a str, &'a str) {
    row.split_once(separator).expect(rt, row)
}

/// Checks that `found` is `want`; `row` names the row.
pub(super) fn check_text(rt: &impl Abort, found: &str, want: &str, row: &str) {
    assert_eq!(rt; found, want, "{row}");
}

/// The frames of `bodies`, one after the other.
pub(super) fn frames(alloc: Global, bodies: &[&str]) -> Result<Vec<u8>, Memory> {
    let mut bytes = Vec::new(alloc);
    for body in bodies {
        bytes.extend_from_slice(&frame(alloc, body.as_bytes())?)?;
    }
    Ok(bytes)
}
