//! Runs stored sessions, and writes the outcome and the output of each.

use crate::outcomes::word_of;
use crate::stored::{Stored, first_of};
use pq_session::{Counted, script};
use std::alloc::Global;
use std::io;
use std::io::{ErrorKind, Write};

/// Runs one session by `script`, whose contract is the script theorem, and writes its line and its
/// output.
fn write_session<W: Write>(alloc: Global, stored: Stored<'_>, output: &mut W) -> io::Result<()> {
    let mut written = Vec::new(alloc);
    let mut reader = Counted::new(stored.bytes);
    let mut writer = Counted::new(&mut written);
    let outcome = script(alloc, &mut reader, &mut writer);
    let word = word_of(outcome);
    let line = format!(in alloc; "{} {word} {}\n", stored.name, written.len())?;
    output.write_all(line.as_bytes())?;
    output.write_all(written.as_slice())
}

/// Runs the sessions of `input` in order. `InvalidData` says that a header is malformed or that the
/// last session is cut.
pub(crate) fn write_sessions<W: Write>(
    alloc: Global,
    input: &[u8],
    output: &mut W,
) -> io::Result<()> {
    let mut rest = input;
    'sessions: while !rest.is_empty() {
        let Some((stored, after)) = first_of(rest) else {
            return Err(io::Error::from(ErrorKind::InvalidData));
        };
        write_session(alloc, stored, output)?;
        rest = after;
    }
    Ok(())
}
