//! Runs stored sessions: a program of tests alone.
//!
//! Standard input has sessions, one after the other: a line `NAME LENGTH`, and then LENGTH bytes.
//! Each session gets a script of its own. The program writes a line `NAME OUTCOME LENGTH` for it,
//! and then the LENGTH bytes that the script wrote. `outcomes` has the words for OUTCOME.
#![tactic(auto)]

mod outcomes;
mod serving;
mod stored;

use serving::write_sessions;
use std::io;
use std::io::{Read, Write};

/// Runs the sessions of standard input. A malformed header, a cut session and a failed device end
/// the program with an error.
fn main(rt: HostRuntime) -> io::Result<()> {
    let mut input = Vec::new(rt.alloc());
    rt.stdin().read_to_end(&mut input)?;
    let mut output = Vec::new(rt.alloc());
    write_sessions(rt.alloc(), input.as_slice(), &mut output)?;
    rt.stdout().write_all(output.as_slice())
}
