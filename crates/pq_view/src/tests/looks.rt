//! Looks at the disk as rows that one interpreter reads.
//!
//! A row is `WORD REST => WANT`. `see` adds to the later of two looks a path, the members of its
//! stamp and the second of the look. `len` and `news` ask it, and `turn` makes it the earlier one.
use crate::looks::{Looks, Stamp};
use pq_names::Memory;
use std::alloc::Global;
use std::process::Abort;

/// The rows. A file that was changed at the second 10 is not fresh at 13.
const ROWS: &str = "\
news =>
see /b 1 2 3 10 5 10 5 13 =>
see /a 1 3 3 10 5 10 5 13 =>
see /c 1 4 3 11 5 11 5 13 =>
see /d 1 5 3 -5 5 -5 5 -3 =>
see /e 1 6 3 -6 5 -6 5 -3 =>
len => 5
news => /a /b /c /d /e
turn =>
news => /a /b /c /d /e
see /b 1 2 3 10 5 10 5 20 =>
see /a 1 3 3 10 5 10 5 20 =>
see /a 1 3 4 10 5 10 5 20 =>
see /c 1 4 3 11 5 11 5 20 =>
see /d 1 5 3 -5 5 -5 5 20 =>
see /e 1 6 3 -6 5 -6 5 20 =>
len => 5
news => /a /c /d
turn =>
see /f 1 7 3 10 5 10 5 20 =>
see /e 1 6 3 -6 5 -6 5 20 =>
see /d 2 5 3 -5 5 -5 5 20 =>
see /c 1 4 3 11 5 11 6 20 =>
news => /c /d /f /a /b
turn =>
see /c 1 4 3 11 5 12 6 20 =>
see /d 2 6 3 -5 5 -5 5 20 =>
see /e 1 6 3 -6 6 -6 5 20 =>
see /f 1 7 3 11 5 10 5 20 =>
news => /c /d /e /f
";

/// Two looks at the disk.
#[derive(Drop)]
struct Turns {
    earlier: Looks,
    later: Looks,
}

/// The number at `index`, or 0.
fn unsigned(words: &[&str], index: usize) -> u64 {
    match words.get(index) {
        Some(word) => word.parse::<u64>().unwrap_or(0),
        None => 0,
    }
}

/// The number at `index`, which can be negative, or 0.
fn signed(words: &[&str], index: usize) -> i64 {
    match words.get(index) {
        Some(word) => word.parse::<i64>().unwrap_or(0),
        None => 0,
    }
}

/// Adds a file to `looks`.
fn see(alloc: Global, looks: &mut Looks, path: &str, rest: &str) -> Result<String, Memory> {
    let words: Vec<&str> = rest.split_whitespace().collect(alloc)?;
    let stamp = Stamp {
        device: unsigned(&words, 0),
        inode: unsigned(&words, 1),
        size: unsigned(&words, 2),
        modified_seconds: signed(&words, 3),
        modified_nanos: signed(&words, 4),
        changed_seconds: signed(&words, 5),
        changed_nanos: signed(&words, 6),
    };
    looks.see(path, stamp, signed(&words, 7))?;
    Ok(String::new(alloc))
}

/// The paths to read again, in one line.
fn news_line(alloc: Global, turns: &Turns) -> Result<String, Memory> {
    let mut line = String::new(alloc);
    for path in &turns.later.news(&turns.earlier)? {
        line.push_str(" ")?;
        line.push_str(path.as_str())?;
    }
    Ok(line)
}

/// Carries out a row.
fn look_step(alloc: Global, turns: &mut Turns, row: &str) -> Result<String, Memory> {
    let (word, rest) = match row.split_once(' ') {
        Some(parts) => parts,
        None => (row, ""),
    };
    match word {
        "see" => {
            let (path, rest) = match rest.split_once(' ') {
                Some(parts) => parts,
                None => (rest, ""),
            };
            see(alloc, &mut turns.later, path, rest)
        }
        "turn" => {
            turns.earlier = std::mem::replace(&mut turns.later, Looks::new(alloc));
            Ok(String::new(alloc))
        }
        "len" => format!(in alloc; "{}", turns.later.len()),
        _ => news_line(alloc, turns),
    }
}

/// Checks a row.
fn check_look(rt: &(impl Abort + AllocGlobal), turns: &mut Turns, row: &str) {
    let (asked, want) = row.split_once(" =>").expect(rt, row);
    let found = look_step(rt.alloc(), turns, asked).expect(rt, "out of memory");
    assert_eq!(rt; found.as_str().trim(), want.trim(), "{row}");
}

#[test]
fn looks_hold(rt: HostRuntime) {
    let mut turns = Turns {
        earlier: Looks::new(rt.alloc()),
        later: Looks::new(rt.alloc()),
    };
    for row in ROWS.lines() {
        check_look(&rt, &mut turns, row);
    }
}
