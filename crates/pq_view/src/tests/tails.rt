//! Roots that missing imports show, as rows that one interpreter reads.
//!
//! A row is `PATHS | IMPORTER | NAME => ROOT`, with the root in brackets, or `-` if there is none.
use crate::tails::Tails;
use pq_names::{Memory, Text};
use std::alloc::Global;
use std::process::Abort;

/// The rows. In the first ones all files are called `g.proto`.
const ROWS: &str = "\
/w/a/g.proto /w/b/g.proto | /w/b/f.proto | g.proto => [/w/b]
/w/a/g.proto /w/b/g.proto | /w/c/f.proto | g.proto => [/w/a]
/w/b/g.proto /w/a/g.proto | /w/c/f.proto | g.proto => [/w/a]
/w/a/g.proto /w/abc/g.proto | /w/abd/f.proto | g.proto => [/w/a]
/w/x/y/z/g.proto /w/q/g.proto | /w/x/f.proto | g.proto => [/w/x/y/z]
/w/a/g.proto /v/a/g.proto | /w/f.proto | a/g.proto => [/w]
/w/a/g.proto /v/a/g.proto | /v/f.proto | a/g.proto => [/v]
/g.proto | /w/f.proto | g.proto => []
/a/g.proto | /w/f.proto | a/g.proto => []
/w/ag.proto /w/a.g.proto | /w/f.proto | g.proto => -
/w/a/g.proto | /w/f.proto | b/g.proto => -
/w/a/g.proto | /w/f.proto | w/a/g.proto/ => -
/w/a/g.proto | /w/f.proto | /g.proto => -
/w/a/g.proto | /w/f.proto | ./g.proto => -
/w/a/g.proto | /w/f.proto | a/../g.proto => -
/w/a/g.proto | /w/f.proto | a//g.proto => -
/w/a/..g /w/b/.g | /w/f.proto | ..g => [/w/a]
/w/a/é.proto | /w/f.proto | é.proto => [/w/a]
 | /w/f.proto | g.proto => -
";

/// The root that a row asks for.
fn root_row(alloc: Global, row: &str) -> Result<String, Memory> {
    let (paths, rest) = match row.split_once('|') {
        Some(parts) => parts,
        None => (row, ""),
    };
    let (importer, name) = match rest.split_once('|') {
        Some(parts) => parts,
        None => (rest, ""),
    };
    let mut files = Vec::new(alloc);
    for path in paths.split_whitespace() {
        files.push(Text::new(alloc, path)?)?;
    }
    let tails = Tails::of(alloc, &files)?;
    let mut line = String::new(alloc);
    match tails.root_of(importer.trim(), name.trim())? {
        Some(root) => {
            line.push_str("[")?;
            line.push_str(root.as_str())?;
            line.push_str("]")?;
        }
        None => line.push_str("-")?,
    }
    Ok(line)
}

#[test]
fn roots_are_shown(rt: HostRuntime) {
    for row in ROWS.lines() {
        let (asked, want) = row.split_once(" =>").expect(&rt, row);
        let found = root_row(rt.alloc(), asked).expect(&rt, "out of memory");
        assert_eq!(&rt; found.as_str(), want.trim(), "{row}");
    }
}
