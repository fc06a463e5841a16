//! Folders that files of the build tool name, as rows that one interpreter reads.
//!
//! A row is `WORD TEXT => FOLDERS`: `work` or `module`, the text with `|` for the end of a line, `^`
//! for a carriage return and `~` for a tab, and the folders in brackets.
use crate::buf::{BufFile, named_folders};
use pq_names::Memory;
use std::alloc::Global;
use std::process::Abort;

/// The rows.
const ROWS: &str = "\
work version: v1|directories:|  - proto|  - vendor/api| => [proto][vendor/api]
work version: v1|directories:|- proto|- api => [proto][api]
work directories: [a, \"b\", 'c d'] => [a][b][c d]
work directories: [a] # one => [a]
work directories: [] =>
work directories: # two|  # none|  - a # first|  -   b#c|# end|  - d => [a][b#c][d]
work directories:^|  - a^|^|  - \"b\"^| => [a][b]
work directories:|~- a|~- b => [a][b]
work directories:|  -~a => [a]
work directories:|  - a|version: v1|others:|  - b => [a]
work others:|  directories:|    - b|directories:|  - a => [a]
work directories:|  - .|  - ./a|  - b/|  - ./ => [][a][b][]
work directories:|  - /etc|  - ../a|  - a/../b|  - a//b|  - a/.. =>
work directories:|  - *x|  - &y a|  - \"a\\\\b\"|  - 'a|  - |  -|  - b => [b]
work directories:|  - a|  - - b|    - c|  - d => [a][d]
work =>
work directories: =>
work directories:a|  - b =>
work \"directories\":|  - a => [a]
work modules:|  - path: a =>
module version: v1|name: buf.build/a/b|deps:|  - buf.build/c/d =>
module version: v2|modules:|  - path: a|  - path: b/c => [a][b/c]
module modules:|  - path: .|    name: buf.build/a/b => []
module modules:|  - name: x|    path: a|    lint:|      path: b|  - path: \"c\" # c => [a][c]
module modules:|  - path: a|    excludes:|      - a/path|      - path: b|lint:|  path: d => [a]
module path: a|modules:|  - path: b|path: c => [b]
module modules:|- path: a|- name: n|  path: b => [a][b]
module ---|modules:|  - path: a|---|lint:|  - path: b => [a]
module modules:|  - 'path': a|  - path : b|  - path:c => [a][b]
module directories:|  - a =>
";

/// The folders that a row names.
fn folders_row(alloc: Global, row: &str) -> Result<String, Memory> {
    let (word, rest) = match row.split_once(' ') {
        Some(parts) => parts,
        None => (row, ""),
    };
    let mut text = String::new(alloc);
    for c in rest.chars() {
        match c {
            '|' => text.push_str("\n")?,
            '^' => text.push_str("\r")?,
            '~' => text.push_str("\t")?,
            _ => text.push(c)?,
        }
    }
    let file = if word == "work" {
        BufFile::Work
    } else {
        BufFile::Module
    };
    let mut line = String::new(alloc);
    for folder in &named_folders(alloc, file, text.as_str())? {
        line.push_str("[")?;
        line.push_str(folder.as_str())?;
        line.push_str("]")?;
    }
    Ok(line)
}

#[test]
fn folders_are_named(rt: HostRuntime) {
    for row in ROWS.lines() {
        let (asked, want) = row.split_once(" =>").expect(&rt, row);
        let found = folders_row(rt.alloc(), asked).expect(&rt, "out of memory");
        assert_eq!(&rt; found.as_str(), want.trim(), "{row}");
    }
}
