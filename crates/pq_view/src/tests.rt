//! A view as rows that one interpreter reads. Those of looks at the disk are in `looks`, those of
//! roots that missing imports show in `tails`, and those of files of the build tool in `buf`.
//!
//! A row is `WORD REST => WANT`. `roots`, `file`, `gone`, `open` and `close` change the view, and
//! write an edit as `NAME=TEXT`, or `NAME-` for a file that becomes absent. `source`, `text`, `name`,
//! `path`, `is_open`, `owed`, `before` and `names` ask it; what is owed is `PATH=NAME`. `before` are
//! the paths before the place of a name, and `names` the names of a path.
//!
//! A row of the path that is shown is `ROOTS | FACES | PATH => WANT`.
mod buf;
mod looks;
mod tails;

use crate::edits::Edit;
use crate::shown::shown_path;
use crate::view::View;
use pq_names::{Memory, Text};
use std::alloc::Global;
use std::process::Abort;

/// The rows. The roots are `/a` and `/b`, in this order, and `/b/x` is shadowed by `/a/x`.
const ROWS: &str = "\
roots /a /b =>
file /b/x 1 => x=1
file /b/y 2 => y=2
file /a/x 3 => x=3
source x => 3
name /a/x => x
name /b/x => /b/x
path x => /a/x
path z => /a/z
before x =>
before y => /a/y
before z => /a/z /b/z
before /a/x =>
names /b/x => x
names /c/x =>
path /c/z => /c/z
open /b/x 4 => /b/x=4
source /b/x => 4
source x => 3
close /b/x => /b/x-
open /b/x 1 => /b/x=1
gone /a/x => x=1 /b/x-
is_open /b/x => yes
is_open /a/x => no
owed => /b/x=x
file /a/x 5 => x=5 /b/x=1
open /a/x 5 =>
open /a/x 6 => x=6
owed => /a/x=x /b/x=/b/x
text /a/x => 6
close /a/x => x=5
open /c/z 7 => /c/z=7
roots /b /a => x=1 /b/x-
roots /c => x- /b/x=1 y- /c/z- z=7
name /c/z => z
source z => 7
roots / => a/x=5 /b/x- b/x=1 b/y=2 z- c/z=7
source b/x => 1
roots /b /b/c /b => a/x- b/x- x=1 b/y- y=2 /c/z=7 c/z-
names /b/c/x => c/x x c/x
";

/// The rows of the path that is shown. A root without a face is shown as it is.
const SHOWN: &str = "\
/r | /f | /r/a/b => /f/a/b
/r | /f | /x/a => /x/a
/r | /f | /rr/a => /rr/a
/r | /f | /r => /r
/r | /f | /r//a => /r//a
/r /r/s | /f /g | /r/s/a => /f/s/a
/r/s /r | /g /f | /r/s/a => /g/a
/r/s /r | /g /f | /r/a => /f/a
/x /r | /f | /r/a => /r/a
/r/s /r | | /r/a => /r/a
/ /r | /f /g | /r/a => /f/r/a
";

/// A text to show, or nothing.
fn shown(alloc: Global, text: Option<&Text>) -> Result<String, Memory> {
    match text {
        Some(text) => String::from_str(alloc, text.as_str()),
        None => Ok(String::new(alloc)),
    }
}

/// Adds the edit to `line`.
fn push_edit(line: &mut String, edit: &Edit) -> Result<(), Memory> {
    if !line.is_empty() {
        line.push_str(" ")?;
    }
    line.push_str(edit.name.as_str())?;
    match &edit.text {
        Some(text) => {
            line.push_str("=")?;
            line.push_str(text.as_str())
        }
        None => line.push_str("-"),
    }
}

/// The edits, in one line.
fn line_of(alloc: Global, edits: &[Edit]) -> Result<String, Memory> {
    let mut line = String::new(alloc);
    for edit in edits {
        push_edit(&mut line, edit)?;
    }
    Ok(line)
}

/// The texts, in one line.
fn words_of(alloc: Global, texts: &[Text]) -> Result<String, Memory> {
    let mut line = String::new(alloc);
    for text in texts {
        if !line.is_empty() {
            line.push_str(" ")?;
        }
        line.push_str(text.as_str())?;
    }
    Ok(line)
}

/// What is owed, in one line.
fn owed_line(alloc: Global, view: &View) -> Result<String, Memory> {
    let mut line = String::new(alloc);
    for owed in &view.owed()? {
        if !line.is_empty() {
            line.push_str(" ")?;
        }
        line.push_str(owed.path.as_str())?;
        line.push_str("=")?;
        line.push_str(owed.name.as_str())?;
    }
    Ok(line)
}

/// The folders of a row. That of the file system is written `/`.
fn folders(alloc: Global, words: &str) -> Result<Vec<Text>, Memory> {
    let mut folders = Vec::new(alloc);
    for word in words.split_whitespace() {
        let folder = if word == "/" { "" } else { word };
        folders.push(Text::new(alloc, folder)?)?;
    }
    Ok(folders)
}

/// Gives the view the roots `rest`.
fn set_roots(alloc: Global, view: &mut View, rest: &str) -> Result<String, Memory> {
    let roots = folders(alloc, rest)?;
    line_of(alloc, &view.set_roots(roots)?)
}

/// Carries out a row that changes a file.
fn change(alloc: Global, view: &mut View, word: &str, rest: &str) -> Result<String, Memory> {
    let (path, text) = match rest.split_once(' ') {
        Some((path, text)) => (path, Some(Text::new(alloc, text)?)),
        None => (rest, None),
    };
    let path = Text::new(alloc, path)?;
    let edits = if word == "open" || word == "close" {
        view.set_document(path, text)?
    } else {
        view.set_file(path, text)?
    };
    line_of(alloc, &edits)
}

/// What the view answers.
fn answer(alloc: Global, view: &View, word: &str, rest: &str) -> Result<String, Memory> {
    match word {
        "source" => shown(alloc, view.source(rest)?),
        "text" => shown(alloc, view.text_at(rest)),
        "name" => shown(alloc, Some(&view.name_of(rest)?)),
        "owed" => owed_line(alloc, view),
        "before" => words_of(alloc, &view.paths_before(rest)?),
        "names" => words_of(alloc, &view.names_of(rest)?),
        "path" => shown(alloc, Some(&view.path_of(rest)?)),
        _ => String::from_str(alloc, if view.is_open(rest) { "yes" } else { "no" }),
    }
}

/// Carries out a row.
fn step(alloc: Global, view: &mut View, row: &str) -> Result<String, Memory> {
    let (word, rest) = match row.split_once(' ') {
        Some(parts) => parts,
        None => (row, ""),
    };
    match word {
        "roots" => set_roots(alloc, view, rest),
        "file" | "gone" | "open" | "close" => change(alloc, view, word, rest),
        _ => answer(alloc, view, word, rest),
    }
}

/// Checks a row.
fn check_row(rt: &(impl Abort + AllocGlobal), view: &mut View, row: &str) {
    let (asked, want) = row.split_once(" =>").expect(rt, row);
    let found = step(rt.alloc(), view, asked).expect(rt, "out of memory");
    assert_eq!(rt; found.as_str(), want.trim(), "{row}");
}

#[test]
fn rows_hold(rt: HostRuntime) {
    let mut view = View::new(rt.alloc());
    for row in ROWS.lines() {
        check_row(&rt, &mut view, row);
    }
}

/// The path that a row of `SHOWN` asks for.
fn shown_row(alloc: Global, row: &str) -> Result<String, Memory> {
    let (roots, rest) = match row.split_once('|') {
        Some(parts) => parts,
        None => (row, ""),
    };
    let (faces, path) = match rest.split_once('|') {
        Some(parts) => parts,
        None => (rest, ""),
    };
    let roots = folders(alloc, roots)?;
    let faces = folders(alloc, faces)?;
    shown_path(alloc, &roots, &faces, path.trim())
}

#[test]
fn paths_are_shown(rt: HostRuntime) {
    for row in SHOWN.lines() {
        let (asked, want) = row.split_once(" =>").expect(&rt, row);
        let found = shown_row(rt.alloc(), asked).expect(&rt, "out of memory");
        assert_eq!(&rt; found.as_str(), want.trim(), "{row}");
    }
}
