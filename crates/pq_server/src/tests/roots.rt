//! The roots of an editor's session in order, and what a walk finds below them.
use super::scratch::{make, path_of};
use super::support::{check_row_count, check_text, split_row};
use crate::editor::{Disk, Lines, Roots, named_by_buf, place_of, walk};
use pq_session::Memory;
use pq_view::Text;
use std::alloc::Global;
use std::process::Abort;
use std::rt::Files;
use std::sync::Wait;
use std::test::Fail;
use std::time::Clock;
use std::{fs, io};

/// What the folder of the tests has.
const FOLDERS: &str = "w/p/x.proto\nv/x.proto\nu/x.proto\nlink -> w";

/// A `buf.yaml` that names two folders below its own, and its own.
const MODULES: &str = "version: v2\nmodules:\n  - path: p\n  - path: q\n  - path: .\n";

/// A `buf.work.yaml` that names a folder.
const DIRECTORIES: &str = "version: v1\ndirectories: [r]\n";

/// Does one step with `roots`: `KIND NAME`, with a folder or file below `base`.
fn do_step<D: Disk>(
    disk: &D,
    alloc: Global,
    roots: &mut Roots,
    base: &str,
    step: &str,
) -> Result<(), Memory> {
    let (kind, name) = step.split_once(' ').unwrap_or((step, ""));
    let face = format!(in alloc; "{base}/{name}")?;
    let place = place_of(disk, alloc, face.as_str())?;
    match kind {
        "given" => roots.add_given(place)?,
        "folder" => {
            let named = named_by_buf(disk, alloc, &place)?;
            roots.add_folder(place, named)?;
        }
        "remove" => roots.remove_folder(place.root.as_str()),
        "found" => {
            roots.add_found(place.root)?;
        }
        "own" => {
            roots.add_own(place.root.as_str(), place.face.as_str())?;
        }
        _ => roots.set_last(place),
    }
    Ok(())
}

/// The paths without `base` in front, each after a blank.
fn shown_paths(alloc: Global, base: &str, paths: &[Text]) -> Result<String, Memory> {
    let mut text = String::new(alloc);
    for path in paths {
        text.push(' ')?;
        let path = path.as_str();
        text.push_str(path.strip_prefix(base).unwrap_or(path))?;
    }
    Ok(text)
}

/// The roots after `steps`, their faces, and the tops of a walk, as text. The first step is `only` where
/// no other roots are searched.
fn shown_roots<D: Disk>(
    disk: &D,
    alloc: Global,
    base: &str,
    steps: &str,
) -> Result<String, Memory> {
    let mut roots = Roots::new(alloc, steps.starts_with("only"));
    for step in steps.split(", ") {
        if step != "only" {
            do_step(disk, alloc, &mut roots, base, step)?;
        }
    }
    let (paths, faces) = roots.order()?;
    let tops = roots.tops()?;
    let paths = shown_paths(alloc, base, &paths)?;
    let faces = shown_paths(alloc, base, &faces)?;
    let tops = shown_paths(alloc, base, &tops)?;
    format!(in alloc; "roots{paths} faces{faces} tops{tops}")
}

/// Checks what roots there are after steps.
fn check_roots<D: Disk + AllocGlobal + Abort>(rt: &D, base: &str, row: &str) -> Result<(), Fail> {
    let (steps, want) = split_row(rt, row, " => ");
    let found = shown_roots(rt, rt.alloc(), base, steps)?;
    check_text(rt, found.as_str(), want, row);
    Ok(())
}

#[test]
fn roots_in_order(rt: HostRuntime) -> Result<(), Fail> {
    let table = "\
        last i => roots /i faces /i tops\n\
        last i, folder w, given a => roots /a /w /i faces /a /w /i tops /a /w\n\
        folder v => roots /v/p /v/q /v faces /v/p /v/q /v tops /v\n\
        folder u => roots /u/r /u faces /u/r /u tops /u\n\
        folder v, remove v, folder w => roots /w faces /w tops /w\n\
        folder w, found w/p, own w/p/x.proto, own o/x.proto => roots /w /w/p /o faces /w /w/p /o tops /w /o\n\
        own o/x.proto, own o/y.proto, own p/z.proto => roots /o /p faces /o /p tops /o /p\n\
        only, given a, folder w, found b, own o/x.proto, last i => roots /a /i faces /a /i tops /a\n\
        folder link, folder w, found w/p => roots /w /w/p faces /link /link/p tops /w\n\
        last i, own i/x.proto, found i => roots /i faces /i tops /i\n\
        given a, given a, given b => roots /a /b faces /a /b tops /a /b\
        ";
    check_row_count(&rt, 11, table);
    let dir = path_of(&rt, rt.process(), "roots")?;
    make(&rt, dir.as_str(), FOLDERS)?;
    write_below(&rt, dir.as_str(), "v/buf.yaml", MODULES)?;
    write_below(&rt, dir.as_str(), "u/buf.yaml", MODULES)?;
    write_below(&rt, dir.as_str(), "u/buf.work.yaml", DIRECTORIES)?;
    for row in table.lines() {
        check_roots(&rt, dir.as_str(), row)?;
    }
    fs::remove_dir_all(&rt, dir.as_str())?;
    Ok(())
}

/// Writes the file `name` below `base`.
fn write_below(
    rt: &(impl Files + AllocGlobal),
    base: &str,
    name: &str,
    text: &str,
) -> io::Result<()> {
    let path = format!(in rt.alloc(); "{base}/{name}")?;
    fs::write(rt, path.as_str(), text)
}

/// What a walk of `tops`, separated by blanks, finds below `base`, as text.
fn shown_walk<D: Disk + Clock + Wait>(
    disk: &D,
    alloc: Global,
    lines: &Lines,
    base: &str,
    tops: &str,
) -> Result<String, Memory> {
    let mut paths = Vec::new(alloc);
    for top in tops.split_whitespace() {
        let path = format!(in alloc; "{base}/{top}")?;
        paths.push(Text::new(alloc, path.as_str())?)?;
    }
    let tree = walk(disk, alloc, &paths, lines)?;
    let found = shown_paths(alloc, base, &tree.paths)?;
    let cut = if tree.is_whole { "" } else { " cut" };
    format!(in alloc; "found{found}{cut}")
}

/// Checks a row `ENTRIES => TOPS => FOUND`. The entries are separated by commas.
fn check_walk<D: Disk + Clock + Wait + AllocGlobal + Abort + Files>(
    rt: &D,
    lines: &Lines,
    dir: &str,
    row: &str,
) -> Result<(), Fail> {
    let (entries, rest) = split_row(rt, row, " => ");
    let (tops, want) = split_row(rt, rest, " => ");
    let rows = entries.replace(rt.alloc(), ", ", "\n")?;
    make(rt, dir, rows.as_str())?;
    let found = shown_walk(rt, rt.alloc(), lines, dir, tops)?;
    fs::remove_dir_all(rt, dir)?;
    check_text(rt, found.as_str(), want, row);
    Ok(())
}

#[test]
fn walks(rt: HostRuntime) -> Result<(), Fail> {
    let table = "\
        a/c/d.proto, a/b.proto, e.txt => a => found /a/b.proto /a/c/d.proto\n\
        a/b/c.proto, d/e.proto, d/f/g.proto => a a/b d none => found /a/b/c.proto /d/e.proto /d/f/g.proto\n\
        a/.b/c.proto, a/.d.proto, a/e.protos, a/f.proto/g.txt => a => found\n\
        a/b.proto, a/up -> .., a/c.proto -> b.proto, a/.#d.proto -> e, a/f.proto -> g => a => found /a/b.proto /a/c.proto\
        ";
    check_row_count(&rt, 4, table);
    let dir = path_of(&rt, rt.process(), "walks")?;
    let (lines, _said) = Lines::start(&rt)?;
    for row in table.lines() {
        check_walk(&rt, &lines, dir.as_str(), row)?;
    }
    let deep = "d/".repeat(rt.alloc(), 33)?;
    let row = format!(in rt.alloc();
        "{deep}in.proto, {deep}d/out.proto => d => found /{deep}in.proto cut"
    )?;
    check_walk(&rt, &lines, dir.as_str(), row.as_str())?;
    Ok(())
}
