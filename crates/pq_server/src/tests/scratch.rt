//! A folder of a test's own.
use std::os::unix::fs::symlink;
use std::rt::{Env, Files};
use std::{env, fs, io, process};

/// The path of the folder `name`, which this process alone uses.
pub(super) fn path_of(
    rt: &(impl Files + Env + AllocGlobal),
    process: process::Process,
    name: &str,
) -> io::Result<String> {
    let base = env::temp_dir(rt)?;
    let number = process::id(process);
    Ok(format!(in rt.alloc(); "{}/pq_server-{number}-{name}", base.as_path().display())?)
}

/// Makes the folders on the way to `path`.
fn make_parents(rt: &impl Files, path: &str) -> io::Result<()> {
    match path.rsplit_once('/') {
        Some((parent, _)) => fs::create_dir_all(rt, parent),
        None => Ok(()),
    }
}

/// Makes what `row` names below the folder `base`: `NAME -> TARGET` is a symbolic link, `NAME = TEXT`
/// a file, and `NAME` a file whose text is its name.
fn make_row(rt: &(impl Files + AllocGlobal), base: &str, row: &str) -> io::Result<()> {
    if let Some((name, target)) = row.split_once(" -> ") {
        let path = format!(in rt.alloc(); "{base}/{name}")?;
        make_parents(rt, path.as_str())?;
        return symlink(rt, target, path.as_str());
    }
    let (name, text) = row.split_once(" = ").unwrap_or((row, row));
    let path = format!(in rt.alloc(); "{base}/{name}")?;
    make_parents(rt, path.as_str())?;
    fs::write(rt, path.as_str(), text)
}

/// Makes the folder `base` with what the lines of `rows` name.
pub(super) fn make(rt: &(impl Files + AllocGlobal), base: &str, rows: &str) -> io::Result<()> {
    fs::create_dir_all(rt, base)?;
    for row in rows.lines() {
        make_row(rt, base, row)?;
    }
    Ok(())
}
