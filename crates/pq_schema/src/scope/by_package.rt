//! The packages of a list of files: which names are packages, and which files can have a full name.
//!
//! A full name is below the package of its file. So a look-up asks only the files without a package
//! and those whose package is a scope around the name. The packages are in the order of their
//! bytes, each with a dot after it, so those that begin with a name and a dot are neighbours. A
//! binary search finds the first. An entry shares the bytes of its name with the file, so the
//! memory does not depend on the lengths of the names.
ghost use Rattle.std.specs.Prelude.{◌≡◌, ℕ, ◌<◌, ◌≤◌, ◌++◌, [], List, IfOk, OnOk, bytes_eq, get_or, length, nat_eq, true, false, Some};
ghost use Rattle.std.specs.Option.{option_copied};
ghost use Rattle.std.specs.Ordering.{is_lt, nat_cmp};
ghost use Rattle.std.specs.Cmp.Lexicographic.{slice_cmp};
ghost use Rattle.std.specs.List.{Contains, starts_with};
ghost use Rattle.std.specs.List.Sorted.{IsSorted};
ghost use Rattle.pq_rules.specs.Relations.{In};
ghost use Rattle.pq_schema.specs.aux.Grouping.{IsIndex, root_order};
ghost use Rattle.pq_schema.specs.aux.InPackage.{dotted};
ghost use Rattle.pq_schema.specs.aux.Scopes.{chain, is_among};

use crate::names::nesting::{outer, scope_or_empty};
use crate::scope::scope::FileDefs;
use pq_names::{Memory, Text};
use std::alloc::Global;

/// The package of a file with a dot after it, and the place of the file.
pub(crate) type Entry = (Text, usize);

/// The packages of `files`.
pub(crate) fn packages_of(alloc: Global, files: &[FileDefs]) -> Result<Vec<Entry>, Memory>
    ensures index { IfOk result (λ v. IsIndex v.items files.now) }
{
    let mut packages = Vec::with_capacity(alloc, files.len())?;
    'files: for place in 0..files.len() {
        let root = files[place].defs.get().root().copy()?;
        packages.push((root, place))?;
    }
    packages.sort()?;
    Ok(packages)
}

/// Whether `text` begins with `start`. Both are compared many bytes at a time.
fn begins(text: &str, start: &str) -> bool
    ensures is { result ≡ starts_with nat_eq text.now start.now }
{
    text.starts_with(start)
}

/// Whether the bytes `entry` come before `name` with a dot after it.
pub(crate) fn is_before(entry: &[u8], name: &[u8]) -> bool
    ensures is { result ≡ is_lt (slice_cmp nat_cmp entry.now (dotted name.now)) }
{
    if entry.starts_with(name) {
        match entry.get(name.len()) {
            Some(byte) => *byte < b'.',
            None => true,
        }
    } else {
        entry.cmp(name).is_lt()
    }
}

/// Whether the bytes `entry` begin with `name` and a dot.
pub(crate) fn is_inside(entry: &[u8], name: &[u8]) -> bool
    ensures is { result ≡ starts_with nat_eq entry.now (dotted name.now) }
{
    match entry.get(name.len()) {
        Some(byte) => *byte == b'.' && entry.starts_with(name),
        None => false,
    }
}

/// Whether `entry` is `name` with a dot after it.
fn is_dotted(entry: &str, name: &str) -> bool
    ensures is { result ≡ bytes_eq entry.now (dotted name.now) }
{
    if entry.len().saturating_sub(name.len()) == 1 {
        is_inside(entry.as_bytes(), name.as_bytes())
    } else {
        false
    }
}

/// The number of entries before `name` with a dot after it.
fn first_from(packages: &[Entry], name: &str) -> usize
    requires { IsSorted root_order packages.now }
    ensures within { result ≤ length packages.now }
    ensures less { (k : ℕ) → k < result →
        is_lt (slice_cmp nat_cmp (get_or packages.now k ([], 0)).0 (dotted name.now)) ≡ true }
    ensures others { (k : ℕ) → result ≤ k → k < length packages.now →
        is_lt (slice_cmp nat_cmp (get_or packages.now k ([], 0)).0 (dotted name.now)) ≡ false }
{
    packages.partition_point(
        |entry: &Entry| -> bool
            ensures { result ≡ is_lt (slice_cmp nat_cmp entry.now.0 (dotted name.entry.now)) }
        { is_before(entry.0.as_str().as_bytes(), name.as_bytes()) },
    )
}

/// Adds the places of the files of the package `root` to `near`.
fn add_places(packages: &[Entry], root: &str, near: &mut Vec<usize>) -> Result<(), Memory>
    requires { IsSorted root_order packages.now }
    ensures kept { OnOk result ((k : ℕ) → In k near.old.items → In k near.new.items) }
    ensures places { OnOk result ((k : ℕ)
        → Contains packages.now (dotted root.now, k) → In k near.new.items) }
{
    let first = first_from(packages, root);
    'entries: for entry in &packages[first..] {
        if !is_dotted(entry.0.as_str(), root) {
            return Ok(());
        }
        near.push(entry.1)?;
    }
    Ok(())
}

/// Whether `entry` is a package that a search from `scope` outwards meets: `scope` itself, a prefix
/// of it before a dot, or the empty package.
fn is_around(entry: &str, scope: &str) -> bool
    ensures all { (root : List ℕ) → entry.now ≡ dotted root
        → is_among root (chain (Some scope.now)) ≡ true → result ≡ true }
{
    if entry.len() == 1 {
        return true;
    }
    if begins(scope, entry) {
        return true;
    }
    is_dotted(entry, scope)
}

/// Adds the places of the files whose package a search from `scope` outwards meets to `near`, by
/// one walk over the packages.
fn add_around(packages: &[Entry], scope: &str, near: &mut Vec<usize>) -> Result<(), Memory>
    ensures kept { OnOk result ((k : ℕ) → In k near.old.items → In k near.new.items) }
    ensures places { OnOk result ((root : List ℕ) (k : ℕ)
        → is_among root (chain (Some scope.now)) ≡ true
        → Contains packages.now (dotted root, k) → In k near.new.items) }
{
    'entries: for at in 0..packages.len() {
        if !is_around(packages[at].0.as_str(), scope) {
            continue;
        }
        near.push(packages[at].1)?;
    }
    Ok(())
}

/// The places of the files whose package is `within`, a prefix of it before a dot, or empty.
///
/// Each scope takes a binary search. Where there are more scopes than packages, one walk over the
/// packages finds those of the scopes that are left.
pub(crate) fn places_near(
    alloc: Global,
    packages: &[Entry],
    within: Option<&str>,
) -> Result<Vec<usize>, Memory>
    requires { IsSorted root_order packages.now }
    ensures places { IfOk result (λ v. (root : List ℕ) (k : ℕ)
        → is_among root (chain (option_copied within.entry)) ≡ true
        → Contains packages.now (dotted root, k) → In k v.items) }
{
    let mut near = Vec::new(alloc);
    let mut inner = within;
    let mut searches = packages.len();
    'scopes: loop {
        let scope = scope_or_empty(inner);
        if searches == 0 {
            add_around(packages, scope, &mut near)?;
            return Ok(near);
        }
        searches -= 1;
        add_places(packages, scope, &mut near)?;
        match inner {
            Some(scope) => inner = outer(scope),
            None => return Ok(near),
        }
    }
}
