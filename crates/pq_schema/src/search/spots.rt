//! The scopes of a package, from it outwards, in which a definition of some file is.
//!
//! A package can have as many scopes as bytes, and few of them have definitions. A search for a
//! name asks these alone. A package of few parts has so few scopes that all are asked; else one
//! walk over the definitions of the files marks the lengths of their scopes.
ghost use Rattle.std.specs.Prelude.{◌≡◌, ℕ, ◌<◌, ◌≤◌, ◌+◌, ◌++◌, ◌∷◌, [], Some, IfOk, OnOk, true, false, filter, get_or, length, map};
ghost use Rattle.pq_schema.specs.Resolution.{scopes};
ghost use Rattle.pq_schema.specs.aux.NameParts.{leading};
ghost use Rattle.pq_schema.specs.aux.Spots.{AreMarked, AreSpots, FilesMarked, IsMarked, LeavesNone, MarksStay, is_kept};

use crate::define::definitions::Definition;
use crate::names::full_name::FullName;
use crate::names::lead::lead_text;
use crate::names::nesting::{innermost, outer, scope_or_empty};
use crate::scope::files::Files;
use crate::scope::scope::FileDefs;
use pq_names::{Memory, Text};
use std::alloc::Global;

/// The most dots of a package all of whose scopes are asked.
const FEW: usize = 16;

/// Whether `root` has few dots.
fn has_few_dots(root: &str) -> bool {
    let mut dots = 0usize;
    'bytes: for byte in root.as_bytes() {
        if *byte == b'.' {
            dots = dots.saturating_add(1);
        }
    }
    dots <= FEW
}

/// Marks the length of the scope of the full name `name`, if that is a scope from `root` outwards.
fn mark(name: &FullName, root: &[u8], marks: &mut [bool])
    requires { length marks.old ≡ length root.now + 1 }
    ensures count { length marks.new ≡ length marks.old }
    ensures stay { MarksStay marks.old marks.new }
    ensures marked { IsMarked marks.new root.now name.now }
{
    let scope = name.scope();
    let count = match scope.count_within(root.len()) {
        Some(count) => count,
        None => return,
    };
    if !marks[count] {
        marks[count] = scope.is(&root[..count]);
    }
}

/// Marks the lengths of the scopes of `definitions`.
fn mark_each(definitions: &[Definition], root: &[u8], marks: &mut [bool])
    requires { length marks.old ≡ length root.now + 1 }
    ensures count { length marks.new ≡ length marks.old }
    ensures stay { MarksStay marks.old marks.new }
    ensures marked { AreMarked marks.new root.now definitions.now }
{
    'definitions: for i in 0..definitions.len() {
        mark(&definitions[i].full_name, root, marks);
    }
}

/// Marks the lengths of the scopes of the definitions of `files`.
fn mark_files(files: &[FileDefs], root: &[u8], marks: &mut [bool])
    requires { length marks.old ≡ length root.now + 1 }
    ensures count { length marks.new ≡ length marks.old }
    ensures marked { FilesMarked marks.new root.now files.now }
{
    'files: for i in 0..files.len() {
        mark_each(files[i].defs.get().definitions(), root, marks);
    }
}

/// Adds `scope` with its dot to `spots`, if its length is marked.
fn add_spot(alloc: Global, marks: &[bool], scope: &str, spots: &mut Vec<Text>) -> Result<(), Memory>
    ensures spot { OnOk result
        (spots.new.items ≡ spots.old.items ++ map leading (filter (is_kept marks.now) (scope.now ∷ []))) }
{
    match marks.get(scope.len()) {
        Some(true) => {}
        _ => return Ok(()),
    }
    spots.push(lead_text(alloc, scope)?)?;
    Ok(())
}

/// The scopes from `root` outwards whose lengths are marked, each with its dot.
fn marked_scopes(alloc: Global, marks: &[bool], root: &str) -> Result<Vec<Text>, Memory>
    ensures spots { IfOk result
        (λ v. v.items ≡ map leading (filter (is_kept marks.now) (scopes root.now))) }
{
    let mut spots = Vec::new(alloc);
    let mut inner = innermost(root);
    'scopes: loop {
        add_spot(alloc, marks, scope_or_empty(inner), &mut spots)?;
        match inner {
            Some(scope) => inner = outer(scope),
            None => return Ok(spots),
        }
    }
}

/// A mark for each number of bytes up to those of `root`: one that lacks it is not the length of a
/// scope from `root` outwards in which `files` have a definition.
fn marks_of(alloc: Global, files: &[FileDefs], root: &str) -> Result<Vec<bool>, Memory>
    ensures leaves { IfOk result (λ v. LeavesNone v.items root.now files.now) }
{
    if has_few_dots(root) {
        return vec![in alloc; true; root.len() + 1];
    }
    let mut marks = vec![in alloc; false; root.len() + 1]?;
    mark_files(files, root.as_bytes(), &mut marks);
    Ok(marks)
}

/// The scopes from `root` outwards in which a definition of `files` can be, each with its dot.
pub(crate) fn spots_of(alloc: Global, files: &Files, root: &str) -> Result<Vec<Text>, Memory>
    ensures spots { IfOk result (λ v. AreSpots files.now root.now v.items) }
{
    let marks = marks_of(alloc, files.as_slice(), root)?;
    marked_scopes(alloc, &marks, root)
}
