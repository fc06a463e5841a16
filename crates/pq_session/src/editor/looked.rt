//! The folders in which an import was looked for, as a text behind the message of P102.
ghost use Rattle.std.specs.Prelude.{◌≡◌, ◌++◌, codes, take, string_bytes, IfOk, OnOk};
ghost use Rattle.pq_session.specs.Editor.{looked_in as text_looked_in, folders_text, later_folders, more_folders, most_named};

use pq_names::Text;
use std::alloc::{AllocError, Global};

/// The most folders that are named.
const MOST: usize = 8;

/// Appends `folders`, each after a comma.
fn push_later(out: &mut String, folders: &[Text]) -> Result<(), AllocError>
    ensures { OnOk result (string_bytes out.new ≡ string_bytes out.old ++ later_folders folders.now) }
{
    'folders: for folder in folders {
        push_next(out, folder.as_str())?;
    }
    Ok(())
}

/// Appends `folder` after a comma.
fn push_next(out: &mut String, folder: &str) -> Result<(), AllocError>
    ensures { OnOk result (string_bytes out.new ≡ string_bytes out.old ++ (codes ", " ++ folder.now)) }
{
    out.push_str(", ")?;
    out.push_str(folder)?;
    Ok(())
}

/// Appends `folders`, with commas between.
fn push_folders(out: &mut String, folders: &[Text]) -> Result<(), AllocError>
    ensures { OnOk result (string_bytes out.new ≡ string_bytes out.old ++ folders_text folders.now) }
{
    match folders.split_first() {
        Some((first, rest)) => {
            out.push_str(first.as_str())?;
            push_later(out, rest)
        }
        None => Ok(()),
    }
}

/// Those of `folders` that are named: the first of them.
#[tactic(auto, using(crate::proofs::LookedLemmas::all_named))]
fn named(folders: &[Text]) -> &[Text]
    ensures { result.now ≡ take most_named folders.now }
{
    if folders.len() <= MOST {
        return folders;
    }
    &folders[..MOST]
}

/// How many folders there are beside those that are named.
fn more_text(alloc: Global, count: usize) -> Result<String, AllocError>
    ensures { IfOk result (λ s. string_bytes s ≡ more_folders count) }
{
    if count == 0 {
        return String::from_str(alloc, "");
    }
    if count == 1 {
        return String::from_str(alloc, " and 1 more folder");
    }
    format!(in alloc; " and {count} more folders")
}

/// The text that follows the message of an import that is not found (P102): the folders below which
/// it was looked for. At most eight are named, and the others counted. Without a folder the text is
/// empty.
///
/// Only `Memory` is an error, after an allocation failure.
pub fn looked_in(alloc: Global, folders: &[Text]) -> Result<String, AllocError>
    // The text that names the folders, the first eight of them, and counts the others.
    ensures { IfOk result (λ s. string_bytes s ≡ text_looked_in folders.now) }
{
    let mut out = String::new(alloc);
    if folders.is_empty() {
        return Ok(out);
    }
    let more = more_text(alloc, folders.len().saturating_sub(MOST))?;
    out.push_str(" (looked for in ")?;
    push_folders(&mut out, named(folders))?;
    out.push_str(more.as_str())?;
    out.push_str(")")?;
    Ok(out)
}
