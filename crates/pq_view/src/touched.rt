//! The names that a change at a path can touch: the path, the names of its file below the roots, and
//! the paths below the roots of each of these names at which a document is open.
//!
//! A path at which no document is open is no name of a source. With R roots and K names of the path
//! there are at most K R look-ups of such paths.
ghost use Rattle.std.specs.Prelude.{◌≡◌, ◌++◌, ◌∷◌, [], IfOk, OnOk, filter_map, flat_map, is_some, option_to_list};
ghost use Rattle.std.specs.BTreeMap.{get_by_text};
ghost use Rattle.std.specs.List.{filter};
ghost use Rattle.pq_view.specs.Views.{below, name_below};
ghost use Rattle.pq_view.specs.aux.Touched.{open_below, touched_by};

use crate::names::{below, name_below};
use pq_names::{Memory, Text};
use std::alloc::Global;
use std::collections::BTreeMap;

/// Adds the path of the file `name` below `root`, if a document is open there.
fn push_open(
    alloc: Global,
    names: &mut Vec<Text>,
    documents: &BTreeMap<String, Text>,
    root: &str,
    name: &str,
) -> Result<(), Memory>
    ensures added { OnOk result (names.new.items
        ≡ names.old.items ++ filter (λ q. is_some (get_by_text documents.now q)) (below root.now name.now ∷ [])) }
{
    let path = below(alloc, root, name)?;
    if documents.contains_key(path.as_str()) {
        names.push(Text::from_string(alloc, path)?)?;
    }
    Ok(())
}

/// Adds the paths of the file `name` below `roots` at which a document is open.
fn push_below(
    alloc: Global,
    names: &mut Vec<Text>,
    documents: &BTreeMap<String, Text>,
    roots: &[Text],
    name: &str,
) -> Result<(), Memory>
    ensures added { OnOk result
        (names.new.items ≡ names.old.items ++ open_below (get_by_text documents.now) roots.now name.now) }
{
    'roots: for root in roots {
        push_open(alloc, names, documents, root.as_str(), name)?;
    }
    Ok(())
}

/// Adds the file `name` and its paths below `roots` at which a document is open.
fn push_touched(
    alloc: Global,
    names: &mut Vec<Text>,
    documents: &BTreeMap<String, Text>,
    roots: &[Text],
    name: &str,
) -> Result<(), Memory>
    ensures added { OnOk result (names.new.items
        ≡ names.old.items ++ touched_by (get_by_text documents.now) roots.now name.now) }
{
    names.push(Text::new(alloc, name)?)?;
    push_below(alloc, names, documents, roots, name)
}

/// Adds the name of the file at `path` below `root`, if it has one, and its paths below `roots` at
/// which a document is open.
fn push_root(
    alloc: Global,
    names: &mut Vec<Text>,
    documents: &BTreeMap<String, Text>,
    roots: &[Text],
    path: &str,
    root: &str,
) -> Result<(), Memory>
    ensures added { OnOk result (names.new.items ≡ names.old.items
        ++ flat_map (touched_by (get_by_text documents.now) roots.now) (option_to_list (name_below path.now root.now))) }
{
    match name_below(path, root) {
        Some(name) => push_touched(alloc, names, documents, roots, name),
        None => Ok(()),
    }
}

/// The names that a change at `path` can touch, below `roots`, where `documents` are open.
pub(crate) fn touched(
    alloc: Global,
    documents: &BTreeMap<String, Text>,
    roots: &[Text],
    path: &str,
) -> Result<Vec<Text>, Memory>
    ensures names { IfOk result (λ names. names.items ≡ path.now
        ∷ flat_map (touched_by (get_by_text documents.now) roots.now) (filter_map (name_below path.now) roots.now)) }
{
    let mut names = Vec::new(alloc);
    names.push(Text::new(alloc, path)?)?;
    'roots: for root in roots {
        push_root(alloc, &mut names, documents, roots, path, root.as_str())?;
    }
    Ok(names)
}
