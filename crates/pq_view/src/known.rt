//! The names that a change of the roots can touch: each path of which something is known, and its
//! names below the roots before and after.
ghost use Rattle.std.specs.Prelude.{◌≡◌, ◌++◌, IfOk, OnOk, filter_map, flat_map, option_to_list};
ghost use Rattle.pq_view.specs.Views.{name_below};
ghost use Rattle.pq_view.specs.aux.Known.{known_by, known_names, paths_of};

use crate::names::name_below;
use pq_names::{Memory, Text};
use std::alloc::Global;
use std::collections::BTreeMap;

/// Adds the name of the file at `path` below `root`, if it has one.
fn push_name(alloc: Global, names: &mut Vec<Text>, path: &str, root: &str) -> Result<(), Memory>
    ensures added { OnOk result (names.new.items ≡ names.old.items ++ option_to_list (name_below path.now root.now)) }
{
    match name_below(path, root) {
        Some(name) => {
            let name = Text::new(alloc, name)?;
            names.push(name)?;
        }
        None => {}
    }
    Ok(())
}

/// Adds the names of the file at `path` below `roots`.
pub(crate) fn push_names(
    alloc: Global,
    names: &mut Vec<Text>,
    roots: &[Text],
    path: &str,
) -> Result<(), Memory>
    ensures added { OnOk result (names.new.items ≡ names.old.items ++ filter_map (name_below path.now) roots.now) }
{
    'roots: for root in roots {
        push_name(alloc, names, path, root.as_str())?;
    }
    Ok(())
}

/// Adds `path`, and its names below the roots `old` and `new`.
fn push_path(
    alloc: Global,
    names: &mut Vec<Text>,
    old: &[Text],
    new: &[Text],
    path: &str,
) -> Result<(), Memory>
    ensures added { OnOk result (names.new.items ≡ names.old.items ++ known_by old.now new.now path.now) }
{
    let own = Text::new(alloc, path)?;
    names.push(own)?;
    push_names(alloc, names, old, path)?;
    push_names(alloc, names, new, path)
}

/// Adds the paths of `texts`, and their names below the roots `old` and `new`.
fn push_paths(
    alloc: Global,
    names: &mut Vec<Text>,
    old: &[Text],
    new: &[Text],
    texts: &BTreeMap<String, Text>,
) -> Result<(), Memory>
    ensures added { OnOk result (names.new.items
        ≡ names.old.items ++ flat_map (known_by old.now new.now) (paths_of texts.now)) }
{
    'paths: for path in texts.keys() {
        push_path(alloc, names, old, new, path.as_str())?;
    }
    Ok(())
}

/// The names that a change of the roots from `old` to `new` can touch.
pub(crate) fn known_names(
    alloc: Global,
    old: &[Text],
    new: &[Text],
    disk: &BTreeMap<String, Text>,
    documents: &BTreeMap<String, Text>,
) -> Result<Vec<Text>, Memory>
    ensures names { IfOk result (λ names. names.items
        ≡ known_names old.now new.now (paths_of disk.now) (paths_of documents.now)) }
{
    let mut names = Vec::new(alloc);
    push_paths(alloc, &mut names, old, new, disk)?;
    push_paths(alloc, &mut names, old, new, documents)?;
    Ok(names)
}
