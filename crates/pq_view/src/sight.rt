//! What is asked of a view, also while a change is laid over it.
ghost use Rattle.std.specs.Prelude.{◌≡◌, IfOk, option_copied, option_map, string_bytes};
ghost use Rattle.pq_view.specs.Views.{below, first_placed, first_root, is_placed, name_of, names_of, own_text, path_of, paths_before, place, source, text_at};
ghost use Rattle.pq_view.specs.aux.Sights.{layer_text, seen, placed_below};

use crate::names::{below, is_path, name_below};
use pq_names::{Memory, Text};
use std::alloc::Global;
use std::collections::BTreeMap;

/// A change: the file at `path` has `text`, or is absent.
#[derive(Clone, Copy)]
pub(crate) struct Change<'a> {
    pub(crate) path: &'a str,
    pub(crate) text: Option<&'a Text>,
}

/// The texts of files by their paths, with a change laid over them.
#[derive(Clone, Copy)]
pub(crate) struct Layer<'a> {
    pub(crate) texts: &'a BTreeMap<String, Text>,
    pub(crate) change: Option<Change<'a>>,
}

impl<'a> Layer<'a> {
    /// The text at `path`.
    pub(crate) fn get(&self, path: &str) -> Option<&'a Text>
        ensures text { option_copied result ≡ layer_text self.now path.now }
    {
        if let Some(change) = self.change {
            if change.path == path {
                return change.text;
            }
        }
        self.texts.get(path)
    }
}

/// A view, maybe with a change laid over it.
#[derive(Clone, Copy)]
pub(crate) struct Sight<'a> {
    pub(crate) alloc: Global,
    pub(crate) roots: &'a [Text],
    pub(crate) disk: Layer<'a>,
    pub(crate) documents: Layer<'a>,
}

impl<'a> Sight<'a> {
    /// The text of the file at `path`: that of the document, else that on the disk.
    pub(crate) fn text_at(&self, path: &str) -> Option<&'a Text>
        ensures text { option_copied result ≡ text_at (seen self.now) path.now }
    {
        match self.documents.get(path) {
            Some(text) => Some(text),
            None => self.disk.get(path),
        }
    }

    /// The path of the file `name`, if there is one: below the first root below which there is one.
    pub(crate) fn place(&self, name: &str) -> Result<Option<String>, Memory>
        ensures place { IfOk result (λ path. option_map string_bytes path ≡ place (seen self.now) name.now) }
    {
        'roots: for root in self.roots {
            let path = below(self.alloc, root.as_str(), name)?;
            if self.text_at(path.as_str()).is_some() {
                return Ok(Some(path));
            }
        }
        Ok(None)
    }

    /// The paths of the file `name` below the roots, up to the first root below which there is one,
    /// which is left out.
    pub(crate) fn paths_before(&self, name: &str) -> Result<Vec<Text>, Memory>
        ensures paths { IfOk result (λ paths. paths.items ≡ paths_before (seen self.now) name.now) }
    {
        let mut paths = Vec::new(self.alloc);
        if is_path(name) {
            return Ok(paths);
        }
        'roots: for root in self.roots {
            let path = below(self.alloc, root.as_str(), name)?;
            if self.text_at(path.as_str()).is_some() {
                return Ok(paths);
            }
            paths.push(Text::from_string(self.alloc, path)?)?;
        }
        Ok(paths)
    }

    /// Whether `path` is the path of the file `name`.
    fn is_placed(&self, path: &str, name: &str) -> Result<bool, Memory>
        ensures placed { IfOk result (λ is. is ≡ is_placed (seen self.now) path.now name.now) }
    {
        match self.place(name)? {
            Some(place) => Ok(place.as_str() == path),
            None => Ok(false),
        }
    }

    /// The name of the file at `path` below `root`, if it is the file of that name.
    fn placed_below<'p>(&self, path: &'p str, root: &str) -> Result<Option<&'p str>, Memory>
        ensures name { IfOk result (λ name. option_copied name ≡ placed_below (seen self.now) path.now root.now) }
    {
        if let Some(name) = name_below(path, root) {
            if self.is_placed(path, name)? {
                return Ok(Some(name));
            }
        }
        Ok(None)
    }

    /// The first of the names of the file at `path` of which it is the file.
    fn first_name<'p>(&self, path: &'p str) -> Result<Option<&'p str>, Memory>
        ensures name { IfOk result (λ name. option_copied name ≡
            first_placed (seen self.now) path.now (names_of (seen self.now) path.now)) }
    {
        'roots: for root in self.roots {
            match self.placed_below(path, root.as_str())? {
                Some(name) => return Ok(Some(name)),
                None => {}
            }
        }
        Ok(None)
    }

    /// The text of the document at `path`, if it is the file of none of its names.
    fn own_text(&self, path: &str) -> Result<Option<&'a Text>, Memory>
        ensures text { IfOk result (λ text. option_copied text ≡ own_text (seen self.now) path.now) }
    {
        let Some(text) = self.documents.get(path) else {
            return Ok(None);
        };
        match self.first_name(path)? {
            Some(_) => Ok(None),
            None => Ok(Some(text)),
        }
    }

    /// The text of the file `name` in the sources, if it has one.
    pub(crate) fn source(&self, name: &str) -> Result<Option<&'a Text>, Memory>
        ensures text { IfOk result (λ text. option_copied text ≡ source (seen self.now) name.now) }
    {
        if is_path(name) {
            return self.own_text(name);
        }
        match self.place(name)? {
            Some(place) => Ok(self.text_at(place.as_str())),
            None => Ok(None),
        }
    }

    /// The name by which the diagnostics of the file at `path` are asked.
    pub(crate) fn name_of(&self, path: &str) -> Result<Text, Memory>
        ensures name { IfOk result (λ name. name ≡ name_of (seen self.now) path.now) }
    {
        match self.first_name(path)? {
            Some(name) => Text::new(self.alloc, name),
            None => Text::new(self.alloc, path),
        }
    }

    /// The path of the file `name` below the first root.
    fn first_below(&self, name: &str) -> Result<Text, Memory>
        ensures path { IfOk result (λ path. path ≡ below (first_root (seen self.now)) name.now) }
    {
        match self.roots.first() {
            Some(root) => Text::from_string(self.alloc, below(self.alloc, root.as_str(), name)?),
            None => Text::from_string(self.alloc, below(self.alloc, "", name)?),
        }
    }

    /// The path that the file `name` has in replies.
    pub(crate) fn path_of(&self, name: &str) -> Result<Text, Memory>
        ensures path { IfOk result (λ path. path ≡ path_of (seen self.now) name.now) }
    {
        if is_path(name) {
            return Text::new(self.alloc, name);
        }
        match self.place(name)? {
            Some(place) => Text::from_string(self.alloc, place),
            None => self.first_below(name),
        }
    }
}
