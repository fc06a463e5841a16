//! The view of one editor.
ghost use Rattle.std.specs.Prelude.{◌≡◌, ◌↔◌, ℕ, List, [], None, IsTrue, IsSome, IfOk, OnOk, OnErr, option_copied};
ghost use Rattle.std.specs.BTreeMap.{get_by_text};
ghost use Rattle.pq_view.specs.Edits.{AreEdits, with_document, with_file, with_roots, with_text};
ghost use Rattle.pq_view.specs.Held.{view_of};
ghost use Rattle.pq_view.specs.Views.{name_of, names_of, path_of, paths_before, source, text_at};
ghost use Rattle.pq_view.specs.aux.Sights.{seen};

use crate::edits::{Edit, edits_of};
use crate::known::{known_names, push_names};
use crate::sight::{Change, Layer, Sight};
use crate::touched::touched;
use pq_names::{Memory, Text};
use std::alloc::Global;
use std::collections::BTreeMap;

/// The files that one editor sees: root folders, what is known of the disk, and open documents.
///
/// Contracts see it by `view_of`, as its roots and as two functions from paths to texts.
#[derive(Drop)]
pub struct View {
    pub(crate) alloc: Global,
    roots: Vec<Text>,
    disk: BTreeMap<String, Text>,
    pub(crate) documents: BTreeMap<String, Text>,
}

/// The file at `path` has `text` from now on, or is absent. After `Memory` all is as it was.
fn put(
    alloc: Global,
    texts: &mut BTreeMap<String, Text>,
    path: &str,
    text: Option<Text>,
) -> Result<(), Memory>
    ensures put { OnOk result ((q : List ℕ) → get_by_text texts.new q ≡ with_text path.now text (get_by_text texts.old) q) }
    ensures refused { OnErr result (texts.new.entries ≡ texts.old.entries) }
{
    match text {
        Some(text) => {
            let key = String::from_str(alloc, path)?;
            texts.insert(key, text)?;
        }
        None => {
            texts.remove(path);
        }
    }
    Ok(())
}

impl View {
    /// A view without roots, of which nothing is known and nothing is open. It takes its memory
    /// from `alloc`.
    pub fn new(alloc: Global) -> View
        // `roots`, `disk`, `documents`: there are no roots, no known files and no documents.
        ensures roots { (view_of result).roots ≡ [] }
        ensures disk { (path : List ℕ) → (view_of result).disk path ≡ None }
        ensures documents { (path : List ℕ) → (view_of result).documents path ≡ None }
    {
        View {
            alloc,
            roots: Vec::new(alloc),
            disk: BTreeMap::new(alloc),
            documents: BTreeMap::new(alloc),
        }
    }

    /// The view, for questions.
    fn sight(&self) -> Sight<'_>
        ensures seen { seen result ≡ view_of self.now }
    {
        Sight {
            alloc: self.alloc,
            roots: &self.roots,
            disk: Layer {
                texts: &self.disk,
                change: None,
            },
            documents: Layer {
                texts: &self.documents,
                change: None,
            },
        }
    }

    /// The text of the file at `path`: that of the document, else that on the disk.
    pub fn text_at(&self, path: &str) -> Option<&Text>
        // The text of the document at the path, else that of the disk, else none.
        ensures text { option_copied result ≡ text_at (view_of self.now) path.now }
    {
        self.sight().text_at(path)
    }

    /// Whether the document at `path` is open.
    pub fn is_open(&self, path: &str) -> bool
        // Whether there is a document at the path.
        ensures open { IsTrue result ↔ IsSome ((view_of self.now).documents path.now) }
    {
        self.documents.contains_key(path)
    }

    /// The text of the file `name` in the sources, or `None` if it has none. `Memory` comes if an
    /// allocation fails.
    pub fn source(&self, name: &str) -> Result<Option<&Text>, Memory>
        // The text of the file: below the first root that has it, or as the own name of a document.
        ensures text { IfOk result (λ text. option_copied text ≡ source (view_of self.now) name.now) }
    {
        self.sight().source(name)
    }

    /// The name by which the diagnostics of the file at `path` are asked. `Memory` comes if an
    /// allocation fails.
    pub fn name_of(&self, path: &str) -> Result<Text, Memory>
        // The first of the names below roots of which the path is the file, else the path.
        ensures name { IfOk result (λ name. name ≡ name_of (view_of self.now) path.now) }
    {
        self.sight().name_of(path)
    }

    /// The path that the file `name` has in replies. `Memory` comes if an allocation fails.
    pub fn path_of(&self, name: &str) -> Result<Text, Memory>
        // Where the file is, else where it would be below the first root. A path is its own.
        ensures path { IfOk result (λ path. path ≡ path_of (view_of self.now) name.now) }
    {
        self.sight().path_of(name)
    }

    /// The names of the file at `path` below the roots, in their order. A file that lies below no
    /// root has none. With R roots it takes R comparisons.
    ///
    /// `Memory` comes if an allocation fails.
    pub fn names_of(&self, path: &str) -> Result<Vec<Text>, Memory>
        // What is left of the path below each root below which it lies.
        ensures names { IfOk result (λ names. names.items ≡ names_of (view_of self.now) path.now) }
    {
        let mut names = Vec::new(self.alloc);
        push_names(self.alloc, &mut names, &self.roots, path)?;
        Ok(names)
    }

    /// The paths at which the file `name` would be found before the place that it has, or in place
    /// of it where it has none: below each root, up to the first below which the view has a text.
    /// A name that is a path has none.
    ///
    /// Who knows that the disk has nothing at these paths, and what it has at the place, knows all
    /// of the disk on which the source of the file rests: `what_was_looked_at_is_enough`.
    ///
    /// With R roots and N paths it takes at most R look-ups of log N comparisons. `Memory` comes if
    /// an allocation fails.
    pub fn paths_before(&self, name: &str) -> Result<Vec<Text>, Memory>
        // The paths below the roots that come before the place of the file, in their order.
        ensures paths { IfOk result (λ paths. paths.items ≡ paths_before (view_of self.now) name.now) }
    {
        self.sight().paths_before(name)
    }

    /// The view after the document at `path` has `text`, or is closed, for questions.
    fn after_document<'a>(&'a self, path: &'a str, text: Option<&'a Text>) -> Sight<'a>
        ensures seen { seen result ≡ with_document path.now (option_copied text.entry) (view_of self.now) }
    {
        let change = Some(Change { path, text });
        let now = self.sight();
        Sight {
            alloc: self.alloc,
            roots: now.roots,
            disk: now.disk,
            documents: Layer {
                texts: &self.documents,
                change,
            },
        }
    }

    /// The view after the disk has `text` at `path`, or nothing, for questions.
    fn after_file<'a>(&'a self, path: &'a str, text: Option<&'a Text>) -> Sight<'a>
        ensures seen { seen result ≡ with_file path.now (option_copied text.entry) (view_of self.now) }
    {
        let change = Some(Change { path, text });
        let now = self.sight();
        Sight {
            alloc: self.alloc,
            roots: now.roots,
            disk: Layer {
                texts: &self.disk,
                change,
            },
            documents: now.documents,
        }
    }

    /// The view after its roots are `roots`, for questions.
    fn after_roots<'a>(&'a self, roots: &'a [Text]) -> Sight<'a>
        ensures seen { seen result ≡ with_roots roots.now (view_of self.now) }
    {
        let now = self.sight();
        Sight {
            alloc: self.alloc,
            roots,
            disk: now.disk,
            documents: now.documents,
        }
    }

    /// The edits that follow if the roots are `roots`.
    fn roots_edits(&self, roots: &[Text]) -> Result<Vec<Edit>, Memory>
        ensures edits { IfOk result (λ es. AreEdits (view_of self.now) (with_roots roots.now (view_of self.now)) es.items) }
    {
        let names = known_names(self.alloc, &self.roots, roots, &self.disk, &self.documents)?;
        let before = self.sight();
        let after = self.after_roots(roots);
        edits_of(self.alloc, &before, &after, &names)
    }

    /// The edits that follow if the document at `path` has `text`, or is closed.
    fn document_edits(&self, path: &str, text: Option<&Text>) -> Result<Vec<Edit>, Memory>
        ensures edits { IfOk result (λ es. AreEdits (view_of self.now)
            (with_document path.now (option_copied text.entry) (view_of self.now)) es.items) }
    {
        let names = touched(self.alloc, &self.documents, &self.roots, path)?;
        let before = self.sight();
        let after = self.after_document(path, text);
        edits_of(self.alloc, &before, &after, &names)
    }

    /// The edits that follow if the disk has `text` at `path`, or nothing.
    fn file_edits(&self, path: &str, text: Option<&Text>) -> Result<Vec<Edit>, Memory>
        ensures edits { IfOk result (λ es. AreEdits (view_of self.now)
            (with_file path.now (option_copied text.entry) (view_of self.now)) es.items) }
    {
        let names = touched(self.alloc, &self.documents, &self.roots, path)?;
        let before = self.sight();
        let after = self.after_file(path, text);
        edits_of(self.alloc, &before, &after, &names)
    }

    /// The document at `path` has `text` from now on, or is closed for `None`. The edits of the
    /// sources come back that follow from it.
    ///
    /// With R roots, N paths and K names of the path it takes some K R look-ups of log N comparisons,
    /// and as many more for each document that is open at another path of one of these names.
    /// `Memory` comes if an allocation fails, and then the view is as it was.
    pub fn set_document(&mut self, path: Text, text: Option<Text>) -> Result<Vec<Edit>, Memory>
        // `view`, `edits`: the view has the document, and all else as before. The edits are exactly
        // those of the files whose sources differ, each once.
        ensures view { OnOk result (view_of self.new ≡ with_document path text (view_of self.old)) }
        ensures edits { IfOk result (λ es. AreEdits (view_of self.old) (view_of self.new) es.items) }
        // After an error the view is as it was.
        ensures refused { OnErr result (view_of self.new ≡ view_of self.old) }
    {
        let edits = self.document_edits(path.as_str(), text.as_ref())?;
        put(self.alloc, &mut self.documents, path.as_str(), text)?;
        Ok(edits)
    }

    /// The disk has `text` at `path` from now on, or nothing for `None`. The edits of the sources
    /// come back that follow from it.
    ///
    /// With R roots, N paths and K names of the path it takes some K R look-ups of log N comparisons,
    /// and as many more for each document that is open at another path of one of these names.
    /// `Memory` comes if an allocation fails, and then the view is as it was.
    pub fn set_file(&mut self, path: Text, text: Option<Text>) -> Result<Vec<Edit>, Memory>
        // `view`, `edits`: the disk has the file, and all else is as before. The edits are exactly
        // those of the files whose sources differ, each once.
        ensures view { OnOk result (view_of self.new ≡ with_file path text (view_of self.old)) }
        ensures edits { IfOk result (λ es. AreEdits (view_of self.old) (view_of self.new) es.items) }
        // After an error the view is as it was.
        ensures refused { OnErr result (view_of self.new ≡ view_of self.old) }
    {
        let edits = self.file_edits(path.as_str(), text.as_ref())?;
        put(self.alloc, &mut self.disk, path.as_str(), text)?;
        Ok(edits)
    }

    /// The root folders are `roots` from now on, in this order: their paths, without a slash at the
    /// end. The edits of the sources come back that follow from it.
    ///
    /// With R roots and N paths it takes some R^3 N log N comparisons. `Memory` comes if an
    /// allocation fails, and then the view is as it was.
    pub fn set_roots(&mut self, roots: Vec<Text>) -> Result<Vec<Edit>, Memory>
        // `view`, `edits`: the view has the roots, and all else as before. The edits are exactly
        // those of the files whose sources differ, each once.
        ensures view { OnOk result (view_of self.new ≡ with_roots roots.items (view_of self.old)) }
        ensures edits { IfOk result (λ es. AreEdits (view_of self.old) (view_of self.new) es.items) }
        // After an error the view is as it was.
        ensures refused { OnErr result (view_of self.new ≡ view_of self.old) }
    {
        let edits = self.roots_edits(&roots)?;
        self.roots = roots;
        Ok(edits)
    }
}
